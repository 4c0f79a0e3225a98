//! Values of each kind of node, with and without a tree.
use avro_bin::{Node, Refusal, Table, Tree, decode, encode, size, span};
use etp_values::{Blob, List, NoMemory};
use std::alloc::Global;

static NODES: Table = Table {
    nodes: &[
        Node::Null,
        Node::Boolean,
        Node::Int,
        Node::Long,
        Node::Float,
        Node::Double,
        Node::Bytes,
        Node::Text,
        Node::Fixed(4),
        Node::Enum(3),
        Node::Array(3),
        Node::Map(7),
        Node::Array(0),
        Node::Union(&[0, 3]),
        Node::Union(&[0, 1, 2, 3, 4, 5, 7]),
        Node::Fields(&[14]),
        Node::Fields(&[0, 1, 2, 3, 4, 5, 6, 7, 8, 9, 10, 11, 13, 15]),
        Node::Array(6),
    ],
};

/// The place of the lists of bytes.
const BLOBS: u32 = 17;

#[tactic(auto, using(avro_bin::proofs::TableTestLemmas::table_is))]
fn read(alloc: Global, id: u32, bytes: &[u8]) -> Result<(Tree, usize), Refusal> {
    decode(alloc, &NODES, id % 18, bytes)
}

#[tactic(auto, using(avro_bin::proofs::TableTestLemmas::table_is))]
fn length(alloc: Global, id: u32, bytes: &[u8]) -> Result<usize, Refusal> {
    span(alloc, &NODES, id % 18, bytes)
}

/// What these digits denote as a value of a node, whose place comes before them.
pub(crate) fn node(alloc: Global, words: &str) -> Result<String, NoMemory> {
    let Some((place, digits)) = words.split_once(' ') else {
        return Ok(String::new(alloc));
    };
    let Ok(bytes) = hex::decode(alloc, digits) else {
        return Ok(String::new(alloc));
    };
    let id = place.parse::<u32>().unwrap_or(0);
    let read = show_read(alloc, id, bytes.as_slice())?;
    let length = show_length(alloc, id, bytes.as_slice())?;
    let (read, length) = (read.as_str(), length.as_str());
    Ok(format!(in alloc; "{length}; {read}")?)
}

fn show_length(alloc: Global, id: u32, bytes: &[u8]) -> Result<String, NoMemory> {
    match length(alloc, id, bytes) {
        Ok(length) => Ok(format!(in alloc; "{length}")?),
        Err(refusal) => Ok(refusal.to_string(alloc)?),
    }
}

fn show_read(alloc: Global, id: u32, bytes: &[u8]) -> Result<String, NoMemory> {
    match read(alloc, id, bytes) {
        Ok((tree, length)) => show_tree(alloc, id, &tree, length),
        Err(refusal) => Ok(refusal.to_string(alloc)?),
    }
}

/// How much was read, and how it is written after what was there.
fn show_tree(alloc: Global, id: u32, tree: &Tree, length: usize) -> Result<String, NoMemory> {
    let mut bytes = b"x".to_vec(alloc)?;
    encode(&NODES, id, tree, &mut bytes)?;
    let digits = hex::encode_upper(alloc, bytes.as_slice())?;
    let digits = digits.as_str();
    match size(&NODES, id, tree) {
        Ok(size) => Ok(format!(in alloc; "{length} {size} {digits}")?),
        Err(_) => Ok(String::from_str(alloc, "too long")?),
    }
}

/// The same bytes, repeated.
fn copies(blob: &Blob, count: usize, alloc: Global) -> Result<List<Tree>, NoMemory> {
    let mut items = Vec::new(alloc);
    for _ in 0..count {
        items.push(Tree::Bytes(blob.share()?))?;
    }
    Ok(List::from_vec(items))
}

/// 2^40 bytes in a list.
pub(crate) fn too_long(alloc: Global) -> Result<String, NoMemory> {
    let blob = Blob::from_vec(vec![in alloc; 0; 1 << 26]?)?;
    let items = copies(&blob, 1 << 14, alloc)?;
    match size(&NODES, BLOBS, &Tree::Array(items)) {
        Ok(size) => Ok(format!(in alloc; "{size}")?),
        Err(_) => Ok(String::from_str(alloc, "too long")?),
    }
}
