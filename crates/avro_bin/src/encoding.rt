//! Writing values: each in its one written spelling.
ghost use Rattle.std.specs.Prelude.{◌≡◌, ◌++◌, ◌<◌, length, map, OnOk, OnErr};
ghost use Rattle.avro_bin.specs.Plain.{plain, plain_all, plain_named, plain_block, plain_blob, Writes};
ghost use Rattle.avro_bin.specs.Value.{VArray, VMap, row, entries};
ghost use Rattle.avro_bin.specs.View.{value_of, entry_of};
ghost use Rattle.avro_bin.specs.Shape.{HasSchema, IsText, FitsTree, AllFit, AllNamedFit};
ghost use Rattle.avro_bin.specs.Schema.{schema};
ghost use Rattle.avro_bin.specs.Grammar.{Spells};

use crate::numbers::put_number;
use crate::schema::Table;
use crate::tree::Tree;
use etp_values::{Named, NoMemory, Text};

/// Appends a length and the bytes.
pub fn put_blob(out: &mut Vec<u8>, bytes: &[u8]) -> Result<(), NoMemory>
    ensures { Writes (plain_blob bytes.now) out.old.items out.new.items result }
{
    put_number(out, bytes.len() as i64)?;
    out.extend_from_slice(bytes)?;
    Ok(())
}

/// Appends a text.
#[tactic(auto, using(crate::proofs::TextLemmas::text_is))]
pub fn put_text(out: &mut Vec<u8>, text: &Text) -> Result<(), NoMemory>
    ensures written { Writes (plain_blob text.now) out.old.items out.new.items result }
    ensures text { IsText text.now }
{
    put_blob(out, text.as_bytes())
}

/// Appends a value.
#[cycle(encoding)]
#[tactic(auto, using(crate::proofs::ViewLemmas::values, crate::proofs::PlainLemmas::plain_array, crate::proofs::PlainLemmas::plain_map))]
fn put_value(out: &mut Vec<u8>, tree: &Tree) -> Result<(), NoMemory>
    ensures written { Writes (plain (value_of tree.now)) out.old.items out.new.items result }
    ensures fits { OnOk result (FitsTree (value_of tree.now)) }
{
    match tree {
        Tree::Null => Ok(()),
        Tree::Boolean(b) => {
            out.push(if *b { 1 } else { 0 })?;
            Ok(())
        }
        Tree::Int(x) => put_number(out, *x as i64),
        Tree::Long(x) => put_number(out, *x),
        Tree::Float(x) => {
            out.extend_from_slice(&x.0.to_le_bytes())?;
            Ok(())
        }
        Tree::Double(x) => {
            out.extend_from_slice(&x.0.to_le_bytes())?;
            Ok(())
        }
        Tree::Bytes(b) => put_blob(out, b.as_bytes()),
        Tree::Text(t) => put_text(out, t),
        Tree::Fixed(b) => {
            out.extend_from_slice(b.as_bytes())?;
            Ok(())
        }
        Tree::Enum(p) => put_number(out, *p as i64),
        Tree::Array(l) => put_array(out, l.as_slice()),
        Tree::Map(m) => put_map(out, m),
        Tree::Union(p, v) => {
            put_number(out, *p as i64)?;
            put_value(out, v)?;
            Ok(())
        }
        Tree::Fields(l) => put_all(out, l.as_slice()),
    }
}

/// Appends one block of items, or none, and a count of 0.
#[cycle(encoding)]
#[tactic(auto, using(crate::proofs::PlainLemmas::block_some, crate::proofs::PlainLemmas::block_none))]
fn put_array(out: &mut Vec<u8>, trees: &[Tree]) -> Result<(), NoMemory>
    ensures written { Writes (plain_block (length trees.now) (plain_all (row (map value_of trees.now)))) out.old.items out.new.items result }
    ensures fits { OnOk result (FitsTree (VArray (row (map value_of trees.now)))) }
{
    if trees.is_empty() {
        return put_number(out, 0);
    }
    put_number(out, trees.len() as i64)?;
    put_all(out, trees)?;
    put_number(out, 0)?;
    Ok(())
}

/// Appends values, one after another.
#[cycle(encoding)]
#[tactic(auto, using(std::proofs::Transfers::starts_with_trans))]
fn put_all(out: &mut Vec<u8>, trees: &[Tree]) -> Result<(), NoMemory>
    ensures written { Writes (plain_all (row (map value_of trees.now))) out.old.items out.new.items result }
    ensures fits { OnOk result (AllFit (row (map value_of trees.now))) }
{
    for tree in trees {
        put_value(out, tree)?;
    }
    Ok(())
}

/// Appends one block of entries, or none, and a count of 0.
#[cycle(encoding)]
#[tactic(auto, using(crate::proofs::PlainLemmas::block_some, crate::proofs::PlainLemmas::block_none))]
fn put_map(out: &mut Vec<u8>, named: &Named<Tree>) -> Result<(), NoMemory>
    ensures written { Writes (plain_block (length named.now) (plain_named (entries (map entry_of named.now)))) out.old.items out.new.items result }
    ensures fits { OnOk result (FitsTree (VMap (entries (map entry_of named.now)))) }
{
    let count = named.len();
    if count == 0 {
        return put_number(out, 0);
    }
    put_number(out, count as i64)?;
    put_named(out, named)?;
    put_number(out, 0)?;
    Ok(())
}

/// Appends a name and its value.
#[cycle(encoding)]
fn put_entry(out: &mut Vec<u8>, name: &Text, tree: &Tree) -> Result<(), NoMemory>
    ensures written { Writes (plain_blob name.now ++ plain (value_of tree.now)) out.old.items out.new.items result }
    ensures text { IsText name.now }
    ensures fits { OnOk result (FitsTree (value_of tree.now)) }
{
    put_text(out, name)?;
    put_value(out, tree)?;
    Ok(())
}

/// Appends names and values, in order.
#[cycle(encoding)]
#[tactic(auto, using(std::proofs::Transfers::starts_with_trans))]
fn put_named(out: &mut Vec<u8>, named: &Named<Tree>) -> Result<(), NoMemory>
    ensures written { Writes (plain_named (entries (map entry_of named.now))) out.old.items out.new.items result }
    ensures fits { OnOk result (AllNamedFit (entries (map entry_of named.now))) }
{
    for i in 0..named.len() {
        let (name, tree) = named.at(i);
        put_entry(out, name, tree)?;
    }
    Ok(())
}

/// Appends the one spelling of the tree that is written: shortest numbers, one block with a positive count or none, and names in byte
/// order. The tree says by its variants how each value is written; `table` and `id` name the schema by which it reads back, if the tree is
/// a value of it.
pub fn encode(table: &Table, id: u32, tree: &Tree, into: &mut Vec<u8>) -> Result<(), NoMemory>
    ensures written { OnOk result (into.new.items ≡ into.old.items ++ plain (value_of tree.now)) }
    ensures spelled { OnOk result (HasSchema (schema table.now.nodes.now id) (value_of tree.now)
        → Spells (schema table.now.nodes.now id) (value_of tree.now) (plain (value_of tree.now))) }
    ensures fits { OnOk result (FitsTree (value_of tree.now)) }
    ensures kept { OnErr result (into.new.items ≡ into.old.items) }
{
    let start = into.len();
    match put_value(into, tree) {
        Ok(()) => Ok(()),
        Err(error) => {
            into.truncate(start);
            Err(error)
        }
    }
}
