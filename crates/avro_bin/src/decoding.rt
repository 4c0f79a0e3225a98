//! Reading values: a node at a time, from left to right, up to the first fault.
//!
//! Each function returns the rest of the bytes and the number of nodes that are still allowed. Recursion goes to a child's place, which is
//! smaller, so the table bounds its depth and the bytes do not.
ghost use Rattle.std.specs.Prelude.{◌≡◌, ◌==◌, ◌+◌, ◌⊎◌, ◌<◌, ℕ, suc, length, map, true, MatchResult, IfOk, IfErr, ◌-◌};
ghost use Rattle.std.specs.List.{AllByRecursion};
ghost use Rattle.avro_bin.specs.Reading.{Gives, value_at, items_at, block_at, element_at, entry_at};
ghost use Rattle.avro_bin.specs.Schema.{Schema, SFields, SUnion, SArray, SMap, schema, schemas, node_schema, IsTable, is_leaf};
ghost use Rattle.avro_bin.specs.View.{value_of, entry_of};
ghost use Rattle.avro_bin.specs.Value.{Value};
ghost use Rattle.avro_bin.specs.Shape.{HasSchema};
ghost use Rattle.avro_bin.specs.Laws.{IsRead, ReadsAs, RefusesAs, Decodes, read_value, node_limit};
ghost use Rattle.avro_bin.specs.Refusing.{IsRefused};
ghost use Rattle.avro_bin.specs.declared.fault.Fault.TheVariants.{Memory};
ghost use Rattle.avro_bin.specs.declared.refusal.Refusal.{Refusal as Refused};
ghost use Rattle.avro_bin.specs.declared.refusal.Refusal.TheVariants.{NoMemory as Unread};

use crate::blocks::is_filled;
use crate::fault::{Fault, Why};
use crate::leaves::{blob, boolean, bytes_of, double, float, int, place, text};
use crate::numbers::number;
use crate::refusal::{Refusal, refusal_at};
use crate::schema::{Node, Table};
use crate::tree::Tree;
use etp_values::{Bits32, Bits64, Blob, List, Named, Text};
use std::alloc::Global;
use std::collections::BTreeMap;

/// How many nodes a value may have: a value counts 1 plus the values in it. Names count nothing.
pub const NODE_LIMIT: u32 = 8_388_608;

/// The value of a node without children.
#[tactic(auto, using(crate::proofs::ViewLemmas::values), unfolding(crate::specs::Reading::value_at))]
fn leaf(alloc: Global, node: Node, allowed: u32, bytes: &[u8]) -> Result<(Tree, u32, &[u8]), Fault>
    requires { is_leaf node ≡ true }
    ensures { (at : ℕ → Schema) → Gives (λ x. ((value_of x.0, x.1), x.2.now)) result (value_at (node_schema at node) (suc allowed) bytes.now) }
{
    match node {
        Node::Boolean => {
            let (b, rest) = boolean(bytes)?;
            Ok((Tree::Boolean(b), allowed, rest))
        }
        Node::Int => {
            let (x, rest) = int(bytes)?;
            Ok((Tree::Int(x), allowed, rest))
        }
        Node::Long => {
            let (x, rest) = number(bytes)?;
            Ok((Tree::Long(x), allowed, rest))
        }
        Node::Bytes => {
            let (b, rest) = blob(bytes)?;
            Ok((Tree::Bytes(Blob::copy(alloc, b)?), allowed, rest))
        }
        Node::Text => {
            let (b, rest) = text(bytes)?;
            Ok((Tree::Text(Text::copy(alloc, b)?), allowed, rest))
        }
        Node::Fixed(size) => {
            let (b, rest) = bytes_of(bytes.len(), size as u64, bytes)?;
            Ok((Tree::Fixed(Blob::copy(alloc, b)?), allowed, rest))
        }
        Node::Enum(count) => {
            let (p, rest) = place(count as usize, bytes)?;
            Ok((Tree::Enum(p), allowed, rest))
        }
        Node::Float => {
            let (x, rest) = float(bytes)?;
            Ok((Tree::Float(Bits32(x)), allowed, rest))
        }
        Node::Double => {
            let (x, rest) = double(bytes)?;
            Ok((Tree::Double(Bits64(x)), allowed, rest))
        }
        Node::Null => Ok((Tree::Null, allowed, bytes)),
        _ => unreachable!(),
    }
}

/// The value of the node at a place.
#[cycle(decode)]
fn value<'a>(
    alloc: Global,
    nodes: &[Node],
    id: u32,
    allowed: u32,
    bytes: &'a [u8],
) -> Result<(Tree, u32, &'a [u8]), Fault>
    requires table { IsTable nodes.now }
    requires there { id < length nodes.now }
    ensures { Gives (λ x. ((value_of x.0, x.1), x.2.now)) result (value_at (schema nodes.now id) allowed bytes.now) }
{
    if allowed == 0 {
        return Err(Fault::At(Why::Limit, bytes.len()));
    }
    let node = nodes[id as usize];
    match node {
        Node::Array(child) => array(alloc, nodes, child, allowed - 1, bytes),
        Node::Fields(places) => record(alloc, nodes, id, places, allowed - 1, bytes),
        Node::Union(places) => union(alloc, nodes, id, places, allowed - 1, bytes),
        Node::Map(child) => dictionary(alloc, nodes, child, allowed - 1, bytes),
        _ => leaf(alloc, node, allowed - 1, bytes),
    }
}

/// A record: its fields, in order.
#[cycle(decode)]
fn record<'a>(
    alloc: Global,
    nodes: &[Node],
    id: u32,
    places: &[u32],
    allowed: u32,
    bytes: &'a [u8],
) -> Result<(Tree, u32, &'a [u8]), Fault>
    requires table { IsTable nodes.now }
    requires there { id < length nodes.now }
    requires below { AllByRecursion (λ child. child < id) places.now }
    ensures { Gives (λ x. ((value_of x.0, x.1), x.2.now)) result (value_at (SFields (schemas (map (schema nodes.now) places.now))) (suc allowed) bytes.now) }
{
    let mut list = Vec::new(alloc);
    let mut left = allowed;
    let mut rest = bytes;
    for place in places {
        let (tree, after_left, after) = value(alloc, nodes, *place, left, rest)?;
        list.push(tree)?;
        left = after_left;
        rest = after;
    }
    Ok((Tree::Fields(List::from_vec(list)), left, rest))
}

/// A union: the place of a branch, and a value of it.
#[cycle(decode)]
fn union<'a>(
    alloc: Global,
    nodes: &[Node],
    id: u32,
    places: &[u32],
    allowed: u32,
    bytes: &'a [u8],
) -> Result<(Tree, u32, &'a [u8]), Fault>
    requires table { IsTable nodes.now }
    requires there { id < length nodes.now }
    requires below { AllByRecursion (λ child. child < id) places.now }
    ensures { Gives (λ x. ((value_of x.0, x.1), x.2.now)) result (value_at (SUnion (schemas (map (schema nodes.now) places.now))) (suc allowed) bytes.now) }
{
    let (branch, rest) = place(places.len(), bytes)?;
    let (tree, left, rest) = value(alloc, nodes, places[branch as usize], allowed, rest)?;
    Ok((Tree::Union(branch, Box::new(alloc, tree)?), left, rest))
}

/// An array: blocks of items, up to a count of 0.
#[cycle(decode)]
fn array<'a>(
    alloc: Global,
    nodes: &[Node],
    child: u32,
    allowed: u32,
    bytes: &'a [u8],
) -> Result<(Tree, u32, &'a [u8]), Fault>
    requires table { IsTable nodes.now }
    requires there { child < length nodes.now }
    ensures { Gives (λ x. ((value_of x.0, x.1), x.2.now)) result (value_at (SArray (schema nodes.now child)) (suc allowed) bytes.now) }
{
    let mut list = Vec::new(alloc);
    let mut left = allowed;
    let mut rest = bytes;
    for _ in 0..bytes.len() + 1 {
        let (count, after) = number(rest)?;
        if count == 0 {
            return Ok((Tree::Array(List::from_vec(list)), left, after));
        }
        let (more, after_left, after) = block(alloc, nodes, child, count, list, left, after)?;
        list = more;
        left = after_left;
        rest = after;
    }
    // Unreachable: each block takes a byte.
    Err(Fault::At(Why::Limit, rest.len()))
}

/// The items of a block whose count is read, after those already read.
#[cycle(decode)]
fn block<'a>(
    alloc: Global,
    nodes: &[Node],
    child: u32,
    count: i64,
    list: Vec<Tree>,
    allowed: u32,
    bytes: &'a [u8],
) -> Result<(Vec<Tree>, u32, &'a [u8]), Fault>
    requires table { IsTable nodes.now }
    requires there { child < length nodes.now }
    ensures { Gives (λ x. ((map value_of x.0.items, x.1), x.2.now)) result (block_at (element_at (value_at (schema nodes.now child))) (map value_of list.items, allowed) count bytes.now) }
{
    if count >= 0 {
        return items(alloc, nodes, child, count as u64, list, allowed, bytes);
    }
    let (size, rest) = number(bytes)?;
    if size < 0 {
        return Err(Fault::At(Why::Length, bytes.len()));
    }
    let (list, left, after) = items(
        alloc,
        nodes,
        child,
        (-(count + 1)) as u64 + 1,
        list,
        allowed,
        rest,
    )?;
    if !is_filled(rest.len(), size as u64, after.len()) {
        return Err(Fault::At(Why::BlockSize, bytes.len()));
    }
    Ok((list, left, after))
}

/// `count` items, after those already read.
#[cycle(decode)]
fn items<'a>(
    alloc: Global,
    nodes: &[Node],
    child: u32,
    count: u64,
    list: Vec<Tree>,
    allowed: u32,
    bytes: &'a [u8],
) -> Result<(Vec<Tree>, u32, &'a [u8]), Fault>
    requires table { IsTable nodes.now }
    requires there { child < length nodes.now }
    ensures { Gives (λ x. ((map value_of x.0.items, x.1), x.2.now)) result (items_at (element_at (value_at (schema nodes.now child))) count (map value_of list.items, allowed) bytes.now) }
{
    let mut all = list;
    let mut left = allowed;
    let mut rest = bytes;
    for _ in 0..count {
        let (tree, after_left, after) = value(alloc, nodes, child, left, rest)?;
        all.push(tree)?;
        left = after_left;
        rest = after;
    }
    Ok((all, left, rest))
}

/// A map: blocks of entries, up to a count of 0.
#[cycle(decode)]
fn dictionary<'a>(
    alloc: Global,
    nodes: &[Node],
    child: u32,
    allowed: u32,
    bytes: &'a [u8],
) -> Result<(Tree, u32, &'a [u8]), Fault>
    requires table { IsTable nodes.now }
    requires there { child < length nodes.now }
    ensures { Gives (λ x. ((value_of x.0, x.1), x.2.now)) result (value_at (SMap (schema nodes.now child)) (suc allowed) bytes.now) }
{
    let mut held = BTreeMap::new(alloc);
    let mut left = allowed;
    let mut rest = bytes;
    for _ in 0..bytes.len() + 1 {
        let (count, after) = number(rest)?;
        if count == 0 {
            return Ok((Tree::Map(named(alloc, held)?), left, after));
        }
        let (more, after_left, after) = map_block(alloc, nodes, child, count, held, left, after)?;
        held = more;
        left = after_left;
        rest = after;
    }
    // Unreachable: each block takes a byte.
    Err(Fault::At(Why::Limit, rest.len()))
}

/// The entries of a block whose count is read, added to those already read.
#[cycle(decode)]
fn map_block<'a>(
    alloc: Global,
    nodes: &[Node],
    child: u32,
    count: i64,
    held: BTreeMap<Text, Tree>,
    allowed: u32,
    bytes: &'a [u8],
) -> Result<(BTreeMap<Text, Tree>, u32, &'a [u8]), Fault>
    requires table { IsTable nodes.now }
    requires there { child < length nodes.now }
    ensures { Gives (λ x. ((map entry_of x.0.entries, x.1), x.2.now)) result (block_at (entry_at (value_at (schema nodes.now child))) (map entry_of held.entries, allowed) count bytes.now) }
{
    if count >= 0 {
        return map_items(alloc, nodes, child, count as u64, held, allowed, bytes);
    }
    let (size, rest) = number(bytes)?;
    if size < 0 {
        return Err(Fault::At(Why::Length, bytes.len()));
    }
    let (held, left, after) = map_items(
        alloc,
        nodes,
        child,
        (-(count + 1)) as u64 + 1,
        held,
        allowed,
        rest,
    )?;
    if !is_filled(rest.len(), size as u64, after.len()) {
        return Err(Fault::At(Why::BlockSize, bytes.len()));
    }
    Ok((held, left, after))
}

/// `count` entries, added to those already read.
#[cycle(decode)]
fn map_items<'a>(
    alloc: Global,
    nodes: &[Node],
    child: u32,
    count: u64,
    held: BTreeMap<Text, Tree>,
    allowed: u32,
    bytes: &'a [u8],
) -> Result<(BTreeMap<Text, Tree>, u32, &'a [u8]), Fault>
    requires table { IsTable nodes.now }
    requires there { child < length nodes.now }
    ensures { Gives (λ x. ((map entry_of x.0.entries, x.1), x.2.now)) result (items_at (entry_at (value_at (schema nodes.now child))) count (map entry_of held.entries, allowed) bytes.now) }
{
    let mut all = held;
    let mut left = allowed;
    let mut rest = bytes;
    for _ in 0..count {
        let (more, after_left, after) = entry(alloc, nodes, child, all, left, rest)?;
        all = more;
        left = after_left;
        rest = after;
    }
    Ok((all, left, rest))
}

/// One entry: a name that has not occurred yet, and its value.
#[cycle(decode)]
fn entry<'a>(
    alloc: Global,
    nodes: &[Node],
    child: u32,
    held: BTreeMap<Text, Tree>,
    allowed: u32,
    bytes: &'a [u8],
) -> Result<(BTreeMap<Text, Tree>, u32, &'a [u8]), Fault>
    requires table { IsTable nodes.now }
    requires there { child < length nodes.now }
    ensures { Gives (λ x. ((map entry_of x.0.entries, x.1), x.2.now)) result (entry_at (value_at (schema nodes.now child)) (map entry_of held.entries, allowed) bytes.now) }
{
    let (key, after) = text(bytes)?;
    let name = Text::copy(alloc, key)?;
    if held.contains_key(&name) {
        return Err(Fault::At(Why::DoubleKey, bytes.len()));
    }
    let (tree, left, rest) = value(alloc, nodes, child, allowed, after)?;
    let mut all = held;
    all.insert(name, tree)?;
    Ok((all, left, rest))
}

/// The entries in the byte order of their names.
fn named(alloc: Global, held: BTreeMap<Text, Tree>) -> Result<Named<Tree>, Fault>
    ensures { MatchResult result (λ r. r ≡ held.entries) (λ e. e ≡ Memory) }
{
    let mut items = Vec::new(alloc);
    for pair in held {
        items.push(pair)?;
    }
    Ok(Named::from_sorted(items))
}

/// The value of the node `id` at the front of the bytes, and the length of its spelling. What follows is not looked at. Numbers of up to
/// ten bytes, blocks in any number and of either sign, and a map's entries in any order are accepted.
///
/// A block's items are read without regard to the size that it states, which is tested after the last one. For an entry, first the name is
/// tested, then whether the map has it already, and then its value is read. Whether a value would be one node more than `NODE_LIMIT` is
/// tested before anything else about it.
pub fn decode(alloc: Global, table: &Table, id: u32, bytes: &[u8]) -> Result<(Tree, usize), Refusal>
    requires table { IsTable table.now.nodes.now }
    requires there { id < length table.now.nodes.now }
    ensures found { IfOk result (λ r. IsRead (schema table.now.nodes.now id) node_limit bytes.now (value_of r.0) r.1) }
    ensures typed { IfOk result (λ r. HasSchema (schema table.now.nodes.now id) (value_of r.0)) }
    ensures only { (v : Value) (len : ℕ) → IsRead (schema table.now.nodes.now id) node_limit bytes.now v len → ReadsAs v len result }
    ensures failed { IfErr result (λ e. IsRefused (schema table.now.nodes.now id) node_limit bytes.now e ⊎ (e ≡ Unread)) }
    ensures exact { Decodes (read_value (schema table.now.nodes.now id) node_limit bytes.now) result }
    ensures refused { (e : Refused) → IsRefused (schema table.now.nodes.now id) node_limit bytes.now e → RefusesAs e result }
{
    match value(alloc, table.nodes, id, NODE_LIMIT, bytes) {
        Ok((tree, _, rest)) => Ok((tree, bytes.len().saturating_sub(rest.len()))),
        Err(Fault::At(why, left)) => Err(refusal_at(why, bytes.len().saturating_sub(left))),
        Err(Fault::Memory) => Err(Refusal::NoMemory),
    }
}
