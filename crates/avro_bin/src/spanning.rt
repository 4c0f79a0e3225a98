//! Reading without building a value: where the value at the front of the bytes ends. It refuses what reading with a value refuses, and
//! allocates only for the names of maps.
//!
//! The functions are those of `decoding`, keeping nothing of a value.
ghost use Rattle.std.specs.Prelude.{◌≡◌, ◌<◌, ℕ, suc, length, map, true};
ghost use Rattle.std.specs.List.{AllByRecursion};
ghost use Rattle.avro_bin.specs.Reading.{Gives, value_at, items_at, block_at};
ghost use Rattle.avro_bin.specs.Along.{pass_at, put_at, mark_at};
ghost use Rattle.avro_bin.specs.Schema.{Schema, SFields, SUnion, SArray, SMap, schema, schemas, node_schema, IsTable, is_leaf};
ghost use Rattle.avro_bin.specs.Laws.{read_value, node_limit};
ghost use Rattle.avro_bin.specs.Spanning.{Spans};

use crate::blocks::is_filled;
use crate::decoding::NODE_LIMIT;
use crate::fault::{Fault, Why};
use crate::leaves::{blob, boolean, bytes_of, double, float, int, place, text};
use crate::numbers::number;
use crate::refusal::{Refusal, refusal_at};
use crate::schema::{Node, Table};
use etp_values::Text;
use std::alloc::Global;
use std::collections::BTreeMap;

/// Skips a node without children.
#[tactic(auto, unfolding(crate::specs::Reading::value_at, crate::specs::Along::pass_at))]
fn leaf(node: Node, allowed: u32, bytes: &[u8]) -> Result<(u32, &[u8]), Fault>
    requires { is_leaf node ≡ true }
    ensures { (at : ℕ → Schema) → Gives (λ x. (x.0, x.1.now)) result (pass_at (value_at (node_schema at node)) (suc allowed) bytes.now) }
{
    match node {
        Node::Boolean => {
            let (_, rest) = boolean(bytes)?;
            Ok((allowed, rest))
        }
        Node::Int => {
            let (_, rest) = int(bytes)?;
            Ok((allowed, rest))
        }
        Node::Long => {
            let (_, rest) = number(bytes)?;
            Ok((allowed, rest))
        }
        Node::Bytes => {
            let (_, rest) = blob(bytes)?;
            Ok((allowed, rest))
        }
        Node::Text => {
            let (_, rest) = text(bytes)?;
            Ok((allowed, rest))
        }
        Node::Fixed(size) => {
            let (_, rest) = bytes_of(bytes.len(), size as u64, bytes)?;
            Ok((allowed, rest))
        }
        Node::Enum(count) => {
            let (_, rest) = place(count as usize, bytes)?;
            Ok((allowed, rest))
        }
        Node::Float => {
            let (_, rest) = float(bytes)?;
            Ok((allowed, rest))
        }
        Node::Double => {
            let (_, rest) = double(bytes)?;
            Ok((allowed, rest))
        }
        Node::Null => Ok((allowed, bytes)),
        _ => unreachable!(),
    }
}

/// Skips the node at a place.
#[cycle(span)]
fn value<'a>(
    alloc: Global,
    nodes: &[Node],
    id: u32,
    allowed: u32,
    bytes: &'a [u8],
) -> Result<(u32, &'a [u8]), Fault>
    requires table { IsTable nodes.now }
    requires there { id < length nodes.now }
    ensures { Gives (λ x. (x.0, x.1.now)) result (pass_at (value_at (schema nodes.now id)) allowed bytes.now) }
{
    if allowed == 0 {
        return Err(Fault::At(Why::Limit, bytes.len()));
    }
    let node = nodes[id as usize];
    match node {
        Node::Array(child) => array(alloc, nodes, child, allowed - 1, bytes),
        Node::Fields(places) => record(alloc, nodes, id, places, allowed - 1, bytes),
        Node::Union(places) => union(alloc, nodes, id, places, allowed - 1, bytes),
        Node::Map(child) => dictionary(alloc, nodes, child, allowed - 1, bytes),
        _ => leaf(node, allowed - 1, bytes),
    }
}

/// Skips a record: its fields, in order.
#[cycle(span)]
fn record<'a>(
    alloc: Global,
    nodes: &[Node],
    id: u32,
    places: &[u32],
    allowed: u32,
    bytes: &'a [u8],
) -> Result<(u32, &'a [u8]), Fault>
    requires table { IsTable nodes.now }
    requires there { id < length nodes.now }
    requires below { AllByRecursion (λ child. child < id) places.now }
    ensures { Gives (λ x. (x.0, x.1.now)) result (pass_at (value_at (SFields (schemas (map (schema nodes.now) places.now)))) (suc allowed) bytes.now) }
{
    let mut left = allowed;
    let mut rest = bytes;
    for place in places {
        let (after_left, after) = value(alloc, nodes, *place, left, rest)?;
        left = after_left;
        rest = after;
    }
    Ok((left, rest))
}

/// Skips a union: the place of a branch, and a value of it.
#[cycle(span)]
fn union<'a>(
    alloc: Global,
    nodes: &[Node],
    id: u32,
    places: &[u32],
    allowed: u32,
    bytes: &'a [u8],
) -> Result<(u32, &'a [u8]), Fault>
    requires table { IsTable nodes.now }
    requires there { id < length nodes.now }
    requires below { AllByRecursion (λ child. child < id) places.now }
    ensures { Gives (λ x. (x.0, x.1.now)) result (pass_at (value_at (SUnion (schemas (map (schema nodes.now) places.now)))) (suc allowed) bytes.now) }
{
    let (branch, rest) = place(places.len(), bytes)?;
    value(alloc, nodes, places[branch as usize], allowed, rest)
}

/// Skips an array: blocks of items, up to a count of 0.
#[cycle(span)]
fn array<'a>(
    alloc: Global,
    nodes: &[Node],
    child: u32,
    allowed: u32,
    bytes: &'a [u8],
) -> Result<(u32, &'a [u8]), Fault>
    requires table { IsTable nodes.now }
    requires there { child < length nodes.now }
    ensures { Gives (λ x. (x.0, x.1.now)) result (pass_at (value_at (SArray (schema nodes.now child))) (suc allowed) bytes.now) }
{
    let mut left = allowed;
    let mut rest = bytes;
    for _ in 0..bytes.len() + 1 {
        let (count, after) = number(rest)?;
        if count == 0 {
            return Ok((left, after));
        }
        let (after_left, after) = block(alloc, nodes, child, count, left, after)?;
        left = after_left;
        rest = after;
    }
    // Unreachable: each block takes a byte.
    Err(Fault::At(Why::Limit, rest.len()))
}

/// Skips the items of a block whose count is read.
#[cycle(span)]
fn block<'a>(
    alloc: Global,
    nodes: &[Node],
    child: u32,
    count: i64,
    allowed: u32,
    bytes: &'a [u8],
) -> Result<(u32, &'a [u8]), Fault>
    requires table { IsTable nodes.now }
    requires there { child < length nodes.now }
    ensures { Gives (λ x. (x.0, x.1.now)) result (block_at (pass_at (value_at (schema nodes.now child))) allowed count bytes.now) }
{
    if count >= 0 {
        return items(alloc, nodes, child, count as u64, allowed, bytes);
    }
    let (size, rest) = number(bytes)?;
    if size < 0 {
        return Err(Fault::At(Why::Length, bytes.len()));
    }
    let (left, end) = items(
        alloc,
        nodes,
        child,
        (-(count + 1)) as u64 + 1,
        allowed,
        rest,
    )?;
    if !is_filled(rest.len(), size as u64, end.len()) {
        return Err(Fault::At(Why::BlockSize, bytes.len()));
    }
    Ok((left, end))
}

/// Skips `count` items.
#[cycle(span)]
fn items<'a>(
    alloc: Global,
    nodes: &[Node],
    child: u32,
    count: u64,
    allowed: u32,
    bytes: &'a [u8],
) -> Result<(u32, &'a [u8]), Fault>
    requires table { IsTable nodes.now }
    requires there { child < length nodes.now }
    ensures { Gives (λ x. (x.0, x.1.now)) result (items_at (pass_at (value_at (schema nodes.now child))) count allowed bytes.now) }
{
    let mut left = allowed;
    let mut rest = bytes;
    for _ in 0..count {
        let (after_left, after) = value(alloc, nodes, child, left, rest)?;
        left = after_left;
        rest = after;
    }
    Ok((left, rest))
}

/// Skips a map: blocks of entries, up to a count of 0.
#[cycle(span)]
fn dictionary<'a>(
    alloc: Global,
    nodes: &[Node],
    child: u32,
    allowed: u32,
    bytes: &'a [u8],
) -> Result<(u32, &'a [u8]), Fault>
    requires table { IsTable nodes.now }
    requires there { child < length nodes.now }
    ensures { Gives (λ x. (x.0, x.1.now)) result (pass_at (value_at (SMap (schema nodes.now child))) (suc allowed) bytes.now) }
{
    let mut names = BTreeMap::new(alloc);
    let mut left = allowed;
    let mut rest = bytes;
    for _ in 0..bytes.len() + 1 {
        let (count, after) = number(rest)?;
        if count == 0 {
            return Ok((left, after));
        }
        let (more, after_left, after) = map_block(alloc, nodes, child, count, names, left, after)?;
        names = more;
        left = after_left;
        rest = after;
    }
    // Unreachable: each block takes a byte.
    Err(Fault::At(Why::Limit, rest.len()))
}

/// Skips the entries of a block whose count is read, and adds their names to those already read.
#[cycle(span)]
fn map_block<'a>(
    alloc: Global,
    nodes: &[Node],
    child: u32,
    count: i64,
    names: BTreeMap<Text, ()>,
    allowed: u32,
    bytes: &'a [u8],
) -> Result<(BTreeMap<Text, ()>, u32, &'a [u8]), Fault>
    requires table { IsTable nodes.now }
    requires there { child < length nodes.now }
    ensures { Gives (λ x. ((x.0.entries, x.1), x.2.now)) result (block_at (put_at (mark_at (value_at (schema nodes.now child)))) (names.entries, allowed) count bytes.now) }
{
    if count >= 0 {
        return map_items(alloc, nodes, child, count as u64, names, allowed, bytes);
    }
    let (size, rest) = number(bytes)?;
    if size < 0 {
        return Err(Fault::At(Why::Length, bytes.len()));
    }
    let (names, left, after) = map_items(
        alloc,
        nodes,
        child,
        (-(count + 1)) as u64 + 1,
        names,
        allowed,
        rest,
    )?;
    if !is_filled(rest.len(), size as u64, after.len()) {
        return Err(Fault::At(Why::BlockSize, bytes.len()));
    }
    Ok((names, left, after))
}

/// Skips `count` entries, and adds their names to those already read.
#[cycle(span)]
fn map_items<'a>(
    alloc: Global,
    nodes: &[Node],
    child: u32,
    count: u64,
    names: BTreeMap<Text, ()>,
    allowed: u32,
    bytes: &'a [u8],
) -> Result<(BTreeMap<Text, ()>, u32, &'a [u8]), Fault>
    requires table { IsTable nodes.now }
    requires there { child < length nodes.now }
    ensures { Gives (λ x. ((x.0.entries, x.1), x.2.now)) result (items_at (put_at (mark_at (value_at (schema nodes.now child)))) count (names.entries, allowed) bytes.now) }
{
    let mut all = names;
    let mut left = allowed;
    let mut rest = bytes;
    for _ in 0..count {
        let (more, after_left, after) = entry(alloc, nodes, child, all, left, rest)?;
        all = more;
        left = after_left;
        rest = after;
    }
    Ok((all, left, rest))
}

/// Skips one entry: a name that has not occurred yet, and its value.
#[cycle(span)]
fn entry<'a>(
    alloc: Global,
    nodes: &[Node],
    child: u32,
    names: BTreeMap<Text, ()>,
    allowed: u32,
    bytes: &'a [u8],
) -> Result<(BTreeMap<Text, ()>, u32, &'a [u8]), Fault>
    requires table { IsTable nodes.now }
    requires there { child < length nodes.now }
    ensures { Gives (λ x. ((x.0.entries, x.1), x.2.now)) result (put_at (mark_at (value_at (schema nodes.now child))) (names.entries, allowed) bytes.now) }
{
    let (key, after) = text(bytes)?;
    let name = Text::copy(alloc, key)?;
    if names.contains_key(&name) {
        return Err(Fault::At(Why::DoubleKey, bytes.len()));
    }
    let (left, rest) = value(alloc, nodes, child, allowed, after)?;
    let mut all = names;
    all.insert(name, ())?;
    Ok((all, left, rest))
}

/// Skips the value of a node at the front of the bytes, in which at most `allowed` nodes may come: returns how many nodes are still allowed,
/// and what follows the value. A refusal counts the bytes that are left where the refused item begins.
pub fn pass<'a>(
    alloc: Global,
    table: &Table,
    id: u32,
    allowed: u32,
    bytes: &'a [u8],
) -> Result<(u32, &'a [u8]), Fault>
    requires table { IsTable table.now.nodes.now }
    requires there { id < length table.now.nodes.now }
    ensures { Gives (λ x. (x.0, x.1.now)) result (pass_at (value_at (schema table.now.nodes.now id)) allowed bytes.now) }
{
    value(alloc, table.nodes, id, allowed, bytes)
}

/// How many bytes the value of the node `id` at the front takes. What [`decode`](crate::decode) refuses is refused for the same reason.
pub fn span(alloc: Global, table: &Table, id: u32, bytes: &[u8]) -> Result<usize, Refusal>
    requires table { IsTable table.now.nodes.now }
    requires there { id < length table.now.nodes.now }
    ensures { Spans (read_value (schema table.now.nodes.now id) node_limit bytes.now) result }
{
    match value(alloc, table.nodes, id, NODE_LIMIT, bytes) {
        Ok((_, rest)) => Ok(bytes.len().saturating_sub(rest.len())),
        Err(Fault::At(why, left)) => Err(refusal_at(why, bytes.len().saturating_sub(left))),
        Err(Fault::Memory) => Err(Refusal::NoMemory),
    }
}
