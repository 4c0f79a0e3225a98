//! The length of the spelling that is written for a value. Sums stop at `u64::MAX`, so none overflows.
ghost use Rattle.std.specs.Prelude.{◌≡◌, ◌+◌, ◌-◌, ◌≤◌, ◌<◌, ◌^◌, length, min};
ghost use Rattle.std.specs.Prelude.{map};
ghost use Rattle.avro_bin.specs.Plain.{plain, plain_all, plain_named, plain_block, plain_blob};
ghost use Rattle.avro_bin.specs.Value.{row, entries};
ghost use Rattle.avro_bin.specs.View.{value_of, entry_of};
ghost use Rattle.avro_bin.specs.Laws.{IsSize};
ghost use Rattle.avro_bin.specs.Number.{shortest, plain_number};

use crate::numbers::unsigned_of;
use crate::schema::Table;
use crate::tree::Tree;
use etp_values::Named;
use thiserror::Error;

/// How many groups a number has; it has at most `most + 1`.
#[tactic(auto, using(crate::proofs::GroupLemmas::shortest_more))]
fn groups_size(z: u64, most: u8) -> u64
    ensures size { result ≡ length (shortest most z) }
    ensures few { result ≤ most + 1 }
{
    if most == 0 || z < 128 {
        return 1;
    }
    1 + groups_size(z / 128, most - 1)
}

/// How many bytes a number takes.
#[tactic(auto, unfolding(crate::specs::Number::plain_number))]
pub fn number_size(x: i64) -> u64
    ensures size { result ≡ length (plain_number x) }
    ensures few { result ≤ 10 }
{
    groups_size(unsigned_of(x), 9)
}

/// The sum, or `u64::MAX`.
fn capped(a: u64, b: u64, c: u64) -> u64
    ensures { result ≡ min (a + b + c) (2 ^ 64 - 1) }
{
    a.saturating_add(b).saturating_add(c)
}

/// The size of a length and the bytes.
pub fn blob_size(bytes: &[u8]) -> u64
    ensures { result ≡ min (length (plain_blob bytes.now)) (2 ^ 64 - 1) }
{
    capped(number_size(bytes.len() as i64), bytes.len() as u64, 0)
}

/// How many bytes a value takes, or `u64::MAX`.
#[cycle(sizing)]
#[tactic(auto, using(crate::proofs::ViewLemmas::values, crate::proofs::PlainLemmas::plain_array, crate::proofs::PlainLemmas::plain_map))]
fn size_of(tree: &Tree) -> u64
    ensures { result ≡ min (length (plain (value_of tree.now))) (2 ^ 64 - 1) }
{
    match tree {
        Tree::Null => 0,
        Tree::Boolean(_) => 1,
        Tree::Int(x) => number_size(*x as i64),
        Tree::Long(x) => number_size(*x),
        Tree::Float(_) => 4,
        Tree::Double(_) => 8,
        Tree::Bytes(b) => blob_size(b.as_bytes()),
        Tree::Text(t) => blob_size(t.as_bytes()),
        Tree::Fixed(b) => b.as_bytes().len() as u64,
        Tree::Enum(p) => number_size(*p as i64),
        Tree::Array(l) => array_size(l.as_slice()),
        Tree::Map(m) => map_size(m),
        Tree::Union(p, v) => capped(number_size(*p as i64), size_of(v), 0),
        Tree::Fields(l) => all_size(l.as_slice()),
    }
}

/// The size of one block of items, or none, and a count of 0.
#[cycle(sizing)]
#[tactic(auto, using(crate::proofs::PlainLemmas::block_size, crate::proofs::PlainLemmas::no_block_size))]
fn array_size(trees: &[Tree]) -> u64
    ensures { result ≡ min (length (plain_block (length trees.now) (plain_all (row (map value_of trees.now))))) (2 ^ 64 - 1) }
{
    if trees.is_empty() {
        return 1;
    }
    capped(number_size(trees.len() as i64), all_size(trees), 1)
}

/// The size of values, one after another.
#[cycle(sizing)]
fn all_size(trees: &[Tree]) -> u64
    ensures { result ≡ min (length (plain_all (row (map value_of trees.now)))) (2 ^ 64 - 1) }
{
    let mut sum = 0;
    for tree in trees {
        sum = capped(sum, size_of(tree), 0);
    }
    sum
}

/// The size of one block of entries, or none, and a count of 0.
#[cycle(sizing)]
#[tactic(auto, using(crate::proofs::PlainLemmas::block_size, crate::proofs::PlainLemmas::no_block_size))]
fn map_size(named: &Named<Tree>) -> u64
    ensures { result ≡ min (length (plain_block (length named.now) (plain_named (entries (map entry_of named.now))))) (2 ^ 64 - 1) }
{
    let count = named.len();
    if count == 0 {
        return 1;
    }
    capped(number_size(count as i64), named_size(named), 1)
}

/// The size of names and values, in order.
#[cycle(sizing)]
fn named_size(named: &Named<Tree>) -> u64
    ensures { result ≡ min (length (plain_named (entries (map entry_of named.now)))) (2 ^ 64 - 1) }
{
    let mut sum = 0;
    for i in 0..named.len() {
        let (name, tree) = named.at(i);
        sum = capped(sum, blob_size(name.as_bytes()), size_of(tree));
    }
    sum
}

/// The greatest length that is returned, in bytes.
pub const SIZE_LIMIT: u64 = 1 << 40;

/// The written spelling is longer than 2^40 bytes.
#[derive(Clone, Copy, Debug, PartialEq, Eq, Drop, Error)]
#[error("the value takes more than {SIZE_LIMIT} bytes")]
pub struct TooLong;

/// The length of the spelling that `encode` writes for the tree. It does not allocate.
pub fn size(_table: &Table, _id: u32, tree: &Tree) -> Result<u64, TooLong>
    ensures { IsSize (length (plain (value_of tree.now))) result }
{
    let size = size_of(tree);
    if size > SIZE_LIMIT {
        return Err(TooLong);
    }
    Ok(size)
}
