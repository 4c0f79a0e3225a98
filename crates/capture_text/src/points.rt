//! Points of channels.
ghost use Rattle.std.specs.Prelude.{◌++◌, codes};
ghost use Rattle.std.specs.Fmt.{signed_decimal};
ghost use Rattle.avro_bin.specs.Plain.{Writes};
ghost use Rattle.capture_text.specs.Points.{point_line, value_alone};

use crate::names::child_of;
use crate::pieces::{put, put_signed};
use crate::values::put_value;
use etp_schema::places;
use etp_values::{DataValue, NoMemory, Point};
use message_trees::{InTree, branch_of};
use std::alloc::Global;

/// Appends a channel's value, without the number of its branch.
#[tactic(auto, unfolding(crate::specs::Points::value_alone))]
fn put_alone(alloc: Global, value: &DataValue, into: &mut Vec<u8>) -> Result<(), NoMemory>
    ensures { Writes (value_alone value.now) into.old.items into.new.items result }
{
    let (branch, tree) = branch_of(alloc, value.to_tree(alloc)?);
    put_value(
        into,
        child_of(places::DATA_VALUE_ITEM, branch as usize),
        &tree,
    )
}

/// Appends an index and a value as a line.
#[tactic(auto, using(crate::proofs::WritingLemmas::writes_after))]
fn put_line(
    alloc: Global,
    index: i64,
    value: &DataValue,
    into: &mut Vec<u8>,
) -> Result<(), NoMemory>
    ensures { Writes (signed_decimal index ++ codes " " ++ value_alone value.now ++ codes "\n") into.old.items into.new.items result }
{
    put_signed(into, index)?;
    put(into, b" ")?;
    put_alone(alloc, value, into)?;
    put(into, b"\n")
}

/// Appends the line of a point, `INDEX VALUE`. If memory runs out, a prefix of the line may have been appended.
#[tactic(auto, unfolding(crate::specs::Points::point_line))]
pub fn put_point(alloc: Global, point: &Point, into: &mut Vec<u8>) -> Result<(), NoMemory>
    ensures { Writes (point_line point.now) into.old.items into.new.items result }
{
    put_line(alloc, point.index, &point.value, into)
}
