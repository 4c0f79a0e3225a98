//! Chunks that are put together from parts of others.
ghost use Rattle.std.specs.Prelude.{◌≡◌, ◌<◌, ◌≤◌, ◌+◌, ◌++◌, [], length, take, drop, IfOk, IfSome, OnOk};
ghost use Rattle.std.specs.List.{AllByRecursion};
ghost use Rattle.channel_points.specs.Blocks.{joined};
ghost use Rattle.channel_points.specs.Chunks.{AreChunks, Stands, last_size};

use crate::chunks::CHUNK;
use crate::points::{Points, add_copies, copy_all};
use crate::reads::between;
use etp_values::{NoMemory, Point};
use std::alloc::Global;

/// How many points the last chunk has; without chunks, as many as a chunk may have.
fn last_size(blocks: &[Points]) -> usize
    ensures { result ≡ last_size blocks.now }
{
    match blocks.last() {
        Some(block) => block.len(),
        None => CHUNK,
    }
}

/// Copies of the points of two parts, in one chunk.
fn merged(alloc: Global, first: &Points, second: &Points) -> Result<Points, NoMemory>
    ensures { IfOk result (λ r. r ≡ first.now ++ second.now) }
{
    let mut points = copy_all(alloc, first.as_slice())?;
    add_copies(alloc, &mut points, second.as_slice())?;
    Points::of(alloc, points)
}

/// Points join the last chunk, which has few.
fn merge(alloc: Global, blocks: &mut Vec<Points>, block: &Points) -> Result<(), NoMemory>
    requires chunks { AreChunks blocks.old.items }
    requires few { last_size blocks.old.items + length block.now ≤ 1024 }
    ensures chunks { OnOk result (AreChunks blocks.new.items) }
    ensures points { OnOk result
        (joined blocks.new.items [] ≡ joined blocks.old.items [] ++ block.now) }
{
    let Some(last) = blocks.pop() else {
        return Err(NoMemory);
    };
    blocks.reserve(1)?;
    let both = merged(alloc, &last, block)?;
    blocks.push_reserved(both);
    Ok(())
}

/// Points come after the others as a chunk, or join the last chunk if they are few.
pub(crate) fn add_block(
    alloc: Global,
    blocks: &mut Vec<Points>,
    block: Points,
) -> Result<(), NoMemory>
    requires chunks { AreChunks blocks.old.items }
    requires few { length block ≤ 1024 }
    ensures chunks { OnOk result (AreChunks blocks.new.items) }
    ensures points { OnOk result
        (joined blocks.new.items [] ≡ joined blocks.old.items [] ++ block) }
{
    if block.is_empty() {
        return Ok(());
    }
    if last_size(blocks.as_slice()).saturating_add(block.len()) <= CHUNK {
        return merge(alloc, blocks, &block);
    }
    blocks.reserve(1)?;
    blocks.push_reserved(block);
    Ok(())
}

/// `count` points of a chunk after the first `start` come after the others.
fn add_part(
    alloc: Global,
    blocks: &mut Vec<Points>,
    block: &Points,
    start: usize,
    count: usize,
) -> Result<(), NoMemory>
    requires chunks { AreChunks blocks.old.items }
    requires few { length block.now ≤ 1024 }
    requires within { start + count ≤ length block.now }
    ensures chunks { OnOk result (AreChunks blocks.new.items) }
    ensures points { OnOk result (joined blocks.new.items []
        ≡ joined blocks.old.items [] ++ take count (drop start block.now)) }
{
    if count == 0 {
        return Ok(());
    }
    let part = block.part(alloc, start, count)?;
    add_block(alloc, blocks, part)
}

/// `count` points of chunks after the first `start` come after the others.
pub(crate) fn add_between(
    alloc: Global,
    blocks: &mut Vec<Points>,
    sealed: &[Points],
    tail: &[Point],
    start: usize,
    count: usize,
) -> Result<(), NoMemory>
    requires chunks { AreChunks blocks.old.items }
    requires sealed { AllByRecursion (λ c. length c ≤ 1024) sealed.now }
    requires tail { length tail.now ≤ 1024 }
    ensures chunks { OnOk result (AreChunks blocks.new.items) }
    ensures points { OnOk result (joined blocks.new.items []
        ≡ joined blocks.old.items [] ++ take count (drop start (joined sealed.now tail.now))) }
{
    let mut skip = start;
    let mut left = count;
    for block in sealed {
        let size = block.len();
        let first = skip.min(size);
        let taken = left.min(size - first);
        add_part(alloc, blocks, block, first, taken)?;
        skip -= first;
        left -= taken;
    }
    let from = skip.min(tail.len());
    let rest = left.min(tail.len() - from);
    let last = copy_all(alloc, between(tail, from, rest))?;
    add_block(alloc, blocks, Points::own(last))
}

/// Points come after the others, in chunks of 1,024 at most.
pub(crate) fn add_all(
    alloc: Global,
    blocks: &mut Vec<Points>,
    points: &Points,
) -> Result<(), NoMemory>
    requires { AreChunks blocks.old.items }
    ensures chunks { OnOk result (AreChunks blocks.new.items) }
    ensures points { OnOk result
        (joined blocks.new.items [] ≡ joined blocks.old.items [] ++ points.now) }
{
    let mut start = 0usize;
    while start < points.len() {
        let taken = CHUNK.min(points.len() - start);
        let part = points.part(alloc, start, taken)?;
        add_block(alloc, blocks, part)?;
        start += taken;
    }
    Ok(())
}

/// How many points there are, if a number can say it.
pub(crate) fn count_all(blocks: &[Points]) -> Option<usize>
    ensures { IfSome result (λ n. n ≡ length (joined blocks.now [])) }
{
    let mut count = 0usize;
    for block in blocks {
        let Some(sum) = count.checked_add(block.len()) else {
            return None;
        };
        count = sum;
    }
    Some(count)
}

/// The points of the last chunk, which is not among the others any more.
pub(crate) fn take_last(alloc: Global, blocks: &mut Vec<Points>) -> Result<Vec<Point>, NoMemory>
    requires { AreChunks blocks.old.items }
    ensures points { IfOk result
        (λ t. joined blocks.new.items t.items ≡ joined blocks.old.items []) }
    ensures stands { IfOk result (λ t. Stands blocks.new.items t.items) }
{
    match blocks.pop() {
        Some(last) => last.into_vec(alloc),
        None => Ok(Vec::new(alloc)),
    }
}
