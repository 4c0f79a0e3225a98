//! What is read of chunks and the open one after them.
ghost use Rattle.std.specs.Prelude.{◌≡◌, ◌<◌, ◌≤◌, ◌+◌, ◌-◌, ◌^◌, ◌++◌, [], true, length, take, drop, slice_get, option_map, IfOk, IfSome, OnOk};
ghost use Rattle.std.specs.List.{AllByRecursion};
ghost use Rattle.etp_values.specs.Weight.{capped, weigh};
ghost use Rattle.channel_points.specs.Blocks.{joined};
ghost use Rattle.channel_points.specs.Bytes.{point_bytes};
ghost use Rattle.channel_points.specs.Chunks.{ends_before, lies_before};
ghost use Rattle.channel_points.specs.Order.{Rises, first_of, last_of};
ghost use Rattle.channel_points.specs.Splits.{IsSplit};

use crate::bytes::points_bytes;
use crate::points::{Points, add_copies};
use crate::search::{count_below, count_to};
use etp_values::{NoMemory, Point};
use std::alloc::Global;

/// How many points are before an index, or at it if `ends`.
fn count_in(points: &[Point], ends: bool, index: i64) -> usize
    requires { Rises points.now }
    ensures { IsSplit (λ x. lies_before ends index x.index) points.now result }
{
    if ends {
        return count_to(points, index);
    }
    count_below(points, index)
}

/// The index of the first point.
pub(crate) fn first_index(points: &[Point]) -> Option<i64>
    ensures { result ≡ first_of points.now }
{
    match points.first() {
        Some(point) => Some(point.index),
        None => None,
    }
}

/// The index of the last point.
pub(crate) fn last_index(points: &[Point]) -> Option<i64>
    ensures { result ≡ last_of points.now }
{
    match points.last() {
        Some(point) => Some(point.index),
        None => None,
    }
}

/// Whether an index is before another, or at it if `ends`.
fn lies_before(ends: bool, end: i64, index: i64) -> bool
    ensures { result ≡ lies_before ends end index }
{
    if ends {
        return index <= end;
    }
    index < end
}

/// Whether a chunk ends before an index, or at it if `ends`.
fn ends_before(block: &Points, ends: bool, index: i64) -> bool
    ensures { result ≡ ends_before ends index (last_of block.now) }
{
    match last_index(block.as_slice()) {
        Some(last) => lies_before(ends, index, last),
        None => false,
    }
}

/// Chunks of which all points are before an index, or at it if `ends`: all but one of those, at the least.
fn blocks_before(sealed: &[Points], ends: bool, index: i64) -> usize
    requires { Rises (joined sealed.now []) }
    ensures within { result ≤ length sealed.now }
    ensures before { AllByRecursion (λ x. lies_before ends index x.index ≡ true)
        (joined (take result sealed.now) []) }
{
    let mut low = 0usize;
    let mut high = sealed.len();
    while low < high {
        let middle = low + (high - low) / 2;
        if ends_before(&sealed[middle], ends, index) {
            low = middle + 1;
        } else {
            high = middle;
        }
    }
    low
}

/// How many points these chunks have.
fn count_all(sealed: &[Points]) -> usize
    requires { length (joined sealed.now []) ≤ 18446744073709551615 }
    ensures { result ≡ length (joined sealed.now []) }
{
    let mut count = 0usize;
    for block in sealed {
        count += block.len();
    }
    count
}

/// The same as [`split`], chunk by chunk.
fn split_from(sealed: &[Points], tail: &[Point], ends: bool, index: i64) -> usize
    requires rises { Rises (joined sealed.now tail.now) }
    requires bounded { length (joined sealed.now tail.now) ≤ 18446744073709551615 }
    ensures { IsSplit (λ x. lies_before ends index x.index) (joined sealed.now tail.now) result }
{
    let mut count = 0usize;
    for block in sealed {
        let here = count_in(block.as_slice(), ends, index);
        if here < block.len() {
            return count + here;
        }
        count += here;
    }
    count + count_in(tail, ends, index)
}

/// How many points are before an index, or at it if `ends`.
pub(crate) fn split(sealed: &[Points], tail: &[Point], ends: bool, index: i64) -> usize
    requires rises { Rises (joined sealed.now tail.now) }
    requires bounded { length (joined sealed.now tail.now) ≤ 18446744073709551615 }
    ensures { IsSplit (λ x. lies_before ends index x.index) (joined sealed.now tail.now) result }
{
    let first = blocks_before(sealed, ends, index);
    let before = count_all(&sealed[..first]);
    before + split_from(&sealed[first..], tail, ends, index)
}

/// `count` points after the first `start`.
pub(crate) fn between(points: &[Point], start: usize, count: usize) -> &[Point]
    requires { start + count ≤ length points.now }
    ensures { result.now ≡ take count (drop start points.now) }
{
    &points[start..start + count]
}

/// Copies of `count` points after the first `start` come after the others.
pub(crate) fn copy_between(
    alloc: Global,
    copies: &mut Vec<Point>,
    sealed: &[Points],
    tail: &[Point],
    start: usize,
    count: usize,
) -> Result<(), NoMemory>
    ensures { OnOk result (copies.new.items ≡ copies.old.items
        ++ take count (drop start (joined sealed.now tail.now))) }
{
    let mut skip = start;
    let mut left = count;
    for block in sealed {
        let size = block.len();
        let first = skip.min(size);
        let taken = left.min(size - first);
        add_copies(alloc, copies, between(block.as_slice(), first, taken))?;
        skip -= first;
        left -= taken;
    }
    let from = skip.min(tail.len());
    let rest = left.min(tail.len() - from);
    add_copies(alloc, copies, between(tail, from, rest))
}

/// What `count` points after the first `start` count.
pub(crate) fn bytes_between(sealed: &[Points], tail: &[Point], start: usize, count: usize) -> u64
    ensures { result ≡ capped (weigh point_bytes (take count (drop start (joined sealed.now tail.now)))) }
{
    let mut skip = start;
    let mut left = count;
    let mut sum = 0u64;
    for block in sealed {
        let size = block.len();
        let first = skip.min(size);
        let taken = left.min(size - first);
        sum = sum.saturating_add(points_bytes(between(block.as_slice(), first, taken)));
        skip -= first;
        left -= taken;
    }
    let from = skip.min(tail.len());
    let rest = left.min(tail.len() - from);
    sum.saturating_add(points_bytes(between(tail, from, rest)))
}

/// The index of the point at a place of these.
fn index_in(points: &[Point], place: usize) -> Option<i64>
    ensures { result ≡ option_map (λ x. x.index) (slice_get points.now place) }
{
    match points.get(place) {
        Some(point) => Some(point.index),
        None => None,
    }
}

/// The index of the point at a place.
pub(crate) fn index_at(sealed: &[Points], tail: &[Point], place: usize) -> Option<i64>
    ensures { result ≡ option_map (λ x. x.index) (slice_get (joined sealed.now tail.now) place) }
{
    let mut skip = place;
    for block in sealed {
        if skip < block.len() {
            return Some(block.index_at(skip));
        }
        skip -= block.len();
    }
    index_in(tail, skip)
}
