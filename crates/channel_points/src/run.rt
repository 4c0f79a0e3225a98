//! Points of a channel as they are handed out, in chunks that share the memory of the channel's.
ghost use Rattle.std.specs.Prelude.{◌≡◌, ◌≤◌, ◌+◌, ◌*◌, ◌==◌, [], length, take, drop, IfOk};
ghost use Rattle.etp_values.specs.Weight.{capped, weigh};
ghost use Rattle.channel_points.specs.Blocks.{joined};
ghost use Rattle.channel_points.specs.Bytes.{point_bytes};
ghost use Rattle.channel_points.specs.Chunks.{AreChunks};
ghost use Rattle.channel_points.specs.Fronts.{IsFront};

use crate::blocks::count_all;
use crate::chunks::seal_last;
use crate::points::Points;
use crate::reads::{bytes_between, copy_between};
use etp_values::{List, NoMemory, Point};
use std::alloc::Global;
use std::marker::Model;

/// Points of a channel in order. A contract sees the list of them.
///
/// They are in chunks, as those of the channel are: a chunk has from 1 to 1,024 points, and any two neighbours have more than 1,024 together.
#[derive(Debug)]
pub struct PointRun {
    parts: Vec<Points>,
    count: usize,
}

/// Written out, so that whatever holds one drops it by a single call.
impl Drop for PointRun {
    fn drop(self) {
        let PointRun { parts, count: _ } = self;
        drop(parts);
    }
}

impl Model for PointRun {
    ghost use Rattle.std.specs.Prelude.{List as Items};
    ghost use Rattle.etp_values.specs.declared.point.Point.{Point};

    ghost Value = { Items Point };

    ghost use Rattle.channel_points.specs.Runs.{points_in_run, IsRun};

    ghost view = { points_in_run };

    ghost invariant = { IsRun };
}

/// The points of a chunk after the first `skip`.
fn rest_of(part: &Points, skip: usize) -> &[Point]
    requires { skip ≤ length part.now }
    ensures { result.now ≡ drop skip part.now }
{
    &part.as_slice()[skip..]
}

/// The points after the first `place`, up to the end of the chunk that has the next one.
fn rest_of_chunk(parts: &[Points], place: usize) -> &[Point]
    ensures { IsFront (joined parts.now []) place result.now }
{
    let mut skip = place;
    for part in parts {
        if skip < part.len() {
            return rest_of(part, skip);
        }
        skip -= part.len();
    }
    &[]
}

/// Copies of the first `count` points.
fn copy_first(alloc: Global, parts: &[Points], count: usize) -> Result<List<Point>, NoMemory>
    ensures { IfOk result (λ r. r ≡ take count (joined parts.now [])) }
{
    let mut copies = Vec::new(alloc);
    copies.reserve(count)?;
    copy_between(alloc, &mut copies, parts, &[], 0, count)?;
    Ok(List::from_vec(copies))
}

impl PointRun {
    /// No points.
    pub fn none(alloc: Global) -> PointRun
        ensures { result ≡ [] }
    {
        PointRun {
            parts: Vec::new(alloc),
            count: 0,
        }
    }

    /// The points of these chunks.
    pub(crate) fn of(alloc: Global, mut parts: Vec<Points>) -> Result<PointRun, NoMemory>
        requires { AreChunks parts.items }
        ensures { IfOk result (λ r. r ≡ joined parts.items []) }
    {
        seal_last(alloc, &mut parts)?;
        let Some(count) = count_all(parts.as_slice()) else {
            return Err(NoMemory);
        };
        Ok(PointRun { parts, count })
    }

    /// How many points there are.
    pub fn len(&self) -> u64
        ensures { result ≡ length self.now }
    {
        self.count as u64
    }

    /// Whether there are no points.
    pub fn is_empty(&self) -> bool
        ensures { result ≡ length self.now == 0 }
    {
        self.count == 0
    }

    /// In how many chunks the points are.
    #[tactic(auto, using(crate::proofs::RunLemmas::few_chunks))]
    pub fn chunks(&self) -> u64
        ensures { 1025 * result ≤ 2 * length self.now + 2050 }
    {
        self.parts.len() as u64
    }

    /// The chunks, in order.
    #[tactic(auto, using(crate::proofs::RunLemmas::few_chunks))]
    pub fn parts(&self) -> &[Points]
        ensures points { joined result.now [] ≡ self.now }
        ensures chunks { AreChunks result.now }
        ensures few { 1025 * length result.now ≤ 2 * length self.now + 2050 }
    {
        self.parts.as_slice()
    }

    /// The points after the first `place`, up to the end of the chunk that has the next one; none past the last point.
    pub fn chunk_from(&self, place: u64) -> &[Point]
        ensures { IsFront self.now place result.now }
    {
        rest_of_chunk(self.parts.as_slice(), place as usize)
    }

    /// Like [`point_bytes`](crate::point_bytes), for all points together.
    pub fn bytes(&self) -> u64
        ensures { result ≡ capped (weigh point_bytes self.now) }
    {
        bytes_between(self.parts.as_slice(), &[], 0, self.count)
    }

    /// Copies of the points.
    pub fn to_list(&self, alloc: Global) -> Result<List<Point>, NoMemory>
        ensures { IfOk result (λ r. r ≡ self.now) }
    {
        copy_first(alloc, self.parts.as_slice(), self.count)
    }
}
