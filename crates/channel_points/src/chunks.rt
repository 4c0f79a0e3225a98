//! The points of a channel in chunks that are shared, of which the last one is open.
ghost use Rattle.std.specs.Prelude.{◌≡◌, ◌<◌, ◌≤◌, ◌+◌, ◌++◌, ◌∷◌, [], length, take, drop, int_lt, not, slice_get, option_map, IfOk, OnErr, OnOk};
ghost use Rattle.std.specs.List.{AllByRecursion};
ghost use Rattle.std.specs.Vec.{vec_len, vec_capacity};
ghost use Rattle.etp_values.specs.Weight.{capped, weigh};
ghost use Rattle.channel_points.specs.Blocks.{joined};
ghost use Rattle.channel_points.specs.Bytes.{point_bytes};
ghost use Rattle.channel_points.specs.Chunks.{AreChunks, HasRoom, IsFresh, Stands, all_added, none_added, settled, with_added, with_tail};
ghost use Rattle.channel_points.specs.Order.{Rises, first_of, last_of};
ghost use Rattle.channel_points.specs.Splits.{IsSplit};

use crate::blocks::{add_all, add_between, count_all, take_last};
use crate::points::Points;
use crate::reads::{bytes_between, copy_between, first_index, index_at, last_index, split};
use crate::run::PointRun;
use etp_values::{List, NoMemory, Point};
use std::alloc::Global;
use std::marker::Model;
use std::mem;

/// How many points a chunk has at most.
pub(crate) const CHUNK: usize = 1024;

/// The points of a channel, and those after them that are about to be added. A contract sees the two lists.
///
/// A chunk has from 1 to 1,024 points, and any two neighbours have more than 1,024 together. All but the last one are sealed: whoever
/// takes points of them shares their memory.
#[derive(Debug)]
pub struct Chunks {
    sealed: Vec<Points>,
    tail: Vec<Point>,
    fresh: Vec<Points>,
    more: Vec<Point>,
    count: usize,
    added: usize,
}

/// Written out, so that whatever holds one drops it by a single call.
impl Drop for Chunks {
    fn drop(self) {
        let Chunks {
            sealed,
            tail,
            fresh,
            more,
            count: _,
            added: _,
        } = self;
        drop(sealed);
        drop(tail);
        drop(fresh);
        drop(more);
    }
}

impl Model for Chunks {
    ghost use Rattle.channel_points.specs.Chunks.{Held};

    ghost Value = { Held };

    ghost use Rattle.channel_points.specs.Kept.{held_of, IsKept};

    ghost view = { held_of };

    ghost invariant = { IsKept };
}

/// A full chunk of points that are about to be added is sealed, and this point is the first of the next one.
fn start_next(
    alloc: Global,
    fresh: &mut Vec<Points>,
    more: &mut Vec<Point>,
    point: Point,
) -> Result<(), NoMemory>
    requires fresh { AllByRecursion (λ c. length c ≡ 1024) fresh.old.items }
    requires more { length more.old.items ≡ 1024 }
    ensures fresh { OnOk result (IsFresh fresh.new.items more.new.items) }
    ensures points { OnOk result (joined fresh.new.items more.new.items
        ≡ joined fresh.old.items more.old.items ++ point ∷ []) }
{
    let mut next = Vec::new(alloc);
    next.reserve(1)?;
    next.push_reserved(point);
    fresh.reserve(1)?;
    let full = mem::replace(more, next);
    let block = Points::of(alloc, full)?;
    fresh.push_reserved(block);
    Ok(())
}

/// One more point is about to be added.
fn add(
    alloc: Global,
    fresh: &mut Vec<Points>,
    more: &mut Vec<Point>,
    point: Point,
) -> Result<(), NoMemory>
    requires { IsFresh fresh.old.items more.old.items }
    ensures fresh { OnOk result (IsFresh fresh.new.items more.new.items) }
    ensures points { OnOk result (joined fresh.new.items more.new.items
        ≡ joined fresh.old.items more.old.items ++ point ∷ []) }
{
    if more.len() == CHUNK {
        return start_next(alloc, fresh, more, point);
    }
    more.reserve(1)?;
    more.push_reserved(point);
    Ok(())
}

/// Makes room for `fresh` full chunks and `more` points after them.
fn make_room(
    sealed: &mut Vec<Points>,
    tail: &mut Vec<Point>,
    fresh: usize,
    more: usize,
) -> Result<(), NoMemory>
    ensures sealed { sealed.new.items ≡ sealed.old.items }
    ensures tail { tail.new.items ≡ tail.old.items }
    ensures ok { OnOk result (HasRoom (vec_len sealed.new) (vec_capacity sealed.new)
        (vec_len tail.new) (vec_capacity tail.new) fresh more) }
{
    sealed.reserve(fresh.saturating_add(1))?;
    if fresh > 0 || tail.len().saturating_add(more) > CHUNK {
        return Ok(());
    }
    tail.reserve(more)?;
    Ok(())
}

/// Whether the last chunk has no other owners and is not ready for any.
fn is_last_own(sealed: &[Points]) -> bool {
    match sealed.last() {
        Some(block) => !block.is_sealed(),
        None => false,
    }
}

/// Whoever takes points of the last chunk shares their memory from now on.
pub(crate) fn seal_last(alloc: Global, sealed: &mut Vec<Points>) -> Result<(), NoMemory>
    ensures { sealed.new.items ≡ sealed.old.items }
{
    if !is_last_own(sealed.as_slice()) {
        return Ok(());
    }
    let Some(mut last) = sealed.pop() else {
        return Ok(());
    };
    let done = last.seal(alloc);
    sealed.push_reserved(last);
    done
}

/// One more point is about to be added, and there is room for it.
fn push(
    alloc: Global,
    sealed: &mut Vec<Points>,
    tail: &mut Vec<Point>,
    fresh: &mut Vec<Points>,
    more: &mut Vec<Point>,
    point: Point,
) -> Result<(), NoMemory>
    requires { IsFresh fresh.old.items more.old.items }
    ensures sealed { sealed.new.items ≡ sealed.old.items }
    ensures tail { tail.new.items ≡ tail.old.items }
    ensures fresh { OnOk result (IsFresh fresh.new.items more.new.items) }
    ensures points { OnOk result (joined fresh.new.items more.new.items
        ≡ joined fresh.old.items more.old.items ++ point ∷ []) }
    ensures room { OnOk result (HasRoom (vec_len sealed.new) (vec_capacity sealed.new)
        (vec_len tail.new) (vec_capacity tail.new) (vec_len fresh.new) (vec_len more.new)) }
{
    if let Err(error) = seal_last(alloc, sealed) {
        return Err(error);
    }
    if let Err(error) = add(alloc, fresh, more, point) {
        return Err(error);
    }
    make_room(sealed, tail, fresh.len(), more.len())
}

/// The open chunk is sealed, if it has points, and another one takes its place.
fn close(sealed: &mut Vec<Points>, tail: &mut Vec<Point>, next: Vec<Point>)
    requires { vec_len sealed.old < vec_capacity sealed.old }
    ensures tail { tail.new.items ≡ next.items }
    ensures sealed { sealed.new.items ≡ with_tail sealed.old.items tail.old.items }
    ensures len { vec_len sealed.new ≤ vec_len sealed.old + 1 }
    ensures room { vec_capacity sealed.new ≡ vec_capacity sealed.old }
{
    let last = mem::replace(tail, next);
    if last.is_empty() {
        return;
    }
    sealed.push_reserved(Points::own(last));
}

/// What is about to be added comes in chunks of its own.
fn attach(
    sealed: &mut Vec<Points>,
    tail: &mut Vec<Point>,
    fresh: &mut Vec<Points>,
    more: &mut Vec<Point>,
)
    requires { vec_len sealed.old + 1 + vec_len fresh.old ≤ vec_capacity sealed.old }
    ensures sealed { sealed.new.items
        ≡ with_tail sealed.old.items tail.old.items ++ fresh.old.items }
    ensures tail { tail.new.items ≡ more.old.items }
    ensures fresh { fresh.new.items ≡ [] }
    ensures more { more.new.items ≡ [] }
{
    let empty = Vec::new(*more.allocator());
    let next = mem::replace(more, empty);
    close(sealed, tail, next);
    let _ = sealed.append(fresh);
}

/// What is about to be added comes into the open chunk.
fn join(tail: &mut Vec<Point>, more: &mut Vec<Point>)
    requires { vec_len tail.old + vec_len more.old ≤ vec_capacity tail.old }
    ensures tail { tail.new.items ≡ tail.old.items ++ more.old.items }
    ensures more { more.new.items ≡ [] }
{
    let _ = tail.append(more);
}

/// What is about to be added is, if it has no full chunk.
fn keep_more(
    sealed: &mut Vec<Points>,
    tail: &mut Vec<Point>,
    fresh: &mut Vec<Points>,
    more: &mut Vec<Point>,
)
    requires stands { Stands sealed.old.items tail.old.items }
    requires fresh { IsFresh fresh.old.items more.old.items }
    requires none { fresh.old.items ≡ [] }
    requires some { 0 < length more.old.items }
    requires room { HasRoom (vec_len sealed.old) (vec_capacity sealed.old)
        (vec_len tail.old) (vec_capacity tail.old) (vec_len fresh.old) (vec_len more.old) }
    ensures stands { Stands sealed.new.items tail.new.items }
    ensures points { joined sealed.new.items tail.new.items
        ≡ joined sealed.old.items tail.old.items ++ joined fresh.old.items more.old.items }
    ensures fresh { fresh.new.items ≡ [] }
    ensures more { more.new.items ≡ [] }
{
    if tail.len() + more.len() <= CHUNK {
        return join(tail, more);
    }
    attach(sealed, tail, fresh, more);
}

/// What is about to be added is. Takes no memory.
fn keep(
    sealed: &mut Vec<Points>,
    tail: &mut Vec<Point>,
    fresh: &mut Vec<Points>,
    more: &mut Vec<Point>,
)
    requires stands { Stands sealed.old.items tail.old.items }
    requires fresh { IsFresh fresh.old.items more.old.items }
    requires room { 0 < length more.old.items → HasRoom (vec_len sealed.old) (vec_capacity sealed.old)
        (vec_len tail.old) (vec_capacity tail.old) (vec_len fresh.old) (vec_len more.old) }
    ensures stands { Stands sealed.new.items tail.new.items }
    ensures points { joined sealed.new.items tail.new.items
        ≡ joined sealed.old.items tail.old.items ++ joined fresh.old.items more.old.items }
    ensures fresh { fresh.new.items ≡ [] }
    ensures more { more.new.items ≡ [] }
{
    if more.is_empty() {
        return;
    }
    if fresh.is_empty() {
        return keep_more(sealed, tail, fresh, more);
    }
    attach(sealed, tail, fresh, more);
}

impl Chunks {
    /// No points.
    pub fn new(alloc: Global) -> Chunks
        ensures { result ≡ settled [] }
    {
        Chunks {
            sealed: Vec::new(alloc),
            tail: Vec::new(alloc),
            fresh: Vec::new(alloc),
            more: Vec::new(alloc),
            count: 0,
            added: 0,
        }
    }

    /// How many points there are, without those that are about to be added.
    pub fn len(&self) -> usize
        ensures { result ≡ length self.now.points }
    {
        self.count
    }

    /// These chunks, of which the last one is opened.
    fn of(alloc: Global, mut blocks: Vec<Points>) -> Result<Chunks, NoMemory>
        requires { AreChunks blocks.items }
        ensures { IfOk result (λ c. c ≡ settled (joined blocks.items [])) }
    {
        let Some(count) = count_all(blocks.as_slice()) else {
            return Err(NoMemory);
        };
        let tail = take_last(alloc, &mut blocks)?;
        Ok(Chunks {
            sealed: blocks,
            tail,
            fresh: Vec::new(alloc),
            more: Vec::new(alloc),
            count,
            added: 0,
        })
    }

    /// `count` points after the first `start` come after those of other chunks.
    fn add_to(
        &self,
        alloc: Global,
        blocks: &mut Vec<Points>,
        start: usize,
        count: usize,
    ) -> Result<(), NoMemory>
        requires { AreChunks blocks.old.items }
        ensures chunks { OnOk result (AreChunks blocks.new.items) }
        ensures points { OnOk result (joined blocks.new.items []
            ≡ joined blocks.old.items [] ++ take count (drop start self.now.points)) }
    {
        add_between(
            alloc,
            blocks,
            self.sealed.as_slice(),
            self.tail.as_slice(),
            start,
            count,
        )
    }

    /// The first `count` points, in chunks that share the memory of these.
    pub fn front(&self, alloc: Global, count: usize) -> Result<Chunks, NoMemory>
        ensures { IfOk result (λ c. c ≡ settled (take count self.now.points)) }
    {
        let mut blocks = Vec::new(alloc);
        self.add_to(alloc, &mut blocks, 0, count)?;
        Chunks::of(alloc, blocks)
    }

    /// These points with others in the place of `count` points after the first `start`, in chunks that share the memory of these.
    pub fn splice(
        &self,
        alloc: Global,
        start: usize,
        count: usize,
        points: &Points,
    ) -> Result<Chunks, NoMemory>
        requires { start + count ≤ length self.now.points }
        ensures { IfOk result (λ c. c ≡ settled (take start self.now.points
            ++ (points.now ++ drop count (drop start self.now.points)))) }
    {
        let size = self.len();
        let mut blocks = Vec::new(alloc);
        self.add_to(alloc, &mut blocks, 0, start)?;
        add_all(alloc, &mut blocks, points)?;
        self.add_to(alloc, &mut blocks, start + count, size - (start + count))?;
        Chunks::of(alloc, blocks)
    }

    /// The index of the first point.
    pub fn first_index(&self) -> Option<i64>
        ensures { result ≡ first_of self.now.points }
    {
        match self.sealed.first() {
            Some(block) => first_index(block.as_slice()),
            None => first_index(self.tail.as_slice()),
        }
    }

    /// The index of the last point.
    pub fn last_index(&self) -> Option<i64>
        ensures { result ≡ last_of self.now.points }
    {
        last_index(self.tail.as_slice())
    }

    /// The index of the last point, with those that are about to be added.
    pub fn last_added(&self) -> Option<i64>
        ensures { result ≡ last_of (self.now.points ++ self.now.added) }
    {
        if self.more.is_empty() {
            return last_index(self.tail.as_slice());
        }
        last_index(self.more.as_slice())
    }

    /// The index of the point at a place.
    pub fn index_at(&self, place: usize) -> Option<i64>
        ensures { result ≡ option_map (λ x. x.index) (slice_get self.now.points place) }
    {
        index_at(self.sealed.as_slice(), self.tail.as_slice(), place)
    }

    /// How many points are below an index.
    pub fn count_below(&self, index: i64) -> usize
        requires { Rises self.now.points }
        ensures { IsSplit (λ x. int_lt x.index index) self.now.points result }
    {
        split(self.sealed.as_slice(), self.tail.as_slice(), false, index)
    }

    /// How many points are at or below an index.
    pub fn count_to(&self, index: i64) -> usize
        requires { Rises self.now.points }
        ensures { IsSplit (λ x. not (int_lt index x.index)) self.now.points result }
    {
        split(self.sealed.as_slice(), self.tail.as_slice(), true, index)
    }

    /// Copies of `count` points after the first `start`.
    pub fn copy_between(
        &self,
        alloc: Global,
        start: usize,
        count: usize,
    ) -> Result<List<Point>, NoMemory>
        requires { start + count ≤ length self.now.points }
        ensures { IfOk result (λ r. r ≡ take count (drop start self.now.points)) }
    {
        let mut copies = Vec::new(alloc);
        copies.reserve(count)?;
        copy_between(
            alloc,
            &mut copies,
            self.sealed.as_slice(),
            self.tail.as_slice(),
            start,
            count,
        )?;
        Ok(List::from_vec(copies))
    }

    /// `count` points after the first `start`, in chunks that share the memory of these.
    pub fn run_between(
        &self,
        alloc: Global,
        start: usize,
        count: usize,
    ) -> Result<PointRun, NoMemory>
        ensures { IfOk result (λ r. r ≡ take count (drop start self.now.points)) }
    {
        let mut parts = Vec::new(alloc);
        self.add_to(alloc, &mut parts, start, count)?;
        PointRun::of(alloc, parts)
    }

    /// What `count` points after the first `start` count, like [`point_bytes`](crate::point_bytes) for all of them together.
    pub fn bytes_between(&self, start: usize, count: usize) -> u64
        ensures { result ≡ capped (weigh point_bytes (take count (drop start self.now.points))) }
    {
        bytes_between(self.sealed.as_slice(), self.tail.as_slice(), start, count)
    }

    /// One more point is about to be added. If allocation fails, nothing is about to be added any more.
    pub fn push(&mut self, alloc: Global, point: Point) -> Result<(), NoMemory>
        ensures ok { OnOk result (self.new ≡ with_added point self.old) }
        ensures err { OnErr result (self.new ≡ none_added self.old) }
    {
        if self.added >= usize::MAX - self.count {
            self.shed();
            return Err(NoMemory);
        }
        if let Err(error) = push(
            alloc,
            &mut self.sealed,
            &mut self.tail,
            &mut self.fresh,
            &mut self.more,
            point,
        ) {
            self.fresh.clear();
            self.more.clear();
            self.added = 0;
            return Err(error);
        }
        self.added += 1;
        Ok(())
    }

    /// What is about to be added is. Takes no memory.
    pub fn keep(&mut self)
        ensures { self.new ≡ all_added self.old }
    {
        keep(
            &mut self.sealed,
            &mut self.tail,
            &mut self.fresh,
            &mut self.more,
        );
        self.count += self.added;
        self.added = 0;
    }

    /// Nothing is about to be added any more.
    pub fn shed(&mut self)
        ensures { self.new ≡ none_added self.old }
    {
        self.fresh.clear();
        self.more.clear();
        self.added = 0;
    }
}
