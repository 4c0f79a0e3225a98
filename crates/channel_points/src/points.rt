//! The points of one channel.
ghost use Rattle.std.specs.Prelude.{◌≡◌, ◌<◌, ◌≤◌, ◌+◌, ◌==◌, ◌++◌, ◌∷◌, [], length, map, take, drop, int_lt, slice_get, slice_range, IfOk, OnErr, OnOk, Some};
ghost use Rattle.std.specs.Bool.{OnTrue};
ghost use Rattle.std.specs.Cmp.Lexicographic.{lists_equiv, lists_per, pointwise};
ghost use Rattle.std.specs.Vec.{vec_len};
ghost use Rattle.etp_values.specs.Weight.{capped, weigh};
ghost use Rattle.etp_values.specs.contracts.point.PointEq.TheImpl.Laws.{laws-law as point_equiv};
ghost use Rattle.etp_values.specs.contracts.point.PointPartialEq.TheImpl.{ghosts};
ghost use Rattle.etp_values.specs.contracts.point.PointPartialEq.TheImpl.Laws.{laws-law as point_per};
ghost use Rattle.channel_points.specs.Bytes.{point_bytes};
ghost use Rattle.channel_points.specs.Order.{Rises, last_of};
ghost use Rattle.channel_points.specs.Splits.{IsSplit};

use crate::block::Block;
use crate::bytes::points_bytes;
use crate::reads::last_index;
use crate::search::count_below;
use etp_values::{Copied, DataValue, List, NoMemory, Point};
use std::alloc::Global;
use std::marker::Model;
use std::slice;

/// Points in order. A contract sees the list of them.
///
/// A copy shares the memory of the original once the points are [`sealed`](Points::sealed).
#[derive(Debug)]
pub struct Points {
    form: Form,
}

/// Written out, so that whatever holds one drops it by a single call.
impl Drop for Points {
    fn drop(self) {
        let Points { form } = self;
        drop(form);
    }
}

/// Where the points are. A number has no memory of its own and needs no block; points that are still being added have no other owner.
#[derive(Debug, Drop)]
enum Form {
    Empty,
    One(Point),
    Own(Vec<Point>),
    Run {
        block: Block,
        start: usize,
        end: usize,
    },
}

impl Model for Points {
    ghost use Rattle.std.specs.Prelude.{List as Items};
    ghost use Rattle.etp_values.specs.declared.point.Point.{Point};

    ghost Value = { Items Point };

    ghost use Rattle.channel_points.specs.Handles.{points_in, IsForm};

    ghost view = { λ p. points_in p.form };

    ghost invariant = { λ p. IsForm p.form };
}

/// Whether a value is stored in the point itself.
fn is_plain(value: &DataValue) -> bool {
    matches!(
        value,
        DataValue::Null
            | DataValue::Boolean(_)
            | DataValue::Int(_)
            | DataValue::Long(_)
            | DataValue::Float(_)
            | DataValue::Double(_)
    )
}

/// Whether these points need no block.
fn is_short(points: &[Point]) -> bool
    ensures { OnTrue result (length points.now ≤ 1) }
{
    match points {
        [] => true,
        [point] => is_plain(&point.value),
        _ => false,
    }
}

/// Copies of these points, and one more.
fn longer(alloc: Global, points: &[Point], point: Point) -> Result<Vec<Point>, NoMemory>
    ensures { IfOk result (λ r. r.items ≡ points.now ++ point ∷ []) }
{
    let mut copies = copy_all(alloc, points)?;
    copies.push(point)?;
    Ok(copies)
}

/// Copies of points.
pub(crate) fn copy_all(alloc: Global, points: &[Point]) -> Result<Vec<Point>, NoMemory>
    ensures { IfOk result (λ r. r.items ≡ points.now) }
{
    let mut copies = Vec::new(alloc);
    add_copies(alloc, &mut copies, points)?;
    Ok(copies)
}

/// Copies of points come after the others.
pub(crate) fn add_copies(
    alloc: Global,
    copies: &mut Vec<Point>,
    points: &[Point],
) -> Result<(), NoMemory>
    ensures { OnOk result (copies.new.items ≡ copies.old.items ++ points.now) }
{
    copies.reserve(points.len())?;
    for point in points {
        copies.push(point.copy(alloc)?)?;
    }
    Ok(())
}

/// `count` points after the first `start` of those from `first` to `end` in a block.
fn part_of(
    block: &Block,
    first: usize,
    end: usize,
    start: usize,
    count: usize,
) -> Result<Points, NoMemory>
    requires block { end ≤ length block.now }
    requires within { first + start + count ≤ end }
    ensures { IfOk result (λ r. r ≡ take count (drop start (slice_range block.now first end))) }
{
    let block = block.share()?;
    Ok(Points {
        form: Form::Run {
            block,
            start: first + start,
            end: first + start + count,
        },
    })
}

impl Points {
    /// No points.
    pub fn none() -> Points
        ensures { result ≡ [] }
    {
        Points { form: Form::Empty }
    }

    /// These points, moved and not copied.
    pub fn of(alloc: Global, points: Vec<Point>) -> Result<Points, NoMemory>
        ensures { IfOk result (λ r. r ≡ points.items) }
    {
        if is_short(points.as_slice()) {
            return Ok(Points::short(points));
        }
        Points::block(alloc, points)
    }

    /// One point, or none.
    fn short(mut points: Vec<Point>) -> Points
        requires { vec_len points ≤ 1 }
        ensures { result ≡ points.items }
    {
        match points.pop() {
            Some(point) => Points {
                form: Form::One(point),
            },
            None => Points { form: Form::Empty },
        }
    }

    /// These points, moved and not copied, and without other owners yet.
    pub(crate) fn own(points: Vec<Point>) -> Points
        ensures { result ≡ points.items }
    {
        Points {
            form: Form::Own(points),
        }
    }

    fn block(alloc: Global, mut points: Vec<Point>) -> Result<Points, NoMemory>
        ensures { IfOk result (λ r. r ≡ points.items) }
    {
        points.shrink_to_fit();
        let end = points.len();
        let block = Block::of(alloc, &mut points)?;
        Ok(Points {
            form: Form::Run {
                block,
                start: 0,
                end,
            },
        })
    }

    /// Borrows the points.
    pub(crate) fn as_slice(&self) -> &[Point]
        ensures { result.now ≡ self.now }
    {
        match &self.form {
            Form::Empty => &[],
            Form::One(point) => slice::from_ref(point),
            Form::Own(points) => points.as_slice(),
            Form::Run { block, start, end } => &block.get().as_slice()[*start..*end],
        }
    }

    /// `count` points after the first `start`. They share the memory of these where these are sealed.
    pub(crate) fn part(&self, alloc: Global, start: usize, count: usize) -> Result<Points, NoMemory>
        requires { start + count ≤ length self.now }
        ensures { IfOk result (λ r. r ≡ take count (drop start self.now)) }
    {
        match &self.form {
            Form::Run {
                block,
                start: first,
                end,
            } => part_of(block, *first, *end, start, count),
            _ => Points::of(
                alloc,
                copy_all(alloc, &self.as_slice()[start..start + count])?,
            ),
        }
    }

    /// How many points there are.
    pub fn len(&self) -> usize
        ensures { result ≡ length self.now }
    {
        match &self.form {
            Form::Empty => 0,
            Form::One(_) => 1,
            Form::Own(points) => points.len(),
            Form::Run { start, end, .. } => *end - *start,
        }
    }

    /// Whether there are no points.
    pub fn is_empty(&self) -> bool
        ensures { result ≡ length self.now == 0 }
    {
        self.as_slice().len() == 0
    }

    /// The index of the last point.
    pub fn last_index(&self) -> Option<i64>
        ensures { result ≡ last_of self.now }
    {
        last_index(self.as_slice())
    }

    /// The index of the point at a position.
    pub fn index_at(&self, place: usize) -> i64
        requires { place < length self.now }
        ensures { slice_get (map (λ x. x.index) self.now) place ≡ Some result }
    {
        self.as_slice()[place].index
    }

    /// A copy of the point at a position.
    pub fn copy_at(&self, alloc: Global, place: usize) -> Result<Point, NoMemory>
        requires { place < length self.now }
        ensures { IfOk result (λ p. slice_get self.now place ≡ Some p) }
    {
        self.as_slice()[place].copy(alloc)
    }

    /// How many points are below an index.
    pub fn count_below(&self, index: i64) -> usize
        requires { Rises self.now }
        ensures { IsSplit (λ x. int_lt x.index index) self.now result }
    {
        count_below(self.as_slice(), index)
    }

    /// Like [`point_bytes`](crate::point_bytes), for all points together.
    pub fn bytes(&self) -> u64
        ensures { result ≡ capped (weigh point_bytes self.now) }
    {
        points_bytes(self.as_slice())
    }

    /// Copies of the points.
    pub fn to_list(&self, alloc: Global) -> Result<List<Point>, NoMemory>
        ensures { IfOk result (λ r. r ≡ self.now) }
    {
        Ok(List::from_vec(copy_all(alloc, self.as_slice())?))
    }

    /// The points, moved where they have no other owners, else copied.
    pub(crate) fn into_vec(self, alloc: Global) -> Result<Vec<Point>, NoMemory>
        ensures { IfOk result (λ r. r.items ≡ self) }
    {
        let Points { form } = self;
        match form {
            Form::Own(points) => Ok(points),
            form => copy_all(alloc, Points { form }.as_slice()),
        }
    }

    /// Adds a point after the last one.
    pub fn push(&mut self, alloc: Global, point: Point) -> Result<(), NoMemory>
        ensures ok { OnOk result (self.new ≡ self.old ++ point ∷ []) }
        ensures err { OnErr result (self.new ≡ self.old) }
    {
        if let Form::Own(points) = &mut self.form {
            points.push(point)?;
            return Ok(());
        }
        let points = longer(alloc, self.as_slice(), point)?;
        self.form = Form::Own(points);
        Ok(())
    }

    /// Whether a copy shares them.
    pub fn is_sealed(&self) -> bool {
        !matches!(&self.form, Form::Own(_))
    }

    /// Keeps the points so that a copy shares them.
    pub(crate) fn seal(&mut self, alloc: Global) -> Result<(), NoMemory>
        ensures { self.new ≡ self.old }
    {
        let Form::Own(points) = &mut self.form else {
            return Ok(());
        };
        let end = points.len();
        points.shrink_to_fit();
        let block = Block::of(alloc, points)?;
        self.form = Form::Run {
            block,
            start: 0,
            end,
        };
        Ok(())
    }

    /// The same points, kept so that a copy shares them.
    pub fn sealed(self, alloc: Global) -> Result<Points, NoMemory>
        ensures { IfOk result (λ r. r ≡ self) }
    {
        let Points { form } = self;
        match form {
            Form::Own(points) => Points::of(alloc, points),
            form => Ok(Points { form }),
        }
    }
}

impl Copied for Points {
    fn copy(&self, alloc: Global) -> Result<Points, NoMemory> {
        match &self.form {
            Form::Empty => Ok(Points::none()),
            Form::One(point) => Ok(Points {
                form: Form::One(point.copy(alloc)?),
            }),
            Form::Own(points) => Points::of(alloc, copy_all(alloc, points.as_slice())?),
            Form::Run { block, start, end } => Ok(Points {
                form: Form::Run {
                    block: block.share()?,
                    start: *start,
                    end: *end,
                },
            }),
        }
    }
}

impl PartialEq for Points {
    ghost eq = { pointwise ghosts.eq };

    ghost laws = { lists_per point_per };

    fn eq(&self, other: &Points) -> bool {
        self.as_slice() == other.as_slice()
    }
}

impl Eq for Points {
    ghost laws = { lists_equiv point_equiv };
}
