//! Boxed points, for enums whose other variants are small.
ghost use Rattle.std.specs.Prelude.{◌≡◌, ◌++◌, ◌∷◌, [], IfOk, OnErr, OnOk};
ghost use Rattle.std.specs.Cmp.Lexicographic.{lists_equiv, lists_per, pointwise};
ghost use Rattle.etp_values.specs.contracts.point.PointEq.TheImpl.Laws.{laws-law as point_equiv};
ghost use Rattle.etp_values.specs.contracts.point.PointPartialEq.TheImpl.{ghosts};
ghost use Rattle.etp_values.specs.contracts.point.PointPartialEq.TheImpl.Laws.{laws-law as point_per};

use crate::points::Points;
use etp_values::{Copied, NoMemory, Point};
use std::alloc::Global;
use std::marker::Model;

/// [`Points`] that take the room of one pointer in whatever holds them. A contract sees the list of them.
#[derive(Debug, Drop)]
pub struct BoxedPoints {
    inner: Box<Points>,
}

impl Model for BoxedPoints {
    ghost use Rattle.std.specs.Prelude.{List as Items};
    ghost use Rattle.etp_values.specs.declared.point.Point.{Point};

    ghost Value = { Items Point };

    ghost view = { λ b. b.inner.value };
}

impl BoxedPoints {
    /// Moves points to the heap. If allocation fails, they are dropped.
    pub fn new(alloc: Global, points: Points) -> Result<BoxedPoints, NoMemory>
        ensures { IfOk result (λ b. b ≡ points) }
    {
        Ok(BoxedPoints {
            inner: Box::new(alloc, points)?,
        })
    }

    /// Borrows the points.
    pub fn get(&self) -> &Points
        ensures { result.now ≡ self.now }
    {
        &self.inner
    }

    /// The points, moved and not copied.
    pub fn into_inner(self) -> Points
        ensures { result ≡ self }
    {
        let BoxedPoints { inner } = self;
        Box::into_inner(inner)
    }

    /// Like [`Points::push`].
    pub fn push(&mut self, alloc: Global, point: Point) -> Result<(), NoMemory>
        ensures ok { OnOk result (self.new ≡ self.old ++ point ∷ []) }
        ensures err { OnErr result (self.new ≡ self.old) }
    {
        self.inner.push(alloc, point)
    }

    /// Like [`Points::sealed`].
    pub fn sealed(self, alloc: Global) -> Result<BoxedPoints, NoMemory>
        ensures { IfOk result (λ b. b ≡ self) }
    {
        BoxedPoints::new(alloc, self.into_inner().sealed(alloc)?)
    }
}

impl Copied for BoxedPoints {
    fn copy(&self, alloc: Global) -> Result<BoxedPoints, NoMemory> {
        BoxedPoints::new(alloc, self.get().copy(alloc)?)
    }
}

impl PartialEq for BoxedPoints {
    ghost eq = { pointwise ghosts.eq };

    ghost laws = { lists_per point_per };

    fn eq(&self, other: &BoxedPoints) -> bool {
        *self.get() == *other.get()
    }
}

impl Eq for BoxedPoints {
    ghost laws = { lists_equiv point_equiv };
}
