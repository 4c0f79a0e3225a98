//! Points on the heap that several owners share without copying.
ghost use Rattle.std.specs.Prelude.{◌≡◌, IfOk, OnErr};

use etp_values::{List, NoMemory, Point};
use std::alloc::Global;
use std::marker::Model;
use std::mem;
use std::sync::Arc;

/// Points with any number of owners, in any threads. A contract sees the list of them.
#[derive(Debug)]
pub(crate) struct Block {
    inner: Arc<List<Point>, Global>,
}

/// Written out, so that whatever holds one drops it by a single call.
impl Drop for Block {
    fn drop(self) {
        let Block { inner } = self;
        drop(inner);
    }
}

impl Model for Block {
    ghost use Rattle.std.specs.Prelude.{List as Items};
    ghost use Rattle.etp_values.specs.declared.point.Point.{Point};
    ghost use Rattle.std.specs.Arc.{arc_value};

    ghost Value = { Items Point };

    ghost view = { λ b. arc_value b.inner };
}

impl Block {
    /// Moves points to the heap. If allocation fails, they stay where they are.
    pub(crate) fn of(alloc: Global, points: &mut Vec<Point>) -> Result<Block, NoMemory>
        ensures ok { IfOk result (λ b. b ≡ points.old.items) }
        ensures err { OnErr result (points.new.items ≡ points.old.items) }
    {
        let mut inner = Arc::new(alloc, List::new(alloc))?;
        let Some(place) = Arc::get_mut(&mut inner) else {
            return Err(NoMemory);
        };
        *place = List::from_vec(mem::replace(points, Vec::new(alloc)));
        Ok(Block { inner })
    }

    /// Borrows the points.
    pub(crate) fn get(&self) -> &List<Point>
        ensures { result.now ≡ self.now }
    {
        &self.inner
    }

    /// Another owner of the same points, which are not copied.
    pub(crate) fn share(&self) -> Result<Block, NoMemory>
        ensures { IfOk result (λ b. b ≡ self.now) }
    {
        Ok(Block {
            inner: Arc::try_clone(&self.inner)?,
        })
    }
}
