//! Boxed points of channels, for acts whose other variants are small.
ghost use Rattle.std.specs.Prelude.{◌≡◌, IfOk};

use channel_points::ChannelPoints;
use etp_values::NoMemory;
use std::alloc::Global;
use std::marker::Model;

/// [`ChannelPoints`] that take the room of one pointer in whatever holds them. A contract sees the list of them.
#[derive(Debug, Drop)]
pub struct BoxedItems {
    inner: Box<ChannelPoints>,
}

impl Model for BoxedItems {
    ghost use Rattle.std.specs.Prelude.{List as Items};
    ghost use Rattle.etp_values.specs.declared.point.ChannelPoint.{ChannelPoint};

    ghost Value = { Items ChannelPoint };

    ghost view = { λ b. b.inner.value };
}

impl BoxedItems {
    /// Moves points to the heap. If allocation fails, they are dropped.
    pub fn new(alloc: Global, items: ChannelPoints) -> Result<BoxedItems, NoMemory>
        ensures { IfOk result (λ b. b ≡ items) }
    {
        Ok(BoxedItems {
            inner: Box::new(alloc, items)?,
        })
    }

    /// Borrows the points.
    pub fn get(&self) -> &ChannelPoints
        ensures { result.now ≡ self.now }
    {
        &self.inner
    }

    /// Replaces the points by these. It does not allocate.
    pub(crate) fn set(&mut self, items: ChannelPoints)
        ensures { self.new ≡ items }
    {
        *self.inner = items;
    }
}
