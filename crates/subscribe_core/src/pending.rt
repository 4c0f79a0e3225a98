//! The changes that are still to be sent.
ghost use Rattle.std.specs.Prelude.{◌≡◌, ◌<◌, ◌≤◌, ◌+◌, ◌-◌, ◌++◌, ◌∷◌, [], drop, length, option_map, slice_get, IfOk, IfSome};
ghost use Rattle.std.specs.List.{flat_map};
ghost use Rattle.subscribe_core.specs.Views.{IsExact, shown, told};

use crate::told_change::{ToldChange, told};
use channel_store::{ChannelChange, Sub};
use circular_buffer::HeapCircularBuffer;
use etp_values::NoMemory;
use std::alloc::Global;
use std::marker::Model;

/// The greatest number of changes that can be pending.
pub const MAX_PENDING: u32 = 256;

/// Changes to be sent, first change first, in a ring that is allocated at once. A contract sees them as they are sent.
#[derive(Drop)]
pub(crate) struct Pending {
    ring: HeapCircularBuffer<ToldChange>,
}

impl Model for Pending {
    ghost use Rattle.std.specs.Prelude.{List, map};
    ghost use Rattle.channel_store.specs.declared.change.ChannelChange.{ChannelChange};

    ghost Value = { List ChannelChange };

    ghost use Rattle.subscribe_core.specs.Views.{shown, IsPending};

    ghost view = { λ p. map shown p.ring.items };

    ghost invariant = { λ p. IsPending p.ring.items p.ring.capacity };
}

impl Pending {
    /// No changes, and room for 256.
    pub(crate) fn new(alloc: Global) -> Result<Pending, NoMemory>
        ensures { IfOk result (λ p. p ≡ []) }
    {
        Ok(Pending {
            ring: HeapCircularBuffer::with_capacity(alloc, MAX_PENDING as usize)?,
        })
    }

    /// How many more changes there is room for.
    pub(crate) fn room(&self) -> u32
        ensures value { result ≡ 256 - length self.now }
        ensures within { length self.now ≤ 256 }
    {
        MAX_PENDING - self.ring.len() as u32
    }

    /// Takes the first change out.
    pub(crate) fn pop(&mut self) -> Option<ToldChange>
        ensures first { option_map shown result ≡ slice_get self.old 0 }
        ensures rest { self.new ≡ drop 1 self.old }
        ensures exact { IfSome result IsExact }
    {
        self.ring.pop_front()
    }

    fn push(&mut self, told_change: ToldChange)
        requires room { length self.old < 256 }
        requires exact { IsExact told_change }
        ensures { self.new ≡ self.old ++ shown told_change ∷ [] }
    {
        let _ = self.ring.push_back(told_change);
    }

    /// Adds a change as it is sent.
    fn tell(&mut self, subs: &[Sub], change: ChannelChange)
        requires { length self.old < 256 }
        ensures told { self.new ≡ self.old ++ told subs.now change }
        ensures within { length self.new ≤ length self.old + 1 }
    {
        if let Some(told_change) = told(subs, change) {
            self.push(told_change);
        }
    }

    /// Adds changes as they are sent. It does not allocate.
    pub(crate) fn tell_all(&mut self, subs: &[Sub], changes: Vec<ChannelChange>)
        requires { length self.old + length changes.items ≤ 256 }
        ensures { self.new ≡ self.old ++ flat_map (told subs.now) changes.items }
    {
        for change in changes {
            self.tell(subs, change);
        }
    }
}
