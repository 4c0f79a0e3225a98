//! The subscriptions of a session.
ghost use Rattle.std.specs.Prelude.{◌≡◌, ◌≤◌, ◌+◌, ◌-◌, drop, length, option_map, slice_get, IfOk, IfSome, OnErr, OnOk};
ghost use Rattle.subscribe_core.specs.Subscriptions.{asked_from, cleared, filled, has_sub, with_sub, without};
ghost use Rattle.subscribe_core.specs.Views.{IsExact, shown};

pub use crate::pending::MAX_PENDING;
use crate::pending::Pending;
use crate::standing::{push, sub_of, take_out};
use crate::told_change::ToldChange;
use channel_store::{ChannelChange, Sub};
use etp_values::{List, NoMemory};
use std::alloc::Global;
use std::marker::Model;

/// The greatest number of subscriptions that a session can have.
pub const MAX_SUBS: usize = 256;

/// The subscriptions of a session, their cursor, and the changes that are still to be sent. A contract sees the three as `Subbed`.
pub struct Subs {
    alloc: Global,
    subs: List<Sub>,
    cursor: u64,
    pending: Pending,
}

/// Written out, so that whatever holds one drops it by a single call.
impl Drop for Subs {
    fn drop(self) {
        let Subs {
            alloc: _,
            subs,
            cursor: _,
            pending,
        } = self;
        drop(subs);
        drop(pending);
    }
}

impl Model for Subs {
    ghost use Rattle.subscribe_core.specs.Subscriptions.{Subbed};

    ghost Value = { Subbed };

    ghost view = { λ s. record { subs = s.subs; cursor = s.cursor; pending = s.pending } };
}

impl Subs {
    ghost use Rattle.subscribe_core.specs.Subscriptions.{nothing};

    /// No subscription, and room for 256 changes.
    pub fn new(alloc: Global) -> Result<Subs, NoMemory>
        ensures { IfOk result (λ s. s ≡ nothing) }
    {
        Ok(Subs {
            alloc,
            subs: List::new(alloc),
            cursor: 0,
            pending: Pending::new(alloc)?,
        })
    }

    /// The subscriptions, in the order in which they were added.
    pub fn list(&self) -> &List<Sub>
        ensures { result.now ≡ self.now.subs }
    {
        &self.subs
    }

    /// The place of the journal up to which the store was asked for changes, if there is a subscription: at first that from which the first
    /// subscription is sent changes, and then that of the last answer.
    pub fn cursor(&self) -> Option<u64>
        ensures { result ≡ asked_from self.now }
    {
        if self.subs.is_empty() {
            return None;
        }
        Some(self.cursor)
    }

    /// How many more changes can be pending.
    pub fn room(&self) -> u32
        ensures value { result ≡ 256 - length self.now.pending }
        ensures within { length self.now.pending ≤ 256 }
    {
        self.pending.room()
    }

    /// Adds a subscription. If its channel has one, or there are 256, nothing changes.
    pub fn add(&mut self, sub: Sub) -> Result<(), NoMemory>
        ensures ok { OnOk result (self.new ≡ with_sub sub self.old) }
        ensures err { OnErr result (self.new ≡ self.old) }
    {
        if sub_of(self.subs.as_slice(), sub.channel).is_some() || self.subs.len() >= MAX_SUBS {
            return Ok(());
        }
        let is_first = self.subs.is_empty();
        push(self.alloc, &mut self.subs, sub)?;
        if is_first {
            self.cursor = sub.from;
        }
        Ok(())
    }

    /// Takes the subscription of a channel out, and returns whether there was one. What is pending is still handed out.
    pub fn remove(&mut self, channel: i64) -> bool
        ensures there { result ≡ has_sub channel self.old.subs }
        ensures rest { self.new ≡ without channel self.old }
    {
        let there = sub_of(self.subs.as_slice(), channel).is_some();
        take_out(self.alloc, &mut self.subs, channel);
        there
    }

    /// Takes all subscriptions out. What is pending is still handed out.
    pub fn remove_all(&mut self)
        ensures { self.new ≡ cleared self.old }
    {
        self.subs = List::new(self.alloc);
    }

    /// Takes in the changes that the store answered, up to a place of the journal. A change of a channel without a subscription is dropped,
    /// and so is one of which nothing is left from the subscription's start on. It does not allocate.
    pub fn fill(&mut self, upto: u64, changes: List<ChannelChange>)
        requires { length self.old.pending + length changes ≤ 256 }
        ensures { self.new ≡ filled upto changes self.old }
    {
        self.cursor = upto;
        self.pending
            .tell_all(self.subs.as_slice(), changes.into_vec());
    }

    /// Takes the first of the pending changes out. It does not allocate.
    pub fn next(&mut self) -> Option<ToldChange>
        ensures first { option_map shown result ≡ slice_get self.old.pending 0 }
        ensures rest { self.new ≡ record self.old { pending = drop 1 self.old.pending } }
        ensures exact { IfSome result IsExact }
    {
        self.pending.pop()
    }
}
