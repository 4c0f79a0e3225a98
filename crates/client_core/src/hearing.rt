//! What a client knows about the messages that came.
ghost use Rattle.std.specs.Prelude.{◌≡◌};
ghost use Rattle.std.specs.Option.{option_copied};
ghost use Rattle.client_core.specs.Notices.{copy_in};
ghost use Rattle.client_core.specs.State.{first_heard, is_ended, is_open};
ghost use Rattle.client_core.specs.declared.state.Phase.TheVariants as phase;

use crate::asks::Asks;
use crate::channels::Channels;
use crate::state::{Kept, Phase};
use etp_frame::Joiner;
use etp_values::{List, Point};
use std::alloc::Global;
use std::marker::Model;

/// A client apart from what it sends.
#[derive(Drop)]
pub(crate) struct Hearing {
    pub(crate) phase: Phase,
    /// The server's last message id.
    pub(crate) last: i64,
    pub(crate) asks: Asks,
    pub(crate) channels: Channels,
    pub(crate) joiner: Joiner,
    pub(crate) kept: Option<Kept>,
}

impl Model for Hearing {
    ghost use Rattle.client_core.specs.State.{Heard};

    ghost Value = { Heard };

    ghost view = { λ h. record { phase = h.phase; last = h.last; asks = h.asks; channels = h.channels; joiner = h.joiner; kept = h.kept } };
}

impl Hearing {
    /// Nothing has come yet, and these asks wait.
    pub(crate) fn new(alloc: Global, asks: Asks) -> Hearing
        ensures { result ≡ record first_heard { asks = asks } }
    {
        Hearing {
            phase: Phase::Waiting,
            last: 0,
            asks,
            channels: Channels::new(alloc),
            joiner: Joiner::new(),
            kept: None,
        }
    }

    pub(crate) fn is_open(&self) -> bool
        ensures { result ≡ is_open self.now.phase }
    {
        match self.phase {
            Phase::Waiting => false,
            Phase::Open => true,
            Phase::Ended => false,
        }
    }

    pub(crate) fn ended(&self) -> bool
        ensures { result ≡ is_ended self.now.phase }
    {
        match self.phase {
            Phase::Waiting => false,
            Phase::Open => false,
            Phase::Ended => true,
        }
    }

    /// Accepts nothing any more.
    pub(crate) fn end(&mut self)
        ensures { self.new ≡ record self.old { phase = phase.Ended } }
    {
        self.phase = Phase::Ended;
    }

    /// The copy of a channel, if it was subscribed to.
    pub(crate) fn copy(&self, channel: i64) -> Option<&List<Point>>
        ensures { option_copied result ≡ copy_in channel self.now.channels }
    {
        self.channels.copy(channel)
    }
}
