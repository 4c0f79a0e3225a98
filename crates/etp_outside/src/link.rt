//! Messages that come and go.
ghost use Rattle.std.specs.Prelude.{◌≡◌, ◌≤◌, ◌||◌, ℕ, Bool, true, false};
ghost use Rattle.std.specs.declared.option.Option.{Option};
ghost use Rattle.etp_outside.specs.Faults.{Rose};
ghost use Rattle.etp_outside.specs.Told.{Told};
ghost use Rattle.etp_outside.specs.Talk.{Received, Sends, Talk, is_end};

use etp_values::{Blob, Text};
use std::alloc::Global;

/// What comes over a link, item by item.
#[derive(Debug, Drop)]
pub enum Item {
    /// A message from the peer.
    Message(Blob),
    /// A turn in which no message came.
    Idle,
}

/// What receiving returned.
#[derive(Debug, Drop)]
pub enum Recv {
    /// The peer's next message.
    Got(Blob),
    /// No message came in this turn.
    Idle,
    /// The peer has ended the link, and nothing more comes.
    End,
    /// The link failed, and nothing was taken.
    Failed,
    /// Out of memory; nothing was taken.
    NoMemory,
}

/// What sending a message returned.
#[derive(Clone, Copy, Debug, PartialEq, Eq)]
pub enum Sent {
    /// The whole message was sent.
    Done,
    /// The link failed. The message is not to be sent again.
    Failed,
    /// Out of memory; the message was not sent.
    NoMemory,
}

/// The address that a link was dialed to.
#[derive(Debug, Drop)]
pub struct Address {
    pub host: Text,
    pub port: u16,
    pub path: Text,
}

/// A connection to a peer, over which whole messages come and go. It can cross threads.
pub trait Link: Drop + Send {
    /// What is still to come, and what was taken and sent so far, if the link reveals it.
    ghost talk: { Self → Option Talk };

    /// How often it failed. The count stops at `u64::MAX`.
    ghost faults: { Self → ℕ };

    /// Whether it has reported that the peer ended it.
    ghost ended: { Self → Bool };

    /// Whether this side has closed it. Then nothing more is received or sent.
    ghost closed: { Self → Bool };

    /// Takes the next item: a message, or the report that none has come yet.
    fn recv(&mut self, alloc: Global) -> Recv
        requires usable { closed self.old ≡ false }
        ensures talk { Told (talk self.old) (talk self.new) (Received result) }
        ensures kept { faults self.old ≤ faults self.new }
        ensures cause { result ≡ Recv.Failed → Rose (faults self.old) (faults self.new) }
        ensures ended { ended self.new ≡ (ended self.old || is_end result) }
        ensures closed { closed self.new ≡ closed self.old };

    /// Sends a whole message.
    fn send(&mut self, alloc: Global, message: &Blob) -> Sent
        requires usable { closed self.old ≡ false }
        ensures talk { Told (talk self.old) (talk self.new) (Sends result message.now) }
        ensures kept { faults self.old ≤ faults self.new }
        ensures cause { result ≡ Sent.Failed → Rose (faults self.old) (faults self.new) }
        ensures ended { ended self.new ≡ ended self.old }
        ensures closed { closed self.new ≡ closed self.old };

    /// Tells the link, before it is closed, the number of the session that it served and how that ended, both as they are handed over later
    /// with the link ([`back`](crate::Listener::back)). It never waits, and nothing that the link reveals changes. A link that has nobody to
    /// pass it on to does nothing.
    fn leave(&mut self, number: u64, end: u8)
        ensures talk { talk self.new ≡ talk self.old }
        ensures faults { faults self.new ≡ faults self.old }
        ensures ended { ended self.new ≡ ended self.old }
        ensures closed { closed self.new ≡ closed self.old }
    {
        let _ = (number, end);
    }

    /// Says goodbye to the peer: this side is done.
    fn close(&mut self)
        ensures talk { talk self.new ≡ talk self.old }
        ensures faults { faults self.new ≡ faults self.old }
        ensures ended { ended self.new ≡ ended self.old }
        ensures closed { closed self.new ≡ true };
}
