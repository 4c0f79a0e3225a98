//! How long a peer may be silent.
ghost use Rattle.std.specs.Prelude.{◌≡◌, ◌↔◌, ◌<◌, ◌≤◌, nat_le};
ghost use Rattle.outside_net.specs.Silence.{lasts};

/// After this many milliseconds in which nothing came the peer is sent a ping.
pub const PING_AFTER: u64 = 30_000;

/// After this many it counts as gone.
pub const GONE_AFTER: u64 = 90_000;

/// What a peer's silence requires.
#[derive(Clone, Copy, Debug, PartialEq, Eq)]
pub enum Call {
    Nothing,
    Ping,
    GiveUp,
}

/// A peer's silence: how many bytes had come when it began, and for how many milliseconds it has lasted. The time is the sum of the waits
/// of reads, so that no clock is read.
#[derive(Clone, Copy, Debug)]
pub struct Silence {
    heard: u64,
    lasted: u64,
}

impl Silence {
    /// No silence yet.
    pub fn new() -> Silence
        ensures heard { result.heard ≡ 0 }
        ensures lasted { result.lasted ≡ 0 }
    {
        Silence {
            heard: 0,
            lasted: 0,
        }
    }

    /// Whether the peer was sent a ping, and nothing has come since.
    pub fn is_pinged(&self) -> bool
        ensures { result ≡ nat_le 30000 self.now.lasted }
    {
        self.lasted >= PING_AFTER
    }

    /// After a wait of this many milliseconds, when this many bytes have come in all. A ping is due once in each silence.
    pub fn after(&mut self, heard: u64, wait: u64) -> Call
        ensures heard { self.new.heard ≡ heard }
        ensures lasted { self.new.lasted ≡ lasts self.old heard wait }
        ensures gone { (result ≡ Call.GiveUp) ↔ (90000 ≤ self.new.lasted) }
        ensures ping { (result ≡ Call.Ping) ↔ ((self.old.lasted < 30000) × (30000 ≤ self.new.lasted) × (self.new.lasted < 90000)) }
    {
        let before = self.lasted;
        self.lasted = self.lasts(heard, wait);
        self.heard = heard;
        let lasted = self.lasted;
        if lasted >= GONE_AFTER {
            return Call::GiveUp;
        }
        if before < PING_AFTER && lasted >= PING_AFTER {
            return Call::Ping;
        }
        Call::Nothing
    }

    fn lasts(&self, heard: u64, wait: u64) -> u64
        ensures { result ≡ lasts self.now heard wait }
    {
        if heard == self.heard {
            self.lasted.saturating_add(wait)
        } else {
            0
        }
    }
}
