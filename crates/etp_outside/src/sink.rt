//! Where bytes go.
ghost use Rattle.std.specs.Prelude.{◌≡◌, ◌≤◌, ℕ, List, length};
ghost use Rattle.std.specs.declared.option.Option.{Option};
ghost use Rattle.etp_outside.specs.Faults.{Rose};
ghost use Rattle.etp_outside.specs.Sink.{IsTaken, Writes};

/// What one write returned.
#[derive(Clone, Copy, Debug, PartialEq, Eq)]
pub enum WriteOutcome {
    /// The number of bytes taken, from the front of the piece.
    Took(usize),
    /// The sink failed, and took no byte.
    Failed,
}

/// Where bytes go: an output.
pub trait Sink {
    /// The bytes that it holds, if it reveals them.
    ghost held: { Self → Option (List ℕ) };

    /// How often it failed. The count stops at `u64::MAX`.
    ghost faults: { Self → ℕ };

    /// Takes some of the first bytes of `piece`, at least one unless it is empty. A sink that can take none has failed.
    fn write(&mut self, piece: &[u8]) -> WriteOutcome
        ensures count { IsTaken result (length piece.now) }
        ensures bytes { Writes result piece.now (held self.old) (held self.new) }
        ensures kept { faults self.old ≤ faults self.new }
        ensures cause { result ≡ WriteOutcome.Failed → Rose (faults self.old) (faults self.new) };
}
