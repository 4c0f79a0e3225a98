//! Where bytes come from.
ghost use Rattle.std.specs.Prelude.{◌≡◌, ◌<◌, ◌≤◌, ℕ, List, length};
ghost use Rattle.std.specs.declared.option.Option.{Option};
ghost use Rattle.etp_outside.specs.Faults.{Rose};
ghost use Rattle.etp_outside.specs.Source.{IsCount, Reads};

/// What one read returned.
#[derive(Clone, Copy, Debug, PartialEq, Eq)]
pub enum ReadOutcome {
    /// The number of bytes read, to the front of the buffer.
    Got(usize),
    /// The input has ended, and stays ended.
    End,
    /// The source failed, and no byte was taken from it.
    Failed,
}

/// Where bytes come from: an input, or an open file.
pub trait Source {
    /// The bytes that are left to be read, if the source reveals them.
    ghost left: { Self → Option (List ℕ) };

    /// How often it failed. The count stops at `u64::MAX`.
    ghost faults: { Self → ℕ };

    /// Reads some of the next bytes to the front of `buf`, at least one unless the input has ended.
    fn read(&mut self, buf: &mut [u8]) -> ReadOutcome
        requires { 0 < length buf.old }
        ensures count { IsCount result (length buf.new) }
        ensures bytes { Reads result buf.new (left self.old) (left self.new) }
        ensures kept { faults self.old ≤ faults self.new }
        ensures cause { result ≡ ReadOutcome.Failed → Rose (faults self.old) (faults self.new) };
}
