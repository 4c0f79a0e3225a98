//! Files by name.
ghost use Rattle.std.specs.Prelude.{◌≡◌, ◌<◌, ◌≤◌, ℕ, List};
ghost use Rattle.std.specs.declared.option.Option.{Option};
ghost use Rattle.etp_outside.specs.Faults.{Rose};
ghost use Rattle.etp_outside.specs.Host.{Opens, OpenCause};

use crate::source::Source;
use std::alloc::Global;

/// What opening a file returned. A file that was opened has to be closed: neither it nor this can be dropped.
pub enum Opened<S> {
    /// The file, at its first byte.
    File(S),
    /// The host failed, or has no such file.
    Failed,
    /// Out of memory.
    NoMemory,
}

/// Where files are opened by name.
pub trait Host {
    /// An open file. It can't be dropped, so whoever opened it gives it back to [`close`](Host::close).
    type File: Source;

    /// What the file of a name contains, if the host reveals it.
    ghost content: { Self → List ℕ → Option (List ℕ) };

    /// How often the host failed, or took back a file that had failed. The count stops at `u64::MAX`.
    ghost faults: { Self → ℕ };

    /// Opens the file of this name for reading from its first byte. The file has not failed yet.
    fn open(&mut self, alloc: Global, name: &str) -> Opened<Self::File>
        ensures file { Opens Self.File.left Self.File.faults result (content self.old name.now) }
        ensures same { (q : List ℕ) → content self.new q ≡ content self.old q }
        ensures kept { faults self.old ≤ faults self.new }
        ensures cause { OpenCause result (faults self.old) (faults self.new) };

    /// Takes a file back. If the file has failed, the host's count of faults rises.
    fn close(&mut self, file: Self::File)
        ensures same { (q : List ℕ) → content self.new q ≡ content self.old q }
        ensures kept { faults self.old ≤ faults self.new }
        ensures cause { 0 < Self.File.faults file → Rose (faults self.old) (faults self.new) };
}
