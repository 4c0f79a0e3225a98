//! A file that is written in place, as it is on a disk.
ghost use Rattle.std.specs.Prelude.{◌≡◌, ◌<◌, ◌≤◌, ℕ, List, length, IfSome};
ghost use Rattle.std.specs.declared.option.Option.{Option};
ghost use Rattle.journal_disk.specs.Disks.{Elapses, Follows, IsLength, Only, ReadsAt, Torn, Writes};
ghost use Rattle.etp_outside.specs.Faults.{Rose};
ghost use Rattle.etp_outside.specs.Source.{IsCount};
ghost use Rattle.etp_outside.specs.Told.{Told};

use etp_outside::ReadOutcome;

/// How long a file is.
#[derive(Clone, Copy, Debug, PartialEq, Eq)]
pub enum Length {
    /// In bytes.
    Known(u64),
    /// The disk failed.
    Failed,
}

/// Whether a write was done.
#[derive(Clone, Copy, Debug, PartialEq, Eq)]
pub enum Wrote {
    /// A read gives the piece.
    Done,
    /// The disk failed. In the range of the write a read may give any bytes, and the file may end there.
    Failed,
}

/// Whether a file is on the disk.
#[derive(Clone, Copy, Debug, PartialEq, Eq)]
pub enum Synced {
    /// A crash leaves what a read gives.
    Done,
    /// The disk failed. A crash leaves what it might have left before.
    Failed,
}

/// A file on a disk, which may crash during a write. It can be sent to other threads.
///
/// A crash may leave any bytes in the range of each write since the last sync, whether that write was done or failed, and past the end
/// that the file had at that sync. All other bytes are as the last sync left them.
pub trait Disk: Drop + Send {
    /// The bytes that a read gives, if the disk reveals them.
    ghost seen: { Self → Option (List ℕ) };

    /// What a crash at this moment may leave.
    ghost may_leave: { Self → List ℕ → Type 0 };

    /// The present moment, as a number that never falls.
    ghost moment: { Self → ℕ };

    /// What a crash at any moment since that one might have left, during a call or between two.
    ghost left_since: { Self → ℕ → List ℕ → Type 0 };

    /// How often it failed. The count stops at `u64::MAX`.
    ghost faults: { Self → ℕ };

    /// How many bytes the file has.
    fn len(&mut self) -> Length
        ensures length { IsLength result (seen self.old) }
        ensures seen { seen self.new ≡ seen self.old }
        ensures crash { (c : List ℕ) → may_leave self.new c → may_leave self.old c }
        ensures time { Elapses (moment self.old) (moment self.new) (left_since self.old) (left_since self.new) (may_leave self.new) }
        ensures kept { faults self.old ≤ faults self.new }
        ensures cause { result ≡ Length.Failed → Rose (faults self.old) (faults self.new) };

    /// Reads some of the bytes from the place `at` on to the front of `buf`, at least one unless the file has ended.
    fn read_at(&mut self, at: u64, buf: &mut [u8]) -> ReadOutcome
        requires { 0 < length buf.old }
        ensures count { IsCount result (length buf.new) }
        ensures bytes { ReadsAt result at buf.new (seen self.old) }
        ensures seen { seen self.new ≡ seen self.old }
        ensures crash { (c : List ℕ) → may_leave self.new c → may_leave self.old c }
        ensures time { Elapses (moment self.old) (moment self.new) (left_since self.old) (left_since self.new) (may_leave self.new) }
        ensures kept { faults self.old ≤ faults self.new }
        ensures cause { result ≡ ReadOutcome.Failed → Rose (faults self.old) (faults self.new) };

    /// Writes a piece from the place `at` on, over what is there and past the end. Until a sync, a crash may leave any bytes in its
    /// range.
    fn write_at(&mut self, at: u64, piece: &[u8]) -> Wrote
        ensures seen { Told (seen self.old) (seen self.new) (Writes result at piece.now) }
        ensures crash { Follows (Torn at (length piece.now)) (may_leave self.old) (may_leave self.new) }
        ensures time { Elapses (moment self.old) (moment self.new) (left_since self.old) (left_since self.new) (may_leave self.new) }
        ensures kept { faults self.old ≤ faults self.new }
        ensures cause { result ≡ Wrote.Failed → Rose (faults self.old) (faults self.new) };

    /// Writes all data through to the disk.
    fn sync(&mut self) -> Synced
        ensures durable { result ≡ Synced.Done → IfSome (seen self.old) (λ f. Only f (may_leave self.new)) }
        ensures seen { seen self.new ≡ seen self.old }
        ensures crash { (c : List ℕ) → may_leave self.new c → may_leave self.old c }
        ensures time { Elapses (moment self.old) (moment self.new) (left_since self.old) (left_since self.new) (may_leave self.new) }
        ensures kept { faults self.old ≤ faults self.new }
        ensures cause { result ≡ Synced.Failed → Rose (faults self.old) (faults self.new) };

    /// This moment is one of those since an earlier one.
    ghost counts_now: { (file : Self) (t : ℕ) (c : List ℕ) → t ≤ moment file → may_leave file c → left_since file t c };

    /// Since this moment there is no other.
    ghost only_now: { (file : Self) (c : List ℕ) → left_since file (moment file) c → may_leave file c };
}
