//! Writes that are on the disk before the next one begins.
ghost use Rattle.std.specs.Prelude.{◌≡◌, ◌<◌, ◌≤◌, ◌-◌, ◌^◌, ◌++◌, ◌∷◌, ℕ, List, length, drop, Some, IfSome};
ghost use Rattle.journal_disk.specs.Disks.{Elapses, Holds, LeavesOnly, Only, Torn};
ghost use Rattle.etp_outside.specs.Faults.{Rose};
ghost use Rattle.journal_file.specs.Gates.{IsKept, IsShutOrOpen, Leaves};

use journal_disk::{Disk, Synced, Wrote};

/// Syncs all that was written.
fn bring<D: Disk>(disk: &mut D) -> Wrote
    ensures durable { result ≡ Wrote.Done → IfSome (D.seen disk.old) (λ f. Only f (D.may_leave disk.new)) }
    ensures seen { D.seen disk.new ≡ D.seen disk.old }
    ensures crash { (c : List ℕ) → D.may_leave disk.new c → D.may_leave disk.old c }
    ensures time { Elapses (D.moment disk.old) (D.moment disk.new) (D.left_since disk.old) (D.left_since disk.new) (D.may_leave disk.new) }
    ensures kept { D.faults disk.old ≤ D.faults disk.new }
    ensures cause { result ≡ Wrote.Failed → Rose (D.faults disk.old) (D.faults disk.new) }
{
    match disk.sync() {
        Synced::Failed => Wrote::Failed,
        Synced::Done => Wrote::Done,
    }
}

/// Writes a piece, and syncs. After `Failed` the file has to be opened again.
pub(crate) fn settle<D: Disk>(disk: &mut D, at: u64, piece: &[u8]) -> Wrote
    ensures done { result ≡ Wrote.Done → (f : List ℕ) → D.seen disk.old ≡ Some f
        → (h : List ℕ) × Holds at piece.now f h × IsKept D.seen D.may_leave disk.new h }
    ensures left { (f : List ℕ) → D.seen disk.old ≡ Some f → Leaves D.seen disk.new (Torn at (length piece.now) f) }
    ensures any_moment { (f : List ℕ) → IsKept D.seen D.may_leave disk.old f
        → LeavesOnly D.moment D.left_since disk.old disk.new (Torn at (length piece.now) f) }
    ensures kept { D.faults disk.old ≤ D.faults disk.new }
    ensures cause { result ≡ Wrote.Failed → Rose (D.faults disk.old) (D.faults disk.new) }
{
    match disk.write_at(at, piece) {
        Wrote::Failed => Wrote::Failed,
        Wrote::Done => bring(disk),
    }
}

/// Writes a piece after the gate at a place and syncs, and then opens the gate and syncs.
pub(crate) fn open_gate<D: Disk>(disk: &mut D, gate: u64, piece: &[u8]) -> Wrote
    requires { gate < 2 ^ 64 - 1 }
    ensures done { result ≡ Wrote.Done → (front : List ℕ) (g : ℕ) (junk : List ℕ) → length front ≡ gate → D.seen disk.old ≡ Some (front ++ g ∷ junk)
        → IsKept D.seen D.may_leave disk.new (front ++ 1 ∷ (piece.now ++ drop (length piece.now) junk)) }
    ensures left { (front : List ℕ) (g : ℕ) (junk : List ℕ) → length front ≡ gate → D.seen disk.old ≡ Some (front ++ g ∷ junk)
        → Leaves D.seen disk.new (IsShutOrOpen front g piece.now) }
    ensures any_moment { (front : List ℕ) (g : ℕ) (junk : List ℕ) → length front ≡ gate → IsKept D.seen D.may_leave disk.old (front ++ g ∷ junk)
        → LeavesOnly D.moment D.left_since disk.old disk.new (IsShutOrOpen front g piece.now) }
    ensures kept { D.faults disk.old ≤ D.faults disk.new }
    ensures cause { result ≡ Wrote.Failed → Rose (D.faults disk.old) (D.faults disk.new) }
{
    match settle(disk, gate + 1, piece) {
        Wrote::Failed => Wrote::Failed,
        Wrote::Done => settle(disk, gate, &[1]),
    }
}
