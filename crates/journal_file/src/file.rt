//! A journal's file on a disk.
ghost use Rattle.std.specs.Prelude.{◌≡◌, ◌<◌, ◌≤◌, ◌+◌, ◌^◌, ◌++◌, ◌∷◌, [], ℕ, List as Items, length, Some, IfOk, IfErr, IsErrOf, OnOk};
ghost use Rattle.etp_outside.specs.Faults.{Rose};
ghost use Rattle.journal_disk.specs.Disks.{LeavesOnly};
ghost use Rattle.journal_file.specs.Gates.{IsKept, Leaves};
ghost use Rattle.journal_file.specs.Layout.{IsShort, OpensTo, blocks};
ghost use Rattle.journal_file.specs.Opening.{IsRefusal, Rested};
ghost use Rattle.journal_file.specs.Rest.{Appends, AtEachMoment, AtRest, Fits, IsLeft, Stays};

use crate::error::JournalError;
use crate::format::{FIRST_GATE, behind_gate, file_start};
use crate::gate::{open_gate, settle};
use crate::opening::{Walk, read_settled};
use etp_values::{Blob, Id16, List};
use journal_disk::{Disk, Wrote};
use std::alloc::Global;

/// The greatest place of a gate.
const MAX_GATE: u64 = 1 << 62;

/// A journal's file, and the place of its last gate.
#[derive(Drop)]
pub struct JournalFile<D: Disk> {
    disk: D,
    gate: u64,
}

impl<D: Disk> JournalFile<D> {
    /// Creates the file of an instance's journal, without an entry, on an empty disk. A refusal returns the disk, and is a fault: the
    /// file then has at most 25 bytes, as at each moment of the call.
    pub fn create(disk: D, id: Id16) -> Result<JournalFile<D>, (D, JournalError)>
        ensures made { IfOk result (λ j. D.seen disk ≡ Some [] → AtRest D.seen D.may_leave id [] j) }
        ensures left { IfErr result (λ e. D.seen disk ≡ Some [] → Leaves D.seen e.0 IsShort) }
        ensures any_moment { IfOk result (λ j. IsKept D.seen D.may_leave disk [] → LeavesOnly D.moment D.left_since disk j.disk IsShort) }
        ensures any_moment_err { IfErr result (λ e. IsKept D.seen D.may_leave disk [] → LeavesOnly D.moment D.left_since disk e.0 IsShort) }
        ensures fault { IfErr result (λ e. e.1 ≡ JournalError.DiskFault) }
        ensures kept { IfOk result (λ j. D.faults disk ≤ D.faults j.disk) }
        ensures cause { IfErr result (λ e. Rose (D.faults disk) (D.faults e.0)) }
    {
        let mut disk = disk;
        let bytes = file_start(id);
        match settle(&mut disk, 0, &bytes) {
            Wrote::Failed => Err((disk, JournalError::DiskFault)),
            Wrote::Done => Ok(JournalFile {
                disk,
                gate: FIRST_GATE,
            }),
        }
    }

    /// Opens the file of an instance's journal, and returns its entries. It syncs the file before it reads, so that what it returns
    /// is what a crash leaves. It reads one entry after another, and compares each length with the file's
    /// before it allocates memory for an entry. A refusal returns the disk.
    pub fn open(
        alloc: Global,
        disk: D,
        id: Id16,
    ) -> Result<(JournalFile<D>, List<Blob>), (D, JournalError)>
        ensures opened { IfOk result (λ r. (f : Items ℕ) → D.seen disk ≡ Some f → OpensTo id r.1 f) }
        ensures at_rest { IfOk result (λ r. (f : Items ℕ) → D.seen disk ≡ Some f → AtRest D.seen D.may_leave id r.1 r.0) }
        ensures refused { IfErr result (λ e. (f : Items ℕ) → D.seen disk ≡ Some f → IsRefusal id f e.1) }
        ensures rested { IfOk result (λ r. Rested D.seen D.may_leave D.moment D.left_since disk r.0.disk) }
        ensures rested_err { IfErr result (λ e. Rested D.seen D.may_leave D.moment D.left_since disk e.0) }
        ensures kept { IfOk result (λ r. D.faults disk ≤ D.faults r.0.disk) }
        ensures kept_err { IfErr result (λ e. D.faults disk ≤ D.faults e.0) }
        ensures cause { IfErr result (λ e. e.1 ≡ JournalError.DiskFault → Rose (D.faults disk) (D.faults e.0)) }
    {
        let mut disk = disk;
        match read_settled(alloc, &mut disk, id) {
            Err(error) => Err((disk, error)),
            Ok(walk) => {
                let Walk {
                    spellings,
                    gate,
                    ..
                } = walk;
                Ok((JournalFile { disk, gate }, List::from_vec(spellings)))
            }
        }
    }

    /// Appends an entry. After `Ok` it is on the disk; a crash before that leaves the file with it or without it. It allocates before it writes.
    pub fn append(&mut self, alloc: Global, spelling: &[u8]) -> Result<(), JournalError>
        ensures ok { OnOk result (Appends D.seen D.may_leave self.old (spelling.now ∷ []) self.new) }
        ensures left { Stays D.seen D.may_leave self.old (spelling.now ∷ []) self.new }
        ensures any_moment { AtEachMoment D.seen D.may_leave D.moment D.left_since self.old (spelling.now ∷ []) self.new }
        ensures refused { IfErr result (λ e. IsLeft e self.old (spelling.now ∷ []) self.new) }
        ensures fits { OnOk result (Fits self.old (spelling.now ∷ [])) }
        ensures kept { D.faults self.old.disk ≤ D.faults self.new.disk }
        ensures cause { IsErrOf result JournalError.DiskFault → Rose (D.faults self.old.disk) (D.faults self.new.disk) }
    {
        self.append_group(alloc, spelling, &[])
    }

    /// Appends these entries with two syncs for all of them. After `Ok` they are on the disk; a crash before that leaves the file with
    /// all of them or with none. It allocates before it writes.
    pub fn append_all(&mut self, alloc: Global, spellings: &[Blob]) -> Result<(), JournalError>
        ensures ok { OnOk result (Appends D.seen D.may_leave self.old spellings.now self.new) }
        ensures left { Stays D.seen D.may_leave self.old spellings.now self.new }
        ensures any_moment { AtEachMoment D.seen D.may_leave D.moment D.left_since self.old spellings.now self.new }
        ensures refused { IfErr result (λ e. IsLeft e self.old spellings.now self.new) }
        ensures fits { OnOk result (0 < length spellings.now → Fits self.old spellings.now) }
        ensures kept { D.faults self.old.disk ≤ D.faults self.new.disk }
        ensures cause { IsErrOf result JournalError.DiskFault → Rose (D.faults self.old.disk) (D.faults self.new.disk) }
    {
        match spellings {
            [first, rest @ ..] => self.append_group(alloc, first.as_bytes(), rest),
            [] => Ok(()),
        }
    }

    /// Appends an entry and these.
    fn append_group(
        &mut self,
        alloc: Global,
        first: &[u8],
        rest: &[Blob],
    ) -> Result<(), JournalError>
        ensures ok { OnOk result (Appends D.seen D.may_leave self.old (first.now ∷ rest.now) self.new) }
        ensures left { Stays D.seen D.may_leave self.old (first.now ∷ rest.now) self.new }
        ensures any_moment { AtEachMoment D.seen D.may_leave D.moment D.left_since self.old (first.now ∷ rest.now) self.new }
        ensures refused { IfErr result (λ e. IsLeft e self.old (first.now ∷ rest.now) self.new) }
        ensures fits { OnOk result (Fits self.old (first.now ∷ rest.now)) }
        ensures kept { D.faults self.old.disk ≤ D.faults self.new.disk }
        ensures cause { IsErrOf result JournalError.DiskFault → Rose (D.faults self.old.disk) (D.faults self.new.disk) }
    {
        let piece = behind_gate(alloc, first, rest)?;
        let size = piece.len() as u64;
        if self.gate > MAX_GATE || size > MAX_GATE - self.gate {
            return Err(JournalError::TooLong);
        }
        self.append_piece(piece.as_slice())
    }

    /// Writes a piece after the gate and syncs it, and then opens the gate.
    fn append_piece(&mut self, piece: &[u8]) -> Result<(), JournalError>
        requires { self.old.gate + length piece.now ≤ 2 ^ 62 }
        ensures ok { OnOk result ((more : Items (Items ℕ)) → 1 ∷ piece.now ≡ blocks more ++ 0 ∷ [] → Appends D.seen D.may_leave self.old more self.new) }
        ensures left { (more : Items (Items ℕ)) → 1 ∷ piece.now ≡ blocks more ++ 0 ∷ [] → Stays D.seen D.may_leave self.old more self.new }
        ensures any_moment { (more : Items (Items ℕ)) → 1 ∷ piece.now ≡ blocks more ++ 0 ∷ []
            → AtEachMoment D.seen D.may_leave D.moment D.left_since self.old more self.new }
        ensures fault { IfErr result (λ e. e ≡ JournalError.DiskFault) }
        ensures kept { D.faults self.old.disk ≤ D.faults self.new.disk }
        ensures cause { IsErrOf result JournalError.DiskFault → Rose (D.faults self.old.disk) (D.faults self.new.disk) }
    {
        match open_gate(&mut self.disk, self.gate, piece) {
            Wrote::Failed => Err(JournalError::DiskFault),
            Wrote::Done => {
                self.gate += piece.len() as u64;
                Ok(())
            }
        }
    }

    /// Returns the disk.
    pub fn close(self) -> D
        ensures { result ≡ self.disk }
    {
        let JournalFile { disk, .. } = self;
        disk
    }
}
