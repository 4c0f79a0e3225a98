//! Reading a journal's file.
ghost use Rattle.std.specs.Prelude.{◌≡◌, ◌≢◌, ◌<◌, ◌≤◌, ◌+◌, ◌-◌, ◌^◌, ◌++◌, ◌∷◌, [], ℕ, List as Items, length, take, drop, Some, OnOk, IfOk, IfErr, IfSome, IsErrOf};
ghost use Rattle.etp_outside.specs.Faults.{Rose};
ghost use Rattle.journal_disk.specs.Disks.{Only};
ghost use Rattle.journal_file.specs.Gates.{IsKept};
ghost use Rattle.journal_file.specs.Layout.{IsFile, blocks, head};
ghost use Rattle.journal_file.specs.Opening.{IsBegun, IsRead, IsRefusal, IsStep, Rested};

use crate::error::JournalError;
use crate::format::FIRST_GATE;
use crate::reading::{Filled, Record, fill_at, gate_after, read_record};
use etp_values::{Blob, Id16, List, NoMemory};
use journal_disk::{Disk, Length, Synced};
use std::alloc::Global;

/// The least size of a journal's file: the bytes before the first gate, and that gate.
const SHORTEST: u64 = 25;

/// What was read of a file so far, and the gate after it.
#[derive(Drop)]
pub(crate) struct Walk {
    pub(crate) spellings: Vec<Blob>,
    /// The gate's place.
    pub(crate) gate: u64,
    /// The gate's byte.
    pub(crate) byte: u8,
}

/// Adds a record, and the gate after it.
fn take_in(walk: &mut Walk, found: Record) -> Result<(), NoMemory>
    requires { walk.old.gate + 9 + length found.spelling < 2 ^ 64 }
    ensures spellings { OnOk result (walk.new.spellings.items ≡ walk.old.spellings.items ++ found.spelling ∷ []) }
    ensures gate { OnOk result (walk.new.gate ≡ walk.old.gate + 9 + length found.spelling) }
    ensures byte { OnOk result (walk.new.byte ≡ found.next) }
{
    let Record { spelling, next } = found;
    let size = spelling.len() as u64;
    walk.spellings.push(spelling)?;
    walk.gate += 9 + size;
    walk.byte = next;
    Ok(())
}

/// Reads the record after an open gate, in a file of this size.
#[tactic(auto, using(crate::proofs::OpeningLemmas::rested_trans))]
fn step<D: Disk>(alloc: Global, disk: &mut D, walk: &mut Walk, end: u64) -> Result<(), JournalError>
    requires inside { walk.old.gate < end }
    requires open { walk.old.byte ≡ 1 }
    ensures read { OnOk result ((f : Items ℕ) → D.seen disk.old ≡ Some f → IsRead f walk.old.spellings.items walk.old.gate walk.old.byte
        → IsRead f walk.new.spellings.items walk.new.gate walk.new.byte) }
    ensures inside { OnOk result (walk.new.gate < end) }
    ensures further { OnOk result (walk.old.gate < walk.new.gate) }
    ensures refused { IfErr result (λ e. (f : Items ℕ) → D.seen disk.old ≡ Some f → length f ≡ end
        → IsRead f walk.old.spellings.items walk.old.gate walk.old.byte → IsStep f e) }
    ensures rested { Rested D.seen D.may_leave D.moment D.left_since disk.old disk.new }
    ensures kept { D.faults disk.old ≤ D.faults disk.new }
    ensures cause { IsErrOf result JournalError.DiskFault → Rose (D.faults disk.old) (D.faults disk.new) }
{
    let gate = walk.gate;
    match read_record(alloc, disk, gate + 1, end)? {
        Some(found) => Ok(take_in(walk, found)?),
        None => Err(JournalError::Entry(gate)),
    }
}

/// Reads from the first gate on to the first one that is not open, in a file of this size.
fn read_blocks<D: Disk>(
    alloc: Global,
    disk: &mut D,
    byte: u8,
    end: u64,
) -> Result<Walk, JournalError>
    requires { 24 < end }
    ensures read { IfOk result (λ w. (f : Items ℕ) → D.seen disk.old ≡ Some f → IsRead f [] 24 byte → IsRead f w.spellings.items w.gate w.byte) }
    ensures inside { IfOk result (λ w. w.gate < end) }
    ensures shut { IfOk result (λ w. w.byte ≢ 1) }
    ensures refused { IfErr result (λ e. (f : Items ℕ) → D.seen disk.old ≡ Some f → length f ≡ end → IsRead f [] 24 byte → IsStep f e) }
    ensures rested { Rested D.seen D.may_leave D.moment D.left_since disk.old disk.new }
    ensures kept { D.faults disk.old ≤ D.faults disk.new }
    ensures cause { IsErrOf result JournalError.DiskFault → Rose (D.faults disk.old) (D.faults disk.new) }
{
    let mut walk = Walk {
        spellings: Vec::new(alloc),
        gate: FIRST_GATE,
        byte,
    };
    while walk.byte == 1 {
        step(alloc, disk, &mut walk, end)?;
    }
    Ok(walk)
}

/// The byte of the first gate of an instance's journal, in a file of this size.
#[tactic(auto, using(crate::proofs::OpeningLemmas::rested_trans))]
fn read_head<D: Disk>(disk: &mut D, id: Id16, end: u64) -> Result<u8, JournalError>
    ensures read { IfOk result (λ g. (f : Items ℕ) → D.seen disk.old ≡ Some f → IsBegun id f g) }
    ensures long { IfOk result (λ g. 24 < end) }
    ensures refused { IfErr result (λ e. (f : Items ℕ) → D.seen disk.old ≡ Some f → length f ≡ end → IsRefusal id f e) }
    ensures rested { Rested D.seen D.may_leave D.moment D.left_since disk.old disk.new }
    ensures kept { D.faults disk.old ≤ D.faults disk.new }
    ensures cause { IsErrOf result JournalError.DiskFault → Rose (D.faults disk.old) (D.faults disk.new) }
{
    if end < SHORTEST {
        return Err(JournalError::Magic);
    }
    let mut head = [0; 25];
    match fill_at(disk, 0, &mut head) {
        Filled::Whole => gate_after(&head, id),
        Filled::Short => Err(JournalError::Magic),
        Filled::Failed => Err(JournalError::DiskFault),
    }
}

/// Reads the journal of an instance from a file of this size.
#[tactic(auto, using(crate::proofs::OpeningLemmas::rested_trans))]
fn read_file<D: Disk>(alloc: Global, disk: &mut D, id: Id16, end: u64) -> Result<Walk, JournalError>
    ensures read { IfOk result (λ w. (f : Items ℕ) → D.seen disk.old ≡ Some f → IsFile id w.spellings.items f) }
    ensures gate { IfOk result (λ w. (f : Items ℕ) → D.seen disk.old ≡ Some f → w.gate ≡ length (head id ++ blocks w.spellings.items)) }
    ensures refused { IfErr result (λ e. (f : Items ℕ) → D.seen disk.old ≡ Some f → length f ≡ end → IsRefusal id f e) }
    ensures rested { Rested D.seen D.may_leave D.moment D.left_since disk.old disk.new }
    ensures kept { D.faults disk.old ≤ D.faults disk.new }
    ensures cause { IsErrOf result JournalError.DiskFault → Rose (D.faults disk.old) (D.faults disk.new) }
{
    let byte = read_head(disk, id, end)?;
    read_blocks(alloc, disk, byte, end)
}

/// Syncs the file, and returns its size.
#[tactic(auto, using(crate::proofs::OpeningLemmas::rested_trans, crate::proofs::OpeningLemmas::rested_call))]
fn settled_length<D: Disk>(disk: &mut D) -> Result<u64, JournalError>
    ensures length { IfOk result (λ n. (f : Items ℕ) → D.seen disk.old ≡ Some f → n ≡ length f) }
    ensures durable { OnOk result ((f : Items ℕ) → D.seen disk.old ≡ Some f → Only f (D.may_leave disk.new)) }
    ensures fault { IfErr result (λ e. e ≡ JournalError.DiskFault) }
    ensures rested { Rested D.seen D.may_leave D.moment D.left_since disk.old disk.new }
    ensures kept { D.faults disk.old ≤ D.faults disk.new }
    ensures cause { IsErrOf result JournalError.DiskFault → Rose (D.faults disk.old) (D.faults disk.new) }
{
    match disk.sync() {
        Synced::Failed => return Err(JournalError::DiskFault),
        Synced::Done => {}
    }
    match disk.len() {
        Length::Known(length) => Ok(length),
        Length::Failed => Err(JournalError::DiskFault),
    }
}

/// Syncs a journal's file, and reads it.
#[tactic(auto, using(crate::proofs::OpeningLemmas::rested_trans))]
pub(crate) fn read_settled<D: Disk>(
    alloc: Global,
    disk: &mut D,
    id: Id16,
) -> Result<Walk, JournalError>
    ensures read { IfOk result (λ w. (f : Items ℕ) → D.seen disk.old ≡ Some f → IsFile id w.spellings.items f) }
    ensures gate { IfOk result (λ w. (f : Items ℕ) → D.seen disk.old ≡ Some f → w.gate ≡ length (head id ++ blocks w.spellings.items)) }
    ensures settled { OnOk result ((f : Items ℕ) → D.seen disk.old ≡ Some f → IsKept D.seen D.may_leave disk.new f) }
    ensures refused { IfErr result (λ e. (f : Items ℕ) → D.seen disk.old ≡ Some f → IsRefusal id f e) }
    ensures rested { Rested D.seen D.may_leave D.moment D.left_since disk.old disk.new }
    ensures kept { D.faults disk.old ≤ D.faults disk.new }
    ensures cause { IsErrOf result JournalError.DiskFault → Rose (D.faults disk.old) (D.faults disk.new) }
{
    let end = settled_length(disk)?;
    read_file(alloc, disk, id, end)
}
