//! Reading single parts of a journal's file.
ghost use Rattle.std.specs.Prelude.{◌≡◌, ◌<◌, ◌≤◌, ◌+◌, ◌-◌, ◌^◌, ◌++◌, ◌∷◌, [], ℕ, List as Items, length, drop, Some, None, IfOk, IfErr, IfSome, IsErrOf};
ghost use Rattle.std.specs.Int.{w64, to_be_bytes, from_be_bytes};
ghost use Rattle.etp_outside.specs.Faults.{Rose};
ghost use Rattle.journal_file.specs.Layout.{Bad, head as head_of, record_at};
ghost use Rattle.journal_file.specs.Opening.{IsHeadRefusal, IsOutside, IsRecord, Rested, StandsAt};

use crate::error::JournalError;
use crate::format::MAGIC;
use etp_outside::ReadOutcome;
use etp_values::{Blob, Id16, NoMemory};
use journal_disk::Disk;
use std::alloc::Global;

/// Whether a buffer was filled.
#[derive(Clone, Copy, Debug, PartialEq, Eq)]
pub(crate) enum Filled {
    /// It was filled.
    Whole,
    /// The file ends before that.
    Short,
    /// The disk failed.
    Failed,
}

/// Fills a buffer with the bytes from a place on.
pub(crate) fn fill_at<D: Disk>(disk: &mut D, at: u64, buf: &mut [u8]) -> Filled
    requires { at + length buf.old < 2 ^ 64 }
    ensures whole { result ≡ Filled.Whole → (f : Items ℕ) → D.seen disk.old ≡ Some f → StandsAt f at buf.new }
    ensures short { result ≡ Filled.Short → (f : Items ℕ) → D.seen disk.old ≡ Some f → length f < at + length buf.new }
    ensures size { length buf.new ≡ length buf.old }
    ensures rested { Rested D.seen D.may_leave D.moment D.left_since disk.old disk.new }
    ensures kept { D.faults disk.old ≤ D.faults disk.new }
    ensures cause { result ≡ Filled.Failed → Rose (D.faults disk.old) (D.faults disk.new) }
{
    let mut done = 0;
    while done < buf.len() {
        match disk.read_at(at + done as u64, &mut buf[done..]) {
            ReadOutcome::Got(count) => done += count,
            ReadOutcome::End => return Filled::Short,
            ReadOutcome::Failed => return Filled::Failed,
        }
    }
    Filled::Whole
}

/// The number in 8 bytes, the highest first.
fn number_told(told: &[u8]) -> u64
    requires { length told.now ≡ 8 }
    ensures value { result ≡ from_be_bytes w64 told.now }
    ensures again { to_be_bytes w64 result ≡ told.now }
{
    u64::from_be_bytes([
        told[0], told[1], told[2], told[3], told[4], told[5], told[6], told[7],
    ])
}

/// The length in 8 bytes, if it is below a limit.
fn length_below(told: &[u8], limit: u64) -> Option<u64>
    requires { length told.now ≡ 8 }
    ensures told { IfSome result (λ n. to_be_bytes w64 n ≡ told.now) }
    ensures below { IfSome result (λ n. n < limit) }
    ensures none { result ≡ None → limit ≤ from_be_bytes w64 told.now }
{
    let size = number_told(told);
    if size >= limit {
        return None;
    }
    Some(size)
}

/// The length at a place, if a spelling of that length and one more byte fit into a file of this size.
#[tactic(auto, using(crate::proofs::OpeningLemmas::rested_trans))]
fn read_length<D: Disk>(disk: &mut D, at: u64, end: u64) -> Result<Option<u64>, JournalError>
    requires { at ≤ end }
    ensures told { IfOk result (λ o. IfSome o (λ n. (f : Items ℕ) → D.seen disk.old ≡ Some f → StandsAt f at (to_be_bytes w64 n))) }
    ensures inside { IfOk result (λ o. IfSome o (λ n. at + 8 + n < end)) }
    ensures none { IfOk result (λ o. o ≡ None → (f : Items ℕ) → D.seen disk.old ≡ Some f → length f ≡ end → record_at (drop at f) ≡ Bad) }
    ensures fault { IfErr result (λ e. e ≡ JournalError.DiskFault) }
    ensures rested { Rested D.seen D.may_leave D.moment D.left_since disk.old disk.new }
    ensures kept { D.faults disk.old ≤ D.faults disk.new }
    ensures cause { IsErrOf result JournalError.DiskFault → Rose (D.faults disk.old) (D.faults disk.new) }
{
    if end - at <= 8 {
        return Ok(None);
    }
    let mut told = [0; 8];
    match fill_at(disk, at, &mut told) {
        Filled::Whole => Ok(length_below(&told, end - at - 8)),
        Filled::Short => Ok(None),
        Filled::Failed => Err(JournalError::DiskFault),
    }
}

/// A record that was read.
#[derive(Drop)]
pub(crate) struct Record {
    pub(crate) spelling: Blob,
    /// The byte of the gate after it.
    pub(crate) next: u8,
}

/// All bytes but the last one, and the last one.
fn parted(bytes: Vec<u8>) -> Result<Record, NoMemory>
    requires { 0 < length bytes.items }
    ensures { IfOk result (λ r. bytes.items ≡ r.spelling ++ r.next ∷ []) }
{
    let mut bytes = bytes;
    match bytes.pop() {
        Some(next) => Ok(Record {
            spelling: Blob::from_vec(bytes)?,
            next,
        }),
        None => Err(NoMemory),
    }
}

/// This many zeros.
fn zeros(alloc: Global, size: usize) -> Result<Vec<u8>, NoMemory>
    ensures { IfOk result (λ v. length v.items ≡ size) }
{
    let mut bytes = Vec::new(alloc);
    bytes.resize(size, 0)?;
    Ok(bytes)
}

/// The spelling of this length at a place, and the byte after it. There is none if the file ends before that.
#[tactic(auto, using(crate::proofs::OpeningLemmas::rested_trans))]
fn read_spelling<D: Disk>(
    alloc: Global,
    disk: &mut D,
    at: u64,
    size: u64,
) -> Result<Option<Record>, JournalError>
    requires { at + size + 1 < 2 ^ 64 }
    ensures found { IfOk result (λ o. IfSome o (λ r. (f : Items ℕ) → D.seen disk.old ≡ Some f → StandsAt f at (r.spelling ++ r.next ∷ []))) }
    ensures size { IfOk result (λ o. IfSome o (λ r. length r.spelling ≡ size)) }
    ensures none { IfOk result (λ o. o ≡ None → (f : Items ℕ) → D.seen disk.old ≡ Some f → length f < at + size + 1) }
    ensures outside { IfErr result (λ e. IsOutside e) }
    ensures rested { Rested D.seen D.may_leave D.moment D.left_since disk.old disk.new }
    ensures kept { D.faults disk.old ≤ D.faults disk.new }
    ensures cause { IsErrOf result JournalError.DiskFault → Rose (D.faults disk.old) (D.faults disk.new) }
{
    let mut bytes = zeros(alloc, size as usize + 1)?;
    match fill_at(disk, at, bytes.as_mut_slice()) {
        Filled::Whole => Ok(Some(parted(bytes)?)),
        Filled::Short => Ok(None),
        Filled::Failed => Err(JournalError::DiskFault),
    }
}

/// The record after an open gate, from a place on in a file of this size. There is none if it does not fit.
#[tactic(auto, using(crate::proofs::OpeningLemmas::rested_trans))]
pub(crate) fn read_record<D: Disk>(
    alloc: Global,
    disk: &mut D,
    at: u64,
    end: u64,
) -> Result<Option<Record>, JournalError>
    requires { at ≤ end }
    ensures found { IfOk result (λ o. IfSome o (λ r. (f : Items ℕ) → D.seen disk.old ≡ Some f → IsRecord f at r.spelling r.next)) }
    ensures inside { IfOk result (λ o. IfSome o (λ r. at + 8 + length r.spelling < end)) }
    ensures none { IfOk result (λ o. o ≡ None → (f : Items ℕ) → D.seen disk.old ≡ Some f → length f ≡ end → record_at (drop at f) ≡ Bad) }
    ensures outside { IfErr result (λ e. IsOutside e) }
    ensures rested { Rested D.seen D.may_leave D.moment D.left_since disk.old disk.new }
    ensures kept { D.faults disk.old ≤ D.faults disk.new }
    ensures cause { IsErrOf result JournalError.DiskFault → Rose (D.faults disk.old) (D.faults disk.new) }
{
    match read_length(disk, at, end)? {
        Some(size) => read_spelling(alloc, disk, at + 8, size),
        None => Ok(None),
    }
}

/// The byte of the first gate, if the bytes before it are those of an instance's journal.
pub(crate) fn gate_after(head: &[u8], id: Id16) -> Result<u8, JournalError>
    requires { length head.now ≡ 25 }
    ensures ok { IfOk result (λ g. (head.now ≡ head_of id ++ g ∷ []) × (length id ≡ 16)) }
    ensures refused { IfErr result (λ e. IsHeadRefusal id head.now e) }
{
    if &head[..8] != MAGIC.as_slice() {
        return Err(JournalError::Magic);
    }
    if &head[8..24] != id.as_bytes().as_slice() {
        return Err(JournalError::Instance);
    }
    Ok(head[24])
}
