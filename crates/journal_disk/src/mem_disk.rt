//! A disk in memory.
ghost use Rattle.std.specs.Prelude.{◌≡◌, ◌≢◌, ◌<◌, ◌≤◌, ◌+◌, ◌∷◌, [], Some, IfOk, OnOk, OnErr, length, take, drop, reverse};
ghost use Rattle.etp_outside.specs.Faults.{next_count};
ghost use Rattle.etp_outside.specs.Source.{IsCount};
ghost use Rattle.journal_disk.specs.Disks.{ReadsAt};
ghost use Rattle.journal_disk.specs.MemDisks.{Image, LeftSince, first_platter, put_in};
ghost use Rattle.journal_disk.specs.MemDiskLaws.{counts_first, only_last};

use crate::disk::{Disk, Length, Synced, Wrote};
use etp_outside::ReadOutcome;
use etp_values::{Blob, List, NoMemory};
use std::alloc::Global;
use std::marker::Model;

/// A call of a disk in memory, as its record has it.
#[derive(Debug, Drop)]
pub enum DiskCall {
    /// A write of which the first `kept` bytes of the piece were written: all of them, unless it failed.
    Put { at: u64, piece: Blob, kept: usize },
    /// A sync that was done.
    Synced,
    /// Any other call.
    Other,
}

/// The calls of a disk, in order. A contract sees the last one first.
#[derive(Debug, Drop)]
struct Calls {
    made: Vec<DiskCall>,
}

impl Model for Calls {
    ghost use Rattle.std.specs.Prelude.{List, reverse};
    ghost use Rattle.journal_disk.specs.declared.mem_disk.DiskCall.{DiskCall as ACall};

    ghost Value = { List ACall };

    ghost view = { λ c. reverse c.made.items };
}

impl Calls {
    /// No calls.
    fn new(alloc: Global) -> Calls
        ensures { result ≡ [] }
    {
        Calls {
            made: Vec::new(alloc),
        }
    }

    /// Notes one more call.
    fn note(&mut self, call: DiskCall) -> Result<(), NoMemory>
        ensures ok { OnOk result (self.new ≡ call ∷ self.old) }
        ensures err { OnErr result (self.new ≡ self.old) }
    {
        self.made.push(call)?;
        Ok(())
    }

    /// The number of the next call, the first one being number 1.
    fn next_number(&self) -> u64 {
        (self.made.len() as u64).saturating_add(1)
    }
}

/// A disk that keeps its first bytes and a record of all calls, which together determine what a crash may leave. It fails at
/// the calls whose numbers a list names, counted over all kinds of calls, and writes the first part of a piece whose write fails.
/// Running out of memory is a fault too; such a call does nothing and is not counted.
#[derive(Debug, Drop)]
pub struct MemDisk {
    alloc: Global,
    first: Blob,
    bytes: Blob,
    calls: Calls,
    fails: List<u64>,
    kept: usize,
    faults: u64,
}

impl Model for MemDisk {
    ghost use Rattle.std.specs.Prelude.{◌≡◌};
    ghost use Rattle.journal_disk.specs.Platter.{Platter};
    ghost use Rattle.journal_disk.specs.MemDisks.{content};

    ghost Value = { Platter };

    ghost view = { λ d. record { first = d.first; held = d.bytes; calls = d.calls; fails = d.fails; kept = d.kept; faults = d.faults } };

    ghost invariant = { λ d. d.bytes ≡ content d.first d.calls };
}

impl MemDisk {
    /// A disk with these bytes. The calls of the numbers in `fails` fail, the first call being number 1; a write that fails leaves the first
    /// `kept` bytes of its piece.
    pub fn new(
        alloc: Global,
        contents: Blob,
        fails: List<u64>,
        kept: usize,
    ) -> Result<MemDisk, NoMemory>
        ensures { IfOk result (λ d. d ≡ first_platter contents fails kept) }
    {
        Ok(MemDisk {
            alloc,
            bytes: contents.share()?,
            first: contents,
            calls: Calls::new(alloc),
            fails,
            kept,
            faults: 0,
        })
    }

    /// The bytes that it began with.
    pub fn first_bytes(&self) -> &[u8]
        ensures { result.now ≡ self.now.first }
    {
        self.first.as_bytes()
    }

    /// The bytes that a read gives.
    pub fn as_bytes(&self) -> &[u8]
        ensures { result.now ≡ self.now.held }
    {
        self.bytes.as_bytes()
    }

    /// The calls that were made, in order.
    pub fn calls(&self) -> &[DiskCall]
        ensures { reverse result.now ≡ self.now.calls }
    {
        self.calls.made.as_slice()
    }

    /// How often it failed.
    pub fn faults(&self) -> u64
        ensures { result ≡ self.now.faults }
    {
        self.faults
    }
}

/// Whether the next call is one of those that fail.
fn fails_next(calls: &Calls, fails: &List<u64>) -> bool {
    let number = calls.next_number();
    fails.as_slice().contains(&number)
}

/// One more fault.
fn one_more(faults: u64) -> u64
    ensures { result ≡ next_count faults }
{
    faults.saturating_add(1)
}

/// The bytes from a place on, without the first `count` of them.
fn behind(bytes: &[u8], at: usize, count: usize) -> &[u8]
    ensures { result.now ≡ drop (at + count) bytes.now }
{
    if at >= bytes.len() {
        return &[];
    }
    let rest = &bytes[at..];
    if count >= rest.len() {
        return &[];
    }
    &rest[count..]
}

/// Bytes with a piece written at a place, after zeros if the place is past their end.
fn written(alloc: Global, bytes: &[u8], at: usize, piece: &[u8]) -> Result<Blob, NoMemory>
    ensures { IfOk result (λ b. b ≡ put_in bytes.now at piece.now) }
{
    let mut next = Vec::new(alloc);
    next.extend_from_slice(&bytes[..at.min(bytes.len())])?;
    next.resize(at, 0)?;
    next.extend_from_slice(piece)?;
    next.extend_from_slice(behind(bytes, at, piece.len()))?;
    Blob::from_vec(next)
}

/// Records a write of which the first `kept` bytes are written, and writes them. If memory runs out nothing is done.
fn put(
    alloc: Global,
    calls: &mut Calls,
    bytes: &mut Blob,
    at: u64,
    piece: &[u8],
    kept: usize,
) -> Result<(), NoMemory>
    requires { kept ≤ length piece.now }
    ensures calls { OnOk result (calls.new ≡ DiskCall.Put at piece.now kept ∷ calls.old) }
    ensures bytes { OnOk result (bytes.new ≡ put_in bytes.old at (take kept piece.now)) }
    ensures same_calls { OnErr result (calls.new ≡ calls.old) }
    ensures same_bytes { OnErr result (bytes.new ≡ bytes.old) }
{
    let next = written(alloc, bytes.as_bytes(), at as usize, &piece[..kept])?;
    let piece = Blob::copy(alloc, piece)?;
    calls.note(DiskCall::Put { at, piece, kept })?;
    *bytes = next;
    Ok(())
}

/// Reads from a place on to the front of a buffer.
fn read_behind(bytes: &[u8], at: usize, buf: &mut [u8]) -> ReadOutcome
    requires { 0 < length buf.old }
    ensures count { IsCount result (length buf.new) }
    ensures bytes { ReadsAt result at buf.new (Some bytes.now) }
    ensures done { result ≢ ReadOutcome.Failed }
{
    let rest = behind(bytes, at, 0);
    if rest.is_empty() {
        return ReadOutcome::End;
    }
    let count = buf.len().min(rest.len());
    buf[..count].copy_from_slice(&rest[..count]);
    ReadOutcome::Got(count)
}

impl Disk for MemDisk {
    ghost seen = { λ d. Some d.held };

    ghost may_leave = { λ d. Image d.first d.calls };

    ghost moment = { λ d. length d.calls };

    ghost left_since = { λ d. LeftSince d.first d.calls };

    ghost faults = { λ d. d.faults };

    ghost counts_now = { counts_first };

    ghost only_now = { only_last };

    #[tactic(auto, using(crate::proofs::MemDiskLemmas::one_more, crate::proofs::MemDiskLemmas::still, crate::proofs::MemDiskLemmas::same_image, crate::proofs::MemDiskLemmas::other_image, crate::proofs::MemDiskLemmas::same_content, crate::proofs::MemDiskLemmas::other_content))]
    fn len(&mut self) -> Length {
        let fails = fails_next(&self.calls, &self.fails);
        let noted = self.calls.note(DiskCall::Other);
        if fails || noted.is_err() {
            self.faults = one_more(self.faults);
            return Length::Failed;
        }
        Length::Known(self.bytes.len() as u64)
    }

    #[tactic(auto, using(crate::proofs::MemDiskLemmas::one_more, crate::proofs::MemDiskLemmas::still, crate::proofs::MemDiskLemmas::same_image, crate::proofs::MemDiskLemmas::other_image, crate::proofs::MemDiskLemmas::same_content, crate::proofs::MemDiskLemmas::other_content))]
    fn read_at(&mut self, at: u64, buf: &mut [u8]) -> ReadOutcome {
        let fails = fails_next(&self.calls, &self.fails);
        let noted = self.calls.note(DiskCall::Other);
        if fails || noted.is_err() {
            self.faults = one_more(self.faults);
            return ReadOutcome::Failed;
        }
        read_behind(self.bytes.as_bytes(), at as usize, buf)
    }

    #[tactic(auto, using(crate::proofs::MemDiskLemmas::one_more, crate::proofs::MemDiskLemmas::still, crate::proofs::MemDiskLemmas::put_content, crate::proofs::MemDiskLemmas::put_image, crate::proofs::MemDiskLemmas::same_follows, crate::proofs::MemDiskLemmas::put_done, crate::proofs::MemDiskLemmas::put_failed, crate::proofs::MemDiskLemmas::same_torn, crate::proofs::MemDiskLemmas::same_content))]
    fn write_at(&mut self, at: u64, piece: &[u8]) -> Wrote {
        if fails_next(&self.calls, &self.fails) {
            let kept = self.kept.min(piece.len());
            let _noted = put(
                self.alloc,
                &mut self.calls,
                &mut self.bytes,
                at,
                piece,
                kept,
            );
            self.faults = one_more(self.faults);
            return Wrote::Failed;
        }
        let all = piece.len();
        if put(self.alloc, &mut self.calls, &mut self.bytes, at, piece, all).is_err() {
            self.faults = one_more(self.faults);
            return Wrote::Failed;
        }
        Wrote::Done
    }

    #[tactic(auto, using(crate::proofs::MemDiskLemmas::one_more, crate::proofs::MemDiskLemmas::still, crate::proofs::MemDiskLemmas::same_image, crate::proofs::MemDiskLemmas::other_image, crate::proofs::MemDiskLemmas::synced_image, crate::proofs::MemDiskLemmas::synced_only, crate::proofs::MemDiskLemmas::same_content, crate::proofs::MemDiskLemmas::other_content, crate::proofs::MemDiskLemmas::synced_content))]
    fn sync(&mut self) -> Synced {
        if fails_next(&self.calls, &self.fails) {
            let _noted = self.calls.note(DiskCall::Other);
            self.faults = one_more(self.faults);
            return Synced::Failed;
        }
        if self.calls.note(DiskCall::Synced).is_err() {
            self.faults = one_more(self.faults);
            return Synced::Failed;
        }
        Synced::Done
    }
}
