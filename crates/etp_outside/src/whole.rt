//! Whole buffers, pieces and files, by calls that move a part at a time.
ghost use Rattle.std.specs.Prelude.{◌≡◌, ◌≤◌, IfOk, IfErr};
ghost use Rattle.etp_outside.specs.Faults.{Rose};
ghost use Rattle.etp_outside.specs.Whole.{Fills, WritesAll, ReadsAll, ReadsPart};

use crate::sink::{Sink, WriteOutcome};
use crate::source::{ReadOutcome, Source};
use std::alloc::Global;
use thiserror::Error;

/// What filling a buffer returned.
#[derive(Clone, Copy, Debug, PartialEq, Eq)]
pub enum Filled {
    /// The buffer is full.
    Full,
    /// The input ended after this number of bytes, fewer than the buffer has.
    Short(usize),
    /// The source failed before the buffer was full.
    Failed,
}

/// Reads until the buffer is full or the input ends.
pub fn fill<S: Source>(source: &mut S, buf: &mut [u8]) -> Filled
    ensures bytes { Fills result buf.new (S.left source.old) (S.left source.new) }
    ensures kept { S.faults source.old ≤ S.faults source.new }
    ensures cause { result ≡ Filled.Failed → Rose (S.faults source.old) (S.faults source.new) }
{
    let mut at = 0;
    while at < buf.len() {
        match source.read(&mut buf[at..]) {
            ReadOutcome::Got(count) => at += count,
            ReadOutcome::End => return Filled::Short(at),
            ReadOutcome::Failed => return Filled::Failed,
        }
    }
    Filled::Full
}

/// What writing a whole piece returned.
#[derive(Clone, Copy, Debug, PartialEq, Eq)]
pub enum Written {
    /// All of it was taken.
    Done,
    /// The sink failed. It took some of the piece's first bytes, but not all.
    Failed,
}

/// Writes all of a piece, in as many calls as the sink needs.
pub fn write_all<W: Sink>(sink: &mut W, piece: &[u8]) -> Written
    ensures bytes { WritesAll result piece.now (W.held sink.old) (W.held sink.new) }
    ensures kept { W.faults sink.old ≤ W.faults sink.new }
    ensures cause { result ≡ Written.Failed → Rose (W.faults sink.old) (W.faults sink.new) }
{
    let mut at = 0;
    while at < piece.len() {
        match sink.write(&piece[at..]) {
            WriteOutcome::Took(count) => at += count,
            WriteOutcome::Failed => return Written::Failed,
        }
    }
    Written::Done
}

/// Why an input was not read whole.
#[derive(Clone, Copy, Debug, PartialEq, Eq, Error)]
pub enum Unread {
    /// It has more bytes than the limit.
    #[error("the input has more bytes than it may have")]
    TooLong,
    /// The source failed.
    #[error("the input could not be read")]
    Failed,
    /// Out of memory.
    #[error("out of memory")]
    NoMemory,
}

/// Reads all that is left, if that is at most `limit` bytes.
pub fn read_all<S: Source>(alloc: Global, source: &mut S, limit: usize) -> Result<Vec<u8>, Unread>
    ensures ok { IfOk result (λ v. ReadsAll v.items limit (S.left source.old) (S.left source.new)) }
    ensures err { IfErr result (λ e. ReadsPart e limit (S.left source.old) (S.left source.new)) }
    ensures kept { S.faults source.old ≤ S.faults source.new }
    ensures cause { result ≡ Err Unread.Failed → Rose (S.faults source.old) (S.faults source.new) }
{
    let mut all = Vec::new(alloc);
    let mut buf = [0u8; 4096];
    loop {
        match source.read(&mut buf) {
            ReadOutcome::Got(count) => {
                if all.extend_from_slice(&buf[..count]).is_err() {
                    return Err(Unread::NoMemory);
                }
            }
            ReadOutcome::End => return Ok(all),
            ReadOutcome::Failed => return Err(Unread::Failed),
        }
        if all.len() > limit {
            return Err(Unread::TooLong);
        }
    }
}
