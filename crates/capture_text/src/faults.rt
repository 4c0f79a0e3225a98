//! Why a message is refused.
ghost use Rattle.std.specs.Prelude.{◌++◌};
ghost use Rattle.std.specs.Fmt.{decimal, signed_decimal};
ghost use Rattle.avro_bin.specs.Plain.{Writes};
ghost use Rattle.capture_text.specs.Faults.{refusal_text, fault_text};

use crate::pieces::{put, put_number, put_signed};
use avro_bin::Refusal;
use etp_frame::FrameError;
use etp_values::NoMemory;

/// Appends a word and an offset.
#[tactic(auto, using(crate::proofs::WritingLemmas::writes_after))]
fn put_at(into: &mut Vec<u8>, word: &[u8], offset: usize) -> Result<(), NoMemory>
    ensures { Writes (word.now ++ decimal offset) into.old.items into.new.items result }
{
    put(into, word)?;
    put_number(into, offset as u64)
}

/// Appends words and a number of the header.
#[tactic(auto, using(crate::proofs::WritingLemmas::writes_after))]
fn put_with(into: &mut Vec<u8>, words: &[u8], number: i32) -> Result<(), NoMemory>
    ensures { Writes (words.now ++ signed_decimal number) into.old.items into.new.items result }
{
    put(into, words)?;
    put_signed(into, number as i64)
}

/// Appends why an item is refused.
fn put_refusal(into: &mut Vec<u8>, refusal: Refusal) -> Result<(), NoMemory>
    ensures { Writes (refusal_text refusal) into.old.items into.new.items result }
{
    match refusal {
        Refusal::Short(offset) => put_at(into, b"short ", offset),
        Refusal::Number(offset) => put_at(into, b"number ", offset),
        Refusal::Range(offset) => put_at(into, b"range ", offset),
        Refusal::Bool(offset) => put_at(into, b"boolean ", offset),
        Refusal::Branch(offset) => put_at(into, b"branch ", offset),
        Refusal::Utf8(offset) => put_at(into, b"utf8 ", offset),
        Refusal::Length(offset) => put_at(into, b"length ", offset),
        Refusal::BlockSize(offset) => put_at(into, b"blocksize ", offset),
        Refusal::DoubleKey(offset) => put_at(into, b"doublekey ", offset),
        Refusal::Limit(offset) => put_at(into, b"limit ", offset),
        Refusal::NoMemory => Ok(()),
    }
}

/// Appends which part of a message is refused, and why.
#[tactic(auto, using(crate::proofs::WritingLemmas::writes_after))]
fn put_part(into: &mut Vec<u8>, part: &[u8], refusal: Refusal) -> Result<(), NoMemory>
    ensures { Writes (part.now ++ refusal_text refusal) into.old.items into.new.items result }
{
    put(into, part)?;
    put_refusal(into, refusal)
}

/// Appends why a message is refused. Running out of memory is not such a cause, and appends nothing.
pub fn put_fault(into: &mut Vec<u8>, error: &FrameError) -> Result<(), NoMemory>
    ensures { Writes (fault_text error.now) into.old.items into.new.items result }
{
    match error {
        FrameError::Header(refusal) => put_part(into, b"header ", *refusal),
        FrameError::Extension(_) => put(into, b"extension"),
        FrameError::Compressed(_) => put(into, b"compressed"),
        FrameError::UnknownProtocol(header) => put_with(into, b"protocol ", header.protocol),
        FrameError::UnknownKind(header) => put_with(into, b"message type ", header.kind),
        FrameError::Body(_, refusal) => put_part(into, b"body ", *refusal),
        FrameError::Rest(_, offset) => put_at(into, b"rest ", *offset),
        FrameError::NoMemory => Ok(()),
    }
}
