//! The counts of a checked capture.
ghost use Rattle.avro_bin.specs.Plain.{Writes};
ghost use Rattle.capture_text.specs.Lines.{counted, counts_line};

use crate::pieces::{put, put_number};
use etp_values::NoMemory;
use std::alloc::Global;

/// What was found in a capture.
#[derive(Clone, Copy, Debug, PartialEq, Eq)]
pub struct Counts {
    /// All frames.
    pub frames: u64,
    /// The frames that have a message, of either side.
    pub messages: u64,
    /// The messages that were refused.
    pub refused: u64,
}

/// Appends words and a number.
#[tactic(auto, using(crate::proofs::WritingLemmas::writes_after))]
fn put_count(into: &mut Vec<u8>, words: &[u8], count: u64) -> Result<(), NoMemory>
    ensures { Writes (counted words.now count) into.old.items into.new.items result }
{
    put(into, words)?;
    put_number(into, count)
}

/// Appends the line of the counts, `frames F messages M refused K`. If memory runs out, a prefix of the line may have been appended.
#[tactic(auto, using(crate::proofs::WritingLemmas::writes_after))]
pub fn write_counts(_alloc: Global, counts: &Counts, into: &mut Vec<u8>) -> Result<(), NoMemory>
    ensures { Writes (counts_line counts.now) into.old.items into.new.items result }
{
    put_count(into, b"frames ", counts.frames)?;
    put_count(into, b" messages ", counts.messages)?;
    put_count(into, b" refused ", counts.refused)?;
    put(into, b"\n")
}
