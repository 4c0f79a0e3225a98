//! The line of a message that is refused.
ghost use Rattle.std.specs.Prelude.{◌≢◌, ◌++◌, codes, Some, Err, OnOk};
ghost use Rattle.std.specs.Fmt.{decimal};
ghost use Rattle.avro_bin.specs.Plain.{Writes};
ghost use Rattle.capture_text.specs.Faults.{fault_text};
ghost use Rattle.capture_text.specs.Lines.{line_of, checked_line, checked_of};
ghost use Rattle.capture_text.specs.Parts.{WritesAs};

use crate::faults::put_fault;
use crate::feeding::check_pieces;
use crate::pieces::{put, put_number};
use crate::showing::sender_of;
use etp_capture::Frame;
use etp_frame::FrameError;
use etp_values::NoMemory;
use std::alloc::Global;

/// What checking a frame found.
#[derive(Clone, Copy, Debug, PartialEq, Eq)]
pub enum Checked {
    /// The frame has no message.
    NoMessage,
    /// Its message is read.
    Taken,
    /// Its message is refused.
    Refused,
}

/// Appends the line of a message that is refused.
#[tactic(auto, using(crate::proofs::WritingLemmas::writes_after))]
fn put_line(into: &mut Vec<u8>, offset: u64, error: &FrameError) -> Result<(), NoMemory>
    ensures { Writes (decimal offset ++ codes " " ++ fault_text error.now ++ codes "\n") into.old.items into.new.items result }
{
    put_number(into, offset)?;
    put(into, b" ")?;
    put_fault(into, error)?;
    put(into, b"\n")
}

/// Appends the line of a message that is refused, unless memory ran out instead.
fn refuse(into: &mut Vec<u8>, offset: u64, error: &FrameError) -> Result<Checked, NoMemory>
    ensures line { WritesAs Checked.Refused (line_of offset (Some (Err error.now))) into.old.items into.new.items result }
    ensures cause { OnOk result (error.now ≢ FrameError.NoMemory) }
{
    match error {
        FrameError::NoMemory => Err(NoMemory),
        _ => {
            put_line(into, offset, error)?;
            Ok(Checked::Refused)
        }
    }
}

/// Appends the line of a refused message, `OFFSET FAULT` with the offset at which its frame begins, and nothing for any other frame. If
/// memory runs out, a prefix of the line may have been appended.
pub fn check_frame(
    alloc: Global,
    offset: u64,
    frame: &Frame,
    into: &mut Vec<u8>,
) -> Result<Checked, NoMemory>
    ensures { WritesAs (checked_of frame.now) (checked_line offset frame.now) into.old.items into.new.items result }
{
    let Some(sender) = sender_of(frame.kind) else {
        return Ok(Checked::NoMessage);
    };
    match check_pieces(alloc, frame.bytes.as_bytes(), sender) {
        Ok(()) => Ok(Checked::Taken),
        Err(error) => refuse(into, offset, &error),
    }
}
