//! The line that shows a frame.
ghost use Rattle.std.specs.Prelude.{◌≡◌, ◌++◌, ◌==◌, codes, false, [], if◌then◌else◌};
ghost use Rattle.avro_bin.specs.Plain.{Writes};
ghost use Rattle.avro_bin.specs.View.{value_of};
ghost use Rattle.etp_capture.specs.Kinds.{kind_ended};
ghost use Rattle.etp_frame.specs.Reading.{tree_of};
ghost use Rattle.capture_text.specs.Pieces.{hex};
ghost use Rattle.capture_text.specs.Values.{value_text};
ghost use Rattle.capture_text.specs.Faults.{fault_text};
ghost use Rattle.capture_text.specs.Lines.{kind_name, sender_of, labelled, start_text, front_text, kind_text, ids_text, title_text, reading_of, reading_text, rest_text, shown_line};
ghost use Rattle.capture_text.specs.Parts.{seen, wants_memory};

use crate::faults::put_fault;
use crate::names::message_of;
use crate::pieces::{put, put_hex, put_number, put_signed};
use crate::values::put_value;
use avro_bin::Tree;
use etp_capture::{Frame, kinds};
use etp_frame::{FrameError, Header, read_tree};
use etp_schema::Side;
use etp_values::NoMemory;
use std::alloc::Global;

/// Who sent the message of a frame of this kind, if such frames have one.
pub(crate) fn sender_of(kind: u8) -> Option<Side>
    ensures { result ≡ sender_of kind }
{
    match kind {
        kinds::IN => Some(Side::Client),
        kinds::OUT => Some(Side::Server),
        _ => None,
    }
}

/// Whether memory ran out instead of an answer.
fn wants_memory(read: &Result<(Header, u32, Tree), FrameError>) -> bool
    ensures { result ≡ wants_memory read.now }
{
    match read {
        Err(FrameError::NoMemory) => true,
        _ => false,
    }
}

fn put_kind(into: &mut Vec<u8>, kind: u8) -> Result<(), NoMemory>
    ensures { Writes (kind_name kind) into.old.items into.new.items result }
{
    match kind {
        kinds::IN => put(into, b"in"),
        kinds::POLL => put(into, b"poll"),
        kinds::END => put(into, b"end"),
        kinds::OUT => put(into, b"out"),
        kinds::ENDED => put(into, b"ended"),
        _ => put_number(into, kind as u64),
    }
}

/// Appends where a frame begins and what it is.
#[tactic(auto, using(crate::proofs::WritingLemmas::writes_after))]
fn put_start(into: &mut Vec<u8>, offset: u64, kind: u8) -> Result<(), NoMemory>
    ensures { Writes (start_text offset kind) into.old.items into.new.items result }
{
    put_number(into, offset)?;
    put(into, b" ")?;
    put_kind(into, kind)
}

/// Appends a word and a number.
#[tactic(auto, using(crate::proofs::WritingLemmas::writes_after))]
fn put_field(into: &mut Vec<u8>, word: &[u8], number: i64) -> Result<(), NoMemory>
    ensures { Writes (labelled word.now number) into.old.items into.new.items result }
{
    put(into, word)?;
    put_signed(into, number)
}

/// Appends where a frame begins, what it is, its session and its moment.
#[tactic(auto, using(crate::proofs::WritingLemmas::writes_after))]
fn put_front(into: &mut Vec<u8>, offset: u64, frame: &Frame) -> Result<(), NoMemory>
    ensures { Writes (front_text offset frame.now) into.old.items into.new.items result }
{
    put_start(into, offset, frame.kind)?;
    put(into, b" ")?;
    put_number(into, frame.tag as u64)?;
    put_field(into, b" ", frame.moment)
}

/// Appends the numbers of a header that say which message follows.
#[tactic(auto, using(crate::proofs::WritingLemmas::writes_after))]
fn put_kind_numbers(into: &mut Vec<u8>, header: &Header) -> Result<(), NoMemory>
    ensures { Writes (kind_text header.now) into.old.items into.new.items result }
{
    put_field(into, b" p=", header.protocol as i64)?;
    put_field(into, b" t=", header.kind as i64)
}

/// Appends the other numbers of a header.
#[tactic(auto, using(crate::proofs::WritingLemmas::writes_after))]
fn put_ids(into: &mut Vec<u8>, header: &Header) -> Result<(), NoMemory>
    ensures { Writes (ids_text header.now) into.old.items into.new.items result }
{
    put_field(into, b" c=", header.correlation)?;
    put_field(into, b" m=", header.id)?;
    put_field(into, b" f=", header.flags as i64)
}

/// Appends the numbers of a header.
#[tactic(auto, using(crate::proofs::WritingLemmas::writes_after))]
fn put_header(into: &mut Vec<u8>, header: &Header) -> Result<(), NoMemory>
    ensures { Writes (kind_text header.now ++ ids_text header.now) into.old.items into.new.items result }
{
    put_kind_numbers(into, header)?;
    put_ids(into, header)
}

/// Appends a message's name and header.
#[tactic(auto, using(crate::proofs::WritingLemmas::writes_after))]
fn put_title(into: &mut Vec<u8>, header: &Header, place: u32) -> Result<(), NoMemory>
    ensures { Writes (title_text place header.now) into.old.items into.new.items result }
{
    put(into, b" ")?;
    put(into, message_of(place).as_bytes())?;
    put_header(into, header)
}

/// Appends a message's name, header and body.
#[tactic(auto, using(crate::proofs::WritingLemmas::writes_after))]
fn put_message(into: &mut Vec<u8>, header: &Header, place: u32, body: &Tree) -> Result<(), NoMemory>
    ensures { Writes (title_text place header.now ++ codes " " ++ value_text place (value_of body.now)) into.old.items into.new.items result }
{
    put_title(into, header, place)?;
    put(into, b" ")?;
    put_value(into, place, body)
}

/// Appends the cause that refuses a message.
#[tactic(auto, using(crate::proofs::WritingLemmas::writes_after))]
fn put_refused(into: &mut Vec<u8>, error: &FrameError) -> Result<(), NoMemory>
    ensures { Writes (codes " refused " ++ fault_text error.now) into.old.items into.new.items result }
{
    put(into, b" refused ")?;
    put_fault(into, error)
}

/// Appends a message that was read, or the cause that refuses it.
fn put_read(
    into: &mut Vec<u8>,
    read: &Result<(Header, u32, Tree), FrameError>,
) -> Result<(), NoMemory>
    ensures { Writes (reading_text (seen read.now)) into.old.items into.new.items result }
{
    match read {
        Ok((header, place, body)) => put_message(into, header, *place, body),
        Err(error) => put_refused(into, error),
    }
}

/// Appends the message of these bytes, or the cause that refuses it.
fn put_bytes(alloc: Global, bytes: &[u8], sender: Side, into: &mut Vec<u8>) -> Result<(), NoMemory>
    ensures { Writes (reading_text (tree_of sender bytes.now)) into.old.items into.new.items result }
{
    let read = read_tree(alloc, bytes, sender);
    if wants_memory(&read) {
        return Err(NoMemory);
    }
    put_read(into, &read)
}

/// Appends the bytes of a session's end; a poll and the client's end have none.
#[tactic(auto, using(crate::proofs::WritingLemmas::writes_after))]
fn put_end(into: &mut Vec<u8>, frame: &Frame) -> Result<(), NoMemory>
    ensures { Writes (if frame.now.kind == kind_ended then codes " " ++ hex frame.now.bytes else []) into.old.items into.new.items result }
{
    if frame.kind != kinds::ENDED {
        return Ok(());
    }
    put(into, b" ")?;
    put_hex(into, frame.bytes.as_bytes())
}

/// Appends what follows a frame's moment.
fn put_rest(alloc: Global, frame: &Frame, into: &mut Vec<u8>) -> Result<(), NoMemory>
    ensures { Writes (rest_text (reading_of frame.now) frame.now) into.old.items into.new.items result }
{
    match sender_of(frame.kind) {
        Some(sender) => put_bytes(alloc, frame.bytes.as_bytes(), sender, into),
        None => put_end(into, frame),
    }
}

/// Appends the line that shows this frame, which begins at `offset` of its capture: `OFFSET KIND TAG MOMENT`, followed by the message, or
/// the bytes of a session's end. A refused message is shown by its cause. If memory runs out, a prefix of the line may have been appended.
#[tactic(auto, using(crate::proofs::WritingLemmas::writing))]
pub fn show_frame(
    alloc: Global,
    offset: u64,
    frame: &Frame,
    into: &mut Vec<u8>,
) -> Result<(), NoMemory>
    ensures { Writes (shown_line offset frame.now) into.old.items into.new.items result }
{
    put_front(into, offset, frame)?;
    put_rest(alloc, frame, into)?;
    put(into, b"\n")
}
