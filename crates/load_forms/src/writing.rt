//! Writes the capture of a load in large pieces.
ghost use Rattle.std.specs.Prelude.{◌≡◌, ◌≤◌, ◌<◌, ◌++◌, ℕ, List, Some, IfNone, IfSome, IfOk, OnOk, length};
ghost use Rattle.std.specs.declared.option.Option.{Option};
ghost use Rattle.etp_outside.specs.Faults.{Rose};
ghost use Rattle.etp_capture.specs.Capture.{frames_bytes};
ghost use Rattle.etp_capture.specs.Frames.{magic, frame_bytes};
ghost use Rattle.gathered_text.specs.Writing.{Going, GoesOn, Writes};
ghost use Rattle.gathered_text.specs.declared.writing.Wrote.TheVariants as wrote;
ghost use Rattle.generator.specs.Generator.{frames};
ghost use Rattle.load_forms.specs.Writing.{unless_whole};

use etp_capture::{Frame, push_frame, push_magic};
use etp_outside::Sink;
use etp_values::NoMemory;
use gathered_text::{Wrote, finish, pass_on};
use generator::Generator;
use std::alloc::Global;

/// Writes the capture of a load of this many messages.
pub fn write_load<W: Sink>(alloc: Global, size: u32, out: &mut W) -> Wrote
    ensures written { Writes result (magic ++ frames_bytes (frames size)) (W.held out.old) (W.held out.new) }
    ensures kept { W.faults out.old ≤ W.faults out.new }
    ensures cause { result ≡ wrote.WriteFault → Rose (W.faults out.old) (W.faults out.new) }
{
    match first_piece(alloc) {
        Ok(text) => write_frames(alloc, Generator::new(size), text, out),
        Err(_) => Wrote::NoMemory,
    }
}

/// What a capture begins with.
fn first_piece(alloc: Global) -> Result<Vec<u8>, NoMemory>
    ensures { IfOk result (λ text. text.items ≡ magic) }
{
    let mut text: Vec<u8> = Vec::new(alloc);
    push_magic(&mut text)?;
    Ok(text)
}

/// Writes what was gathered and the frames that a generator has left.
fn write_frames<W: Sink>(alloc: Global, generator: Generator, text: Vec<u8>, out: &mut W) -> Wrote
    ensures written { (whole : List ℕ) (before : Option (List ℕ))
        → Going whole text.items (frames_bytes generator) before (W.held out.old)
        → Writes result whole before (W.held out.new) }
    ensures kept { W.faults out.old ≤ W.faults out.new }
    ensures cause { result ≡ wrote.WriteFault → Rose (W.faults out.old) (W.faults out.new) }
{
    let mut generator = generator;
    let mut text = text;
    loop {
        if let Some(wrote) = write_next(alloc, &mut generator, &mut text, out) {
            return wrote;
        }
    }
}

/// Gathers the next two frames, and writes what was gathered, once there is enough or there are no more. `None` if it continues.
fn write_next<W: Sink>(
    alloc: Global,
    generator: &mut Generator,
    text: &mut Vec<u8>,
    out: &mut W,
) -> Option<Wrote>
    ensures fewer { IfNone result (length generator.new < length generator.old) }
    ensures goes { IfNone result ((whole : List ℕ) (before : Option (List ℕ))
        → Going whole text.old.items (frames_bytes generator.old) before (W.held out.old)
        → Going whole text.new.items (frames_bytes generator.new) before (W.held out.new)) }
    ensures ends { IfSome result (λ end. (whole : List ℕ) (before : Option (List ℕ))
        → Going whole text.old.items (frames_bytes generator.old) before (W.held out.old)
        → Writes end whole before (W.held out.new)) }
    ensures kept { W.faults out.old ≤ W.faults out.new }
    ensures cause { result ≡ Some wrote.WriteFault → Rose (W.faults out.old) (W.faults out.new) }
{
    let two = match generator.next(alloc) {
        Ok(two) => two,
        Err(_) => return Some(Wrote::NoMemory),
    };
    match two {
        None => Some(finish(text.as_slice(), out)),
        Some(two) => unless_whole(write_two(&two.0, &two.1, text, out)),
    }
}

/// Why it ends, unless it continues.
fn unless_whole(wrote: Wrote) -> Option<Wrote>
    ensures { result ≡ unless_whole wrote }
{
    match wrote {
        Wrote::Whole => None,
        Wrote::WriteFault => Some(Wrote::WriteFault),
        Wrote::NoMemory => Some(Wrote::NoMemory),
    }
}

/// Gathers two frames, and writes what was gathered, once there is enough.
fn write_two<W: Sink>(first: &Frame, second: &Frame, text: &mut Vec<u8>, out: &mut W) -> Wrote
    ensures goes { (whole rest : List ℕ) (before : Option (List ℕ))
        → Going whole text.old.items (frame_bytes first.now ++ (frame_bytes second.now ++ rest)) before (W.held out.old)
        → GoesOn result whole text.new.items rest before (W.held out.new) }
    ensures kept { W.faults out.old ≤ W.faults out.new }
    ensures cause { result ≡ wrote.WriteFault → Rose (W.faults out.old) (W.faults out.new) }
{
    match push_two(first, second, text) {
        Ok(()) => pass_on(text, out),
        Err(_) => Wrote::NoMemory,
    }
}

fn push_two(first: &Frame, second: &Frame, text: &mut Vec<u8>) -> Result<(), NoMemory>
    ensures { OnOk result (text.new.items ≡ text.old.items ++ (frame_bytes first.now ++ frame_bytes second.now)) }
{
    push_frame(text, first)?;
    push_frame(text, second)
}
