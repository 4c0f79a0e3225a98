//! Prints of each frame of a capture the line that shows it, and of each message that is read its header, the message field by field,
//! and a line if it is not written as the bytes that it came in. Of a message that is refused it prints why.
//!
//! The capture has every message of the profile with every field filled, once for each side that sends it, and a message for each
//! cause that refuses one, all of which were made by the schema alone (`outside/message_samples.py`).
use crate::captures::{Placed, sender_of};
use capture_text::show_frame;
use etp_capture::Frame;
use etp_frame::{FrameError, Header, Message, flags, read_message, write_message};
use etp_values::Blob;
use std::alloc::Global;
use std::io::{self, Write};

/// The bytes of the message; `None` if the header does not name it, or memory runs out.
fn rewritten(alloc: Global, header: &Header, message: &Message) -> Option<Blob> {
    if !header.names(message)
        || header.has_flag(flags::EXTENSION)
        || header.has_flag(flags::COMPRESSED)
    {
        return None;
    }
    write_message(alloc, header, message).ok()
}

/// Whether the message is written as these bytes.
fn is_written_so(alloc: Global, header: &Header, message: &Message, bytes: &[u8]) -> bool {
    match rewritten(alloc, header, message) {
        Some(blob) => blob.as_bytes() == bytes,
        None => false,
    }
}

fn print_message(rt: &HostRuntime, header: &Header, message: &Message) -> io::Result<()> {
    println!(rt; "{header:?}")?;
    println!(rt; "{message:?}")
}

fn print_whole(
    rt: &HostRuntime,
    header: &Header,
    message: &Message,
    bytes: &[u8],
) -> io::Result<()> {
    print_message(rt, header, message)?;
    if is_written_so(rt.alloc(), header, message, bytes) {
        return Ok(());
    }
    println!(rt; "it is written otherwise")
}

fn print_read(
    rt: &HostRuntime,
    read: &Result<(Header, Message), FrameError>,
    bytes: &[u8],
) -> io::Result<()> {
    match read {
        Ok(whole) => print_whole(rt, &whole.0, &whole.1, bytes),
        Err(error) => println!(rt; "refused: {error}"),
    }
}

/// Reads the frame's message, if it has one.
fn print_typed(rt: &HostRuntime, frame: &Frame) -> io::Result<()> {
    let Some(sender) = sender_of(frame) else {
        return Ok(());
    };
    let bytes = frame.bytes.as_bytes();
    let read = read_message(rt.alloc(), bytes, sender);
    let printed = print_read(rt, &read, bytes);
    drop(read);
    printed
}

/// Prints the line that shows the frame.
fn print_line(rt: &HostRuntime, placed: &Placed) -> io::Result<()> {
    let offset = placed.offset;
    let mut line = Vec::new(rt.alloc());
    match show_frame(rt.alloc(), offset, &placed.frame, &mut line) {
        Ok(()) => io::writer(rt).write_all(line.as_slice()),
        Err(_) => println!(rt; "no memory to show the frame at {offset}"),
    }
}

/// Shows these frames, and reads their messages.
pub(crate) fn print_all(rt: &HostRuntime, frames: &[Placed]) -> io::Result<()> {
    for placed in frames {
        print_line(rt, placed)?;
        print_typed(rt, &placed.frame)?;
    }
    Ok(())
}
