//! Cuts each message of a capture into the parts in which it is sent, and prints how many blobs the message has, and for each part how long
//! its printed form is and a sum of that.
//!
//! A frame's tag is the number of the session that sends the message, and its moment the limit of bytes. The capture has 2,000 messages of
//! every kind, most of them too long for one part (`outside/part_samples.py`).
use crate::captures::{Placed, sender_of};
use crate::digest::{NO_BYTES, digest};
use etp_capture::Frame;
use etp_frame::{FrameError, Header, Message, blobs_in, read_message, split};
use std::io;

fn print_part(rt: &HostRuntime, part: &Message) -> io::Result<()> {
    match format!(in rt.alloc(); "{part:?}") {
        Ok(text) => println!(rt; "{} {}", text.len(), digest(NO_BYTES, text.as_bytes())),
        Err(_) => println!(rt; "no memory"),
    }
}

fn print_parts(rt: &HostRuntime, parts: &[Message]) -> io::Result<()> {
    for part in parts {
        print_part(rt, part)?;
    }
    Ok(())
}

/// Cuts the message, and returns how many blobs it has.
fn cut(rt: &HostRuntime, message: Message, limit: u64, number: u64, blobs: u64) -> io::Result<u64> {
    let count = blobs_in(&message, limit);
    let parts = split(rt.alloc(), message, limit, number, blobs);
    println!(rt; "{count} blobs")?;
    match parts {
        Ok(parts) => print_parts(rt, parts.as_slice())?,
        Err(_) => println!(rt; "no memory")?,
    }
    Ok(count)
}

/// Cuts what was read, if this many blobs were sent before, and returns how many there are then.
fn cut_read(
    rt: &HostRuntime,
    frame: &Frame,
    read: Result<(Header, Message), FrameError>,
    blobs: u64,
) -> io::Result<u64> {
    match read {
        Ok((_, message)) => {
            let limit = frame.moment.unsigned_abs();
            let count = cut(rt, message, limit, u64::from(frame.tag), blobs)?;
            Ok(blobs.saturating_add(count))
        }
        Err(error) => {
            println!(rt; "unread: {error}")?;
            Ok(blobs)
        }
    }
}

/// Cuts the frame's message, if it has one.
fn cut_frame(rt: &HostRuntime, frame: &Frame, blobs: u64) -> io::Result<u64> {
    let Some(sender) = sender_of(frame) else {
        return Ok(blobs);
    };
    let read = read_message(rt.alloc(), frame.bytes.as_bytes(), sender);
    cut_read(rt, frame, read, blobs)
}

/// Cuts the messages of these frames.
pub(crate) fn cut_all(rt: &HostRuntime, frames: &[Placed]) -> io::Result<()> {
    let mut blobs = 0;
    for placed in frames {
        blobs = cut_frame(rt, &placed.frame, blobs)?;
    }
    Ok(())
}
