//! Gives each message of a capture to one joiner, and prints what it answers: the message that is whole, field by field, or why it is
//! refused; and what it then awaits.
//!
//! The capture has a case for each rule, and some hundred puts and replies with their chunks, now and then not as they should be
//! (`outside/join_samples.py`).
use crate::captures::{Placed, sender_of};
use etp_capture::Frame;
use etp_frame::{FrameError, Header, JoinError, Joined, Joiner, Message, read_message};
use std::io;

fn print_joined(rt: &HostRuntime, joined: &Result<Joined, JoinError>) -> io::Result<()> {
    match joined {
        Ok(Joined::More) => println!(rt; "more"),
        Ok(Joined::Whole(message)) => println!(rt; "whole {message:?}"),
        Err(error) => println!(rt; "refused: {error}"),
    }
}

fn print_awaited(rt: &HostRuntime, joiner: &Joiner) -> io::Result<()> {
    match joiner.awaited() {
        Some(correlation) => println!(rt; "awaits {correlation}"),
        None => println!(rt; "awaits nothing"),
    }
}

/// Gives the joiner a message.
fn join(
    rt: &HostRuntime,
    joiner: &mut Joiner,
    header: &Header,
    message: Message,
) -> io::Result<()> {
    let joined = joiner.add(rt.alloc(), header, message);
    let printed = print_joined(rt, &joined);
    drop(joined);
    printed
}

/// Gives the joiner what was read.
fn join_read(
    rt: &HostRuntime,
    joiner: &mut Joiner,
    read: Result<(Header, Message), FrameError>,
) -> io::Result<()> {
    match read {
        Ok((header, message)) => join(rt, joiner, &header, message),
        Err(error) => println!(rt; "unread: {error}"),
    }
}

/// Gives the joiner the frame's message, if it has one.
fn join_frame(rt: &HostRuntime, joiner: &mut Joiner, frame: &Frame) -> io::Result<()> {
    let Some(sender) = sender_of(frame) else {
        return Ok(());
    };
    let read = read_message(rt.alloc(), frame.bytes.as_bytes(), sender);
    join_read(rt, joiner, read)?;
    print_awaited(rt, joiner)
}

/// Joins the messages of these frames.
pub(crate) fn join_all(rt: &HostRuntime, frames: &[Placed]) -> io::Result<()> {
    let mut joiner = Joiner::new();
    for placed in frames {
        join_frame(rt, &mut joiner, &placed.frame)?;
    }
    Ok(())
}
