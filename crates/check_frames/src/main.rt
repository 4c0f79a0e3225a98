//! Runs messages and values through their layers, and prints what each gives.
//!
//! A line of the input is a part, and names the file that it is run on, if it needs one:
//!
//! ```text
//! messages CAPTURE                            reads, shows and writes messages
//! hostile CAPTURE [SEED THOUSANDS [lines]]    makes broken messages out of those of a capture, shows and checks them
//! joins CAPTURE                               joins messages with the chunks of their data
//! parts CAPTURE                               cuts messages into the parts in which they are sent
//! pieces CAPTURE                              feeds readers the messages of a capture in pieces
//! feeds LINES                                 feeds readers the pieces of a line
//! values LINES                                reads and writes values
//! places                                      the places of messages' bodies in the schema's table
//! ```
//!
//! What a part prints follows its line. The files and the expected output were made outside of this product
//! (`outside/check_frames.py`).
#![tactic(auto)]

mod captures;
mod digest;
mod feeds;
mod hostile;
mod joins;
mod messages;
mod parts;
mod pieces;
mod places;
mod values;

use captures::{Capture, read_capture};
use feeds::print_feeds;
use hostile::print_hostile;
use joins::join_all;
use messages::print_all;
use parts::cut_all;
use pieces::feed_messages;
use places::print_places;
use std::io::{self, BufRead, BufReader};
use values::print_values;

/// Prints why the capture could not be read to its end.
fn print_fault(rt: &HostRuntime, capture: &Capture) -> io::Result<()> {
    match &capture.fault {
        Some(error) => println!(rt; "{error}"),
        None => Ok(()),
    }
}

/// Runs a part on a capture.
fn run_on(rt: &HostRuntime, part: &str, capture: &Capture) -> io::Result<()> {
    let frames = capture.frames.as_slice();
    match part {
        "messages" => print_all(rt, frames)?,
        "joins" => join_all(rt, frames)?,
        "parts" => cut_all(rt, frames)?,
        "pieces" => feed_messages(rt, frames)?,
        _ => println!(rt; "no such part")?,
    }
    print_fault(rt, capture)
}

/// Runs the part of a line.
fn run_line(rt: &HostRuntime, line: &str) -> io::Result<()> {
    println!(rt; "# {line}")?;
    let words: Vec<&str> = line.split_whitespace().collect(rt.alloc())?;
    match words.as_slice() {
        ["feeds", file] => print_feeds(rt, file),
        ["values", file] => print_values(rt, file),
        ["places"] => print_places(rt),
        ["hostile", file, words @ ..] => print_hostile(rt, read_capture(rt, file)?, words),
        [part, file] => run_on(rt, part, &read_capture(rt, file)?),
        _ => println!(rt; "no part"),
    }
}

fn main(rt: HostRuntime) -> io::Result<()> {
    for line in BufReader::new(rt.alloc(), rt.reader())?.lines(rt.alloc()) {
        let line = line?;
        run_line(&rt, line.as_str())?;
    }
    Ok(())
}
