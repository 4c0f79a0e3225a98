//! Runs lines on values and their encoding, and prints what each gives.
//!
//! ```text
//! uri TEXT          the canonical text of a URI, or why it is not one
//! memory            the text of the refusal of a URI as memory runs out
//! id TEXT           an identifier's text, if it is one
//! named ID TEXT     the identifier of a text in the name space of an identifier
//! pairs NAME ..     the names in their order, each with its place in the line, unless one occurs twice
//! shared TEXT       the text, from a box and from a shared value
//! values HEX        custom data: the bytes that were read and are written, the nodes, the weight, and how it is written
//! node NODE HEX     a value of a node of a table of its own: the bytes that were read and are written, and how it is written
//! too_long          the refusal of a value that is longer than a length can say
//! ```
//!
//! The lines are made by `outside/value_cases.py`.
mod encoded;
mod names;
mod nodes;

use encoded::values;
use etp_values::NoMemory;
use names::{id, named, pairs, shared, uri, without_memory};
use nodes::{node, too_long};
use std::alloc::Global;
use std::{fs, io};

/// What a line gives.
fn answer(alloc: Global, word: &str, rest: &str) -> Result<String, NoMemory> {
    match word {
        "uri" => uri(alloc, rest),
        "memory" => without_memory(alloc),
        "id" => id(alloc, rest),
        "named" => named(alloc, rest),
        "pairs" => pairs(alloc, rest),
        "shared" => shared(alloc, rest),
        "values" => values(alloc, rest),
        "node" => node(alloc, rest),
        "too_long" => too_long(alloc),
        _ => Ok(String::new(alloc)),
    }
}

/// Runs one line, of which the first word says what it is for.
fn print_line(rt: &HostRuntime, line: &str) -> io::Result<()> {
    let (word, rest) = match line.split_once(' ') {
        Some((word, rest)) => (word, rest),
        None => (line, ""),
    };
    match answer(rt.alloc(), word, rest) {
        Ok(text) => println!(rt; "{text}"),
        Err(_) => println!(rt; "no memory"),
    }
}

/// Runs the lines in a file.
pub(crate) fn print_values(rt: &HostRuntime, file: &str) -> io::Result<()> {
    let text = fs::read_to_string(rt, file)?;
    for line in text.as_str().lines() {
        print_line(rt, line)?;
    }
    Ok(())
}
