//! Runs the lines of its input over disks in memory, files and the journals on them, and prints what each gives.
//!
//! The input and the expected output were made outside of this product (`outside/check_journal.py`, which says what each line means).
#![tactic(auto)]

mod files;
mod runs;
mod words;

use etp_values::NoMemory;
use files::{make, read, remove};
use runs::{append, open};
use std::io::{self, BufRead, BufReader};
use words::words_of;

/// What a line gives.
fn answer(rt: &HostRuntime, line: &str) -> Result<String, NoMemory> {
    let words = words_of(rt.alloc(), line, ' ')?;
    match words.as_slice() {
        ["append", id, fails, kept, groups] => append(rt.alloc(), id, fails, kept, groups),
        ["open", id, bytes, next] => open(rt.alloc(), id, bytes, next),
        ["make", name, id, groups] => make(rt, name, id, groups),
        ["read", name, id] => read(rt, name, id),
        ["remove", name] => remove(rt, name),
        _ => Ok(String::from_str(rt.alloc(), "no such line\n")?),
    }
}

fn print_line(rt: &HostRuntime, line: &str) -> io::Result<()> {
    match answer(rt, line) {
        Ok(text) => print!(rt; "{text}"),
        Err(_) => println!(rt; "no memory"),
    }
}

fn main(rt: HostRuntime) -> io::Result<()> {
    for line in BufReader::new(rt.alloc(), rt.reader())?.lines(rt.alloc()) {
        let line = line?;
        print_line(&rt, line.as_str())?;
    }
    Ok(())
}
