//! Runs the lines of its input over a store of dataspaces and objects, and prints what each gives.
//!
//! The input and the expected output were made outside of this product, over plain tables (`outside/check_objects.py`, which
//! says what each line means).
#![tactic(auto)]

mod changes;
mod keys;
mod looks;

use changes::change;
use etp_values::NoMemory;
use keys::words_of;
use looks::look;
use object_store::ObjectStore;
use std::alloc::Global;
use std::io::{self, BufRead, BufReader};

/// What a line gives: what it looks at, otherwise how many operations were done.
fn answer(alloc: Global, store: &mut ObjectStore, line: &str) -> Result<String, NoMemory> {
    let words = words_of(alloc, line)?;
    if let Some(seen) = look(alloc, store, words.as_slice())? {
        return Ok(seen);
    }
    let count = change(alloc, store, line)?;
    Ok(format!(in alloc; "{count} done")?)
}

/// Runs one line.
fn print_line(rt: &HostRuntime, store: &mut ObjectStore, line: &str) -> io::Result<()> {
    match answer(rt.alloc(), store, line) {
        Ok(text) => println!(rt; "{text}"),
        Err(_) => println!(rt; "no memory"),
    }
}

/// Runs the lines of the input.
fn run(rt: &HostRuntime, store: &mut ObjectStore) -> io::Result<()> {
    for line in BufReader::new(rt.alloc(), rt.reader())?.lines(rt.alloc()) {
        let line = line?;
        print_line(rt, store, line.as_str())?;
    }
    Ok(())
}

fn main(rt: HostRuntime) -> io::Result<()> {
    match ObjectStore::new(rt.alloc()) {
        Ok(mut store) => run(&rt, &mut store),
        Err(_) => println!(rt; "no memory"),
    }
}
