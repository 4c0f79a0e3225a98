//! Runs the calls of its input over a store of arrays, one for each line, and prints what each gives.
//!
//! The input and the expected output were made outside of this product, over plain lists (`outside/check_arrays.py`, which says
//! what each line means).
#![tactic(auto)]

mod calls;
mod elements;
mod operations;
mod records;
mod showing;

use array_store::ArrayStore;
use calls::print_call;
use operations::{print_applied, words_of};
use std::io::{self, BufRead, BufReader};

/// Runs one line.
fn print_line(rt: &HostRuntime, store: &mut ArrayStore, line: &str) -> io::Result<()> {
    if let Some(ops) = line.strip_prefix("apply ") {
        return print_applied(rt, store, ops);
    }
    match words_of(rt.alloc(), line) {
        Ok(words) => print_call(rt, store, words.as_slice()),
        Err(_) => println!(rt; "no memory for the words"),
    }
}

fn main(rt: HostRuntime) -> io::Result<()> {
    let alloc = rt.alloc();
    let mut store = ArrayStore::new(alloc);
    for line in BufReader::new(alloc, rt.reader())?.lines(alloc) {
        let line = line?;
        print_line(&rt, &mut store, line.as_str())?;
    }
    Ok(())
}
