//! Has a store answer the calls of its input, one for each line, and prints each answer and in the end the journal.
//!
//! The input and the expected output were made outside of this product, over plain lists and tables (`outside/check_store.py`,
//! which says what each line means).
#![tactic(auto)]

mod calls;
mod configuration;
mod elements;
mod entries;
mod items;
mod keys;
mod limits;
mod looks;
mod operations;
mod replies;
mod sessions;
mod showing;
mod staged;
mod values;
mod words;

use calls::call_of;
use configuration::config_of;
use entries::print_journal;
use etp_values::NoMemory;
use limits::print_limits;
use replies::print_answer;
use sessions::ask;
use std::alloc::Global;
use std::io::{self, BufRead, BufReader};
use store_machine::{Answer, Store, StoreCall};
use words::{items_of, number, words_of};

fn new_store(alloc: Global, journal: &str, types: &str, kinds: &str) -> Result<Store, NoMemory> {
    Store::new(alloc, config_of(alloc, journal, types, kinds)?)
}

/// Replaces the previous store by a new one.
fn print_new(
    rt: &HostRuntime,
    store: &mut Store,
    journal: &str,
    types: &str,
    kinds: &str,
) -> io::Result<()> {
    match new_store(rt.alloc(), journal, types, kinds) {
        Ok(new) => {
            *store = new;
            println!(rt; "new store")
        }
        Err(_) => println!(rt; "no memory for a store"),
    }
}

/// The answer to the call of these words.
fn answered(
    alloc: Global,
    store: &mut Store,
    by: u64,
    at: i64,
    words: &[&str],
    items: &str,
) -> Result<Option<Answer>, NoMemory> {
    let items = items_of(alloc, items)?;
    let call = call_of(alloc, words, items.as_slice())?;
    ask(alloc, store, by, at, call)
}

fn print_call(
    rt: &HostRuntime,
    store: &mut Store,
    by: u64,
    at: i64,
    words: &[&str],
    items: &str,
) -> io::Result<()> {
    match answered(rt.alloc(), store, by, at, words, items) {
        Ok(Some(answer)) => print_answer(rt, store.entries(), answer),
        Ok(None) => println!(rt; "no session"),
        Err(_) => println!(rt; "no memory for a call"),
    }
}

/// Lets a session in; the store does not look at the number.
fn print_enter(rt: &HostRuntime, store: &mut Store, by: u64, at: i64) -> io::Result<()> {
    match store.ask(rt.alloc(), by, 0, at, StoreCall::Enter) {
        Ok(answer) => print_answer(rt, store.entries(), answer),
        Err(_) => println!(rt; "no memory for an entry"),
    }
}

/// A session's number.
fn session(word: &str) -> u64 {
    word.parse::<u64>().unwrap_or(0)
}

fn print_words(rt: &HostRuntime, store: &mut Store, words: &[&str], items: &str) -> io::Result<()> {
    match words {
        ["store", journal, types, kinds] => print_new(rt, store, journal, types, kinds),
        ["journal"] => print_journal(rt, store),
        ["limits"] => print_limits(rt),
        [by, at, "enter"] => print_enter(rt, store, session(by), number(at)),
        [by, at, call @ ..] => print_call(rt, store, session(by), number(at), call, items),
        _ => println!(rt; "no call"),
    }
}

/// Runs one line.
fn print_line(rt: &HostRuntime, store: &mut Store, line: &str) -> io::Result<()> {
    let (head, items) = line.split_once(':').unwrap_or((line, ""));
    match words_of(rt.alloc(), head) {
        Ok(words) => print_words(rt, store, words.as_slice(), items),
        Err(_) => println!(rt; "no memory for the words"),
    }
}

/// Runs the lines of the input.
fn run(rt: &HostRuntime, store: &mut Store) -> io::Result<()> {
    for line in BufReader::new(rt.alloc(), rt.reader())?.lines(rt.alloc()) {
        let line = line?;
        print_line(rt, store, line.as_str())?;
    }
    Ok(())
}

fn main(rt: HostRuntime) -> io::Result<()> {
    match new_store(rt.alloc(), "2", "any", "-") {
        Ok(mut store) => run(&rt, &mut store),
        Err(_) => println!(rt; "no memory"),
    }
}
