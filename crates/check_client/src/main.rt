//! Plays asks and messages to clients, and prints what each sends and returns.
//!
//! A line of the input is `begin MOMENT` (a client from here on), an ask (`space PATH`, `put URI BYTES`, `get URI`, `open URI`, `load
//! POINTS`, `meta URI`, `subscribe CHANNEL START`, `replace CHANNEL FROM TO INDEX:LONG ..`, `cut CHANNEL END`, `range CHANNEL FROM TO`, `spaces`,
//! `delete URI`, `ping`, `close`, where BYTES is how many bytes 0x41 are put and points are `CHANNEL:INDEX:LONG`), `take HEX`, `copy CHANNEL`, or a comment that begins with `#`. Each ask is made at the moment 7. The input and
//! the expected output were made outside of this product (`outside/check_client.py`).
#![tactic(auto)]

mod asks;
mod shows;

use asks::ask_of;
use client_core::{Ask, Client, ClientError, Got};
use etp_values::{List, NoMemory};
use shows::{cause_of, digits_of, point_text, show};
use std::alloc::{AllocError, Global};
use std::io::{self, BufRead, BufReader};

/// The moment of each ask.
const MOMENT: i64 = 7;

/// Prints what is to be sent. A message of more than 600 bytes is shown by its front and its length.
fn print_sent(rt: &HostRuntime, client: &mut Client) -> io::Result<()> {
    for _ in 0..u64::MAX {
        match client.next_out() {
            Some(bytes) => {
                let digits = digits_of(rt.alloc(), bytes.as_bytes())?;
                println!(rt; "sends {digits}")?;
            }
            None => break,
        }
    }
    Ok(())
}

fn print_gots(rt: &HostRuntime, gots: &[Got]) -> io::Result<()> {
    if gots.len() == 0 {
        return println!(rt; "nothing");
    }
    for got in gots {
        let text = show(rt.alloc(), got).map_err(|_| AllocError)?;
        println!(rt; "{text}")?;
    }
    Ok(())
}

fn print_cause(rt: &HostRuntime, error: &ClientError) -> io::Result<()> {
    let cause = cause_of(rt.alloc(), error).map_err(|_| AllocError)?;
    println!(rt; "{cause}")
}

/// Prints whether the client has ended, and what is to be sent.
fn print_state(rt: &HostRuntime, client: &mut Client) -> io::Result<()> {
    if client.ended() {
        println!(rt; "ended")?;
    }
    print_sent(rt, client)
}

fn print_taken(rt: &HostRuntime, outcome: &Result<List<Got>, ClientError>) -> io::Result<()> {
    match outcome {
        Ok(gots) => print_gots(rt, gots.as_slice()),
        Err(error) => print_cause(rt, error),
    }
}

/// Takes a message, and prints what it returns or why it is refused.
fn take(rt: &HostRuntime, client: &mut Client, digits: &str) -> io::Result<()> {
    let bytes = hex::decode(rt.alloc(), digits).map_err(|_| AllocError)?;
    let outcome = client.take(rt.alloc(), bytes.as_slice());
    let printed = print_taken(rt, &outcome);
    drop(outcome);
    printed?;
    print_state(rt, client)
}

/// Prints the points of a channel's copy.
fn print_copy(rt: &HostRuntime, client: &Client, channel: i64) -> io::Result<()> {
    let Some(points) = client.copy(channel) else {
        return println!(rt; "no copy");
    };
    println!(rt; "copy {}", points.len())?;
    for point in points.as_slice() {
        let text = point_text(rt.alloc(), point).map_err(|_| AllocError)?;
        println!(rt; "{text}")?;
    }
    Ok(())
}

fn print_asked(rt: &HostRuntime, outcome: &Result<i64, ClientError>) -> io::Result<()> {
    match outcome {
        Ok(id) => println!(rt; "asked {id}"),
        Err(error) => print_cause(rt, error),
    }
}

/// Asks, and prints the ask's id or why it is refused.
fn ask(rt: &HostRuntime, client: &mut Client, ask: Ask) -> io::Result<()> {
    let outcome = client.ask(rt.alloc(), ask, MOMENT);
    let printed = print_asked(rt, &outcome);
    drop(outcome);
    printed?;
    print_state(rt, client)
}

fn ask_line(rt: &HostRuntime, client: &mut Client, line: &str) -> io::Result<()> {
    match ask_of(rt.alloc(), line).map_err(|_| AllocError)? {
        Some(wanted) => ask(rt, client, wanted),
        None => println!(rt; "no ask"),
    }
}

/// A line that is for the client.
fn run_words(rt: &HostRuntime, client: &mut Client, line: &str) -> io::Result<()> {
    if let Some(digits) = line.strip_prefix("take ") {
        return take(rt, client, digits);
    }
    if let Some(channel) = line.strip_prefix("copy ") {
        return print_copy(rt, client, channel.parse::<i64>().unwrap_or(0));
    }
    ask_line(rt, client, line)
}

fn add_client(alloc: Global, clients: &mut Vec<Client>, moment: i64) -> Result<(), NoMemory> {
    clients.push(Client::begin(alloc, moment)?)?;
    Ok(())
}

/// A client from here on.
fn begin(rt: &HostRuntime, clients: &mut Vec<Client>, moment: i64) -> io::Result<()> {
    add_client(rt.alloc(), clients, moment).map_err(|_| AllocError)?;
    match clients.last_mut() {
        Some(client) => print_sent(rt, client),
        None => Ok(()),
    }
}

fn run_line(rt: &HostRuntime, clients: &mut Vec<Client>, line: &str) -> io::Result<()> {
    if line.starts_with("#") {
        return println!(rt; "{line}");
    }
    if let Some(moment) = line.strip_prefix("begin ") {
        return begin(rt, clients, moment.parse::<i64>().unwrap_or(0));
    }
    match clients.last_mut() {
        Some(client) => run_words(rt, client, line),
        None => println!(rt; "no client"),
    }
}

fn main(rt: HostRuntime) -> io::Result<()> {
    let mut clients = Vec::new(rt.alloc());
    for line in BufReader::new(rt.alloc(), rt.reader())?.lines(rt.alloc()) {
        let line = line?;
        run_line(&rt, &mut clients, line.as_str())?;
    }
    Ok(())
}
