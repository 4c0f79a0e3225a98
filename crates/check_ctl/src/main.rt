//! Runs the client over hosts, links and streams in memory, and prints what each command wrote, how it ended, and what it sent.
//!
//! A line of the input is a run, in four fields between `|`: the words of the command line, the content of the file `file`, the content of
//! the input, and the link; a fifth one is the number of the write to the output that fails. A content is in hexadecimal, `-` for none. A link is the number of its call that fails, or 0, and what comes
//! over it: `-` is an idle turn, and anything else a message in hexadecimal; after the last one the peer has ended the link. An empty field
//! means that there is no link to dial. The clock returns 7, 8 and so on. A line that begins with `#` is printed as it is.
//! `CALL@DIAL` in place of the link's number also has the number of the call of the dialer that fails.
//!
//! What is printed is what the command wrote, and then its status and status line, how often the dialer failed, if it did, where the link was
//! dialed to, how often it failed, if it did, and each message that was sent over it. The lines and the expected output were made outside of this product (`outside/check_ctl.py`).
#![tactic(auto)]

mod cases;
mod shows;

use cases::{Case, case_of};
use client_forms::{Streams, run_client};
use etp_outside::{MemDial, MemLink, Status, StepClock};
use etp_values::NoMemory;
use shows::digits_of;
use std::alloc::{AllocError, Global};
use std::io::{self, BufRead, BufReader, Write};
use std::sync::Wait;
use watch_views::{Counts, Latest, View, Window};

/// The first moment that the clock returns.
const FIRST_MOMENT: i64 = 7;

/// How many points the window shows.
const WINDOW_LEN: u64 = 1;

/// Prints how often something failed, if it did.
fn print_failed<R: AllocGlobal + Print>(rt: &R, name: &str, faults: u64) -> io::Result<()> {
    if faults == 0 {
        return Ok(());
    }
    println!(rt; "{name} failed {faults}")
}

fn print_message<R: AllocGlobal + Print>(rt: &R, message: &[u8]) -> io::Result<()> {
    let digits = digits_of(rt.alloc(), message)?;
    println!(rt; "sent {digits}")
}

/// Where a link was dialed to, and what was sent over it.
fn print_link<R: AllocGlobal + Print>(rt: &R, link: &MemLink) -> io::Result<()> {
    match link.to() {
        Some(address) => {
            let port = address.port;
            io::writer(rt).write_all(address.host.as_bytes())?;
            print!(rt; " {port} ")?;
            io::writer(rt).write_all(address.path.as_bytes())?;
            println!(rt; "")?;
        }
        None => println!(rt; "nowhere")?,
    }
    print_failed(rt, "link", link.faults())?;
    for message in link.sent() {
        print_message(rt, message.as_bytes())?;
    }
    Ok(())
}

fn print_links<R: AllocGlobal + Print>(rt: &R, dialer: &MemDial) -> io::Result<()> {
    print_failed(rt, "dialer", dialer.faults())?;
    for link in dialer.returned() {
        print_link(rt, link)?;
    }
    Ok(())
}

/// The status and its line.
fn print_status<R: AllocGlobal + Print>(rt: &R, status: Status) -> io::Result<()> {
    let mut line = Vec::new(rt.alloc());
    status.line(rt.alloc(), &mut line).map_err(|_| AllocError)?;
    let number = status.number();
    print!(rt; "= {number} ")?;
    io::writer(rt).write_all(line.as_slice())?;
    println!(rt; "")
}

fn run_case<R: AllocGlobal + Print + Wait>(
    rt: &R,
    case: Case,
    views: Vec<Box<dyn View>>,
) -> io::Result<()> {
    let alloc = rt.alloc();
    let Case {
        words,
        mut host,
        mut dialer,
        input,
        out,
    } = case;
    let streams = Streams {
        input,
        out,
        clock: StepClock::new(FIRST_MOMENT, 1),
    };
    let (status, streams) = run_client(
        rt,
        alloc,
        words.as_slice(),
        &mut host,
        &mut dialer,
        streams,
        views,
    );
    io::writer(rt).write_all(streams.out.as_bytes())?;
    print_status(rt, status)?;
    print_links(rt, &dialer)
}

/// What shows a channel.
type Parts = (Box<Latest>, Box<Window>, Box<Counts>);

fn parts(alloc: Global) -> Result<Parts, NoMemory> {
    let latest = Box::new(alloc, Latest::new())?;
    let window = Box::new(alloc, Window::new(alloc, WINDOW_LEN)?)?;
    let counts = Box::new(alloc, Counts::new())?;
    Ok((latest, window, counts))
}

fn run_line<R: AllocGlobal + Print + Wait>(
    rt: &R,
    line: &str,
    views: Vec<Box<dyn View>>,
) -> io::Result<()> {
    if line.starts_with("#") {
        return println!(rt; "{line}");
    }
    match case_of(rt.alloc(), line).map_err(|_| AllocError)? {
        Some(case) => run_case(rt, case, views),
        None => println!(rt; "no run"),
    }
}

fn main(rt: HostRuntime) -> io::Result<()> {
    let alloc = rt.alloc();
    for line in BufReader::new(alloc, rt.reader())?.lines(alloc) {
        let line = line?;
        let mut views: Vec<Box<dyn View>> = Vec::new(alloc);
        let (latest, window, counts) = parts(alloc).map_err(|_| AllocError)?;
        views.push(latest)?;
        views.push(window)?;
        views.push(counts)?;
        run_line(&rt, line.as_str(), views)?;
    }
    Ok(())
}
