//! Runs the tool on cases, and prints what it wrote and how it ended.
//!
//! A line of the input is a case, `CUT OPENING CONFIG READ WRITE CAPTURE WORD..`: the words are those of the tool, CAPTURE is its input
//! (`captures`), and its output is in memory. The input gives one byte at a time, or 65,536 if it has more bytes than that. OPENING, CONFIG, READ
//! and WRITE, if they are not 0, are the numbers of the call that fails: of the openings of files, the reads of the configuration, the reads of
//! the input, and the writes. The tool is run on the capture and on each of its prefixes that is up to CUT bytes shorter. Of an input that was made for the case, and of an output of 400,000 bytes or more, the length and a digest are printed. The
//! cases and the expected output were made by a program that shares no code with this one (`outside/check_tool.py`). After the cases the
//! tool is run over a system that fails, and the program ends as that does.
//! How often the host, the input and the output of a case failed is printed if one did.
#![tactic(auto)]

mod captures;
mod digest;
mod runs;

use crate::captures::read_capture;
use crate::digest::digest;
use crate::runs::{Faults, Ran, run_case};
use etp_outside::{Status, StdSink};
use faulty_system::FaultySystem;
use std::io::{self, BufRead, BufReader, Write};
use std::process::ExitCode;
use tool_forms::{finish, run_program};

/// The size from which an output is printed as its digest, in bytes.
const LONG: usize = 400_000;

/// Prints how long an input or an output is, and its digest.
fn print_digest(rt: &HostRuntime, bytes: &[u8]) -> io::Result<()> {
    println!(rt; "{} bytes of the digest {}", bytes.len(), digest(bytes))
}

fn print_output(rt: &HostRuntime, bytes: &[u8]) -> io::Result<()> {
    if bytes.len() >= LONG {
        return print_digest(rt, bytes);
    }
    io::writer(rt).write_all(bytes)
}

/// Prints how often the host, the input and the output of a run failed, if one did.
fn print_faults(rt: &HostRuntime, ran: &Ran) -> io::Result<()> {
    let (host, input, out) = (ran.host, ran.input, ran.out.faults());
    if host == 0 && input == 0 && out == 0 {
        return Ok(());
    }
    println!(rt; "failed: host {host} input {input} output {out}")
}

/// Runs the tool on a capture, and prints how that ended.
fn print_case(
    rt: &HostRuntime,
    words: &[String],
    faults: Faults,
    capture: &[u8],
) -> io::Result<()> {
    match run_case(rt, words, faults, capture) {
        Ok(ran) => {
            print_output(rt, ran.out.as_bytes())?;
            let number = ran.status.number();
            println!(rt; "\n= {number}")?;
            let mut told = StdSink::new(io::writer(rt));
            if finish(rt.alloc(), ran.status, &mut told) != ExitCode::from(number) {
                println!(rt; "another exit status")?;
            }
            print_faults(rt, &ran)
        }
        Err(_) => println!(rt; "no memory"),
    }
}

/// The number that a word denotes, or 0.
fn number_in(word: &String) -> u64 {
    word.as_str().parse::<u64>().unwrap_or(0)
}

/// The capture of these parts. Of one that was made for the case a digest is printed.
fn capture_of(rt: &HostRuntime, parts: &str) -> io::Result<Vec<u8>> {
    let capture = read_capture(rt, parts)?;
    if parts.contains(':') {
        print_digest(rt, capture.as_slice())?;
    }
    Ok(capture)
}

/// Runs the case of a line on its capture and on prefixes of it.
fn run_line(rt: &HostRuntime, line: &str) -> io::Result<()> {
    println!(rt; "# {line}")?;
    let mut words = Vec::new(rt.alloc());
    for word in line.split(' ') {
        words.push(String::from_str(rt.alloc(), word)?)?;
    }
    let [cut, opening, config, read, write, parts, rest @ ..] = words.as_slice() else {
        return println!(rt; "no case");
    };
    let faults = Faults {
        opening: number_in(opening),
        config: number_in(config),
        read: number_in(read),
        write: number_in(write),
    };
    let capture = capture_of(rt, parts.as_str())?;
    let cut = number_in(cut).min(capture.len() as u64) as usize;
    for less in 0..=cut {
        print_case(
            rt,
            rest,
            faults,
            &capture.as_slice()[..capture.len() - less],
        )?;
    }
    Ok(())
}

fn run_lines(rt: &HostRuntime) -> io::Result<()> {
    let lines = BufReader::new(rt.alloc(), rt.reader())?.lines(rt.alloc());
    for line in lines {
        let line = line?;
        run_line(rt, line.as_str())?;
    }
    Ok(())
}

/// Runs the tool over a system whose output takes nothing and whose files get no memory: it ends with status 5 if it has a capture to show,
/// and with status 6 if it has a configuration to read. Returns the second, after the first. What each writes to standard error is printed
/// here.
fn run_over_faults(rt: &HostRuntime) -> ExitCode {
    let mut told = StdSink::new(io::writer(rt));
    let words = ["etptool", "show"];
    let shown = run_program(&FaultySystem::new(rt, &words), &mut told);
    if shown != ExitCode::from(Status::WriteFault.number()) {
        return ExitCode::FAILURE;
    }
    let words = ["etptool", "replay", "server.toml"];
    run_program(&FaultySystem::new(rt, &words), &mut told)
}

fn main(rt: HostRuntime) -> ExitCode {
    match run_lines(&rt) {
        Ok(()) => run_over_faults(&rt),
        Err(_) => ExitCode::FAILURE,
    }
}
