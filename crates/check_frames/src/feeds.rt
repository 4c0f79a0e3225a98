//! Feeds readers the pieces of a line, and prints each answer.
//!
//! A line is the side that sends, `client` or `server`, and the pieces as hexadecimal digits, of which `-` are none. The answers follow one
//! another, and after them comes what the reader finished with. The lines are made by `outside/piece_samples.py`.
use etp_frame::{FrameError, Header, Message, MessageReader, Reading};
use etp_schema::Side;
use std::{fs, io};

fn side_of(word: &str) -> Side {
    match word {
        "server" => Side::Server,
        _ => Side::Client,
    }
}

fn print_answer(rt: &HostRuntime, answer: Reading) -> io::Result<()> {
    match answer {
        Reading::More => println!(rt; "more"),
        Reading::Whole => println!(rt; "whole"),
        Reading::Refused(error) => println!(rt; "refused: {error}"),
    }
}

/// Feeds a reader the piece of these digits.
fn feed(rt: &HostRuntime, reader: &mut MessageReader, digits: &str) -> io::Result<()> {
    let digits = if digits == "-" { "" } else { digits };
    let Ok(piece) = hex::decode(rt.alloc(), digits) else {
        return println!(rt; "no digits");
    };
    match reader.feed(piece.as_slice()) {
        Ok(answer) => print_answer(rt, answer),
        Err(_) => println!(rt; "no memory"),
    }
}

fn print_end(rt: &HostRuntime, end: &Result<(Header, Message), FrameError>) -> io::Result<()> {
    match end {
        Ok(whole) => println!(rt; "finished: {}", whole.0.id),
        Err(error) => println!(rt; "refused at the end: {error}"),
    }
}

/// Feeds a reader the pieces of a line.
fn feed_line(rt: &HostRuntime, line: &str) -> io::Result<()> {
    let words: Vec<&str> = line.split_whitespace().collect(rt.alloc())?;
    let (side, pieces) = match words.as_slice() {
        [side, pieces @ ..] => (*side, pieces),
        [] => return println!(rt; "no side"),
    };
    let mut reader = MessageReader::new(rt.alloc(), side_of(side));
    for digits in pieces {
        feed(rt, &mut reader, digits)?;
    }
    let end = reader.finish();
    let printed = print_end(rt, &end);
    drop(end);
    printed
}

/// Runs the lines in a file.
pub(crate) fn print_feeds(rt: &HostRuntime, file: &str) -> io::Result<()> {
    let text = fs::read_to_string(rt, file)?;
    for line in text.as_str().lines() {
        println!(rt; "{line}")?;
        feed_line(rt, line)?;
    }
    Ok(())
}
