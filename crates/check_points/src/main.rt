//! Reads the lines of its input as points, and prints the point of each, and behind it the line in which the point is written.
//!
//! A line's first byte gives the kind of the channel: `a` means the first kind of the schema, `b` the next. The input and the expected
//! output were made outside of this product (`outside/check_points.py`). The input's last line is too long.
#![tactic(auto)]

use etp_outside::StdSource;
use etp_values::{DataValue, NoMemory, Point};
use point_lines::{Advance, Lines, lines_of, point_in};
use std::alloc::Global;
use std::io::{self, BufReader, Write};

/// A text between bars, so that blanks show.
fn barred(alloc: Global, text: &str) -> Result<String, NoMemory> {
    Ok(format!(in alloc; "|{text}|")?)
}

/// Bytes as their numbers, each after a space.
fn numbers(alloc: Global, bytes: &[u8]) -> Result<String, NoMemory> {
    let mut text = String::new(alloc);
    for byte in bytes {
        let number = format!(in alloc; " {byte}")?;
        text.push_str(number.as_str())?;
    }
    Ok(text)
}

/// A value of a channel; no line has another.
fn value_text(alloc: Global, value: &DataValue) -> Result<String, NoMemory> {
    match value {
        DataValue::Boolean(truth) => Ok(format!(in alloc; "boolean {truth}")?),
        DataValue::Int(number) => Ok(format!(in alloc; "int {number}")?),
        DataValue::Long(number) => Ok(format!(in alloc; "long {number}")?),
        DataValue::Float(bits) => {
            let bits = bits.0;
            Ok(format!(in alloc; "float {bits}")?)
        }
        DataValue::Double(bits) => {
            let bits = bits.0;
            Ok(format!(in alloc; "double {bits}")?)
        }
        DataValue::String(text) => barred(alloc, text.get().as_str()),
        DataValue::Bytes(bytes) => numbers(alloc, bytes.get().as_bytes()),
        _ => Ok(String::from_str(alloc, "another value")?),
    }
}

/// A point, or that there is none.
fn point_text(alloc: Global, point: Option<Point>) -> Result<String, NoMemory> {
    match point {
        Some(point) => {
            let value = value_text(alloc, &point.value)?;
            let index = point.index;
            Ok(format!(in alloc; "{index} {value}")?)
        }
        None => Ok(String::from_str(alloc, "none")?),
    }
}

/// The point of a line.
fn line_text(alloc: Global, line: &[u8]) -> Result<String, NoMemory> {
    match line {
        [kind, rest @ ..] => {
            let point = point_in(alloc, u32::from(kind.saturating_sub(b'a')), rest)?;
            point_text(alloc, point)
        }
        [] => Ok(String::from_str(alloc, "empty")?),
    }
}

fn print_line(rt: &HostRuntime, line: &[u8]) -> io::Result<()> {
    match line_text(rt.alloc(), line) {
        Ok(text) => println!(rt; "{text}"),
        Err(_) => println!(rt; "no memory"),
    }
}

/// The line in which the point of a line is written.
fn written(alloc: Global, line: &[u8]) -> Result<Option<Vec<u8>>, NoMemory> {
    match line {
        [first, rest @ ..] => {
            let kind = u32::from(first.saturating_sub(b'a'));
            match point_in(alloc, kind, rest)? {
                Some(point) => lines_of(alloc, kind, &[point]),
                None => Ok(None),
            }
        }
        [] => Ok(None),
    }
}

fn print_written(rt: &HostRuntime, line: &[u8]) -> io::Result<()> {
    match written(rt.alloc(), line) {
        Ok(Some(lines)) => io::writer(rt).write_all(lines.as_slice()),
        Ok(None) => Ok(()),
        Err(_) => println!(rt; "no memory"),
    }
}

fn main(rt: HostRuntime) -> io::Result<()> {
    let alloc = rt.alloc();
    let mut input = StdSource::new(BufReader::new(alloc, rt.reader())?);
    let mut lines = Lines::new(alloc);
    for _ in 0..u64::MAX {
        let advance = lines.advance(alloc, &mut input);
        if advance != Advance::Line {
            return println!(rt; "{advance:?}");
        }
        print_line(&rt, lines.line())?;
        print_written(&rt, lines.line())?;
    }
    Ok(())
}
