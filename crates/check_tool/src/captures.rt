//! The captures that cases are run on, composed of parts with a `+` between them. A part is the name of a file, or is made here:
//!
//! - `COUNT` is that many zeros;
//! - `points:MOMENT:COUNT` is COUNT messages of the tag 0, from that moment on, one a moment: message K, from 0 on, has the id 2 K + 6, and
//!   appends to channel 0 a point at index K with the value K;
//! - `polls:MOMENT:COUNT` is COUNT polls of the tag 1, from that moment on, one a moment;
//! - `load:N` is what the tool itself writes as the capture of a load of N messages.

use crate::runs::{NO_FAULTS, run_case};
use std::alloc::Global;
use std::{fs, io};

/// Appends the head of a frame.
fn push_head(into: &mut Vec<u8>, kind: u8, tag: u32, moment: i64, length: u32) -> io::Result<()> {
    into.push(kind)?;
    into.extend_from_slice(&tag.to_be_bytes())?;
    into.extend_from_slice(&moment.to_be_bytes())?;
    into.extend_from_slice(&length.to_be_bytes())?;
    Ok(())
}

/// Appends the shortest spelling of a non-negative long.
fn push_long(into: &mut Vec<u8>, value: u32) -> io::Result<()> {
    let mut left = 2 * u64::from(value);
    for _ in 0..4 {
        if left >= 128 {
            into.push((left % 128 + 128) as u8)?;
            left /= 128;
        }
    }
    into.push((left % 128) as u8)?;
    Ok(())
}

/// The message LoadChannelData that appends the point of this number.
fn append_point(alloc: Global, number: u32) -> io::Result<Vec<u8>> {
    let mut message = Vec::new(alloc);
    message.extend_from_slice(&[44, 8, 0])?;
    push_long(&mut message, number.saturating_mul(2).saturating_add(6))?;
    message.extend_from_slice(&[4, 2, 0, 2, 2])?;
    push_long(&mut message, number)?;
    message.extend_from_slice(&[0, 6])?;
    push_long(&mut message, number)?;
    message.extend_from_slice(&[0, 0])?;
    Ok(message)
}

/// Appends this many points, a frame each.
fn push_points(alloc: Global, into: &mut Vec<u8>, moment: i64, count: u32) -> io::Result<()> {
    for number in 0..count {
        let message = append_point(alloc, number)?;
        let at = moment.wrapping_add(i64::from(number));
        let length = u32::try_from(message.len()).unwrap_or(0);
        push_head(into, 1, 0, at, length)?;
        into.extend_from_slice(message.as_slice())?;
    }
    Ok(())
}

/// Appends this many polls, a frame each.
fn push_polls(into: &mut Vec<u8>, moment: i64, count: u32) -> io::Result<()> {
    for number in 0..count {
        let at = moment.wrapping_add(i64::from(number));
        push_head(into, 2, 1, at, 0)?;
    }
    Ok(())
}

/// Appends the capture of a load, as the tool writes it.
fn push_load(rt: &HostRuntime, into: &mut Vec<u8>, size: &str) -> io::Result<()> {
    let alloc = rt.alloc();
    let mut words = Vec::new(alloc);
    words.push(String::from_str(alloc, "capture")?)?;
    words.push(String::from_str(alloc, size)?)?;
    match run_case(rt, words.as_slice(), NO_FAULTS, &[]) {
        Ok(ran) => {
            into.extend_from_slice(ran.out.as_bytes())?;
            Ok(())
        }
        Err(_) => Ok(()),
    }
}

/// Appends frames from a moment on; none for an unknown form.
fn push_frames(
    alloc: Global,
    into: &mut Vec<u8>,
    form: &str,
    moment: &str,
    count: &str,
) -> io::Result<()> {
    let moment = moment.parse::<i64>().unwrap_or(0);
    let count = count.parse::<u32>().unwrap_or(0);
    match form {
        "points" => push_points(alloc, into, moment, count),
        "polls" => push_polls(into, moment, count),
        _ => Ok(()),
    }
}

/// Appends a part that is made by a form.
fn push_made(rt: &HostRuntime, into: &mut Vec<u8>, form: &str, rest: &str) -> io::Result<()> {
    match rest.split_once(':') {
        Some((moment, count)) => push_frames(rt.alloc(), into, form, moment, count),
        None => push_load(rt, into, rest),
    }
}

/// Appends zeros if the part is a number, otherwise a file.
fn push_plain(rt: &HostRuntime, into: &mut Vec<u8>, part: &str) -> io::Result<()> {
    let bytes = match part.parse::<u32>() {
        Ok(count) => vec![in rt.alloc(); 0u8; count as usize]?,
        Err(_) => fs::read(rt, part)?,
    };
    into.extend_from_slice(bytes.as_slice())?;
    Ok(())
}

fn push_part(rt: &HostRuntime, into: &mut Vec<u8>, part: &str) -> io::Result<()> {
    match part.split_once(':') {
        Some((form, rest)) => push_made(rt, into, form, rest),
        None => push_plain(rt, into, part),
    }
}

/// The capture of these parts.
pub(crate) fn read_capture(rt: &HostRuntime, parts: &str) -> io::Result<Vec<u8>> {
    let mut capture = Vec::new(rt.alloc());
    for part in parts.split('+') {
        push_part(rt, &mut capture, part)?;
    }
    Ok(capture)
}
