//! What clients and servers saw, in words.
use crate::client::{Call, Seen};
use crate::server::Heard;
use etp_values::Blob;
use std::alloc::{AllocError, Global};
use std::io;

/// The fields of a request that are printed. A server does not depend on their order.
const FIELDS: [&str; 6] = [
    "Host",
    "Upgrade",
    "Connection",
    "Sec-WebSocket-Key",
    "Sec-WebSocket-Version",
    "Sec-WebSocket-Protocol",
];

/// Prints the first line of a request and the values of its fields, with PORT in place of the port.
pub(crate) fn print_request<R: AllocGlobal + Print>(
    rt: &R,
    request: &[u8],
    port: u16,
) -> io::Result<()> {
    let Ok(text) = std::str::from_utf8(request) else {
        return println!(rt; "no text");
    };
    let first = text.lines().next().unwrap_or("");
    println!(rt; "request: {first}")?;
    let port = format!(in rt.alloc(); ":{port}")?;
    for name in FIELDS {
        print_field(rt, text, name, port.as_str())?;
    }
    Ok(())
}

/// Prints each value that a request has for a field.
fn print_field<R: AllocGlobal + Print>(
    rt: &R,
    text: &str,
    name: &str,
    port: &str,
) -> io::Result<()> {
    for line in text.lines() {
        if let Some(value) = value_in(line, name) {
            print_value(rt, name, value, port)?;
        }
    }
    Ok(())
}

fn print_value<R: AllocGlobal + Print>(
    rt: &R,
    name: &str,
    value: &str,
    port: &str,
) -> io::Result<()> {
    match value.strip_suffix(port) {
        Some(host) => println!(rt; "{name}: {host}:PORT"),
        None => println!(rt; "{name}: {value}"),
    }
}

/// The value in a line of a field.
pub(crate) fn value_in<'a>(line: &'a str, name: &str) -> Option<&'a str> {
    let (field, value) = line.split_once(": ")?;
    if field.eq_ignore_ascii_case(name) {
        Some(value)
    } else {
        None
    }
}

/// What a client saw, in words.
pub(crate) fn seen_text(alloc: Global, seen: &Seen) -> Result<String, AllocError> {
    match seen.call {
        Call::Linked => got_text(alloc, seen),
        Call::Refused => String::from_str(alloc, "refused"),
        Call::NoMemory => String::from_str(alloc, "no memory"),
    }
}

fn got_text(alloc: Global, seen: &Seen) -> Result<String, AllocError> {
    let end = if seen.ended { ", then the end" } else { "" };
    match &seen.got {
        Some(message) => message_text(alloc, message, end),
        None => format!(in alloc; "no message{end}"),
    }
}

fn message_text(alloc: Global, message: &Blob, end: &str) -> Result<String, AllocError> {
    let digits = hex::encode_upper(alloc, message.as_bytes())?;
    format!(in alloc; "got {digits}{end}")
}

/// What a server read after the request, in words.
pub(crate) fn heard_text(alloc: Global, heard: &Heard) -> Result<String, AllocError> {
    let end = if heard.hung_up { "the end" } else { "no end" };
    if heard.frames.is_empty() {
        return format!(in alloc; "heard {end}");
    }
    let digits = hex::encode_upper(alloc, heard.frames.as_slice())?;
    format!(in alloc; "heard {digits}, then {end}")
}
