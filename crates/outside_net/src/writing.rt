//! Writing to a stream that does not block.
use crate::bells::Post;
use std::io::{ErrorKind, Write};

/// How long a write waits for the peer to take something, in milliseconds. A peer that takes nothing for this long is a fault.
const WRITE_WAIT: u64 = 30_000;

/// How long a single wait is.
const LOOK_AFTER: u64 = 1_000;

/// Writes all of these bytes to a stream, and waits at its post while it takes nothing. False if the stream fails, or takes nothing for too
/// long.
pub(crate) fn write_all<S: Write>(stream: &mut S, post: &mut Post, bytes: &[u8]) -> bool {
    let mut rest = bytes;
    let mut waited = 0u64;
    for _ in 0..u64::MAX {
        if rest.is_empty() {
            return true;
        }
        match write_some(stream, post, rest) {
            Wrote::Bytes(count) => {
                rest = rest.get(count..).unwrap_or(&[]);
                waited = 0;
            }
            Wrote::Waited(lasted) => {
                waited = waited.saturating_add(lasted);
                if waited >= WRITE_WAIT {
                    return false;
                }
            }
            Wrote::Failed => return false,
        }
    }
    false
}

/// What came of one write.
enum Wrote {
    /// This many bytes were taken, at least one.
    Bytes(usize),
    /// None was taken, and this many milliseconds count as waited.
    Waited(u64),
    Failed,
}

/// Writes once, and waits if the stream takes nothing.
fn write_some<S: Write>(stream: &mut S, post: &mut Post, bytes: &[u8]) -> Wrote {
    match stream.write(bytes) {
        Ok(0) => Wrote::Failed,
        Ok(count) => Wrote::Bytes(count),
        Err(error) => match error.kind() {
            ErrorKind::Interrupted => Wrote::Waited(0),
            ErrorKind::WouldBlock | ErrorKind::TimedOut => match post.wait_for_room(LOOK_AFTER) {
                Some(lasted) => Wrote::Waited(lasted),
                None => Wrote::Failed,
            },
            _ => Wrote::Failed,
        },
    }
}
