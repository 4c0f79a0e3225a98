//! Checking whole messages without building a value of their bodies.
ghost use Rattle.std.specs.Prelude.{◌<◌, ◌≤◌, length};
ghost use Rattle.etp_schema.specs.Shapes.{shape_at, table_size};
ghost use Rattle.etp_frame.specs.Reading.{tree_of, body_in};
ghost use Rattle.etp_frame.specs.Parts.{ChecksBody, ChecksMessage};

use crate::error::FrameError;
use crate::header::Header;
use crate::reading::{body_error, read_front};
use avro_bin::span;
use etp_schema::{Side, schema_table};
use std::alloc::Global;

/// The header of these bytes, which `sender` sent, if they are a header, a body and nothing else. They are refused if
/// [`read_message`](crate::read_message) refuses them, for the same reason. Only the names of maps in the body are allocated.
pub fn check_message(alloc: Global, bytes: &[u8], sender: Side) -> Result<Header, FrameError>
    ensures { ChecksMessage result (tree_of sender bytes.now) }
{
    let (header, length, place) = match read_front(alloc, bytes, sender) {
        Ok(front) => front,
        Err(error) => return Err(error),
    };
    match check_body(alloc, header, place, length, bytes) {
        Ok(()) => Ok(header),
        Err(error) => Err(error),
    }
}

/// Succeeds if the bytes from this offset on are a body.
fn check_body(
    alloc: Global,
    header: Header,
    place: u32,
    front: usize,
    bytes: &[u8],
) -> Result<(), FrameError>
    requires place { place < table_size }
    requires front { front ≤ length bytes.now }
    ensures { ChecksBody result (body_in header (shape_at place) front bytes.now) }
{
    let rest = &bytes[front..];
    match span(alloc, schema_table(), place, rest) {
        Ok(length) => {
            if length != rest.len() {
                return Err(FrameError::Rest(header, front + length));
            }
            Ok(())
        }
        Err(refusal) => Err(body_error(header, front, refusal)),
    }
}
