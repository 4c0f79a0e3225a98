//! One frame of a capture, and its bytes.
ghost use Rattle.std.specs.Prelude.{◌≡◌, ◌++◌, OnOk, OnErr};
ghost use Rattle.std.specs.Io.{StartsWith};
ghost use Rattle.std.specs.Int.{to_be_bytes, cast_unsigned, w64};
ghost use Rattle.etp_capture.specs.Frames.{head_bytes, frame_bytes, magic};

use etp_values::{Blob, NoMemory};

/// A frame of a capture.
#[derive(Debug, Drop)]
pub struct Frame {
    /// What the frame is, by a number of [`kinds`](crate::kinds).
    pub kind: u8,
    /// The session that it belongs to, by a number that the capture assigns.
    pub tag: u32,
    /// When it happened, in microseconds since 1970-01-01 UTC.
    pub moment: i64,
    /// The payload.
    pub bytes: Blob,
}

/// How many bytes a capture has before its first frame.
pub(crate) const MAGIC_LEN: usize = 8;

/// The bytes that a capture begins with.
pub(crate) const MAGIC: [u8; MAGIC_LEN] = *b"ETPCAP01";

/// Appends the eight bytes that a capture begins with. An error loses nothing of what was there.
pub fn push_magic(into: &mut Vec<u8>) -> Result<(), NoMemory>
    ensures ok { OnOk result (into.new.items ≡ into.old.items ++ magic) }
    ensures err { OnErr result (StartsWith into.new.items into.old.items) }
{
    into.extend_from_slice(&MAGIC)?;
    Ok(())
}

/// Appends the bytes of a frame. For a payload of 2^32 bytes or more the stated length is its length modulo 2^32. An error loses nothing of
/// what was there.
pub fn push_frame(into: &mut Vec<u8>, frame: &Frame) -> Result<(), NoMemory>
    ensures ok { OnOk result (into.new.items ≡ into.old.items ++ frame_bytes frame.now) }
    ensures err { OnErr result (StartsWith into.new.items into.old.items) }
{
    let bytes = frame.bytes.as_bytes();
    push_head(
        into,
        frame.kind,
        frame.tag,
        frame.moment,
        bytes.len() as u64,
    )?;
    into.extend_from_slice(bytes)?;
    Ok(())
}

/// Appends the 17 bytes that a frame begins with.
pub(crate) fn push_head(
    into: &mut Vec<u8>,
    kind: u8,
    tag: u32,
    moment: i64,
    length: u64,
) -> Result<(), NoMemory>
    ensures ok { OnOk result (into.new.items ≡ into.old.items ++ head_bytes kind tag moment length) }
    ensures err { OnErr result (StartsWith into.new.items into.old.items) }
{
    into.push(kind)?;
    into.extend_from_slice(&tag.to_be_bytes())?;
    into.extend_from_slice(&moment_bytes(moment))?;
    let stated = (length % (1 << 32)) as u32;
    into.extend_from_slice(&stated.to_be_bytes())?;
    Ok(())
}

fn moment_bytes(moment: i64) -> [u8; 8]
    ensures { result ≡ to_be_bytes w64 (cast_unsigned w64 moment) }
{
    moment.to_be_bytes()
}
