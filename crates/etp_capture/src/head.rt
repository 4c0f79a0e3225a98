//! The 17 bytes that a frame begins with.
ghost use Rattle.std.specs.Prelude.{◌≡◌, ◌≢◌, ◌+◌, ◌≤◌, ◌<◌, OnOk, Err, List, ℕ, [], ◌++◌, take, drop};
ghost use Rattle.etp_capture.specs.Frames.{is_kind, is_length, capture_limit, length_in, frame_of, IsHead};
ghost use Rattle.etp_capture.specs.Reader.{HeadFault};
ghost use Rattle.etp_capture.specs.declared.reader.CaptureError.TheVariants.{ReadFault, NoMemory};

use crate::frame::Frame;
use crate::kinds;
use crate::reader::{CAPTURE_LIMIT, CaptureError};
use etp_values::Blob;

/// How many bytes a frame has before its payload.
pub const HEAD_LEN: usize = 17;

/// The greatest length of a frame's payload.
const FRAME_LIMIT: u32 = 33_554_432;

/// The length of an ending's payload: the number of the end.
const END_LEN: u32 = 1;

/// The length of an ending's payload if an error code follows the number.
const END_WITH_CODE_LEN: u32 = 5;

fn is_kind(kind: u8) -> bool
    ensures { result ≡ is_kind kind }
{
    kind == kinds::IN
        || kind == kinds::POLL
        || kind == kinds::END
        || kind == kinds::OUT
        || kind == kinds::ENDED
}

fn is_length(kind: u8, length: u32) -> bool
    ensures { result ≡ is_length kind length }
{
    length <= FRAME_LIMIT
        && ((kind != kinds::POLL && kind != kinds::END) || length == 0)
        && (kind != kinds::ENDED || length == END_LEN || length == END_WITH_CODE_LEN)
}

/// The length that a head states.
pub(crate) fn length_of(head: &[u8; HEAD_LEN]) -> u32
    ensures { result ≡ length_in head.now }
{
    u32::from_be_bytes([head[13], head[14], head[15], head[16]])
}

/// The frame of a head and its payload.
pub(crate) fn frame_with(head: &[u8; HEAD_LEN], bytes: Blob) -> Frame
    ensures { result ≡ frame_of head.now bytes }
{
    Frame {
        kind: head[0],
        tag: u32::from_be_bytes([head[1], head[2], head[3], head[4]]),
        moment: i64::from_be_bytes([
            head[5], head[6], head[7], head[8], head[9], head[10], head[11], head[12],
        ]),
        bytes,
    }
}

/// The first fault of a head of which `got` bytes were read, at most one byte past the limit.
pub(crate) fn head_fault(head: &[u8; HEAD_LEN], at: u64, got: usize) -> Result<(), CaptureError>
    requires some { 0 < got }
    requires most { got ≤ 17 }
    requires limit { at + got ≤ capture_limit + 1 }
    ensures bytes { (rest : List ℕ) → (at + got ≤ capture_limit → got < 17 → rest ≡ []) → HeadFault result at (take got head.now ++ rest) (drop 17 (take got head.now ++ rest)) }
    ensures fits { OnOk result ((got ≡ 17) × (at + 17 ≤ capture_limit)) }
    ensures head { OnOk result (IsHead head.now) }
    ensures only { (result ≢ Err ReadFault) × (result ≢ Err NoMemory) }
{
    if at >= CAPTURE_LIMIT {
        return Err(CaptureError::Limit);
    }
    if !is_kind(head[0]) {
        return Err(CaptureError::Kind(at));
    }
    if at + got as u64 > CAPTURE_LIMIT {
        return Err(CaptureError::Limit);
    }
    if got < HEAD_LEN {
        return Err(CaptureError::Cut(at));
    }
    if !is_length(head[0], length_of(head)) {
        return Err(CaptureError::Length(at));
    }
    Ok(())
}
