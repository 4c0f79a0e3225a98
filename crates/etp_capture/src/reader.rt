//! Reads a capture frame by frame.
ghost use Rattle.std.specs.Prelude.{◌≡◌, ◌≢◌, ◌⊎◌, ◌+◌, ◌≤◌, ◌<◌, IfOk, IfErr, IfSome, Err, length, None, max};
ghost use Rattle.std.specs.Io.KnownBytes.{Keeps};
ghost use Rattle.etp_outside.specs.Faults.{Rose};
ghost use Rattle.etp_outside.specs.Told.{Told};
ghost use Rattle.etp_capture.specs.Frames.{capture_limit, length_in, IsFrame, IsHead};
ghost use Rattle.etp_capture.specs.Found.{found, next_found};
ghost use Rattle.etp_capture.specs.Reader.{Answers, HeadOf, BodyOf, MagicOf, Begins, TakesUp, begun, after};
ghost use Rattle.etp_capture.specs.declared.reader.CaptureError.TheVariants.{Magic, ReadFault, NoMemory};

use crate::frame::{Frame, MAGIC, MAGIC_LEN};
use crate::head::{HEAD_LEN, frame_with, head_fault, length_of};
use etp_outside::{Filled, Source, fill};
use etp_values::Blob;
use std::alloc::Global;
use std::marker::Model;
use thiserror::Error;

/// The greatest number of bytes of a capture.
pub(crate) const CAPTURE_LIMIT: u64 = 1_073_741_824;

/// The offset of a capture's first frame, after the magic.
const FIRST_PLACE: u64 = 8;

/// Why no frame was read. An offset is that of the frame's first byte in the capture.
#[derive(Clone, Copy, Debug, PartialEq, Eq, Error)]
pub enum CaptureError {
    /// The input does not begin with the eight bytes of a capture.
    #[error("the input does not begin with ETPCAP01")]
    Magic,
    /// The frame at this offset has a kind that does not exist.
    #[error("the frame at offset {0} has no known kind")]
    Kind(u64),
    /// The frame at this offset states a length that its kind can't have.
    #[error("the frame at offset {0} states a length that its kind can't have")]
    Length(u64),
    /// The input ended within the frame at this offset.
    #[error("the input ended in the frame at offset {0}")]
    Cut(u64),
    /// The input has more bytes than a capture may have: byte 1,073,741,825 was reached.
    #[error("the input has more than {CAPTURE_LIMIT} bytes")]
    Limit,
    /// The source failed.
    #[error("the source failed")]
    ReadFault,
    /// Out of memory.
    #[error("out of memory")]
    NoMemory,
}

/// Reads a capture. After an error it returns that error again at each further call, and reads no more.
#[derive(Debug)]
pub struct CaptureReader {
    at: u64,
    failed: Option<CaptureError>,
}

/// Written out, so that whatever holds one drops it by a single call.
impl Drop for CaptureReader {
    fn drop(self) {
        let CaptureReader { at: _, failed } = self;
        drop(failed);
    }
}

impl Model for CaptureReader {
    ghost use Rattle.std.specs.Prelude.{◌≤◌};
    ghost use Rattle.etp_capture.specs.Frames.{capture_limit};
    ghost use Rattle.etp_capture.specs.Reader.{Reader};

    ghost Value = { Reader };

    ghost view = { λ r. record { at = r.at; failed = r.failed } };

    ghost invariant = { λ r. r.at ≤ capture_limit };
}

impl CaptureReader {
    /// A reader at the beginning of a capture, before its magic.
    pub fn new() -> CaptureReader
        ensures { result ≡ record { at = 0; failed = None } }
    {
        CaptureReader {
            at: 0,
            failed: None,
        }
    }

    /// The offset of the next frame, which is 8 for the first; below 8 the magic was not read yet.
    pub fn at(&self) -> u64
        ensures place { result ≡ self.now.at }
        ensures within { result ≤ capture_limit }
    {
        self.at
    }

    /// Reads the magic, unless it was read before. So a caller can tell a capture from another input before its first frame.
    pub fn begin<S: Source>(&mut self, source: &mut S) -> Result<(), CaptureError>
        ensures again { IfSome self.old.failed (λ e. (result ≡ Err e) × Keeps (S.left source.old) (S.left source.new)) }
        ensures bytes { self.old.failed ≡ None → Told (S.left source.old) (S.left source.new) (Begins result self.old.at) }
        ensures errors { self.old.failed ≡ None → IfErr result (λ e. (self.old.at < 8) × ((e ≡ Magic) ⊎ (e ≡ ReadFault))) }
        ensures state { self.new ≡ begun self.old result }
        ensures kept { S.faults source.old ≤ S.faults source.new }
        ensures cause { self.old.failed ≡ None → result ≡ Err ReadFault → Rose (S.faults source.old) (S.faults source.new) }
    {
        if let Some(e) = self.failed {
            return Err(e);
        }
        if self.at >= FIRST_PLACE {
            return Ok(());
        }
        match read_magic(source) {
            Ok(()) => {
                self.at = FIRST_PLACE;
                Ok(())
            }
            Err(e) => Err(self.fail(e)),
        }
    }

    /// Keeps an error, to be returned again.
    fn fail(&mut self, e: CaptureError) -> CaptureError
        ensures error { result ≡ e }
        ensures state { self.new ≡ record { at = self.old.at; failed = Some e } }
    {
        self.failed = Some(e);
        e
    }

    /// The next frame, or `None` if the input ended after the magic or a whole frame. It reads the magic first, unless that was read
    /// before, and leaves the source just after what it returns.
    pub fn next<S: Source>(
        &mut self,
        alloc: Global,
        source: &mut S,
    ) -> Result<Option<Frame>, CaptureError>
        ensures again { IfSome self.old.failed (λ e. (result ≡ Err e) × Keeps (S.left source.old) (S.left source.new)) }
        ensures bytes { self.old.failed ≡ None → Told (S.left source.old) (S.left source.new) (Answers result (next_found self.old.at)) }
        ensures state { self.new ≡ after self.old result }
        ensures frame { IfOk result (λ answer. IfSome answer IsFrame) }
        ensures within { self.new.at ≤ capture_limit }
        ensures kept { S.faults source.old ≤ S.faults source.new }
        ensures cause { self.old.failed ≡ None → result ≡ Err ReadFault → Rose (S.faults source.old) (S.faults source.new) }
    {
        if let Some(e) = self.failed {
            return Err(e);
        }
        match read_next(alloc, source, self.at) {
            Ok(None) => {
                self.at = self.at.max(FIRST_PLACE);
                Ok(None)
            }
            Ok(Some(frame)) => {
                self.at = self.at.max(FIRST_PLACE)
                    + HEAD_LEN as u64
                    + frame.bytes.as_bytes().len() as u64;
                Ok(Some(frame))
            }
            Err(e) => Err(self.fail(e)),
        }
    }
}

/// What comes next from the offset `at`, after the magic if that was not read yet.
fn read_next<S: Source>(
    alloc: Global,
    source: &mut S,
    at: u64,
) -> Result<Option<Frame>, CaptureError>
    requires { at ≤ capture_limit }
    ensures bytes { Told (S.left source.old) (S.left source.new) (Answers result (next_found at)) }
    ensures frame { IfOk result (λ answer. IfSome answer IsFrame) }
    ensures fits { IfOk result (λ answer. IfSome answer (λ frame. max at 8 + 17 + length frame.bytes ≤ capture_limit)) }
    ensures kept { S.faults source.old ≤ S.faults source.new }
    ensures cause { result ≡ Err ReadFault → Rose (S.faults source.old) (S.faults source.new) }
{
    if at >= FIRST_PLACE {
        return read_frame(alloc, source, at);
    }
    match read_magic(source) {
        Ok(()) => read_frame(alloc, source, FIRST_PLACE),
        Err(e) => Err(e),
    }
}

/// Reads the eight bytes that a capture begins with.
fn read_magic<S: Source>(source: &mut S) -> Result<(), CaptureError>
    ensures bytes { Told (S.left source.old) (S.left source.new) (MagicOf result) }
    ensures errors { IfErr result (λ e. (e ≡ Magic) ⊎ (e ≡ ReadFault)) }
    ensures kept { S.faults source.old ≤ S.faults source.new }
    ensures cause { result ≡ Err ReadFault → Rose (S.faults source.old) (S.faults source.new) }
{
    let mut bytes = [0u8; MAGIC_LEN];
    let Some(got) = read_up(source, &mut bytes) else {
        return Err(CaptureError::ReadFault);
    };
    if got < MAGIC_LEN {
        return Err(CaptureError::Magic);
    }
    if bytes != MAGIC {
        return Err(CaptureError::Magic);
    }
    Ok(())
}

/// The frame at an offset; `None` at the end of the input.
fn read_frame<S: Source>(
    alloc: Global,
    source: &mut S,
    at: u64,
) -> Result<Option<Frame>, CaptureError>
    requires { at ≤ capture_limit }
    ensures bytes { Told (S.left source.old) (S.left source.new) (Answers result (found at)) }
    ensures frame { IfOk result (λ answer. IfSome answer IsFrame) }
    ensures fits { IfOk result (λ answer. IfSome answer (λ frame. at + 17 + length frame.bytes ≤ capture_limit)) }
    ensures kept { S.faults source.old ≤ S.faults source.new }
    ensures cause { result ≡ Err ReadFault → Rose (S.faults source.old) (S.faults source.new) }
{
    let head = match read_head(source, at) {
        Ok(Some(head)) => head,
        Ok(None) => return Ok(None),
        Err(e) => return Err(e),
    };
    match read_body(alloc, source, at, &head) {
        Ok(bytes) => Ok(Some(frame_with(&head, bytes))),
        Err(e) => Err(e),
    }
}

/// The 17 bytes at a frame's offset; `None` if the input has ended.
fn read_head<S: Source>(source: &mut S, at: u64) -> Result<Option<[u8; HEAD_LEN]>, CaptureError>
    requires { at ≤ capture_limit }
    ensures bytes { Told (S.left source.old) (S.left source.new) (HeadOf result at) }
    ensures fits { IfOk result (λ answer. IfSome answer (λ head. at + 17 ≤ capture_limit)) }
    ensures head { IfOk result (λ answer. IfSome answer IsHead) }
    ensures kept { S.faults source.old ≤ S.faults source.new }
    ensures cause { result ≡ Err ReadFault → Rose (S.faults source.old) (S.faults source.new) }
    ensures none { result ≢ Err NoMemory }
{
    let want = ((CAPTURE_LIMIT - at) as usize + 1).min(HEAD_LEN);
    let mut head = [0u8; HEAD_LEN];
    let got = match read_up(source, &mut head[..want]) {
        Some(got) => got,
        None => return Err(CaptureError::ReadFault),
    };
    if got == 0 {
        return Ok(None);
    }
    match head_fault(&head, at, got) {
        Ok(()) => Ok(Some(head)),
        Err(e) => Err(e),
    }
}

/// The payload that a head states.
fn read_body<S: Source>(
    alloc: Global,
    source: &mut S,
    at: u64,
    head: &[u8; HEAD_LEN],
) -> Result<Blob, CaptureError>
    requires { at + 17 ≤ capture_limit }
    ensures bytes { Told (S.left source.old) (S.left source.new) (BodyOf result at head.now) }
    ensures stated { IfOk result (λ body. length body ≡ length_in head.now) }
    ensures fits { IfOk result (λ body. at + 17 + length body ≤ capture_limit) }
    ensures kept { S.faults source.old ≤ S.faults source.new }
    ensures cause { result ≡ Err ReadFault → Rose (S.faults source.old) (S.faults source.new) }
{
    let length = length_of(head) as usize;
    let room = (CAPTURE_LIMIT - at) as usize - HEAD_LEN;
    let want = length.min(room + 1);
    let Ok(mut bytes) = vec![in alloc; 0u8; want] else {
        return Err(CaptureError::NoMemory);
    };
    let Some(got) = read_up(source, bytes.as_mut_slice()) else {
        return Err(CaptureError::ReadFault);
    };
    if got > room {
        return Err(CaptureError::Limit);
    }
    if got < length {
        return Err(CaptureError::Cut(at));
    }
    match Blob::from_vec(bytes) {
        Ok(body) => Ok(body),
        Err(_) => Err(CaptureError::NoMemory),
    }
}

/// Fills the buffer, or as much of it as the input has; `None` if the source fails.
fn read_up<S: Source>(source: &mut S, buf: &mut [u8]) -> Option<usize>
    ensures bytes { Told (S.left source.old) (S.left source.new) (TakesUp result buf.new) }
    ensures within { IfSome result (λ got. got ≤ length buf.new) }
    ensures kept { S.faults source.old ≤ S.faults source.new }
    ensures cause { result ≡ None → Rose (S.faults source.old) (S.faults source.new) }
{
    match fill(source, buf) {
        Filled::Full => Some(buf.len()),
        Filled::Short(got) => Some(got),
        Filled::Failed => None,
    }
}
