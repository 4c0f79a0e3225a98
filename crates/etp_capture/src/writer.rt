//! Writes a capture frame by frame.
ghost use Rattle.std.specs.Prelude.{◌≡◌, ◌≢◌, ◌≤◌, ◌++◌, Err};
ghost use Rattle.etp_outside.specs.Faults.{Rose};
ghost use Rattle.etp_capture.specs.Frames.{magic, frame_bytes};
ghost use Rattle.etp_capture.specs.Writer.{IsWritable, Puts};

use crate::frame::{Frame, MAGIC, push_head};
use etp_outside::{Sink, Written, write_all};
use etp_values::NoMemory;
use std::alloc::Global;
use std::marker::Model;
use thiserror::Error;

/// Why a frame was not written.
#[derive(Clone, Copy, Debug, PartialEq, Eq, Error)]
pub enum PutError {
    /// The sink failed. It took some of the first bytes, but not all.
    #[error("the sink failed")]
    WriteFault,
    /// Out of memory; nothing was written.
    #[error("out of memory")]
    NoMemory,
}

impl From<NoMemory> for PutError {
    ghost use Rattle.std.specs.Prelude.{◌≡◌};
    ghost use Rattle.etp_capture.specs.declared.writer.PutError.TheVariants.{NoMemory};

    ghost from_gives = { λ _ e. e ≡ NoMemory };

    fn from(_error: NoMemory) -> PutError {
        PutError::NoMemory
    }
}

/// The longest payload that is copied after its head, so that both go to the sink in one write.
const GATHERED: usize = 65_536;

/// Writes a capture. Between two calls it keeps nothing but room for a frame.
#[derive(Debug, Drop)]
pub struct CaptureWriter {
    gathered: Vec<u8>,
}

impl Model for CaptureWriter {
    ghost Value = { Unit {0} };

    ghost view = { λ w. tt };
}

impl CaptureWriter {
    /// A writer. A contract sees nothing of it.
    pub fn new(alloc: Global) -> CaptureWriter
        ensures { result ≡ tt }
    {
        CaptureWriter {
            gathered: Vec::new(alloc),
        }
    }

    /// Writes the eight bytes that a capture begins with. It does not allocate.
    pub fn begin<W: Sink>(&mut self, sink: &mut W) -> Result<(), PutError>
        ensures bytes { Puts result magic (W.held sink.old) (W.held sink.new) }
        ensures memory { result ≢ Err PutError.NoMemory }
        ensures kept { W.faults sink.old ≤ W.faults sink.new }
        ensures cause { result ≡ Err PutError.WriteFault → Rose (W.faults sink.old) (W.faults sink.new) }
    {
        put_piece(sink, &MAGIC)
    }

    /// Writes a frame. A message is written even if its length is above what a reader accepts; for 2^32 bytes and more the frame states the
    /// length modulo 2^32.
    pub fn put<W: Sink>(&mut self, sink: &mut W, frame: &Frame) -> Result<(), PutError>
        requires { IsWritable frame.now }
        ensures bytes { Puts result (frame_bytes frame.now) (W.held sink.old) (W.held sink.new) }
        ensures kept { W.faults sink.old ≤ W.faults sink.new }
        ensures cause { result ≡ Err PutError.WriteFault → Rose (W.faults sink.old) (W.faults sink.new) }
    {
        let bytes = frame.bytes.as_bytes();
        self.gathered.clear();
        push_head(
            &mut self.gathered,
            frame.kind,
            frame.tag,
            frame.moment,
            bytes.len() as u64,
        )?;
        if bytes.len() > GATHERED {
            return put_parts(sink, self.gathered.as_slice(), bytes);
        }
        self.gathered
            .extend_from_slice(bytes)
            .map_err(NoMemory::from)?;
        put_piece(sink, self.gathered.as_slice())
    }
}

/// Writes one piece.
fn put_piece<W: Sink>(sink: &mut W, piece: &[u8]) -> Result<(), PutError>
    ensures bytes { Puts result piece.now (W.held sink.old) (W.held sink.new) }
    ensures memory { result ≢ Err PutError.NoMemory }
    ensures kept { W.faults sink.old ≤ W.faults sink.new }
    ensures cause { result ≡ Err PutError.WriteFault → Rose (W.faults sink.old) (W.faults sink.new) }
{
    match write_all(sink, piece) {
        Written::Done => Ok(()),
        Written::Failed => Err(PutError::WriteFault),
    }
}

/// Writes two pieces.
fn put_parts<W: Sink>(sink: &mut W, head: &[u8], bytes: &[u8]) -> Result<(), PutError>
    ensures bytes { Puts result (head.now ++ bytes.now) (W.held sink.old) (W.held sink.new) }
    ensures kept { W.faults sink.old ≤ W.faults sink.new }
    ensures cause { result ≡ Err PutError.WriteFault → Rose (W.faults sink.old) (W.faults sink.new) }
{
    match put_piece(sink, head) {
        Ok(()) => put_piece(sink, bytes),
        Err(e) => Err(e),
    }
}
