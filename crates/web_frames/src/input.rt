//! The bytes that have come and were not taken yet.
ghost use Rattle.std.specs.Prelude.{◌≡◌, ◌++◌, ◌≤◌, ◌<◌, length, take, drop, vec_len, IfOk, OnOk, OnErr, IfErr};
ghost use Rattle.websocket.specs.Connection.{failed_connection, read_step};
ghost use Rattle.websocket.specs.Mask.{apply_mask_if};
ghost use Rattle.websocket.specs.View.{GivesError, KeepsRest, ReadLeaves, Returns};
ghost use Rattle.web_frames.specs.Input.{Fills, bytes_of};

use crate::buffer::Input;
use std::alloc::AllocError;
use std::io::{ErrorKind, Read};
use websocket::error::Error;
use websocket::protocol::frame::{FrameStatus, MaskKeys, apply_mask};
use websocket::protocol::{Step, WebSocketContext};

/// How many bytes the first read of a stream asks for, and how many a read asks for at most. If a read brought all that it asked for, the
/// next asks for four times as much.
const FIRST_READ: usize = 16_384;

const LONGEST_READ: usize = 262_144;

/// What came of one read of a stream.
#[derive(Clone, Copy, Debug, PartialEq, Eq)]
pub enum Filled {
    /// This many bytes came. `all` says that it was as many as were asked for, so that more may be there.
    Bytes { count: usize, all: bool },
    /// Nothing is there yet.
    Nothing,
    /// A signal came first. The read is to be repeated.
    Again,
    /// The peer has ended the stream.
    End,
    /// The stream failed.
    Fault,
    /// Out of memory.
    NoMemory,
}

impl Input {
    /// These bytes.
    pub(crate) fn new(bytes: Vec<u8>) -> Input
        ensures { bytes_of result ≡ bytes.items }
    {
        let end = bytes.len();
        Input {
            bytes,
            start: 0,
            end,
            full: false,
        }
    }

    /// The bytes.
    pub(crate) fn as_slice(&self) -> &[u8]
        ensures { result.now ≡ bytes_of self.now }
    {
        &self.bytes[self.start..self.end]
    }

    /// How many bytes there are.
    pub(crate) fn len(&self) -> usize
        ensures { result ≡ length (bytes_of self.now) }
    {
        self.end - self.start
    }

    /// This many bytes at the front.
    pub(crate) fn front(&self, count: usize) -> &[u8]
        requires { count ≤ length (bytes_of self.now) }
        ensures { result.now ≡ take count (bytes_of self.now) }
    {
        &self.bytes[self.start..self.start + count]
    }

    /// Unmasks this many bytes at the front.
    pub(crate) fn unmask(&mut self, count: usize, key: Option<[u8; 4]>)
        requires { count ≤ length (bytes_of self.old) }
        ensures front { take count (bytes_of self.new) ≡ apply_mask_if key (take count (bytes_of self.old)) }
        ensures rest { drop count (bytes_of self.new) ≡ drop count (bytes_of self.old) }
        ensures len { length (bytes_of self.new) ≡ length (bytes_of self.old) }
    {
        if let Some(key) = key {
            let start = self.start;
            apply_mask(&mut self.bytes[start..start + count], key);
        }
    }

    /// Has the protocol take the frame at the front, once it is complete.
    pub(crate) fn read_frame<K: MaskKeys>(
        &mut self,
        context: &mut WebSocketContext,
        output: &mut Vec<u8>,
        keys: &mut K,
    ) -> Result<FrameStatus<Step>, Error>
        ensures returns { IfOk result (Returns (read_step context.old (bytes_of self.old)) (bytes_of self.new)) }
        ensures leaves { OnOk result (ReadLeaves (read_step context.old (bytes_of self.old)) context.old context.new output.old.items output.new.items) }
        ensures keeps_rest { IfOk result (λ status. KeepsRest status (bytes_of self.old) (bytes_of self.new)) }
        ensures err { IfErr result (GivesError (read_step context.old (bytes_of self.old))) }
        ensures err_state { OnErr result (context.new ≡ failed_connection context.old) }
        ensures err_output { OnErr result (output.new.items ≡ output.old.items) }
    {
        let start = self.start;
        let end = self.end;
        context.read(&mut self.bytes[start..end], output, keys)
    }

    /// Takes this many bytes from the front, or all if there are fewer.
    pub(crate) fn take(&mut self, count: usize)
        ensures { bytes_of self.new ≡ drop count (bytes_of self.old) }
    {
        if count < self.end - self.start {
            self.start += count;
        } else {
            self.start = 0;
            self.end = 0;
        }
    }

    /// Reads once.
    pub(crate) fn fill<S: Read>(&mut self, stream: &mut S) -> Filled
        ensures { Fills result (S.remaining stream.old) (S.remaining stream.new) (bytes_of self.old) (bytes_of self.new) }
    {
        self.compact();
        if self.make_room().is_err() {
            return Filled::NoMemory;
        }
        self.read(stream)
    }

    /// Reads once into the room after the bytes.
    fn read<S: Read>(&mut self, stream: &mut S) -> Filled
        requires { self.old.end < vec_len self.old.bytes }
        ensures { Fills result (S.remaining stream.old) (S.remaining stream.new) (bytes_of self.old) (bytes_of self.new) }
    {
        let end = self.end;
        let room = self.bytes.len() - end;
        match stream.read(&mut self.bytes[end..]) {
            Ok(0) => Filled::End,
            Ok(count) => {
                self.end = end + count;
                self.full = count == room;
                Filled::Bytes {
                    count,
                    all: self.full,
                }
            }
            Err(error) => match error.kind() {
                ErrorKind::WouldBlock | ErrorKind::TimedOut => Filled::Nothing,
                ErrorKind::Interrupted => Filled::Again,
                _ => Filled::Fault,
            },
        }
    }

    /// Moves the bytes to the front. Only a header, or a control frame, of an incomplete frame is left here, so they are few.
    fn compact(&mut self)
        ensures { bytes_of self.new ≡ bytes_of self.old }
    {
        let start = self.start;
        let end = self.end;
        if start == 0 {
            return;
        }
        self.bytes.copy_within(start..end, 0);
        self.start = 0;
        self.end = end - start;
    }

    /// Makes room for a read after the bytes.
    fn make_room(&mut self) -> Result<(), AllocError>
        ensures room { OnOk result (self.new.end < vec_len self.new.bytes) }
        ensures bytes { bytes_of self.new ≡ bytes_of self.old }
    {
        let before = self.bytes.len();
        let wanted = if self.full {
            before.saturating_mul(4).min(LONGEST_READ)
        } else {
            0
        };
        let size = wanted.max(self.end.saturating_add(FIRST_READ));
        if before < size {
            self.bytes.resize(size, 0)?;
        }
        Ok(())
    }
}
