//! A stream of which nothing after a head is read.
ghost use Rattle.std.specs.Prelude.{◌≡◌};

use std::io::{self, Read, Write};
use std::net::TcpStream;

/// A stream during a handshake: it gives what has come up to the end of the head, the first empty line after a line, and leaves what
/// follows for whoever reads the stream next.
#[derive(Drop)]
pub(crate) struct HeadOnly {
    stream: TcpStream,
    /// Whether the current line has any bytes.
    filled: bool,
    /// Whether an earlier line had any bytes.
    begun: bool,
}

impl HeadOnly {
    /// The stream, before its first byte.
    pub(crate) fn new(stream: TcpStream) -> HeadOnly
        ensures { result.stream ≡ stream }
    {
        HeadOnly {
            stream,
            filled: false,
            begun: false,
        }
    }

    /// The stream, after the head.
    pub(crate) fn into_stream(self) -> TcpStream
        ensures { result ≡ self.stream }
    {
        let HeadOnly { stream, .. } = self;
        stream
    }

    /// Takes a byte of the head. True if it is the last.
    fn ends_with(&mut self, byte: u8) -> bool {
        match byte {
            b'\r' => false,
            b'\n' => {
                let ends = self.begun && !self.filled;
                self.begun = self.begun || self.filled;
                self.filled = false;
                ends
            }
            _ => {
                self.filled = true;
                false
            }
        }
    }

    /// How many of these bytes belong to the head.
    fn of_head(&mut self, bytes: &[u8]) -> usize {
        for (at, byte) in bytes.iter().enumerate() {
            if self.ends_with(*byte) {
                return at.saturating_add(1);
            }
        }
        bytes.len()
    }
}

impl Read for HeadOnly {
    fn read(&mut self, buf: &mut [u8]) -> io::Result<usize> {
        let come = self.stream.peek(buf)?;
        let count = match buf.get(..come) {
            Some(bytes) => self.of_head(bytes),
            None => 0,
        };
        let read = match buf.get_mut(..count) {
            Some(head) => self.stream.read(head)?,
            None => 0,
        };
        Ok(read.min(buf.len()))
    }
}

impl Write for HeadOnly {
    fn write(&mut self, buf: &[u8]) -> io::Result<usize> {
        self.stream.write(buf)
    }

    fn flush(&mut self) -> io::Result<()> {
        self.stream.flush()
    }
}
