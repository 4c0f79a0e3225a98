//! A connection whose handshake is not done.
use crate::head::{Head, Upgrade, judge};
use crate::refusal::Refusal;
use std::alloc::Global;
use std::io::{ErrorKind, Read, Write};
use std::net::{Shutdown, SocketAddr, TcpStream};
use std::os::fd::{AsRawFd, RawFd};

/// How long a connection has until its head is complete, and how long a refused one has to leave, in milliseconds.
const PATIENCE: u64 = 2_000;

/// The greatest size of a head, in bytes.
const LONGEST: usize = 65_536;

/// How often a head is examined: first when its first bytes are there, then whenever an empty line has come.
const JUDGED: u32 = 16;

/// How many bytes one read asks for.
const PIECE: usize = 4_096;

/// How many reads of a refused connection are made together. It is cut off if more comes.
const DRAINED: u32 = 16;

/// What a look at a connection found.
#[derive(Clone, Copy, Debug)]
pub(crate) enum Step {
    /// It needs more bytes.
    Waits,
    /// Its head is complete and asks for a WebSocket.
    Asks(Upgrade),
    /// It is refused.
    Refused(Refusal),
    /// It was refused earlier, and is over.
    Over,
}

/// A connection whose handshake is not done. A refused one is kept until its peer has closed it too, so that the answer is not lost with
/// what the peer still sends.
#[derive(Drop)]
pub(crate) struct Caller {
    stream: TcpStream,
    peer: SocketAddr,
    head: Vec<u8>,
    judged: u32,
    refused: bool,
    /// When its time is over.
    until: u64,
}

impl Caller {
    /// A connection that was accepted at this moment. `None` if the system refuses what it needs.
    pub(crate) fn new(
        alloc: Global,
        stream: TcpStream,
        peer: SocketAddr,
        now: u64,
    ) -> Option<Caller> {
        if stream.set_nonblocking(true).is_err() || stream.set_nodelay(true).is_err() {
            return None;
        }
        Some(Caller {
            stream,
            peer,
            head: Vec::new(alloc),
            judged: 0,
            refused: false,
            until: now.saturating_add(PATIENCE),
        })
    }

    pub(crate) fn peer(&self) -> SocketAddr {
        self.peer
    }

    pub(crate) fn descriptor(&self) -> RawFd {
        self.stream.as_raw_fd()
    }

    pub(crate) fn until(&self) -> u64 {
        self.until
    }

    /// Whether it was refused earlier.
    pub(crate) fn is_refused(&self) -> bool {
        self.refused
    }

    /// The connection, for a link.
    pub(crate) fn into_stream(self) -> TcpStream {
        let Caller { stream, .. } = self;
        stream
    }

    /// Reads all that has come.
    pub(crate) fn look(&mut self) -> Step {
        if self.refused {
            self.drain()
        } else {
            self.read()
        }
    }

    /// Reads what has come of the head.
    fn read(&mut self) -> Step {
        let mut piece = [0u8; PIECE];
        for _ in 0..LONGEST {
            match self.stream.read(&mut piece) {
                Ok(0) => return Step::Refused(Refusal::Left),
                Ok(count) => match self.take(&piece[..count]) {
                    Step::Waits => {}
                    step => return step,
                },
                Err(error) => match error.kind() {
                    ErrorKind::WouldBlock => return Step::Waits,
                    ErrorKind::Interrupted => {}
                    _ => return Step::Refused(Refusal::Left),
                },
            }
        }
        Step::Refused(Refusal::TooLong)
    }

    /// Takes a piece of the head.
    fn take(&mut self, piece: &[u8]) -> Step {
        let before = self.head.len();
        if before.saturating_add(piece.len()) > LONGEST {
            return Step::Refused(Refusal::TooLong);
        }
        if self.head.extend_from_slice(piece).is_err() {
            return Step::Refused(Refusal::NoPlace);
        }
        if before > 0 && !may_end(self.head.as_slice(), before) {
            return Step::Waits;
        }
        if self.judged >= JUDGED {
            return Step::Refused(Refusal::NotHttp);
        }
        self.judged = self.judged.saturating_add(1);
        match judge(self.head.as_slice()) {
            Head::Part => Step::Waits,
            Head::Asks(upgrade) => Step::Asks(upgrade),
            Head::Refused(refusal) => Step::Refused(refusal),
        }
    }

    /// Drops what comes after a refusal.
    fn drain(&mut self) -> Step {
        let mut piece = [0u8; PIECE];
        for _ in 0..DRAINED {
            match self.stream.read(&mut piece) {
                Ok(0) => return Step::Over,
                Ok(_) => {}
                Err(error) => match error.kind() {
                    ErrorKind::WouldBlock => return Step::Waits,
                    ErrorKind::Interrupted => {}
                    _ => return Step::Over,
                },
            }
        }
        Step::Over
    }

    /// Answers with a refusal, and says that nothing more comes. From now on the peer has time to leave. False if it has left already.
    pub(crate) fn refuse(&mut self, alloc: Global, refusal: Refusal, now: u64) -> bool {
        self.refused = true;
        self.until = now.saturating_add(PATIENCE);
        self.head = Vec::new(alloc);
        let Ok(Some(answer)) = refusal.answer(alloc) else {
            return false;
        };
        self.send(answer.as_bytes()) && self.stream.shutdown(Shutdown::Write).is_ok()
    }

    /// Sends a whole answer. The output of a new connection has room for it.
    pub(crate) fn send(&mut self, answer: &[u8]) -> bool {
        match self.stream.write(answer) {
            Ok(count) => count == answer.len(),
            Err(_) => false,
        }
    }
}

/// Whether an empty line may end among the bytes from this index on.
fn may_end(head: &[u8], from: usize) -> bool {
    let Some(news) = head.get(from.saturating_sub(2)..) else {
        return false;
    };
    news.windows(2).any(|pair| pair == b"\n\n".as_slice())
        || news.windows(3).any(|three| three == b"\n\r\n".as_slice())
}
