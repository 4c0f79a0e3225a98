//! A WebSocket as a link.
ghost use Rattle.std.specs.Prelude.{◌≡◌, ◌≤◌, ◌||◌, None, false, true, IfOk};
ghost use Rattle.etp_outside.specs.Faults.{Rose};
ghost use Rattle.etp_outside.specs.Talk.{is_end};
ghost use Rattle.outside_net.specs.Handing.{recv_of};

use crate::bells::{Post, Woken};
use crate::pace::Pace;
use crate::silence::{Call, Silence};
use crate::writing::write_all;
use etp_outside::{Link, Recv, Sent};
use etp_values::Blob;
use std::alloc::Global;
use std::io::{Read, Write};
use std::net::{OpenStream, Shutdown};
use std::os::fd::AsRawFd;
use web_frames::{Arrival, Filled, Frames};
use websocket::error::Error;
use websocket::protocol::frame::MaskKeys;
use websocket::protocol::frame::coding::CloseCode;
use websocket::protocol::{Message, Role};

/// The output is sent once it has more bytes than this, 128 KiB, and otherwise before the link waits.
const LONG_OUTPUT: usize = 131_072;

/// A message of more bytes than this, 64 KiB, that a server sends is sent directly, and is not copied to the output.
const LONG_MESSAGE: usize = 65_536;

/// An output of more bytes than this, 512 KiB, frees its memory once it was sent.
const KEPT_OUTPUT: usize = 524_288;

/// The bells of the others are rung before the link waits, and after this many messages.
const RUNG_AFTER: u32 = 64;

/// A client that has sent no message for this many milliseconds since its handshake is given up.
const ASKED_WITHIN: u64 = 30_000;

/// What a read counts, in milliseconds, while the first message is awaited: one that brings fewer bytes than [`DROP`], and one that brings
/// more. A client that sends in drops doesn't keep its place, while a long message may come as slowly as the connection carries it.
const DROP_COUNTS: u64 = 8;

const PIECE_COUNTS: u64 = 2;

const DROP: usize = 256;

/// How long a goodbye lasts at most, in what its reads count: one that brings nothing waits and counts 50 milliseconds, and one that brings
/// something counts 10, for which the link sleeps before it reads again. So the time that a peer has to read its Close frame does not
/// depend on how fast it sends.
const GOODBYE: u64 = 1_000;

const GOODBYE_WAIT: u64 = 50;

const GOODBYE_READ: u64 = 10;

/// A WebSocket as a link.
///
/// What has come is read at once, at most 256 KiB, and handed on message by message without a system call. What is sent is buffered in the
/// output and leaves before the link waits, past 128 KiB, or on closing: so the answers to what one read brought are sent in one write. A
/// write waits at most 30 seconds for a peer that takes nothing. A message longer than 16,777,216 bytes is counted and not kept. After a
/// fault every call is a fault.
///
/// A link waits for its socket and for its bell. It rings the bells of the others before it waits, and after 64 messages: what the messages
/// asked for is done by then, and their entries, if any, are in the journal. A bell ends a turn in which nothing came, so that the session
/// looks at once at what the others did.
///
/// A peer that breaks the protocol is sent a Close frame with the code of its breach (RFC 6455, section 7.4.1). One from which nothing has
/// come for 30 seconds is sent a ping, and is given up if nothing comes for 60 seconds more. A client from which no message came within 30
/// seconds is given up.
#[derive(Drop)]
pub struct WsLink<S, K> {
    alloc: Global,
    role: Role,
    stream: S,
    keys: K,
    frames: Frames,
    output: Vec<u8>,
    /// How many bytes came. The count stops at `u64::MAX`.
    came: u64,
    faults: u64,
    ended: bool,
    broken: bool,
    /// Whether the peer was sent a Close frame for a breach. It is given time to read it.
    refused: bool,
    /// Whether its user closed it.
    closed: bool,
    /// Whether it said goodbye: on closing, or as the server stops.
    gone: bool,
    /// Whether the socket may hold more than what was read: it is read before the link waits.
    unread: bool,
    /// How many messages were handed on since the others' bells were rung.
    handed: u32,
    /// Whether a message has come.
    asked: bool,
    /// How many milliseconds the first message has been awaited.
    unasked: u64,
    pace: Pace,
    silence: Silence,
    post: Post,
}

impl<S: Read + Write + OpenStream + AsRawFd + Drop, K: MaskKeys + Drop> WsLink<S, K> {
    /// A link over a stream whose handshake is done, at the end with this role. `early` is what came after the handshake. It waits at a
    /// post, which is given back if the stream can't be made non-blocking, or can't be waited for.
    pub(crate) fn new(
        alloc: Global,
        role: Role,
        stream: S,
        keys: K,
        early: Vec<u8>,
        post: Post,
    ) -> Result<WsLink<S, K>, Post>
        ensures faults { IfOk result (λ l. l.faults ≡ 0) }
        ensures ended { IfOk result (λ l. l.ended ≡ false) }
        ensures closed { IfOk result (λ l. l.closed ≡ false) }
    {
        let mut post = post;
        if stream.set_nonblocking(true).is_err() || !post.watch(stream.as_raw_fd()) {
            return Err(post);
        }
        Ok(WsLink {
            alloc,
            role,
            stream,
            keys,
            frames: Frames::new(alloc, role, early),
            output: Vec::new(alloc),
            came: 0,
            faults: 0,
            ended: false,
            broken: false,
            refused: false,
            closed: false,
            gone: false,
            unread: true,
            handed: 0,
            asked: false,
            unasked: 0,
            pace: Pace::new(),
            silence: Silence::new(),
            post,
        })
    }

    /// The post at which the link waited, for another link. The connection is over.
    pub(crate) fn into_post(self) -> Post {
        let WsLink { stream, post, .. } = self;
        drop(stream);
        post
    }
}

impl<S: Read + Write + OpenStream + Drop, K: MaskKeys + Drop> WsLink<S, K> {
    /// How often it failed.
    pub(crate) fn faults(&self) -> u64
        ensures { result ≡ self.now.faults }
    {
        self.faults
    }

    /// Whether the peer has ended it.
    pub(crate) fn has_ended(&self) -> bool
        ensures { result ≡ self.now.ended }
    {
        self.ended
    }

    /// Counts a fault, and makes every later call fail.
    fn fault(&mut self)
        ensures rose { Rose self.old.faults self.new.faults }
        ensures kept { self.old.faults ≤ self.new.faults }
        ensures ended { self.new.ended ≡ self.old.ended }
        ensures closed { self.new.closed ≡ self.old.closed }
    {
        self.broken = true;
        self.faults = self.faults.saturating_add(1);
    }

    /// Sends the output. False if it could not be sent.
    fn flush(&mut self) -> bool
        ensures faults { self.new.faults ≡ self.old.faults }
        ensures ended { self.new.ended ≡ self.old.ended }
        ensures closed { self.new.closed ≡ self.old.closed }
    {
        if self.output.is_empty() {
            return true;
        }
        if self.keys.has_failed() {
            return false;
        }
        let left = write_all(&mut self.stream, &mut self.post, self.output.as_slice());
        if self.output.capacity() > KEPT_OUTPUT {
            self.output = Vec::new(self.alloc);
        } else {
            self.output.clear();
        }
        left
    }

    /// Rings the bells of the others, if a message was handed on since they were rung.
    fn ring(&mut self)
        ensures faults { self.new.faults ≡ self.old.faults }
        ensures ended { self.new.ended ≡ self.old.ended }
        ensures closed { self.new.closed ≡ self.old.closed }
    {
        if self.handed > 0 {
            self.handed = 0;
            self.post.ring();
        }
    }

    /// What is at the front of what has come.
    fn next(&mut self) -> Arrival
        ensures faults { self.new.faults ≡ self.old.faults }
        ensures ended { self.new.ended ≡ self.old.ended }
        ensures closed { self.new.closed ≡ self.old.closed }
    {
        self.frames.next(&mut self.output, &mut self.keys)
    }

    /// Hands on what came.
    fn hand_on(&mut self, arrival: Arrival) -> Recv
        ensures handed { result ≡ recv_of arrival }
        ensures kept { self.old.faults ≤ self.new.faults }
        ensures cause { result ≡ Recv.Failed → Rose self.old.faults self.new.faults }
        ensures ended { self.new.ended ≡ (self.old.ended || is_end result) }
        ensures closed { self.new.closed ≡ self.old.closed }
    {
        match arrival {
            Arrival::Message(message) => {
                self.asked = true;
                self.handed = self.handed.saturating_add(1);
                self.pace.on_message();
                Recv::Got(message)
            }
            Arrival::Frame | Arrival::Nothing => Recv::Idle,
            Arrival::End => {
                // The answer to a goodbye.
                let _ = self.flush();
                self.ended = true;
                Recv::End
            }
            Arrival::Breach(breach) => self.refuse(breach.code()),
            Arrival::NoMemory => self.spent(),
        }
    }

    /// A turn in which memory ran out. The message may be lost.
    fn spent(&mut self) -> Recv
        ensures spent { result ≡ Recv.NoMemory }
        ensures kept { self.old.faults ≤ self.new.faults }
        ensures cause { result ≡ Recv.Failed → Rose self.old.faults self.new.faults }
        ensures ended { self.new.ended ≡ (self.old.ended || is_end result) }
        ensures closed { self.new.closed ≡ self.old.closed }
    {
        self.say_close(CloseCode::Error);
        self.broken = true;
        Recv::NoMemory
    }

    /// Sends the peer a Close frame with this code, which says why the link fails.
    fn refuse(&mut self, code: CloseCode) -> Recv
        ensures failed { result ≡ Recv.Failed }
        ensures kept { self.old.faults ≤ self.new.faults }
        ensures cause { result ≡ Recv.Failed → Rose self.old.faults self.new.faults }
        ensures ended { self.new.ended ≡ (self.old.ended || is_end result) }
        ensures closed { self.new.closed ≡ self.old.closed }
    {
        self.say_close(code);
        self.fault();
        Recv::Failed
    }

    /// Sends a Close frame with this code, as the last that is sent.
    fn say_close(&mut self, code: CloseCode)
        ensures faults { self.new.faults ≡ self.old.faults }
        ensures ended { self.new.ended ≡ self.old.ended }
        ensures closed { self.new.closed ≡ self.old.closed }
    {
        let put = self.frames.close(code, &mut self.output, &mut self.keys);
        if put.is_ok() && self.flush() {
            self.refused = self.stream.shutdown(Shutdown::Write).is_ok();
        }
    }

    /// Whether the first message has been awaited for too long, with this many milliseconds more.
    fn waited_enough(&mut self, more: u64) -> bool
        ensures faults { self.new.faults ≡ self.old.faults }
        ensures ended { self.new.ended ≡ self.old.ended }
        ensures closed { self.new.closed ≡ self.old.closed }
    {
        if self.asked || self.role == Role::Client {
            return false;
        }
        self.unasked = self.unasked.saturating_add(more);
        self.unasked >= ASKED_WITHIN
    }

    /// Whether each wait is to be counted exactly, since the first message or the answer to a ping is awaited. Then no bell is heard.
    fn is_exact(&self) -> bool {
        (!self.asked && self.role == Role::Server) || self.silence.is_pinged()
    }

    /// Sends what waits to be sent, and then waits for more, or reads what is there.
    fn wait(&mut self) -> Recv
        ensures kept { self.old.faults ≤ self.new.faults }
        ensures cause { result ≡ Recv.Failed → Rose self.old.faults self.new.faults }
        ensures ended { self.new.ended ≡ (self.old.ended || is_end result) }
        ensures closed { self.new.closed ≡ self.old.closed }
    {
        if !self.flush() {
            self.fault();
            return Recv::Failed;
        }
        self.ring();
        if self.unread {
            return self.read();
        }
        if self.is_exact() {
            self.wait_exactly()
        } else {
            self.wait_for_bell()
        }
    }

    /// A wait that is counted exactly.
    fn wait_exactly(&mut self) -> Recv
        ensures kept { self.old.faults ≤ self.new.faults }
        ensures cause { result ≡ Recv.Failed → Rose self.old.faults self.new.faults }
        ensures ended { self.new.ended ≡ (self.old.ended || is_end result) }
        ensures closed { self.new.closed ≡ self.old.closed }
    {
        let limit = self.pace.exact();
        match self.post.wait_for_socket(limit) {
            Woken::Socket => self.read(),
            Woken::Bell => Recv::Idle,
            Woken::Time => self.on_silence(limit),
        }
    }

    /// A wait that the bell ends too. If it does the whole wait counts, so that a peer is asked for a sign of life after at most 30
    /// seconds.
    fn wait_for_bell(&mut self) -> Recv
        ensures kept { self.old.faults ≤ self.new.faults }
        ensures cause { result ≡ Recv.Failed → Rose self.old.faults self.new.faults }
        ensures ended { self.new.ended ≡ (self.old.ended || is_end result) }
        ensures closed { self.new.closed ≡ self.old.closed }
    {
        let wait = self.pace.next();
        match self.post.wait(wait.rest, wait.limit) {
            Woken::Socket => self.read(),
            Woken::Bell => {
                self.pace.on_bell();
                self.on_silence(wait.whole())
            }
            Woken::Time => {
                self.pace.on_silence(self.post.has_bell());
                self.on_silence(wait.whole())
            }
        }
    }

    /// A turn in which nothing came for this many milliseconds.
    fn on_silence(&mut self, lasted: u64) -> Recv
        ensures kept { self.old.faults ≤ self.new.faults }
        ensures cause { result ≡ Recv.Failed → Rose self.old.faults self.new.faults }
        ensures ended { self.new.ended ≡ (self.old.ended || is_end result) }
        ensures closed { self.new.closed ≡ self.old.closed }
    {
        if self.waited_enough(lasted) {
            return self.refuse(CloseCode::Policy);
        }
        match self.silence.after(self.came, lasted) {
            Call::Nothing => Recv::Idle,
            Call::Ping => match self.put(Message::Ping(&[])) {
                Sent::Done => Recv::Idle,
                Sent::Failed => Recv::Failed,
                Sent::NoMemory => Recv::NoMemory,
            },
            Call::GiveUp => {
                self.fault();
                Recv::Failed
            }
        }
    }

    /// Reads once.
    fn read(&mut self) -> Recv
        ensures kept { self.old.faults ≤ self.new.faults }
        ensures cause { result ≡ Recv.Failed → Rose self.old.faults self.new.faults }
        ensures ended { self.new.ended ≡ (self.old.ended || is_end result) }
        ensures closed { self.new.closed ≡ self.old.closed }
    {
        match self.frames.fill(&mut self.stream) {
            Filled::Bytes { count, all } => {
                self.unread = all || self.post.is_over();
                self.on_bytes(count)
            }
            Filled::Nothing => {
                self.unread = false;
                Recv::Idle
            }
            Filled::Again => {
                self.unread = true;
                Recv::Idle
            }
            Filled::End => {
                self.ended = true;
                Recv::End
            }
            Filled::Fault => {
                self.fault();
                Recv::Failed
            }
            Filled::NoMemory => self.spent(),
        }
    }

    /// Hands on the first message out of this many bytes.
    fn on_bytes(&mut self, count: usize) -> Recv
        ensures kept { self.old.faults ≤ self.new.faults }
        ensures cause { result ≡ Recv.Failed → Rose self.old.faults self.new.faults }
        ensures ended { self.new.ended ≡ (self.old.ended || is_end result) }
        ensures closed { self.new.closed ≡ self.old.closed }
    {
        self.came = self.came.saturating_add(count as u64);
        let counts = if count < DROP {
            DROP_COUNTS
        } else {
            PIECE_COUNTS
        };
        if self.waited_enough(counts) {
            return self.refuse(CloseCode::Policy);
        }
        let arrival = self.next();
        self.hand_on(arrival)
    }

    /// Puts a message into the output.
    fn put(&mut self, message: Message<'_>) -> Sent
        ensures kept { self.old.faults ≤ self.new.faults }
        ensures cause { result ≡ Sent.Failed → Rose self.old.faults self.new.faults }
        ensures ended { self.new.ended ≡ self.old.ended }
        ensures closed { self.new.closed ≡ self.old.closed }
    {
        match self.frames.write(message, &mut self.output, &mut self.keys) {
            Ok(()) => {}
            Err(error) => return self.unsent(&error),
        }
        if self.output.len() < LONG_OUTPUT || self.flush() {
            return Sent::Done;
        }
        self.fault();
        Sent::Failed
    }

    /// Sends a long message after the output.
    fn put_long(&mut self, message: &[u8]) -> Sent
        ensures kept { self.old.faults ≤ self.new.faults }
        ensures cause { result ≡ Sent.Failed → Rose self.old.faults self.new.faults }
        ensures ended { self.new.ended ≡ self.old.ended }
        ensures closed { self.new.closed ≡ self.old.closed }
    {
        let message = Message::Binary(message);
        let rest = match self
            .frames
            .write_header(message, &mut self.output, &mut self.keys)
        {
            Ok(rest) => rest,
            Err(error) => return self.unsent(&error),
        };
        if self.flush() && write_all(&mut self.stream, &mut self.post, rest) {
            return Sent::Done;
        }
        self.fault();
        Sent::Failed
    }

    /// Why a message was not put into the output.
    fn unsent(&mut self, error: &Error) -> Sent
        ensures kept { self.old.faults ≤ self.new.faults }
        ensures cause { result ≡ Sent.Failed → Rose self.old.faults self.new.faults }
        ensures ended { self.new.ended ≡ self.old.ended }
        ensures closed { self.new.closed ≡ self.old.closed }
    {
        match error {
            Error::OutOfMemory => Sent::NoMemory,
            _ => {
                self.fault();
                Sent::Failed
            }
        }
    }

    /// Sends the goodbye, and reads until the peer's has come, or has not come in time. A client from which no message came got no session,
    /// and is not waited for.
    fn say_goodbye(&mut self)
        ensures faults { self.new.faults ≡ self.old.faults }
        ensures ended { self.new.ended ≡ self.old.ended }
        ensures closed { self.new.closed ≡ self.old.closed }
    {
        let served = self.asked || self.role == Role::Client;
        let code = if self.post.is_stopping() {
            CloseCode::Away
        } else if served {
            CloseCode::Normal
        } else {
            CloseCode::Again
        };
        let put = self.frames.close(code, &mut self.output, &mut self.keys);
        if put.is_err() || !self.flush() || !served {
            return;
        }
        let mut left = GOODBYE;
        let mut counted = 0;
        for _ in 0..u64::MAX {
            match self.next() {
                Arrival::Message(_) | Arrival::Frame => {}
                Arrival::Nothing => {
                    counted = self.refill(counted);
                    left = left.saturating_sub(counted);
                }
                Arrival::End | Arrival::Breach(_) | Arrival::NoMemory => return,
            }
            if left == 0 {
                return;
            }
        }
    }

    /// Reads and drops what the peer of a failed link still sends, so that what it was sent is not lost with it.
    fn drain(&mut self)
        ensures faults { self.new.faults ≡ self.old.faults }
        ensures ended { self.new.ended ≡ self.old.ended }
        ensures closed { self.new.closed ≡ self.old.closed }
    {
        let mut left = GOODBYE;
        let mut counted = 0;
        for _ in 0..GOODBYE {
            counted = self.refill(counted);
            left = left.saturating_sub(counted);
            if left == 0 {
                return;
            }
            self.frames.forget();
        }
    }

    /// Reads once for a goodbye, after what the read before counted, and waits if nothing is there. Returns what that counts. A peer that
    /// goes on sending is given as long as a silent one: before it is read again the link sleeps for what the last read counted.
    fn refill(&mut self, before: u64) -> u64
        ensures faults { self.new.faults ≡ self.old.faults }
        ensures ended { self.new.ended ≡ self.old.ended }
        ensures closed { self.new.closed ≡ self.old.closed }
    {
        if before == GOODBYE_READ {
            self.post.pause(GOODBYE_READ);
        }
        match self.frames.fill(&mut self.stream) {
            Filled::Bytes { .. } => GOODBYE_READ,
            Filled::Nothing => match self.post.wait_for_socket(GOODBYE_WAIT) {
                Woken::Time => GOODBYE_WAIT,
                Woken::Socket | Woken::Bell => 1,
            },
            Filled::Again => 1,
            Filled::End | Filled::Fault | Filled::NoMemory => GOODBYE,
        }
    }

    /// The server stops: buffered output is sent, then a Close frame that says so, and nothing more comes.
    fn stop(&mut self) -> Recv
        ensures faults { self.new.faults ≡ self.old.faults }
        ensures end { result ≡ Recv.End }
        ensures ended { self.new.ended ≡ true }
        ensures closed { self.new.closed ≡ self.old.closed }
    {
        self.end();
        self.ended = true;
        Recv::End
    }

    /// Says goodbye and shuts the stream down, the first time that it is called.
    pub(crate) fn end(&mut self)
        ensures faults { self.new.faults ≡ self.old.faults }
        ensures ended { self.new.ended ≡ self.old.ended }
        ensures closed { self.new.closed ≡ self.old.closed }
    {
        if self.gone {
            return;
        }
        self.gone = true;
        // What a session does as it ends may concern the others too.
        self.handed = 0;
        self.post.ring();
        if self.refused {
            self.drain();
        } else if !self.ended && !self.broken {
            self.say_goodbye();
        }
        let _ = self.stream.shutdown(Shutdown::Both);
    }
}

impl<S: Read + Write + OpenStream + Drop + Send, K: MaskKeys + Drop + Send> Link for WsLink<S, K> {
    ghost talk = { λ l. None };

    ghost faults = { λ l. l.faults };

    ghost ended = { λ l. l.ended };

    ghost closed = { λ l. l.closed };

    fn recv(&mut self, _alloc: Global) -> Recv {
        if self.ended {
            return Recv::End;
        }
        if self.post.is_stopping() {
            return self.stop();
        }
        if self.broken {
            self.fault();
            return Recv::Failed;
        }
        if self.handed >= RUNG_AFTER {
            self.ring();
        }
        let recv = match self.next() {
            Arrival::Nothing => self.wait(),
            arrival => self.hand_on(arrival),
        };
        self.post.look();
        recv
    }

    fn send(&mut self, _alloc: Global, message: &Blob) -> Sent {
        if self.broken {
            self.fault();
            return Sent::Failed;
        }
        self.pace.on_sent();
        let bytes = message.as_bytes();
        if bytes.len() > LONG_MESSAGE {
            self.put_long(bytes)
        } else {
            self.put(Message::Binary(bytes))
        }
    }

    fn leave(&mut self, number: u64, end: u8) {
        self.post.leave(number, end);
    }

    fn close(&mut self) {
        self.end();
        self.closed = true;
    }
}
