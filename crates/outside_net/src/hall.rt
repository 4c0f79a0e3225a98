//! Where connections are until their handshake is done.
use crate::bells::STANDARD_INPUT;
use crate::caller::Caller;
use crate::log::DoorLog;
use crate::refusal::Refusal;
use crate::room::{Ready, Room};
use mio::unix::SourceFd;
use mio::{Events, Interest, Poll, Token, Waker};
use std::alloc::Global;
use std::io;
use std::io::ErrorKind;
use std::net::{Net, SocketAddr, TcpListener, TcpStream};
use std::os::fd::AsRawFd;
use std::time::{Clock, Duration};

/// What ends a wait: a connection at the listener, the end of the standard input, or that of a session. The other tokens are the room's.
const LISTENER: Token = Token(0);

const INPUT: Token = Token(1);

const ENDING: Token = Token(usize::MAX);

/// How many sources a wait reports together.
const EVENTS: usize = 64;

/// How many connections are accepted together.
const TOGETHER: u32 = 64;

/// How long the hall waits after a failed accept, in milliseconds.
const PAUSE: u64 = 50;

/// What came of a turn of the hall.
#[derive(Clone, Copy, Debug, PartialEq, Eq)]
pub(crate) enum Turn {
    /// Ask it for those that are ready.
    Again,
    /// The standard input has ended.
    Stop,
    /// The listener failed.
    Failed,
}

/// Why an accept gave no connection.
#[derive(Clone, Copy, Debug, PartialEq, Eq)]
enum Fate {
    /// No connection waits.
    Nobody,
    /// A signal came.
    Again,
    /// The connection failed before it was accepted.
    Connection,
    /// The system has no descriptor or no memory for it.
    System,
    /// The listener is not one.
    Listener,
}

/// Where connections are from their accept until their handshake is done. One system call waits for the listener and all of them, and
/// nothing here waits for a peer, so none delays another.
#[derive(Drop)]
pub(crate) struct Hall {
    poll: Poll,
    events: Events,
    room: Room,
    /// Whether connections may wait at the listener.
    crowd: bool,
    /// Whether the last accept failed.
    pause: bool,
    /// A descriptor that is given up to refuse a connection when the system has no other.
    spare: Option<TcpListener>,
    /// Whether it waits for the end of the standard input too.
    input: bool,
}

impl Hall {
    /// The hall of a listener. With `input` its turns end in [`Turn::Stop`] once the standard input has ended, if that is open
    /// now and can be waited for.
    pub(crate) fn open(
        net: &impl Net,
        alloc: Global,
        listener: &TcpListener,
        input: bool,
    ) -> io::Result<Hall> {
        listener.set_nonblocking(true)?;
        let mut poll = Poll::new(net)?;
        let mut events = Events::with_capacity(alloc, EVENTS)?;
        let descriptor = listener.as_raw_fd();
        let input = input && descriptor != STANDARD_INPUT && watches_input(&mut poll, &mut events);
        poll.registry()
            .register(&mut SourceFd(&descriptor), LISTENER, Interest::READABLE)?;
        Ok(Hall {
            poll,
            events,
            room: Room::new(alloc)?,
            crowd: true,
            pause: false,
            spare: spare_of(listener),
            input,
        })
    }

    /// Whether it waits for the end of the standard input too.
    pub(crate) fn watches_input(&self) -> bool {
        self.input
    }

    /// What ends the hall's wait from another thread.
    pub(crate) fn waker(&self) -> io::Result<Waker> {
        Waker::new(self.poll.registry(), ENDING)
    }

    /// The next connection whose head is complete. It leaves the hall.
    pub(crate) fn next_ready(&mut self) -> Option<Ready> {
        let ready = self.room.next_ready()?;
        let descriptor = ready.caller.descriptor();
        let _ = self.poll.registry().deregister(&mut SourceFd(&descriptor));
        Some(ready)
    }

    /// Accepts what waits at the listener, waits until something comes or a connection's time is over, and looks at each
    /// connection for which something came.
    pub(crate) fn turn<C: Clock, L: DoorLog>(
        &mut self,
        clock: &C,
        alloc: Global,
        listener: &TcpListener,
        log: &mut L,
    ) -> Turn {
        let before = now(clock);
        if !self.accept_all(alloc, listener, before, log) {
            return Turn::Failed;
        }
        let patience = self.patience(before);
        if self.poll.poll(&mut self.events, patience).is_err() {
            return Turn::Failed;
        }
        let after = now(clock);
        let heard = hear(&self.events, &mut self.room, alloc, after, log);
        self.crowd = self.crowd || heard.crowd;
        self.room.expire(alloc, after, log);
        if heard.stop { Turn::Stop } else { Turn::Again }
    }

    /// How long the next wait may last.
    fn patience(&self, now: u64) -> Option<Duration> {
        if self.pause {
            return Some(Duration::from_millis(PAUSE));
        }
        if self.crowd {
            return Some(Duration::from_millis(0));
        }
        let until = self.room.earliest()?;
        // A millisecond more than is left, since the system may round down.
        let left = until.saturating_sub(now).saturating_add(1);
        Some(Duration::from_millis(left))
    }

    /// Accepts the connections that wait at the listener, or the first ones. False if the listener failed.
    fn accept_all<L: DoorLog>(
        &mut self,
        alloc: Global,
        listener: &TcpListener,
        now: u64,
        log: &mut L,
    ) -> bool {
        self.pause = false;
        for _ in 0..TOGETHER {
            if !self.crowd || self.pause {
                return true;
            }
            match listener.accept() {
                Ok((stream, peer)) => self.admit(alloc, stream, peer, now, log),
                Err(error) => {
                    if !self.unaccepted(alloc, listener, &error, now, log) {
                        return false;
                    }
                }
            }
        }
        true
    }

    fn admit<L: DoorLog>(
        &mut self,
        alloc: Global,
        stream: TcpStream,
        peer: SocketAddr,
        now: u64,
        log: &mut L,
    ) {
        let registry = self.poll.registry();
        self.room.admit(alloc, registry, stream, peer, now, log);
    }

    /// What follows an accept that gave no connection. False if the listener failed.
    fn unaccepted<L: DoorLog>(
        &mut self,
        alloc: Global,
        listener: &TcpListener,
        error: &io::Error,
        now: u64,
        log: &mut L,
    ) -> bool {
        match fate_of(error) {
            Fate::Nobody => self.crowd = false,
            Fate::Again => {}
            Fate::Connection => {
                log.unaccepted(error);
                self.pause = true;
            }
            Fate::System => {
                log.unaccepted(error);
                self.pause = true;
                if !self.room.cut_least_needed(alloc, now, log) {
                    self.refuse_next(alloc, listener, now, log);
                }
            }
            Fate::Listener => {
                log.unaccepted(error);
                return false;
            }
        }
        true
    }

    /// Accepts the next connection by means of the spare descriptor, and refuses it.
    fn refuse_next<L: DoorLog>(
        &mut self,
        alloc: Global,
        listener: &TcpListener,
        now: u64,
        log: &mut L,
    ) {
        self.spare = None;
        if let Ok((stream, peer)) = listener.accept() {
            log.refused(&peer, Refusal::NoPlace);
            if let Some(mut caller) = Caller::new(alloc, stream, peer, now) {
                caller.refuse(alloc, Refusal::NoPlace, now);
            }
        }
        self.spare = spare_of(listener);
    }
}

/// What a wait reported of the door's own sources.
#[derive(Clone, Copy, Debug)]
struct Heard {
    crowd: bool,
    stop: bool,
}

/// Looks at each source that a wait reported.
fn hear<L: DoorLog>(
    events: &Events,
    room: &mut Room,
    alloc: Global,
    now: u64,
    log: &mut L,
) -> Heard {
    let mut heard = Heard {
        crowd: false,
        stop: false,
    };
    for event in events.iter() {
        let token = event.token();
        if token == LISTENER {
            heard.crowd = true;
        } else if token == INPUT {
            heard.stop = heard.stop || event.is_read_closed();
        } else if token != ENDING {
            room.look(alloc, token, now, log);
        }
    }
    heard
}

/// Has waits report the end of the standard input. False if the system can't, or it has ended already: such a process was started with
/// nothing on its input, and nobody asks it to stop.
fn watches_input(poll: &mut Poll, events: &mut Events) -> bool {
    let mut source = SourceFd(&STANDARD_INPUT);
    if poll
        .registry()
        .register(&mut source, INPUT, Interest::READABLE)
        .is_err()
    {
        return false;
    }
    let at_once = Some(Duration::from_millis(0));
    if poll.poll(events, at_once).is_ok() && !events.iter().any(|event| event.is_read_closed()) {
        return true;
    }
    let _ = poll.registry().deregister(&mut source);
    false
}

fn spare_of(listener: &TcpListener) -> Option<TcpListener> {
    match listener.try_clone() {
        Ok(spare) => Some(spare),
        Err(_) => None,
    }
}

/// The milliseconds of the monotonic clock. If it fails no time passes.
fn now<C: Clock>(clock: &C) -> u64 {
    match clock.monotonic() {
        Ok(time) => time
            .as_secs()
            .saturating_mul(1_000)
            .saturating_add(u64::from(time.subsec_millis())),
        Err(_) => 0,
    }
}

/// Why an accept gave no connection, by the system's error number: 23 and 24 are too many open files, 105 and 12 no memory; 9, 14, 22 and
/// 88 say that the descriptor is not a listener. All others concern the connection.
fn fate_of(error: &io::Error) -> Fate {
    match error.kind() {
        ErrorKind::WouldBlock => return Fate::Nobody,
        ErrorKind::Interrupted => return Fate::Again,
        _ => {}
    }
    match error.raw_os_error() {
        Some(12 | 23 | 24 | 105) => Fate::System,
        Some(9 | 14 | 22 | 88) => Fate::Listener,
        _ => Fate::Connection,
    }
}
