//! The connections whose handshake is not done.
use crate::caller::{Caller, Step};
use crate::head::Upgrade;
use crate::log::DoorLog;
use crate::refusal::Refusal;
use mio::unix::SourceFd;
use mio::{Interest, Registry, Token};
use std::alloc::{AllocError, Global};
use std::collections::VecDeque;
use std::net::{SocketAddr, TcpStream};

/// The greatest number of connections whose handshake is not done.
const PLACES: usize = 256;

/// The token of the first place. The ones below it are the door's own.
const FIRST: usize = 2;

/// A connection whose head is complete and asks for a WebSocket.
#[derive(Drop)]
pub(crate) struct Ready {
    pub(crate) caller: Caller,
    pub(crate) upgrade: Upgrade,
}

/// The connections whose handshake is not done, each at a place of its own, and those whose head is complete, in the order in which it
/// became so.
#[derive(Drop)]
pub(crate) struct Room {
    places: Vec<Option<Caller>>,
    ready: VecDeque<Ready>,
}

impl Room {
    /// A room without a connection.
    pub(crate) fn new(alloc: Global) -> Result<Room, AllocError> {
        let mut places = Vec::with_capacity(alloc, PLACES)?;
        for _ in 0..PLACES {
            places.push(None)?;
        }
        Ok(Room {
            places,
            ready: VecDeque::new(alloc),
        })
    }

    /// The connection that has been ready for longest.
    pub(crate) fn next_ready(&mut self) -> Option<Ready> {
        self.ready.pop_front()
    }

    /// Takes in a connection that was accepted at this moment. If all places are taken, one that was refused before is closed for it, or
    /// else the one that has waited longest is refused.
    pub(crate) fn admit<L: DoorLog>(
        &mut self,
        alloc: Global,
        registry: &Registry,
        stream: TcpStream,
        peer: SocketAddr,
        now: u64,
        log: &mut L,
    ) {
        let Some(place) = self.vacate(alloc, now, log) else {
            return;
        };
        let Some(caller) = Caller::new(alloc, stream, peer, now) else {
            log.refused(&peer, Refusal::NoPlace);
            return;
        };
        if watches(registry, &caller, place) {
            self.put(place, caller);
        } else {
            log.refused(&peer, Refusal::NoPlace);
        }
    }

    /// A place that is free now.
    fn vacate<L: DoorLog>(&mut self, alloc: Global, now: u64, log: &mut L) -> Option<usize> {
        if let Some(place) = self.places.iter().position(|place| place.is_none()) {
            return Some(place);
        }
        let place = self.least_needed()?;
        self.cut(alloc, place, Refusal::NoPlace, now, log);
        Some(place)
    }

    /// Refuses the connection that is needed least. False if there is none.
    pub(crate) fn cut_least_needed<L: DoorLog>(
        &mut self,
        alloc: Global,
        now: u64,
        log: &mut L,
    ) -> bool {
        let Some(place) = self.least_needed() else {
            return false;
        };
        self.cut(alloc, place, Refusal::NoPlace, now, log);
        true
    }

    /// Looks at the connection of a token for which something came.
    pub(crate) fn look<L: DoorLog>(&mut self, alloc: Global, token: Token, now: u64, log: &mut L) {
        self.look_at(alloc, token.0.saturating_sub(FIRST), now, log);
    }

    /// Looks at the connection at a place.
    fn look_at<L: DoorLog>(&mut self, alloc: Global, place: usize, now: u64, log: &mut L) {
        let Some(mut caller) = self.take(place) else {
            return;
        };
        match caller.look() {
            Step::Waits => self.put(place, caller),
            Step::Asks(upgrade) => self.is_ready(caller, upgrade, log),
            Step::Refused(refusal) => {
                log.refused(&caller.peer(), refusal);
                if caller.refuse(alloc, refusal, now) {
                    self.put(place, caller);
                }
            }
            Step::Over => {}
        }
    }

    fn is_ready<L: DoorLog>(&mut self, caller: Caller, upgrade: Upgrade, log: &mut L) {
        let peer = caller.peer();
        if self.ready.push_back(Ready { caller, upgrade }).is_err() {
            log.refused(&peer, Refusal::NoPlace);
        }
    }

    /// Refuses those whose time is over.
    pub(crate) fn expire<L: DoorLog>(&mut self, alloc: Global, now: u64, log: &mut L) {
        for place in 0..self.places.len() {
            if self.is_late(place, now) {
                self.end_wait(alloc, place, now, log);
            }
        }
    }

    /// Refuses the connection at a place, whose time is over, unless what has come of it by now completes its head.
    fn end_wait<L: DoorLog>(&mut self, alloc: Global, place: usize, now: u64, log: &mut L) {
        self.look_at(alloc, place, now, log);
        if self.is_late(place, now) {
            self.cut(alloc, place, Refusal::Late, now, log);
        }
    }

    /// The moment at which the next one's time is over.
    pub(crate) fn earliest(&self) -> Option<u64> {
        let place = self.oldest()?;
        self.until(place)
    }

    /// Refuses the connection at a place, and closes it at once.
    fn cut<L: DoorLog>(
        &mut self,
        alloc: Global,
        place: usize,
        refusal: Refusal,
        now: u64,
        log: &mut L,
    ) {
        let Some(mut caller) = self.take(place) else {
            return;
        };
        if !caller.is_refused() {
            log.refused(&caller.peer(), refusal);
            caller.refuse(alloc, refusal, now);
        }
    }

    /// The place of a connection that was refused before, or else of the one whose time is over first.
    fn least_needed(&self) -> Option<usize> {
        match self.places.iter().position(|place| is_refused(place)) {
            Some(place) => Some(place),
            None => self.oldest(),
        }
    }

    /// The place of the connection whose time is over first.
    fn oldest(&self) -> Option<usize> {
        let mut oldest = None;
        let mut least = u64::MAX;
        for place in 0..self.places.len() {
            let until = self.until(place).unwrap_or(u64::MAX);
            if until < least {
                least = until;
                oldest = Some(place);
            }
        }
        oldest
    }

    /// Whether there is a connection at a place whose time is over.
    fn is_late(&self, place: usize, now: u64) -> bool {
        match self.until(place) {
            Some(until) => until <= now,
            None => false,
        }
    }

    /// When the time of the connection at a place is over.
    fn until(&self, place: usize) -> Option<u64> {
        match self.places.get(place)? {
            Some(caller) => Some(caller.until()),
            None => None,
        }
    }

    fn take(&mut self, place: usize) -> Option<Caller> {
        match self.places.get_mut(place) {
            Some(slot) => slot.take(),
            None => None,
        }
    }

    fn put(&mut self, place: usize, caller: Caller) {
        if let Some(slot) = self.places.get_mut(place) {
            *slot = Some(caller);
        }
    }
}

/// Whether there is a connection at a place that was refused before.
fn is_refused(place: &Option<Caller>) -> bool {
    match place {
        Some(caller) => caller.is_refused(),
        None => false,
    }
}

/// Has the door woken when something comes from a connection at a place. False if the system refuses.
fn watches(registry: &Registry, caller: &Caller, place: usize) -> bool {
    let descriptor = caller.descriptor();
    let token = Token(place.saturating_add(FIRST));
    registry
        .register(&mut SourceFd(&descriptor), token, Interest::READABLE)
        .is_ok()
}
