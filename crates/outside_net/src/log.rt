//! Where a door reports what becomes of its connections.
use crate::refusal::Refusal;
use std::io;
use std::net::SocketAddr;

/// Receives reports of the connections that a door refuses, and of how the sessions of its links ended.
pub trait DoorLog {
    /// The connection of this peer was given no link.
    fn refused(&mut self, peer: &SocketAddr, refusal: Refusal);

    /// A connection could not be accepted.
    fn unaccepted(&mut self, error: &io::Error);

    /// The session of this number, whose link has this peer, has ended this way. The number is 0 if no session was let in.
    fn ended(&mut self, peer: &SocketAddr, number: u64, end: u8);
}

/// A log that keeps nothing.
#[derive(Clone, Copy, Debug)]
pub struct NoLog;

impl DoorLog for NoLog {
    fn refused(&mut self, _peer: &SocketAddr, _refusal: Refusal) {}

    fn unaccepted(&mut self, _error: &io::Error) {}

    fn ended(&mut self, _peer: &SocketAddr, _number: u64, _end: u8) {}
}
