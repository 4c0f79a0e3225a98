//! A client of one message.
ghost use Rattle.std.specs.Prelude.{◌≡◌, false};

use etp_outside::{Dialed, Dialer, Link, Recv, Sent};
use etp_values::Blob;
use std::alloc::Global;

/// What is asked of a server.
pub(crate) const PATH: &str = "/wells";

/// Enough turns for any wait to be over.
const TURNS: u32 = 1000;

/// What came of dialing.
#[derive(Clone, Copy, PartialEq, Eq)]
pub(crate) enum Call {
    Linked,
    Refused,
    NoMemory,
}

/// What a client saw.
#[derive(Drop)]
pub(crate) struct Seen {
    pub(crate) call: Call,
    /// The first message that came.
    pub(crate) got: Option<Blob>,
    /// Whether the server then ended the link. It is false if that was not awaited.
    pub(crate) ended: bool,
}

/// Dials a port, sends a message, takes one, and hangs up. If the client is patient it first waits until the server has ended the link.
pub(crate) fn visit<D: Dialer>(
    alloc: Global,
    dial: &mut D,
    host: &str,
    port: u16,
    message: &Blob,
    patient: bool,
) -> Seen {
    match dial.dial(alloc, host, port, PATH) {
        Dialed::Link(mut link) => {
            let seen = talk(alloc, &mut link, message, patient);
            dial.hang_up(link);
            seen
        }
        Dialed::Failed => without_link(Call::Refused),
        Dialed::NoMemory => without_link(Call::NoMemory),
    }
}

fn without_link(call: Call) -> Seen {
    Seen {
        call,
        got: None,
        ended: false,
    }
}

fn talk<L: Link>(alloc: Global, link: &mut L, message: &Blob, patient: bool) -> Seen
    requires usable { L.closed link.old ≡ false }
{
    let got = exchange(alloc, link, message);
    let ended = patient && ends(alloc, link);
    Seen {
        call: Call::Linked,
        got,
        ended,
    }
}

/// Sends a message, and takes one.
fn exchange<L: Link>(alloc: Global, link: &mut L, message: &Blob) -> Option<Blob>
    requires usable { L.closed link.old ≡ false }
    ensures usable { L.closed link.new ≡ false }
{
    match link.send(alloc, message) {
        Sent::Done => next_message(alloc, link),
        Sent::Failed | Sent::NoMemory => None,
    }
}

/// The next item, if it is a message.
pub(crate) fn next_message<L: Link>(alloc: Global, link: &mut L) -> Option<Blob>
    requires usable { L.closed link.old ≡ false }
    ensures usable { L.closed link.new ≡ false }
{
    match item(alloc, link) {
        Recv::Got(message) => Some(message),
        Recv::Idle | Recv::End | Recv::Failed | Recv::NoMemory => None,
    }
}

/// Whether the next item is the end.
pub(crate) fn ends<L: Link>(alloc: Global, link: &mut L) -> bool
    requires usable { L.closed link.old ≡ false }
    ensures usable { L.closed link.new ≡ false }
{
    match item(alloc, link) {
        Recv::End => true,
        Recv::Got(_) | Recv::Idle | Recv::Failed | Recv::NoMemory => false,
    }
}

/// The next item that is not idle.
fn item<L: Link>(alloc: Global, link: &mut L) -> Recv
    requires usable { L.closed link.old ≡ false }
    ensures usable { L.closed link.new ≡ false }
{
    for _ in 0..TURNS {
        match link.recv(alloc) {
            Recv::Idle => {}
            other => return other,
        }
    }
    Recv::Idle
}
