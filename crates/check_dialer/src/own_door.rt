//! Our own listener as the server.
ghost use Rattle.std.specs.Prelude.{◌≡◌, false};

use crate::client::{Call, Seen, ends, next_message, visit};
use etp_outside::{Dialer, Link, Listened, Listener, Next, Sent};
use etp_values::Blob;
use outside_net::{TcpDial, TcpDoor};
use std::alloc::{AllocError, Global};
use std::net::{Net, TcpListener, TcpStream};
use std::random::RandomSource;
use std::thread::Threads;
use std::time::Clock;
use std::{io, thread};

/// How many bytes the message has: more than a link keeps before it writes.
const SIZE: usize = 300_000;

/// How often the door is dialed. It drops a client from which nothing came for two seconds, as may happen on a busy machine.
const TRIES: u32 = 50;

/// Sends the first message of the next link back, and waits for the link's end. Returns whether both came.
fn echo<R: Net<Listener = TcpListener, Stream = TcpStream> + Clock>(
    alloc: Global,
    door: &mut TcpDoor<R>,
) -> bool {
    match door.next(alloc) {
        Next::Link(mut link) => {
            let echoed = send_back(alloc, &mut link) && ends(alloc, &mut link);
            link.close();
            echoed
        }
        Next::Stop | Next::Failed | Next::NoMemory => false,
    }
}

fn send_back<L: Link>(alloc: Global, link: &mut L) -> bool
    requires usable { L.closed link.old ≡ false }
    ensures usable { L.closed link.new ≡ false }
{
    match next_message(alloc, link) {
        Some(message) => link.send(alloc, &message) == Sent::Done,
        None => false,
    }
}

/// Dials a door until it accepts the client, and returns whether the message came back.
fn is_echoed<D: Dialer>(alloc: Global, dial: &mut D, port: u16, message: &Blob) -> bool {
    for _ in 0..TRIES {
        let seen = visit(alloc, dial, "127.0.0.1", port, message, false);
        if seen.call == Call::Linked {
            return is_back(&seen, message);
        }
    }
    false
}

fn is_back(seen: &Seen, message: &Blob) -> bool {
    match &seen.got {
        Some(got) => got.as_bytes() == message.as_bytes(),
        None => false,
    }
}

/// A message whose bytes are not all the same.
fn message(alloc: Global) -> Result<Blob, AllocError> {
    let mut bytes = Vec::with_capacity(alloc, SIZE)?;
    for place in 0..SIZE {
        bytes.push((place % 251) as u8)?;
    }
    Blob::from_vec(bytes).map_err(|_| AllocError)
}

/// Dials our own door, and prints what each side saw.
pub(crate) fn print_own_door<R>(rt: &R) -> io::Result<()>
where
    R: AllocGlobal
        + Print
        + Threads
        + Sync
        + RandomSource
        + Net<Listener = TcpListener, Stream = TcpStream>
        + Clock,
{
    let message = message(rt.alloc())?;
    let mut door = TcpDoor::new(rt);
    match door.listen("127.0.0.1:0") {
        Listened::Done => print_meeting(rt, &mut door, &message),
        Listened::Failed => println!(rt; "our own door: it can't listen"),
    }
}

fn print_meeting<R>(rt: &R, door: &mut TcpDoor<R>, message: &Blob) -> io::Result<()>
where
    R: AllocGlobal
        + Print
        + Threads
        + Sync
        + RandomSource
        + Net<Listener = TcpListener, Stream = TcpStream>
        + Clock,
{
    let alloc = rt.alloc();
    let port = door.port().unwrap_or(0);
    let mut dial = TcpDial::new(rt);
    let (served, echoed) = thread::join(
        rt,
        || echo(alloc, door),
        || is_echoed(alloc, &mut dial, port, message),
    );
    let size = message.len();
    println!(rt; "our own door: {size} bytes came back: {echoed}, then the end: {served}")
}
