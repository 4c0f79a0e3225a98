//! The servers that are dialed, case by case.
use crate::answers::{
    ANSWERS_ANOTHER_KEY, CHOOSES_CHAT, CHOOSES_NOTHING, ENDS_FIRST, ENDS_LAST, FINDS_NOTHING,
    GOES_HALFWAY, Part, SAYS_GARBAGE,
};
use crate::client::{Call, Seen, visit};
use crate::network::SampleNet;
use crate::printing::{heard_text, print_request, seen_text, value_in};
use crate::server::{Heard, serve};
use etp_values::Blob;
use outside_net::TcpDial;
use std::alloc::{AllocError, Global};
use std::net::{Net, TcpListener, TcpStream};
use std::random::RandomSource;
use std::thread::Threads;
use std::time::Duration;
use std::{io, thread};

/// An address whose port the system picks.
const ANY_PORT: &str = "127.0.0.1:0";

const HOST: &str = "127.0.0.1";

/// How long to wait for a server that sends nothing, and for any other, in seconds.
const SILENCE: u64 = 1;

const PATIENCE: u64 = 10;

/// A name that no host has, and for which no name server is asked: its one label is one letter longer than a label can be.
const NO_NAME: &str = "aaaaaaaaaaaaaaaaaaaaaaaaaaaaaaaaaaaaaaaaaaaaaaaaaaaaaaaaaaaaaaaa";

/// Has a server play a part to a client of its port.
fn meet<R>(
    rt: &R,
    net: &SampleNet<R>,
    listener: &TcpListener,
    host: &str,
    part: &Part,
    patient: bool,
) -> io::Result<(Heard, Seen)>
where
    R: AllocGlobal
        + Print
        + Threads
        + Sync
        + RandomSource
        + Net<Listener = TcpListener, Stream = TcpStream>,
{
    let alloc = rt.alloc();
    let port = listener.local_addr()?.port();
    let message = hello(alloc)?;
    let mut dial = TcpDial::new(net);
    Ok(thread::join(
        rt,
        || serve(alloc, listener, part),
        || visit(alloc, &mut dial, host, port, &message, patient),
    ))
}

fn hello(alloc: Global) -> Result<Blob, AllocError> {
    Blob::copy(alloc, b"Hello").map_err(|_| AllocError)
}

/// Prints what a client and a server saw of each other.
fn print_case<R>(
    rt: &R,
    net: &SampleNet<R>,
    name: &str,
    part: &Part,
    patient: bool,
) -> io::Result<()>
where
    R: AllocGlobal
        + Print
        + Threads
        + Sync
        + RandomSource
        + Net<Listener = TcpListener, Stream = TcpStream>,
{
    let listener = TcpListener::bind(rt, ANY_PORT)?;
    let (heard, seen) = meet(rt, net, &listener, HOST, part, patient)?;
    print_both(rt, name, &heard, &seen)
}

fn print_both<R: AllocGlobal + Print>(
    rt: &R,
    name: &str,
    heard: &Heard,
    seen: &Seen,
) -> io::Result<()> {
    let seen = seen_text(rt.alloc(), seen)?;
    let heard = heard_text(rt.alloc(), heard)?;
    println!(rt; "{name}: {seen}; the server {heard}")
}

/// Servers that accept the client: what it asks, and who says goodbye first.
pub(crate) fn print_taken<R>(rt: &R, net: &SampleNet<R>) -> io::Result<()>
where
    R: AllocGlobal
        + Print
        + Threads
        + Sync
        + RandomSource
        + Net<Listener = TcpListener, Stream = TcpStream>,
{
    print_asked(rt, net)?;
    print_case(rt, net, "the server says goodbye", &ENDS_FIRST, true)?;
    print_case(rt, net, "the client says goodbye", &ENDS_LAST, false)
}

/// Prints what a client asks.
fn print_asked<R>(rt: &R, net: &SampleNet<R>) -> io::Result<()>
where
    R: AllocGlobal
        + Print
        + Threads
        + Sync
        + RandomSource
        + Net<Listener = TcpListener, Stream = TcpStream>,
{
    let listener = TcpListener::bind(rt, ANY_PORT)?;
    let port = listener.local_addr()?.port();
    let (heard, _seen) = meet(rt, net, &listener, HOST, &ENDS_FIRST, true)?;
    print_request(rt, heard.request.as_slice(), port)
}

/// Servers that answer otherwise.
pub(crate) fn print_refused<R>(rt: &R, net: &SampleNet<R>) -> io::Result<()>
where
    R: AllocGlobal
        + Print
        + Threads
        + Sync
        + RandomSource
        + Net<Listener = TcpListener, Stream = TcpStream>,
{
    print_case(rt, net, "another subprotocol", &CHOOSES_CHAT, true)?;
    print_case(rt, net, "no subprotocol", &CHOOSES_NOTHING, true)?;
    print_case(
        rt,
        net,
        "the answer to another key",
        &ANSWERS_ANOTHER_KEY,
        true,
    )?;
    print_case(rt, net, "not found", &FINDS_NOTHING, true)?;
    print_case(rt, net, "garbage", &SAYS_GARBAGE, true)?;
    print_case(rt, net, "half an answer", &GOES_HALFWAY, true)
}

/// Dials where nobody answers, over the system's own network.
fn print_dialed<R>(rt: &R, name: &str, host: &str, port: u16, patience: u64) -> io::Result<()>
where
    R: AllocGlobal + Print + Sync + RandomSource + Net<Listener = TcpListener, Stream = TcpStream>,
{
    let message = hello(rt.alloc())?;
    let mut dial = TcpDial::with_patience(rt, Duration::from_secs(patience));
    let seen = visit(rt.alloc(), &mut dial, host, port, &message, true);
    let seen = seen_text(rt.alloc(), &seen)?;
    println!(rt; "{name}: {seen}")
}

/// A server that sends nothing, a port at which nobody listens, and a host that has no address.
pub(crate) fn print_unanswered<R>(rt: &R) -> io::Result<()>
where
    R: AllocGlobal + Print + Sync + RandomSource + Net<Listener = TcpListener, Stream = TcpStream>,
{
    let listener = TcpListener::bind(rt, ANY_PORT)?;
    let address = listener.local_addr()?;
    print_dialed(rt, "a silent server", HOST, address.port(), SILENCE)?;
    // As long as it is the port of this client, nobody else can listen there.
    let client = TcpStream::connect(rt, address)?;
    print_dialed(
        rt,
        "nobody listens",
        HOST,
        client.local_addr()?.port(),
        PATIENCE,
    )?;
    print_dialed(rt, "no such host", NO_NAME, address.port(), PATIENCE)
}

/// A server at an IPv6 address: the request has it in brackets. The line is the same if the machine has no such address.
pub(crate) fn print_bracketed<R>(rt: &R, net: &SampleNet<R>) -> io::Result<()>
where
    R: AllocGlobal
        + Print
        + Threads
        + Sync
        + RandomSource
        + Net<Listener = TcpListener, Stream = TcpStream>,
{
    let well = match TcpListener::bind(rt, "[::1]:0") {
        Ok(listener) => is_bracketed(rt, net, &listener)?,
        Err(_) => true,
    };
    println!(rt; "an IPv6 address in brackets, where there is one: {well}")
}

fn is_bracketed<R>(rt: &R, net: &SampleNet<R>, listener: &TcpListener) -> io::Result<bool>
where
    R: AllocGlobal
        + Print
        + Threads
        + Sync
        + RandomSource
        + Net<Listener = TcpListener, Stream = TcpStream>,
{
    let (heard, seen) = meet(rt, net, listener, "[::1]", &ENDS_FIRST, true)?;
    Ok(seen.call == Call::Linked && names_bracketed(heard.request.as_slice()))
}

fn names_bracketed(request: &[u8]) -> bool {
    match std::str::from_utf8(request) {
        Ok(text) => text.lines().any(|line| value_in(line, "Host")
            .unwrap_or("")
            .starts_with("[::1]:")),
        Err(_) => false,
    }
}
