//! The client over the system: its words, files, sockets and streams.
use crate::counted_source::CountedSource;
use crate::progress::Progress;
use client_forms::{Streams, run_client};
use etp_outside::{DirHost, Sink, Status, StdSink, StdSource, WallClock};
use outside_net::TcpDial;
use program_status::words;
use std::alloc::AllocError;
use std::io::{self, BufReader};
use std::net::{Net, TcpListener, TcpStream};
use std::random::RandomSource;
use std::rt::{Env, Files};
use std::sync::Wait;
use std::time;
use watch_views::View;

/// How much of the input is read at a time.
const READ_AHEAD: usize = 65_536;

/// This much memory is allocated once and freed before the run. The C library then keeps what is freed; otherwise it would return the
/// memory of a large message to the system, and request it again page by page for the next.
const KEPT_MEMORY: usize = 16_777_216;

/// Runs the client with the program's words, its input and its output. The views show the channel that is watched, and `points` has the points
/// of the input.
pub(crate) fn run_words<R, T, E>(
    rt: &R,
    views: Vec<Box<dyn View>>,
    points: Progress<T, E>,
) -> Status
where
    R: AllocGlobal
        + Env
        + Files
        + Input
        + Print
        + RandomSource
        + Net<Listener = TcpListener, Stream = TcpStream>
        + time::Clock
        + Wait
        + Sync,
    T: time::Clock + Drop,
    E: Sink + Drop,
{
    let alloc = rt.alloc();
    let kept: Result<Vec<u8>, AllocError> = Vec::with_capacity(alloc, KEPT_MEMORY);
    drop(kept);
    let words = match words(rt) {
        Ok(words) => words,
        Err(status) => return status,
    };
    let Ok(buffered) = BufReader::with_capacity(alloc, READ_AHEAD, rt.reader()) else {
        return Status::NoMemory;
    };
    let streams = Streams {
        input: CountedSource::new(StdSource::new(buffered), points),
        out: StdSink::new(io::writer(rt)),
        clock: WallClock::new(rt),
    };
    let mut host = DirHost::new(rt);
    let mut dialer = TcpDial::new(rt);
    let (status, _) = run_client(
        rt,
        alloc,
        words.as_slice(),
        &mut host,
        &mut dialer,
        streams,
        views,
    );
    status
}
