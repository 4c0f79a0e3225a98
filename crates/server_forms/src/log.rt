//! The lines about connections on standard error.
use etp_outside::{Sink, write_all};
use httpdate::HttpDate;
use outside_net::{DoorLog, Refusal};
use std::alloc::Global;
use std::io;
use std::net::SocketAddr;
use std::time::Clock;

/// The greatest number of lines in one second.
const MOST: u32 = 10;

/// Writes a line for each connection that was refused and for each session that ended, with the moment, the peer and the cause, at most ten
/// in a second: then how many were left out. What can't be written is lost.
#[derive(Drop)]
pub(crate) struct Log<'a, R, W> {
    rt: &'a R,
    errors: W,
    alloc: Global,
    /// The second in which the last line was written, since 1970.
    second: u64,
    /// How many lines were written in it.
    lines: u32,
    left_out: u64,
}

impl<'a, R: Clock, W: Sink> Log<'a, R, W> {
    /// A log without a line.
    pub(crate) fn new(alloc: Global, rt: &'a R, errors: W) -> Log<'a, R, W> {
        Log {
            rt,
            errors,
            alloc,
            second: 0,
            lines: 0,
            left_out: 0,
        }
    }

    /// Writes that the server listens at a port.
    pub(crate) fn listening(&mut self, port: u16) {
        if let Ok(line) = format!(in self.alloc; "listening at port {port}\n") {
            self.write(line.as_str());
        }
    }

    /// Writes why the server can't listen at an address.
    pub(crate) fn not_listening(&mut self, address: &str, cause: &str) {
        if let Ok(line) = format!(in self.alloc; "can't listen at {address}: {cause}\n") {
            self.write(line.as_str());
        }
    }

    fn write(&mut self, line: &str) {
        let _ = write_all(&mut self.errors, line.as_bytes());
    }

    /// The moment of a line that may be written now. `None` if its second has had its lines, or the clock fails.
    fn moment(&mut self) -> Option<HttpDate> {
        let Ok(time) = self.rt.since_1970() else {
            return None;
        };
        let second = time.as_secs();
        let Ok(moment) = HttpDate::from_unix_secs(second) else {
            return None;
        };
        if second != self.second {
            self.begin(second, moment);
        }
        if self.lines >= MOST {
            self.left_out = self.left_out.saturating_add(1);
            return None;
        }
        self.lines = self.lines.saturating_add(1);
        Some(moment)
    }

    /// Begins another second, and writes how many lines the previous one left out.
    fn begin(&mut self, second: u64, moment: HttpDate) {
        let left_out = self.left_out;
        self.second = second;
        self.lines = 0;
        self.left_out = 0;
        if left_out == 0 {
            return;
        }
        if let Ok(line) = format!(in self.alloc; "{moment} left out {left_out} lines\n") {
            self.write(line.as_str());
        }
    }
}

impl<'a, R: Clock, W: Sink> DoorLog for Log<'a, R, W> {
    fn refused(&mut self, peer: &SocketAddr, refusal: Refusal) {
        let Some(moment) = self.moment() else {
            return;
        };
        if let Ok(line) = format!(in self.alloc; "{moment} refused {peer}: {refusal}\n") {
            self.write(line.as_str());
        }
    }

    fn unaccepted(&mut self, error: &io::Error) {
        let Some(moment) = self.moment() else {
            return;
        };
        if let Ok(line) = format!(in self.alloc; "{moment} accepted nobody: {error}\n") {
            self.write(line.as_str());
        }
    }

    fn ended(&mut self, peer: &SocketAddr, number: u64, end: u8) {
        let Some(moment) = self.moment() else {
            return;
        };
        let cause = end_words(end);
        let line = if number == 0 {
            format!(in self.alloc; "{moment} no session for {peer}: {cause}\n")
        } else {
            format!(in self.alloc; "{moment} session {number} of {peer} ended: {cause}\n")
        };
        if let Ok(line) = line {
            self.write(line.as_str());
        }
    }
}

/// How a session ended, by the number that serving gives.
fn end_words(end: u8) -> &'static str {
    match end {
        1 => "the client closed it",
        2 => "the session was refused",
        3 => "its message ids were spent",
        4 => "the link ended",
        5 => "the journal is full",
        6 => "the link failed",
        7 => "out of memory",
        _ => "for another cause",
    }
}
