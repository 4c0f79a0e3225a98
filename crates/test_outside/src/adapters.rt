//! The adapters over the system: calls that a signal interrupts, and the clock.
ghost use Rattle.std.specs.Prelude.{◌≡◌, IfOk};

use etp_outside::{Clock, ReadOutcome, Sink, Source, StdSink, StdSource, WallClock, WriteOutcome};
use std::io::{self, ErrorKind, Read, Write};
use std::process::Abort;

/// What a signal interrupts this many times, before it reads and writes all that it is asked to.
#[derive(Drop)]
struct Interrupted {
    times: u32,
}

impl Interrupted {
    fn call(&mut self, len: usize) -> io::Result<usize>
        ensures { IfOk result (λ n. n ≡ len) }
    {
        if self.times == 0 {
            return Ok(len);
        }
        self.times -= 1;
        Err(ErrorKind::Interrupted.into())
    }
}

impl Read for Interrupted {
    fn read(&mut self, buf: &mut [u8]) -> io::Result<usize> {
        self.call(buf.len())
    }
}

impl Write for Interrupted {
    fn write(&mut self, piece: &[u8]) -> io::Result<usize> {
        self.call(piece.len())
    }

    fn flush(&mut self) -> io::Result<()> {
        Ok(())
    }
}

/// That a read with this many interruptions gives this, and a write that.
fn interrupts(rt: &impl Abort, times: u32, read: ReadOutcome, wrote: WriteOutcome) {
    let mut input = StdSource::new(Interrupted { times });
    assert!(rt; input.read(&mut [0u8; 3]) == read);
    let mut out = StdSink::new(Interrupted { times });
    assert!(rt; out.write(b"abc") == wrote);
}

#[test]
fn an_interrupted_call_is_made_64_times(rt: HostRuntime) {
    interrupts(&rt, 1, ReadOutcome::Got(3), WriteOutcome::Took(3));
    interrupts(&rt, 63, ReadOutcome::Got(3), WriteOutcome::Took(3));
    interrupts(&rt, 64, ReadOutcome::Failed, WriteOutcome::Failed);
}

/// Between the years 2020 and 2500 in microseconds: a count of milliseconds or of nanoseconds is far from that.
#[test]
fn the_clock_counts_microseconds(rt: HostRuntime) {
    let now = WallClock::new(&rt).now();
    assert!(rt; now > 1_577_836_800_000_000);
    assert!(rt; now < 16_725_225_600_000_000);
}
