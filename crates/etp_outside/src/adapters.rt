//! The system's files, streams and clock. They are the trusted edge: no clause says what a file or a stream contains, or what time it is.
ghost use Rattle.std.specs.Prelude.{◌≡◌, None, true, refl};

use crate::clock::Clock;
use crate::host::{Host, Opened};
use crate::sink::{Sink, WriteOutcome};
use crate::source::{ReadOutcome, Source};
use std::alloc::Global;
use std::io::{ErrorKind, Read, Write};
use std::rt::Files;
use std::{fs, time};

/// How often a call that a signal interrupts is tried before the interruption counts as a fault.
const TRIES: u32 = 64;

/// A source over a reader of the system or of memory. It reveals what the reader reveals.
#[derive(Drop)]
pub struct StdSource<R: Read> {
    reader: R,
    faults: u64,
}

impl<R: Read> StdSource<R> {
    /// A source that reads from `reader` and has not failed.
    pub fn new(reader: R) -> StdSource<R>
        ensures left { ⟦<StdSource<R> as Source>⟧.left result ≡ R.remaining reader }
        ensures faults { ⟦<StdSource<R> as Source>⟧.faults result ≡ 0 }
    {
        StdSource { reader, faults: 0 }
    }
}

impl<R: Read> Source for StdSource<R> {
    ghost left = { λ s. R.remaining s.reader };

    ghost faults = { λ s. s.faults };

    fn read(&mut self, buf: &mut [u8]) -> ReadOutcome {
        for _ in 0..TRIES {
            match self.reader.read(buf) {
                Ok(0) => return ReadOutcome::End,
                Ok(count) => return ReadOutcome::Got(count),
                Err(error) => {
                    if error.kind() != ErrorKind::Interrupted {
                        break;
                    }
                }
            }
        }
        self.faults = self.faults.saturating_add(1);
        ReadOutcome::Failed
    }
}

/// A sink over a writer of the system or of memory. It reveals what the writer reveals.
#[derive(Drop)]
pub struct StdSink<W: Write> {
    writer: W,
    faults: u64,
}

impl<W: Write> StdSink<W> {
    /// A sink that writes to `writer` and has not failed.
    pub fn new(writer: W) -> StdSink<W>
        ensures held { ⟦<StdSink<W> as Sink>⟧.held result ≡ W.contents writer }
        ensures faults { ⟦<StdSink<W> as Sink>⟧.faults result ≡ 0 }
    {
        StdSink { writer, faults: 0 }
    }
}

impl<W: Write> Sink for StdSink<W> {
    ghost held = { λ s. W.contents s.writer };

    ghost faults = { λ s. s.faults };

    fn write(&mut self, piece: &[u8]) -> WriteOutcome {
        if piece.is_empty() {
            return WriteOutcome::Took(0);
        }
        for _ in 0..TRIES {
            match self.writer.write(piece) {
                Ok(0) => break,
                Ok(count) => return WriteOutcome::Took(count),
                Err(error) => {
                    if error.kind() != ErrorKind::Interrupted {
                        break;
                    }
                }
            }
        }
        self.faults = self.faults.saturating_add(1);
        WriteOutcome::Failed
    }
}

/// The files of the working directory, and those with absolute names.
#[derive(Drop)]
pub struct DirHost<'a, R: Files> {
    rt: &'a R,
    faults: u64,
}

impl<'a, R: Files> DirHost<'a, R> {
    /// A host over the system's files that has not failed.
    pub fn new(rt: &'a R) -> DirHost<'a, R>
        ensures { ⟦<DirHost<'a, R> as Host>⟧.faults result ≡ 0 }
    {
        DirHost { rt, faults: 0 }
    }
}

impl<'a, R: Files> Host for DirHost<'a, R> {
    type File = StdSource<R::File>;

    ghost content = { λ h name. None };

    ghost faults = { λ h. h.faults };

    fn open(&mut self, _alloc: Global, name: &str) -> Opened<StdSource<R::File>> {
        match fs::open(self.rt, name) {
            Ok(file) => Opened::File(StdSource::new(file)),
            Err(error) => {
                if error.kind() == ErrorKind::OutOfMemory {
                    return Opened::NoMemory;
                }
                self.faults = self.faults.saturating_add(1);
                Opened::Failed
            }
        }
    }

    fn close(&mut self, file: StdSource<R::File>) {
        if file.faults > 0 {
            self.faults = self.faults.saturating_add(1);
        }
    }
}

/// The system's clock. It reveals nothing to proofs.
#[derive(Drop)]
pub struct WallClock<'a, R> {
    rt: &'a R,
    last: i64,
}

impl<'a, R: time::Clock> WallClock<'a, R> {
    /// A clock that has not been read yet. Until the system's clock can be read it returns the moment 0.
    pub fn new(rt: &'a R) -> WallClock<'a, R> {
        WallClock { rt, last: 0 }
    }
}

impl<'a, R: time::Clock + Sync> Clock for WallClock<'a, R> {
    ghost told = { λ c. None };

    ghost passes = { λ c moments. true };

    ghost tested = { λ c moments. refl };

    fn now(&mut self) -> i64 {
        if let Ok(since) = self.rt.since_1970() {
            if let Ok(moment) = i64::try_from(since.as_micros()) {
                self.last = moment;
            }
        }
        self.last
    }

    fn another(&self) -> WallClock<'a, R> {
        WallClock {
            rt: self.rt,
            last: 0,
        }
    }
}
