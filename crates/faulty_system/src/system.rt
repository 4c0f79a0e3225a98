//! The system and its faults.
ghost use Rattle.std.specs.Io.{WritesAtMost};

use etp_capture::kinds;
use std::alloc::{Allocator, Global};
use std::env::FillError;
use std::fmt::Display;
use std::fs::{File, Metadata, OpenOptions};
use std::io::{self, BufRead, ErrorKind, Lines};
use std::rt::{Env, Files};

/// The kind of the capture's only frame.
const KIND: u8 = kinds::POLL;

/// A capture of one poll: the eight bytes that a capture begins with, the frame's kind, and its tag, moment and length.
const POLLED: &[u8] = &[
    b'E', b'T', b'P', b'C', b'A', b'P', b'0', b'1', KIND, 0, 0, 0, 0, 0, 0, 0, 0, 0, 0, 0, 0, 0, 0,
    0, 0,
];

/// Words, the process's memory, an input of one frame, no memory for files, and an output that takes nothing.
#[derive(Drop)]
pub struct FaultySystem<'a> {
    rt: &'a HostRuntime,
    words: &'a [&'a str],
}

impl<'a> FaultySystem<'a> {
    /// A system over that of the process, with these words, of which the first is the program's name.
    pub fn new(rt: &'a HostRuntime, words: &'a [&'a str]) -> FaultySystem<'a> {
        FaultySystem { rt, words }
    }
}

/// Copies a word to the start of a buffer.
fn fill(word: &[u8], buf: &mut [u8]) -> Result<usize, FillError>
    ensures { WritesAtMost result buf.new }
{
    if word.len() > buf.len() {
        return Err(FillError::TooLong);
    }
    buf[..word.len()].copy_from_slice(word);
    Ok(word.len())
}

/// Nothing but opening files is asked of the system.
fn unsupported<T>() -> io::Result<T> {
    Err(io::Error::from(ErrorKind::Unsupported))
}

/// The output is full.
fn full() -> io::Result<()> {
    Err(io::Error::from(ErrorKind::StorageFull))
}

impl<'a> Alloc for FaultySystem<'a> {
    type A = Global;

    fn alloc(&self) -> Global {
        self.rt.alloc()
    }
}

impl<'a> Env for FaultySystem<'a> {
    fn arg(&self, i: usize, buf: &mut [u8]) -> Result<usize, FillError> {
        match self.words.get(i) {
            Some(word) => fill(word.as_bytes(), buf),
            None => Err(FillError::NotPresent),
        }
    }

    fn var(&self, name: &str, buf: &mut [u8]) -> Result<usize, FillError> {
        self.rt.var(name, buf)
    }

    fn var_at(&self, i: usize, buf: &mut [u8]) -> Result<usize, FillError> {
        self.rt.var_at(i, buf)
    }
}

impl<'a> Input for FaultySystem<'a> {
    type Reader = &'static [u8];

    fn read_line<A: Allocator + Clone>(&self, _buf: &mut String<A>) -> io::Result<usize> {
        Err(io::Error::from(ErrorKind::Unsupported))
    }

    fn lines<A: Allocator>(&self, alloc: A) -> Lines<&'static [u8], A> {
        self.reader().lines(alloc)
    }

    fn reader(&self) -> &'static [u8] {
        POLLED
    }
}

impl<'a> Print for FaultySystem<'a> {
    fn print<D: Display + Drop>(&self, _value: D) -> io::Result<()> {
        full()
    }

    fn println<D: Display + Drop>(&self, _value: D) -> io::Result<()> {
        full()
    }

    fn write_all(&self, _bytes: &[u8]) -> io::Result<()> {
        full()
    }
}

impl<'a> Files for FaultySystem<'a> {
    type File = File;

    type Dir = &'static [u8];

    fn open_file(&self, _how: &OpenOptions, _path: &str) -> io::Result<File> {
        Err(io::Error::from(ErrorKind::OutOfMemory))
    }

    fn open_dir(&self, _path: &str) -> io::Result<&'static [u8]> {
        unsupported()
    }

    fn metadata(&self, _path: &str) -> io::Result<Metadata> {
        unsupported()
    }

    fn symlink_metadata(&self, _path: &str) -> io::Result<Metadata> {
        unsupported()
    }

    fn copy(&self, _from: &str, _to: &str) -> io::Result<u64> {
        unsupported()
    }

    fn rename(&self, _from: &str, _to: &str) -> io::Result<()> {
        unsupported()
    }

    fn remove_file(&self, _path: &str) -> io::Result<()> {
        unsupported()
    }

    fn create_dir(&self, _path: &str) -> io::Result<()> {
        unsupported()
    }

    fn remove_dir(&self, _path: &str) -> io::Result<()> {
        unsupported()
    }

    fn remove_dir_all<B: Allocator>(&self, _alloc: B, _path: &str) -> io::Result<()> {
        unsupported()
    }
}
