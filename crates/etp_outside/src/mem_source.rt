//! A source in memory.
ghost use Rattle.std.specs.Prelude.{◌≡◌, ◌<◌, ◌≤◌, ◌-◌, ◌^◌, length, drop, Some};
ghost use Rattle.etp_outside.specs.Calls.{new_script};
ghost use Rattle.etp_outside.specs.Faults.{Rose};
ghost use Rattle.etp_outside.specs.Source.{IsCount, Reads};
ghost use Rattle.etp_outside.specs.Memory.{read_answer, after_read};

use crate::script::Script;
use crate::source::{ReadOutcome, Source};
use etp_values::{Blob, List};
use std::marker::Model;

/// A source that gives the bytes of a [`Blob`], and fails at the reads that a list names.
#[derive(Debug, Drop)]
pub struct MemSource {
    bytes: Blob,
    at: usize,
    most: usize,
    script: Script,
}

impl Model for MemSource {
    ghost use Rattle.std.specs.Prelude.{◌<◌, ◌≤◌, length, drop};
    ghost use Rattle.etp_outside.specs.Input.{Input};

    ghost Value = { Input };

    ghost view = { λ s. record { left = drop s.at s.bytes; most = s.most; script = s.script } };

    ghost invariant = { λ s. (s.at ≤ length s.bytes) × (0 < s.most) };
}

impl MemSource {
    /// A source of these bytes. The reads whose numbers are in `fails` fail; the first read is number 1.
    pub fn new(contents: Blob, fails: List<u64>) -> MemSource
        ensures { result ≡ record { left = contents; most = 2 ^ 64 - 1; script = new_script fails } }
    {
        MemSource::in_pieces(contents, fails, usize::MAX)
    }

    /// Like `new`, but gives at most `most` bytes per read.
    pub fn in_pieces(contents: Blob, fails: List<u64>, most: usize) -> MemSource
        requires { 0 < most }
        ensures { result ≡ record { left = contents; most = most; script = new_script fails } }
    {
        MemSource {
            bytes: contents,
            at: 0,
            most,
            script: Script::new(fails),
        }
    }

    /// How often it failed.
    pub fn faults(&self) -> u64
        ensures { result ≡ self.now.script.faults }
    {
        self.script.faults
    }
}

impl Source for MemSource {
    ghost left = { λ s. Some s.left };

    ghost faults = { λ s. s.script.faults };

    fn read(&mut self, buf: &mut [u8]) -> ReadOutcome
        requires { 0 < length buf.old }
        ensures answer { result ≡ read_answer self.old (length buf.old) }
        ensures after { self.new ≡ after_read self.old (length buf.old) }
        ensures count { IsCount result (length buf.new) }
        ensures bytes { Reads result buf.new (Some self.old.left) (Some self.new.left) }
        ensures kept { self.old.script.faults ≤ self.new.script.faults }
        ensures cause { result ≡ ReadOutcome.Failed → Rose self.old.script.faults self.new.script.faults }
    {
        if self.script.fails_next() {
            self.script.failed();
            return ReadOutcome::Failed;
        }
        self.script.passed();
        let bytes = self.bytes.as_bytes();
        if self.at >= bytes.len() {
            return ReadOutcome::End;
        }
        let count = buf.len().min(self.most).min(bytes.len() - self.at);
        buf[..count].copy_from_slice(&bytes[self.at..self.at + count]);
        self.at += count;
        ReadOutcome::Got(count)
    }
}
