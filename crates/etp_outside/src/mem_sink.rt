//! A sink in memory.
ghost use Rattle.std.specs.Prelude.{◌≡◌, ◌<◌, ◌≤◌, ◌-◌, ◌^◌, length, Some, vec_capacity};
ghost use Rattle.etp_outside.specs.Calls.{new_script};
ghost use Rattle.etp_outside.specs.Faults.{Rose};
ghost use Rattle.etp_outside.specs.Sink.{IsTaken, Writes};
ghost use Rattle.etp_outside.specs.Memory.{IsWriteAnswer, AfterWrite};

use crate::script::Script;
use crate::sink::{Sink, WriteOutcome};
use etp_values::List;
use std::marker::Model;

/// A sink that keeps what is written to it, and fails at the writes that a list names. It allocates beyond the capacity of the `Vec` that
/// it was made with; running out of memory is then a fault.
#[derive(Debug, Drop)]
pub struct MemSink {
    bytes: Vec<u8>,
    most: usize,
    script: Script,
}

impl Model for MemSink {
    ghost use Rattle.std.specs.Prelude.{◌<◌, vec_capacity};
    ghost use Rattle.etp_outside.specs.Output.{Output};

    ghost Value = { Output };

    ghost view = { λ s. record { held = s.bytes.items; room = vec_capacity s.bytes; most = s.most; script = s.script } };

    ghost invariant = { λ s. 0 < s.most };
}

impl MemSink {
    /// A sink that holds these bytes. The writes whose numbers are in `fails` fail; the first write is number 1.
    pub fn new(contents: Vec<u8>, fails: List<u64>) -> MemSink
        ensures { result ≡ record {
          held = contents.items;
          room = vec_capacity contents;
          most = 2 ^ 64 - 1;
          script = new_script fails;
        } }
    {
        MemSink::in_pieces(contents, fails, usize::MAX)
    }

    /// Like `new`, but takes at most `most` bytes per write.
    pub fn in_pieces(contents: Vec<u8>, fails: List<u64>, most: usize) -> MemSink
        requires { 0 < most }
        ensures { result ≡ record {
          held = contents.items;
          room = vec_capacity contents;
          most = most;
          script = new_script fails;
        } }
    {
        MemSink {
            bytes: contents,
            most,
            script: Script::new(fails),
        }
    }

    /// Borrows the bytes that it holds.
    pub fn as_bytes(&self) -> &[u8]
        ensures { result.now ≡ self.now.held }
    {
        self.bytes.as_slice()
    }

    /// How often it failed.
    pub fn faults(&self) -> u64
        ensures { result ≡ self.now.script.faults }
    {
        self.script.faults
    }
}

impl Sink for MemSink {
    ghost held = { λ s. Some s.held };

    ghost faults = { λ s. s.script.faults };

    fn write(&mut self, piece: &[u8]) -> WriteOutcome
        ensures answer { IsWriteAnswer self.old (length piece.now) result }
        ensures after { AfterWrite self.old result self.new }
        ensures count { IsTaken result (length piece.now) }
        ensures bytes { Writes result piece.now (Some self.old.held) (Some self.new.held) }
        ensures kept { self.old.script.faults ≤ self.new.script.faults }
        ensures cause { result ≡ WriteOutcome.Failed → Rose self.old.script.faults self.new.script.faults }
    {
        if self.script.fails_next() {
            self.script.failed();
            return WriteOutcome::Failed;
        }
        let count = piece.len().min(self.most);
        if self.bytes.extend_from_slice(&piece[..count]).is_err() {
            self.script.failed();
            return WriteOutcome::Failed;
        }
        self.script.passed();
        WriteOutcome::Took(count)
    }
}
