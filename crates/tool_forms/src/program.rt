//! The tool over the system: its words, files and streams, the status line, and the exit status.
ghost use Rattle.std.specs.Prelude.{◌≡◌, ◌≤◌};
ghost use Rattle.std.specs.Process.{exit_status};
ghost use Rattle.etp_outside.specs.Status.{number_of};
ghost use Rattle.program_status.specs.Told.{Ends, IsTold};
ghost use Rattle.tool_forms.specs.Program.{told};

use crate::run::run_tool;
use etp_outside::{DirHost, Sink, Status, StdSink, StdSource};
use program_status::words;
use std::alloc::{AllocError, Global};
use std::io::{self, BufReader};
use std::process::ExitCode;
use std::rt::{Env, Files};

/// What follows the line of `Usage`.
const USAGE: &[u8] =
    b"\netptool replay CONFIG < CAPTURE > ANSWERS\netptool show < CAPTURE\netptool check < CAPTURE\netptool capture N > CAPTURE\netptool generate N\n";

/// How much of the input is read at a time.
const READ_AHEAD: usize = 65_536;

/// This much memory is allocated once and freed before the run. The C library then keeps what is freed; otherwise it would return the tree
/// of each large message to the system, and request it again page by page for the next.
const KEPT_MEMORY: usize = 16_777_216;

/// Runs the tool with the program's words, its input and its output, and writes to `errors` how that ended, as [`finish`] does.
pub fn run_program<R, W>(rt: &R, errors: &mut W) -> ExitCode
where
    R: AllocGlobal + Env + Files + Input + Print,
    W: Sink,
    ensures told { Ends told (exit_status result) (W.held errors.old) (W.held errors.new) (W.faults errors.old) (W.faults errors.new) }
    ensures kept { W.faults errors.old ≤ W.faults errors.new }
{
    let alloc = rt.alloc();
    let kept: Result<Vec<u8>, AllocError> = Vec::with_capacity(alloc, KEPT_MEMORY);
    drop(kept);
    let status = run_words(rt);
    finish(alloc, status, errors)
}

/// Runs the tool with the program's words.
fn run_words<R: AllocGlobal + Env + Files + Input + Print>(rt: &R) -> Status {
    let alloc = rt.alloc();
    let words = match words(rt) {
        Ok(words) => words,
        Err(status) => return status,
    };
    let Ok(buffered) = BufReader::with_capacity(alloc, READ_AHEAD, rt.reader()) else {
        return Status::NoMemory;
    };
    let mut input = StdSource::new(buffered);
    let mut out = StdSink::new(io::writer(rt));
    let mut host = DirHost::new(rt);
    run_tool(alloc, words.as_slice(), &mut host, &mut input, &mut out)
}

/// Writes to `errors` how the tool has ended, and returns its exit status. What can't be written is lost.
pub fn finish<W: Sink>(alloc: Global, status: Status, errors: &mut W) -> ExitCode
    ensures number { exit_status result ≡ number_of status }
    ensures told { IsTold status (told status) (W.held errors.old) (W.held errors.new) (W.faults errors.old) (W.faults errors.new) }
    ensures kept { W.faults errors.old ≤ W.faults errors.new }
{
    program_status::finish(alloc, status, USAGE, errors)
}
