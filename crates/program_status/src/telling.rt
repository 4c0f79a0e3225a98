//! What is written for a status, and the exit status.
ghost use Rattle.std.specs.Prelude.{◌≡◌, ◌≤◌, ◌++◌, OnOk, IfOk, IfErr, IsOk};
ghost use Rattle.std.specs.Process.{exit_status};
ghost use Rattle.etp_outside.specs.Faults.{Rose};
ghost use Rattle.etp_outside.specs.Status.{number_of};
ghost use Rattle.etp_outside.specs.Whole.{WritesAll};
ghost use Rattle.program_status.specs.Told.{IsTold, told_with, ending};

use etp_outside::{Sink, Status, Written, write_all};
use etp_values::NoMemory;
use std::alloc::Global;
use std::process::ExitCode;

/// Writes to `errors` how a program has ended, and returns its exit status. The text is the status line, followed by `usage` if the command
/// line was malformed; `Done` has no line. It may be truncated if the output fails, and missing if memory runs out; the line of `NoMemory`
/// itself needs no memory.
pub fn finish<W: Sink>(alloc: Global, status: Status, usage: &[u8], errors: &mut W) -> ExitCode
    ensures number { exit_status result ≡ number_of status }
    ensures told { IsTold status (told_with usage.now status) (W.held errors.old) (W.held errors.new) (W.faults errors.old) (W.faults errors.new) }
    ensures kept { W.faults errors.old ≤ W.faults errors.new }
{
    let _ = tell(alloc, status, usage, errors);
    ExitCode::from(status.number())
}

/// Writes the text of a status.
fn tell<W: Sink>(
    alloc: Global,
    status: Status,
    usage: &[u8],
    errors: &mut W,
) -> Result<Written, NoMemory>
    ensures bytes { IfOk result (λ written. WritesAll written (told_with usage.now status) (W.held errors.old) (W.held errors.new)) }
    ensures kept { W.faults errors.old ≤ W.faults errors.new }
    ensures cause { IfOk result (λ written. written ≡ Written.Failed → Rose (W.faults errors.old) (W.faults errors.new)) }
    ensures untold { IfErr result (λ _. errors.new ≡ errors.old) }
    ensures memory { status ≡ Status.NoMemory → IsOk result }
{
    match status {
        Status::NoMemory => return Ok(write_all(errors, b"no memory\n")),
        _ => {}
    }
    let mut text = Vec::new(alloc);
    push_told(alloc, status, usage, &mut text)?;
    Ok(write_all(errors, text.as_slice()))
}

/// Appends the whole text of a status.
fn push_told(
    alloc: Global,
    status: Status,
    usage: &[u8],
    into: &mut Vec<u8>,
) -> Result<(), NoMemory>
    ensures { OnOk result (into.new.items ≡ into.old.items ++ told_with usage.now status) }
{
    status.line(alloc, into)?;
    into.extend_from_slice(ending(status, usage))?;
    Ok(())
}

/// What follows a status line.
fn ending(status: Status, usage: &[u8]) -> &[u8]
    ensures { result.now ≡ ending usage.now status }
{
    match status {
        Status::Done => b"",
        Status::Usage => usage,
        Status::Config { .. }
        | Status::Capture(_)
        | Status::ReadFault
        | Status::WriteFault
        | Status::NoMemory
        | Status::ListenFault
        | Status::Limit
        | Status::Refused(_)
        | Status::LinkFault
        | Status::Peer
        | Status::Input(_)
        | Status::Stopped => b"\n",
    }
}
