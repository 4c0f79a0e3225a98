//! What the client reports about how it ended.
ghost use Rattle.std.specs.Prelude.{◌≡◌, ◌≤◌};
ghost use Rattle.std.specs.Process.{exit_status};
ghost use Rattle.etp_outside.specs.Status.{number_of};
ghost use Rattle.program_status.specs.Told.{IsTold};
ghost use Rattle.client_forms.specs.Program.{told};

use etp_outside::{Sink, Status};
use std::alloc::Global;
use std::process::ExitCode;

/// What follows the line of `Usage`.
const USAGE: &[u8] =
    b"\netpctl ping URL\netpctl spaces URL\netpctl put URL URI FILE\netpctl get URL URI\netpctl delete URL URI\netpctl load URL URI < LINES\netpctl range URL URI FROM TO\netpctl watch URL URI COUNT\netpctl follow URL URI START\n";

/// Writes to `errors` how the client has ended, and returns its exit status. What can't be written is lost.
pub fn finish<W: Sink>(alloc: Global, status: Status, errors: &mut W) -> ExitCode
    ensures number { exit_status result ≡ number_of status }
    ensures told { IsTold status (told status) (W.held errors.old) (W.held errors.new) (W.faults errors.old) (W.faults errors.new) }
    ensures kept { W.faults errors.old ≤ W.faults errors.new }
{
    program_status::finish(alloc, status, USAGE, errors)
}
