//! The server on the command line: `etpd CONFIG ADDRESS` and `etpd CONFIG ADDRESS SESSIONS`. `server_forms` does the work and says what it
//! is.
#![tactic(auto)]

use etp_outside::StdSink;
use server_forms::run_program;
use std::process::ExitCode;

fn main(rt: HostRuntime) -> ExitCode {
    run_program(&rt, rt.stderr(), &mut StdSink::new(rt.stderr()))
}
