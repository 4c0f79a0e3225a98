//! Captures and loads on the command line: `etptool replay CONFIG`, `etptool show`, `etptool check`, `etptool capture N` and `etptool
//! generate N`. `tool_forms` does the work and says what each does.
#![tactic(auto)]

use etp_outside::StdSink;
use std::process::ExitCode;
use tool_forms::run_program;

fn main(rt: HostRuntime) -> ExitCode {
    run_program(&rt, &mut StdSink::new(rt.stderr()))
}
