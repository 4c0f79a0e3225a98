//! Ends like a program whose peer has ended the subscription: with status 16, and its line on standard output.
#![tactic(auto)]

use etp_outside::{Status, StdSink};
use program_status::finish;
use std::io;
use std::process::ExitCode;

fn main(rt: HostRuntime) -> ExitCode {
    let mut out = StdSink::new(io::writer(&rt));
    finish(rt.alloc(), Status::Stopped, b"", &mut out)
}
