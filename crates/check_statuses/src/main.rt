//! Prints each exit status that a program can end with, and what a program that ends with it writes.
#![tactic(auto)]

use etp_outside::{Status, StdSink};
use program_status::finish;
use std::io;
use std::process::ExitCode;

/// How the program is called.
const USAGE: &[u8] = b"\nhow it is called\n";

/// A refused configuration.
fn config(cause: u8) -> Status {
    Status::Config {
        cause,
        channel: 4_096,
        key: 5,
    }
}

fn main(rt: HostRuntime) -> io::Result<()> {
    let mut out = StdSink::new(io::writer(&rt));
    for status in [
        Status::Done,
        Status::Usage,
        config(1),
        config(2),
        config(3),
        config(4),
        config(5),
        config(6),
        config(7),
        Status::Capture(1_073_741_824),
        Status::ReadFault,
        Status::WriteFault,
        Status::NoMemory,
        Status::ListenFault,
        Status::Limit,
        Status::Refused(31_580_641),
        Status::LinkFault,
        Status::Peer,
        Status::Input(18_446_744_073_709_551_615),
        Status::Stopped,
    ] {
        let number = status.number();
        println!(rt; "{number}")?;
        if finish(rt.alloc(), status, USAGE, &mut out) != ExitCode::from(number) {
            println!(rt; "another exit status")?;
        }
    }
    Ok(())
}
