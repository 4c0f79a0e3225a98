//! Copies a file of the working directory and then the input to the output: the system's files and streams through the adapters.
//!
//! It then asks for a file that does not exist, and prints the status line of that.
#![tactic(auto)]

use etp_outside::{
    DirHost, Host, Opened, Sink, Source, Status, StdSink, StdSource, Unread, Written, read_all,
    write_all,
};
use std::alloc::Global;
use std::io;
use std::process::ExitCode;

/// The greatest number of bytes of a file and of the input.
const LIMIT: usize = 65_536;

fn write<W: Sink>(sink: &mut W, bytes: &[u8]) -> Status {
    match write_all(sink, bytes) {
        Written::Done => Status::Done,
        Written::Failed => Status::WriteFault,
    }
}

/// Copies all that a source has left.
fn copy<S: Source, W: Sink>(alloc: Global, source: &mut S, sink: &mut W) -> Status {
    match read_all(alloc, source, LIMIT) {
        Ok(bytes) => write(sink, bytes.as_slice()),
        Err(Unread::TooLong) => Status::Limit,
        Err(Unread::Failed) => Status::ReadFault,
        Err(Unread::NoMemory) => Status::NoMemory,
    }
}

/// Copies a file of the host.
fn copy_file<H: Host, W: Sink>(alloc: Global, host: &mut H, name: &str, sink: &mut W) -> Status {
    match host.open(alloc, name) {
        Opened::File(mut file) => {
            let status = copy(alloc, &mut file, sink);
            host.close(file);
            status
        }
        Opened::Failed => Status::ReadFault,
        Opened::NoMemory => Status::NoMemory,
    }
}

/// Writes the status line and a line feed, and nothing for a status without a line.
fn tell<W: Sink>(alloc: Global, status: Status, sink: &mut W) -> Status {
    let mut line = Vec::new(alloc);
    if status.line(alloc, &mut line).is_err() || line.is_empty() {
        return status;
    }
    if line.push(b'\n').is_err() {
        return Status::NoMemory;
    }
    write(sink, line.as_slice())
}

fn main(rt: HostRuntime) -> io::Result<ExitCode> {
    let alloc = rt.alloc();
    let mut sink = StdSink::new(io::writer(&rt));
    let mut host = DirHost::new(&rt);
    let mut status = copy_file(alloc, &mut host, "greeting", &mut sink);
    if status == Status::Done {
        status = copy(alloc, &mut StdSource::new(rt.reader()), &mut sink);
    }
    if status == Status::Done {
        let missing = copy_file(alloc, &mut host, "missing", &mut sink);
        status = tell(alloc, missing, &mut sink);
    }
    Ok(ExitCode::from(status.number()))
}
