//! A server of one client, by its bytes.
use crate::answers::Part;
use std::alloc::Global;
use std::io::{self, ErrorKind, Read, Write};
use std::net::{Shutdown, TcpListener, TcpStream};
use std::time::Duration;

/// How long a server waits for its client, in seconds.
const PATIENCE: u64 = 20;

/// The longest request, and the most that a server reads after it, in bytes.
const LONGEST: usize = 1000;

/// What a server got from its client.
#[derive(Drop)]
pub(crate) struct Heard {
    /// The head of the request, with the empty line.
    pub(crate) request: Vec<u8>,
    /// What came after it.
    pub(crate) frames: Vec<u8>,
    /// Whether the client then closed the connection.
    pub(crate) hung_up: bool,
}

/// Takes a client's connection, and plays a part in it until the client has closed it.
pub(crate) fn serve(alloc: Global, listener: &TcpListener, part: &Part) -> Heard {
    let mut heard = Heard {
        request: Vec::new(alloc),
        frames: Vec::new(alloc),
        hung_up: false,
    };
    if let Ok((mut stream, _)) = listener.accept() {
        let _ = play(&mut stream, part, &mut heard);
        heard.hung_up = hear_out(&mut stream, &mut heard.frames);
    }
    heard
}

/// Plays a part, as far as the client lets it.
fn play(stream: &mut TcpStream, part: &Part, heard: &mut Heard) -> io::Result<()> {
    stream.set_read_timeout(Some(Duration::from_secs(PATIENCE)))?;
    read_head(stream, &mut heard.request)?;
    stream.write_all(part.answer)?;
    stream.write_all(part.message)?;
    hear(stream, &mut heard.frames, part.hears)?;
    stream.write_all(part.goodbye)?;
    if part.closes {
        stream.shutdown(Shutdown::Write)?;
    }
    Ok(())
}

/// Reads up to the empty line.
fn read_head(stream: &mut TcpStream, head: &mut Vec<u8>) -> io::Result<()> {
    let mut byte = [0u8; 1];
    for _ in 0..LONGEST {
        stream.read_exact(&mut byte)?;
        head.extend_from_slice(&byte)?;
        if head.as_slice().ends_with(b"\r\n\r\n") {
            break;
        }
    }
    Ok(())
}

/// Reads this many bytes.
fn hear(stream: &mut TcpStream, frames: &mut Vec<u8>, size: usize) -> io::Result<()> {
    let mut byte = [0u8; 1];
    for _ in 0..size {
        stream.read_exact(&mut byte)?;
        frames.extend_from_slice(&byte)?;
    }
    Ok(())
}

/// Reads until the client has closed the connection, and returns whether it has. A connection that it reset counts as closed.
fn hear_out(stream: &mut TcpStream, frames: &mut Vec<u8>) -> bool {
    let mut byte = [0u8; 1];
    for _ in 0..LONGEST {
        match stream.read(&mut byte) {
            Ok(0) => return true,
            Ok(_) => {
                if frames.extend_from_slice(&byte).is_err() {
                    return false;
                }
            }
            Err(error) => return !is_late(error.kind()),
        }
    }
    false
}

/// Whether a read failed because nothing came in time.
fn is_late(kind: ErrorKind) -> bool {
    matches!(kind, ErrorKind::WouldBlock | ErrorKind::TimedOut)
}
