//! The system's network, with known random bytes.
use std::io;
use std::net::{Net, SocketAddr, TcpListener, TcpStream};
use std::random::RandomSource;
use std::time::Duration;

/// The standard's sample: a key is made of all of it, and a mask of its first four bytes.
const NONCE: &[u8] = b"the sample nonce";

/// A network whose random bytes are always the first ones of the sample.
#[derive(Drop)]
pub(crate) struct SampleNet<'a, R> {
    rt: &'a R,
}

impl<'a, R> SampleNet<'a, R> {
    pub(crate) fn new(rt: &'a R) -> SampleNet<'a, R> {
        SampleNet { rt }
    }
}

impl<'a, R> RandomSource for SampleNet<'a, R> {
    fn fill_bytes(&self, buf: &mut [u8]) -> io::Result<()> {
        let size = buf.len().min(NONCE.len());
        buf[..size].copy_from_slice(&NONCE[..size]);
        Ok(())
    }
}

impl<'a, R: Net<Listener = TcpListener, Stream = TcpStream>> Net for SampleNet<'a, R> {
    type Stream = TcpStream;

    type Listener = TcpListener;

    fn bind(&self, addr: SocketAddr) -> io::Result<TcpListener> {
        self.rt.bind(addr)
    }

    fn connect(&self, addr: SocketAddr) -> io::Result<TcpStream> {
        self.rt.connect(addr)
    }

    fn connect_timeout(&self, addr: SocketAddr, timeout: Duration) -> io::Result<TcpStream> {
        self.rt.connect_timeout(addr, timeout)
    }
}
