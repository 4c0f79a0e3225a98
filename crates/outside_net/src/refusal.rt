//! Why a connection was given no link, and what it is answered.
ghost use Rattle.std.specs.Prelude.{◌≡◌};
ghost use Rattle.outside_net.specs.Refusals.{words_of};

use std::alloc::{AllocError, Global};
use std::fmt;

/// Why a connection was given no link.
#[derive(Clone, Copy, Debug, PartialEq, Eq)]
pub enum Refusal {
    /// What came is not the head of an HTTP request.
    NotHttp,
    /// The head has more than 65,536 bytes, or more than 128 lines.
    TooLong,
    /// More bytes follow the head. A client has to wait for the answer.
    Behind,
    /// The head was not complete in time.
    Late,
    /// The method is not GET.
    Method,
    /// There is no line `Host`, or there are several.
    Host,
    /// It asks for no WebSocket, or with a version of HTTP below 1.1.
    NoUpgrade,
    /// There is no version of WebSocket, or another one than 13.
    Version,
    /// There are several versions of WebSocket.
    Versions,
    /// There is no key, there are several, or it is not the base64 of 16 bytes.
    Key,
    /// Another connection took its place among those whose handshake is not done, or the system has nothing left for a link.
    NoPlace,
    /// The peer left, or its connection failed, before the handshake was done.
    Left,
}

impl Refusal {
    /// The end of the status line. `None` if nothing is answered.
    fn status(self) -> Option<&'static str> {
        match self {
            Refusal::NotHttp | Refusal::Behind | Refusal::Host | Refusal::Versions | Refusal::Key =>
                Some("400 Bad Request"),
            Refusal::TooLong => Some("431 Request Header Fields Too Large"),
            Refusal::Late => Some("408 Request Timeout"),
            Refusal::Method => Some("405 Method Not Allowed"),
            Refusal::NoUpgrade | Refusal::Version => Some("426 Upgrade Required"),
            Refusal::NoPlace => Some("503 Service Unavailable"),
            Refusal::Left => None,
        }
    }

    /// The header lines that only some refusals have.
    fn fields(self) -> &'static str {
        match self {
            Refusal::Method => "Allow: GET\r\nConnection: close\r\n",
            Refusal::NoUpgrade | Refusal::Version => {
                "Upgrade: websocket\r\nConnection: Upgrade, close\r\nSec-WebSocket-Version: 13\r\n"
            }
            Refusal::NoPlace => "Retry-After: 1\r\nConnection: close\r\n",
            Refusal::NotHttp
            | Refusal::TooLong
            | Refusal::Behind
            | Refusal::Late
            | Refusal::Host
            | Refusal::Versions
            | Refusal::Key
            | Refusal::Left => "Connection: close\r\n",
        }
    }

    /// The cause in words.
    pub fn words(self) -> &'static str
        ensures { result.now ≡ words_of self }
    {
        match self {
            Refusal::NotHttp => "this is not an HTTP request",
            Refusal::TooLong => "the request is too long",
            Refusal::Behind => "something follows the request before it is answered",
            Refusal::Late => "the request did not come in time",
            Refusal::Method => "the method is not GET",
            Refusal::Host => "the request has no Host, or several",
            Refusal::NoUpgrade => "the request asks for no WebSocket over HTTP/1.1",
            Refusal::Version => "Sec-WebSocket-Version is not 13",
            Refusal::Versions => "Sec-WebSocket-Version is there twice",
            Refusal::Key =>
                "Sec-WebSocket-Key is missing, there twice, or not the base64 of 16 bytes",
            Refusal::NoPlace => "there is no place for a further connection",
            Refusal::Left => "the peer left before its handshake was done",
        }
    }

    /// The answer, with the cause as its text. `None` if nothing is answered.
    pub(crate) fn answer(self, alloc: Global) -> Result<Option<String>, AllocError> {
        let Some(status) = self.status() else {
            return Ok(None);
        };
        let fields = self.fields();
        let words = self.words();
        let text = format!(in alloc; "{words}\n")?;
        let long = text.len();
        let answer = format!(in alloc;
            "HTTP/1.1 {status}\r\n{fields}Content-Type: text/plain\r\nContent-Length: {long}\r\n\r\n{text}"
        )?;
        Ok(Some(answer))
    }
}

impl fmt::Display for Refusal {
    fn fmt<W: fmt::Write>(&self, f: &mut fmt::Formatter<W>) -> fmt::Result {
        f.write_str(self.words())
    }
}
