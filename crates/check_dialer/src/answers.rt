//! What the servers answer and send, as bytes.

/// What a server does for its one client.
#[derive(Clone, Copy)]
pub(crate) struct Part {
    /// What it answers the request.
    pub(crate) answer: &'static [u8],
    /// What it sends next.
    pub(crate) message: &'static [u8],
    /// How many bytes it then reads.
    pub(crate) hears: usize,
    /// What it sends after that.
    pub(crate) goodbye: &'static [u8],
    /// Whether it then closes its side, before the client has closed its own.
    pub(crate) closes: bool,
}

/// "Hello" in a frame of a server.
const HELLO: &[u8] = b"\x82\x05Hello";

/// A server's goodbye.
const GOODBYE: &[u8] = b"\x88\x00";

/// The length of "Hello" in a client's frame, and of the goodbye after it.
const CLIENT_HELLO: usize = 11;

const CLIENT_GOODBYE: usize = 8;

/// Accepts the request, with the subprotocol. The key is the answer to the standard's sample.
const TAKEN: &[u8] =
    b"HTTP/1.1 101 Switching Protocols\r\nUpgrade: websocket\r\nConnection: Upgrade\r\nSec-WebSocket-Accept: s3pPLMBiTxaQ9kYGzzhZRbK+xOo=\r\nSec-WebSocket-Protocol: etp12.energistics.org\r\n\r\n";

/// The same with another subprotocol.
const TAKEN_AS_CHAT: &[u8] =
    b"HTTP/1.1 101 Switching Protocols\r\nUpgrade: websocket\r\nConnection: Upgrade\r\nSec-WebSocket-Accept: s3pPLMBiTxaQ9kYGzzhZRbK+xOo=\r\nSec-WebSocket-Protocol: chat\r\n\r\n";

/// The same with none.
const TAKEN_AS_NOTHING: &[u8] =
    b"HTTP/1.1 101 Switching Protocols\r\nUpgrade: websocket\r\nConnection: Upgrade\r\nSec-WebSocket-Accept: s3pPLMBiTxaQ9kYGzzhZRbK+xOo=\r\n\r\n";

/// The answer to another key.
const TAKEN_FOR_ANOTHER: &[u8] =
    b"HTTP/1.1 101 Switching Protocols\r\nUpgrade: websocket\r\nConnection: Upgrade\r\nSec-WebSocket-Accept: AAAAAAAAAAAAAAAAAAAAAAAAAAA=\r\nSec-WebSocket-Protocol: etp12.energistics.org\r\n\r\n";

const NOT_FOUND: &[u8] = b"HTTP/1.1 404 Not Found\r\nContent-Length: 0\r\n\r\n";

const GARBAGE: &[u8] = b"garbage\r\n\r\n";

/// An answer that accepts the request, up to the middle of a line.
const HALF: &[u8] =
    b"HTTP/1.1 101 Switching Protocols\r\nUpgrade: websocket\r\nConnection: Upgrade\r\nSec-WebSoc";

/// A server that says goodbye once it has read a message.
pub(crate) const ENDS_FIRST: Part = Part {
    answer: TAKEN,
    message: HELLO,
    hears: CLIENT_HELLO,
    goodbye: GOODBYE,
    closes: false,
};

/// A server that says goodbye once it has read a message and the client's goodbye.
pub(crate) const ENDS_LAST: Part = Part {
    hears: CLIENT_HELLO + CLIENT_GOODBYE,
    ..ENDS_FIRST
};

/// A server that sends nothing more after its answer, and waits for the client to leave.
const ANSWERS_ONLY: Part = Part {
    answer: b"",
    message: b"",
    hears: 0,
    goodbye: b"",
    closes: false,
};

pub(crate) const CHOOSES_CHAT: Part = Part {
    answer: TAKEN_AS_CHAT,
    ..ANSWERS_ONLY
};

pub(crate) const CHOOSES_NOTHING: Part = Part {
    answer: TAKEN_AS_NOTHING,
    ..ANSWERS_ONLY
};

pub(crate) const ANSWERS_ANOTHER_KEY: Part = Part {
    answer: TAKEN_FOR_ANOTHER,
    ..ANSWERS_ONLY
};

pub(crate) const FINDS_NOTHING: Part = Part {
    answer: NOT_FOUND,
    ..ANSWERS_ONLY
};

pub(crate) const SAYS_GARBAGE: Part = Part {
    answer: GARBAGE,
    ..ANSWERS_ONLY
};

/// A server that leaves in the middle of its answer.
pub(crate) const GOES_HALFWAY: Part = Part {
    answer: HALF,
    closes: true,
    ..ANSWERS_ONLY
};
