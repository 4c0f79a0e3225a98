//! What the head of a request asks for: the server's side of the opening handshake (RFC 6455, section 4.2.1).
ghost use Rattle.std.specs.Prelude.{◌≡◌, length, All, IfOk};
ghost use Rattle.httparse.specs.Spans.{IsHeaderWithin, IsRequestWithin};
ghost use Rattle.outside_net.specs.Head.{IsAnswered, IfAsks};

use crate::handshake::SUBPROTOCOL;
use crate::refusal::Refusal;
use httparse::Status;
use httparse::spans::{EMPTY_HEADER_SPAN, HeaderSpan, RequestSpans, parse_request};
use websocket::handshake::server::accept_key;

/// The greatest number of lines of a head.
const MOST_LINES: usize = 128;

/// What a head asks for.
#[derive(Clone, Copy, Debug)]
pub(crate) struct Upgrade {
    /// The answer to its key.
    pub(crate) accept: [u8; 28],
    /// Whether it offers the subprotocol.
    pub(crate) offered: bool,
}

/// What the bytes that have come so far are.
#[derive(Clone, Copy, Debug)]
pub(crate) enum Head {
    /// The beginning of a head.
    Part,
    /// A complete head that asks for a WebSocket.
    Asks(Upgrade),
    /// Anything else.
    Refused(Refusal),
}

/// Examines what has come of a head.
pub(crate) fn judge(bytes: &[u8]) -> Head
    ensures { IfAsks result IsAnswered }
{
    let mut spans = [EMPTY_HEADER_SPAN; MOST_LINES];
    let parsed = match parse_request(bytes, &mut spans) {
        Ok(status) => status,
        Err(httparse::Error::TooManyHeaders) => return Head::Refused(Refusal::TooLong),
        Err(_) => return Head::Refused(Refusal::NotHttp),
    };
    let Status::Complete(request) = parsed else {
        return Head::Part;
    };
    if request.len != bytes.len() {
        return Head::Refused(Refusal::Behind);
    }
    match judge_request(bytes, &request, &spans) {
        Ok(upgrade) => Head::Asks(upgrade),
        Err(refusal) => Head::Refused(refusal),
    }
}

/// What a request asks for, or the first reason to refuse it.
fn judge_request(
    bytes: &[u8],
    request: &RequestSpans,
    spans: &[HeaderSpan],
) -> Result<Upgrade, Refusal>
    requires { IsRequestWithin bytes.now spans.now request.now }
    ensures { IfOk result IsAnswered }
{
    if request.method.of(bytes) != b"GET".as_slice() {
        return Err(Refusal::Method);
    }
    if request.version == 0 {
        return Err(Refusal::NoUpgrade);
    }
    judge_lines(bytes, &spans[..request.headers])
}

/// What the lines of a request ask for, or the first reason to refuse it.
fn judge_lines(bytes: &[u8], lines: &[HeaderSpan]) -> Result<Upgrade, Refusal>
    requires { All (IsHeaderWithin (length bytes.now)) lines.now }
    ensures { IfOk result IsAnswered }
{
    if count(bytes, lines, b"host") != 1 {
        return Err(Refusal::Host);
    }
    if !lists(bytes, lines, b"connection", b"upgrade") {
        return Err(Refusal::NoUpgrade);
    }
    if !lists(bytes, lines, b"upgrade", b"websocket") {
        return Err(Refusal::NoUpgrade);
    }
    match check_version(bytes, lines) {
        Some(refusal) => Err(refusal),
        None => judge_key(bytes, lines),
    }
}

/// Why the request is not for version 13 of WebSocket, if it is not.
fn check_version(bytes: &[u8], lines: &[HeaderSpan]) -> Option<Refusal>
    requires { All (IsHeaderWithin (length bytes.now)) lines.now }
{
    if count(bytes, lines, b"sec-websocket-version") > 1 {
        return Some(Refusal::Versions);
    }
    match first(bytes, lines, b"sec-websocket-version") {
        Some(value) if value == b"13".as_slice() => None,
        _ => Some(Refusal::Version),
    }
}

/// The answer to the request's one key.
fn judge_key(bytes: &[u8], lines: &[HeaderSpan]) -> Result<Upgrade, Refusal>
    requires { All (IsHeaderWithin (length bytes.now)) lines.now }
    ensures { IfOk result IsAnswered }
{
    if count(bytes, lines, b"sec-websocket-key") > 1 {
        return Err(Refusal::Key);
    }
    let Some(key) = first(bytes, lines, b"sec-websocket-key") else {
        return Err(Refusal::Key);
    };
    let offered = offers(bytes, lines);
    match accept_key(key) {
        Ok(accept) => Ok(Upgrade { accept, offered }),
        Err(_) => Err(Refusal::Key),
    }
}

/// How many lines have this name, in any case of letters.
fn count(bytes: &[u8], lines: &[HeaderSpan], name: &[u8]) -> usize
    requires { All (IsHeaderWithin (length bytes.now)) lines.now }
{
    let mut count: usize = 0;
    for line in lines {
        if line.name.of(bytes).eq_ignore_ascii_case(name) {
            count = count.saturating_add(1);
        }
    }
    count
}

/// The value of the first line of a name.
fn first<'b>(bytes: &'b [u8], lines: &[HeaderSpan], name: &[u8]) -> Option<&'b [u8]>
    requires { All (IsHeaderWithin (length bytes.now)) lines.now }
{
    for line in lines {
        if line.name.of(bytes).eq_ignore_ascii_case(name) {
            return Some(line.value.of(bytes));
        }
    }
    None
}

/// Whether the lines of a name, taken together as a list, have this item, in any case of letters.
fn lists(bytes: &[u8], lines: &[HeaderSpan], name: &[u8], item: &[u8]) -> bool
    requires { All (IsHeaderWithin (length bytes.now)) lines.now }
{
    for line in lines {
        if line.name.of(bytes).eq_ignore_ascii_case(name) && has_item(line.value.of(bytes), item) {
            return true;
        }
    }
    false
}

/// Whether a list has this item, in any case of letters.
fn has_item(list: &[u8], item: &[u8]) -> bool {
    list.split(|byte| *byte == b',')
        .any(|part| part.trim_ascii().eq_ignore_ascii_case(item))
}

/// Whether the request offers the subprotocol.
fn offers(bytes: &[u8], lines: &[HeaderSpan]) -> bool
    requires { All (IsHeaderWithin (length bytes.now)) lines.now }
{
    for line in lines {
        if line
            .name
            .of(bytes)
            .eq_ignore_ascii_case(b"sec-websocket-protocol")
            && has_offer(line.value.of(bytes))
        {
            return true;
        }
    }
    false
}

/// Whether one of the offers of a line is the subprotocol.
fn has_offer(list: &[u8]) -> bool {
    list.split(|byte| *byte == b',')
        .any(|part| part.trim_ascii() == SUBPROTOCOL.as_bytes())
}
