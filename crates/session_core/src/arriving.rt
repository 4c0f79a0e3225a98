//! What arrives: a message, or why there is none.
ghost use Rattle.std.specs.Prelude.{◌≡◌, IfOk, OnOk};
ghost use Rattle.etp_frame.specs.Reading.{IsFault};
ghost use Rattle.session_core.specs.Arriving.{arrived_message, error_event, follows, message_event, refused_event, request_of};

use crate::state::{Arrived, Request};
use etp_frame::{FrameError, Header, Message, read_message};
use etp_schema::Side;
use etp_values::{ErrorCode, NoMemory};
use std::alloc::Global;

/// The maximum length of a message, in bytes.
pub(crate) const MAX_MESSAGE_LEN: usize = 16_777_216;

/// The message of these bytes, after one with the id `last_id`.
pub(crate) fn arrived_message(
    alloc: Global,
    last_id: i64,
    bytes: &[u8],
    moment: i64,
) -> Result<Arrived, NoMemory>
    ensures { IfOk result (λ a. a ≡ arrived_message last_id moment bytes.now) }
{
    if bytes.len() > MAX_MESSAGE_LEN {
        return Ok(Arrived::Unreadable(ErrorCode::SizeExceeded));
    }
    match read_message(alloc, bytes, Side::Client) {
        Ok((header, message)) => Ok(message_event(last_id, moment, header, message)),
        Err(error) => {
            let arrived = error_event(last_id, error)?;
            Ok(arrived)
        }
    }
}

/// A message that could be read.
fn message_event(last_id: i64, moment: i64, header: Header, message: Message) -> Arrived
    ensures { result ≡ message_event last_id moment header message }
{
    if follows(last_id, header.id) {
        return Arrived::Fresh {
            header,
            moment,
            message,
        };
    }
    stale(&header, message)
}

/// A message whose id doesn't follow, whose content is not looked at.
fn stale(header: &Header, message: Message) -> Arrived
    ensures { result ≡ Arrived.Stale (request_of header.now) }
{
    drop(message);
    Arrived::Stale(request_of(header))
}

/// What a refusal or a reply answers.
pub(crate) fn request_of(header: &Header) -> Request
    ensures { result ≡ request_of header.now }
{
    Request {
        protocol: header.protocol,
        id: header.id,
    }
}

/// Bytes that are not a message.
fn error_event(last_id: i64, error: FrameError) -> Result<Arrived, NoMemory>
    ensures value { IfOk result (λ a. a ≡ error_event last_id error) }
    ensures fault { OnOk result (IsFault error) }
{
    match error {
        FrameError::Header(_) => Ok(Arrived::Unreadable(ErrorCode::InvalidMessage)),
        FrameError::Extension(header) => Ok(refused_event(
            last_id,
            &header,
            ErrorCode::InvalidMessage,
        )),
        FrameError::Compressed(header) => {
            Ok(refused_event(last_id, &header, ErrorCode::CompressionNotSupported))
        }
        FrameError::UnknownProtocol(header) => {
            Ok(refused_event(last_id, &header, ErrorCode::UnsupportedProtocol))
        }
        FrameError::UnknownKind(header) => {
            Ok(refused_event(last_id, &header, ErrorCode::InvalidMessageType))
        }
        FrameError::Body(header, _) => Ok(refused_event(
            last_id,
            &header,
            ErrorCode::InvalidMessage,
        )),
        FrameError::Rest(header, _) => Ok(refused_event(
            last_id,
            &header,
            ErrorCode::InvalidMessage,
        )),
        FrameError::NoMemory => Err(NoMemory),
    }
}

/// A message that is refused because of its bytes.
fn refused_event(last_id: i64, header: &Header, code: ErrorCode) -> Arrived
    ensures { result ≡ refused_event last_id header.now code }
{
    let request = request_of(header);
    if follows(last_id, request.id) {
        Arrived::Refused { request, code }
    } else {
        Arrived::Stale(request)
    }
}

/// Whether a message of this id may come after one of that id.
fn follows(last_id: i64, id: i64) -> bool
    ensures { result ≡ follows last_id id }
{
    last_id < id && id % 2 == 0
}
