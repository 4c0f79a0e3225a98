//! Breaches of the protocol, and the headers that may come.
ghost use Rattle.std.specs.Prelude.{◌≡◌};
ghost use Rattle.web_frames.specs.Headers.{close_code, may_come, fits_opcode, has_mask_of};

use websocket::protocol::Role;
use websocket::protocol::frame::FrameHeader;
use websocket::protocol::frame::coding::{CloseCode, Data, OpCode};

/// The greatest payload of a control frame, in bytes.
const MAX_CONTROL: u64 = 125;

/// How a peer broke the protocol.
#[derive(Clone, Copy, Debug, PartialEq, Eq)]
pub enum Breach {
    /// A frame that is not allowed, or not at this point.
    Protocol,
    /// A text that is not UTF-8.
    Utf8,
    /// A message of more bytes than can be counted.
    TooLong,
}

impl Breach {
    /// The code of the Close frame that answers it.
    pub fn code(self) -> CloseCode
        ensures { result ≡ close_code self }
    {
        match self {
            Breach::Protocol => CloseCode::Protocol,
            Breach::Utf8 => CloseCode::Invalid,
            Breach::TooLong => CloseCode::Size,
        }
    }
}

/// Whether an endpoint of this role accepts a frame with this header and a payload of this many bytes. `within` says that a message has
/// begun of which a fragment is still to come. It is decided before waiting for any of the payload.
pub(crate) fn may_come(role: Role, within: bool, header: &FrameHeader, length: u64) -> bool
    ensures { result ≡ may_come role within header.now length }
{
    if header.rsv1 || header.rsv2 || header.rsv3 {
        return false;
    }
    has_mask_of(role, header.mask.is_some())
        && fits_opcode(within, header.is_final, length, header.opcode)
}

/// A server accepts frames with masks, and a client frames without.
fn has_mask_of(role: Role, masked: bool) -> bool
    ensures { result ≡ has_mask_of role masked }
{
    match role {
        Role::Server => masked,
        Role::Client => !masked,
    }
}

/// A control frame is whole and short. A message has one first frame, and its other frames are continuations.
fn fits_opcode(within: bool, is_final: bool, length: u64, opcode: OpCode) -> bool
    ensures { result ≡ fits_opcode within is_final length opcode }
{
    match opcode {
        OpCode::Control(_) => is_final && length <= MAX_CONTROL,
        OpCode::Data(Data::Continue) => within,
        OpCode::Data(Data::Text) => !within,
        OpCode::Data(Data::Binary) => !within,
    }
}
