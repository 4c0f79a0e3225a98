//! Why a message is refused.
ghost use Rattle.std.specs.Prelude.{◌≡◌};
ghost use Rattle.etp_frame.specs.Reading.{header_of_error};

use crate::header::Header;
use avro_bin::Refusal;
use etp_values::NoMemory;
use thiserror::Error;

/// The first cause in the order of the variants. Offsets count from the message's first byte. A cause that is found after the header
/// carries the header, so that the refusal can name the message.
#[derive(Clone, Copy, Debug, PartialEq, Eq, Drop, Error)]
pub enum FrameError {
    /// The header can't be read.
    #[error("the header can't be read: {0}")]
    Header(Refusal),
    /// The header has an extension.
    #[error("the header has an extension")]
    Extension(Header),
    /// The body is compressed.
    #[error("the body is compressed")]
    Compressed(Header),
    /// No protocol has the header's number.
    #[error("no protocol has the number {}", .0.protocol)]
    UnknownProtocol(Header),
    /// The protocol has no message of the header's number that the sender may send.
    #[error("the sender sends no message {} of protocol {}", .0.kind, .0.protocol)]
    UnknownKind(Header),
    /// The body can't be read.
    #[error("the body can't be read: {1}")]
    Body(Header, Refusal),
    /// Bytes follow the body, from this offset on.
    #[error("bytes follow the body, from byte {1} on")]
    Rest(Header, usize),
    /// Out of memory.
    #[error("out of memory")]
    NoMemory,
}

impl FrameError {
    /// The header of the refused message, if it was read.
    pub fn header(&self) -> Option<Header>
        ensures { result ≡ header_of_error self.now }
    {
        match self {
            FrameError::Extension(header) => Some(*header),
            FrameError::Compressed(header) => Some(*header),
            FrameError::UnknownProtocol(header) => Some(*header),
            FrameError::UnknownKind(header) => Some(*header),
            FrameError::Body(header, _) => Some(*header),
            FrameError::Rest(header, _) => Some(*header),
            FrameError::Header(_) => None,
            FrameError::NoMemory => None,
        }
    }
}

impl From<NoMemory> for FrameError {
    ghost use Rattle.etp_frame.specs.declared.error.FrameError.TheVariants as f;

    ghost from_gives = { λ _ e. e ≡ f.NoMemory };

    fn from(_error: NoMemory) -> FrameError {
        FrameError::NoMemory
    }
}
