//! The codes with which a request is refused, and their texts.
ghost use Rattle.std.specs.Prelude.{◌≡◌};
ghost use Rattle.etp_values.specs.Code.{number_of, text_of};

/// Why a request is refused. A ProtocolException carries the number and exactly this text.
#[derive(Clone, Copy, Debug, PartialEq, Eq, Drop)]
pub enum ErrorCode {
    /// The client and the server have no protocol in common.
    NoSupportedProtocols,
    /// The protocol has no message of this number, or none that this side accepts.
    InvalidMessageType,
    /// The session didn't accept the message's protocol.
    UnsupportedProtocol,
    /// A field has a value that its message doesn't allow.
    InvalidArgument,
    /// The request is not allowed, such as a change to the default dataspace.
    RequestDenied,
    /// The message isn't accepted in the session's present state.
    InvalidState,
    /// A text isn't a URI of the required kind.
    InvalidUri,
    /// There is nothing of this name.
    NotFound,
    /// A limit on the number of keys, items or entries would be exceeded.
    LimitExceeded,
    /// The message's body is compressed.
    CompressionNotSupported,
    /// A transaction is open already.
    TooManyTransactions,
    /// The server isn't configured to keep objects of this type.
    DataObjectTypeNotSupported,
    /// A limit on bytes or elements would be exceeded.
    SizeExceeded,
    /// The message can't be read, or its id isn't greater than the previous one.
    InvalidMessage,
    /// An index of another kind was given where a time is required.
    InvalidIndexKind,
    /// The client and the server have no format in common.
    NoSupportedFormats,
    /// A point isn't later than its channel's last one.
    InvalidAppend,
}

impl ErrorCode {
    /// The number of the code.
    pub fn number(self) -> i32
        ensures { result ≡ number_of self }
    {
        match self {
            ErrorCode::NoSupportedProtocols => 2,
            ErrorCode::InvalidMessageType => 3,
            ErrorCode::UnsupportedProtocol => 4,
            ErrorCode::InvalidArgument => 5,
            ErrorCode::RequestDenied => 6,
            ErrorCode::InvalidState => 8,
            ErrorCode::InvalidUri => 9,
            ErrorCode::NotFound => 11,
            ErrorCode::LimitExceeded => 12,
            ErrorCode::CompressionNotSupported => 13,
            ErrorCode::TooManyTransactions => 15,
            ErrorCode::DataObjectTypeNotSupported => 16,
            ErrorCode::SizeExceeded => 17,
            ErrorCode::InvalidMessage => 19,
            ErrorCode::InvalidIndexKind => 20,
            ErrorCode::NoSupportedFormats => 21,
            ErrorCode::InvalidAppend => 31,
        }
    }

    /// The text of the code.
    pub fn text(self) -> &'static str
        ensures { result.now ≡ text_of self }
    {
        match self {
            ErrorCode::NoSupportedProtocols => "no supported protocols",
            ErrorCode::InvalidMessageType => "invalid message type",
            ErrorCode::UnsupportedProtocol => "unsupported protocol",
            ErrorCode::InvalidArgument => "invalid argument",
            ErrorCode::RequestDenied => "request denied",
            ErrorCode::InvalidState => "invalid state",
            ErrorCode::InvalidUri => "invalid URI",
            ErrorCode::NotFound => "not found",
            ErrorCode::LimitExceeded => "limit exceeded",
            ErrorCode::CompressionNotSupported => "compression not supported",
            ErrorCode::TooManyTransactions => "too many transactions",
            ErrorCode::DataObjectTypeNotSupported => "data object type not supported",
            ErrorCode::SizeExceeded => "size exceeded",
            ErrorCode::InvalidMessage => "invalid message",
            ErrorCode::InvalidIndexKind => "invalid index kind",
            ErrorCode::NoSupportedFormats => "no supported formats",
            ErrorCode::InvalidAppend => "invalid append",
        }
    }
}
