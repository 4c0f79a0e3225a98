//! The flags of a header, each a bit of `Header::flags`.

/// The message is the last part of an answer, or the only one.
pub const FINAL_PART: i32 = 0x02;
/// The body is compressed. Such messages are refused.
pub const COMPRESSED: i32 = 0x08;
/// The sender wants an Acknowledge.
pub const ACKNOWLEDGE: i32 = 0x10;
/// There is a header extension before the body. Such messages are refused.
pub const EXTENSION: i32 = 0x20;
