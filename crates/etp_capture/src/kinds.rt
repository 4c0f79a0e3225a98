//! The kinds of frames. Each is named as it is shown.

/// A message from the client.
pub const IN: u8 = 1;
/// One poll of the session.
pub const POLL: u8 = 2;
/// The end of the client's messages.
pub const END: u8 = 3;
/// A message from the server.
pub const OUT: u8 = 17;
/// The end of the session.
pub const ENDED: u8 = 19;
