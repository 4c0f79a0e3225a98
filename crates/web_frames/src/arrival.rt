//! What the bytes that have come are, for whoever receives on the link.
use crate::breach::Breach;
use etp_values::Blob;

/// What the bytes at the front are.
#[derive(Drop)]
pub enum Arrival {
    /// A message, as it is handed on.
    Message(Blob),
    /// A frame that is not a message: a ping, whose answer is in the output, a pong, or a fragment that is not the last.
    Frame,
    /// No frame is complete, and all that can be taken of it was taken.
    Nothing,
    /// The peer says goodbye. The answer is in the output.
    End,
    /// The peer broke the protocol.
    Breach(Breach),
    /// Out of memory.
    NoMemory,
}
