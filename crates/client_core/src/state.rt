//! What a client is made of.
use channel_store::ChannelCopy;
use etp_frame::{Header, Message};

/// How far a client has come.
#[derive(Clone, Copy, Drop)]
pub enum Phase {
    /// The session has been requested, and is not open yet.
    Waiting,
    /// The session is open: asks are accepted.
    Open,
    /// Nothing is accepted any more.
    Ended,
}

/// What an ask waits for.
#[derive(Clone, Copy, Drop)]
pub enum Due {
    /// OpenSession.
    Session,
    /// The response to a put of a dataspace.
    SpacePut,
    /// The response to a put of an object.
    ObjectPut,
    /// An object with its data.
    Object,
    /// A channel that is open for loading.
    Opening,
    /// What a channel is.
    Metadata,
    /// The Pong of a later Ping: loading points has no response.
    Load,
    /// The response to a subscription of the channel of this number.
    Subscription(i64),
    /// The response to a replacement of points.
    Replacement,
    /// The response to a truncation.
    Truncation,
    /// The points of the channel of this number.
    Range(i64),
    /// The dataspaces.
    Spaces,
    /// The response to the deletion of an object.
    Deletion,
    /// A Pong.
    Pong,
}

/// An ask that waits, under the id of its first message.
#[derive(Clone, Copy, Drop)]
pub struct Asked {
    pub id: i64,
    pub due: Due,
}

/// A channel that was subscribed to.
#[derive(Drop)]
pub struct Channel {
    /// The channel's number.
    pub id: i64,
    /// Whether the subscription is active.
    pub live: bool,
    /// The points that the changes since the subscription leave.
    pub copy: ChannelCopy,
}

/// The parts of a message of which the last has not come, put together, with the header of the part that came last.
#[derive(Drop)]
pub struct Kept {
    pub header: Header,
    pub message: Message,
}
