//! What a client returns.
use channel_store::ChangeMsg;
use etp_frame::{FrameError, JoinError};
use etp_values::{Blob, Id16, List, NoMemory, Point, Text};
use thiserror::Error;

/// A dataspace of a store.
#[derive(Drop)]
pub struct Space {
    pub uri: Text,
    /// When the store last wrote it, and when it made it, in microseconds since 1970-01-01 UTC.
    pub written: i64,
    pub created: i64,
}

/// An answer, or something that happened to a subscribed channel. An `id` is that of the ask.
#[derive(Drop)]
pub enum Got {
    /// The session of this identity is open.
    Opened(Id16),
    /// What the ask of this id asked for is done.
    Done(i64),
    /// The data of the object that the ask of this id got.
    Object(i64, Blob),
    /// What a channel is: its number, and the index of its values' kind in the order of `ChannelDataKind`.
    Meta { id: i64, channel: i64, kind: u32 },
    /// A change of a subscribed channel.
    Change(ChangeMsg),
    /// The points of a channel that the ask of this id asked for.
    Points(i64, List<Point>),
    /// The dataspaces, for the ask of this id.
    Spaces(i64, List<Space>),
    /// A Pong with the server's time, in microseconds since 1970-01-01 UTC.
    Pong(i64),
}

/// Why a message or an ask is refused. A client continues if an ask is refused, by itself (`State`) or by the server (`Refused`), and if
/// subscriptions stop. Any other refusal ends it.
#[derive(Debug, Drop, Error)]
pub enum ClientError {
    /// The bytes are not a message that a server may send.
    #[error("the message can't be read: {0}")]
    Frame(FrameError),
    /// The message's id is even, or not greater than the previous one.
    #[error("the message id {0} is even or not greater than the previous one")]
    Id(i64),
    /// The message is neither the answer to an ask that waits nor about a subscribed channel. It answers the ask of this id, or none.
    #[error("no ask awaits the message, which answers {0}")]
    Unasked(i64),
    /// The session is not open yet, or has ended, or the ask's ids would exceed the greatest.
    #[error("the session is not open, or has ended, or the ids are used up")]
    State,
    /// A part or a chunk does not fit what came before it, or the data exceed their limit.
    #[error("parts or chunks are out of order: {0}")]
    Join(JoinError),
    /// The server refuses the ask of this id.
    #[error("ask {id} was refused with code {code}")]
    Refused { id: i64, code: i32 },
    /// The server has ended subscriptions, for this reason.
    #[error("subscriptions have ended")]
    Stopped(Text),
    /// Out of memory.
    #[error("out of memory")]
    NoMemory,
}
