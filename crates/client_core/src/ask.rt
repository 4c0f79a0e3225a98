//! What a client can be asked to do.
ghost use Rattle.std.specs.Prelude.{◌≡◌};
ghost use Rattle.client_core.specs.Asking.{due_of, is_close};

use crate::state::Due;
use etp_values::{Blob, ChannelPoint, List, Point, StoreUri, Text};

/// An ask. Each is sent as one message; the data of a large object follow in chunks.
#[derive(Drop)]
pub enum Ask {
    /// Creates or overwrites the dataspace of this path.
    PutSpace(Text),
    /// Creates or overwrites an object with these data, in XML.
    Put {
        uri: StoreUri,
        payload: Blob,
    },
    /// Gets an object's data.
    Get(StoreUri),
    /// Opens a channel for loading, and asks what it is.
    OpenChannel(StoreUri),
    /// Appends points to channels that are open.
    Load(List<ChannelPoint>),
    /// Asks what a channel is.
    Meta(StoreUri),
    /// Subscribes to a channel: all its changes from the index `start` on, in microseconds since 1970-01-01 UTC.
    Subscribe {
        channel: i64,
        start: i64,
    },
    /// Replaces the points of a channel that is open, from one index to another, by these.
    Replace {
        channel: i64,
        from: i64,
        to: i64,
        points: List<Point>,
    },
    /// Takes out the points of a channel that is open whose indexes are above this one.
    Cut {
        channel: i64,
        end: i64,
    },
    /// Asks for the points of a channel from one index to another.
    Range {
        channel: i64,
        from: i64,
        to: i64,
    },
    /// Asks which dataspaces there are.
    Spaces,
    /// Deletes an object.
    Delete(StoreUri),
    /// Asks for a Pong.
    Ping,
    /// Closes the session.
    Close,
}

/// What an ask waits for; nothing waits for the end of the session.
pub(crate) fn due_of(ask: &Ask) -> Option<Due>
    ensures { result ≡ due_of ask.now }
{
    match ask {
        Ask::PutSpace(_) => Some(Due::SpacePut),
        Ask::Put { .. } => Some(Due::ObjectPut),
        Ask::Get(_) => Some(Due::Object),
        Ask::OpenChannel(_) => Some(Due::Opening),
        Ask::Load(_) => Some(Due::Load),
        Ask::Meta(_) => Some(Due::Metadata),
        Ask::Subscribe { channel, .. } => Some(Due::Subscription(*channel)),
        Ask::Replace { .. } => Some(Due::Replacement),
        Ask::Cut { .. } => Some(Due::Truncation),
        Ask::Range { channel, .. } => Some(Due::Range(*channel)),
        Ask::Spaces => Some(Due::Spaces),
        Ask::Delete(_) => Some(Due::Deletion),
        Ask::Ping => Some(Due::Pong),
        Ask::Close => None,
    }
}

pub(crate) fn is_close(ask: &Ask) -> bool
    ensures { result ≡ is_close ask.now }
{
    matches!(ask, Ask::Close)
}
