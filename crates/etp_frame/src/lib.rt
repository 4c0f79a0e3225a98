//! Whole messages: a header and a body.
//!
//! [`read_message`] reads the bytes of one message: a [`Header`], and then the body that the header's protocol and number
//! name for the side that sends it, as a [`Message`] of the protocol's own enum. It accepts exactly the wire form,
//! `IsMessage` of `specs/Wire`, and otherwise returns the one [`FrameError`] that `read_of` of `specs/Reading` names.
//! [`read_tree`] stops before the message and returns the body's tree, for whoever shows a body of any kind, and
//! [`check_message`] returns only the header and builds no value of the body; both refuse the same bytes for the same reasons
//! ([`same_refusals`]).
//! A [`MessageReader`] is fed a message in pieces, and says after each what [`read_message`] says of all bytes so far; what is refused for
//! good stays so ([`refused_stays`]).
//! [`write_message`] writes the one written spelling, `message_bytes`. The laws between them depend on
//! [`wire_form_is_read`], [`one_reading`], [`tree_is_body`], [`rows_are_typed`] and [`written_is_read`].
//!
//! [`Joiner`] puts the chunks of objects' data into the objects, as `joins` of `specs/Joining` says, so that a message with
//! objects is whole before it is looked at ([`joins_whole`]).
//!
//! A peer accepts messages up to a size. [`split`] cuts a message into the parts in which it is sent: the items of its one list or
//! map that can grow go into groups, and each part has one group and repeats the other fields. A part has at most 4,096 bytes less
//! than the limit and 8,388,544 nodes of items, unless one item alone has more. Data of an object that are longer than half of the
//! limit are sent in the chunks of a blob after the part that has the object; [`blobs_in`] counts these blobs. The result
//! is `parts` of `specs/Splitting`, and `whole` of `specs/Whole` puts it together again. Items are measured by
//! [`OnWire`](etp_schema::OnWire), so nothing is encoded, and moved, so nothing is copied; chunks share the bytes of the object's data.
//!
//! ProtocolException and Acknowledge are messages of every protocol and are in Core's enum for all of them, so that the
//! header says under which protocol such a message is sent.
#![tactic(auto)]

mod awaiting;
mod checking;
mod error;
pub mod flags;
mod grouping;
mod header;
mod joining;
mod laws;
mod message;
mod parting;
mod parts;
mod pieces;
mod reading;
mod sending;
mod splitting;
mod stage;
mod writing;

pub use awaiting::Carrier;
pub use checking::check_message;
pub use error::FrameError;
pub use header::Header;
pub use joining::{JoinError, Joined, Joiner, joins_whole};
pub use laws::{
    one_reading, rows_are_typed, same_refusals, tree_is_body, wire_form_is_read, written_is_read,
};
pub use message::Message;
pub use pieces::{MessageReader, refused_stays};
pub use reading::{read_message, read_tree};
pub use splitting::{blobs_in, split};
pub use stage::Reading;
pub use writing::{write_in_room, write_message};
