//! Joining objects with the chunks of their data.
ghost use Rattle.std.specs.Prelude.{◌≡◌, ◌≢◌, Ok, Err, None, MatchResult, OnErr, option_map};
ghost use Rattle.etp_values.specs.Gives.{Gives};
ghost use Rattle.etp_frame.specs.Joining.{joins, store_came};
ghost use Rattle.etp_frame.specs.JoinLaws.{JoinsWhole, WholeAtOnce};
ghost use Rattle.etp_frame.specs.declared.joining.JoinError.TheVariants as e;

use crate::awaiting::{Awaiting, Carrier, came, chunk_came};
use crate::header::Header;
use crate::message::Message;
use etp_values::Boxed;
use msg_store::StoreMessage;
use std::alloc::Global;
use std::marker::Model;
use thiserror::Error;

/// What came of a message.
#[derive(Debug, Drop)]
pub enum Joined {
    /// More chunks are needed before a message is whole.
    More,
    /// This message is whole.
    Whole(Message),
}

/// Why a message is refused. For a message with objects `WrongBlob`, `Interleaved` and `TooLong` are tested in this order, for a chunk
/// `NoBlob`, `WrongBlob`, `Interleaved` and `TooLong`.
#[derive(Clone, Copy, Debug, PartialEq, Eq, Drop, Error)]
pub enum JoinError {
    /// A chunk that no message waits for.
    #[error("no message waits for this chunk")]
    NoBlob,
    /// An object has both data and a blob's identity, two objects have the same blob, or a chunk's blob or correlation is not
    /// an awaited one.
    #[error("the blob is not an awaited one, or not of one object alone")]
    WrongBlob,
    /// A chunk of another blob comes before the last one of the current blob, or a message with objects comes while another awaits its
    /// chunks.
    #[error("another blob or message is not whole yet")]
    Interleaved,
    /// The data of the message's objects exceed 67,108,864 bytes together.
    #[error("the data pass the limit")]
    TooLong,
    /// Out of memory.
    #[error("out of memory")]
    NoMemory,
}

/// Puts the chunks of objects' data into the objects. At most one message awaits its chunks at a time.
#[derive(Drop)]
pub struct Joiner {
    awaited: Option<Awaiting>,
}

impl Model for Joiner {
    ghost use Rattle.std.specs.Prelude.{Option};
    ghost use Rattle.etp_frame.specs.Joining.{Awaited};

    ghost Value = { Option Awaited };

    ghost view = { λ j. j.awaited };
}

impl Joiner {
    /// A joiner that awaits nothing.
    pub fn new() -> Joiner
        ensures { result ≡ None }
    {
        Joiner { awaited: None }
    }

    /// Takes a message. One without objects, and a chunk that belongs to no message, is whole at once.
    pub fn add(
        &mut self,
        alloc: Global,
        header: &Header,
        message: Message,
    ) -> Result<Joined, JoinError>
        ensures answer { MatchResult result (λ x. joins self.old header.now message ≡ Ok (x, self.new))
            (λ x. x ≢ e.NoMemory → joins self.old header.now message ≡ Err x) }
        ensures empty { OnErr result (self.new ≡ None) }
    {
        let awaited = self.awaited.take();
        match message_came(alloc, awaited, header, message) {
            Ok((answer, awaited)) => {
                self.awaited = awaited;
                Ok(answer)
            }
            Err(error) => Err(error),
        }
    }

    /// The correlation of the chunks that are awaited, if any are.
    pub fn awaited(&self) -> Option<i64>
        ensures { result ≡ option_map (λ w. w.correlation) self.now }
    {
        match &self.awaited {
            Some(awaiting) => Some(awaiting.correlation()),
            None => None,
        }
    }
}

fn message_came(
    alloc: Global,
    awaited: Option<Awaiting>,
    header: &Header,
    message: Message,
) -> Result<(Joined, Option<Awaiting>), JoinError>
    ensures { Gives e.NoMemory result (joins awaited header.now message) }
{
    match message {
        Message::Store(message) => store_came(alloc, awaited, header, message.into_inner()),
        other => Ok((Joined::Whole(other), awaited)),
    }
}

fn store_came(
    alloc: Global,
    awaited: Option<Awaiting>,
    header: &Header,
    message: StoreMessage,
) -> Result<(Joined, Option<Awaiting>), JoinError>
    ensures { Gives e.NoMemory result (store_came awaited header.now message) }
{
    match message {
        StoreMessage::PutDataObjects(put) => came(
            alloc,
            awaited,
            header.id,
            Carrier::Put(put.prune_contained_objects),
            put.data_objects,
        ),
        StoreMessage::GetDataObjectsResponse(reply) => came(
            alloc,
            awaited,
            header.correlation,
            Carrier::Reply,
            reply.data_objects,
        ),
        StoreMessage::Chunk(chunk) => chunk_came(alloc, awaited, header.correlation, chunk),
        other => match Boxed::new(alloc, other) {
            Ok(message) => Ok((Joined::Whole(Message::Store(message)), awaited)),
            Err(_) => Err(JoinError::NoMemory),
        },
    }
}

/// For proofs only: what a joiner completes is composed of the messages that it took.
pub fn joins_whole()
    ensures of_chunks { JoinsWhole }
    ensures at_once { WholeAtOnce }
{}
