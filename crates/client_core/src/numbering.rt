//! Messages with their ids, as bytes.
ghost use Rattle.std.specs.Prelude.{◌≡◌, ◌≤◌, ◌<◌, ◌+◌, ◌*◌, ◌^◌, length, IfOk};
ghost use Rattle.client_core.specs.Asking.{correlation_of, flags_of, header_of, is_chunk, is_chunk_message, is_spent, max_id, numbered};
ghost use Rattle.etp_frame.specs.Message.{Names};
ghost use Rattle.etp_frame.specs.Wire.{IsPlain, message_bytes};

use etp_frame::flags::FINAL_PART;
use etp_frame::{Header, Message, write_message};
use etp_values::{Blob, NoMemory};
use msg_store::StoreMessage;
use std::alloc::Global;
use std::marker::Model;

/// The greatest message id.
const MAX_ID: u64 = 4_611_686_018_427_387_904;

/// The first own id.
pub(crate) const FIRST_ID: u64 = 2;

/// How far each own id is above the previous one: own ids are even.
const OWN_ID_STEP: u64 = 2;

/// A client's own ids, of which a contract sees the next one.
#[derive(Drop)]
pub(crate) struct Ids {
    next: u64,
}

impl Model for Ids {
    ghost use Rattle.std.specs.Prelude.{ℕ, ◌≤◌, ◌+◌};
    ghost use Rattle.client_core.specs.Asking.{max_id};

    ghost Value = { ℕ };

    ghost view = { λ i. i.next };

    ghost invariant = { λ i. i.next ≤ max_id + 2 };
}

impl Ids {
    /// The ids from the first on.
    pub(crate) fn new() -> Ids
        ensures { result ≡ 2 }
    {
        Ids { next: FIRST_ID }
    }

    /// The next id.
    pub(crate) fn next(&self) -> u64
        ensures value { result ≡ self.now }
        ensures small { result ≤ max_id + 2 }
    {
        self.next
    }

    /// Whether there are too few ids for this many messages.
    pub(crate) fn are_spent(&self, messages: &[Message]) -> bool
        ensures { result ≡ is_spent self.now messages.now }
    {
        let end = self.next as u128 + OWN_ID_STEP as u128 * messages.len() as u128;
        end > (MAX_ID + OWN_ID_STEP) as u128
    }

    /// Moves past the ids of this many messages.
    pub(crate) fn pass(&mut self, count: usize)
        requires { self.old + 2 * count ≤ max_id + 2 }
        ensures { self.new ≡ self.old + 2 * count }
    {
        self.next += OWN_ID_STEP * count as u64;
    }
}

fn is_chunk_message(message: &StoreMessage) -> bool
    ensures { result ≡ is_chunk_message message.now }
{
    matches!(message, StoreMessage::Chunk(_))
}

fn is_chunk(message: &Message) -> bool
    ensures { result ≡ is_chunk message.now }
{
    match message {
        Message::Store(message) => is_chunk_message(message.get()),
        _ => false,
    }
}

fn correlation_of(first: u64, message: &Message) -> i64
    requires { first < 2 ^ 63 }
    ensures { result ≡ correlation_of first message.now }
{
    if is_chunk(message) { first as i64 } else { 0 }
}

fn flags_of(last: bool) -> i32
    ensures { result ≡ flags_of last }
{
    if last { FINAL_PART } else { 0 }
}

/// The header of a message of an ask whose first id is `first`.
fn header_of(first: u64, id: u64, last: bool, message: &Message) -> Header
    requires ids { id ≤ max_id }
    requires firsts { first < 2 ^ 63 }
    ensures value { result ≡ header_of first id last message.now }
    ensures names { Names result message.now }
    ensures plain { IsPlain result }
{
    Header {
        protocol: message.protocol(),
        kind: message.kind(),
        correlation: correlation_of(first, message),
        id: id as i64,
        flags: flags_of(last),
    }
}

fn bytes_of(
    alloc: Global,
    first: u64,
    id: u64,
    last: bool,
    message: &Message,
) -> Result<Blob, NoMemory>
    requires ids { id ≤ max_id }
    requires firsts { first < 2 ^ 63 }
    ensures { IfOk result (λ b. b ≡ message_bytes (header_of first id last message.now) message.now) }
{
    let header = header_of(first, id, last, message);
    write_message(alloc, &header, message)
}

/// The bytes of an ask's messages, from this id on.
#[tactic(auto, using(crate::proofs::NumberingLemmas::numbered_more))]
pub(crate) fn numbered(
    alloc: Global,
    first: u64,
    messages: &[Message],
) -> Result<Vec<Blob>, NoMemory>
    requires { first + 2 * length messages.now ≤ max_id + 2 }
    ensures { IfOk result (λ l. l.items ≡ numbered first first messages.now) }
{
    let mut id = first;
    let mut left = messages.len();
    let mut all = Vec::new(alloc);
    for message in messages {
        left -= 1;
        let bytes = bytes_of(alloc, first, id, left == 0, message)?;
        all.push(bytes)?;
        id += OWN_ID_STEP;
    }
    Ok(all)
}
