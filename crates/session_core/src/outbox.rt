//! What is left to send, in parts with their headers.
ghost use Rattle.std.specs.Prelude.{◌≡◌, ◌++◌, ◌∷◌, [], ◌≤◌, length, if◌then◌else◌, IfOk, OnOk, IfSome};
ghost use Rattle.session_core.specs.Sending.{IsWritable, common_protocol, core_protocol, correlation_to, first_of, flags_to, is_reply, is_spent, max_id, next_after, numbered, outgoing, replies_in, rest_of, sent_under};

use crate::state::{Addressee, Outgoing, Part, Request};
use etp_frame::flags::FINAL_PART;
use etp_frame::{Header, Message};
use etp_schema::{is_protocol, protocols};
use etp_values::{List, NoMemory};
use msg_core::CoreMessage;
use std::alloc::Global;
use std::collections::VecDeque;
use std::marker::Model;

/// The greatest message id.
pub(crate) const MAX_ID: u64 = 4_611_686_018_427_387_904;

/// How far each own id is above the previous one: own ids are odd.
const OWN_ID_STEP: u64 = 2;

/// The initial room for writing a message.
const FIRST_ROOM: usize = 256;

/// The greatest room that a message is written in before it has proved longer.
const MOST_ROOM: usize = 4_096;

/// Messages to send, first message first. Each has a header with which it can be written. A contract sees the messages.
#[derive(Drop)]
pub(crate) struct Outbox {
    messages: VecDeque<Outgoing>,
    /// The room for writing the next message: what the last one took, since similar messages follow each other.
    room: usize,
}

impl Model for Outbox {
    ghost use Rattle.std.specs.Prelude.{List};
    ghost use Rattle.std.specs.List.{AllByRecursion};
    ghost use Rattle.session_core.specs.declared.state.Outgoing.{Outgoing};
    ghost use Rattle.session_core.specs.Sending.{IsWritable};

    ghost Value = { List Outgoing };

    ghost view = { λ o. o.messages.items };

    ghost invariant = { λ o. AllByRecursion IsWritable o.messages.items };
}

/// What is left of a session's own ids: the next one, and whether there were too few.
#[derive(Drop)]
pub(crate) struct Ids {
    pub(crate) next: u64,
    pub(crate) spent: bool,
}

impl Outbox {
    /// Nothing to send.
    pub(crate) fn new(alloc: Global) -> Outbox
        ensures { result ≡ [] }
    {
        Outbox {
            messages: VecDeque::new(alloc),
            room: FIRST_ROOM,
        }
    }

    /// The room to write the next message in.
    pub(crate) fn room(&self) -> usize {
        self.room
    }

    /// Keeps the size of a message that was written.
    pub(crate) fn note_size(&mut self, size: usize)
        ensures { self.new ≡ self.old }
    {
        self.room = size.min(MOST_ROOM);
    }

    /// Takes the first message out.
    pub(crate) fn pop(&mut self) -> Option<Outgoing>
        ensures first { result ≡ first_of self.old }
        ensures rest { self.new ≡ rest_of self.old }
        ensures writable { IfSome result IsWritable }
    {
        self.messages.pop_front()
    }

    /// Adds a message at the end.
    fn push(&mut self, message: Outgoing) -> Result<(), NoMemory>
        requires { IsWritable message }
        ensures { OnOk result (self.new ≡ self.old ++ message ∷ []) }
    {
        self.messages.push_back(message)?;
        Ok(())
    }

    /// Adds parts of what is sent to a request, each with the next own id. When the ids run out, nothing more is added.
    pub(crate) fn number(
        &mut self,
        request: &Request,
        next: u64,
        parts: List<Part>,
    ) -> Result<Ids, NoMemory>
        ensures parts { OnOk result (self.new ≡ self.old ++ numbered request.now next parts) }
        ensures next { IfOk result (λ ids. ids.next ≡ next_after next parts) }
        ensures spent { IfOk result (λ ids. ids.spent ≡ is_spent next parts) }
    {
        let mut id = next;
        let mut left = replies_in(parts.as_slice());
        for part in parts.into_vec() {
            if id > MAX_ID {
                drop(part);
                return Ok(Ids {
                    next: id,
                    spent: true,
                });
            }
            left -= replies_to(part.to);
            self.push(outgoing(request, id, left, part))?;
            id += OWN_ID_STEP;
        }
        Ok(Ids {
            next: id,
            spent: false,
        })
    }
}

/// One for a part that goes to the request.
fn replies_to(to: Addressee) -> usize
    ensures { result ≡ (if is_reply to then 1 else 0) }
{
    match to {
        Addressee::Receipt => 0,
        Addressee::Request => 1,
        Addressee::Nobody => 0,
    }
}

/// How many of the parts go to the request.
fn replies_in(parts: &[Part]) -> usize
    ensures is { result ≡ replies_in parts.now }
    ensures within { result ≤ length parts.now }
{
    let mut count = 0;
    for part in parts {
        count += replies_to(part.to);
    }
    count
}

/// The part with its header, if this own id is the next, and this many parts of the reply are left after it.
fn outgoing(request: &Request, id: u64, left: usize, part: Part) -> Outgoing
    requires { id ≤ max_id }
    ensures value { result ≡ outgoing request.now id left part }
    ensures writable { IsWritable result }
{
    let Part { to, message, last } = part;
    let header = Header {
        protocol: sent_under(request, &message),
        kind: message.kind(),
        correlation: correlation_to(to, request),
        id: id as i64,
        flags: flags_to(to, last, left),
    };
    Outgoing { header, message }
}

fn correlation_to(to: Addressee, request: &Request) -> i64
    ensures { result ≡ correlation_to to request.now.id }
{
    match to {
        Addressee::Receipt => request.id,
        Addressee::Request => request.id,
        Addressee::Nobody => 0,
    }
}

fn flags_to(to: Addressee, last: bool, left: usize) -> i32
    ensures { result ≡ flags_to to last left }
{
    let is_final = match to {
        Addressee::Receipt => false,
        Addressee::Request => left == 0,
        Addressee::Nobody => last,
    };
    if is_final { FINAL_PART } else { 0 }
}

/// The protocol under which a message that answers this request is sent.
fn sent_under(request: &Request, message: &Message) -> i32
    ensures { result ≡ sent_under request.now.protocol message.now }
{
    match message {
        Message::Core(message) => core_protocol(request, message.get()),
        other => other.protocol(),
    }
}

fn core_protocol(request: &Request, message: &CoreMessage) -> i32
    ensures { result ≡ core_protocol request.now.protocol message.now }
{
    match message {
        CoreMessage::ProtocolException(_) => common_protocol(request),
        CoreMessage::Acknowledge(_) => common_protocol(request),
        _ => protocols::CORE,
    }
}

fn common_protocol(request: &Request) -> i32
    ensures { result ≡ common_protocol request.now.protocol }
{
    if is_protocol(request.protocol) {
        request.protocol
    } else {
        protocols::CORE
    }
}
