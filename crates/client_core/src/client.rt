//! The client.
ghost use Rattle.std.specs.Prelude.{◌≡◌, ◌≤◌, ◌+◌, ◌*◌, pos, Err, IfOk, OnErr, OnOk, length};
ghost use Rattle.std.specs.Option.{option_copied};
ghost use Rattle.client_core.specs.Asking.{asked, asked_with, beginning, begun, closed_if, first_of, max_id, rest_of, sends};
ghost use Rattle.client_core.specs.Notices.{copy_of};
ghost use Rattle.client_core.specs.State.{is_ended};
ghost use Rattle.client_core.specs.Taking.{Steps, takes};
ghost use Rattle.client_core.specs.declared.got.ClientError.TheVariants as error;

use crate::ask::{Ask, due_of, is_close};
use crate::asks::Asks;
use crate::got::{ClientError, Got};
use crate::hearing::Hearing;
use crate::messages::{message_of, request_message};
use crate::numbering::{FIRST_ID, Ids, numbered};
use crate::state::Due;
use etp_frame::{Message, blobs_in, split};
use etp_values::{Blob, List, NoMemory, Point};
use std::alloc::Global;
use std::collections::VecDeque;
use std::marker::Model;

/// The maximum length of a message, in bytes.
const MAX_MESSAGE_LEN: u64 = 16_777_216;

/// A client. Whoever drives it sends what [`next_out`](Client::next_out) has, passes in the messages that come with [`take`](Client::take),
/// and asks with [`ask`](Client::ask).
///
/// After `NoMemory` the client has ended.
pub struct Client {
    heard: Hearing,
    ids: Ids,
    blobs: u64,
    out: VecDeque<Blob>,
}

/// Written out, so that whatever holds one drops it by a single call.
impl Drop for Client {
    fn drop(self) {
        let Client {
            heard,
            ids,
            blobs: _,
            out,
        } = self;
        drop(heard);
        drop(ids);
        drop(out);
    }
}

impl Model for Client {
    ghost use Rattle.client_core.specs.State.{State};

    ghost Value = { State };

    ghost view = { λ c. record { heard = c.heard; next = c.ids; blobs = c.blobs; out = c.out.items } };
}

impl Client {
    /// A client that has this to send, for an ask with one message that waits.
    fn new(alloc: Global, asks: Asks, out: Vec<Blob>) -> Client
        ensures { result ≡ beginning asks out.items }
    {
        let mut ids = Ids::new();
        ids.pass(1);
        Client {
            heard: Hearing::new(alloc, asks),
            ids,
            blobs: 0,
            out: VecDeque::from_vec(out),
        }
    }

    /// A client that asks for a session at this moment: microseconds since 1970-01-01 UTC.
    pub fn begin(alloc: Global, moment: i64) -> Result<Client, NoMemory>
        ensures { IfOk result (λ c. c ≡ begun moment) }
    {
        let message = request_message(alloc, moment)?;
        let mut messages = Vec::new(alloc);
        messages.push(message)?;
        let out = numbered(alloc, FIRST_ID, messages.as_slice())?;
        let mut asks = Asks::new(alloc);
        asks.add(FIRST_ID, Some(Due::Session))?;
        Ok(Client::new(alloc, asks, out))
    }

    /// Asks for something, and returns the id of the ask's first message. An ask is refused by `State`, and nothing of it is sent, before
    /// the session is open, after the end, and if its messages need ids above 2^62.
    pub fn ask(&mut self, alloc: Global, ask: Ask, moment: i64) -> Result<i64, ClientError>
        ensures { Steps result (asked self.old ask moment) self.old self.new }
    {
        match self.try_ask(alloc, ask, moment) {
            Ok(answer) => answer,
            Err(NoMemory) => {
                self.heard.end();
                Err(ClientError::NoMemory)
            }
        }
    }

    /// Takes the bytes of a message, and returns the answer or the changes that it brings. The causes of a refusal are tested in this
    /// order: `State` after the end, `Frame`, `Id`, `State` before the session is open, `Join`, and then, for a whole message, `Refused`,
    /// `Stopped` and `Unasked`.
    pub fn take(&mut self, alloc: Global, bytes: &[u8]) -> Result<List<Got>, ClientError>
        ensures { Steps result (takes self.old bytes.now) self.old self.new }
    {
        match self.heard.take(alloc, bytes) {
            Ok(answer) => answer,
            Err(NoMemory) => {
                self.heard.end();
                Err(ClientError::NoMemory)
            }
        }
    }

    /// The bytes of the next message to send, which is then counted as sent; `None` if nothing is left.
    pub fn next_out(&mut self) -> Option<Blob>
        ensures first { result ≡ first_of self.old.out }
        ensures rest { self.new ≡ record self.old { out = rest_of self.old.out } }
    {
        self.out.pop_front()
    }

    /// The points of a channel that was subscribed to: those that its changes since its last subscription leave. They are kept when the
    /// subscription or the client ends.
    pub fn copy(&self, channel: i64) -> Option<&List<Point>>
        ensures { option_copied result ≡ copy_of channel self.now }
    {
        self.heard.copy(channel)
    }

    /// Whether the client has ended: nothing is accepted any more.
    pub fn ended(&self) -> bool
        ensures { result ≡ is_ended self.now.heard.phase }
    {
        self.heard.ended()
    }

    fn try_ask(&mut self, alloc: Global, ask: Ask, moment: i64) -> Result<Asked, NoMemory>
        ensures answer { IfOk result (λ r. r ≡ (asked self.old ask moment).result) }
        ensures state { OnOk result (self.new ≡ (asked self.old ask moment).state) }
        ensures out { OnErr result (self.new.out ≡ self.old.out) }
    {
        if !self.heard.is_open() {
            return refuse(ask);
        }
        let due = due_of(&ask);
        let closes = is_close(&ask);
        let message = message_of(alloc, ask, moment)?;
        self.ask_with(alloc, due, closes, message)
    }

    /// An ask with this message.
    fn ask_with(
        &mut self,
        alloc: Global,
        due: Option<Due>,
        closes: bool,
        message: Message,
    ) -> Result<Asked, NoMemory>
        ensures answer { IfOk result (λ r. r ≡ (asked_with due closes message self.old).result) }
        ensures state { OnOk result (self.new ≡ (asked_with due closes message self.old).state) }
        ensures out { OnErr result (self.new.out ≡ self.old.out) }
    {
        let blobs = self
            .blobs
            .saturating_add(blobs_in(&message, MAX_MESSAGE_LEN));
        let messages = split(alloc, message, MAX_MESSAGE_LEN, 0, self.blobs)?;
        if self.ids.are_spent(messages.as_slice()) {
            return Ok(Err(ClientError::State));
        }
        let id = self.send(alloc, due, messages)?;
        self.blobs = blobs;
        self.close_if(closes);
        Ok(Ok(id))
    }

    /// Adds the messages of an ask that waits for this, and returns the id of the first.
    fn send(
        &mut self,
        alloc: Global,
        due: Option<Due>,
        messages: List<Message>,
    ) -> Result<i64, NoMemory>
        requires { self.old.next + 2 * length messages ≤ max_id + 2 }
        ensures id { IfOk result (λ id. id ≡ pos self.old.next) }
        ensures ok { OnOk result (self.new ≡ sends due messages self.old) }
        ensures err { OnErr result (self.new.out ≡ self.old.out) }
    {
        let first = self.ids.next();
        let bytes = numbered(alloc, first, messages.as_slice())?;
        let mut bytes = VecDeque::from_vec(bytes);
        self.heard.asks.add(first, due)?;
        self.out.append(&mut bytes)?;
        self.ids.pass(messages.len());
        Ok(first as i64)
    }

    /// A client that has closed its session has ended.
    fn close_if(&mut self, closes: bool)
        ensures { self.new ≡ closed_if closes self.old }
    {
        if closes {
            self.heard.end();
        }
    }
}

/// What an ask is answered.
type Asked = Result<i64, ClientError>;

/// An ask that comes before the session is open, or after the end.
fn refuse(ask: Ask) -> Result<Asked, NoMemory>
    ensures { IfOk result (λ r. r ≡ Err error.State) }
{
    drop(ask);
    Ok(Err(ClientError::State))
}
