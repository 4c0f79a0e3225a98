//! A link in memory.
ghost use Rattle.std.specs.Prelude.{◌≡◌, ◌≤◌, ◌||◌, Some, false, true};
ghost use Rattle.etp_outside.specs.Calls.{after_call, new_script};
ghost use Rattle.etp_outside.specs.Faults.{Rose};
ghost use Rattle.etp_outside.specs.Talk.{Received, Sends, is_end};
ghost use Rattle.etp_outside.specs.MemLinks.{IsItemAt, IsRecvAnswer, IsSendAnswer, dialed_to, first_talk, recv_failed, renewed, send_failed};
ghost use Rattle.std.specs.Option.{option_copied};

use crate::link::{Address, Item, Link, Recv, Sent};
use crate::script::Script;
use etp_values::{Blob, List};
use std::alloc::Global;
use std::marker::Model;

/// A link over which the items of a list come, and then its end. It keeps what is sent, and fails at the calls of `recv` and
/// `send` that another list names, both counted together.
#[derive(Debug, Drop)]
pub struct MemLink {
    items: List<Item>,
    at: usize,
    sent: Vec<Blob>,
    to: Option<Address>,
    ended: bool,
    closed: bool,
    script: Script,
}

impl Model for MemLink {
    ghost use Rattle.std.specs.Prelude.{◌≤◌, length, take, drop};
    ghost use Rattle.etp_outside.specs.Line.{Line};

    ghost Value = { Line };

    ghost view = { λ l. record {
      talk = record { coming = drop l.at l.items; taken = take l.at l.items; sent = l.sent.items; to = l.to };
      ended = l.ended;
      closed = l.closed;
      script = l.script;
    } };

    ghost invariant = { λ l. l.at ≤ length l.items };
}

impl MemLink {
    /// A link over which these items come. The calls whose numbers are in `fails` fail; the first call is number 1.
    pub fn new(alloc: Global, coming: List<Item>, fails: List<u64>) -> MemLink
        ensures { result ≡ record { talk = first_talk coming; ended = false; closed = false; script = new_script fails } }
    {
        MemLink {
            items: coming,
            at: 0,
            sent: Vec::new(alloc),
            to: None,
            ended: false,
            closed: false,
            script: Script::new(fails),
        }
    }

    /// The messages that were sent whole.
    pub fn sent(&self) -> &[Blob]
        ensures { result.now ≡ self.now.talk.sent }
    {
        self.sent.as_slice()
    }

    /// The address that it was dialed to, if it was.
    pub fn to(&self) -> Option<&Address>
        ensures { option_copied result ≡ self.now.talk.to }
    {
        self.to.as_ref()
    }

    /// How often it failed.
    pub fn faults(&self) -> u64
        ensures { result ≡ self.now.script.faults }
    {
        self.script.faults
    }

    /// Whether it has reported that the peer ended it.
    pub fn has_ended(&self) -> bool
        ensures { result ≡ self.now.ended }
    {
        self.ended
    }

    /// Resets the link to its state before any call.
    pub(crate) fn renew(&mut self)
        ensures { self.new ≡ renewed self.old }
    {
        self.at = 0;
        self.sent.clear();
        self.to = None;
        self.ended = false;
        self.closed = false;
        self.script.renew();
    }

    /// Resets the link, as one that was dialed to this address.
    pub(crate) fn dialed(&mut self, to: Address)
        ensures { self.new ≡ dialed_to to self.old }
    {
        self.renew();
        self.to = Some(to);
    }
}

/// What the item at an index gives, or the end if there is none.
fn item_at(items: &[Item], at: usize) -> Recv
    ensures { IsItemAt items.now at result }
{
    match items.get(at) {
        None => Recv::End,
        Some(Item::Idle) => Recv::Idle,
        Some(Item::Message(bytes)) => match bytes.share() {
            Ok(bytes) => Recv::Got(bytes),
            Err(_) => Recv::NoMemory,
        },
    }
}

impl Link for MemLink {
    ghost talk = { λ l. Some l.talk };

    ghost faults = { λ l. l.script.faults };

    ghost ended = { λ l. l.ended };

    ghost closed = { λ l. l.closed };

    fn recv(&mut self, _alloc: Global) -> Recv
        requires usable { self.old.closed ≡ false }
        ensures answer { IsRecvAnswer self.old result }
        ensures script { self.new.script ≡ after_call self.old.script (recv_failed result) }
        ensures talk { Received result self.old.talk self.new.talk }
        ensures kept { self.old.script.faults ≤ self.new.script.faults }
        ensures cause { result ≡ Recv.Failed → Rose self.old.script.faults self.new.script.faults }
        ensures ended { self.new.ended ≡ (self.old.ended || is_end result) }
        ensures closed { self.new.closed ≡ self.old.closed }
    {
        if self.script.fails_next() {
            self.script.failed();
            return Recv::Failed;
        }
        self.script.passed();
        match item_at(self.items.as_slice(), self.at) {
            Recv::Got(bytes) => {
                self.at += 1;
                Recv::Got(bytes)
            }
            Recv::Idle => {
                self.at += 1;
                Recv::Idle
            }
            Recv::End => {
                self.ended = true;
                Recv::End
            }
            Recv::Failed => Recv::Failed,
            Recv::NoMemory => Recv::NoMemory,
        }
    }

    fn send(&mut self, _alloc: Global, message: &Blob) -> Sent
        requires usable { self.old.closed ≡ false }
        ensures answer { IsSendAnswer self.old result }
        ensures script { self.new.script ≡ after_call self.old.script (send_failed result) }
        ensures talk { Sends result message.now self.old.talk self.new.talk }
        ensures kept { self.old.script.faults ≤ self.new.script.faults }
        ensures cause { result ≡ Sent.Failed → Rose self.old.script.faults self.new.script.faults }
        ensures ended { self.new.ended ≡ self.old.ended }
        ensures closed { self.new.closed ≡ self.old.closed }
    {
        if self.script.fails_next() {
            self.script.failed();
            return Sent::Failed;
        }
        self.script.passed();
        let Ok(copy) = message.share() else {
            return Sent::NoMemory;
        };
        match self.sent.push(copy) {
            Ok(()) => Sent::Done,
            Err(_) => Sent::NoMemory,
        }
    }

    fn close(&mut self)
        ensures same { self.new ≡ record self.old { closed = true } }
        ensures talk { Some self.new.talk ≡ Some self.old.talk }
        ensures faults { self.new.script.faults ≡ self.old.script.faults }
        ensures ended { self.new.ended ≡ self.old.ended }
        ensures closed { self.new.closed ≡ true }
    {
        self.closed = true;
    }
}
