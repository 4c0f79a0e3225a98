//! A listener in memory.
ghost use Rattle.std.specs.Prelude.{◌≡◌, ◌+◌, ◌≤◌, ◌||◌, None, Some, IfOk, IsSome, length, true, false};
ghost use Rattle.etp_outside.specs.Faults.{Rose};
ghost use Rattle.etp_outside.specs.Doors.{IfLink, IsAccepted, TakesBack, back_of, is_stop, links};
ghost use Rattle.etp_outside.specs.MemDoors.{IsListenAnswer, IsNextAnswer, after_back, after_listen, after_next, all_back, first_porch, given_by};
ghost use Rattle.etp_outside.specs.DoorLaws.{few_back};

use crate::link::Link;
use crate::listener::{Listened, Listener, Next};
use crate::mem_link::MemLink;
use crate::script::Script;
use etp_values::{List, NoMemory};
use std::alloc::Global;
use std::collections::VecDeque;
use std::marker::Model;

/// A link that came back.
#[derive(Debug, Drop)]
pub struct Returned {
    pub link: MemLink,
    /// The number of its session, 0 if none was entered.
    pub number: u64,
    /// How that session ended.
    pub end: u8,
}

/// A listener that gives out the links of a list, each in its state before its first call, and then stops. It keeps those that come back,
/// and fails at the calls of `listen` and `next` that another list names, both counted together.
#[derive(Debug, Drop)]
pub struct MemDoor {
    waiting: VecDeque<MemLink>,
    back: Vec<Returned>,
    out: u64,
    stopped: bool,
    script: Script,
}

impl Model for MemDoor {
    ghost use Rattle.std.specs.Prelude.{◌+◌, ◌^◌, ◌<◌, ◌≤◌, length, vec_capacity};
    ghost use Rattle.etp_outside.specs.Porch.{Porch};

    ghost Value = { Porch };

    ghost view = { λ d. record { waiting = d.waiting.items; back = d.back.items; out = d.out; stopped = d.stopped; script = d.script } };

    ghost invariant = { λ d. (length d.back.items + d.out + length d.waiting.items ≤ vec_capacity d.back)
        × (length d.back.items + d.out + length d.waiting.items < 2 ^ 64) };
}

impl MemDoor {
    /// A listener that gives out these links, with room to take them back. The calls whose numbers are in `fails` fail; the first call is
    /// number 1.
    pub fn new(alloc: Global, links: List<MemLink>, fails: List<u64>) -> Result<MemDoor, NoMemory>
        ensures { IfOk result (λ d. d ≡ first_porch links fails) }
    {
        let waiting = VecDeque::from(links.into_vec());
        let back = Vec::with_capacity(alloc, waiting.len())?;
        Ok(MemDoor {
            waiting,
            back,
            out: 0,
            stopped: false,
            script: Script::new(fails),
        })
    }

    /// The links that came back, in that order.
    pub fn returned(&self) -> &[Returned]
        ensures { result.now ≡ self.now.back }
    {
        self.back.as_slice()
    }

    /// How often it failed.
    pub fn faults(&self) -> u64
        ensures { result ≡ self.now.script.faults }
    {
        self.script.faults
    }
}

impl Listener for MemDoor {
    type Link = MemLink;

    ghost faults = { λ d. d.script.faults };

    ghost given = { given_by };

    ghost stopped = { λ d. d.stopped };

    ghost backs = { λ d. Some (all_back d.back) };

    ghost at = { λ d. None };

    ghost few = { few_back };

    fn listen(&mut self, _address: &str) -> Listened
        ensures answer { IsListenAnswer self.old result }
        ensures after { self.new ≡ after_listen self.old result }
        ensures given { given_by self.new ≡ given_by self.old }
        ensures stopped { self.new.stopped ≡ self.old.stopped }
        ensures backs { Some (all_back self.new.back) ≡ Some (all_back self.old.back) }
        ensures kept { self.old.script.faults ≤ self.new.script.faults }
        ensures cause { result ≡ Listened.Failed → Rose self.old.script.faults self.new.script.faults }
    {
        if self.script.fails_next() {
            self.script.failed();
            return Listened::Failed;
        }
        self.script.passed();
        Listened::Done
    }

    fn next(&mut self, _alloc: Global) -> Next<MemLink>
        ensures answer { IsNextAnswer self.old result }
        ensures after { self.new ≡ after_next self.old result }
        ensures link { IfLink result (λ l. IsAccepted (Some l.talk) l.script.faults l.ended) }
        ensures tells { IfLink result (λ l. IsSome (Some (all_back self.new.back)) → IsSome (Some l.talk)) }
        ensures usable { IfLink result (λ l. l.closed ≡ false) }
        ensures given { given_by self.new ≡ given_by self.old + links result }
        ensures stopped { self.new.stopped ≡ (self.old.stopped || is_stop result) }
        ensures backs { Some (all_back self.new.back) ≡ Some (all_back self.old.back) }
        ensures kept { self.old.script.faults ≤ self.new.script.faults }
        ensures cause { result ≡ Next.Failed → Rose self.old.script.faults self.new.script.faults }
    {
        if self.script.fails_next() {
            self.script.failed();
            return Next::Failed;
        }
        self.script.passed();
        let Some(mut link) = self.waiting.pop_front() else {
            self.stopped = true;
            return Next::Stop;
        };
        link.renew();
        self.out += 1;
        Next::Link(link)
    }

    fn back(&mut self, link: MemLink, number: u64, end: u8)
        requires closed { link.closed ≡ true }
        ensures after { self.new ≡ after_back self.old link number end }
        ensures back { TakesBack (given_by self.old) (back_of number end link.script.faults link.ended (Some link.talk))
            (all_back self.old.back) (all_back self.new.back) }
        ensures given { given_by self.new ≡ given_by self.old }
        ensures stopped { self.new.stopped ≡ self.old.stopped }
        ensures kept { self.old.script.faults ≤ self.new.script.faults }
    {
        if self.out == 0 {
            return;
        }
        self.out -= 1;
        self.back.push_reserved(Returned { link, number, end });
    }
}
