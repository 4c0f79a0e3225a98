//! Links that come, each served in a thread of its own.
ghost use Rattle.std.specs.Prelude.{◌≡◌, ◌≤◌, ◌+◌, ◌⊎◌, ◌<◌, [], suc, true, false, None, Some, length, IfNone, IfSome, IsSome};
ghost use Rattle.std.specs.VecDeque.{deque_capacity, deque_len};
ghost use Rattle.etp_outside.specs.Doors.{IsAccepted, TakesBack, back_of};
ghost use Rattle.etp_outside.specs.Faults.{Rose};
ghost use Rattle.etp_outside.specs.Told.{Told};
ghost use Rattle.store_hub.specs.Passes.{IsFresh, IsPassOf, config_of, known};
ghost use Rattle.etp_serve.specs.Accepted.{IsDone, IsOneLess, IsReached, ServesAll};
ghost use Rattle.etp_serve.specs.declared.served.Served.TheVariants.{Stopped};

use crate::children::{Child, Children, put_last, take_in};
use crate::endings::Endings;
use crate::laws::laws;
use crate::served::Served;
use crate::thread::{Finished, Started, serve_one};
use etp_outside::{Clock, Gate, Link, Listener, Next};
use server_config::Config;
use std::alloc::Global;
use std::collections::VecDeque;
use std::snapshot::Snapshot;
use std::sync::Wait;
use std::thread;
use std::thread::{Scope, Threads};
use store_hub::{EnterError, Hub, Pass};
use store_machine::room_laws;

/// The greatest number of sessions that are served at the same time.
const MOST: usize = 64;

/// The end of a link for which no session was let in, as the journal is full.
const JOURNAL_FULL: u8 = 5;

/// The same if memory ran out.
const NO_MEMORY: u8 = 7;

/// What stays as it is while links are accepted, with the listener and the pass as they were at first.
#[derive(Drop)]
pub(crate) struct Accepting<'s, 'e, A, C, G, R> {
    pub(crate) rt: &'s R,
    pub(crate) alloc: Global,
    pub(crate) scope: &'s Scope<'s, &'e ()>,
    pub(crate) hub: &'s Hub,
    pub(crate) clock: &'s C,
    pub(crate) gate: &'s G,
    pub(crate) conf: &'s Config,
    pub(crate) endings: &'s Endings,
    pub(crate) opened: Snapshot<A>,
    pub(crate) first: Snapshot<Pass>,
}

/// For contracts only: what holds of the listener, the pass and the children while links are accepted.
pub(crate) trait Keeps {
    type Door;

    type Children;

    ghost use Rattle.std.specs.Prelude.{ℕ};
    ghost use Rattle.store_hub.specs.declared.pass.Pass.{Pass};
    ghost use Rattle.etp_serve.specs.declared.served.Served.{Served};

    /// The pass is one of the hub's, and each child serves a session of the same hub.
    ghost holds: { Self → Pass → Self.Children → Type 0 };

    /// If no more links are served for this reason, this many of those that were given out have no answer yet.
    ghost way: { Self → Served → Pass → Self.Door → ℕ → Type 0 };

    /// The pass keeps its number, there is room for as many children as before, and there are at most `more` more of them. The listener gave
    /// out no link, did not stop, and listens where it did. It may have failed.
    ghost keeps: { Self → Pass → Pass → Self.Door → Self.Door → Self.Children → Self.Children → ℕ → Type 0 };
}

impl<'s, 'e, A: Listener, C: Clock, G, R> Keeps for Accepting<'s, 'e, A, C, G, R> {
    type Door = A;

    type Children = Children<A::Link, C>;

    ghost use Rattle.std.specs.Prelude.{◌≡◌, ◌≤◌, ◌+◌, length};
    ghost use Rattle.std.specs.List.{AllByRecursion};
    ghost use Rattle.std.specs.VecDeque.{deque_capacity, deque_len};
    ghost use Rattle.store_hub.specs.Passes.{IsPassOf, config_of, known};
    ghost use Rattle.etp_serve.specs.Accepted.{Accepts, IsBegun};

    ghost holds = { λ on pass children. IsPassOf on.hub.now pass
        × AllByRecursion (λ k. IsBegun A.Link.talk A.Link.faults A.Link.ended C.passes on.hub.now (C.passes on.clock.now)
        (length (known on.first.value).seen) (A.backs on.opened.value) k.handle.promise) children.items };

    ghost way = { λ on end pass door left. Accepts end (C.passes on.clock.now) (config_of on.hub.now) (known on.first.value) (known pass)
        (A.given on.opened.value) (A.given door) left (A.backs on.opened.value) (A.backs door) };

    ghost keeps = { λ on pass0 pass door0 door children0 children more. (pass.number ≡ pass0.number)
        × (deque_len children ≤ deque_len children0 + more) × (deque_capacity children ≡ deque_capacity children0)
        × (A.given door ≡ A.given door0) × (A.stopped door ≡ A.stopped door0) × (A.faults door0 ≤ A.faults door) × (A.at door ≡ A.at door0) };
}

/// A bit that none of the children has, or 0 if all are taken.
fn free_bit<H>(children: &VecDeque<Child<H>>) -> u64 {
    let mut used: u64 = 0;
    for child in children {
        used |= child.bit;
    }
    let free = !used;
    free & free.wrapping_neg()
}

/// The same, cleared among the endings: a session for which no thread could be started has left its bit there.
fn claim_bit<H>(children: &VecDeque<Child<H>>, endings: &Endings) -> u64 {
    let bit = free_bit(children);
    endings.forget(bit);
    bit
}

/// The moment at which a session is let in.
fn entering<C: Clock>(clock: &C) -> i64 {
    let mut own = clock.another();
    own.now()
}

/// Closes a link for which no session was let in, and hands it back. Nothing came over it, so it has no goodbye to wait for.
fn refuse_link<A: Listener>(door: &mut A, link: A::Link, end: u8)
    ensures back { Told (A.backs door.old) (A.backs door.new) (TakesBack (A.given door.old)
        (back_of 0 end (A.Link.faults link) (A.Link.ended link) (A.Link.talk link))) }
    ensures given { A.given door.new ≡ A.given door.old }
    ensures stopped { A.stopped door.new ≡ A.stopped door.old }
    ensures at { A.at door.new ≡ A.at door.old }
    ensures kept { A.faults door.old ≤ A.faults door.new }
{
    let mut link = link;
    link.close();
    door.back(link, 0, end);
}

/// How many links may come after one more, if the number is limited. `None` if no more may come.
fn one_less(left: Option<u64>) -> Option<Option<u64>>
    ensures none { IfNone result (left ≡ Some 0) }
    ensures some { IfSome result (λ after. IsOneLess left after) }
{
    let Some(left) = left else {
        return Some(None);
    };
    if left == 0 {
        None
    } else {
        Some(Some(left - 1))
    }
}

impl<'s, 'e, A: Listener, C: Clock, G: Gate, R: Threads + Wait + Sync> Accepting<'s, 'e, A, C, G, R>
where
    A::Link: 's,
    C: 's,
{
    /// Serves a session that was let in, in a thread of the scope, or in this one if none can be started.
    fn begin(
        &self,
        door: &mut A,
        pass: &mut Pass,
        children: &mut Children<A::Link, C>,
        link: A::Link,
        entered: Pass,
    )
        requires holds { ⟦<Self as Keeps>⟧.holds self.now pass.old children.old }
        requires way { ⟦<Self as Keeps>⟧.way self.now Stopped pass.old door.old (suc (length children.old.items)) }
        requires conf { self.now.conf.now ≡ config_of self.now.hub.now }
        requires room { deque_len children.old < deque_capacity children.old }
        requires entered { IsPassOf self.now.hub.now entered }
        requires fresh { IsFresh entered }
        requires alone { (known entered).met ≡ [] }
        requires late { length (known self.now.first.value).seen ≤ entered.number }
        requires link { IsAccepted (A.Link.talk link) (A.Link.faults link) (A.Link.ended link) }
        requires usable { A.Link.closed link ≡ false }
        requires tells { IsSome (A.backs self.now.opened.value) → IsSome (A.Link.talk link) }
        ensures holds { ⟦<Self as Keeps>⟧.holds self.now pass.new children.new }
        ensures way { ⟦<Self as Keeps>⟧.way self.now Stopped pass.new door.new (length children.new.items) }
        ensures keeps { ⟦<Self as Keeps>⟧.keeps self.now pass.old pass.new door.old door.new children.old children.new 1 }
    {
        // For the proof only: a full journal stays full.
        room_laws();
        let bit = claim_bit(children, self.endings);
        let own = self.clock.another();
        let (rt, alloc, hub) = (self.rt, self.alloc, self.hub);
        let (gate, conf, endings) = (self.gate, self.conf, self.endings);
        let started = Started::of(hub, &own, &link, &entered);
        let work = move || -> Finished<A::Link>
            requires own { IsPassOf hub.now entered }
            requires conf { conf.now ≡ config_of hub.now }
            requires fresh { IsFresh entered }
            requires alone { (known entered).met ≡ [] }
            requires anew { IfSome (C.told own) (λ moments. moments ≡ []) }
            requires usable { A.Link.closed link ≡ false }
            ensures closed { A.Link.closed result.link ≡ true }
            ensures own { IsPassOf hub.entry.now result.pass × (result.pass.number ≡ entered.number) }
            ensures done { IsDone (C.passes own) (config_of hub.entry.now) entered.number (known result.pass) result.end
                (A.Link.talk link) (A.Link.talk result.link) (A.Link.faults link) (A.Link.faults result.link) (A.Link.ended result.link) }
        { serve_one(rt, alloc, link, hub, entered, own, gate, conf, endings, bit) };
        match self.scope.spawn_with(started, work) {
            Ok(handle) => put_last(children, Child { handle, bit }),
            Err(refused) => {
                let finished = (refused.value)();
                take_in(hub, door, pass, finished);
            }
        }
    }

    /// Lets a session in for a link, and serves it. `None` if more links are served.
    fn let_in(
        &self,
        door: &mut A,
        pass: &mut Pass,
        children: &mut Children<A::Link, C>,
        link: A::Link,
    ) -> Option<Served>
        requires holds { ⟦<Self as Keeps>⟧.holds self.now pass.old children.old }
        requires way { ⟦<Self as Keeps>⟧.way self.now Stopped pass.old door.old (suc (length children.old.items)) }
        requires conf { self.now.conf.now ≡ config_of self.now.hub.now }
        requires room { deque_len children.old < deque_capacity children.old }
        requires link { IsAccepted (A.Link.talk link) (A.Link.faults link) (A.Link.ended link) }
        requires usable { A.Link.closed link ≡ false }
        requires tells { IsSome (A.backs self.now.opened.value) → IsSome (A.Link.talk link) }
        ensures holds { ⟦<Self as Keeps>⟧.holds self.now pass.new children.new }
        ensures goes { IfNone result (⟦<Self as Keeps>⟧.way self.now Stopped pass.new door.new (length children.new.items)) }
        ensures stops { IfSome result (λ end. ⟦<Self as Keeps>⟧.way self.now end pass.new door.new (length children.new.items)) }
        ensures lack { IfSome result (λ end. end ≡ Served.NoMemory) }
        ensures keeps { ⟦<Self as Keeps>⟧.keeps self.now pass.old pass.new door.old door.new children.old children.new 1 }
    {
        // For the proof only: a full journal stays full.
        room_laws();
        match self
            .hub
            .enter(self.rt, self.alloc, pass, entering(self.clock))
        {
            Ok(entered) => {
                self.begin(door, pass, children, link, entered);
                None
            }
            Err(EnterError::JournalFull) => {
                refuse_link(door, link, JOURNAL_FULL);
                None
            }
            Err(EnterError::NoMemory) => {
                refuse_link(door, link, NO_MEMORY);
                Some(Served::NoMemory)
            }
        }
    }

    /// Waits for a link, and serves it. `None` if more links are served.
    fn welcome(
        &self,
        door: &mut A,
        pass: &mut Pass,
        children: &mut Children<A::Link, C>,
    ) -> Option<Served>
        requires holds { ⟦<Self as Keeps>⟧.holds self.now pass.old children.old }
        requires way { ⟦<Self as Keeps>⟧.way self.now Stopped pass.old door.old (length children.old.items) }
        requires conf { self.now.conf.now ≡ config_of self.now.hub.now }
        requires room { deque_len children.old < deque_capacity children.old }
        ensures holds { ⟦<Self as Keeps>⟧.holds self.now pass.new children.new }
        ensures goes { IfNone result (⟦<Self as Keeps>⟧.way self.now Stopped pass.new door.new (length children.new.items)) }
        ensures stops { IfSome result (λ end. ⟦<Self as Keeps>⟧.way self.now end pass.new door.new (length children.new.items)) }
        ensures number { pass.new.number ≡ pass.old.number }
        ensures more { deque_len children.new ≤ deque_len children.old + 1 }
        ensures capacity { deque_capacity children.new ≡ deque_capacity children.old }
        ensures one { IfNone result (A.given door.new ≡ A.given door.old + 1) }
        ensures given { A.given door.new ≤ A.given door.old + 1 }
        ensures stopped { result ≡ Some Served.Stopped → A.stopped door.new ≡ true }
        ensures at { A.at door.new ≡ A.at door.old }
        ensures kept { A.faults door.old ≤ A.faults door.new }
        ensures cause { result ≡ Some Served.ListenFault → Rose (A.faults door.old) (A.faults door.new) }
    {
        match door.next(self.alloc) {
            Next::Link(link) => self.let_in(door, pass, children, link),
            Next::Stop => Some(Served::Stopped),
            Next::Failed => Some(Served::ListenFault),
            Next::NoMemory => Some(Served::NoMemory),
        }
    }

    /// Takes in the children that have ended. If there is no room for another, it waits until one ends, whichever that is.
    fn make_room(&self, door: &mut A, pass: &mut Pass, children: &mut Children<A::Link, C>)
        requires holds { ⟦<Self as Keeps>⟧.holds self.now pass.old children.old }
        requires way { ⟦<Self as Keeps>⟧.way self.now Stopped pass.old door.old (length children.old.items) }
        requires few { deque_len children.old ≤ 64 }
        ensures holds { ⟦<Self as Keeps>⟧.holds self.now pass.new children.new }
        ensures way { ⟦<Self as Keeps>⟧.way self.now Stopped pass.new door.new (length children.new.items) }
        ensures keeps { ⟦<Self as Keeps>⟧.keeps self.now pass.old pass.new door.old door.new children.old children.new 0 }
        ensures room { deque_len children.new < 64 }
    {
        for _ in self.rt.forever() {
            let bits = self.endings.take();
            self.settle_ended(door, pass, children, bits);
            if children.len() < MOST {
                return;
            }
            self.endings.wait(self.rt);
        }
        unreachable!()
    }

    /// Serves links until no more are to be served.
    fn serve_links(
        &self,
        door: &mut A,
        pass: &mut Pass,
        children: &mut Children<A::Link, C>,
        most: Option<u64>,
    ) -> Served
        requires holds { ⟦<Self as Keeps>⟧.holds self.now pass.old children.old }
        requires way { ⟦<Self as Keeps>⟧.way self.now Stopped pass.old door.old (length children.old.items) }
        requires conf { self.now.conf.now ≡ config_of self.now.hub.now }
        requires room { 64 ≤ deque_capacity children.old }
        requires few { deque_len children.old ≤ 64 }
        ensures holds { ⟦<Self as Keeps>⟧.holds self.now pass.new children.new }
        ensures stops { ⟦<Self as Keeps>⟧.way self.now result pass.new door.new (length children.new.items) }
        ensures number { pass.new.number ≡ pass.old.number }
        ensures most { IfSome most (λ m. A.given door.new ≤ A.given door.old + m) }
        ensures stop { result ≡ Served.Stopped
            → (A.stopped door.new ≡ true) ⊎ IsReached most (A.given door.old) (A.given door.new) }
        ensures at { A.at door.new ≡ A.at door.old }
        ensures kept { A.faults door.old ≤ A.faults door.new }
        ensures cause { result ≡ Served.ListenFault → Rose (A.faults door.old) (A.faults door.new) }
    {
        let mut left = most;
        for _ in self.rt.forever() {
            let Some(after) = one_less(left) else {
                return Served::Stopped;
            };
            self.make_room(door, pass, children);
            if let Some(end) = self.welcome(door, pass, children) {
                return end;
            }
            left = after;
        }
        unreachable!()
    }

    /// Serves links in threads of the scope, and waits until all their sessions have ended.
    fn accept(&self, door: &mut A, pass: &mut Pass, most: Option<u64>) -> Served
        requires own { IsPassOf self.now.hub.now pass.old }
        requires conf { self.now.conf.now ≡ config_of self.now.hub.now }
        requires opened { self.now.opened.value ≡ door.old }
        requires first { self.now.first.value ≡ pass.old }
        ensures own { IsPassOf self.now.hub.now pass.new × (pass.new.number ≡ pass.old.number) }
        ensures all { ServesAll result (C.passes self.now.clock.now) (config_of self.now.hub.now) (known pass.old) (known pass.new)
            (A.given door.old) (A.given door.new) (A.backs door.old) (A.backs door.new) }
        ensures most { IfSome most (λ m. A.given door.new ≤ A.given door.old + m) }
        ensures stop { result ≡ Served.Stopped
            → (A.stopped door.new ≡ true) ⊎ IsReached most (A.given door.old) (A.given door.new) }
        ensures at { A.at door.new ≡ A.at door.old }
        ensures kept { A.faults door.old ≤ A.faults door.new }
        ensures cause { result ≡ Served.ListenFault → Rose (A.faults door.old) (A.faults door.new) }
    {
        // For the proof only: what holds for runs over a longer history.
        laws();
        let Ok(mut children) = VecDeque::with_capacity(self.alloc, MOST) else {
            return Served::NoMemory;
        };
        let end = self.serve_links(door, pass, &mut children, most);
        self.settle_all(door, pass, children);
        end
    }
}

// Ties a returned reference to the one that lent it.
fn take_back<T>(x: &mut T)
    ensures { x.new ≡ x.old }
{}

/// Serves the links that a listener gives out, each in a thread of its own, until it stops, `most` links came, it fails, or memory runs
/// out. At most 64 sessions are served at the same time; another link waits at the listener until any of them has ended. Then it waits
/// until each session has ended, and hands each link back with its session's number and end:
///
/// - 1 the client closed it, 2 the session was refused, 3 its message ids ran out, 4 the peer ended the link, 6 the link failed, 7 memory
///   ran out;
/// - 5 with the number 0: no session was let in, as the journal was full; 7 with the number 0: the same, as memory ran out.
pub fn serve_all<A: Listener, C: Clock, G: Gate, R: Threads + Wait + Sync>(
    rt: &R,
    alloc: Global,
    door: &mut A,
    hub: &Hub,
    pass: &mut Pass,
    clock: &C,
    gate: &G,
    conf: &Config,
    most: Option<u64>,
) -> Served
    requires own { IsPassOf hub.now pass.old }
    requires conf { conf.now ≡ config_of hub.now }
    ensures own { IsPassOf hub.now pass.new × (pass.new.number ≡ pass.old.number) }
    ensures all { ServesAll result (C.passes clock.now) (config_of hub.now) (known pass.old) (known pass.new)
        (A.given door.old) (A.given door.new) (A.backs door.old) (A.backs door.new) }
    ensures most { IfSome most (λ m. A.given door.new ≤ A.given door.old + m) }
    ensures stop { result ≡ Served.Stopped
        → (A.stopped door.new ≡ true) ⊎ IsReached most (A.given door.old) (A.given door.new) }
    ensures at { A.at door.new ≡ A.at door.old }
    ensures kept { A.faults door.old ≤ A.faults door.new }
    ensures cause { result ≡ Served.ListenFault → Rose (A.faults door.old) (A.faults door.new) }
{
    let endings = Endings::new();
    let endings = &endings;
    let (door, pass, end) = thread::scope(
        thread::scope_env(),
        rt,
        move |scope| -> (&mut A, &mut Pass, Served)
            requires own { IsPassOf hub.now pass.now }
            requires conf { conf.now ≡ config_of hub.now }
            ensures door { result.0.ghost_name ≡ door.entry.ghost_name }
            ensures pass { result.1.ghost_name ≡ pass.entry.ghost_name }
            ensures own { IsPassOf hub.entry.now result.1.now × (result.1.now.number ≡ pass.entry.now.number) }
            ensures all { ServesAll result.2 (C.passes clock.entry.now) (config_of hub.entry.now) (known pass.entry.now) (known result.1.now)
                (A.given door.entry.now) (A.given result.0.now) (A.backs door.entry.now) (A.backs result.0.now) }
            ensures most { IfSome most (λ m. A.given result.0.now ≤ A.given door.entry.now + m) }
            ensures stop { result.2 ≡ Served.Stopped
                → (A.stopped result.0.now ≡ true) ⊎ IsReached most (A.given door.entry.now) (A.given result.0.now) }
            ensures at { A.at result.0.now ≡ A.at door.entry.now }
            ensures kept { A.faults door.entry.now ≤ A.faults result.0.now }
            ensures cause { result.2 ≡ Served.ListenFault → Rose (A.faults door.entry.now) (A.faults result.0.now) }
        {
            let on = Accepting {
                rt,
                alloc,
                scope,
                hub,
                clock,
                gate,
                conf,
                endings,
                opened: Snapshot::of(door),
                first: Snapshot::of(pass),
            };
            let end = on.accept(door, pass, most);
            (door, pass, end)
        },
    );
    take_back(door);
    take_back(pass);
    end
}
