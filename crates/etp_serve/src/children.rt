//! Sessions that are served in threads of their own, until they are taken in.
ghost use Rattle.std.specs.Prelude.{◌≡◌, ◌≤◌, ◌<◌, ◌+◌, ◌++◌, ◌∷◌, [], ℕ, suc, List, ℤ, Bool, true, Option, length};
ghost use Rattle.std.specs.VecDeque.{deque_capacity, deque_len};
ghost use Rattle.etp_outside.specs.Doors.{Back, TakesBack, back_of};
ghost use Rattle.etp_outside.specs.Told.{Told};
ghost use Rattle.store_hub.specs.Notes.{Meets};
ghost use Rattle.store_hub.specs.Passes.{IsPassOf, config_of, known};
ghost use Rattle.store_hub.specs.Words.{Known};
ghost use Rattle.etp_serve.specs.Accepted.{Accepts, IsBegun, end_number};
ghost use Rattle.etp_serve.specs.declared.served.Served.{Served};
ghost use Rattle.etp_serve.specs.declared.served.Served.TheVariants.{Stopped};

use crate::accepting::{Accepting, Keeps};
use crate::ended::Ended;
use crate::thread::{Finished, Started};
use etp_outside::{Clock, Gate, Listener};
use std::collections::VecDeque;
use std::sync::Wait;
use std::thread::{PromisedHandle, Threads};
use store_hub::{Hub, Pass};
use store_machine::room_laws;

/// The handle of a session's thread.
pub(crate) type Handle<L, C> = PromisedHandle<Finished<L>, Started<L, C>>;

/// A session that is served in a thread, and its bit among those that have ended.
#[derive(Drop)]
pub(crate) struct Child<H> {
    pub(crate) handle: H,
    pub(crate) bit: u64,
}

/// The sessions that are served in threads, in the order in which they are looked at.
pub(crate) type Children<L, C> = VecDeque<Child<Handle<L, C>>>;

/// The number of an end: those of captures, plus 6 and 7 for the ends that no capture has.
pub(crate) fn end_number_of(end: Ended) -> u8
    ensures { result ≡ end_number end }
{
    match end {
        Ended::Closed => 1,
        Ended::Refused(_) => 2,
        Ended::IdsSpent => 3,
        Ended::PeerEnd => 4,
        Ended::LinkFault => 6,
        Ended::NoMemory => 7,
    }
}

/// Takes in what an ended session knew, and hands its link back.
pub(crate) fn take_in<A: Listener>(
    hub: &Hub,
    door: &mut A,
    pass: &mut Pass,
    finished: Finished<A::Link>,
)
    requires own { IsPassOf hub.now pass.old }
    requires ended { IsPassOf hub.now finished.pass }
    requires closed { A.Link.closed finished.link ≡ true }
    ensures own { IsPassOf hub.now pass.new × (pass.new.number ≡ pass.old.number) }
    ensures met { Meets (known pass.old) (known finished.pass) (known pass.new) }
    ensures back { Told (A.backs door.old) (A.backs door.new) (TakesBack (A.given door.old)
        (back_of finished.pass.number (end_number finished.end) (A.Link.faults finished.link) (A.Link.ended finished.link)
        (A.Link.talk finished.link))) }
    ensures given { A.given door.new ≡ A.given door.old }
    ensures stopped { A.stopped door.new ≡ A.stopped door.old }
    ensures at { A.at door.new ≡ A.at door.old }
    ensures kept { A.faults door.old ≤ A.faults door.new }
{
    let Finished {
        link,
        pass: ended,
        end,
    } = finished;
    let number = ended.number();
    hub.meet(pass, ended);
    door.back(link, number, end_number_of(end));
}

/// Waits until a session has ended, and takes it in.
pub(crate) fn join_child<A: Listener, C: Clock, R: Threads>(
    rt: &R,
    hub: &Hub,
    door: &mut A,
    pass: &mut Pass,
    child: Child<Handle<A::Link, C>>,
)
    requires own { IsPassOf hub.now pass.old }
    requires hub { child.handle.promise.hub.value ≡ hub.now }
    ensures own { IsPassOf hub.now pass.new × (pass.new.number ≡ pass.old.number) }
    ensures settles { (end : Served) (test : List ℤ → Bool) (v0 : Known) (given0 left : ℕ) (b0 : Option (List Back))
        → IsBegun A.Link.talk A.Link.faults A.Link.ended C.passes hub.now test (length v0.seen) b0 child.handle.promise
        → Accepts end test (config_of hub.now) v0 (known pass.old) given0 (A.given door.old) (suc left) b0 (A.backs door.old)
        → Accepts end test (config_of hub.now) v0 (known pass.new) given0 (A.given door.new) left b0 (A.backs door.new) }
    ensures given { A.given door.new ≡ A.given door.old }
    ensures stopped { A.stopped door.new ≡ A.stopped door.old }
    ensures at { A.at door.new ≡ A.at door.old }
    ensures kept { A.faults door.old ≤ A.faults door.new }
{
    // For the proof only: a full journal stays full.
    room_laws();
    let finished = child.handle.join(rt);
    take_in(hub, door, pass, finished);
}

/// Puts a child after the others, if there is room.
pub(crate) fn put_last<T: Drop>(children: &mut VecDeque<T>, child: T)
    requires room { deque_len children.old < deque_capacity children.old }
    ensures items { children.new.items ≡ children.old.items ++ child ∷ [] }
    ensures more { deque_len children.new ≡ deque_len children.old + 1 }
    ensures capacity { deque_capacity children.new ≡ deque_capacity children.old }
{
    let Ok(()) = children.push_back(child) else {
        unreachable!()
    };
}

impl<'s, 'e, A: Listener, C: Clock, G: Gate, R: Threads + Wait + Sync> Accepting<
    's,
    'e,
    A,
    C,
    G,
    R,
> {
    /// Takes in the first of the children, if its bit is one of these, and otherwise puts it after the others.
    fn settle_first(
        &self,
        door: &mut A,
        pass: &mut Pass,
        children: &mut Children<A::Link, C>,
        bits: u64,
    )
        requires holds { ⟦<Self as Keeps>⟧.holds self.now pass.old children.old }
        requires way { ⟦<Self as Keeps>⟧.way self.now Stopped pass.old door.old (length children.old.items) }
        ensures holds { ⟦<Self as Keeps>⟧.holds self.now pass.new children.new }
        ensures way { ⟦<Self as Keeps>⟧.way self.now Stopped pass.new door.new (length children.new.items) }
        ensures keeps { ⟦<Self as Keeps>⟧.keeps self.now pass.old pass.new door.old door.new children.old children.new 0 }
    {
        let Some(child) = children.pop_front() else {
            return;
        };
        if child.bit & bits == 0 {
            put_last(children, child);
        } else {
            join_child(self.rt, self.hub, door, pass, child);
        }
    }

    /// Takes in the children whose bits these are.
    pub(crate) fn settle_ended(
        &self,
        door: &mut A,
        pass: &mut Pass,
        children: &mut Children<A::Link, C>,
        bits: u64,
    )
        requires holds { ⟦<Self as Keeps>⟧.holds self.now pass.old children.old }
        requires way { ⟦<Self as Keeps>⟧.way self.now Stopped pass.old door.old (length children.old.items) }
        ensures holds { ⟦<Self as Keeps>⟧.holds self.now pass.new children.new }
        ensures way { ⟦<Self as Keeps>⟧.way self.now Stopped pass.new door.new (length children.new.items) }
        ensures keeps { ⟦<Self as Keeps>⟧.keeps self.now pass.old pass.new door.old door.new children.old children.new 0 }
    {
        for _ in 0..children.len() {
            self.settle_first(door, pass, children, bits);
        }
    }

    /// Waits until all children have ended, and takes them in.
    pub(crate) fn settle_all(&self, door: &mut A, pass: &mut Pass, children: Children<A::Link, C>)
        requires holds { ⟦<Self as Keeps>⟧.holds self.now pass.old children }
        ensures own { IsPassOf self.now.hub.now pass.new × (pass.new.number ≡ pass.old.number) }
        ensures settles { (end : Served) → ⟦<Self as Keeps>⟧.way self.now end pass.old door.old (length children.items)
            → ⟦<Self as Keeps>⟧.way self.now end pass.new door.new 0 }
        ensures given { A.given door.new ≡ A.given door.old }
        ensures stopped { A.stopped door.new ≡ A.stopped door.old }
        ensures at { A.at door.new ≡ A.at door.old }
        ensures kept { A.faults door.old ≤ A.faults door.new }
    {
        for child in children {
            join_child(self.rt, self.hub, door, pass, child);
        }
    }
}
