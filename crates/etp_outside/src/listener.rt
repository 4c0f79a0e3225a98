//! Where links come from.
ghost use Rattle.std.specs.Prelude.{◌≡◌, ◌+◌, ◌≤◌, ◌||◌, ℕ, Bool, true, false, List, IfSome, IsSome, length};
ghost use Rattle.std.specs.declared.option.Option.{Option};
ghost use Rattle.etp_outside.specs.Faults.{Rose};
ghost use Rattle.etp_outside.specs.Told.{Told};
ghost use Rattle.etp_outside.specs.Doors.{Back, IfLink, IsAccepted, TakesBack, back_of, is_stop, links};

use crate::link::Link;
use std::alloc::Global;

/// What listening returned.
#[derive(Clone, Copy, Debug, PartialEq, Eq)]
pub enum Listened {
    /// Links can come.
    Done,
    /// The listener failed, or can't listen at the address.
    Failed,
}

/// What waiting for a link returned.
#[derive(Debug, Drop)]
pub enum Next<L> {
    /// A link over which nothing has come or gone yet.
    Link(L),
    /// No further link comes.
    Stop,
    /// The listener failed.
    Failed,
    /// Out of memory.
    NoMemory,
}

/// Where peers connect. Whoever takes a link from it hands it back when done with it.
pub trait Listener {
    /// A link that was accepted.
    type Link: Link;

    /// How often it failed. The count stops at `u64::MAX`.
    ghost faults: { Self → ℕ };

    /// How many links it has given out.
    ghost given: { Self → ℕ };

    /// Whether it has reported that no further link comes.
    ghost stopped: { Self → Bool };

    /// The links that it took back, if it reveals them.
    ghost backs: { Self → Option (List Back) };

    /// The address at which it last began to listen, if it reveals that.
    ghost at: { Self → Option (List ℕ) };

    /// Begins to listen at an address.
    fn listen(&mut self, address: &str) -> Listened
        ensures at { result ≡ Listened.Done → Told (at self.old) (at self.new) (λ before place. place ≡ address.now) }
        ensures given { given self.new ≡ given self.old }
        ensures stopped { stopped self.new ≡ stopped self.old }
        ensures backs { backs self.new ≡ backs self.old }
        ensures kept { faults self.old ≤ faults self.new }
        ensures cause { result ≡ Listened.Failed → Rose (faults self.old) (faults self.new) };

    /// The next link. It stops before it has given out more links than a `u64` counts.
    fn next(&mut self, alloc: Global) -> Next<Self::Link>
        ensures link { IfLink result (λ l. IsAccepted (Self.Link.talk l) (Self.Link.faults l) (Self.Link.ended l)) }
        ensures tells { IfLink result (λ l. IsSome (backs self.new) → IsSome (Self.Link.talk l)) }
        ensures usable { IfLink result (λ l. Self.Link.closed l ≡ false) }
        ensures at { at self.new ≡ at self.old }
        ensures given { given self.new ≡ given self.old + links result }
        ensures stopped { stopped self.new ≡ (stopped self.old || is_stop result) }
        ensures backs { backs self.new ≡ backs self.old }
        ensures kept { faults self.old ≤ faults self.new }
        ensures cause { result ≡ Next.Failed → Rose (faults self.old) (faults self.new) };

    /// Takes a link back that was closed, with the number of its session and how that ended. Once as many came back as were given out, a
    /// further one is not one of its own.
    fn back(&mut self, link: Self::Link, number: u64, end: u8)
        requires closed { Self.Link.closed link ≡ true }
        ensures at { at self.new ≡ at self.old }
        ensures back { Told (backs self.old) (backs self.new) (TakesBack (given self.old)
            (back_of number end (Self.Link.faults link) (Self.Link.ended link) (Self.Link.talk link))) }
        ensures given { given self.new ≡ given self.old }
        ensures stopped { stopped self.new ≡ stopped self.old }
        ensures kept { faults self.old ≤ faults self.new };

    /// No more links came back than were given out.
    ghost few: { (d : Self) → IfSome (backs d) (λ bs. length bs ≤ given d) };
}
