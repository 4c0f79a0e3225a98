//! Chains of places that share their beginnings.
ghost use Rattle.std.specs.Prelude.{◌≡◌, ◌<◌, ◌+◌, ◌≤◌, ◌++◌, ◌∷◌, [], OnOk, find, length, nat_le, slice_set, true};
ghost use Rattle.std.specs.List.{AllByRecursion};
ghost use Rattle.entry_index.specs.Chains.{chain, is_reached, last_of};
ghost use Rattle.entry_index.specs.Marks.{marked_places};
ghost use Rattle.entry_index.specs.Steps.{chains_of, Begins, IsChained};

use etp_values::NoMemory;
use std::alloc::Global;
use std::marker::Model;

/// The number of a chain that another one begins with, and how many places that one has in addition. The lengths are those of skew binary
/// numbers, so that from the end of a chain a few jumps lead near any of its places.
#[derive(Clone, Copy, Drop)]
struct Jump {
    to: usize,
    length: usize,
}

/// The last place of a chain, the number of the chain that it extends, and the jump from there.
#[derive(Clone, Copy, Drop)]
struct Step {
    place: u64,
    before: usize,
    jump: Jump,
}

/// Chains of places, each an earlier one plus one more place. They are numbered from 1, and 0 is the empty chain. A contract sees them in
/// order, and as `spare` how many more fit without allocating.
#[derive(Drop)]
pub(crate) struct Chains {
    steps: Vec<Step>,
}

impl Model for Chains {
    ghost use Rattle.std.specs.Prelude.{◌-◌};
    ghost use Rattle.std.specs.Vec.{vec_capacity, vec_len};
    ghost use Rattle.entry_index.specs.Chains.{AllChains};
    ghost use Rattle.entry_index.specs.Steps.{chains_of, IsChained};

    ghost Value = { AllChains };

    ghost view = { λ c. record { chains = chains_of c.steps.items; spare = vec_capacity c.steps - vec_len c.steps } };

    ghost invariant = { λ c. IsChained c.steps.items };
}

impl Chains {
    /// No chains.
    pub(crate) fn new(alloc: Global) -> Chains
        ensures { result.chains ≡ [] }
    {
        Chains {
            steps: Vec::new(alloc),
        }
    }

    /// Makes room for this many more.
    pub(crate) fn reserve(&mut self, more: usize) -> Result<(), NoMemory>
        ensures chains { self.new.chains ≡ self.old.chains }
        ensures ok { OnOk result (more ≤ self.new.spare) }
        ensures room { self.old.spare ≤ self.new.spare }
    {
        self.steps.reserve(more)?;
        Ok(())
    }

    /// Adds the chain of a number with one more place, and returns its number.
    pub(crate) fn push(&mut self, before: usize, place: u64) -> usize
        requires room { 0 < self.old.spare }
        requires known { before ≤ length self.old.chains }
        requires rises { AllByRecursion (λ p. p ≤ place) (chain self.old.chains before) }
        ensures chains { self.new.chains ≡ self.old.chains ++ (chain self.old.chains before ++ place ∷ []) ∷ [] }
        ensures number { result ≡ length self.new.chains }
        ensures room { self.old.spare ≤ self.new.spare + 1 }
    {
        let jump = new_jump(self.steps.as_slice(), before);
        let _ = self.steps.push(Step {
            place,
            before,
            jump,
        });
        self.steps.len()
    }

    /// The last place of a chain.
    pub(crate) fn last(&self, number: usize) -> Option<u64>
        requires { number ≤ length self.now.chains }
        ensures { result ≡ last_of (chain self.now.chains number) }
    {
        last_place(self.steps.as_slice(), number)
    }

    /// The first place of a chain from a place on.
    pub(crate) fn first_from(&self, number: usize, from: u64) -> Option<u64>
        requires { number ≤ length self.now.chains }
        ensures { result ≡ find (nat_le from) (chain self.now.chains number) }
    {
        first_place(self.steps.as_slice(), number, from)
    }

    /// Sets the marks of the places of a chain from a place on. The first mark is that of the place `first`.
    pub(crate) fn mark_from(&self, number: usize, from: u64, first: u64, marks: &mut [bool])
        requires { number ≤ length self.now.chains }
        ensures { marks.new ≡ marked_places from first (chain self.now.chains number) marks.old }
    {
        mark_places(self.steps.as_slice(), number, from, first, marks);
    }
}

fn last_place(steps: &[Step], number: usize) -> Option<u64>
    requires chained { IsChained steps.now }
    requires known { number ≤ length steps.now }
    ensures { result ≡ last_of (chain (chains_of steps.now) number) }
{
    if number == 0 {
        return None;
    }
    let step = steps[number - 1];
    Some(step.place)
}

/// The jump of the last step of a chain. That of the empty chain leads nowhere.
fn jump_of(steps: &[Step], number: usize) -> Jump
    requires chained { IsChained steps.now }
    requires known { number ≤ length steps.now }
    ensures { Begins steps.now result.to number }
{
    if number == 0 {
        return Jump { to: 0, length: 0 };
    }
    let step = steps[number - 1];
    step.jump
}

/// The jump of a step that extends a chain: over two jumps of equal length, otherwise over one place.
fn new_jump(steps: &[Step], before: usize) -> Jump
    requires chained { IsChained steps.now }
    requires known { before ≤ length steps.now }
    ensures { Begins steps.now result.to before }
{
    let first = jump_of(steps, before);
    let second = jump_of(steps, first.to);
    if first.length == second.length {
        return Jump {
            to: second.to,
            length: first.length.saturating_add(second.length).saturating_add(1),
        };
    }
    Jump {
        to: before,
        length: 1,
    }
}

/// Whether the last place of a chain is at or past a place.
fn is_reached(last: Option<u64>, from: u64) -> bool
    ensures { result ≡ is_reached from last }
{
    match last {
        Some(last) => last >= from,
        None => false,
    }
}

/// The number of the chain to search next, after a step that is at or past a place: that of the jump, if its last place is still at or past
/// it, otherwise the previous one.
fn next_chain(steps: &[Step], step: &Step, from: u64) -> usize
    requires chained { IsChained steps.now }
    requires known { step.now.before ≤ length steps.now }
    requires begins { Begins steps.now step.now.jump.to step.now.before }
    ensures within { result ≤ step.now.before }
    ensures found { find (nat_le from) (chain (chains_of steps.now) result)
        ≡ find (nat_le from) (chain (chains_of steps.now) step.now.before) }
{
    if is_reached(last_place(steps, step.jump.to), from) {
        return step.jump.to;
    }
    step.before
}

/// The first place of a chain from a place on. It goes back from the last one by jumps, so that a chain twice as long costs only a few
/// steps more.
fn first_place(steps: &[Step], number: usize, from: u64) -> Option<u64>
    requires chained { IsChained steps.now }
    requires known { number ≤ length steps.now }
    ensures { result ≡ find (nat_le from) (chain (chains_of steps.now) number) }
{
    let mut last = number;
    let mut found = None;
    while last > 0 {
        let step = steps[last - 1];
        if step.place < from {
            return found;
        }
        found = Some(step.place);
        last = next_chain(steps, &step, from);
    }
    found
}

/// Sets the marks of the places of a chain from a place on. The first mark is that of the place `first`.
fn mark_places(steps: &[Step], number: usize, from: u64, first: u64, marks: &mut [bool])
    requires chained { IsChained steps.now }
    requires known { number ≤ length steps.now }
    ensures { marks.new ≡ marked_places from first (chain (chains_of steps.now) number) marks.old }
{
    let least = from.max(first);
    let mut last = number;
    while last > 0 {
        let step = steps[last - 1];
        if step.place < least {
            return;
        }
        set_mark(marks, step.place - first);
        last = step.before;
    }
}

/// Sets a mark, if there is one with this number.
fn set_mark(marks: &mut [bool], number: u64)
    ensures { marks.new ≡ slice_set marks.old number true }
{
    if number >= marks.len() as u64 {
        return;
    }
    marks[number as usize] = true;
}
