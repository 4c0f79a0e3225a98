//! What each command of the client wants done with what comes. A command touches no link: [`step`] does what it wants.
ghost use Rattle.std.specs.Prelude.{◌≡◌, ◌≤◌, ◌++◌, ℕ, ℤ, List, IfErr, OnOk, Err};
ghost use Rattle.std.specs.declared.option.Option.{Option};
ghost use Rattle.channel_store.specs.declared.copy.ChangeMsg.{ChangeMsg};
ghost use Rattle.etp_outside.specs.declared.status.Status.TheVariants.{Done};
ghost use Rattle.client_forms.specs.Ctl.{Course, Job, Place, Stage, goes_by, is_opening, showing};
ghost use Rattle.client_forms.specs.Jobs.{HasRead};
ghost use Rattle.client_forms.specs.Plans.{ActsOn, Doing, GivesUp, Plans, is_wait, wanted};
ghost use Rattle.client_forms.specs.Shown.{Seen, seen_on};
ghost use Rattle.client_forms.specs.Work.{Line, Outside, Output, Steps, Why, input, outside, place};
ghost use Rattle.watch_views.specs.Boards.{reading};

use crate::action::{Action, perform};
use crate::io::Io;
use crate::stop::{Cause, Stop};
use client_core::{Client, Got};
use etp_outside::{Clock, Link, Sink, Source};
use etp_values::NoMemory;
use std::alloc::Global;
use watch_views::{Board, View};

/// A command, with what it waits for.
pub(crate) trait Job: Drop {
    /// That it is this command at this stage and does this before it waits again, if the board has these views, they show these lines, and
    /// the input has this left.
    ghost owes: { Self → List Seen → (ℤ → List ChangeMsg → List ℕ) → Job → Option (List ℕ) → Stage → (Course → Course) → Type 0 };

    /// That it waits.
    ghost stands: { Self → List Seen → (ℤ → List ChangeMsg → List ℕ) → Job → Option (List ℕ) → Stage → Type 0 };

    /// Whether the session is still to be opened.
    fn is_opening(&self) -> bool
        ensures { (seen : List Seen) (shown : ℤ → List ChangeMsg → List ℕ) (job : Job) (left : Option (List ℕ)) (stage : Stage)
            → stands self.now seen shown job left stage → result ≡ is_opening stage };

    /// Appends what is to be shown if the server has stopped its subscription.
    fn show(&self, alloc: Global, board: &Board, into: &mut Vec<u8>) -> Result<(), NoMemory>
        ensures { let seen : List _ → List Seen = λ bs. seen_on (reading (λ s. s.channel) (λ s. (⟦<dyn View as View>⟧ s.view.vtable).held s.view.value)
            (λ s. (⟦<dyn View as View>⟧ s.view.vtable).step s.view.value) (λ s. (⟦<dyn View as View>⟧ s.view.vtable).shown s.view.value)) bs in
            (shown : ℤ → List ChangeMsg → List ℕ) (job : Job) (left : Option (List ℕ)) (stage : Stage)
            → stands self.now (seen board.now.shelves.items) shown job left stage
            → OnOk result (into.new.items ≡ into.old.items ++ showing shown stage) };

    /// What it wants done with an answer.
    fn next<R: Source>(
        &mut self,
        alloc: Global,
        got: &Got,
        board: &mut Board,
        from: &mut R,
    ) -> Result<Action, Stop>
        ensures plans { let seen : List _ → List Seen = λ bs. seen_on (reading (λ s. s.channel) (λ s. (⟦<dyn View as View>⟧ s.view.vtable).held s.view.value)
            (λ s. (⟦<dyn View as View>⟧ s.view.vtable).step s.view.value) (λ s. (⟦<dyn View as View>⟧ s.view.vtable).shown s.view.value)) bs in
            (shown : ℤ → List ChangeMsg → List ℕ) (job : Job) (stage : Stage) (l : Line) (told : Option (List ℤ)) (o : Output)
            → stands self.old (seen board.old.shelves.items) shown job (R.left from.old) stage
            → Plans result (owes self.new (seen board.new.shelves.items) shown job (R.left from.new)) (stands self.new (seen board.new.shelves.items) shown job (R.left from.new)) (HasRead job (R.left from.new)) (λ c. goes_by shown job c.at.stage got.now c) stage
            (outside l told o (input (R.left from.old) (R.faults from.old))) (outside l told o (input (R.left from.new) (R.faults from.new))) }
        ensures kept { R.faults from.old ≤ R.faults from.new }
        ensures why { IfErr result (λ e. GivesUp e (R.faults from.old) (R.faults from.new)) };

    /// What it wants done next, after what was done.
    fn more<R: Source>(&mut self, alloc: Global, from: &mut R) -> Result<Action, Stop>
        ensures plans { (seen : List Seen) (shown : ℤ → List ChangeMsg → List ℕ) (job : Job) (stage : Stage) (rest : Course → Course) (l : Line) (told : Option (List ℤ)) (o : Output)
            → owes self.old seen shown job (R.left from.old) stage rest
            → Plans result (owes self.new seen shown job (R.left from.new)) (stands self.new seen shown job (R.left from.new)) (HasRead job (R.left from.new)) rest stage
            (outside l told o (input (R.left from.old) (R.faults from.old))) (outside l told o (input (R.left from.new) (R.faults from.new))) }
        ensures kept { R.faults from.old ≤ R.faults from.new }
        ensures why { IfErr result (λ e. GivesUp e (R.faults from.old) (R.faults from.new)) };
}

/// Does what a command wants done, and returns what it wants then; nothing if it waits.
fn act<J: Job, L: Link, C: Clock, W: Sink, R: Source>(
    alloc: Global,
    command: &mut J,
    action: Action,
    client: &mut Client,
    io: &mut Io<L, C, W, R>,
) -> Result<Option<Action>, Stop>
    ensures acts { (seen : List Seen) (shown : ℤ → List ChangeMsg → List ℕ) (job : Job) (f : Course → Course) (p : Place) (x : Outside)
        → Doing (J.owes command.old seen shown job io.old.input.left) (J.stands command.old seen shown job io.old.input.left) (HasRead job io.old.input.left) f p client.old action x io.old
        → ActsOn result (J.owes command.new seen shown job io.new.input.left) (J.stands command.new seen shown job io.new.input.left) (HasRead job io.new.input.left) f p client.new x io.new }
    ensures read { result ≡ Err (Stop.Over Done) → (seen : List Seen) (shown : ℤ → List ChangeMsg → List ℕ) (job : Job) (f : Course → Course) (p : Place) (x : Outside)
        → Doing (J.owes command.old seen shown job io.old.input.left) (J.stands command.old seen shown job io.old.input.left) (HasRead job io.old.input.left) f p client.old action x io.old
        → HasRead job io.new.input.left }
    ensures why { Why result io.old io.new }
{
    if is_wait(&action) {
        drop(action);
        return Ok(None);
    }
    match perform(alloc, action, client, io) {
        Ok(()) => wanted(command.more(alloc, &mut io.from)),
        Err(stop) => Err(stop),
    }
}

fn is_wait(action: &Action) -> bool
    ensures { result ≡ is_wait action.now }
{
    matches!(action, Action::Wait)
}

fn wanted(action: Result<Action, Stop>) -> Result<Option<Action>, Stop>
    ensures { result ≡ wanted action }
{
    match action {
        Ok(action) => Ok(Some(action)),
        Err(stop) => Err(stop),
    }
}

/// Does what a command wants done, one action after another, until it waits.
fn act_all<J: Job, L: Link, C: Clock, W: Sink, R: Source>(
    alloc: Global,
    command: &mut J,
    action: Action,
    client: &mut Client,
    io: &mut Io<L, C, W, R>,
) -> Result<(), Stop>
    ensures steps { (seen : List Seen) (shown : ℤ → List ChangeMsg → List ℕ) (job : Job) (f : Course → Course) (p : Place) (x : Outside)
        → Doing (J.owes command.old seen shown job io.old.input.left) (J.stands command.old seen shown job io.old.input.left) (HasRead job io.old.input.left) f p client.old action x io.old
        → Steps result (J.stands command.new seen shown job io.new.input.left) f p client.new x io.new }
    ensures read { result ≡ Err (Stop.Over Done) → (seen : List Seen) (shown : ℤ → List ChangeMsg → List ℕ) (job : Job) (f : Course → Course) (p : Place) (x : Outside)
        → Doing (J.owes command.old seen shown job io.old.input.left) (J.stands command.old seen shown job io.old.input.left) (HasRead job io.old.input.left) f p client.old action x io.old
        → HasRead job io.new.input.left }
    ensures why { Why result io.old io.new }
{
    let mut action = action;
    for _ in 0..u64::MAX {
        match act(alloc, command, action, client, io) {
            Ok(Some(next)) => action = next,
            Ok(None) => return Ok(()),
            Err(stop) => return Err(stop),
        }
    }
    drop(action);
    Err(Stop::Cut(Cause::Memory))
}

/// Does what a command wants done with an answer.
pub(crate) fn step<J: Job, L: Link, C: Clock, W: Sink, R: Source>(
    alloc: Global,
    command: &mut J,
    got: &Got,
    client: &mut Client,
    io: &mut Io<L, C, W, R>,
    board: &mut Board,
) -> Result<(), Stop>
    ensures steps { let seen : List _ → List Seen = λ bs. seen_on (reading (λ s. s.channel) (λ s. (⟦<dyn View as View>⟧ s.view.vtable).held s.view.value)
        (λ s. (⟦<dyn View as View>⟧ s.view.vtable).step s.view.value) (λ s. (⟦<dyn View as View>⟧ s.view.vtable).shown s.view.value)) bs in
        (shown : ℤ → List ChangeMsg → List ℕ) (job : Job) (stage : Stage) → J.stands command.old (seen board.old.shelves.items) shown job io.old.input.left stage
        → Steps result (J.stands command.new (seen board.new.shelves.items) shown job io.new.input.left) (λ c. goes_by shown job c.at.stage got.now c) (place client.old stage) client.new io.old io.new }
    ensures read { let seen : List _ → List Seen = λ bs. seen_on (reading (λ s. s.channel) (λ s. (⟦<dyn View as View>⟧ s.view.vtable).held s.view.value)
        (λ s. (⟦<dyn View as View>⟧ s.view.vtable).step s.view.value) (λ s. (⟦<dyn View as View>⟧ s.view.vtable).shown s.view.value)) bs in
        result ≡ Err (Stop.Over Done) → (shown : ℤ → List ChangeMsg → List ℕ) (job : Job) (stage : Stage)
        → J.stands command.old (seen board.old.shelves.items) shown job io.old.input.left stage → HasRead job io.new.input.left }
    ensures why { Why result io.old io.new }
{
    match command.next(alloc, got, board, &mut io.from) {
        Ok(action) => act_all(alloc, command, action, client, io),
        Err(stop) => Err(stop),
    }
}
