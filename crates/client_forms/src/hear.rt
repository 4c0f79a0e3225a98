//! What a command does with a message: its client takes it, and the answers in it are processed one after another.
ghost use Rattle.std.specs.Prelude.{◌≡◌, ℕ, ℤ, List, Err, fold};
ghost use Rattle.std.specs.declared.option.Option.{Option};
ghost use Rattle.channel_store.specs.declared.copy.ChangeMsg.{ChangeMsg};
ghost use Rattle.etp_outside.specs.declared.status.Status.TheVariants.{Done};
ghost use Rattle.client_forms.specs.Ctl.{Job, Stage, breaks, goes_on, hears, is_opening, showing, takes_message, writes};
ghost use Rattle.client_forms.specs.Jobs.{HasRead};
ghost use Rattle.client_forms.specs.Sending.{shortened};
ghost use Rattle.client_forms.specs.Shown.{Seen, seen_on};
ghost use Rattle.client_forms.specs.Work.{FailsOn, IsLate, IsWhy, NoLess, Steps, Stops, Why, place};
ghost use Rattle.watch_views.specs.Boards.{reading};

use crate::command::{Job, step};
use crate::io::Io;
use crate::stop::{Cause, Stop};
use crate::talk::close;
use client_core::{Client, ClientError, Got};
use etp_outside::{Clock, Link, Sink, Source, Status, Written, write_all};
use etp_values::Blob;
use std::alloc::Global;
use watch_views::{Board, View};

/// The answers of one message, in their order, until the command ends.
fn go_on<J: Job, L: Link, C: Clock, W: Sink, R: Source>(
    alloc: Global,
    command: &mut J,
    gots: &[Got],
    client: &mut Client,
    io: &mut Io<L, C, W, R>,
    board: &mut Board,
) -> Result<(), Stop>
    ensures steps { let seen : List _ → List Seen = λ bs. seen_on (reading (λ s. s.channel) (λ s. (⟦<dyn View as View>⟧ s.view.vtable).held s.view.value)
        (λ s. (⟦<dyn View as View>⟧ s.view.vtable).step s.view.value) (λ s. (⟦<dyn View as View>⟧ s.view.vtable).shown s.view.value)) bs in
        (shown : ℤ → List ChangeMsg → List ℕ) (job : Job) (stage : Stage) → J.stands command.old (seen board.old.shelves.items) shown job io.old.input.left stage
        → Steps result (J.stands command.new (seen board.new.shelves.items) shown job io.new.input.left) (λ c. fold (goes_on shown job) c gots.now) (place client.old stage) client.new io.old io.new }
    ensures read { let seen : List _ → List Seen = λ bs. seen_on (reading (λ s. s.channel) (λ s. (⟦<dyn View as View>⟧ s.view.vtable).held s.view.value)
        (λ s. (⟦<dyn View as View>⟧ s.view.vtable).step s.view.value) (λ s. (⟦<dyn View as View>⟧ s.view.vtable).shown s.view.value)) bs in
        result ≡ Err (Stop.Over Done) → (shown : ℤ → List ChangeMsg → List ℕ) (job : Job) (stage : Stage)
        → J.stands command.old (seen board.old.shelves.items) shown job io.old.input.left stage → HasRead job io.new.input.left }
    ensures why { Why result io.old io.new }
{
    for got in gots {
        if let Err(stop) = step(alloc, command, got, client, io, board) {
            return Err(stop);
        }
    }
    Ok(())
}

/// Ends a command with a status: the session is closed, if it is open.
fn break_off<L: Link, C: Clock, W: Sink, R: Source>(
    alloc: Global,
    status: Status,
    opening: bool,
    client: &mut Client,
    io: &mut Io<L, C, W, R>,
) -> Stop
    ensures stops { (stage : Stage) → opening ≡ is_opening stage → IsLate status → Stops result (breaks status) (place client.old stage) io.old io.new }
    ensures output { io.new.output ≡ io.old.output }
    ensures input { io.new.input ≡ io.old.input }
{
    if opening {
        return Stop::Over(status);
    }
    close(alloc, status, client, io)
}

/// The stop of a command that could not write everything that it was to show.
fn shortened(stop: Stop) -> Stop
    ensures { result ≡ shortened stop }
{
    match stop {
        Stop::Over(status) => Stop::Short(status),
        _ => stop,
    }
}

/// Ends a command whose subscription the server has stopped: what it has to show is written.
fn stop_with<L: Link, C: Clock, W: Sink, R: Source>(
    alloc: Global,
    bytes: &[u8],
    opening: bool,
    client: &mut Client,
    io: &mut Io<L, C, W, R>,
) -> Stop
    ensures stops { (stage : Stage) → opening ≡ is_opening stage → Stops result (λ c. breaks Status.Stopped (writes bytes.now c)) (place client.old stage) io.old io.new }
    ensures input { io.new.input ≡ io.old.input }
{
    let written = write_all(&mut io.out, bytes);
    let stop = break_off(alloc, Status::Stopped, opening, client, io);
    match written {
        Written::Done => stop,
        Written::Failed => shortened(stop),
    }
}

/// The same for the command itself.
fn stop<J: Job, L: Link, C: Clock, W: Sink, R: Source>(
    alloc: Global,
    command: &J,
    client: &mut Client,
    io: &mut Io<L, C, W, R>,
    board: &Board,
) -> Stop
    ensures stops { let seen : List _ → List Seen = λ bs. seen_on (reading (λ s. s.channel) (λ s. (⟦<dyn View as View>⟧ s.view.vtable).held s.view.value)
        (λ s. (⟦<dyn View as View>⟧ s.view.vtable).step s.view.value) (λ s. (⟦<dyn View as View>⟧ s.view.vtable).shown s.view.value)) bs in
        (shown : ℤ → List ChangeMsg → List ℕ) (job : Job) (left : Option (List ℕ)) (stage : Stage) → J.stands command.now (seen board.now.shelves.items) shown job left stage
        → Stops result (λ c. breaks Status.Stopped (writes (showing shown c.at.stage) c)) (place client.old stage) io.old io.new }
    ensures why { NoLess io.old io.new × IsWhy result io.old io.new }
    ensures input { io.new.input ≡ io.old.input }
{
    let mut bytes = Vec::new(alloc);
    match command.show(alloc, board, &mut bytes) {
        Ok(()) => stop_with(alloc, bytes.as_slice(), command.is_opening(), client, io),
        Err(_) => Stop::Cut(Cause::Memory),
    }
}

/// What a command does with a refusal from its client.
fn on_error<J: Job, L: Link, C: Clock, W: Sink, R: Source>(
    alloc: Global,
    error: &ClientError,
    command: &J,
    client: &mut Client,
    io: &mut Io<L, C, W, R>,
    board: &Board,
) -> Stop
    ensures fails { let seen : List _ → List Seen = λ bs. seen_on (reading (λ s. s.channel) (λ s. (⟦<dyn View as View>⟧ s.view.vtable).held s.view.value)
        (λ s. (⟦<dyn View as View>⟧ s.view.vtable).step s.view.value) (λ s. (⟦<dyn View as View>⟧ s.view.vtable).shown s.view.value)) bs in
        (shown : ℤ → List ChangeMsg → List ℕ) (job : Job) (left : Option (List ℕ)) (stage : Stage) → J.stands command.now (seen board.now.shelves.items) shown job left stage
        → FailsOn error.now result (λ e. hears shown job (Err e)) (place client.old stage) io.old io.new }
    ensures why { NoLess io.old io.new × IsWhy result io.old io.new }
    ensures input { io.new.input ≡ io.old.input }
{
    match error {
        ClientError::Refused { code, .. } => break_off(
            alloc,
            Status::Refused(i64::from(*code)),
            command.is_opening(),
            client,
            io,
        ),
        ClientError::Stopped(_) => stop(alloc, command, client, io, board),
        ClientError::NoMemory => Stop::Cut(Cause::Memory),
        _ => Stop::Over(Status::Peer),
    }
}

/// What a command does with a message.
pub(crate) fn on_message<J: Job, L: Link, C: Clock, W: Sink, R: Source>(
    alloc: Global,
    command: &mut J,
    message: &Blob,
    client: &mut Client,
    io: &mut Io<L, C, W, R>,
    board: &mut Board,
) -> Result<(), Stop>
    ensures steps { let seen : List _ → List Seen = λ bs. seen_on (reading (λ s. s.channel) (λ s. (⟦<dyn View as View>⟧ s.view.vtable).held s.view.value)
        (λ s. (⟦<dyn View as View>⟧ s.view.vtable).step s.view.value) (λ s. (⟦<dyn View as View>⟧ s.view.vtable).shown s.view.value)) bs in
        (shown : ℤ → List ChangeMsg → List ℕ) (job : Job) (stage : Stage) → J.stands command.old (seen board.old.shelves.items) shown job io.old.input.left stage
        → Steps result (J.stands command.new (seen board.new.shelves.items) shown job io.new.input.left) (takes_message shown job message.now) (place client.old stage) client.new io.old io.new }
    ensures read { let seen : List _ → List Seen = λ bs. seen_on (reading (λ s. s.channel) (λ s. (⟦<dyn View as View>⟧ s.view.vtable).held s.view.value)
        (λ s. (⟦<dyn View as View>⟧ s.view.vtable).step s.view.value) (λ s. (⟦<dyn View as View>⟧ s.view.vtable).shown s.view.value)) bs in
        result ≡ Err (Stop.Over Done) → (shown : ℤ → List ChangeMsg → List ℕ) (job : Job) (stage : Stage)
        → J.stands command.old (seen board.old.shelves.items) shown job io.old.input.left stage → HasRead job io.new.input.left }
    ensures why { Why result io.old io.new }
{
    match client.take(alloc, message.as_bytes()) {
        Ok(gots) => go_on(alloc, command, gots.as_slice(), client, io, board),
        Err(error) => Err(on_error(alloc, &error, command, client, io, board)),
    }
}
