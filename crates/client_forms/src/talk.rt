//! What every command does over its link: it asks, sends what the client has to send, writes, and closes the session.
ghost use Rattle.std.specs.Prelude.{◌≡◌, ◌≤◌, Err, false};
ghost use Rattle.etp_outside.specs.declared.status.Status.TheVariants.{Done};
ghost use Rattle.client_forms.specs.Ctl.{Place, Stage, asks, closes, unclosed, writes};
ghost use Rattle.client_forms.specs.Sending.{SendCause, SendsAll, closed_by, refused_by, sent_by, short_by, unclosed_by, unsent_by, written_by};
ghost use Rattle.client_forms.specs.Work.{MayClose, Stops, Works, place};

use crate::io::Io;
use crate::stop::{Cause, Stop};
use client_core::{Ask, Client, ClientError};
use etp_outside::{Clock, Link, Sent, Sink, Source, Status, Written, write_all};
use std::alloc::Global;

/// Sends all that the client has to send.
pub(crate) fn send_all<L: Link>(
    alloc: Global,
    client: &mut Client,
    link: &mut L,
) -> Result<(), Cause>
    requires usable { L.closed link.old ≡ false }
    ensures usable { L.closed link.new ≡ false }
    ensures sent { SendsAll result client.old client.new (L.talk link.old) (L.talk link.new) }
    ensures kept { L.faults link.old ≤ L.faults link.new }
    ensures cause { SendCause result (L.faults link.old) (L.faults link.new) }
    ensures ended { L.ended link.new ≡ L.ended link.old }
{
    while let Some(message) = client.next_out() {
        match link.send(alloc, &message) {
            Sent::Done => {}
            Sent::Failed => return Err(Cause::Link),
            Sent::NoMemory => return Err(Cause::Memory),
        }
    }
    Ok(())
}

/// Asks at a moment of the clock's, and sends what that takes.
pub(crate) fn ask<L: Link, C: Clock, W: Sink, R: Source>(
    alloc: Global,
    ask: Ask,
    client: &mut Client,
    io: &mut Io<L, C, W, R>,
) -> Result<(), Stop>
    ensures works { (stage : Stage) → Works result (asks ask) (place client.old stage) (place client.new stage) io.old io.new }
    ensures output { io.new.output ≡ io.old.output }
    ensures input { io.new.input ≡ io.old.input }
{
    let moment = io.clock.now();
    match client.ask(alloc, ask, moment) {
        Ok(_) => sent_by(send_all(alloc, client, &mut io.link)),
        Err(error) => Err(refused_by(error)),
    }
}

/// What became of an ask that the client did.
fn sent_by(sent: Result<(), Cause>) -> Result<(), Stop>
    ensures { result ≡ sent_by sent }
{
    match sent {
        Ok(()) => Ok(()),
        Err(cause) => Err(Stop::Cut(cause)),
    }
}

/// Why a command stops whose ask the client refuses.
fn refused_by(error: ClientError) -> Stop
    ensures { result ≡ refused_by error }
{
    match error {
        ClientError::NoMemory => Stop::Cut(Cause::Memory),
        _ => Stop::Over(Status::Limit),
    }
}

/// Closes the session of a command that ends with this status. If the command was done and the link fails then, that is why it stops; an
/// earlier cause takes precedence.
pub(crate) fn close<L: Link, C: Clock, W: Sink, R: Source>(
    alloc: Global,
    status: Status,
    client: &mut Client,
    io: &mut Io<L, C, W, R>,
) -> Stop
    ensures stops { (stage : Stage) → MayClose status → Stops result (closes status) (place client.old stage) io.old io.new }
    ensures output { io.new.output ≡ io.old.output }
    ensures input { io.new.input ≡ io.old.input }
{
    let moment = io.clock.now();
    match client.ask(alloc, Ask::Close, moment) {
        Ok(_) => closed_by(status, send_all(alloc, client, &mut io.link)),
        Err(error) => unclosed_by(status, error),
    }
}

/// How a command ends with a status, by what came of its last message.
fn closed_by(status: Status, sent: Result<(), Cause>) -> Stop
    ensures { result ≡ closed_by status sent }
{
    match sent {
        Ok(()) => Stop::Over(status),
        Err(cause) => unsent_by(status, cause),
    }
}

/// The same if it was not sent.
fn unsent_by(status: Status, cause: Cause) -> Stop
    ensures { result ≡ unsent_by status cause }
{
    match status {
        Status::Done => Stop::Cut(cause),
        _ => short_by(status, cause),
    }
}

/// The same for a command that has another status.
fn short_by(status: Status, cause: Cause) -> Stop
    ensures { result ≡ short_by status cause }
{
    match cause {
        Cause::Memory => Stop::Cut(Cause::Memory),
        _ => Stop::Short(status),
    }
}

/// How a command ends with a status whose client could not close the session.
fn unclosed_by(status: Status, error: ClientError) -> Stop
    ensures { result ≡ unclosed_by status error }
{
    match error {
        ClientError::NoMemory => Stop::Cut(Cause::Memory),
        _ => Stop::Over(unclosed(status)),
    }
}

fn unclosed(status: Status) -> Status
    ensures { result ≡ unclosed status }
{
    match status {
        Status::Done => Status::Limit,
        _ => status,
    }
}

/// Writes bytes.
pub(crate) fn write<L: Link, C: Clock, W: Sink, R: Source>(
    bytes: &[u8],
    io: &mut Io<L, C, W, R>,
) -> Result<(), Stop>
    ensures works { (p : Place) → Works result (writes bytes.now) p p io.old io.new }
    ensures input { io.new.input ≡ io.old.input }
{
    written_by(write_all(&mut io.out, bytes))
}

/// What became of bytes that were written.
fn written_by(written: Written) -> Result<(), Stop>
    ensures { result ≡ written_by written }
{
    match written {
        Written::Done => Ok(()),
        Written::Failed => Err(Stop::Cut(Cause::Output)),
    }
}

/// Writes what a command has to show once it is done, and closes its session.
pub(crate) fn report<L: Link, C: Clock, W: Sink, R: Source>(
    alloc: Global,
    bytes: &[u8],
    client: &mut Client,
    io: &mut Io<L, C, W, R>,
) -> Stop
    ensures stops { (stage : Stage) → Stops result (λ c. closes Done (writes bytes.now c)) (place client.old stage) io.old io.new }
    ensures input { io.new.input ≡ io.old.input }
{
    match write_all(&mut io.out, bytes) {
        Written::Done => close(alloc, Status::Done, client, io),
        Written::Failed => Stop::Cut(Cause::Output),
    }
}
