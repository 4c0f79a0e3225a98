//! What a command wants done, and doing it over its link.
ghost use Rattle.std.specs.Prelude.{◌≡◌};
ghost use Rattle.client_forms.specs.Ctl.{Stage};
ghost use Rattle.client_forms.specs.Plans.{acts};
ghost use Rattle.client_forms.specs.Work.{Works, place};

use crate::io::Io;
use crate::stop::Stop;
use crate::talk::{ask, report, write};
use client_core::{Ask, Client};
use etp_outside::{Clock, Link, Sink, Source};
use etp_values::Blob;
use std::alloc::Global;

/// What a command wants done.
#[derive(Drop)]
pub(crate) enum Action {
    /// Nothing: it waits for more answers.
    Wait,
    /// To ask for something.
    Ask(Ask),
    /// To write these bytes.
    Write(Blob),
    /// To write these bytes, and to close the session: the command is done.
    Report(Blob),
}

/// Does what a command wants done.
pub(crate) fn perform<L: Link, C: Clock, W: Sink, R: Source>(
    alloc: Global,
    action: Action,
    client: &mut Client,
    io: &mut Io<L, C, W, R>,
) -> Result<(), Stop>
    ensures works { (stage : Stage) → Works result (acts action) (place client.old stage) (place client.new stage) io.old io.new }
    ensures input { io.new.input ≡ io.old.input }
{
    match action {
        Action::Wait => Ok(()),
        Action::Ask(wish) => ask(alloc, wish, client, io),
        Action::Write(bytes) => write(bytes.as_bytes(), io),
        Action::Report(bytes) => Err(report(alloc, bytes.as_bytes(), client, io)),
    }
}
