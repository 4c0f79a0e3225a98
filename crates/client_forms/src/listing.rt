//! `spaces`: the dataspaces of a store.
ghost use Rattle.std.specs.Prelude.{◌≡◌, ◌++◌, false, IfOk, OnOk};
ghost use Rattle.client_forms.specs.Jobs.{IsList};
ghost use Rattle.client_forms.specs.Plans.{GivesAction, Waits};
ghost use Rattle.client_forms.specs.Texts.{space_line, space_lines};
ghost use Rattle.client_forms.specs.declared.action.Action.TheVariants as action;

use crate::action::Action;
use crate::command::Job;
use crate::stop::{Cause, Stop};
use client_core::{Ask, Got, Space};
use etp_outside::Source;
use etp_values::{Blob, NoMemory};
use std::alloc::Global;
use watch_views::Board;

/// `spaces`.
#[derive(Drop)]
pub(crate) struct Spaces {
    /// Whether the session is open and the dataspaces were asked for.
    asked: bool,
}

impl Spaces {
    /// Before the session is open.
    pub(crate) fn new() -> Spaces
        ensures { result.asked ≡ false }
    {
        Spaces { asked: false }
    }
}

impl Job for Spaces {
    ghost owes = { λ s seen shown job left stage rest. IsList s.asked job stage × Waits rest };

    ghost stands = { λ s seen shown job left stage. IsList s.asked job stage };

    fn is_opening(&self) -> bool {
        !self.asked
    }

    fn show(&self, _alloc: Global, _board: &Board, _into: &mut Vec<u8>) -> Result<(), NoMemory> {
        Ok(())
    }

    fn next<R: Source>(
        &mut self,
        alloc: Global,
        got: &Got,
        _board: &mut Board,
        _from: &mut R,
    ) -> Result<Action, Stop> {
        if self.asked {
            match got {
                Got::Spaces(_, spaces) => show_spaces(alloc, spaces.as_slice()),
                _ => Ok(Action::Wait),
            }
        } else {
            match got {
                Got::Opened(_) => {
                    self.asked = true;
                    Ok(Action::Ask(Ask::Spaces))
                }
                _ => Ok(Action::Wait),
            }
        }
    }

    fn more<R: Source>(&mut self, _alloc: Global, _from: &mut R) -> Result<Action, Stop> {
        Ok(Action::Wait)
    }
}

/// To show the dataspaces.
fn show_spaces(alloc: Global, spaces: &[Space]) -> Result<Action, Stop>
    ensures { GivesAction result (action.Report (space_lines spaces.now)) }
{
    match space_lines(alloc, spaces) {
        Ok(lines) => Ok(Action::Report(lines)),
        Err(_) => Err(Stop::Cut(Cause::Memory)),
    }
}

/// Appends the line of a dataspace.
fn put_space(alloc: Global, space: &Space, into: &mut Vec<u8>) -> Result<(), NoMemory>
    ensures { OnOk result (into.new.items ≡ into.old.items ++ space_line space.now) }
{
    let written = space.written;
    let created = space.created;
    let moments = format!(in alloc; " {written} {created}\n")?;
    into.extend_from_slice(space.uri.as_bytes())?;
    into.extend_from_slice(moments.as_bytes())?;
    Ok(())
}

/// The lines of dataspaces.
fn space_lines(alloc: Global, spaces: &[Space]) -> Result<Blob, NoMemory>
    ensures { IfOk result (λ lines. lines ≡ space_lines spaces.now) }
{
    let mut lines = Vec::new(alloc);
    for space in spaces {
        put_space(alloc, space, &mut lines)?;
    }
    Blob::from_vec(lines)
}
