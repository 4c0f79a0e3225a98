//! `delete`: an object.
ghost use Rattle.std.specs.Prelude.{◌≡◌, false, IfOk};
ghost use Rattle.client_core.specs.declared.ask.Ask.TheVariants as asked;
ghost use Rattle.client_forms.specs.Jobs.{IsDelete};
ghost use Rattle.client_forms.specs.Plans.{GivesAction, Waits};
ghost use Rattle.client_forms.specs.Texts.{deleted_line};
ghost use Rattle.client_forms.specs.declared.action.Action.TheVariants as action;

use crate::action::Action;
use crate::command::Job;
use crate::stop::{Cause, Stop};
use client_core::{Ask, Got};
use etp_outside::Source;
use etp_values::{Blob, Copied, NoMemory, StoreUri};
use std::alloc::Global;
use watch_views::Board;

/// `delete`, with what it deletes.
#[derive(Drop)]
pub(crate) struct Delete {
    uri: StoreUri,
    /// Whether the session is open and the deletion was asked for.
    asked: bool,
}

impl Delete {
    /// Before the session is open.
    pub(crate) fn new(uri: StoreUri) -> Delete
        ensures { (result.uri ≡ uri) × (result.asked ≡ false) }
    {
        Delete { uri, asked: false }
    }
}

impl Job for Delete {
    ghost owes = { λ s seen shown job left stage rest. IsDelete s.uri s.asked job stage × Waits rest };

    ghost stands = { λ s seen shown job left stage. IsDelete s.uri s.asked job stage };

    fn is_opening(&self) -> bool {
        !self.asked
    }

    fn show(&self, _alloc: Global, _board: &Board, _into: &mut Vec<u8>) -> Result<(), NoMemory> {
        Ok(())
    }

    fn next<R: Source>(
        &mut self,
        alloc: Global,
        got: &Got,
        _board: &mut Board,
        _from: &mut R,
    ) -> Result<Action, Stop> {
        if self.asked {
            match got {
                Got::Done(_) => show_deleted(alloc, &self.uri),
                _ => Ok(Action::Wait),
            }
        } else {
            match got {
                Got::Opened(_) => {
                    self.asked = true;
                    delete_object(alloc, &self.uri)
                }
                _ => Ok(Action::Wait),
            }
        }
    }

    fn more<R: Source>(&mut self, _alloc: Global, _from: &mut R) -> Result<Action, Stop> {
        Ok(Action::Wait)
    }
}

/// To delete the object.
fn delete_object(alloc: Global, uri: &StoreUri) -> Result<Action, Stop>
    ensures { GivesAction result (action.Ask (asked.Delete uri.now)) }
{
    match uri.copy(alloc) {
        Ok(uri) => Ok(Action::Ask(Ask::Delete(uri))),
        Err(_) => Err(Stop::Cut(Cause::Memory)),
    }
}

/// To show what was deleted.
fn show_deleted(alloc: Global, uri: &StoreUri) -> Result<Action, Stop>
    ensures { GivesAction result (action.Report (deleted_line uri.now)) }
{
    match deleted_line(alloc, uri) {
        Ok(line) => Ok(Action::Report(line)),
        Err(_) => Err(Stop::Cut(Cause::Memory)),
    }
}

/// The line that says what was deleted.
fn deleted_line(alloc: Global, uri: &StoreUri) -> Result<Blob, NoMemory>
    ensures { IfOk result (λ line. line ≡ deleted_line uri.now) }
{
    let text = uri.write(alloc)?;
    let mut line = Vec::new(alloc);
    line.extend_from_slice(b"deleted ")?;
    line.extend_from_slice(text.as_bytes())?;
    line.extend_from_slice(b"\n")?;
    Blob::from_vec(line)
}
