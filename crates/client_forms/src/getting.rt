//! `get`: the bytes of an object.
ghost use Rattle.std.specs.Prelude.{◌≡◌, false};
ghost use Rattle.client_core.specs.declared.ask.Ask.TheVariants as asked;
ghost use Rattle.client_forms.specs.Jobs.{IsGet};
ghost use Rattle.client_forms.specs.Plans.{GivesAction, Waits};
ghost use Rattle.client_forms.specs.declared.action.Action.TheVariants as action;

use crate::action::Action;
use crate::command::Job;
use crate::stop::{Cause, Stop};
use client_core::{Ask, Got};
use etp_outside::Source;
use etp_values::{Blob, Copied, NoMemory, StoreUri};
use std::alloc::Global;
use watch_views::Board;

/// `get`, with what it gets.
#[derive(Drop)]
pub(crate) struct Get {
    uri: StoreUri,
    /// Whether the session is open and the object was asked for.
    asked: bool,
}

impl Get {
    /// Before the session is open.
    pub(crate) fn new(uri: StoreUri) -> Get
        ensures { (result.uri ≡ uri) × (result.asked ≡ false) }
    {
        Get { uri, asked: false }
    }
}

impl Job for Get {
    ghost owes = { λ s seen shown job left stage rest. IsGet s.uri s.asked job stage × Waits rest };

    ghost stands = { λ s seen shown job left stage. IsGet s.uri s.asked job stage };

    fn is_opening(&self) -> bool {
        !self.asked
    }

    fn show(&self, _alloc: Global, _board: &Board, _into: &mut Vec<u8>) -> Result<(), NoMemory> {
        Ok(())
    }

    fn next<R: Source>(
        &mut self,
        alloc: Global,
        got: &Got,
        _board: &mut Board,
        _from: &mut R,
    ) -> Result<Action, Stop> {
        if self.asked {
            match got {
                Got::Object(_, payload) => show_object(payload),
                _ => Ok(Action::Wait),
            }
        } else {
            match got {
                Got::Opened(_) => {
                    self.asked = true;
                    get_object(alloc, &self.uri)
                }
                _ => Ok(Action::Wait),
            }
        }
    }

    fn more<R: Source>(&mut self, _alloc: Global, _from: &mut R) -> Result<Action, Stop> {
        Ok(Action::Wait)
    }
}

/// To get the object.
fn get_object(alloc: Global, uri: &StoreUri) -> Result<Action, Stop>
    ensures { GivesAction result (action.Ask (asked.Get uri.now)) }
{
    match uri.copy(alloc) {
        Ok(uri) => Ok(Action::Ask(Ask::Get(uri))),
        Err(_) => Err(Stop::Cut(Cause::Memory)),
    }
}

/// To write the object's bytes. They are shared, and not copied.
fn show_object(payload: &Blob) -> Result<Action, Stop>
    ensures { GivesAction result (action.Report payload.now) }
{
    match payload.share() {
        Ok(payload) => Ok(Action::Report(payload)),
        Err(_) => Err(Stop::Cut(Cause::Memory)),
    }
}
