//! `put`: an object with the bytes of a file.
ghost use Rattle.std.specs.Prelude.{◌≡◌, false, IfOk};
ghost use Rattle.client_core.specs.declared.ask.Ask.TheVariants as asked;
ghost use Rattle.client_forms.specs.Jobs.{IsPut};
ghost use Rattle.client_forms.specs.Plans.{GivesAction, Waits};
ghost use Rattle.client_forms.specs.Texts.{put_line};
ghost use Rattle.client_forms.specs.declared.action.Action.TheVariants as action;

use crate::action::Action;
use crate::command::Job;
use crate::stop::{Cause, Stop};
use client_core::{Ask, Got};
use etp_outside::Source;
use etp_values::{Blob, Copied, NoMemory, StoreUri};
use std::alloc::Global;
use watch_views::Board;

/// `put`, with what it puts.
#[derive(Drop)]
pub(crate) struct Put {
    uri: StoreUri,
    payload: Blob,
    /// Whether the session is open and the object was put.
    asked: bool,
}

impl Put {
    /// Before the session is open.
    pub(crate) fn new(uri: StoreUri, payload: Blob) -> Put
        ensures { (result.uri ≡ uri) × (result.payload ≡ payload) × (result.asked ≡ false) }
    {
        Put {
            uri,
            payload,
            asked: false,
        }
    }
}

impl Job for Put {
    ghost owes = { λ s seen shown job left stage rest. IsPut s.uri s.payload s.asked job stage × Waits rest };

    ghost stands = { λ s seen shown job left stage. IsPut s.uri s.payload s.asked job stage };

    fn is_opening(&self) -> bool {
        !self.asked
    }

    fn show(&self, _alloc: Global, _board: &Board, _into: &mut Vec<u8>) -> Result<(), NoMemory> {
        Ok(())
    }

    fn next<R: Source>(
        &mut self,
        alloc: Global,
        got: &Got,
        _board: &mut Board,
        _from: &mut R,
    ) -> Result<Action, Stop> {
        if self.asked {
            match got {
                Got::Done(_) => show_put(alloc, &self.uri),
                _ => Ok(Action::Wait),
            }
        } else {
            match got {
                Got::Opened(_) => {
                    self.asked = true;
                    put_object(alloc, &self.uri, &self.payload)
                }
                _ => Ok(Action::Wait),
            }
        }
    }

    fn more<R: Source>(&mut self, _alloc: Global, _from: &mut R) -> Result<Action, Stop> {
        Ok(Action::Wait)
    }
}

/// To put the object. The data are shared, and not copied.
fn put_object(alloc: Global, uri: &StoreUri, payload: &Blob) -> Result<Action, Stop>
    ensures { GivesAction result (action.Ask (asked.Put uri.now payload.now)) }
{
    match put_ask(alloc, uri, payload) {
        Ok(put) => Ok(Action::Ask(put)),
        Err(_) => Err(Stop::Cut(Cause::Memory)),
    }
}

fn put_ask(alloc: Global, uri: &StoreUri, payload: &Blob) -> Result<Ask, NoMemory>
    ensures { IfOk result (λ ask. ask ≡ asked.Put uri.now payload.now) }
{
    let uri = uri.copy(alloc)?;
    let payload = payload.share()?;
    Ok(Ask::Put { uri, payload })
}

/// To show what was put.
fn show_put(alloc: Global, uri: &StoreUri) -> Result<Action, Stop>
    ensures { GivesAction result (action.Report (put_line uri.now)) }
{
    match put_line(alloc, uri) {
        Ok(line) => Ok(Action::Report(line)),
        Err(_) => Err(Stop::Cut(Cause::Memory)),
    }
}

/// The line that says what was put.
fn put_line(alloc: Global, uri: &StoreUri) -> Result<Blob, NoMemory>
    ensures { IfOk result (λ line. line ≡ put_line uri.now) }
{
    let text = uri.write(alloc)?;
    let mut line = Vec::new(alloc);
    line.extend_from_slice(b"put ")?;
    line.extend_from_slice(text.as_bytes())?;
    line.extend_from_slice(b"\n")?;
    Blob::from_vec(line)
}
