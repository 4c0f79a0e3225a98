//! `ping`: a sign of life of the server.
ghost use Rattle.std.specs.Prelude.{◌≡◌, false, IfOk};
ghost use Rattle.client_forms.specs.Jobs.{IsPing};
ghost use Rattle.client_forms.specs.Plans.{GivesAction, Waits};
ghost use Rattle.client_forms.specs.Texts.{pong_line};
ghost use Rattle.client_forms.specs.declared.action.Action.TheVariants as action;

use crate::action::Action;
use crate::command::Job;
use crate::stop::{Cause, Stop};
use client_core::{Ask, Got};
use etp_outside::Source;
use etp_values::{Blob, NoMemory};
use std::alloc::Global;
use watch_views::Board;

/// `ping`.
#[derive(Drop)]
pub(crate) struct Ping {
    /// Whether the session is open and the server was pinged.
    asked: bool,
}

impl Ping {
    /// Before the session is open.
    pub(crate) fn new() -> Ping
        ensures { result.asked ≡ false }
    {
        Ping { asked: false }
    }
}

impl Job for Ping {
    ghost owes = { λ s seen shown job left stage rest. IsPing s.asked job stage × Waits rest };

    ghost stands = { λ s seen shown job left stage. IsPing s.asked job stage };

    fn is_opening(&self) -> bool {
        !self.asked
    }

    fn show(&self, _alloc: Global, _board: &Board, _into: &mut Vec<u8>) -> Result<(), NoMemory> {
        Ok(())
    }

    fn next<R: Source>(
        &mut self,
        alloc: Global,
        got: &Got,
        _board: &mut Board,
        _from: &mut R,
    ) -> Result<Action, Stop> {
        if self.asked {
            match got {
                Got::Pong(moment) => show_pong(alloc, moment),
                _ => Ok(Action::Wait),
            }
        } else {
            match got {
                Got::Opened(_) => {
                    self.asked = true;
                    Ok(Action::Ask(Ask::Ping))
                }
                _ => Ok(Action::Wait),
            }
        }
    }

    fn more<R: Source>(&mut self, _alloc: Global, _from: &mut R) -> Result<Action, Stop> {
        Ok(Action::Wait)
    }
}

/// To show the server's moment.
fn show_pong(alloc: Global, moment: &i64) -> Result<Action, Stop>
    ensures { GivesAction result (action.Report (pong_line moment.now)) }
{
    match pong_line(alloc, moment) {
        Ok(line) => Ok(Action::Report(line)),
        Err(_) => Err(Stop::Cut(Cause::Memory)),
    }
}

/// The line of the server's moment.
fn pong_line(alloc: Global, moment: &i64) -> Result<Blob, NoMemory>
    ensures { IfOk result (λ line. line ≡ pong_line moment.now) }
{
    let text = format!(in alloc; "pong {moment}\n")?;
    Blob::from_vec(text.into_bytes())
}
