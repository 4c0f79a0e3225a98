//! `follow`: the changes of a channel, each as it comes.
ghost use Rattle.std.specs.Prelude.{◌≡◌};
ghost use Rattle.client_core.specs.declared.ask.Ask.TheVariants as asked;
ghost use Rattle.client_forms.specs.Jobs.{IsFollow};
ghost use Rattle.client_forms.specs.Plans.{GivesAction, Waits};
ghost use Rattle.client_forms.specs.Texts.{change_lines};
ghost use Rattle.client_forms.specs.declared.action.Action.TheVariants as action;

use crate::action::Action;
use crate::changes::change_lines;
use crate::command::Job;
use crate::stop::{Cause, Stop};
use crate::watching::ask_meta;
use channel_store::What;
use client_core::{Ask, Got};
use etp_outside::Source;
use etp_values::{NoMemory, StoreUri};
use std::alloc::Global;
use watch_views::Board;

/// What `follow` waits for.
#[derive(Clone, Copy, Drop)]
enum FollowStage {
    /// The session to be open.
    Opening,
    /// What the channel is.
    Asked,
    /// Further changes of the channel.
    Followed,
}

/// `follow`, with the channel, and the index from which on its changes are followed.
#[derive(Drop)]
pub(crate) struct Follow {
    uri: StoreUri,
    start: i64,
    stage: FollowStage,
}

impl Follow {
    /// Before the session is open.
    pub(crate) fn new(uri: StoreUri, start: i64) -> Follow
        ensures { (result.uri ≡ uri) × (result.start ≡ start) × (result.stage ≡ FollowStage.Opening) }
    {
        Follow {
            uri,
            start,
            stage: FollowStage::Opening,
        }
    }

    /// To subscribe to the channel of this number.
    fn subscribe(&self, channel: &i64) -> Action
        ensures { result ≡ action.Ask (asked.Subscribe channel.now self.now.start) }
    {
        Action::Ask(Ask::Subscribe {
            channel: *channel,
            start: self.start,
        })
    }
}

impl Job for Follow {
    ghost owes = { λ s seen shown job left stage rest. IsFollow s.uri s.start s.stage job stage × Waits rest };

    ghost stands = { λ s seen shown job left stage. IsFollow s.uri s.start s.stage job stage };

    fn is_opening(&self) -> bool {
        matches!(self.stage, FollowStage::Opening)
    }

    fn show(&self, _alloc: Global, _board: &Board, _into: &mut Vec<u8>) -> Result<(), NoMemory> {
        Ok(())
    }

    fn next<R: Source>(
        &mut self,
        alloc: Global,
        got: &Got,
        _board: &mut Board,
        _from: &mut R,
    ) -> Result<Action, Stop> {
        match self.stage {
            FollowStage::Opening => match got {
                Got::Opened(_) => {
                    self.stage = FollowStage::Asked;
                    ask_meta(alloc, &self.uri)
                }
                _ => Ok(Action::Wait),
            },
            FollowStage::Asked => match got {
                Got::Meta { channel, .. } => {
                    self.stage = FollowStage::Followed;
                    Ok(self.subscribe(channel))
                }
                _ => Ok(Action::Wait),
            },
            FollowStage::Followed => match got {
                Got::Change(change) => write_change(alloc, &change.what),
                _ => Ok(Action::Wait),
            },
        }
    }

    fn more<R: Source>(&mut self, _alloc: Global, _from: &mut R) -> Result<Action, Stop> {
        Ok(Action::Wait)
    }
}

/// To write a change.
fn write_change(alloc: Global, what: &What) -> Result<Action, Stop>
    ensures { GivesAction result (action.Write (change_lines what.now)) }
{
    match change_lines(alloc, what) {
        Ok(lines) => Ok(Action::Write(lines)),
        Err(_) => Err(Stop::Cut(Cause::Memory)),
    }
}
