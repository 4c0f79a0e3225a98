//! `watch`: the changes of a channel, and the views that show them.
ghost use Rattle.std.specs.Prelude.{◌≡◌, ◌==◌, IfOk, if◌then◌else◌};
ghost use Rattle.client_core.specs.declared.ask.Ask.TheVariants as asked;
ghost use Rattle.client_forms.specs.Ctl.{from_first};
ghost use Rattle.client_forms.specs.Plans.{GivesAction, Waits};
ghost use Rattle.client_forms.specs.Watches.{IsWatch};
ghost use Rattle.client_forms.specs.declared.action.Action.TheVariants as action;
ghost use Rattle.watch_views.specs.Boards.{lines_of, reading};

use crate::action::Action;
use crate::command::Job;
use crate::stop::{Cause, Stop};
use client_core::{Ask, Got};
use etp_outside::Source;
use etp_values::{Blob, Copied, NoMemory, StoreUri};
use std::alloc::Global;
use watch_views::{Board, View};

/// The lowest index: -2^62.
const FROM_FIRST: i64 = -4_611_686_018_427_387_904;

/// What `watch` waits for.
#[derive(Clone, Copy, Drop)]
enum WatchStage {
    /// The session to be open.
    Opening,
    /// What the channel is.
    Asked,
    /// Further changes of the channel.
    Watched,
}

/// `watch`, with the channel, how many of its changes are watched, and how many were fed to the board.
#[derive(Drop)]
pub(crate) struct Watch {
    uri: StoreUri,
    most: u64,
    stage: WatchStage,
    count: u64,
}

impl Watch {
    /// Before the session is open.
    pub(crate) fn new(uri: StoreUri, most: u64) -> Watch
        ensures { (result.uri ≡ uri) × (result.most ≡ most) × (result.stage ≡ WatchStage.Opening) × (result.count ≡ 0) }
    {
        Watch {
            uri,
            most,
            stage: WatchStage::Opening,
            count: 0,
        }
    }
}

impl Job for Watch {
    ghost owes = { λ s seen shown job left stage rest. IsWatch s.uri s.most s.stage s.count seen shown job stage × Waits rest };

    ghost stands = { λ s seen shown job left stage. IsWatch s.uri s.most s.stage s.count seen shown job stage };

    fn is_opening(&self) -> bool {
        matches!(self.stage, WatchStage::Opening)
    }

    fn show(&self, alloc: Global, board: &Board, into: &mut Vec<u8>) -> Result<(), NoMemory> {
        match self.stage {
            WatchStage::Watched => board.print(alloc, into),
            _ => Ok(()),
        }
    }

    fn next<R: Source>(
        &mut self,
        alloc: Global,
        got: &Got,
        board: &mut Board,
        _from: &mut R,
    ) -> Result<Action, Stop> {
        match self.stage {
            WatchStage::Opening => match got {
                Got::Opened(_) => {
                    self.stage = WatchStage::Asked;
                    ask_meta(alloc, &self.uri)
                }
                _ => Ok(Action::Wait),
            },
            WatchStage::Asked => match got {
                Got::Meta { channel, .. } => {
                    self.stage = WatchStage::Watched;
                    board.watch(*channel);
                    Ok(subscribe(*channel))
                }
                _ => Ok(Action::Wait),
            },
            WatchStage::Watched => match got {
                Got::Change(change) => {
                    let Some(count) = self.count.checked_add(1) else {
                        return Err(Stop::Cut(Cause::Memory));
                    };
                    if let Err(NoMemory) = board.feed(alloc, change) {
                        return Err(Stop::Cut(Cause::Memory));
                    }
                    self.count = count;
                    show_at(alloc, self.most, count, board)
                }
                _ => Ok(Action::Wait),
            },
        }
    }

    fn more<R: Source>(&mut self, _alloc: Global, _from: &mut R) -> Result<Action, Stop> {
        Ok(Action::Wait)
    }
}

/// To ask what the channel is.
pub(crate) fn ask_meta(alloc: Global, uri: &StoreUri) -> Result<Action, Stop>
    ensures { GivesAction result (action.Ask (asked.Meta uri.now)) }
{
    match uri.copy(alloc) {
        Ok(uri) => Ok(Action::Ask(Ask::Meta(uri))),
        Err(_) => Err(Stop::Cut(Cause::Memory)),
    }
}

/// To subscribe to the channel from its first index on.
fn subscribe(channel: i64) -> Action
    ensures { result ≡ action.Ask (asked.Subscribe channel from_first) }
{
    let start = FROM_FIRST;
    Action::Ask(Ask::Subscribe { channel, start })
}

/// To show the board after the last change, or to wait for more.
fn show_at(alloc: Global, most: u64, count: u64, board: &Board) -> Result<Action, Stop>
    ensures { GivesAction result (if count == most then action.Report (lines_of (reading (λ s. s.channel) (λ s. (⟦<dyn View as View>⟧ s.view.vtable).held s.view.value) (λ s. (⟦<dyn View as View>⟧ s.view.vtable).step s.view.value) (λ s. (⟦<dyn View as View>⟧ s.view.vtable).shown s.view.value)) board.now.shelves.items) else action.Wait) }
{
    if count != most {
        return Ok(Action::Wait);
    }
    match lines_of(alloc, board) {
        Ok(lines) => Ok(Action::Report(lines)),
        Err(_) => Err(Stop::Cut(Cause::Memory)),
    }
}

/// The lines of the board.
fn lines_of(alloc: Global, board: &Board) -> Result<Blob, NoMemory>
    ensures { IfOk result (λ lines. lines ≡ lines_of (reading (λ s. s.channel) (λ s. (⟦<dyn View as View>⟧ s.view.vtable).held s.view.value) (λ s. (⟦<dyn View as View>⟧ s.view.vtable).step s.view.value) (λ s. (⟦<dyn View as View>⟧ s.view.vtable).shown s.view.value)) board.now.shelves.items) }
{
    let mut lines = Vec::new(alloc);
    board.print(alloc, &mut lines)?;
    Blob::from_vec(lines)
}
