//! `range`: the points of a channel in an interval, in lines from which `load` reads the same points.
ghost use Rattle.std.specs.Prelude.{◌≡◌, Some};
ghost use Rattle.client_core.specs.declared.ask.Ask.TheVariants as asked;
ghost use Rattle.client_forms.specs.Jobs.{GivesLines, IsRange};
ghost use Rattle.client_forms.specs.Plans.{Waits};
ghost use Rattle.client_forms.specs.declared.action.Action.TheVariants as action;
ghost use Rattle.point_lines.specs.Spelling.{lines_of};

use crate::action::Action;
use crate::command::Job;
use crate::stop::{Cause, Stop};
use crate::watching::ask_meta;
use client_core::{Ask, Got};
use etp_outside::{Source, Status};
use etp_values::{Blob, NoMemory, Point, StoreUri};
use point_lines::lines_of;
use std::alloc::Global;
use watch_views::Board;

/// What `range` waits for.
#[derive(Clone, Copy, Drop)]
enum RangeStage {
    /// The session to be open.
    Opening,
    /// What the channel is.
    Asked,
    /// The points.
    Ranged,
}

/// `range`, with the channel, the interval, and the kind of the channel's values once it is known.
#[derive(Drop)]
pub(crate) struct Range {
    uri: StoreUri,
    from: i64,
    to: i64,
    stage: RangeStage,
    kind: u32,
}

impl Range {
    /// Before the session is open.
    pub(crate) fn new(uri: StoreUri, from: i64, to: i64) -> Range
        ensures { (result.uri ≡ uri) × (result.from ≡ from) × (result.to ≡ to) × (result.stage ≡ RangeStage.Opening) }
    {
        Range {
            uri,
            from,
            to,
            stage: RangeStage::Opening,
            kind: 0,
        }
    }

    /// To ask for the points of the channel of this number.
    fn ask_points(&self, channel: &i64) -> Action
        ensures { result ≡ action.Ask (asked.Range channel.now self.now.from self.now.to) }
    {
        Action::Ask(Ask::Range {
            channel: *channel,
            from: self.from,
            to: self.to,
        })
    }
}

impl Job for Range {
    ghost owes = { λ s seen shown job left stage rest. IsRange s.uri s.from s.to s.stage s.kind job stage × Waits rest };

    ghost stands = { λ s seen shown job left stage. IsRange s.uri s.from s.to s.stage s.kind job stage };

    fn is_opening(&self) -> bool {
        matches!(self.stage, RangeStage::Opening)
    }

    fn show(&self, _alloc: Global, _board: &Board, _into: &mut Vec<u8>) -> Result<(), NoMemory> {
        Ok(())
    }

    fn next<R: Source>(
        &mut self,
        alloc: Global,
        got: &Got,
        _board: &mut Board,
        _from: &mut R,
    ) -> Result<Action, Stop> {
        match self.stage {
            RangeStage::Opening => match got {
                Got::Opened(_) => {
                    self.stage = RangeStage::Asked;
                    ask_meta(alloc, &self.uri)
                }
                _ => Ok(Action::Wait),
            },
            RangeStage::Asked => match got {
                Got::Meta { channel, kind, .. } => {
                    self.stage = RangeStage::Ranged;
                    self.kind = *kind;
                    Ok(self.ask_points(channel))
                }
                _ => Ok(Action::Wait),
            },
            RangeStage::Ranged => match got {
                Got::Points(_, points) => show_points(alloc, self.kind, points.as_slice()),
                _ => Ok(Action::Wait),
            },
        }
    }

    fn more<R: Source>(&mut self, _alloc: Global, _from: &mut R) -> Result<Action, Stop> {
        Ok(Action::Wait)
    }
}

/// To show the lines of the points. The command meets a limit if no line can denote one of them.
fn show_points(alloc: Global, kind: u32, points: &[Point]) -> Result<Action, Stop>
    ensures { GivesLines result (lines_of kind points.now) }
{
    match lines_of(alloc, kind, points) {
        Ok(Some(lines)) => show_lines(lines),
        Ok(None) => Err(Stop::Over(Status::Limit)),
        Err(_) => Err(Stop::Cut(Cause::Memory)),
    }
}

fn show_lines(lines: Vec<u8>) -> Result<Action, Stop>
    ensures { GivesLines result (Some lines.items) }
{
    match Blob::from_vec(lines) {
        Ok(lines) => Ok(Action::Report(lines)),
        Err(_) => Err(Stop::Cut(Cause::Memory)),
    }
}
