//! `load`: the points of an input into a channel.
ghost use Rattle.std.specs.Prelude.{◌≡◌, ◌≤◌, ℕ, ℤ, List, [], IfErr, IfOk};
ghost use Rattle.std.specs.declared.option.Option.{Option};
ghost use Rattle.channel_store.specs.declared.copy.ChangeMsg.{ChangeMsg};
ghost use Rattle.etp_values.specs.declared.point.Point.{Point};
ghost use Rattle.client_core.specs.declared.ask.Ask.TheVariants as asked;
ghost use Rattle.client_forms.specs.Ctl.{Asked, Course, Job};
ghost use Rattle.client_forms.specs.Filling.{Fills, GivesPoint, Holds, IsAtLine, IsFresh, IsLoad, IsLoading, OwesLoad, ReadsFor, Turns, WantsLast, turned};
ghost use Rattle.client_forms.specs.Jobs.{HasRead};
ghost use Rattle.client_forms.specs.Plans.{GivesAction, GivesUp, Plans};
ghost use Rattle.client_forms.specs.Shown.{Seen};
ghost use Rattle.client_forms.specs.Texts.{loaded_line};
ghost use Rattle.client_forms.specs.Work.{Line, Output, input, outside};
ghost use Rattle.client_forms.specs.declared.action.Action.TheVariants as action;

use crate::action::Action;
use crate::batch::Batch;
use crate::command::Job;
use crate::stop::{Cause, Stop};
use client_core::{Ask, Got};
use etp_outside::{Source, Status};
use etp_values::{Blob, Copied, NoMemory, Point, StoreUri};
use point_lines::{Advance, Lines, point_in};
use std::alloc::Global;
use std::mem;
use watch_views::Board;

/// The lines that are read for a channel of some kind: how many were read, and the points of the last ones, which are not sent yet.
#[derive(Drop)]
struct Reader {
    kind: u32,
    lines: Lines,
    count: u64,
    batch: Batch,
}

/// What reading a line gave.
#[derive(Drop)]
enum Turn {
    /// A point that the message took.
    More,
    /// A point that begins another message; the previous one is full.
    Full(Batch),
    /// There is no further line.
    NoMore,
}

/// What `load` waits for.
#[derive(Clone, Copy, Drop)]
enum LoadStage {
    /// The session to be open.
    Opening,
    /// The channel to be open.
    Asked,
    /// Nothing: it reads.
    Reading,
    /// Nothing: the last points were sent, and a Ping is to follow.
    Read,
    /// The Pong after all points.
    Loaded,
}

/// `load`, with what it loads into, and how far it has read.
#[derive(Drop)]
pub(crate) struct Load {
    uri: StoreUri,
    stage: LoadStage,
    reader: Reader,
}

impl Reader {
    /// Before the first line, for no channel yet.
    fn new(alloc: Global) -> Reader
        ensures { IsFresh result }
    {
        Reader {
            kind: 0,
            lines: Lines::new(alloc),
            count: 0,
            batch: Batch::new(alloc, 0),
        }
    }

    /// The same for a channel of some kind.
    fn begin(&mut self, alloc: Global, channel: i64, kind: u32)
        ensures { (self.new.kind ≡ kind) × (self.new.batch.channel ≡ channel) × Holds self.new.batch [] × (self.new.lines ≡ self.old.lines) × (self.new.count ≡ self.old.count) }
    {
        self.kind = kind;
        self.batch = Batch::new(alloc, channel);
    }

    /// Reads lines until a message is full, and returns its points; `None` if the lines have ended.
    fn fill<R: Source>(&mut self, alloc: Global, from: &mut R) -> Result<Option<Batch>, Stop>
        ensures fills { (bytes : List ℕ) (f : Course → Course) → ReadsFor bytes (R.left from.old) self.old f
            → Fills result bytes (R.left from.new) (R.faults from.old) (R.faults from.new) self.new f }
        ensures kept { R.faults from.old ≤ R.faults from.new }
        ensures why { IfErr result (λ e. GivesUp e (R.faults from.old) (R.faults from.new)) }
    {
        for _ in 0..u64::MAX {
            match self.read_line(alloc, from) {
                Ok(Turn::More) => {}
                Ok(Turn::Full(full)) => return Ok(Some(full)),
                Ok(Turn::NoMore) => return Ok(None),
                Err(stop) => return Err(stop),
            }
        }
        Err(Stop::Cut(Cause::Memory))
    }

    /// Reads a line, if there is one.
    fn read_line<R: Source>(&mut self, alloc: Global, from: &mut R) -> Result<Turn, Stop>
        ensures turns { (bytes : List ℕ) (f : Course → Course) → ReadsFor bytes (R.left from.old) self.old f
            → Turns result bytes (R.left from.new) (R.faults from.old) (R.faults from.new) self.new f }
        ensures kept { R.faults from.old ≤ R.faults from.new }
        ensures why { IfErr result (λ e. GivesUp e (R.faults from.old) (R.faults from.new)) }
    {
        match self.lines.advance(alloc, from) {
            Advance::Line => self.add_line(alloc),
            Advance::NoMore => Ok(Turn::NoMore),
            Advance::TooLong => Err(Stop::Over(Status::Limit)),
            Advance::Failed => Err(Stop::Cut(Cause::Input)),
            Advance::NoMemory => Err(Stop::Cut(Cause::Memory)),
        }
    }

    /// Adds the point of the current line.
    fn add_line(&mut self, alloc: Global) -> Result<Turn, Stop>
        ensures turns { (bytes : List ℕ) (left : Option (List ℕ)) (before after : ℕ) (f : Course → Course) → IsAtLine bytes left self.old f
            → Turns result bytes left before after self.new f }
        ensures why { (before after : ℕ) → IfErr result (λ e. GivesUp e before after) }
    {
        let Some(count) = self.count.checked_add(1) else {
            return Err(Stop::Cut(Cause::Memory));
        };
        match read_point(alloc, self.kind, count, self.lines.line()) {
            Ok(point) => {
                self.count = count;
                turned(self.batch.add(alloc, point))
            }
            Err(stop) => Err(stop),
        }
    }
}

impl Load {
    /// Before the session is open.
    pub(crate) fn new(alloc: Global, uri: StoreUri) -> Load
        ensures { (result.uri ≡ uri) × (result.stage ≡ LoadStage.Opening) × IsFresh result.reader }
    {
        Load {
            uri,
            stage: LoadStage::Opening,
            reader: Reader::new(alloc),
        }
    }

    /// Reads until a message is full, which is to be sent; after the last one a Ping is.
    fn read<R: Source>(&mut self, alloc: Global, from: &mut R) -> Result<Action, Stop>
        ensures plans { (seen : List Seen) (shown : ℤ → List ChangeMsg → List ℕ) (job : Job) (rest : Course → Course) (l : Line) (told : Option (List ℤ)) (o : Output)
            → IsLoading self.old.uri self.old.reader job (R.left from.old) rest
            → Plans result (OwesLoad self.new.uri self.new.stage self.new.reader job (R.left from.new)) (IsLoad self.new.uri self.new.stage self.new.reader job (R.left from.new)) (HasRead job (R.left from.new)) rest Asked
            (outside l told o (input (R.left from.old) (R.faults from.old))) (outside l told o (input (R.left from.new) (R.faults from.new))) }
        ensures kept { R.faults from.old ≤ R.faults from.new }
        ensures why { IfErr result (λ e. GivesUp e (R.faults from.old) (R.faults from.new)) }
    {
        match self.reader.fill(alloc, from) {
            Ok(Some(full)) => {
                self.stage = LoadStage::Reading;
                Ok(Action::Ask(full.into_ask()))
            }
            Ok(None) => Ok(self.send_last(alloc)),
            Err(stop) => Err(stop),
        }
    }

    /// To send the points that are left, or a Ping if none are.
    fn send_last(&mut self, alloc: Global) -> Action
        ensures same { (self.new.uri ≡ self.old.uri) × (self.new.reader.count ≡ self.old.reader.count) }
        ensures wants { (held : List Point) → Holds self.old.reader.batch held → WantsLast result self.new.stage self.old.reader.batch.channel held }
    {
        if self.reader.batch.is_empty() {
            self.stage = LoadStage::Loaded;
            return Action::Ask(Ask::Ping);
        }
        self.stage = LoadStage::Read;
        let channel = self.reader.batch.channel();
        let batch = mem::replace(&mut self.reader.batch, Batch::new(alloc, channel));
        Action::Ask(batch.into_ask())
    }
}

impl Job for Load {
    ghost owes = { λ s seen shown job left stage rest. OwesLoad s.uri s.stage s.reader job left stage rest };

    ghost stands = { λ s seen shown job left stage. IsLoad s.uri s.stage s.reader job left stage };

    fn is_opening(&self) -> bool {
        matches!(self.stage, LoadStage::Opening)
    }

    fn show(&self, _alloc: Global, _board: &Board, _into: &mut Vec<u8>) -> Result<(), NoMemory> {
        Ok(())
    }

    fn next<R: Source>(
        &mut self,
        alloc: Global,
        got: &Got,
        _board: &mut Board,
        from: &mut R,
    ) -> Result<Action, Stop> {
        match self.stage {
            LoadStage::Opening => match got {
                Got::Opened(_) => {
                    self.stage = LoadStage::Asked;
                    open_channel(alloc, &self.uri)
                }
                _ => Ok(Action::Wait),
            },
            LoadStage::Asked => match got {
                Got::Meta { channel, kind, .. } => {
                    self.reader.begin(alloc, *channel, *kind);
                    self.read(alloc, from)
                }
                _ => Ok(Action::Wait),
            },
            LoadStage::Loaded => match got {
                Got::Pong(_) => show_loaded(alloc, self.reader.count),
                _ => Ok(Action::Wait),
            },
            _ => Ok(Action::Wait),
        }
    }

    fn more<R: Source>(&mut self, alloc: Global, from: &mut R) -> Result<Action, Stop> {
        match self.stage {
            LoadStage::Reading => self.read(alloc, from),
            LoadStage::Read => {
                self.stage = LoadStage::Loaded;
                Ok(Action::Ask(Ask::Ping))
            }
            _ => Ok(Action::Wait),
        }
    }
}

/// The point of the line of this number, or why the command stops.
fn read_point(alloc: Global, kind: u32, number: u64, line: &[u8]) -> Result<Point, Stop>
    ensures { GivesPoint result kind number line.now }
{
    match point_in(alloc, kind, line) {
        Ok(Some(point)) => Ok(point),
        Ok(None) => Err(Stop::Over(Status::Input(number))),
        Err(_) => Err(Stop::Cut(Cause::Memory)),
    }
}

/// What adding a point gave.
fn turned(added: Result<Option<Batch>, NoMemory>) -> Result<Turn, Stop>
    ensures { result ≡ turned added }
{
    match added {
        Ok(Some(full)) => Ok(Turn::Full(full)),
        Ok(None) => Ok(Turn::More),
        Err(_) => Err(Stop::Cut(Cause::Memory)),
    }
}

/// To open the channel.
fn open_channel(alloc: Global, uri: &StoreUri) -> Result<Action, Stop>
    ensures { GivesAction result (action.Ask (asked.OpenChannel uri.now)) }
{
    match uri.copy(alloc) {
        Ok(uri) => Ok(Action::Ask(Ask::OpenChannel(uri))),
        Err(_) => Err(Stop::Cut(Cause::Memory)),
    }
}

/// To show how many lines were loaded.
fn show_loaded(alloc: Global, count: u64) -> Result<Action, Stop>
    ensures { GivesAction result (action.Report (loaded_line count)) }
{
    match loaded_line(alloc, count) {
        Ok(line) => Ok(Action::Report(line)),
        Err(_) => Err(Stop::Cut(Cause::Memory)),
    }
}

/// The line that says how many lines were loaded.
fn loaded_line(alloc: Global, count: u64) -> Result<Blob, NoMemory>
    ensures { IfOk result (λ line. line ≡ loaded_line count) }
{
    let text = format!(in alloc; "loaded {count}\n")?;
    Blob::from_vec(text.into_bytes())
}
