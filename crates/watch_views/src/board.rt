//! Boards.
ghost use Rattle.std.specs.Prelude.{◌≡◌, ◌++◌, ◌∷◌, [], filter, length, map, not, IfOk, OnErr, OnOk};
ghost use Rattle.std.specs.Ordering.{int_eq};
ghost use Rattle.avro_bin.specs.Plain.{Writes};
ghost use Rattle.watch_views.specs.Boards.{Feeds, FeedsOne, each, lines_at, lines_of, reading};

use crate::lines::whole_or_nothing;
use crate::view::View;
use channel_store::ChangeMsg;
use etp_values::NoMemory;
use std::alloc::Global;

/// A view, and the channel that it watches.
#[derive(Drop)]
pub struct Shelf {
    pub channel: i64,
    pub view: Box<dyn View>,
}

fn feed_one(alloc: Global, shelf: &mut Shelf, change: &ChangeMsg) -> Result<(), NoMemory>
    ensures { FeedsOne (reading (λ s. s.channel) (λ s. (⟦<dyn View as View>⟧ s.view.vtable).held s.view.value) (λ s. (⟦<dyn View as View>⟧ s.view.vtable).step s.view.value) (λ s. (⟦<dyn View as View>⟧ s.view.vtable).shown s.view.value)) change.now shelf.old shelf.new result }
{
    if shelf.channel != change.channel {
        return Ok(());
    }
    shelf.view.change(alloc, change)
}

fn feed_all(alloc: Global, shelves: &mut Vec<Shelf>, change: &ChangeMsg) -> Result<(), NoMemory>
    ensures { Feeds (reading (λ s. s.channel) (λ s. (⟦<dyn View as View>⟧ s.view.vtable).held s.view.value) (λ s. (⟦<dyn View as View>⟧ s.view.vtable).step s.view.value) (λ s. (⟦<dyn View as View>⟧ s.view.vtable).shown s.view.value)) change.now shelves.old.items shelves.new.items result }
{
    for i in 0..shelves.len() {
        if let Err(error) = feed_one(alloc, &mut shelves[i], change) {
            return Err(error);
        }
    }
    Ok(())
}

fn print_one(alloc: Global, shelf: &Shelf, into: &mut Vec<u8>) -> Result<(), NoMemory>
    ensures ok { OnOk result (into.new.items ≡ into.old.items ++ lines_at (reading (λ s. s.channel) (λ s. (⟦<dyn View as View>⟧ s.view.vtable).held s.view.value) (λ s. (⟦<dyn View as View>⟧ s.view.vtable).step s.view.value) (λ s. (⟦<dyn View as View>⟧ s.view.vtable).shown s.view.value)) shelf.now) }
    ensures err { OnErr result (into.new.items ≡ into.old.items) }
{
    shelf.view.lines(alloc, into)
}

#[tactic(auto, using(std::proofs::Transfers::starts_with_trans))]
fn print_all(alloc: Global, shelves: &[Shelf], into: &mut Vec<u8>) -> Result<(), NoMemory>
    ensures { Writes (lines_of (reading (λ s. s.channel) (λ s. (⟦<dyn View as View>⟧ s.view.vtable).held s.view.value) (λ s. (⟦<dyn View as View>⟧ s.view.vtable).step s.view.value) (λ s. (⟦<dyn View as View>⟧ s.view.vtable).shown s.view.value)) shelves.now) into.old.items into.new.items result }
{
    for shelf in shelves {
        print_one(alloc, shelf, into)?;
    }
    Ok(())
}

/// Drops the shelves of a channel, and counts them.
fn remove_all(shelves: &mut Vec<Shelf>, channel: i64) -> u64
    ensures kept { shelves.new.items ≡ filter (λ s. not (int_eq s.channel channel)) shelves.old.items }
    ensures count { result ≡ length (filter (λ s. int_eq s.channel channel) shelves.old.items) }
{
    let before = shelves.len();
    shelves.retain(
        |shelf: &Shelf| -> bool
            ensures { result ≡ not (int_eq shelf.now.channel channel) }
        { shelf.channel != channel },
    );
    (before - shelves.len()) as u64
}

/// Makes all shelves watch this channel.
fn watch_all(shelves: &mut Vec<Shelf>, channel: i64)
    ensures { shelves.new.items ≡ each shelves.old.items (λ s. record s { channel = channel }) }
{
    for i in 0..shelves.len() {
        shelves[i].channel = channel;
    }
}

/// Views on shelves, in the order in which they were added.
#[derive(Drop)]
pub struct Board {
    shelves: Vec<Shelf>,
}

impl Board {
    /// A board without views.
    pub fn new(alloc: Global) -> Board
        ensures { result.shelves.items ≡ [] }
    {
        Board {
            shelves: Vec::new(alloc),
        }
    }

    /// A board of these views, each of this channel. If allocation fails, the views are dropped.
    pub fn of(alloc: Global, channel: i64, views: Vec<Box<dyn View>>) -> Result<Board, NoMemory>
        ensures { IfOk result (λ b. b.shelves.items ≡ map (λ v. record { channel = channel; view = v }) views.items) }
    {
        let mut shelves = Vec::new(alloc);
        for view in views {
            shelves.push(Shelf { channel, view })?;
        }
        Ok(Board { shelves })
    }

    /// Adds a view of a channel. If allocation fails, the view is dropped and the board is unchanged.
    pub fn add(&mut self, channel: i64, view: Box<dyn View>) -> Result<(), NoMemory>
        ensures ok { OnOk result (self.new.shelves.items ≡ self.old.shelves.items ++ (record { channel = channel; view = view }) ∷ []) }
        ensures err { OnErr result (self.new.shelves.items ≡ self.old.shelves.items) }
    {
        self.shelves.push(Shelf { channel, view })?;
        Ok(())
    }

    /// Makes all views watch this channel.
    pub fn watch(&mut self, channel: i64)
        ensures { self.new.shelves.items ≡ each self.old.shelves.items (λ s. record s { channel = channel }) }
    {
        watch_all(&mut self.shelves, channel);
    }

    /// Each view of the change's channel takes the change in. If memory runs out for one of them, those that were added before it have
    /// taken the change in, and the others have not.
    pub fn feed(&mut self, alloc: Global, change: &ChangeMsg) -> Result<(), NoMemory>
        ensures { Feeds (reading (λ s. s.channel) (λ s. (⟦<dyn View as View>⟧ s.view.vtable).held s.view.value) (λ s. (⟦<dyn View as View>⟧ s.view.vtable).step s.view.value) (λ s. (⟦<dyn View as View>⟧ s.view.vtable).shown s.view.value)) change.now self.old.shelves.items self.new.shelves.items result }
    {
        feed_all(alloc, &mut self.shelves, change)
    }

    /// Drops the views of a channel, and counts them.
    pub fn remove(&mut self, channel: i64) -> u64
        ensures kept { self.new.shelves.items ≡ filter (λ s. not (int_eq s.channel channel)) self.old.shelves.items }
        ensures count { result ≡ length (filter (λ s. int_eq s.channel channel) self.old.shelves.items) }
    {
        remove_all(&mut self.shelves, channel)
    }

    /// Appends the lines of all views. If memory runs out, nothing is appended.
    #[tactic(auto, using(crate::proofs::TextLemmas::whole_ok, crate::proofs::TextLemmas::whole_err))]
    pub fn print(&self, alloc: Global, into: &mut Vec<u8>) -> Result<(), NoMemory>
        ensures ok { OnOk result (into.new.items ≡ into.old.items ++ lines_of (reading (λ s. s.channel) (λ s. (⟦<dyn View as View>⟧ s.view.vtable).held s.view.value) (λ s. (⟦<dyn View as View>⟧ s.view.vtable).step s.view.value) (λ s. (⟦<dyn View as View>⟧ s.view.vtable).shown s.view.value)) self.now.shelves.items) }
        ensures err { OnErr result (into.new.items ≡ into.old.items) }
    {
        let len = into.len();
        let printed = print_all(alloc, self.shelves.as_slice(), into);
        whole_or_nothing(into, len, printed)
    }
}
