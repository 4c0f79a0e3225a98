//! A list that grows by blocks.
ghost use Rattle.std.specs.Prelude.{◌≡◌, ◌<◌, ◌≤◌, ◌==◌, ◌-◌, ◌*◌, [], ◌∷◌, ◌++◌, length, slice_get, OnOk};
ghost use Rattle.std.specs.Option.{option_copied};
ghost use Rattle.std.specs.Vec.{vec_len};
ghost use Rattle.channel_points.specs.Blocks.{AreBlocks, joined};

use etp_values::{List, NoMemory};
use std::alloc::Global;
use std::marker::Model;
use std::mem;

/// How many items a full block has.
const BLOCK: usize = 1024;

/// A list in blocks: no push moves more than the items of one. A contract sees the items, and how many more there is room for.
#[derive(Debug)]
pub struct Rows<T> {
    full: Vec<List<T>>,
    last: Vec<T>,
    count: usize,
}

/// Written out, so that whatever holds one drops it by a single call.
impl<T: Drop> Drop for Rows<T> {
    fn drop(self) {
        let Rows {
            full,
            last,
            count: _,
        } = self;
        drop(full);
        drop(last);
    }
}

impl<T> Model for Rows<T> {
    ghost use Rattle.channel_points.specs.Rows.{Seen, seen_code};

    ghost Value = { Seen T };

    ghost coded = { seen_code T.code };

    ghost use Rattle.std.specs.Vec.{vec_len, vec_capacity};
    ghost use Rattle.channel_points.specs.Blocks.{joined, room_of, IsRows};

    ghost view = { λ r. record { items = joined r.full.items r.last.items; room = room_of (vec_len r.last) (vec_capacity r.last) r.count } };

    ghost invariant = { λ r. IsRows r.full.items r.last.items r.count };
}

/// If the last block is full, it joins the full ones, and an empty one takes its place.
fn turn<T: Drop>(full: &mut Vec<List<T>>, last: &mut Vec<T>) -> Result<(), NoMemory>
    requires { AreBlocks full.old.items last.old.items }
    ensures blocks { AreBlocks full.new.items last.new.items }
    ensures items { joined full.new.items last.new.items ≡ joined full.old.items last.old.items }
    ensures ok { OnOk result (vec_len last.new < 1024) }
{
    if last.len() < BLOCK {
        return Ok(());
    }
    full.reserve(1)?;
    let empty = Vec::new(*last.allocator());
    let block = mem::replace(last, empty);
    full.push_reserved(List::from_vec(block));
    Ok(())
}

fn item_at<T>(items: &[T], place: usize) -> Option<&T>
    ensures { option_copied result ≡ slice_get items.now place }
{
    items.get(place)
}

/// How far a place is past this many full blocks.
fn behind(place: usize, blocks: usize) -> usize
    requires { blocks * 1024 ≤ place }
    ensures { result ≡ place - blocks * 1024 }
{
    place - blocks * BLOCK
}

impl<T> Rows<T> {
    /// No items.
    pub fn new(alloc: Global) -> Rows<T>
        ensures { result.items ≡ [] }
    {
        Rows {
            full: Vec::new(alloc),
            last: Vec::new(alloc),
            count: 0,
        }
    }

    /// How many items there are.
    pub fn len(&self) -> usize
        ensures { result ≡ length self.now.items }
    {
        self.count
    }

    /// Whether there are no items.
    pub fn is_empty(&self) -> bool
        ensures { result ≡ length self.now.items == 0 }
    {
        self.count == 0
    }

    /// The item at a place.
    pub fn get(&self, place: usize) -> Option<&T>
        ensures { option_copied result ≡ slice_get self.now.items place }
    {
        match item_at(self.full.as_slice(), place / BLOCK) {
            Some(block) => item_at(block.as_slice(), place % BLOCK),
            None => item_at(self.last.as_slice(), behind(place, self.full.len())),
        }
    }
}

impl<T: Drop> Rows<T> {
    /// Makes room for one more item.
    pub fn reserve(&mut self) -> Result<(), NoMemory>
        ensures ok { OnOk result (0 < self.new.room) }
        ensures items { self.new.items ≡ self.old.items }
    {
        if self.count == usize::MAX {
            return Err(NoMemory);
        }
        turn(&mut self.full, &mut self.last)?;
        self.last.reserve(1)?;
        Ok(())
    }

    /// Adds an item for which there is room.
    pub fn push_reserved(&mut self, item: T)
        requires { 0 < self.old.room }
        ensures { self.new.items ≡ self.old.items ++ item ∷ [] }
    {
        self.last.push_reserved(item);
        self.count += 1;
    }
}
