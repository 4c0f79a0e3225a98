//! Lists, maps, optional and boxed values from and to bytes.
ghost use Rattle.std.specs.Prelude.{◌≡◌, ◌++◌, ◌∷◌, [], ◌<◌, ◌^◌, IfOk, IfSome, Ok, OnOk, length, map, pos, suc};
ghost use Rattle.std.specs.Cmp.Lexicographic.{slice_cmp};
ghost use Rattle.std.specs.List.{AllByRecursion};
ghost use Rattle.std.specs.List.Sorted.{IsPermutation, IsStrictlySortedBy};
ghost use Rattle.std.specs.Map.{keys_of};
ghost use Rattle.std.specs.Ordering.{nat_cmp};
ghost use Rattle.etp_values.specs.Entries.{on_value};
ghost use Rattle.avro_bin.specs.Number.{plain_number};
ghost use Rattle.avro_bin.specs.Plain.{plain, plain_all, plain_named, plain_blob, Writes};
ghost use Rattle.avro_bin.specs.Reading.{items_at, block_at, blocks_at};
ghost use Rattle.avro_bin.specs.Along.{push_at, put_at};
ghost use Rattle.avro_bin.specs.Shape.{FitsTree, IsText, AllFit, AllNamedFit};
ghost use Rattle.avro_bin.specs.Value.{VUnion, row, entries};
ghost use Rattle.etp_schema.specs.Form.{Holds, list_form, list_at, named_at};
ghost use Rattle.etp_schema.specs.Measure.{counts, measured_behind, measured_named};
ghost use Rattle.etp_schema.specs.Reading.{Reads, ReadsOn, pair_at};

use crate::few::Few;
use crate::measure::Measure;
use crate::on_wire::OnWire;
use crate::reader::Reader;
use avro_bin::blocks::is_filled;
use avro_bin::numbers::put_number;
use avro_bin::{Fault, Why, put_text};
use etp_values::{Boxed, List, Named, NoMemory, Shared, Text};
use std::alloc::Global;
use std::collections::BTreeMap;

/// How many items get room before they are read: a count alone allocates no more than this.
const ROOM: u64 = 4096;

impl<T: OnWire> OnWire for List<T> {
    fn read(from: &mut Reader<'_>) -> Result<List<T>, Fault> {
        from.node()?;
        read_list(from)
    }

    fn write(&self, into: &mut Vec<u8>) -> Result<(), NoMemory> {
        write_list(self.as_slice(), into)
    }

    fn measure(&self) -> Measure {
        measure_items(self.as_slice())
    }
}

impl<T: OnWire> OnWire for Few<T> {
    fn read(from: &mut Reader<'_>) -> Result<Few<T>, Fault> {
        from.node()?;
        read_few(from)
    }

    fn write(&self, into: &mut Vec<u8>) -> Result<(), NoMemory> {
        write_list(self.as_slice(), into)
    }

    fn measure(&self) -> Measure {
        measure_items(self.as_slice())
    }
}

/// The items of blocks, up to a count of 0; a single item is the usual case.
fn read_few<T: OnWire>(from: &mut Reader<'_>) -> Result<Few<T>, Fault>
    ensures { Reads (list_at T.form from.old.left from.old.rest.now) result from.new }
{
    let mut ahead = from.again();
    if let Some(item) = read_single(&mut ahead) {
        from.go_on(&ahead);
        return Ok(Few::one(item));
    }
    let items = read_list(from)?;
    Ok(Few::of_list(items))
}

/// The item of a list that is spelled as one block of one item and the end; `None` for any other list.
fn read_single<T: OnWire>(from: &mut Reader<'_>) -> Option<T>
    ensures { IfSome result (λ x. list_at T.form from.old.left from.old.rest.now ≡ Ok ((x ∷ [], from.new.left), from.new.rest.now)) }
{
    if from.rest().is_empty() || !from.passes(1) {
        return None;
    }
    let Ok(item) = T::read(from) else {
        return None;
    };
    if from.passes(0) { Some(item) } else { None }
}

/// The items of blocks, up to a count of 0.
fn read_list<T: OnWire>(from: &mut Reader<'_>) -> Result<List<T>, Fault>
    ensures { Reads (list_at T.form from.old.left from.old.rest.now) result from.new }
{
    let bytes = from.rest();
    let mut items = Vec::new(from.alloc());
    for _ in 0..bytes.len() + 1 {
        let count = from.long()?;
        if count == 0 {
            return Ok(List::from_vec(items));
        }
        read_block(from, count, &mut items)?;
    }
    // Unreachable: each block takes a byte.
    Err(Fault::At(Why::Limit, from.rest().len()))
}

/// The items of a block whose count is read, after those already read.
fn read_block<T: OnWire>(from: &mut Reader<'_>, count: i64, items: &mut Vec<T>) -> Result<(), Fault>
    ensures { ReadsOn (block_at (push_at T.form.at) (items.old.items, from.old.left) count from.old.rest.now) (items.new.items, from.new.left) from.new result }
{
    if count >= 0 {
        return read_items(from, count as u64, items);
    }
    let start = from.rest().len();
    let size = from.long()?;
    if size < 0 {
        return Err(Fault::At(Why::Length, start));
    }
    let before = from.rest().len();
    read_items(from, count.unsigned_abs(), items)?;
    if !is_filled(before, size as u64, from.rest().len()) {
        return Err(Fault::At(Why::BlockSize, start));
    }
    Ok(())
}

/// Makes room for the items of a block. Those of the first one get no more than they need: a list of one item is the usual one. Each later
/// block at least doubles the room, so that a list of many blocks is not moved at each of them.
fn make_room<T>(items: &mut Vec<T>, room: usize) -> Result<(), NoMemory>
    ensures { items.new.items ≡ items.old.items }
{
    if items.is_empty() {
        items.reserve_exact(room)?;
        return Ok(());
    }
    items.reserve(room)?;
    Ok(())
}

/// `count` items, after those already read.
fn read_items<T: OnWire>(from: &mut Reader<'_>, count: u64, items: &mut Vec<T>) -> Result<(), Fault>
    ensures { ReadsOn (items_at (push_at T.form.at) count (items.old.items, from.old.left) from.old.rest.now) (items.new.items, from.new.left) from.new result }
{
    let room = count.min(ROOM) as usize;
    make_room(items, room.min(from.rest().len()))?;
    for _ in 0..count {
        let item = T::read(from)?;
        items.push(item)?;
    }
    Ok(())
}

/// Appends one block of items, or none, and a count of 0.
fn write_list<T: OnWire>(items: &[T], into: &mut Vec<u8>) -> Result<(), NoMemory>
    ensures written { Writes (plain ((list_form T.form).as_value items.now)) into.old.items into.new.items result }
    ensures typed { OnOk result (Holds (list_form T.form) items.now) }
    ensures fits { OnOk result (FitsTree ((list_form T.form).as_value items.now)) }
{
    let count = items.len();
    if count == 0 {
        return put_count(into, 0);
    }
    put_count(into, count)?;
    write_items(items, into)?;
    put_number(into, 0)?;
    Ok(())
}

/// Appends the count of a block. A count of more than 63 bits answers `NoMemory`: no list of that many trees could exist.
fn put_count(into: &mut Vec<u8>, count: usize) -> Result<(), NoMemory>
    ensures written { Writes (plain_number (pos count)) into.old.items into.new.items result }
    ensures small { OnOk result (count < 2 ^ 63) }
{
    if count > i64::MAX as usize {
        return Err(NoMemory);
    }
    put_number(into, count as i64)
}

fn write_items<T: OnWire>(items: &[T], into: &mut Vec<u8>) -> Result<(), NoMemory>
    ensures written { Writes (plain_all (row (map T.form.as_value items.now))) into.old.items into.new.items result }
    ensures typed { OnOk result (AllByRecursion (Holds T.form) items.now) }
    ensures fits { OnOk result (AllFit (row (map T.form.as_value items.now))) }
{
    for item in items {
        item.write(into)?;
    }
    Ok(())
}

fn measure_items<T: OnWire>(items: &[T]) -> Measure
    ensures { result ≡ measured_behind (counts (length items.now)) (row (map T.form.as_value items.now)) }
{
    let mut measure = Measure::of_count(items.len());
    for item in items {
        measure = measure.with(item);
    }
    measure
}

impl<T: OnWire> OnWire for Named<T> {
    fn read(from: &mut Reader<'_>) -> Result<Named<T>, Fault> {
        from.node()?;
        read_named(from)
    }

    fn write(&self, into: &mut Vec<u8>) -> Result<(), NoMemory> {
        let count = self.len();
        if count == 0 {
            return put_count(into, 0);
        }
        put_count(into, count)?;
        write_entries(self, into)?;
        put_number(into, 0)?;
        Ok(())
    }

    fn measure(&self) -> Measure {
        measure_entries(self)
    }
}

/// The entries of blocks, up to a count of 0.
fn read_named<T: OnWire>(from: &mut Reader<'_>) -> Result<Named<T>, Fault>
    ensures { Reads (named_at T.form from.old.left from.old.rest.now) result from.new }
{
    let mut ahead = from.again();
    if let Some(named) = read_at_once(&mut ahead) {
        from.go_on(&ahead);
        return Ok(named);
    }
    read_in_turn(from)
}

/// The same, with the names put in order once all are read, which takes a fraction of the time. `None` if anything is wrong, and then the
/// position of the reader is unspecified.
fn read_at_once<T: OnWire>(from: &mut Reader<'_>) -> Option<Named<T>>
    ensures { IfSome result (λ named. named_at T.form from.old.left from.old.rest.now ≡ Ok ((named, from.new.left), from.new.rest.now)) }
{
    let mut pairs = Vec::new(from.alloc());
    let Ok(()) = read_pairs(from, &mut pairs) else {
        return None;
    };
    let Some(named) = by_name(pairs) else {
        return None;
    };
    Some(named)
}

/// The pairs in the order of their names. `None` if a name occurs twice, or memory runs out.
fn by_name<T: OnWire>(pairs: Vec<(Text, T)>) -> Option<Named<T>>
    ensures moved { IfSome result (λ named. IsPermutation pairs.items named) }
    ensures sorted { IfSome result (λ named. IsStrictlySortedBy (slice_cmp nat_cmp) (keys_of named)) }
{
    let Ok(ordered) = Named::from_pairs(pairs) else {
        return None;
    };
    let Some(named) = ordered else {
        return None;
    };
    let items = named.into_vec();
    Some(Named::from_sorted(items))
}

/// The names and values of blocks, up to a count of 0, after those already read. A name may occur twice.
fn read_pairs<T: OnWire>(from: &mut Reader<'_>, pairs: &mut Vec<(Text, T)>) -> Result<(), Fault>
    ensures { ReadsOn (blocks_at (push_at (pair_at T.form.at)) (suc (length from.old.rest.now)) (pairs.old.items, from.old.left) from.old.rest.now) (pairs.new.items, from.new.left) from.new result }
{
    let bytes = from.rest();
    for _ in 0..bytes.len() + 1 {
        let count = from.long()?;
        if count == 0 {
            return Ok(());
        }
        read_pair_block(from, count, pairs)?;
    }
    // Unreachable: each block takes a byte.
    Err(Fault::At(Why::Limit, from.rest().len()))
}

/// The names and values of a block whose count is read, after those already read.
fn read_pair_block<T: OnWire>(
    from: &mut Reader<'_>,
    count: i64,
    pairs: &mut Vec<(Text, T)>,
) -> Result<(), Fault>
    ensures { ReadsOn (block_at (push_at (pair_at T.form.at)) (pairs.old.items, from.old.left) count from.old.rest.now) (pairs.new.items, from.new.left) from.new result }
{
    if count >= 0 {
        return read_some_pairs(from, count as u64, pairs);
    }
    let start = from.rest().len();
    let size = from.long()?;
    if size < 0 {
        return Err(Fault::At(Why::Length, start));
    }
    let before = from.rest().len();
    read_some_pairs(from, count.unsigned_abs(), pairs)?;
    if !is_filled(before, size as u64, from.rest().len()) {
        return Err(Fault::At(Why::BlockSize, start));
    }
    Ok(())
}

/// `count` names and values, after those already read.
fn read_some_pairs<T: OnWire>(
    from: &mut Reader<'_>,
    count: u64,
    pairs: &mut Vec<(Text, T)>,
) -> Result<(), Fault>
    ensures { ReadsOn (items_at (push_at (pair_at T.form.at)) count (pairs.old.items, from.old.left) from.old.rest.now) (pairs.new.items, from.new.left) from.new result }
{
    let room = count.min(ROOM) as usize;
    make_room(pairs, room.min(from.rest().len()))?;
    for _ in 0..count {
        read_pair(from, pairs)?;
    }
    Ok(())
}

/// One name and its value, after those already read.
fn read_pair<T: OnWire>(from: &mut Reader<'_>, pairs: &mut Vec<(Text, T)>) -> Result<(), Fault>
    ensures { ReadsOn (push_at (pair_at T.form.at) (pairs.old.items, from.old.left) from.old.rest.now) (pairs.new.items, from.new.left) from.new result }
{
    let name = from.text()?;
    let value = T::read(from)?;
    pairs.push((name, value))?;
    Ok(())
}

/// The entries of blocks, up to a count of 0, each put in its place before the next is read: so the first fault is the one that is found.
fn read_in_turn<T: OnWire>(from: &mut Reader<'_>) -> Result<Named<T>, Fault>
    ensures { Reads (named_at T.form from.old.left from.old.rest.now) result from.new }
{
    let bytes = from.rest();
    let mut held = BTreeMap::new(from.alloc());
    for _ in 0..bytes.len() + 1 {
        let count = from.long()?;
        if count == 0 {
            let named = in_order(from.alloc(), held)?;
            return Ok(named);
        }
        read_entry_block(from, count, &mut held)?;
    }
    // Unreachable: each block takes a byte.
    Err(Fault::At(Why::Limit, from.rest().len()))
}

/// The entries of a block whose count is read, added to those already read.
fn read_entry_block<T: OnWire>(
    from: &mut Reader<'_>,
    count: i64,
    held: &mut BTreeMap<Text, T>,
) -> Result<(), Fault>
    ensures { ReadsOn (block_at (put_at T.form.at) (held.old.entries, from.old.left) count from.old.rest.now) (held.new.entries, from.new.left) from.new result }
{
    if count >= 0 {
        return read_entries(from, count as u64, held);
    }
    let start = from.rest().len();
    let size = from.long()?;
    if size < 0 {
        return Err(Fault::At(Why::Length, start));
    }
    let before = from.rest().len();
    read_entries(from, count.unsigned_abs(), held)?;
    if !is_filled(before, size as u64, from.rest().len()) {
        return Err(Fault::At(Why::BlockSize, start));
    }
    Ok(())
}

/// `count` entries, added to those already read.
fn read_entries<T: OnWire>(
    from: &mut Reader<'_>,
    count: u64,
    held: &mut BTreeMap<Text, T>,
) -> Result<(), Fault>
    ensures { ReadsOn (items_at (put_at T.form.at) count (held.old.entries, from.old.left) from.old.rest.now) (held.new.entries, from.new.left) from.new result }
{
    for _ in 0..count {
        read_entry(from, held)?;
    }
    Ok(())
}

/// One entry: a name that has not occurred yet, and its value.
fn read_entry<T: OnWire>(from: &mut Reader<'_>, held: &mut BTreeMap<Text, T>) -> Result<(), Fault>
    ensures { ReadsOn (put_at T.form.at (held.old.entries, from.old.left) from.old.rest.now) (held.new.entries, from.new.left) from.new result }
{
    let start = from.rest().len();
    let name = from.text()?;
    if held.contains_key(&name) {
        return Err(Fault::At(Why::DoubleKey, start));
    }
    let value = T::read(from)?;
    held.insert(name, value)?;
    Ok(())
}

/// The entries in the byte order of their names.
fn in_order<T: Drop>(alloc: Global, held: BTreeMap<Text, T>) -> Result<Named<T>, NoMemory>
    ensures { IfOk result (λ r. r ≡ held.entries) }
{
    let mut items = Vec::new(alloc);
    items.reserve(held.len())?;
    for pair in held {
        items.push(pair)?;
    }
    Ok(Named::from_sorted(items))
}

fn write_entry<T: OnWire>(name: &Text, value: &T, into: &mut Vec<u8>) -> Result<(), NoMemory>
    ensures written { Writes (plain_blob name.now ++ plain (T.form.as_value value.now)) into.old.items into.new.items result }
    ensures text { IsText name.now }
    ensures typed { OnOk result (Holds T.form value.now) }
    ensures fits { OnOk result (FitsTree (T.form.as_value value.now)) }
{
    put_text(into, name)?;
    value.write(into)?;
    Ok(())
}

fn write_entries<T: OnWire>(named: &Named<T>, into: &mut Vec<u8>) -> Result<(), NoMemory>
    ensures written { Writes (plain_named (entries (map (on_value T.form.as_value) named.now))) into.old.items into.new.items result }
    ensures typed { OnOk result (AllByRecursion (λ e. Holds T.form e.1) named.now) }
    ensures fits { OnOk result (AllNamedFit (entries (map (on_value T.form.as_value) named.now))) }
{
    for i in 0..named.len() {
        let (name, value) = named.at(i);
        write_entry(name, value, into)?;
    }
    Ok(())
}

fn measure_entries<T: OnWire>(named: &Named<T>) -> Measure
    ensures { result ≡ measured_named (counts (length named.now)) (entries (map (on_value T.form.as_value) named.now)) }
{
    let mut measure = Measure::of_count(named.len());
    for i in 0..named.len() {
        let (name, value) = named.at(i);
        measure = measure.plus(Measure::of_name(name.as_bytes())).with(value);
    }
    measure
}

impl<T: OnWire> OnWire for Option<T> {
    fn read(from: &mut Reader<'_>) -> Result<Option<T>, Fault> {
        from.node()?;
        let place = from.place(2)?;
        if place == 0 {
            from.node()?;
            return Ok(None);
        }
        let value = T::read(from)?;
        Ok(Some(value))
    }

    fn write(&self, into: &mut Vec<u8>) -> Result<(), NoMemory> {
        match self {
            None => put_number(into, 0),
            Some(value) => write_some(value, into),
        }
    }

    fn measure(&self) -> Measure {
        match self {
            None => Measure::of_number(0).plus(Measure::of_bytes(0)),
            Some(value) => Measure::of_number(1).with(value),
        }
    }
}

fn write_some<T: OnWire>(value: &T, into: &mut Vec<u8>) -> Result<(), NoMemory>
    ensures written { Writes (plain (VUnion 1 (T.form.as_value value.now))) into.old.items into.new.items result }
    ensures typed { OnOk result (Holds T.form value.now) }
    ensures fits { OnOk result (FitsTree (T.form.as_value value.now)) }
{
    put_number(into, 1)?;
    value.write(into)?;
    Ok(())
}

impl<T: OnWire> OnWire for Boxed<T> {
    fn read(from: &mut Reader<'_>) -> Result<Boxed<T>, Fault> {
        let value = T::read(from)?;
        let boxed = Boxed::new(from.alloc(), value)?;
        Ok(boxed)
    }

    fn write(&self, into: &mut Vec<u8>) -> Result<(), NoMemory> {
        self.get().write(into)
    }

    fn measure(&self) -> Measure {
        self.get().measure()
    }
}

impl<T: OnWire> OnWire for Shared<T> {
    fn read(from: &mut Reader<'_>) -> Result<Shared<T>, Fault> {
        let value = T::read(from)?;
        let shared = Shared::new(from.alloc(), value)?;
        Ok(shared)
    }

    fn write(&self, into: &mut Vec<u8>) -> Result<(), NoMemory> {
        self.get().write(into)
    }

    fn measure(&self) -> Measure {
        self.get().measure()
    }
}
