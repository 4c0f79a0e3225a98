//! The report of a journal: how many entries it has, and how many each session wrote.
ghost use Rattle.std.specs.Prelude.{◌≡◌, ◌≤◌, ◌<◌, ◌+◌, ◌-◌, ◌^◌, ◌++◌, ◌==◌, [], ℕ, List, if◌then◌else◌, length, min, replicate, slice_index, IfOk, OnOk};
ghost use Rattle.std.specs.declared.option.Option.{Option};
ghost use Rattle.etp_outside.specs.Faults.{Rose};
ghost use Rattle.gathered_text.specs.Writing.{Going, GoesOn, Writes};
ghost use Rattle.store_machine.specs.Laws.{is_enter};
ghost use Rattle.server_forms.specs.Counts.{Counts};
ghost use Rattle.server_forms.specs.Report.{entries_line, line_at, line_if, lines_from, report, session_line};

use etp_outside::Sink;
use etp_values::NoMemory;
use gathered_text::{Wrote, finish, pass_on};
use std::alloc::Global;
use store_machine::{Act, Store};

/// Counts one more entry under a place.
fn count_one(counts: &mut [u64], by: u64)
    ensures long { length counts.new ≡ length counts.old }
    ensures each { (place : ℕ) → place < length counts.old → slice_index counts.new place
        ≡ (if by == place then min (slice_index counts.old place + 1) (2 ^ 64 - 1) else slice_index counts.old place) }
{
    let place = by as usize;
    if place < counts.len() {
        counts[place] = counts[place].saturating_add(1);
    }
}

/// This many zeros.
fn zeros(alloc: Global, count: u64) -> Result<Vec<u64>, NoMemory>
    ensures { IfOk result (λ zeros. zeros.items ≡ replicate count 0) }
{
    let mut zeros: Vec<u64> = Vec::new(alloc);
    zeros.resize(count as usize, 0)?;
    Ok(zeros)
}

/// How many entries are under each place.
fn counts(alloc: Global, store: &Store) -> Result<Vec<u64>, NoMemory>
    ensures { IfOk result (λ counts. Counts store.now.journal counts.items) }
{
    let entries = store.entries();
    let mut counts = zeros(alloc, entries)?;
    for place in 0..entries {
        count_one(counts.as_mut_slice(), store.entry(place).by);
    }
    Ok(counts)
}

/// Whether an act lets a session in.
fn is_enter(act: &Act) -> bool
    ensures { result ≡ is_enter act.now }
{
    matches!(act, Act::Enter)
}

/// Appends the first line.
fn push_entries(alloc: Global, entries: u64, text: &mut Vec<u8>) -> Result<(), NoMemory>
    ensures { OnOk result (text.new.items ≡ text.old.items ++ entries_line entries) }
{
    let line = format!(in alloc; "entries {entries}\n")?;
    text.extend_from_slice(line.as_bytes())?;
    Ok(())
}

/// Appends the line of a session with this many entries, of which the first let it in.
fn push_session(
    alloc: Global,
    number: u64,
    entries: u64,
    text: &mut Vec<u8>,
) -> Result<(), NoMemory>
    ensures { OnOk result (text.new.items ≡ text.old.items ++ session_line number entries) }
{
    let writes = entries.saturating_sub(1);
    let line = format!(in alloc; "session {number} writes {writes}\n")?;
    text.extend_from_slice(line.as_bytes())?;
    Ok(())
}

/// Appends the line of an entry that lets a session in.
fn push_line(
    alloc: Global,
    act: &Act,
    number: u64,
    entries: u64,
    text: &mut Vec<u8>,
) -> Result<(), NoMemory>
    ensures { OnOk result (text.new.items ≡ text.old.items ++ line_if (is_enter act.now) number entries) }
{
    if is_enter(act) {
        push_session(alloc, number, entries, text)
    } else {
        Ok(())
    }
}

/// How many entries are under a place.
fn count_at(counts: &[u64], place: u64) -> u64
    requires { place < length counts.now }
    ensures { result ≡ slice_index counts.now place }
{
    counts[place as usize]
}

/// Appends the line of the entry at a place, if it lets a session in, and writes what was gathered, once there is enough.
fn write_line<W: Sink>(
    alloc: Global,
    store: &Store,
    counts: &[u64],
    place: u64,
    text: &mut Vec<u8>,
    out: &mut W,
) -> Wrote
    requires place { place < length store.now.journal }
    requires counts { Counts store.now.journal counts.now }
    ensures goes { (whole rest : List ℕ) (before : Option (List ℕ))
        → Going whole text.old.items (line_at store.now.journal place ++ rest) before (W.held out.old)
        → GoesOn result whole text.new.items rest before (W.held out.new) }
    ensures kept { W.faults out.old ≤ W.faults out.new }
    ensures cause { result ≡ Wrote.WriteFault → Rose (W.faults out.old) (W.faults out.new) }
{
    let entry = store.entry(place);
    let own = count_at(counts, place);
    match push_line(alloc, &entry.act, place, own, text) {
        Ok(()) => pass_on(text, out),
        Err(_) => Wrote::NoMemory,
    }
}

/// Appends the lines of all entries that let a session in, and writes what was gathered whenever there is enough.
fn write_lines<W: Sink>(
    alloc: Global,
    store: &Store,
    counts: &[u64],
    text: &mut Vec<u8>,
    out: &mut W,
) -> Wrote
    requires counts { Counts store.now.journal counts.now }
    ensures goes { (whole : List ℕ) (before : Option (List ℕ))
        → Going whole text.old.items (lines_from store.now.journal 0 store.now.journal) before (W.held out.old)
        → GoesOn result whole text.new.items [] before (W.held out.new) }
    ensures kept { W.faults out.old ≤ W.faults out.new }
    ensures cause { result ≡ Wrote.WriteFault → Rose (W.faults out.old) (W.faults out.new) }
{
    for place in 0..store.entries() {
        match write_line(alloc, store, counts, place, text, out) {
            Wrote::Whole => {}
            Wrote::WriteFault => return Wrote::WriteFault,
            Wrote::NoMemory => return Wrote::NoMemory,
        }
    }
    Wrote::Whole
}

/// The first line.
fn head(alloc: Global, entries: u64) -> Result<Vec<u8>, NoMemory>
    ensures { IfOk result (λ text. text.items ≡ entries_line entries) }
{
    let mut text: Vec<u8> = Vec::new(alloc);
    push_entries(alloc, entries, &mut text)?;
    Ok(text)
}

/// Writes the report of a store's journal, with how many entries are under each place.
fn write_counted<W: Sink>(alloc: Global, store: &Store, counts: &[u64], out: &mut W) -> Wrote
    requires counts { Counts store.now.journal counts.now }
    ensures written { Writes result (report store.now.journal) (W.held out.old) (W.held out.new) }
    ensures kept { W.faults out.old ≤ W.faults out.new }
    ensures cause { result ≡ Wrote.WriteFault → Rose (W.faults out.old) (W.faults out.new) }
{
    let Ok(mut text) = head(alloc, store.entries()) else {
        return Wrote::NoMemory;
    };
    match write_lines(alloc, store, counts, &mut text, out) {
        Wrote::Whole => finish(text.as_slice(), out),
        Wrote::WriteFault => Wrote::WriteFault,
        Wrote::NoMemory => Wrote::NoMemory,
    }
}

/// Writes the report of a store's journal.
pub(crate) fn write_report<W: Sink>(alloc: Global, store: &Store, out: &mut W) -> Wrote
    ensures written { Writes result (report store.now.journal) (W.held out.old) (W.held out.new) }
    ensures kept { W.faults out.old ≤ W.faults out.new }
    ensures cause { result ≡ Wrote.WriteFault → Rose (W.faults out.old) (W.faults out.new) }
{
    match counts(alloc, store) {
        Ok(counts) => write_counted(alloc, store, counts.as_slice(), out),
        Err(_) => Wrote::NoMemory,
    }
}
