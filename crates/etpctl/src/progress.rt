//! What is reported while a command runs for long.
ghost use Rattle.std.specs.Prelude.{◌≡◌, ◌+◌, ◌++◌, ◌==◌, ℕ, List, true};
ghost use Rattle.std.specs.declared.option.Option.{Option};
ghost use Rattle.etp_values.specs.Weight.{capped};
ghost use Rattle.etpctl.specs.Progress.{IsWritten, Tells, counted_text, progress_line};

use etp_outside::{Sink, Written, write_all};
use itoa::Buffer;
use std::time;

/// What is counted.
#[derive(Clone, Copy, Debug, PartialEq, Eq)]
pub(crate) enum Counted {
    /// Points, each a line that was read.
    Points,
    /// Changes that the views of a channel took in.
    Changes,
}

/// How many there were so far. A line reports it if standard error is a terminal, at most once in each second of the clock.
#[derive(Drop)]
pub(crate) struct Progress<T: time::Clock, W: Sink> {
    counted: Counted,
    count: u64,
    is_shown: bool,
    second: u64,
    clock: T,
    errors: W,
}

impl<T: time::Clock, W: Sink> Progress<T, W> {
    /// None yet. Nothing is reported in the second in which this is called.
    pub(crate) fn new(counted: Counted, is_shown: bool, clock: T, errors: W) -> Progress<T, W>
        ensures { (result.counted ≡ counted) × (result.count ≡ 0) × (result.is_shown ≡ is_shown) × (result.clock ≡ clock) × (result.errors ≡ errors) }
    {
        Progress {
            counted,
            count: 0,
            is_shown,
            second: second_of(&clock),
            clock,
            errors,
        }
    }

    /// This many more. The count stops at `u64::MAX`.
    pub(crate) fn add(&mut self, more: u64)
        ensures { self.new ≡ record self.old { count = capped (self.old.count + more) } }
    {
        self.count = self.count.saturating_add(more);
    }

    /// Reports how many there are, unless nobody is watching, or something was reported in this second. What can't be written is lost.
    pub(crate) fn tell(&mut self)
        ensures same { (self.new.counted ≡ self.old.counted) × (self.new.count ≡ self.old.count) × (self.new.is_shown ≡ self.old.is_shown) × (self.new.clock ≡ self.old.clock) }
        ensures told { Tells self.old.is_shown (self.new.second == self.old.second) (progress_line self.old.counted self.old.count)
            (W.held self.old.errors) (W.held self.new.errors) (W.faults self.old.errors) (W.faults self.new.errors) }
    {
        if self.is_shown {
            let second = second_of(&self.clock);
            self.tell_in(second);
        }
    }

    /// Reports it in a second in which nothing was reported yet.
    fn tell_in(&mut self, second: u64)
        ensures same { (self.new.counted ≡ self.old.counted) × (self.new.count ≡ self.old.count) × (self.new.is_shown ≡ self.old.is_shown) × (self.new.clock ≡ self.old.clock) × (self.new.second ≡ second) }
        ensures told { Tells true (second == self.old.second) (progress_line self.old.counted self.old.count)
            (W.held self.old.errors) (W.held self.new.errors) (W.faults self.old.errors) (W.faults self.new.errors) }
    {
        if second == self.second {
            return;
        }
        self.second = second;
        let _ = write_line(self.counted, self.count, &mut self.errors);
    }
}

/// The second that a clock shows, or 0 if it can't be read.
fn second_of<T: time::Clock>(clock: &T) -> u64 {
    match clock.monotonic() {
        Ok(since) => since.as_secs(),
        Err(_) => 0,
    }
}

/// Writes the line of a count. It does not allocate.
fn write_line<W: Sink>(counted: Counted, count: u64, errors: &mut W) -> Written
    ensures { IsWritten result (progress_line counted count) (W.held errors.old) (W.held errors.new) (W.faults errors.old) (W.faults errors.new) }
{
    let mut digits = Buffer::new();
    let name = write_behind(Written::Done, b"etpctl: ", errors);
    let number = write_behind(name, digits.format(count).as_bytes(), errors);
    write_behind(number, counted_text(counted), errors)
}

/// Writes a piece of a text, unless what comes before it was not written.
fn write_behind<W: Sink>(before: Written, piece: &[u8], errors: &mut W) -> Written
    ensures { (text : List ℕ) (held : Option (List ℕ)) (faults : ℕ) → IsWritten before text held (W.held errors.old) faults (W.faults errors.old)
        → IsWritten result (text ++ piece.now) held (W.held errors.new) faults (W.faults errors.new) }
{
    match before {
        Written::Done => write_all(errors, piece),
        Written::Failed => Written::Failed,
    }
}

/// What follows a number of them.
fn counted_text(counted: Counted) -> &'static [u8]
    ensures { result.now ≡ counted_text counted }
{
    match counted {
        Counted::Points => b" points read\n",
        Counted::Changes => b" changes seen\n",
    }
}
