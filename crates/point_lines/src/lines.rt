//! The lines of an input.
ghost use Rattle.std.specs.Prelude.{◌≡◌, ◌≤◌, ◌<◌, ℕ, List, [], None, false, true, drop, length};
ghost use Rattle.std.specs.declared.option.Option.{Option};
ghost use Rattle.etp_outside.specs.Faults.{Rose};
ghost use Rattle.etp_values.specs.Uri.{parted};
ghost use Rattle.point_lines.specs.Lines.{Goes, HasGiven, of_length};
ghost use Rattle.point_lines.specs.Reads.{IsOver, ReadsOn};

use crate::marks::{place_behind, place_of};
use etp_outside::{ReadOutcome, Source};
use std::alloc::Global;
use std::marker::Model;

/// The maximum length of a line in bytes, without its line feed.
pub const MAX_LINE_LEN: usize = 65_536;

/// What moving on to the next line returned.
#[derive(Clone, Copy, Debug, PartialEq, Eq)]
pub enum Advance {
    /// The reader is at the next line.
    Line,
    /// The next line has more than 65,536 bytes.
    TooLong,
    /// There is no further line.
    NoMore,
    /// The source failed.
    Failed,
    /// Out of memory.
    NoMemory,
}

/// What reading on to the end of a line returned.
enum Ended {
    /// There is a line feed at this offset.
    Feed(usize),
    /// The input has ended, and no line feed came.
    Over,
    /// No line feed came within the maximum length of a line.
    TooLong,
    /// The source failed.
    Failed,
    /// Out of memory.
    NoMemory,
}

/// Appends what comes, until there is a line feed, there are too many bytes, or nothing more comes.
fn read_line<R: Source>(buf: &mut Vec<u8>, input: &mut R) -> Ended
    requires { parted 10 buf.old.items ≡ None }
    ensures bytes { ReadsOn result false (R.left input.old) (R.left input.new) buf.old.items buf.new.items }
    ensures over { IsOver result (R.left input.new) }
    ensures kept { R.faults input.old ≤ R.faults input.new }
    ensures cause { result ≡ Ended.Failed → Rose (R.faults input.old) (R.faults input.new) }
{
    let mut chunk = [0u8; 4096];
    loop {
        let seen = buf.len();
        if seen > MAX_LINE_LEN {
            return Ended::TooLong;
        }
        match input.read(&mut chunk) {
            ReadOutcome::Got(count) => {
                if buf.extend_from_slice(&chunk[..count]).is_err() {
                    return Ended::NoMemory;
                }
            }
            ReadOutcome::End => return Ended::Over,
            ReadOutcome::Failed => return Ended::Failed,
        }
        if let Some(i) = place_behind(b'\n', buf.as_slice(), seen) {
            return Ended::Feed(i);
        }
    }
}

/// Drops the bytes before `next`, and reads on, unless the input is over.
fn refill<R: Source>(
    alloc: Global,
    buf: &mut Vec<u8>,
    next: usize,
    over: bool,
    input: &mut R,
) -> Ended
    requires within { next ≤ length buf.old.items }
    requires clear { parted 10 (drop next buf.old.items) ≡ None }
    ensures bytes { ReadsOn result over (R.left input.old) (R.left input.new) (drop next buf.old.items) buf.new.items }
    ensures over { over ≡ false → IsOver result (R.left input.new) }
    ensures same { over ≡ true → R.left input.new ≡ R.left input.old }
    ensures kept { R.faults input.old ≤ R.faults input.new }
    ensures cause { result ≡ Ended.Failed → Rose (R.faults input.old) (R.faults input.new) }
{
    let Ok(ahead) = Vec::from_slice(alloc, &buf[next..]) else {
        return Ended::NoMemory;
    };
    *buf = ahead;
    if over {
        return Ended::Over;
    }
    read_line(buf, input)
}

/// Whether a line may have this length.
fn of_length(len: usize) -> Advance
    ensures { result ≡ of_length len }
{
    if len > MAX_LINE_LEN {
        Advance::TooLong
    } else {
        Advance::Line
    }
}

/// Gives the lines of an input, one at a time. Contracts see the current line, the bytes that were read ahead, and whether the input is
/// over.
#[derive(Drop)]
pub struct Lines {
    buf: Vec<u8>,
    start: usize,
    end: usize,
    next: usize,
    over: bool,
}

impl Model for Lines {
    ghost use Rattle.std.specs.Prelude.{◌≤◌, length, drop, slice_range};
    ghost use Rattle.point_lines.specs.Lines.{Reading};

    ghost Value = { Reading };

    ghost view = { λ l. record { line = slice_range l.buf.items l.start l.end; ahead = drop l.next l.buf.items; over = l.over } };

    ghost invariant = { λ l. (l.start ≤ l.end) × (l.end ≤ length l.buf.items) × (l.next ≤ length l.buf.items) };
}

impl Lines {
    /// A reader before the first line. Its line is empty.
    pub fn new(alloc: Global) -> Lines
        ensures { result ≡ record { line = []; ahead = []; over = false } }
    {
        Lines {
            buf: Vec::new(alloc),
            start: 0,
            end: 0,
            next: 0,
            over: false,
        }
    }

    /// The current line, without its line feed.
    pub fn line(&self) -> &[u8]
        ensures { result.now ≡ self.now.line }
    {
        &self.buf[self.start..self.end]
    }

    /// Moves on to the next line. It may read more of the input than that line. After any answer other than `Line` its contents are
    /// unspecified.
    pub fn advance<R: Source>(&mut self, alloc: Global, input: &mut R) -> Advance
        ensures goes { (before : Option (List ℕ)) (given : List (List ℕ)) → HasGiven before (R.left input.old) self.old given
            → Goes result before (R.left input.new) self.new given }
        ensures kept { R.faults input.old ≤ R.faults input.new }
        ensures cause { result ≡ Advance.Failed → Rose (R.faults input.old) (R.faults input.new) }
    {
        let start = self.next;
        match place_of(b'\n', &self.buf[start..]) {
            Some(i) => {
                self.start = start;
                self.end = start + i;
                self.next = start + i + 1;
                of_length(i)
            }
            None => self.read_on(alloc, input),
        }
    }

    /// The same if no line feed was read ahead.
    fn read_on<R: Source>(&mut self, alloc: Global, input: &mut R) -> Advance
        requires { parted 10 self.old.ahead ≡ None }
        ensures goes { (before : Option (List ℕ)) (given : List (List ℕ)) → HasGiven before (R.left input.old) self.old given
            → Goes result before (R.left input.new) self.new given }
        ensures kept { R.faults input.old ≤ R.faults input.new }
        ensures cause { result ≡ Advance.Failed → Rose (R.faults input.old) (R.faults input.new) }
    {
        let ended = refill(alloc, &mut self.buf, self.next, self.over, input);
        self.start = 0;
        self.end = 0;
        self.next = 0;
        match ended {
            Ended::Feed(i) => {
                self.end = i;
                self.next = i + 1;
                of_length(i)
            }
            Ended::Over => {
                let len = self.buf.len();
                self.over = true;
                self.end = len;
                self.next = len;
                if len == 0 {
                    return Advance::NoMore;
                }
                of_length(len)
            }
            Ended::TooLong => Advance::TooLong,
            Ended::Failed => Advance::Failed,
            Ended::NoMemory => Advance::NoMemory,
        }
    }
}
