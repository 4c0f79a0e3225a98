//! A book of numbers, shared by two threads.
ghost use Rattle.std.specs.Prelude.{◌≡◌, ◌++◌, [], ◌∷◌, Some, None, IfOk, OnOk, OnErr, true};
ghost use Rattle.turn_book.specs.Lists.{without_each};
ghost use Rattle.turn_book.specs.Words.{view, IsSeatOf};

use etp_values::NoMemory;
use std::alloc::Global;
use std::sync::Wait;
use std::test::Fail;
use std::thread::{Threads, join};
use turn_book::{Book, Seat, TurnBook};

#[derive(Clone, Copy, Debug, PartialEq, Eq)]
struct Line {
    by: u64,
    enters: bool,
    value: u64,
}

/// Numbers with their writers, under a title.
#[derive(Drop)]
struct Numbers {
    title: u8,
    lines: Vec<Line>,
}

impl Book for Numbers {
    type Entry = Line;

    type Fixed = u8;

    ghost journal = { λ b. b.lines.items };

    ghost fixed = { λ b. b.title };

    ghost by = { λ e. e.by };

    ghost enters = { λ e. e.enters };

    fn len(&self) -> u64 {
        self.lines.len() as u64
    }
}

impl Numbers {
    fn add(&mut self, line: Line) -> Result<(), NoMemory>
        ensures title { self.new.title ≡ self.old.title }
        ensures ok { OnOk result (self.new.lines.items ≡ self.old.lines.items ++ line ∷ []) }
        ensures err { OnErr result (self.new.lines.items ≡ self.old.lines.items) }
    {
        match self.lines.push(line) {
            Ok(()) => Ok(()),
            Err(_) => Err(NoMemory),
        }
    }

    /// The values by one writer, in order.
    fn by(&self, alloc: Global, number: u64) -> Result<Vec<u64>, NoMemory> {
        let mut values = Vec::new(alloc);
        for line in &self.lines {
            if line.by == number {
                values.push(line.value)?;
            }
        }
        Ok(values)
    }
}

/// A book of two lines, both by the number 0.
fn open(alloc: Global) -> Result<(TurnBook<Numbers>, Seat<Numbers>), NoMemory>
    ensures own { IfOk result (λ t. IsSeatOf (λ b. b.title) t.0 t.1) }
    ensures idle { IfOk result (λ t. (view t.1).held ≡ None) }
{
    let mut lines = Vec::with_capacity(alloc, 2)?;
    lines.push_reserved(Line {
        by: 0,
        enters: true,
        value: 0,
    });
    lines.push_reserved(Line {
        by: 0,
        enters: false,
        value: 1,
    });
    TurnBook::new(alloc, Numbers { title: 7, lines })
}

/// Enters a new seat, and returns its number.
fn enter<R: Wait>(
    rt: &R,
    book: &TurnBook<Numbers>,
    seat: &mut Seat<Numbers>,
) -> Result<u64, NoMemory>
    requires own { IsSeatOf (λ b. b.title) book.now seat.old }
    requires idle { (view seat.old).held ≡ None }
    requires new { (view seat.old).number ≡ None }
    ensures own { IsSeatOf (λ b. b.title) book.now seat.new }
    ensures idle { (view seat.new).held ≡ None }
    ensures number { IfOk result (λ n. (view seat.new).number ≡ Some n) }
{
    let mut numbers = book.take(rt, seat);
    let number = book.look(seat);
    let line = Line {
        by: number,
        enters: true,
        value: 0,
    };
    match numbers.add(line) {
        Ok(()) => {
            book.give(seat, numbers);
            Ok(number)
        }
        Err(refused) => {
            book.give(seat, numbers);
            Err(refused)
        }
    }
}

/// Adds a line of the seat's own.
fn add<R: Wait>(
    rt: &R,
    book: &TurnBook<Numbers>,
    seat: &mut Seat<Numbers>,
    number: u64,
    value: u64,
) -> Result<(), NoMemory>
    requires own { IsSeatOf (λ b. b.title) book.now seat.old }
    requires idle { (view seat.old).held ≡ None }
    requires number { (view seat.old).number ≡ Some number }
    ensures own { IsSeatOf (λ b. b.title) book.now seat.new }
    ensures idle { (view seat.new).held ≡ None }
    ensures number { (view seat.new).number ≡ Some number }
{
    let mut numbers = book.take(rt, seat);
    book.look(seat);
    let line = Line {
        by: number,
        enters: false,
        value,
    };
    match numbers.add(line) {
        Ok(()) => {
            book.give(seat, numbers);
            Ok(())
        }
        Err(refused) => {
            book.give(seat, numbers);
            Err(refused)
        }
    }
}

/// A thread's work: two lines of its own.
fn add_two<R: Wait>(
    rt: &R,
    book: &TurnBook<Numbers>,
    mut seat: Seat<Numbers>,
    number: u64,
    values: (u64, u64),
) -> Result<Seat<Numbers>, NoMemory>
    requires own { IsSeatOf (λ b. b.title) book.now seat }
    requires idle { (view seat).held ≡ None }
    requires number { (view seat).number ≡ Some number }
    ensures own { IfOk result (λ s. IsSeatOf (λ b. b.title) book.now s) }
    ensures idle { IfOk result (λ s. (view s).held ≡ None) }
{
    add(rt, book, &mut seat, number, values.0)?;
    add(rt, book, &mut seat, number, values.1)?;
    Ok(seat)
}

/// The values by one writer, read at the seat's turn.
fn read<R: Wait>(
    rt: &R,
    alloc: Global,
    book: &TurnBook<Numbers>,
    seat: &mut Seat<Numbers>,
    number: u64,
) -> Result<Vec<u64>, NoMemory>
    requires own { IsSeatOf (λ b. b.title) book.now seat.old }
    requires idle { (view seat.old).held ≡ None }
    ensures own { IsSeatOf (λ b. b.title) book.now seat.new }
    ensures idle { (view seat.new).held ≡ None }
{
    let numbers = book.take(rt, seat);
    let values = numbers.by(alloc, number);
    book.give(seat, numbers);
    values
}

#[test]
fn two_threads_read_each_other(rt: HostRuntime) -> Result<(), Fail> {
    let alloc = rt.alloc();
    let (book, mut door) = open(alloc)?;
    let mut one = book.split(&mut door);
    let mut two = book.split(&mut door);
    let first = enter(&rt, &book, &mut one)?;
    let second = enter(&rt, &book, &mut two)?;
    let (one, two) = both(&rt, &book, (one, first), (two, second));
    let (mut one, mut two) = (one?, two?);
    assert_eq!(rt;
        read(&rt, alloc, &book, &mut one, second)?.as_slice(),
        [0, 20, 21].as_slice()
    );
    assert_eq!(rt;
        read(&rt, alloc, &book, &mut two, first)?.as_slice(),
        [0, 10, 11].as_slice()
    );
    book.join(&mut door, one);
    book.join(&mut door, two);
    assert_eq!(rt; book.look(&mut door), 8);
    let numbers = book.close(&rt, door);
    assert_eq!(rt; (numbers.title, numbers.len()), (7, 8));
    Ok(())
}

/// Each seat adds its two lines on a thread of its own.
fn both<R: Threads + Wait + Sync>(
    rt: &R,
    book: &TurnBook<Numbers>,
    one: (Seat<Numbers>, u64),
    two: (Seat<Numbers>, u64),
) -> (
    Result<Seat<Numbers>, NoMemory>,
    Result<Seat<Numbers>, NoMemory>,
)
    requires one { IsSeatOf (λ b. b.title) book.now one.0 × ((view one.0).held ≡ None) × ((view one.0).number ≡ Some one.1) }
    requires two { IsSeatOf (λ b. b.title) book.now two.0 × ((view two.0).held ≡ None) × ((view two.0).number ≡ Some two.1) }
    ensures one { IfOk result.0 (λ s. IsSeatOf (λ b. b.title) book.now s × ((view s).held ≡ None)) }
    ensures two { IfOk result.1 (λ s. IsSeatOf (λ b. b.title) book.now s × ((view s).held ≡ None)) }
{
    let (one, first) = one;
    let (two, second) = two;
    join(
        rt,
        || -> Result<Seat<Numbers>, NoMemory>
            requires { IsSeatOf (λ b. b.title) book.now one × ((view one).held ≡ None) × ((view one).number ≡ Some first) }
            ensures { IfOk result (λ s. IsSeatOf (λ b. b.title) book.entry.now s × ((view s).held ≡ None)) }
        { add_two(rt, book, one, first, (10, 11)) },
        || -> Result<Seat<Numbers>, NoMemory>
            requires { IsSeatOf (λ b. b.title) book.now two × ((view two).held ≡ None) × ((view two).number ≡ Some second) }
            ensures { IfOk result (λ s. IsSeatOf (λ b. b.title) book.entry.now s × ((view s).held ≡ None)) }
        { add_two(rt, book, two, second, (20, 21)) },
    )
}

#[test]
fn tries_only_while_the_turn_is_free(rt: HostRuntime) -> Result<(), Fail> {
    let (book, mut door) = open(rt.alloc())?;
    let mut other = book.split(&mut door);
    let numbers = book.take(&rt, &mut door);
    assert!(rt; book.try_take(&mut other).is_none());
    assert_eq!(rt; book.look(&mut other), 2);
    book.give(&mut door, numbers);
    let Some(numbers) = book.try_take(&mut other) else {
        return Err(Fail::new("the turn was free"));
    };
    assert!(rt; book.try_take(&mut door).is_none());
    book.give(&mut other, numbers);
    book.join(&mut door, other);
    assert_eq!(rt; book.close(&rt, door).len(), 2);
    Ok(())
}

// The places among the marks 2 2 4 4 7 7 9, when the seat's own entries are at 2 and 4; 7 was found twice.
fn worked_places()
    ensures { without_each (2 ∷ 4 ∷ []) (2 ∷ 2 ∷ 4 ∷ 4 ∷ 7 ∷ 7 ∷ 9 ∷ []) ≡ 2 ∷ 4 ∷ 7 ∷ 7 ∷ 9 ∷ [] }
{}

#[test]
fn places_are_marks_without_own_entries() {
    worked_places();
}
