//! What is done at a seat of the book, a call at a time.
ghost use Rattle.std.specs.Prelude.{◌≡◌, ◌≤◌, ◌++◌, ◌∷◌, [], length, false, Some, None, Ok, Err, IfOk, OnErr};
ghost use mathlib.Core.List.{IsPrefix};
ghost use Rattle.store_machine.specs.Answers.{answered, has_room_for};
ghost use Rattle.store_machine.specs.declared.journal.Act.TheVariants.{Enter};
ghost use Rattle.store_machine.specs.Laws.{IsCallAt};
ghost use Rattle.store_machine.specs.Legal.{IsNext};
ghost use Rattle.turn_book.specs.Lists.{own};
ghost use Rattle.turn_book.specs.Steps.{first_view, hearing};
ghost use Rattle.turn_book.specs.Hands.{IsBegun, Waits};
ghost use Rattle.turn_book.specs.Words.{view, fixed_of, IsSeatOf};
ghost use Rattle.store_hub.specs.Words.{Known, by_of, enters_of};
ghost use Rattle.store_hub.specs.Kept.{IsKept};
ghost use Rattle.store_hub.specs.Notes.{noted, entering, Answers, Refuses, Tries, Enters, Widens, FindsFull, Meets};
ghost use Rattle.store_hub.specs.Turns.{Adds, LetsIn, StaysKept};

use crate::book::StoreBook;
use crate::error::EnterError;
use crate::tried::Tried;
use etp_values::{Boxed, NoMemory};
use std::alloc::Global;
use std::sync::Wait;
use store_machine::{Answer, Entry, Store, StoreCall};
use turn_book::{Book, Seat, TurnBook};

/// A book over a store, its first seat, and how many entries are the door's.
pub(crate) fn open(
    alloc: Global,
    store: Store,
) -> Result<(TurnBook<StoreBook>, Seat<StoreBook>, u64), NoMemory>
    ensures own { IfOk result (λ t. IsSeatOf (λ b. b.store.config) t.0 t.1) }
    ensures fixed { IfOk result (λ t. fixed_of (λ b. b.store.config) t.0 ≡ store.config) }
    ensures view { IfOk result (λ t. view t.1 ≡ first_view store.journal store.config) }
    ensures kept { IfOk result (λ t. IsKept 0 t.2 (view t.1)) }
{
    let entries = door_entries(&store);
    let store = Boxed::new(alloc, store)?;
    let (book, seat) = TurnBook::new(alloc, StoreBook { store })?;
    Ok((book, seat, entries))
}

/// How many of the store's entries are the door's.
fn door_entries(store: &Store) -> u64
    ensures count { result ≡ length (own by_of 0 store.now.journal) }
    ensures begun { IsBegun by_of enters_of store.now.journal }
{
    let mut count = 0;
    for place in 0..store.entries() {
        count += door_count(store.entry(place));
    }
    count
}

/// One if the entry is the door's, otherwise none.
fn door_count(entry: &Entry) -> u64
    ensures is { result ≡ length (own by_of 0 (entry.now ∷ [])) }
    ensures small { result ≤ 1 }
{
    if entry.by == 0 { 1 } else { 0 }
}

/// Asks at the journal of the moment at which it gets the turn.
pub(crate) fn ask<R: Wait>(
    rt: &R,
    alloc: Global,
    book: &TurnBook<StoreBook>,
    seat: &mut Seat<StoreBook>,
    number: u64,
    nth: &mut u64,
    at: i64,
    call: StoreCall,
) -> Result<Answer, NoMemory>
    requires own { IsSeatOf (λ b. b.store.config) book.now seat.old }
    requires kept { IsKept number nth.old (view seat.old) }
    requires call { IsCallAt (view seat.old).seen call }
    ensures own { IsSeatOf (λ b. b.store.config) book.now seat.new }
    ensures kept { IsKept number nth.new (view seat.new) }
    ensures ok { IfOk result (λ a. Answers (fixed_of (λ b. b.store.config) book.now) number nth.old
        at call (view seat.old) a (view seat.new)) }
    ensures err { OnErr result (Refuses number (view seat.old) (view seat.new)) }
{
    let inside = book.take(rt, seat);
    in_turn(alloc, book, seat, inside, number, nth, at, call)
}

/// Asks if the turn is free.
pub(crate) fn try_ask(
    alloc: Global,
    book: &TurnBook<StoreBook>,
    seat: &mut Seat<StoreBook>,
    number: u64,
    nth: &mut u64,
    at: i64,
    call: StoreCall,
) -> Result<Tried, NoMemory>
    requires own { IsSeatOf (λ b. b.store.config) book.now seat.old }
    requires kept { IsKept number nth.old (view seat.old) }
    requires call { IsCallAt (view seat.old).seen call }
    ensures own { IsSeatOf (λ b. b.store.config) book.now seat.new }
    ensures kept { IsKept number nth.new (view seat.new) }
    ensures ok { IfOk result (λ t. Tries (fixed_of (λ b. b.store.config) book.now) number nth.old
        at call (view seat.old) t (view seat.new)) }
    ensures err { OnErr result (Refuses number (view seat.old) (view seat.new)) }
{
    let Some(inside) = book.try_take(seat) else {
        return Ok(Tried::Busy(call));
    };
    match in_turn(alloc, book, seat, inside, number, nth, at, call) {
        Ok(answer) => Ok(Tried::Done(answer)),
        Err(refused) => Err(refused),
    }
}

/// Answers a call at a seat that has the turn, and gives the turn back.
fn in_turn(
    alloc: Global,
    book: &TurnBook<StoreBook>,
    seat: &mut Seat<StoreBook>,
    inside: StoreBook,
    number: u64,
    nth: &mut u64,
    at: i64,
    call: StoreCall,
) -> Result<Answer, NoMemory>
    requires own { IsSeatOf (λ b. b.store.config) book.now seat.old }
    requires fixed { inside.store.config ≡ fixed_of (λ b. b.store.config) book.now }
    requires held { (view seat.old).held ≡ Some inside.store.journal }
    requires kept { IsKept number nth.old (record (view seat.old) { held = None }) }
    requires call { IsCallAt (view seat.old).seen call }
    ensures own { IsSeatOf (λ b. b.store.config) book.now seat.new }
    ensures kept { IsKept number nth.new (view seat.new) }
    ensures ok { IfOk result (λ a. (v : Known) → Waits v inside.store.journal (view seat.old)
        → Answers (fixed_of (λ b. b.store.config) book.now) number nth.old at call v a (view seat.new)) }
    ensures err { OnErr result ((v : Known) → Waits v inside.store.journal (view seat.old)
        → Refuses number v (view seat.new)) }
{
    let mut inside = inside;
    let mark = book.look(seat);
    let answer = ask_as(&mut inside.store, alloc, number, *nth, at, call);
    let entries = inside.len();
    *nth += entries - mark;
    book.give(seat, inside);
    answer
}

/// Asks the store for a session whose next entry is its `nth`.
fn ask_as(
    store: &mut Boxed<Store>,
    alloc: Global,
    number: u64,
    nth: u64,
    at: i64,
    call: StoreCall,
) -> Result<Answer, NoMemory>
    requires next { IsNext store.old.journal number nth }
    requires call { IsCallAt store.old.journal call }
    ensures config { store.new.config ≡ store.old.config }
    ensures ok { IfOk result (λ a. (a ≡ answered store.old.config store.old.journal call)
        × Adds store.old.config store.old.journal number nth at call store.new.journal) }
    ensures err { OnErr result (store.new.journal ≡ store.old.journal) }
{
    store.get_mut().ask(alloc, number, nth, at, call)
}

/// Lets a session in at the journal of the moment at which it gets the turn, and returns its seat and number.
pub(crate) fn enter<R: Wait>(
    rt: &R,
    alloc: Global,
    book: &TurnBook<StoreBook>,
    seat: &mut Seat<StoreBook>,
    at: i64,
) -> Result<(Seat<StoreBook>, u64), EnterError>
    requires own { IsSeatOf (λ b. b.store.config) book.now seat.old }
    requires idle { (view seat.old).held ≡ None }
    ensures own { IsSeatOf (λ b. b.store.config) book.now seat.new }
    ensures kept { StaysKept (view seat.old) (view seat.new) }
    ensures new { IfOk result (λ t. IsSeatOf (λ b. b.store.config) book.now t.0 × IsKept t.1 1 (view t.0)) }
    ensures ok { IfOk result (λ t. (view seat.new ≡ view seat.old)
        × Enters (fixed_of (λ b. b.store.config) book.now) at (view seat.old) t.1 (view t.0)) }
    ensures full { result ≡ Err EnterError.JournalFull
        → FindsFull (fixed_of (λ b. b.store.config) book.now) (view seat.old) (view seat.new) }
    ensures lack { result ≡ Err EnterError.NoMemory → Widens (view seat.old) (view seat.new) }
{
    let mut fresh = book.split(seat);
    let inside = book.take(rt, &mut fresh);
    match let_in(alloc, book, &mut fresh, inside, at) {
        Ok(number) => Ok((fresh, number)),
        Err(error) => {
            meet(book, seat, fresh);
            Err(error)
        }
    }
}

/// Lets a session in at its seat, which has the turn, and gives the turn back.
fn let_in(
    alloc: Global,
    book: &TurnBook<StoreBook>,
    seat: &mut Seat<StoreBook>,
    inside: StoreBook,
    at: i64,
) -> Result<u64, EnterError>
    requires own { IsSeatOf (λ b. b.store.config) book.now seat.old }
    requires fixed { inside.store.config ≡ fixed_of (λ b. b.store.config) book.now }
    requires held { (view seat.old).held ≡ Some inside.store.journal }
    requires new { (view seat.old).number ≡ None }
    ensures own { IsSeatOf (λ b. b.store.config) book.now seat.new }
    ensures before { IsPrefix (view seat.old).seen inside.store.journal }
    ensures ok { IfOk result (LetsIn inside.store.config inside.store.journal) }
    ensures view { IfOk result (λ n. view seat.new ≡ noted inside.store.journal (entering n at ∷ []) (view seat.old)) }
    ensures full { result ≡ Err EnterError.JournalFull
        → has_room_for inside.store.config inside.store.journal Enter ≡ false }
    ensures err { OnErr result (view seat.new ≡ noted inside.store.journal [] (view seat.old)) }
{
    let mut inside = inside;
    book.look(seat);
    let entered = enter_store(&mut inside.store, alloc, at);
    book.give(seat, inside);
    entered
}

/// Lets a session in, and returns its number.
fn enter_store(store: &mut Boxed<Store>, alloc: Global, at: i64) -> Result<u64, EnterError>
    ensures config { store.new.config ≡ store.old.config }
    ensures ok { IfOk result (LetsIn store.old.config store.old.journal) }
    ensures entry { IfOk result (λ n. store.new.journal ≡ store.old.journal ++ entering n at ∷ []) }
    ensures full { result ≡ Err EnterError.JournalFull
        → has_room_for store.old.config store.old.journal Enter ≡ false }
    ensures err { OnErr result (store.new.journal ≡ store.old.journal) }
{
    let inside = store.get_mut();
    let number = inside.entries();
    let Ok(_answer) = inside.ask(alloc, 0, 0, at, StoreCall::Enter) else {
        return Err(EnterError::NoMemory);
    };
    let after = inside.entries();
    if after == number {
        return Err(EnterError::JournalFull);
    }
    Ok(number)
}

/// Looks at the journal's length without the turn.
pub(crate) fn front(book: &TurnBook<StoreBook>, seat: &mut Seat<StoreBook>) -> u64
    requires own { IsSeatOf (λ b. b.store.config) book.now seat.old }
    requires idle { (view seat.old).held ≡ None }
    ensures own { IsSeatOf (λ b. b.store.config) book.now seat.new }
    ensures kept { StaysKept (view seat.old) (view seat.new) }
    ensures least { length (view seat.old).seen ≤ result }
    ensures view { view seat.new ≡ hearing result (view seat.old) }
{
    book.look(seat)
}

/// Joins a seat, and then looks without the turn, which shows what the join made true.
pub(crate) fn meet(book: &TurnBook<StoreBook>, seat: &mut Seat<StoreBook>, ended: Seat<StoreBook>)
    requires own { IsSeatOf (λ b. b.store.config) book.now seat.old }
    requires ended { IsSeatOf (λ b. b.store.config) book.now ended }
    requires idle { ((view seat.old).held ≡ None) × ((view ended).held ≡ None) }
    ensures own { IsSeatOf (λ b. b.store.config) book.now seat.new }
    ensures kept { StaysKept (view seat.old) (view seat.new) }
    ensures met { Meets (view seat.old) (view ended) (view seat.new) }
{
    book.join(seat, ended);
    book.look(seat);
}
