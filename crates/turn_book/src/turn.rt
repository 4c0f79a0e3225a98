//! The book under its turn.
ghost use Rattle.std.specs.Prelude.{◌≡◌, [], ◌∷◌, length, Some, None, IfOk, IfSome, IfNone};
ghost use Rattle.turn_book.specs.Lists.{last};
ghost use Rattle.turn_book.specs.Rules.{Knows};
ghost use Rattle.turn_book.specs.Hands.{IsBegun, IsOneMore, MayAdd, MayGive, Waits, EndsAt};
ghost use Rattle.turn_book.specs.Steps.{first_view, holding, released, missing, grown, wrote, fresh_view, joined, Sees, Hears};

use crate::book::Book;
use crate::rule::{Cut, Give, Look, Meet, Publish, Says, Take, Turns};
use crate::seat::Seat;
use crate::view::View;
use atomic_table::Table;
use etp_values::NoMemory;
use std::alloc::{AllocError, Global};
use std::marker::Brand;
use std::snapshot::Snapshot;
use std::sync::Wait;
use std::thread;
use std::time::Duration;

/// How many tries are made without sleeping, as most turns are over in microseconds.
const YIELDS: u32 = 200;

/// The length of a waiting thread's first sleep, in microseconds.
const FIRST_SLEEP: u64 = 64;

/// How many of the following sleeps are each twice as long as the previous one. The longest is four milliseconds.
const DOUBLINGS: u32 = 6;

type Room<B> = Table<
    Option<B>,
    View<<B as Book>::Entry, <B as Book>::Fixed>,
    Snapshot<B>,
    Turns<B>,
    Global,
>;

/// A book that seats change in turns. Threads share it by `&`, each with a seat of its own.
#[derive(Drop)]
pub struct TurnBook<B: Book> {
    pub(crate) table: Room<B>,
    ghost sized: { (table.shared.table_id.words ≡ 2) × (table.shared.table_id.slots ≡ 1) },
}

// The slots of a table: one, with the book.
fn only<B: Drop>(alloc: Global, book: B) -> Result<Vec<Option<B>>, AllocError>
    ensures { IfOk result (λ v. v.items ≡ Some book ∷ []) }
{
    let mut slots = Vec::with_capacity(alloc, 1)?;
    slots.push_reserved(Some(book));
    Ok(slots)
}

impl<B: Book> TurnBook<B> {
    ghost use Rattle.turn_book.specs.Words.{fixed_of, view, IsSeatOf};

    /// A book with its first seat, which has the number 0 and has seen the whole journal. If allocation fails, the book is dropped.
    pub fn new(alloc: Global, book: B) -> Result<(TurnBook<B>, Seat<B>), NoMemory>
        requires { IsBegun B.by B.enters (B.journal book) }
        ensures own { IfOk result (λ t. IsSeatOf B.fixed t.0 t.1) }
        ensures fixed { IfOk result (λ t. fixed_of B.fixed t.0 ≡ B.fixed book) }
        ensures view { IfOk result (λ t. view t.1 ≡ first_view (B.journal book) (B.fixed book)) }
    {
        let about = Snapshot::of(&book);
        let len = book.len();
        let Ok(slots) = only(alloc, book) else {
            return Err(NoMemory);
        };
        let Ok((table, seat)) = Table::new(alloc, &[0, len], slots, &about) else {
            return Err(NoMemory);
        };
        Ok((TurnBook { table }, Seat { seat, taken: 0 }))
    }

    /// Takes the turn, waiting for it. The book is as it was last put in. Between the first tries other threads may run; between later ones
    /// the thread sleeps, for at most four milliseconds.
    pub fn take<R: Wait>(&self, rt: &R, seat: &mut Seat<B>) -> B
        requires own { IsSeatOf B.fixed self.now seat.old }
        requires idle { (view seat.old).held ≡ None }
        ensures own { IsSeatOf B.fixed self.now seat.new }
        ensures fixed { B.fixed result ≡ fixed_of B.fixed self.now }
        ensures view { Waits (view seat.old) (B.journal result) (view seat.new) }
        ensures knows { Knows B.by B.enters (B.journal result) (view seat.old) }
    {
        let mut missed: u32 = 0;
        for _ in rt.forever() {
            if let Some(book) = self.try_take(seat) {
                return book;
            }
            self.rest(rt, missed);
            missed = missed.saturating_add(1);
        }
        unreachable!()
    }

    // Waits before another try, after this many have missed the turn: at first lets other threads run, and later sleeps, unless the turn
    // has been given back meanwhile.
    fn rest<R: Wait>(&self, rt: &R, missed: u32) {
        if missed < YIELDS {
            thread::yield_now();
        } else {
            let doublings = (missed - YIELDS).min(DOUBLINGS);
            let micros = FIRST_SLEEP << doublings;
            self.table
                .shared
                .park_timeout(rt, 0, 1, Duration::from_micros(micros));
        }
    }

    /// Takes the turn if it is free. `None` if its own compare and exchange found the turn taken, which `missed` counts.
    pub fn try_take(&self, seat: &mut Seat<B>) -> Option<B>
        requires own { IsSeatOf B.fixed self.now seat.old }
        requires idle { (view seat.old).held ≡ None }
        ensures own { IsSeatOf B.fixed self.now seat.new }
        ensures fixed { IfSome result (λ b. B.fixed b ≡ fixed_of B.fixed self.now) }
        ensures view { IfSome result (λ b. view seat.new ≡ holding (B.journal b) (view seat.old)) }
        ensures knows { IfSome result (λ b. Knows B.by B.enters (B.journal b) (view seat.old)) }
        ensures none { IfNone result (view seat.new ≡ missing (view seat.old)) }
    {
        let shared = &self.table.shared;
        let found = shared.compare_exchange::<Take<B>>(&mut seat.seat, 0, 0, 1);
        if found != 0 {
            return None;
        }
        let book = shared.exchange(&mut seat.seat, 0, None).unwrap();
        seat.taken = book.len();
        Some(book)
    }

    /// The length of the journal, as a load finds it. With the turn, the seat has then seen the whole journal; without, the journal may be
    /// longer by the time that the length is read.
    pub fn look(&self, seat: &mut Seat<B>) -> u64
        requires own { IsSeatOf B.fixed self.now seat.old }
        ensures own { IsSeatOf B.fixed self.now seat.new }
        ensures held { IfSome (view seat.old).held (λ log.
            Sees B.by B.enters log (view seat.old) result (view seat.new)) }
        ensures idle { IfNone (view seat.old).held (
            Hears B.by B.enters (view seat.old) result (view seat.new)) }
    {
        self.table.shared.load::<Look<B>>(&mut seat.seat, 1)
    }

    /// Gives the turn back with the book. The journal is the one that was taken, or has one more entry of the seat's own; before such an
    /// entry the seat has looked with the turn.
    pub fn give(&self, seat: &mut Seat<B>, book: B)
        requires own { IsSeatOf B.fixed self.now seat.old }
        requires fixed { B.fixed book ≡ fixed_of B.fixed self.now }
        requires journal { MayGive B.by B.enters (view seat.old) (B.journal book) }
        ensures own { IsSeatOf B.fixed self.now seat.new }
        ensures same { (view seat.old).held ≡ Some (B.journal book)
            → view seat.new ≡ released (view seat.old) }
        ensures entry { (e : B.Entry) → IsOneMore (view seat.old) e (B.journal book)
            → view seat.new ≡ wrote e (view seat.old) }
        ensures knows { Knows B.by B.enters (B.journal book) (view seat.new) }
    {
        if book.len() != seat.taken {
            self.publish::<Brand>(seat, &book);
        }
        self.put(seat, book);
    }

    // Makes the book's last entry visible to the others.
    fn publish<N: Says<B::Entry>>(&self, seat: &mut Seat<B>, book: &B)
        requires own { IsSeatOf B.fixed self.now seat.old }
        requires said { N.entry ≡ last (B.journal book.now) }
        requires entry { MayAdd B.by B.enters (view seat.old) (B.journal book.now) }
        ensures own { IsSeatOf B.fixed self.now seat.new }
        ensures held { (view seat.new).held ≡ Some (B.journal book.now) }
        ensures view { (e : B.Entry) → IsOneMore (view seat.old) e (B.journal book.now)
            → view seat.new ≡ grown e (length (view seat.old).seen) (view seat.old) }
    {
        let len = book.len();
        self.table
            .shared
            .fetch_add::<Publish<B, N>>(&mut seat.seat, 1, 1);
        seat.taken = len;
    }

    // Puts the book back, and then gives the turn.
    fn put(&self, seat: &mut Seat<B>, book: B)
        requires own { IsSeatOf B.fixed self.now seat.old }
        requires fixed { B.fixed book ≡ fixed_of B.fixed self.now }
        requires held { (view seat.old).held ≡ Some (B.journal book) }
        ensures own { IsSeatOf B.fixed self.now seat.new }
        ensures view { view seat.new ≡ released (view seat.old) }
        ensures knows { Knows B.by B.enters (B.journal book) (view seat.new) }
    {
        let shared = &self.table.shared;
        shared.exchange(&mut seat.seat, 0, Some(book));
        shared.store::<Give<B>>(&mut seat.seat, 0, 0);
    }

    /// A new seat that has seen as much, and enters by its first entry.
    pub fn split(&self, seat: &mut Seat<B>) -> Seat<B>
        requires own { IsSeatOf B.fixed self.now seat.old }
        requires idle { (view seat.old).held ≡ None }
        ensures own { IsSeatOf B.fixed self.now seat.new × IsSeatOf B.fixed self.now result }
        ensures view { view seat.new ≡ view seat.old }
        ensures new { view result ≡ fresh_view (view seat.old).fixed (view seat.old).seen }
    {
        let seat = self.table.shared.split_seat::<Cut>(&mut seat.seat);
        Seat { seat, taken: 0 }
    }

    /// Takes in what an ended seat knew.
    pub fn join(&self, seat: &mut Seat<B>, ended: Seat<B>)
        requires own { IsSeatOf B.fixed self.now seat.old }
        requires ended { IsSeatOf B.fixed self.now ended }
        requires idle { ((view seat.old).held ≡ None) × ((view ended).held ≡ None) }
        ensures own { IsSeatOf B.fixed self.now seat.new }
        ensures view { view seat.new ≡ joined (view seat.old) (view ended) }
    {
        let Seat { seat: other, .. } = ended;
        self.table.shared.join_seat::<Meet>(&mut seat.seat, other);
    }

    /// The book, after the turn was taken a last time. It waits for the turn. The journal begins with everything that any seat has seen:
    /// `rule` is the whole rule, at the last state of the table.
    pub fn close<R: Wait>(self, rt: &R, seat: Seat<B>) -> B
        requires own { IsSeatOf B.fixed self seat }
        requires idle { (view seat).held ≡ None }
        ensures fixed { B.fixed result ≡ fixed_of B.fixed self }
        ensures knows { Knows B.by B.enters (B.journal result) (view seat) }
        ensures rule { EndsAt B.journal B.fixed B.by B.enters (fixed_of B.fixed self) (view seat) (B.journal result) }
    {
        let mut seat = seat;
        let book = self.take(rt, &mut seat);
        let TurnBook { table } = self;
        let Seat { seat, .. } = seat;
        let mut closed = table.close_with(seat);
        drop(closed.take(0));
        closed.free();
        book
    }
}
