//! The rule that every step keeps, and what a seat learns from each kind of step.
//!
//! Word 0 is the turn, 0 or 1. Word 1 is the journal's length. The one slot has the book while the turn is 0. There are
//! eight kinds of step, and [`crate::TurnBook`] makes each of them at one place:
//!
//! - [`Take`]: a compare and exchange of the turn from 0 to 1, which gives the seat the slot;
//! - out: the seat exchanges the book out of its slot, and no view changes;
//! - [`Look`]: a load of the length;
//! - [`Publish`]: 1 is added to the length, and the seat's view grows by the entry;
//! - in: the seat exchanges the book into its slot, and no view changes;
//! - [`Give`]: the turn becomes 0, which takes the slot back;
//! - [`Cut`]: a new seat has what the old one has seen;
//! - [`Meet`]: a seat takes in what another knew, and that one is spent.
ghost use Rattle.turn_book.specs.Steps.{took, gave, published, looked, fresh_view, joined};

use crate::book::Book;
use crate::view::View;
use atomic_table::{Join, Play, Split, TableRule};
use std::marker::{Brand, PhantomData};
use std::snapshot::Snapshot;

/// The rule of a table that has one book in its slot. The key is the book that was put in first.
pub struct Turns<B> {
    of: PhantomData<B>,
}

impl<B: Book> TableRule<Option<B>, View<B::Entry, B::Fixed>, Snapshot<B>> for Turns<B> {
    ghost use Rattle.turn_book.specs.Rules.{Ruled};
    ghost use Rattle.turn_book.specs.Steps.{first_view};

    ghost holds = { λ key. Ruled B.journal B.fixed B.by B.enters (B.fixed key.value) };

    ghost first = { λ key. first_view (B.journal key.value) (B.fixed key.value) };
}

/// Takes the turn, and the slot with it: a compare and exchange of word 0 from 0 to 1.
pub(crate) struct Take<B> {
    of: PhantomData<B>,
}

impl<B: Book> Play<Option<B>, View<B::Entry, B::Fixed>> for Take<B> {
    ghost then = { took B.journal B.fixed B.by B.enters };
}

/// Gives the turn back, and the slot with it: a store of 0 into word 0.
pub(crate) struct Give<B> {
    of: PhantomData<B>,
}

impl<B: Book> Play<Option<B>, View<B::Entry, B::Fixed>> for Give<B> {
    ghost then = { gave B.by B.enters };
}

/// The entry that a seat publishes. A step's operands are only numbers, so the call itself picks the entry, as a fact for the proof.
pub(crate) trait Says<E> {
    ghost use Rattle.std.specs.Prelude.{Option};

    ghost entry: { Option E };
}

impl<E> Says<E> for Brand {
    ghost use Rattle.std.specs.Prelude.{None};

    ghost entry = { None };
}

/// Publishes an entry: adds 1 to word 1.
pub(crate) struct Publish<B, N> {
    of: PhantomData<(B, N)>,
}

impl<B: Book, N: Says<B::Entry>> Play<Option<B>, View<B::Entry, B::Fixed>> for Publish<B, N> {
    ghost then = { published B.by B.enters N.entry };
}

/// Looks at the journal's length: a load of word 1.
pub(crate) struct Look<B> {
    of: PhantomData<B>,
}

impl<B: Book> Play<Option<B>, View<B::Entry, B::Fixed>> for Look<B> {
    ghost then = { looked B.by B.enters };
}

/// Splits off a new seat, which has seen as much and has no number.
pub(crate) struct Cut;

impl<E, F> Split<View<E, F>> for Cut {
    ghost left = { λ v. v };

    ghost right = { λ v. fresh_view v.fixed v.seen };
}

/// Joins a seat into another, and leaves it with nothing.
pub(crate) struct Meet;

impl<E, F> Join<View<E, F>> for Meet {
    ghost use Rattle.std.specs.Prelude.{None, []};

    ghost both = { joined };

    ghost spent = { fresh_view None [] };
}
