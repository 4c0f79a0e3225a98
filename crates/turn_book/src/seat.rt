//! A thread's seat at a book.
ghost use Rattle.std.specs.Prelude.{◌≡◌};
ghost use Rattle.turn_book.specs.Hands.{hand_of, held_len};

use crate::book::Book;
use crate::view::View;

/// A seat at the book that it came from. While it has the turn it remembers how long the journal was when it took it.
#[derive(Drop)]
pub struct Seat<B: Book> {
    pub(crate) seat: atomic_table::Seat<Option<B>, View<B::Entry, B::Fixed>>,
    pub(crate) taken: u64,
    ghost hand: { seat.me.1 ≡ hand_of seat.me.0.held },
    ghost length: { held_len seat.me.0.held taken ≡ taken },
}
