//! What follows from the rule, for a reader.
ghost use Rattle.turn_book.specs.Laws.{TurnIsWithOne};

use crate::book::Book;

/// In each state that satisfies the rule the first word says whether the book is at home or with exactly one seat, and the second how many
/// entries its journal has.
pub fn turn_is_with_one<B: Book>()
    ensures { TurnIsWithOne B.journal B.fixed B.by B.enters }
{}
