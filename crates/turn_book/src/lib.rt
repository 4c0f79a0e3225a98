//! One book that many threads read and change in turns.
//!
//! A [`Book`] has a journal of entries, which only grows, and a fixed part. A [`TurnBook`] keeps one book where threads can reach it
//! through a `&`. Each of them has a [`Seat`], its handle to the book: a seat takes the turn, which is the lock, and has the book until it
//! gives it back, with at most one entry more.
//!
//! What a seat knows is its [`View`], which exists only in proofs. It grows at the seat's own steps and at no others, and the rule (`Ruled`
//! in `specs/Rules.antt`) ties the views of all seats to the one journal between any two steps. So what two seats learned can be compared
//! when one of them joins the other.
#![tactic(auto)]

mod book;
mod laws;
mod rule;
mod seat;
mod turn;
mod view;

pub use book::Book;
pub use laws::turn_is_with_one;
pub use seat::Seat;
pub use turn::TurnBook;
pub use view::{Met, View};
