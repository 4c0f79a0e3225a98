//! Views of channels that are watched, and boards that show them.
//!
//! A [`View`] keeps points and numbers, changes them by a step of its own with each change of its channel, and shows them as lines.
//! [`Latest`], [`Window`] and [`Counts`] are views. A [`Board`] has views on shelves, each with the channel that it watches: a change of a
//! channel reaches the views of that channel and no others. Whoever sets up a board creates and boxes the views; the contracts of the board
//! describe any view by what it keeps, its step and its lines.
#![tactic(auto)]

mod board;
mod counts;
mod latest;
mod lines;
mod view;
mod window;

pub use board::{Board, Shelf};
pub use counts::Counts;
pub use latest::Latest;
pub use view::View;
pub use window::Window;
