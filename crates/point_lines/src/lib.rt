//! Lines of an input, and the points written in them.
//!
//! [`Lines`] reads an input of any length line by line. [`point_in`] reads a line as a point of a channel of some kind: `INDEX VALUE`.
//! [`lines_of`] writes such lines. [`positive_in`] and [`long_in`] read numbers of a command line.
#![tactic(auto)]

mod kinds;
mod laws;
mod lines;
mod marks;
mod numerals;
mod points;
mod spelling;

pub use laws::lines_are_read;
pub use lines::{Advance, Lines, MAX_LINE_LEN};
pub use numerals::positive_in;
pub use points::{long_in, point_in};
pub use spelling::lines_of;
