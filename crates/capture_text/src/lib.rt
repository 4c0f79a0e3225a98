//! The lines in which a capture is shown and checked.
//!
//! [`show_frame`] appends one line for a frame: where it begins, what it is, its session and its moment, and then its message with every
//! field by name, or the cause that refuses the message. [`check_frame`] appends a line for a message that is refused, and returns what the
//! frame is; [`write_counts`] appends the last line of a check.
//!
//! A message's body is shown from its tree: `value_text` of `specs/Values` descends the value and the schema's table together, and takes
//! the names of fields and messages from a table of its own, by the same places. [`names_fit`] says that the two tables match, and
//! [`one_text`] that different values of one schema have different texts.
#![tactic(auto)]

mod checking;
mod counting;
mod faults;
mod feeding;
mod laws;
mod names;
mod pieces;
mod points;
mod showing;
mod values;

pub use checking::{Checked, check_frame};
pub use counting::{Counts, write_counts};
pub use faults::put_fault;
pub use laws::{names_fit, one_piece, one_text};
pub use points::put_point;
pub use showing::show_frame;
