//! What the tool needs to make a load and to summarize what answers it.
//!
//! [`write_load`] writes the capture of a load, [`count_answers`] counts the messages among the frames that answer one, and
//! [`push_summary`] appends the lines of a summary. What [`write_load`] writes is a capture ([`loads_are_captures`]).
#![tactic(auto)]

mod laws;
mod summary;
mod tally;
mod writing;

pub use laws::loads_are_captures;
pub use summary::push_summary;
pub use tally::{Tally, count_answers};
pub use writing::write_load;
