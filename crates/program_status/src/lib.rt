//! How a program begins and ends: its words, the line that says how it ended, and its exit status.
//!
//! [`words`] returns the words after the program's name. [`finish`] writes the line of a [`Status`](etp_outside::Status) and returns the
//! exit status for `main` to end with. Each program has its own usage text, which follows the line if the command line is malformed.
#![tactic(auto)]

mod command_line;
mod telling;

pub use command_line::words;
pub use telling::finish;
