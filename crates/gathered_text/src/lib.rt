//! A text that is gathered and written in large parts.
//!
//! Whoever has a long text to write appends it piece by piece to a `Vec`, calls [`pass_on`] after each piece, which writes what was
//! gathered once there is enough, and in the end [`finish`], which writes what is left. `Going` of `specs/Writing` says this for every text
//! that begins this way: it is what was written, what is gathered, and a rest. [`Wrote`] says what came of it.
#![tactic(auto)]

mod writing;

pub use writing::{Wrote, finish, pass_on, write_text};
