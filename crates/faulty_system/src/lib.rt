//! A system on which a program meets what the real one can't be made to do in a test.
//!
//! A [`FaultySystem`] has words of its own and the memory of the process. Its input is a capture of one frame, opening a file runs out of
//! memory, and its output takes nothing.
#![tactic(auto)]

mod system;

pub use system::FaultySystem;
