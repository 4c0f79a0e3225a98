//! The forms of the tool: captures that are replayed, shown and checked, and loads that are made and played.
//!
//! - `replay CONFIG` reads a server's configuration from the file CONFIG and a capture from its input: each tag of the capture is
//!   a session over one store, and what the sessions answer is written to the output as a capture.
//! - `show` writes a line for each frame of the capture in its input.
//! - `check` writes a line for each of its messages that is refused, and then how many frames, messages and refused messages
//!   there were.
//! - `capture N` writes the capture of a load of N messages, 24 to 1,000,000, and `generate N` plays it and writes how many messages,
//!   sessions, entries and answers that results in.
//!
//! [`run_tool`] does that over any host, source and sink; what it promises is in `specs/Top`. [`run_program`] does it over the
//! system, and is all that a `main` calls.
//!
//! [`run_form`](capture_run::run_form) runs each form over the frames of its input. What is written for a list of frames is
//! `replay_plan` of `specs/Replay`, over `play` of `specs/Play`, or `show_plan` or `check_plan` of `capture_listing`. A replay
//! continues through `player`, the sessions by their tags, and `turns`, one frame on its session and the store.
#![tactic(auto)]

mod command;
mod laws;
mod load;
mod player;
mod program;
mod replay;
mod run;
mod tag;
mod turns;

pub use laws::{input_has_one_answer, tags_are_runs};
pub use program::{finish, run_program};
pub use run::run_tool;
