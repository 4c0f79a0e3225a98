//! The forms that list a capture: [`Show`] writes a line for each frame, [`Check`] one for each message that is refused, and at the end one
//! with the counts.
//!
//! What they write for whole lists of frames is `show_plan` and `check_plan` of `specs/Listing`; the lines are those of `capture_text`, and
//! `run_form` of `capture_run` runs them.
#![tactic(auto)]

mod listing;

pub use listing::{Check, Show};
