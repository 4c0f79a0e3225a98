//! One run over the frames of a capture, for any form of the tool.
//!
//! A [`Form`] takes one frame at a time and appends what is to be written for it, or refuses it; its `plan` says what that results in for
//! whole lists of frames. [`run_form`] reads a capture frame by frame, passes each to the form, gathers what is to be written and writes it
//! in large pieces, until something makes it [`Stop`]. `Runs` of `specs/Running` says for each stop what of the input was read and what was
//! written; [`run_form`] returns the stop's [`Status`](etp_outside::Status).
//!
//! It holds one frame at a time, and what it has gathered.
#![tactic(auto)]

mod form;
mod laws;
mod running;

pub use form::{Form, Stop, status_of, stop_for};
pub use laws::run_stops_once;
pub use running::run_form;
