//! The frames of a WebSocket connection (RFC 6455, section 5), with no socket: bytes come in, and messages, answers and breaches come out.
//!
//! [`Frames`] holds what has come and was not taken. [`Frames::next`] takes one look at it: it returns a message, a breach with the code of
//! the Close frame that answers it ([`Breach::code`]), or that more has to come ([`Arrival`]). What a look returns is `look` of
//! `specs/Reading.antt`, a function of what was known before, so a frame is reported exactly if the bytes hold one, and a breach exactly
//! if they break a rule of the standard. What has come of an incomplete frame is taken at once, so that a connection keeps no more than
//! one message and one read.
#![tactic(auto)]

mod arrival;
mod breach;
mod buffer;
mod coming;
mod frames;
mod input;
mod laws;
mod utf8;

pub use arrival::Arrival;
pub use breach::Breach;
pub use coming::MAX_MESSAGE;
pub use frames::Frames;
pub use input::Filled;
pub use laws::{data_frame_is_taken, payload_may_be_cut, pieces_are_joined};
