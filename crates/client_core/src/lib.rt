//! The client of a store, as a pure machine.
//!
//! [`Client`] is what a program keeps that asks a server. Asks and moments go in by [`Client::ask`], and the bytes of messages by
//! [`Client::take`]; answers and changes come out of `take`, and the bytes to send come out of [`Client::next_out`]. It opens no socket and
//! reads no clock, so each of its calls is a step of the machine that `specs/Asking` and `specs/Taking` define.
#![tactic(auto)]

mod answers;
mod ask;
mod asks;
mod channels;
mod client;
mod got;
mod hearing;
mod joining;
mod laws;
mod messages;
mod notices;
mod numbering;
mod state;
mod taking;

pub use ask::Ask;
pub use client::Client;
pub use got::{ClientError, Got, Space};
pub use laws::copies_are_folds;
pub use state::{Asked, Channel, Due, Kept, Phase};
