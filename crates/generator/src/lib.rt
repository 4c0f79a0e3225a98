//! A load for trying a server, the same in each run: eight sessions that take turns to send messages, each followed by a poll.
//!
//! Each session asks for its protocols, opens a channel for loading and subscribes to the next one. After that its messages load a point,
//! ping or replace a range of its channel, chosen by numbers that are drawn one from the other. [`Generator`] gives the frames of a capture
//! of a given number of messages, `frames` of `specs/Generator`; [`generator_config`] is the configuration with the eight channels.
#![tactic(auto)]

mod channels;
mod frames;
mod messages;

pub use channels::generator_config;
pub use frames::Generator;
