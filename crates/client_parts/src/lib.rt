//! What a client makes of parts: the parts of a long message put together, the changes of channels that a notice reports, and the points of an
//! interval.
//!
//! It proceeds message by message for each protocol; the client's machine is built on it.
#![tactic(auto)]

mod changes;
mod grouping;
mod joining;

pub use changes::{Run, channel_points, subscribe_changes};
pub use joining::{core_joined, dataspace_joined, load_joined, store_joined, subscribe_joined};
