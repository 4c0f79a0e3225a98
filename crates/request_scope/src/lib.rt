//! What a request may touch and see within the transaction that is open in its session, if one is.
//!
//! The keys of a request are taken one after the other, and pass a [`Scope`] on: the open transaction, and how much payload they have
//! counted so far. [`scoped_reply`] is the second half of a request whose keys do so.
#![tactic(auto)]

mod finding;
mod reply;
mod staging;
mod within;

pub use finding::refused_look;
pub use reply::{Answered, scoped_reply};
pub use staging::refusal_code;
pub use within::{Scope, is_read_only, may_use};
