//! Laws of a session's machine that no program calls: what a transaction asks before its commit, that what serial transactions require can
//! be met, and which reply begins a subscription.
#![tactic(auto)]

mod laws;

pub use laws::{serial_is_met, staged, subscriptions_are_replied};
