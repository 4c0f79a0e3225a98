//! Laws of captures that are played, which no program calls.
#![tactic(auto)]

mod laws;

pub use laws::uncommitted_is_unplayed;
