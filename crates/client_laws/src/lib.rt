//! Laws of the client besides those of its own crate, for proofs only.
#![tactic(auto)]

mod laws;

pub use laws::parts_are_joined;
