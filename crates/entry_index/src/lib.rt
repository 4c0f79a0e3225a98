//! The entries of a journal in which a key occurs.
//!
//! An [`EntryIndex`] knows at which places each key was noted. It finds the first of them from a given place on by going back from the
//! latest in jumps: that costs the logarithm of how often the key was noted. It marks all of them from a place on at the cost of their
//! number. Neither costs more if the journal is long.
#![tactic(auto)]

mod chains;
mod index;
mod laws;

pub use index::EntryIndex;
pub use laws::place_laws;
