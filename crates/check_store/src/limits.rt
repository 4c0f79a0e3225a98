//! The limits of the store and of what it depends on, as text.
use array_store::{MAX_BYTES, MAX_ELEMENTS, MAX_RANK};
use channel_store::MAX_INDEX;
use std::io;
use store_machine::{
    MAX_CHANGE_BYTES, MAX_CHANGES, MAX_JOURNAL_BYTES, MAX_POINT_BYTES, MAX_POINTS,
};
use tx_stage::{MAX_OPERATIONS, MAX_PAYLOAD, MAX_STAGED_BYTES, MAX_TOUCHED};

/// The limits by their names.
const LIMITS: [(&str, u64); 13] = [
    ("index", MAX_INDEX as u64),
    ("rank", MAX_RANK as u64),
    ("elements", MAX_ELEMENTS),
    ("element bytes", MAX_BYTES),
    ("operations", MAX_OPERATIONS as u64),
    ("touched keys", MAX_TOUCHED as u64),
    ("staged bytes", MAX_STAGED_BYTES),
    ("payload", MAX_PAYLOAD),
    ("journal bytes", MAX_JOURNAL_BYTES),
    ("changes", MAX_CHANGES as u64),
    ("change bytes", MAX_CHANGE_BYTES),
    ("points", MAX_POINTS),
    ("point bytes", MAX_POINT_BYTES),
];

/// Prints a line for each.
pub(crate) fn print_limits(rt: &HostRuntime) -> io::Result<()> {
    for (name, limit) in LIMITS {
        println!(rt; "{name} {limit}")?;
    }
    Ok(())
}
