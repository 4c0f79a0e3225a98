//! A journal in a file, whose entries survive a crash at any moment.
//!
//! A file is `ETPJRN01`, the 16 bytes of the instance's id, and for each entry a gate byte 1, the length of its spelling in 8 bytes,
//! highest first, and the spelling; then a gate that is not 1, and any bytes, which do not count (`specs/Layout`). A
//! [`JournalFile`] is such a file on a [`Disk`](journal_disk::Disk). It appends after the last gate: everything but that gate is
//! synced first, and then the gate. Whatever a crash leaves in the one byte of the gate, the file has the earlier entries, with
//! all of those that are being appended or with none of them.
//!
//! An entry is its spelling here, a list of bytes.
#![tactic(auto)]

mod error;
mod file;
mod format;
mod gate;
mod laws;
mod opening;
mod reading;

pub use error::JournalError;
pub use file::JournalFile;
pub use laws::one_reading;
