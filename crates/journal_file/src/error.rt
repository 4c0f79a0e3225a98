//! Why a journal's file is refused.
ghost use Rattle.std.specs.Prelude.{◌≡◌};
ghost use Rattle.journal_file.specs.declared.error.JournalError.TheVariants as Why;

use etp_values::NoMemory;
use std::alloc::AllocError;
use thiserror::Error;

/// Why a journal can't be created, opened or appended to.
#[derive(Clone, Copy, Debug, PartialEq, Eq, Error)]
pub enum JournalError {
    /// The file has fewer than 25 bytes, or does not begin with `ETPJRN01`: it is another file, or it was not created completely.
    #[error("the file is not a journal")]
    Magic,
    /// It is the journal of another instance.
    #[error("the file is the journal of another instance")]
    Instance,
    /// The gate at this place is open, and no entry follows it: the file was damaged, or is an incomplete copy.
    #[error("no entry at byte {0}")]
    Entry(u64),
    /// The next gate would be past byte 2^62. The file is as before.
    #[error("the journal is full")]
    TooLong,
    /// The disk failed. The file has to be opened again before anything is appended.
    #[error("the disk failed")]
    DiskFault,
    /// Out of memory. The file is as before.
    #[error("out of memory")]
    NoMemory,
}

impl From<NoMemory> for JournalError {
    ghost from_gives = { λ _ e. e ≡ Why.NoMemory };

    fn from(_: NoMemory) -> Self {
        JournalError::NoMemory
    }
}

impl From<AllocError> for JournalError {
    ghost from_gives = { λ _ e. e ≡ Why.NoMemory };

    fn from(_: AllocError) -> Self {
        JournalError::NoMemory
    }
}
