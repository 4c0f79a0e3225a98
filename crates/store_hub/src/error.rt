//! Why a session is not let in.
use thiserror::Error;

/// Why a session is not let in. No entry was added.
#[derive(Clone, Copy, Debug, PartialEq, Eq, Error)]
pub enum EnterError {
    /// The journal has no room for another entry, and never will.
    #[error("the journal is full")]
    JournalFull,
    /// Out of memory.
    #[error("out of memory")]
    NoMemory,
}
