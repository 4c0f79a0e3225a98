//! Why a configuration is refused.
ghost use Rattle.std.specs.Prelude.{◌≡◌};

use etp_values::NoMemory;
use std::alloc::{AllocError, AllocFailed};
use thiserror::Error;

/// The first reason, in the order of the variants: the whole file, the keys of the server by number, and then each channel; the first
/// channel is number 1.
#[derive(Clone, Copy, Debug, PartialEq, Eq, Error)]
pub enum DefsError {
    /// The file has more than 1,048,576 bytes.
    #[error("the configuration has more than 1048576 bytes")]
    TooLong,
    /// The file is not a TOML 1.1 document.
    #[error("the configuration is not a TOML 1.1 document")]
    Toml,
    /// A key is missing or malformed. The channel is 0 for the keys of the server.
    #[error("key {key} of channel {channel} is missing or malformed")]
    Key { channel: u64, key: u8 },
    /// There are more than 4,096 channels.
    #[error("there are more than 4096 channels")]
    TooMany,
    /// The URI is not an object's.
    #[error("the URI of channel {channel} is not an object's")]
    Uri { channel: u64 },
    /// The kind is not one of the seven.
    #[error("the kind of channel {channel} is not one of the seven")]
    Kind { channel: u64 },
    /// An earlier channel has the URI.
    #[error("channel {channel} has the URI of an earlier one")]
    DoubleUri { channel: u64 },
    /// Out of memory.
    #[error("out of memory")]
    NoMemory,
}

impl From<NoMemory> for DefsError {
    ghost use Rattle.chan_defs.specs.declared.error.DefsError.{DefsError};

    ghost from_gives = { λ _ e. e ≡ DefsError.NoMemory };

    fn from(_error: NoMemory) -> DefsError {
        DefsError::NoMemory
    }
}

impl From<AllocError> for DefsError {
    ghost use Rattle.chan_defs.specs.declared.error.DefsError.{DefsError};

    ghost from_gives = { λ _ e. e ≡ DefsError.NoMemory };

    fn from(_error: AllocError) -> DefsError {
        DefsError::NoMemory
    }
}

impl<T: Drop> From<AllocFailed<T>> for DefsError {
    ghost use Rattle.chan_defs.specs.declared.error.DefsError.{DefsError};

    ghost from_gives = { λ _ e. e ≡ DefsError.NoMemory };

    fn from(_error: AllocFailed<T>) -> DefsError {
        DefsError::NoMemory
    }
}
