//! Why a change does not happen.
use channel_store::ChannelError;
use etp_values::NoMemory;
use std::alloc::{AllocError, AllocFailed};

#[derive(Clone, Copy, Debug, PartialEq, Eq)]
pub(crate) enum FeedError {
    /// There are no more places for changes.
    Full,
    /// The store refuses it.
    Refused(ChannelError),
    /// Out of memory.
    NoMemory,
}

impl From<ChannelError> for FeedError {
    fn from(error: ChannelError) -> FeedError {
        FeedError::Refused(error)
    }
}

impl From<NoMemory> for FeedError {
    fn from(_error: NoMemory) -> FeedError {
        FeedError::NoMemory
    }
}

impl From<AllocError> for FeedError {
    fn from(_error: AllocError) -> FeedError {
        FeedError::NoMemory
    }
}

impl<T: Drop> From<AllocFailed<T>> for FeedError {
    fn from(_error: AllocFailed<T>) -> FeedError {
        FeedError::NoMemory
    }
}
