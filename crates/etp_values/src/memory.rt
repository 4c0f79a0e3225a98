//! Running out of memory: the one error that any call that allocates may return.
use std::alloc::{AllocError, AllocFailed};
use thiserror::Error;

/// Allocation failed. The call that returns this leaves everything as it does with its other errors.
#[derive(Clone, Copy, Debug, PartialEq, Eq, Drop, Error)]
#[error("out of memory")]
pub struct NoMemory;

impl From<AllocError> for NoMemory {
    fn from(_error: AllocError) -> NoMemory {
        NoMemory
    }
}

impl<T: Drop> From<AllocFailed<T>> for NoMemory {
    fn from(_error: AllocFailed<T>) -> NoMemory {
        NoMemory
    }
}
