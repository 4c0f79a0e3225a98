//! The limits of a transaction.

/// The greatest number of operations of a transaction.
pub const MAX_OPERATIONS: usize = 4_096;

/// The greatest number of bytes that its operations count.
pub const MAX_STAGED_BYTES: u64 = 67_108_864;

/// The greatest number of keys that it touches.
pub const MAX_TOUCHED: usize = 16_384;
