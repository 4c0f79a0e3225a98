//! What the requests of the DataArray protocol are answered.
//!
//! [`array_outcome`] and [`array_reply`] are the two halves of a request: the first returns a call of the store with what the store's
//! answer is to be joined with, or the reply if no key is granted. Outside a transaction arrays are read, put and patched at once; in one
//! each request makes a single look, and its changes are staged when that is answered.
#![tactic(auto)]

mod arrays;
mod changing;
mod making;
mod metadata;
mod naming;
mod patching;
mod putting;
mod reading;
mod sizes;
mod slicing;

pub use arrays::{ArrayOutcome, ArrayPending, array_outcome, array_reply};
pub use changing::{ArrayChange, ArrayPatch, ArrayPut};
pub use making::MAX_MADE_BYTES;
pub use naming::{MAX_ARRAY_PATH_LEN, Region};
pub use sizes::MAX_CUSTOM_SIZE;
