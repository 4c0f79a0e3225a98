//! What is done to the store.
use crate::key::ArrayKey;
use crate::weighed::WeighedArray;
use etp_values::{AnyArray, List, StoreUri, Text};

/// One operation on the store.
#[derive(Debug, Drop)]
pub enum ArrayOp {
    /// Puts an array, replacing the one with its key. A record that is not an array changes nothing. The time is the record's `written`;
    /// its `created` is ignored.
    SetArray(ArrayKey, WeighedArray),
    /// Moves values into a region of the array with a key, in place, and notes the time. It does not allocate: an array of bytes, whose
    /// patch would, stays as it is. So does one that the patch doesn't fit, and if there is no array, there is none after it.
    PatchArray {
        key: ArrayKey,
        at: i64,
        starts: List<i64>,
        counts: List<i64>,
        values: AnyArray,
    },
    /// Removes the arrays of an object.
    DropArraysOf(StoreUri),
    /// Removes the arrays of a dataspace.
    DropArraysIn(Text),
}
