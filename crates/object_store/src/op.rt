//! What is done to the store.
use crate::keyed::{KeyedObject, KeyedSpace};
use etp_values::{StoreUri, Text};

/// One operation on the store. The time of one that sets a record is the record's `written`; its `created` is ignored.
#[derive(Debug, Drop)]
pub enum ObjectOp {
    /// Puts a dataspace, replacing the one with its path.
    SetSpace(KeyedSpace),
    /// Drops the dataspace with this path, and all objects in it.
    DropSpace(Text),
    /// Puts an object, replacing the one with its URI.
    SetObject(KeyedObject),
    /// Removes the object with this URI.
    DropObject(StoreUri),
}
