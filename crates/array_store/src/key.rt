//! What names an array.
use etp_values::{Copied, NoMemory, StoreUri, Text};
use std::alloc::Global;

/// An array by the object that has it and its path in that object.
#[derive(Debug, Drop, PartialEq, Eq, PartialOrd, Ord, Hash)]
pub struct ArrayKey {
    pub uri: StoreUri,
    pub path: Text,
}

impl Copied for ArrayKey {
    fn copy(&self, alloc: Global) -> Result<ArrayKey, NoMemory> {
        Ok(ArrayKey {
            uri: self.uri.copy(alloc)?,
            path: self.path.copy(alloc)?,
        })
    }
}
