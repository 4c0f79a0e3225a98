//! What is stored of an array.
use etp_values::{AnyArray, Copied, DataValue, List, Named, NoMemory};
use std::alloc::Global;

/// An array. Its elements are in the order of their indexes, which are compared from the first dimension on.
#[derive(Debug, Drop, PartialEq, Eq)]
pub struct ArrayRecord {
    pub dims: List<i64>,
    /// The dimensions in which readers should ask for regions; none, or as many as `dims`. The store keeps them as they are.
    pub preferred: List<i64>,
    pub values: AnyArray,
    /// What the elements mean to those who wrote them, by its index among the profile's logical types.
    pub logical: u32,
    pub custom: Named<DataValue>,
    pub written: i64,
    pub created: i64,
}

impl Copied for ArrayRecord {
    fn copy(&self, alloc: Global) -> Result<ArrayRecord, NoMemory> {
        Ok(ArrayRecord {
            dims: self.dims.copy(alloc)?,
            preferred: self.preferred.copy(alloc)?,
            values: self.values.copy(alloc)?,
            logical: self.logical,
            custom: self.custom.copy(alloc)?,
            written: self.written,
            created: self.created,
        })
    }
}
