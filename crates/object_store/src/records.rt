//! What is kept of a dataspace and of an object.
use etp_values::{Blob, Copied, DataValue, List, Named, NoMemory, SpacePath, StoreUri, Text};
use std::alloc::Global;

/// A dataspace. Moments are microseconds since 1970-01-01 UTC.
#[derive(Debug, Drop, PartialEq, Eq)]
pub struct SpaceRecord {
    /// The path, empty for the default dataspace.
    pub path: SpacePath,
    /// When it was last put.
    pub written: i64,
    /// When it was first put, since it was last dropped.
    pub created: i64,
    pub custom: Named<DataValue>,
}

/// An object. Moments are microseconds since 1970-01-01 UTC.
#[derive(Debug, Drop, PartialEq, Eq)]
pub struct ObjectRecord {
    pub uri: StoreUri,
    /// Other URIs of the object, as its client wrote them.
    pub others: List<Text>,
    pub name: Text,
    /// When the object last changed, according to its client.
    pub changed: i64,
    /// Whether the object is being written to: 0 or 1.
    pub active: u32,
    pub custom: Named<DataValue>,
    /// The format of `payload`, such as `xml`.
    pub format: Text,
    pub payload: Blob,
    /// When it was last put.
    pub written: i64,
    /// When it was first put, since it was last removed.
    pub created: i64,
}

impl Copied for SpaceRecord {
    fn copy(&self, alloc: Global) -> Result<SpaceRecord, NoMemory> {
        Ok(SpaceRecord {
            path: self.path.copy(alloc)?,
            written: self.written,
            created: self.created,
            custom: self.custom.copy(alloc)?,
        })
    }
}

impl Copied for ObjectRecord {
    fn copy(&self, alloc: Global) -> Result<ObjectRecord, NoMemory> {
        Ok(ObjectRecord {
            uri: self.uri.copy(alloc)?,
            others: self.others.copy(alloc)?,
            name: self.name.copy(alloc)?,
            changed: self.changed,
            active: self.active,
            custom: self.custom.copy(alloc)?,
            format: self.format.copy(alloc)?,
            payload: self.payload.copy(alloc)?,
            written: self.written,
            created: self.created,
        })
    }
}
