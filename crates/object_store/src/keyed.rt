//! Records next to a copy of their key, as a table takes them.
ghost use Rattle.std.specs.Prelude.{◌≡◌, IfOk};

use crate::records::{ObjectRecord, SpaceRecord};
use etp_values::{Copied, NoMemory, StoreUri, Text};
use std::alloc::Global;
use std::marker::Model;

/// A dataspace's record with a copy of its path. A contract sees the record.
#[derive(Debug)]
pub struct KeyedSpace {
    path: Text,
    space: SpaceRecord,
}

/// Written out, so that whatever holds one drops it by a single call.
impl Drop for KeyedSpace {
    fn drop(self) {
        let KeyedSpace { path, space } = self;
        drop(path);
        drop(space);
    }
}

impl Model for KeyedSpace {
    ghost use Rattle.std.specs.Prelude.{◌≡◌};
    ghost use Rattle.object_store.specs.declared.records.SpaceRecord.{SpaceRecord};

    ghost Value = { SpaceRecord };

    ghost view = { λ k. k.space };

    ghost invariant = { λ k. k.path ≡ k.space.path };
}

impl KeyedSpace {
    /// This record, with a copy of its path.
    pub fn new(alloc: Global, space: SpaceRecord) -> Result<KeyedSpace, NoMemory>
        ensures { IfOk result (λ keyed. keyed ≡ space) }
    {
        let path = space.path.as_text().copy(alloc)?;
        Ok(KeyedSpace { path, space })
    }

    /// Borrows the record.
    pub fn as_record(&self) -> &SpaceRecord
        ensures { result.now ≡ self.now }
    {
        &self.space
    }

    /// The path and the record.
    pub(crate) fn into_parts(self) -> (Text, SpaceRecord)
        ensures path { result.0 ≡ self.path }
        ensures value { result.1 ≡ self }
    {
        let KeyedSpace { path, space } = self;
        (path, space)
    }
}

/// An object's record with a copy of its URI. A contract sees the record.
#[derive(Debug)]
pub struct KeyedObject {
    uri: StoreUri,
    object: ObjectRecord,
}

/// Written out, so that whatever holds one drops it by a single call.
impl Drop for KeyedObject {
    fn drop(self) {
        let KeyedObject { uri, object } = self;
        drop(uri);
        drop(object);
    }
}

impl Model for KeyedObject {
    ghost use Rattle.std.specs.Prelude.{◌≡◌};
    ghost use Rattle.object_store.specs.declared.records.ObjectRecord.{ObjectRecord};

    ghost Value = { ObjectRecord };

    ghost view = { λ k. k.object };

    ghost invariant = { λ k. k.uri ≡ k.object.uri };
}

impl KeyedObject {
    /// This record, with a copy of its URI.
    pub fn new(alloc: Global, object: ObjectRecord) -> Result<KeyedObject, NoMemory>
        ensures { IfOk result (λ keyed. keyed ≡ object) }
    {
        let uri = object.uri.copy(alloc)?;
        Ok(KeyedObject { uri, object })
    }

    /// Borrows the record.
    pub fn as_record(&self) -> &ObjectRecord
        ensures { result.now ≡ self.now }
    {
        &self.object
    }

    /// The URI and the record.
    pub(crate) fn into_parts(self) -> (StoreUri, ObjectRecord)
        ensures uri { result.0 ≡ self.uri }
        ensures value { result.1 ≡ self }
    {
        let KeyedObject { uri, object } = self;
        (uri, object)
    }
}
