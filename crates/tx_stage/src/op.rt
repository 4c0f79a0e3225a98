//! What the action at a key counts.
ghost use Rattle.std.specs.Prelude.{◌≡◌};
ghost use Rattle.tx_stage.specs.Ops.{suits, takes_along, op_alters};
ghost use Rattle.tx_stage.specs.Keys.{is_array_of};

use crate::key::Key;
use array_store::{ArrayRecord, record_refusal};
use etp_values::{AnyArray, Copied, List, NoMemory};
use object_store::ObjectRecord;
use std::alloc::Global;

/// What an operation does. The times of writing and creation in a record are ignored.
#[derive(Debug, Drop, PartialEq, Eq)]
pub enum OpWhat {
    /// Sets an object, in place of the one with its key.
    SetObject(ObjectRecord),
    /// Sets an array, in place of the one with its key.
    SetArray(ArrayRecord),
    /// Writes values into a region of an array.
    Patch {
        starts: List<i64>,
        counts: List<i64>,
        values: AnyArray,
    },
    /// Removes an object, and its arrays.
    Gone,
}

/// An operation at a key, and its time.
#[derive(Debug, Drop, PartialEq, Eq)]
pub struct Op {
    pub key: Key,
    pub what: OpWhat,
    pub at: i64,
}

impl Op {
    /// Whether the operation suits its key. One that doesn't alters nothing.
    pub fn suits(&self) -> bool
        ensures { result ≡ suits self.now.key self.now.what }
    {
        match &self.what {
            OpWhat::SetObject(object) => match &self.key {
                Key::Space(_) => false,
                Key::Object(uri) => uri.same(&object.uri),
                Key::Array(_) => false,
            },
            OpWhat::SetArray(array) => match &self.key {
                Key::Space(_) => false,
                Key::Object(_) => false,
                Key::Array(_) => record_refusal(array).is_none(),
            },
            OpWhat::Patch { .. } => match &self.key {
                Key::Space(_) => false,
                Key::Object(_) => false,
                Key::Array(_) => true,
            },
            OpWhat::Gone => match &self.key {
                Key::Space(_) => false,
                Key::Object(_) => true,
                Key::Array(_) => false,
            },
        }
    }

    /// Whether the operation alters a key: its own, and for a removed object each of its arrays.
    pub fn alters(&self, key: &Key) -> bool
        ensures { result ≡ op_alters self.now key.now }
    {
        self.suits() && (key.same(&self.key) || self.takes_along(key))
    }

    /// Whether a removal takes along a key that is an array of the removed object.
    fn takes_along(&self, key: &Key) -> bool
        ensures { result ≡ takes_along self.now.key self.now.what key.now }
    {
        match &self.what {
            OpWhat::SetObject(_) => false,
            OpWhat::SetArray(_) => false,
            OpWhat::Patch { .. } => false,
            OpWhat::Gone => is_array_of(&self.key, key),
        }
    }
}

/// Whether the second key is an array of the object that the first one is.
fn is_array_of(object: &Key, key: &Key) -> bool
    ensures { result ≡ is_array_of object.now key.now }
{
    match object {
        Key::Space(_) => false,
        Key::Object(uri) => match key {
            Key::Space(_) => false,
            Key::Object(_) => false,
            Key::Array(array) => uri.same(&array.uri),
        },
        Key::Array(_) => false,
    }
}

impl Copied for OpWhat {
    fn copy(&self, alloc: Global) -> Result<OpWhat, NoMemory> {
        match self {
            OpWhat::SetObject(object) => Ok(OpWhat::SetObject(object.copy(alloc)?)),
            OpWhat::SetArray(array) => Ok(OpWhat::SetArray(array.copy(alloc)?)),
            OpWhat::Patch {
                starts,
                counts,
                values,
            } => Ok(OpWhat::Patch {
                starts: starts.copy(alloc)?,
                counts: counts.copy(alloc)?,
                values: values.copy(alloc)?,
            }),
            OpWhat::Gone => Ok(OpWhat::Gone),
        }
    }
}

impl Copied for Op {
    fn copy(&self, alloc: Global) -> Result<Op, NoMemory> {
        Ok(Op {
            key: self.key.copy(alloc)?,
            what: self.what.copy(alloc)?,
            at: self.at,
        })
    }
}
