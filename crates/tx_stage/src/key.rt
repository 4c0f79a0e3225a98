//! The keys of the store's values.
ghost use Rattle.std.specs.Prelude.{◌≡◌};
ghost use Rattle.std.specs.Cmp.{partial_equiv_from_equiv};
ghost use Rattle.tx_stage.specs.Keys.{same_key, space_of};
ghost use Rattle.tx_stage.specs.SameKey.{same_key-equiv};

use array_store::ArrayKey;
use etp_values::{Copied, NoMemory, StoreUri, Text};
use std::alloc::Global;

/// A dataspace by its path, an object by its URI, or an array by its object and its path in that.
#[derive(Debug, Drop, Hash)]
pub enum Key {
    Space(Text),
    Object(StoreUri),
    Array(ArrayKey),
}

impl Key {
    /// Whether two keys are equal.
    pub fn same(&self, other: &Key) -> bool
        ensures { result ≡ same_key self.now other.now }
    {
        *self == *other
    }

    /// The path of the dataspace that it is or belongs to.
    pub fn space(&self) -> &Text
        ensures { result.now ≡ space_of self.now }
    {
        match self {
            Key::Space(path) => path,
            Key::Object(uri) => &uri.space,
            Key::Array(key) => &key.uri.space,
        }
    }
}

impl PartialEq for Key {
    ghost eq = { same_key };

    ghost laws = { partial_equiv_from_equiv same_key-equiv };

    fn eq(&self, other: &Key) -> bool {
        match (self, other) {
            (Key::Space(path), Key::Space(of)) => path == of,
            (Key::Object(uri), Key::Object(of)) => uri == of,
            (Key::Array(key), Key::Array(of)) => key == of,
            _ => false,
        }
    }
}

impl Eq for Key {
    ghost laws = { same_key-equiv };
}

impl Copied for Key {
    fn copy(&self, alloc: Global) -> Result<Key, NoMemory> {
        match self {
            Key::Space(path) => Ok(Key::Space(path.copy(alloc)?)),
            Key::Object(uri) => Ok(Key::Object(uri.copy(alloc)?)),
            Key::Array(key) => Ok(Key::Array(key.copy(alloc)?)),
        }
    }
}
