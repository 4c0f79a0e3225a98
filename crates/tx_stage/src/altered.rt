//! The keys that operations alter, to be found.
ghost use Rattle.std.specs.Prelude.{◌≡◌, ◌<◌, Some, None, OnOk, OnErr, nat_eq};
ghost use Rattle.std.specs.Option.{option_copied};
ghost use Rattle.indexmap.specs.IndexSet.{insert_key, spare};
ghost use Rattle.tx_stage.specs.Altered as altered;

use crate::key::Key;
use crate::op::{Op, OpWhat};
use etp_values::{NoMemory, StoreUri};
use indexmap::IndexSet;
use std::alloc::Global;
use std::hash::{FoldHasher, Hash, Hasher};
use std::marker::Model;

/// The keys that operations alter, by their hashes, so that no key is kept a second time. However many operations there are, it is known at
/// once that none of them alters a key whose hash is not there. Another key may have the hash of one that they alter.
#[derive(Drop)]
pub(crate) struct AlteredKeys {
    /// The hashes of the operations' own keys.
    own: IndexSet<u64>,
    /// Those of the objects that an operation removes, each with its arrays.
    gone: IndexSet<u64>,
}

impl Model for AlteredKeys {
    ghost Value = { altered.Altered };

    ghost view = { λ s. record { own = s.own.keys; gone = s.gone.keys } };
}

#[tactic(auto, unfolding(crate::specs::Altered::hashed))]
fn hash_of<T: Hash>(value: &T) -> u64
    ensures { result ≡ altered.hashed (T.hash_input value.now) }
{
    let mut state = FoldHasher::default();
    value.hash(&mut state);
    state.finish()
}

fn key_hash(key: &Key) -> u64
    ensures { result ≡ altered.key_hash key.now }
{
    hash_of(key)
}

fn object_hash(uri: &StoreUri) -> u64
    ensures { result ≡ altered.object_hash uri.now }
{
    hash_of(uri)
}

/// The object that an operation removes.
fn removed(op: &Op) -> Option<&StoreUri>
    ensures { option_copied result ≡ altered.removed op.now.key op.now.what }
{
    match &op.what {
        OpWhat::SetObject(_) => None,
        OpWhat::SetArray(_) => None,
        OpWhat::Patch { .. } => None,
        OpWhat::Gone => removed_at(&op.key),
    }
}

/// The object that a removal at a key removes.
fn removed_at(key: &Key) -> Option<&StoreUri>
    ensures { option_copied result ≡ altered.removed_at key.now }
{
    match key {
        Key::Space(_) => None,
        Key::Object(uri) => Some(uri),
        Key::Array(_) => None,
    }
}

/// Adds a hash to hashes that have room for it.
fn insert_reserved(own: &mut IndexSet<u64>, hash: u64)
    requires { 0 < spare own.old }
    ensures { own.new.keys ≡ insert_key nat_eq own.old.keys hash }
{
    let _ = own.insert(hash);
}

impl AlteredKeys {
    /// Those of no operation.
    pub(crate) fn new(alloc: Global) -> AlteredKeys
        ensures { result ≡ altered.nothing }
    {
        AlteredKeys {
            own: IndexSet::new(alloc),
            gone: IndexSet::new(alloc),
        }
    }

    /// Whether an operation may alter a key.
    pub(crate) fn has(&self, key: &Key) -> bool
        ensures { result ≡ altered.may_alter self.now key.now }
    {
        self.own.contains(&key_hash(key)) || self.takes_along(key)
    }

    /// Whether a key may be an array of an object that an operation removes.
    fn takes_along(&self, key: &Key) -> bool
        ensures { result ≡ altered.is_array_of_any self.now.gone key.now }
    {
        match key {
            Key::Space(_) => false,
            Key::Object(_) => false,
            Key::Array(array) => self.gone.contains(&object_hash(&array.uri)),
        }
    }

    /// Adds what one more operation alters.
    pub(crate) fn add(&mut self, op: &Op) -> Result<(), NoMemory>
        ensures ok { OnOk result (self.new ≡ altered.with_op self.old op.now) }
        ensures err { OnErr result (self.new ≡ self.old) }
    {
        let own = key_hash(&op.key);
        match removed(op) {
            None => self.add_own(own),
            Some(uri) => self.add_gone(own, object_hash(uri)),
        }
    }

    fn add_own(&mut self, own: u64) -> Result<(), NoMemory>
        ensures ok { OnOk result (self.new ≡ altered.with_hashes self.old own None) }
        ensures err { OnErr result (self.new ≡ self.old) }
    {
        self.own.insert(own)?;
        Ok(())
    }

    fn add_gone(&mut self, own: u64, gone: u64) -> Result<(), NoMemory>
        ensures ok { OnOk result (self.new ≡ altered.with_hashes self.old own (Some gone)) }
        ensures err { OnErr result (self.new ≡ self.old) }
    {
        self.own.reserve(1)?;
        self.gone.insert(gone)?;
        insert_reserved(&mut self.own, own);
        Ok(())
    }
}
