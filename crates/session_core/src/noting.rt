//! In a transaction the keys that a request looks at are noted, before what was found there is used.
ghost use Rattle.std.specs.Prelude.{◌≡◌, ◌++◌, IfOk, IsOk, OnOk, Some, drop, map, take};
ghost use Rattle.session_core.specs.Noting.{found_by, found_noted, key_refusal, keys_in, note, note_all, noting, reply_noted};
ghost use Rattle.tx_stage.specs.Looks.{key_of};

use etp_values::{Copied, ErrorCode, List, NoMemory};
use request_scope::refusal_code;
use std::alloc::Global;
use std::collections::VecDeque;
use store_machine::{Looked, Reply, StoreCall, Want};
use tx_stage::{Key, Stage};

/// The key that is looked at.
fn key_of(alloc: Global, want: &Want) -> Result<Key, NoMemory>
    ensures { IfOk result (λ key. key ≡ key_of want.now) }
{
    match want {
        Want::Space(path) => Ok(Key::Space(path.copy(alloc)?)),
        Want::Known(uri) => Ok(Key::Object(uri.copy(alloc)?)),
        Want::Object(uri) => Ok(Key::Object(uri.copy(alloc)?)),
        Want::Array(key) => Ok(Key::Array(key.copy(alloc)?)),
        Want::Slice { key, .. } => Ok(Key::Array(key.copy(alloc)?)),
        Want::Shape(key) => Ok(Key::Array(key.copy(alloc)?)),
    }
}

fn keys_of(alloc: Global, wants: &[Want]) -> Result<List<Key>, NoMemory>
    ensures { IfOk result (λ keys. keys ≡ map key_of wants.now) }
{
    let mut keys = Vec::new(alloc);
    for want in wants {
        let key = key_of(alloc, want)?;
        keys.push(key)?;
    }
    Ok(List::from_vec(keys))
}

/// The keys that a call looks at.
pub(crate) fn keys_in(alloc: Global, call: &StoreCall) -> Result<List<Key>, NoMemory>
    ensures { IfOk result (λ keys. keys ≡ keys_in call.now) }
{
    match call {
        StoreCall::Look { items } => keys_of(alloc, items.as_slice()),
        _ => Ok(List::new(alloc)),
    }
}

/// Notes a key at a mark, or returns why it is refused.
fn note(stage: &mut Stage, key: Key, mark: u64) -> Result<Option<ErrorCode>, NoMemory>
    ensures refusal { IfOk result (λ code. code ≡ key_refusal stage.old key) }
    ensures stage { OnOk result (stage.new ≡ note mark stage.old key) }
{
    let noted = stage.note_look(&key, mark);
    drop(key);
    match noted {
        Ok(()) => Ok(None),
        Err(error) => {
            let code = refusal_code(error)?;
            Ok(Some(code))
        }
    }
}

/// What was found under a key, or the key's refusal.
fn found_by(refusal: Option<ErrorCode>, found: Looked) -> Looked
    ensures { result ≡ found_by refusal found }
{
    match refusal {
        None => found,
        Some(code) => Looked::Refused(code),
    }
}

/// Moves the first of what was found, or its key's refusal, after the others.
fn move_found(
    left: &mut VecDeque<Looked>,
    noted: &mut Vec<Looked>,
    refusal: Option<ErrorCode>,
) -> Result<(), NoMemory>
    ensures noted { OnOk result (noted.new.items ≡ noted.old.items ++ map (found_by refusal) (take 1 left.old.items)) }
    ensures left { OnOk result (left.new.items ≡ drop 1 left.old.items) }
{
    let Some(found) = left.pop_front() else {
        return Ok(());
    };
    noted.push(found_by(refusal, found))?;
    Ok(())
}

/// Notes keys at a mark, one after the other, and returns what was found under each, or the key's refusal.
fn note_all(
    alloc: Global,
    stage: &mut Stage,
    mark: u64,
    keys: List<Key>,
    found: List<Looked>,
) -> Result<List<Looked>, NoMemory>
    ensures found { IfOk result (λ l. l ≡ found_noted mark stage.old keys found) }
    ensures stage { OnOk result (stage.new ≡ note_all mark stage.old keys) }
{
    let mut left = VecDeque::from(found.into_vec());
    let mut noted = Vec::new(alloc);
    for key in keys.into_vec() {
        let refusal = note(stage, key, mark)?;
        move_found(&mut left, &mut noted, refusal)?;
    }
    Ok(List::from_vec(noted))
}

/// A reply that is not a look, if the keys could be noted.
fn reply_beside(reply: Reply, noted: Result<List<Looked>, NoMemory>) -> Result<Reply, NoMemory>
    ensures reply { IfOk result (λ r. r ≡ reply) }
    ensures noted { OnOk result (IsOk noted) }
{
    match noted {
        Ok(_) => Ok(reply),
        Err(error) => {
            drop(reply);
            Err(error)
        }
    }
}

fn note_in(
    alloc: Global,
    stage: &mut Stage,
    mark: u64,
    keys: List<Key>,
    reply: Reply,
) -> Result<Reply, NoMemory>
    ensures reply { IfOk result (λ r. r ≡ reply_noted mark keys (Some stage.old) reply) }
    ensures stage { OnOk result (stage.new ≡ note_all mark stage.old keys) }
{
    match reply {
        Reply::Looked(found) => {
            let found = note_all(alloc, stage, mark, keys, found)?;
            Ok(Reply::Looked(found))
        }
        other => reply_beside(other, note_all(alloc, stage, mark, keys, List::new(alloc))),
    }
}

/// Notes these keys in the open transaction, if there is one, at the mark of the store's answer, of which this is the reply. Returns what
/// the reply is then.
pub(crate) fn note_reply(
    alloc: Global,
    stage: &mut Option<Stage>,
    mark: u64,
    keys: List<Key>,
    reply: Reply,
) -> Result<Reply, NoMemory>
    ensures reply { IfOk result (λ r. r ≡ reply_noted mark keys stage.old reply) }
    ensures stage { OnOk result (stage.new ≡ noting mark keys stage.old) }
{
    match stage {
        None => {
            drop(keys);
            Ok(reply)
        }
        Some(stage) => note_in(alloc, stage, mark, keys, reply),
    }
}
