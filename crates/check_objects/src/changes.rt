//! Operations on the store, by their words.
use crate::keys::{path_of, text_of, uri_of, words_of};
use etp_values::{Blob, Copied, List, Named, NoMemory, SpacePath, StoreUri, Text};
use object_store::{KeyedObject, KeyedSpace, ObjectOp, ObjectRecord, ObjectStore, SpaceRecord};
use std::alloc::Global;

/// A moment.
fn number(word: &str) -> i64 {
    word.parse::<i64>().unwrap_or(0)
}

/// A well with this data, named after its dataspace.
fn object_of(alloc: Global, uri: StoreUri, name: Text, payload: Blob, at: i64) -> ObjectRecord {
    ObjectRecord {
        uri,
        others: List::new(alloc),
        name,
        changed: 3,
        active: 1,
        custom: Named::new(alloc),
        format: Text::new(alloc),
        payload,
        written: at,
        created: 77,
    }
}

fn put_space(alloc: Global, path: &str, at: i64) -> Result<ObjectOp, NoMemory> {
    let record = SpaceRecord {
        path: SpacePath::new(alloc, path_of(alloc, path)?)?,
        written: at,
        created: 77,
        custom: Named::new(alloc),
    };
    Ok(ObjectOp::SetSpace(KeyedSpace::new(alloc, record.copy(alloc)?)?))
}

fn put_object(
    alloc: Global,
    path: &str,
    number: &str,
    at: i64,
    data: &str,
) -> Result<ObjectOp, NoMemory> {
    let name = path_of(alloc, path)?;
    let payload = Blob::copy(alloc, text_of(data).as_bytes())?;
    let uri = uri_of(alloc, path, number)?;
    let record = object_of(alloc, uri, name, payload, at);
    Ok(ObjectOp::SetObject(KeyedObject::new(alloc, record.copy(alloc)?)?))
}

/// The operation of these words, if they are one.
fn op_of(alloc: Global, words: &[&str]) -> Result<Option<ObjectOp>, NoMemory> {
    match words {
        ["put_space", path, at] => Ok(Some(put_space(alloc, path, number(at))?)),
        ["drop_space", path] => Ok(Some(ObjectOp::DropSpace(path_of(alloc, path)?))),
        ["put_object", path, well, at, data] => {
            Ok(Some(put_object(alloc, path, well, number(at), data)?))
        }
        ["drop_object", path, well] => Ok(Some(ObjectOp::DropObject(uri_of(alloc, path, well)?))),
        _ => Ok(None),
    }
}

/// The operations of a line, with commas between them.
fn ops_of(alloc: Global, line: &str) -> Result<List<ObjectOp>, NoMemory> {
    let mut ops = Vec::new(alloc);
    for part in line.split(',') {
        let words = words_of(alloc, part)?;
        if let Some(op) = op_of(alloc, words.as_slice())? {
            ops.push(op)?;
        }
    }
    Ok(List::from_vec(ops))
}

/// Applies the operations of a line, and returns how many they are.
pub(crate) fn change(
    alloc: Global,
    store: &mut ObjectStore,
    line: &str,
) -> Result<usize, NoMemory> {
    let ops = ops_of(alloc, line)?;
    let count = ops.len();
    store.reserve(&ops)?;
    store.apply(ops);
    Ok(count)
}
