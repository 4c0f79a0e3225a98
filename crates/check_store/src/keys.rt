//! URIs and keys, by their words.
use crate::words::{members, text_of};
use array_store::ArrayKey;
use etp_values::{Id16, NoMemory, ObjectName, StoreUri, Text};
use std::alloc::Global;
use tx_stage::Key;

fn name_of(alloc: Global, kind: &str, number: &str) -> Result<ObjectName, NoMemory> {
    let mut id = [0; 16];
    id[15] = number.parse::<u8>().unwrap_or(0);
    Ok(ObjectName {
        domain: Text::copy(alloc, "witsml21")?,
        name: Text::copy(alloc, kind)?,
        id: Id16::from_bytes(id),
    })
}

/// The URI of the object of a type and a number, or of a dataspace if the type is `-`.
pub(crate) fn uri_of(
    alloc: Global,
    space: &str,
    kind: &str,
    number: &str,
) -> Result<StoreUri, NoMemory> {
    let space = text_of(alloc, space)?;
    if kind == "-" {
        return Ok(StoreUri {
            space,
            object: None,
        });
    }
    let object = Some(name_of(alloc, kind, number)?);
    Ok(StoreUri { space, object })
}

/// The key of an array of an object.
pub(crate) fn array_key(
    alloc: Global,
    space: &str,
    kind: &str,
    number: &str,
    path: &str,
) -> Result<ArrayKey, NoMemory> {
    let uri = uri_of(alloc, space, kind, number)?;
    let path = text_of(alloc, path)?;
    Ok(ArrayKey { uri, path })
}

/// The key of a word, which has slashes between its parts.
pub(crate) fn key_of(alloc: Global, word: &str) -> Result<Key, NoMemory> {
    let parts = members(alloc, word, '/')?;
    match parts.as_slice() {
        ["object", space, kind, number] => Ok(Key::Object(uri_of(alloc, space, kind, number)?)),
        ["array", space, kind, number, path] => {
            Ok(Key::Array(array_key(alloc, space, kind, number, path)?))
        }
        ["space", path] => Ok(Key::Space(text_of(alloc, path)?)),
        _ => Ok(Key::Space(Text::new(alloc))),
    }
}
