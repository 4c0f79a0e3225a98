//! What the store has, as text.
use crate::keys::{path_of, uri_of};
use etp_values::{Copied, NoMemory};
use object_store::{ObjectRecord, ObjectStore, SpaceRecord};
use std::alloc::Global;

fn show_count(alloc: Global, count: usize) -> Result<String, NoMemory> {
    Ok(format!(in alloc; "{count} dataspaces")?)
}

/// Shows a copy of a dataspace.
fn show_space(alloc: Global, space: Option<&SpaceRecord>) -> Result<String, NoMemory> {
    let Some(space) = space else {
        return Ok(String::from_str(alloc, "no dataspace")?);
    };
    let copy = space.copy(alloc)?;
    let (created, written) = (copy.created, copy.written);
    Ok(format!(in alloc; "created {created} written {written}")?)
}

/// Shows a copy of an object.
fn show_object(alloc: Global, object: Option<&ObjectRecord>) -> Result<String, NoMemory> {
    let Some(object) = object else {
        return Ok(String::from_str(alloc, "no object")?);
    };
    let copy = object.copy(alloc)?;
    let (created, written) = (copy.created, copy.written);
    let (changed, active) = (copy.changed, copy.active);
    let (name, data) = (copy.name.as_str(), copy.payload.as_bytes());
    Ok(format!(in alloc;
        "created {created} written {written} changed {changed} active {active} name {name:?} data {data:?}"
    )?)
}

/// What is looked at by these words, if they are a look.
pub(crate) fn look(
    alloc: Global,
    store: &ObjectStore,
    words: &[&str],
) -> Result<Option<String>, NoMemory> {
    match words {
        ["spaces"] => Ok(Some(show_count(alloc, store.spaces().len())?)),
        ["space", path] => Ok(Some(show_space(alloc, store.space(&path_of(alloc, path)?))?)),
        ["object", path, well] => {
            let uri = uri_of(alloc, path, well)?;
            Ok(Some(show_object(alloc, store.look(&uri))?))
        }
        _ => Ok(None),
    }
}
