//! What exists while operations are applied one after the other.
ghost use Rattle.std.specs.Prelude.{◌≡◌, IfOk, fold};
ghost use Rattle.std.specs.Option.{option_copied, option_map};
ghost use Rattle.array_store.specs.Table.{patched_in_place};
ghost use Rattle.tx_stage.specs.Standing.{space_stands, object_stands, array_stands, array_given};

use crate::patching::{copy_of_set, place_of_set, sets, takes_away};
use crate::value::patch_array;
use array_store::{ArrayKey, ArrayOp, WeighedArray, has_bytes};
use etp_values::{AnyArray, Copied, List, NoMemory, StoreUri, Text};
use object_store::ObjectOp;
use std::alloc::Global;

/// Whether the dataspace of a path exists after an operation.
fn space_stands(op: &ObjectOp, path: &Text, before: bool) -> bool
    ensures { result ≡ space_stands path.now before op.now }
{
    match op {
        ObjectOp::SetSpace(space) => *path == *space.as_record().path.as_text() || before,
        ObjectOp::DropSpace(dropped) => *path != *dropped && before,
        ObjectOp::SetObject(_) => before,
        ObjectOp::DropObject(_) => before,
    }
}

/// Whether the dataspace of a path exists after operations.
pub(crate) fn space_after(ops: &[ObjectOp], path: &Text, before: bool) -> bool
    ensures { result ≡ fold (space_stands path.now) before ops.now }
{
    let mut stands = before;
    for op in ops {
        stands = space_stands(op, path, stands);
    }
    stands
}

/// Whether the object of a URI exists after an operation.
fn object_stands(op: &ObjectOp, uri: &StoreUri, before: bool) -> bool
    ensures { result ≡ object_stands uri.now before op.now }
{
    match op {
        ObjectOp::SetSpace(_) => before,
        ObjectOp::DropSpace(dropped) => uri.space != *dropped && before,
        ObjectOp::SetObject(object) => uri.same(&object.as_record().uri) || before,
        ObjectOp::DropObject(removed) => !uri.same(removed) && before,
    }
}

/// Whether the object of a URI exists after operations.
pub(crate) fn object_after(ops: &[ObjectOp], uri: &StoreUri, before: bool) -> bool
    ensures { result ≡ fold (object_stands uri.now) before ops.now }
{
    let mut stands = before;
    for op in ops {
        stands = object_stands(op, uri, stands);
    }
    stands
}

/// Whether the array of a key exists after an operation.
fn array_stands(op: &ArrayOp, key: &ArrayKey, before: bool) -> bool
    ensures { result ≡ array_stands key.now before op.now }
{
    sets(op, key) || (!takes_away(op, key) && before)
}

/// Whether the array of a key exists after operations.
pub(crate) fn array_after(ops: &[ArrayOp], key: &ArrayKey, before: bool) -> bool
    ensures { result ≡ fold (array_stands key.now) before ops.now }
{
    let mut stands = before;
    for op in ops {
        stands = array_stands(op, key, stands);
    }
    stands
}

/// An array as a patch in place leaves it.
fn patch_given(
    alloc: Global,
    before: Option<WeighedArray>,
    at: i64,
    starts: &List<i64>,
    counts: &List<i64>,
    values: &AnyArray,
) -> Result<Option<WeighedArray>, NoMemory>
    ensures { IfOk result (λ o.
        o ≡ option_map (patched_in_place at starts.now counts.now values.now) before) }
{
    let Some(array) = before else {
        return Ok(None);
    };
    if has_bytes(&array.as_record().values) {
        return Ok(Some(array));
    }
    let (array, _) = patch_array(alloc, array, at, starts, counts, values)?;
    Ok(Some(array))
}

/// The array of a key that an operation leaves as it was given, made from the previous one.
fn array_given(
    alloc: Global,
    before: Option<WeighedArray>,
    op: &ArrayOp,
    key: &ArrayKey,
) -> Result<Option<WeighedArray>, NoMemory>
    ensures { IfOk result (λ o. o ≡ array_given key.now before op.now) }
{
    match op {
        ArrayOp::SetArray(other, array) => {
            if *key == *other && array.refusal().is_none() {
                return Ok(Some(array.copy(alloc)?));
            }
            Ok(before)
        }
        ArrayOp::PatchArray {
            key: other,
            at,
            starts,
            counts,
            values,
        } => {
            if *key == *other {
                return patch_given(alloc, before, *at, starts, counts, values);
            }
            Ok(before)
        }
        ArrayOp::DropArraysOf(uri) => {
            if uri.same(&key.uri) {
                return Ok(None);
            }
            Ok(before)
        }
        ArrayOp::DropArraysIn(path) => {
            if *path == key.uri.space {
                return Ok(None);
            }
            Ok(before)
        }
    }
}

/// A copy of a borrowed array.
fn copy_of_lent(
    alloc: Global,
    array: Option<&WeighedArray>,
) -> Result<Option<WeighedArray>, NoMemory>
    ensures { IfOk result (λ o. o ≡ option_copied array.entry) }
{
    match array {
        Some(array) => Ok(Some(array.copy(alloc)?)),
        None => Ok(None),
    }
}

/// The array of a key that operations leave as it was given, made one operation after the other.
fn array_through(
    alloc: Global,
    before: Option<&WeighedArray>,
    ops: &[ArrayOp],
    key: &ArrayKey,
) -> Result<Option<WeighedArray>, NoMemory>
    ensures { IfOk result (λ o. o ≡ fold (array_given key.now) (option_copied before.entry) ops.now) }
{
    let mut made = copy_of_lent(alloc, before)?;
    for op in ops {
        let next = array_given(alloc, made, op, key)?;
        made = next;
    }
    Ok(made)
}

/// The array of a key that operations leave as it was given. It is copied once if an operation sets it and no later one patches it.
pub(crate) fn array_made(
    alloc: Global,
    before: Option<&WeighedArray>,
    ops: &[ArrayOp],
    key: &ArrayKey,
) -> Result<Option<WeighedArray>, NoMemory>
    ensures { IfOk result (λ o. o ≡ fold (array_given key.now) (option_copied before.entry) ops.now) }
{
    match place_of_set(ops, key) {
        Some(place) => copy_of_set(alloc, &ops[place]),
        None => array_through(alloc, before, ops, key),
    }
}
