//! What the operations of a plan do at an array's key, and patches of an array that a plan sets, in the operation that sets it.
ghost use Rattle.std.specs.Prelude.{◌≡◌, ◌≤◌, IfOk, IfSome, OnOk, None, length, take, true};
ghost use Rattle.std.specs.Option.{option_map};
ghost use Rattle.array_store.specs.Codes.{code_of};
ghost use Rattle.std.specs.List.{list_any};
ghost use Rattle.tx_stage.specs.Patching.{SetsLater, array_set, concerns, is_sound, patched_op, patches, set_refusal, sets, takes_away};

use crate::value::patch_in_place;
use array_store::{ArrayKey, ArrayOp, WeighedArray};
use etp_values::{AnyArray, Copied, ErrorCode, List, NoMemory};
use std::alloc::Global;

/// Whether an operation sets the array of a key.
pub(crate) fn sets(op: &ArrayOp, key: &ArrayKey) -> bool
    ensures { result ≡ sets key.now op.now }
{
    match op {
        ArrayOp::SetArray(other, array) => *key == *other && array.refusal().is_none(),
        ArrayOp::PatchArray { .. } => false,
        ArrayOp::DropArraysOf(_) => false,
        ArrayOp::DropArraysIn(_) => false,
    }
}

/// Whether an operation takes the array of a key away.
pub(crate) fn takes_away(op: &ArrayOp, key: &ArrayKey) -> bool
    ensures { result ≡ takes_away key.now op.now }
{
    match op {
        ArrayOp::SetArray(_, _) => false,
        ArrayOp::PatchArray { .. } => false,
        ArrayOp::DropArraysOf(uri) => uri.same(&key.uri),
        ArrayOp::DropArraysIn(path) => *path == key.uri.space,
    }
}

/// Whether an operation patches the array of a key.
fn patches(op: &ArrayOp, key: &ArrayKey) -> bool
    ensures { result ≡ patches key.now op.now }
{
    match op {
        ArrayOp::SetArray(_, _) => false,
        ArrayOp::PatchArray { key: other, .. } => *key == *other,
        ArrayOp::DropArraysOf(_) => false,
        ArrayOp::DropArraysIn(_) => false,
    }
}

/// Whether an operation does one of these.
fn concerns(op: &ArrayOp, key: &ArrayKey) -> bool
    ensures { result ≡ concerns key.now op.now }
{
    sets(op, key) || (takes_away(op, key) || patches(op, key))
}

/// Whether one of these operations concerns the array of a key.
pub(crate) fn is_concerned(ops: &[ArrayOp], key: &ArrayKey) -> bool
    ensures { result ≡ list_any (concerns key.now) ops.now }
{
    for op in ops {
        if concerns(op, key) {
            return true;
        }
    }
    false
}

/// The index of the operation that sets the array of a key last; `None` if a later one removes or patches it.
pub(crate) fn place_of_set(ops: &[ArrayOp], key: &ArrayKey) -> Option<usize>
    ensures { IfSome result (λ place. SetsLater key.now ops.now place) }
{
    let mut place = ops.len();
    while place > 0 {
        place -= 1;
        if sets(&ops[place], key) {
            return Some(place);
        }
        if concerns(&ops[place], key) {
            return None;
        }
    }
    None
}

/// The operations before an index.
pub(crate) fn before(ops: &[ArrayOp], place: usize) -> &[ArrayOp]
    requires { place ≤ length ops.now }
    ensures { result.now ≡ take place ops.now }
{
    let (front, _) = ops.split_at(place);
    front
}

/// A copy of the array that an operation sets.
pub(crate) fn copy_of_set(alloc: Global, op: &ArrayOp) -> Result<Option<WeighedArray>, NoMemory>
    ensures { IfOk result (λ array. array ≡ array_set op.now) }
{
    match op {
        ArrayOp::SetArray(_, array) => Ok(Some(array.copy(alloc)?)),
        ArrayOp::PatchArray { .. } => Ok(None),
        ArrayOp::DropArraysOf(_) => Ok(None),
        ArrayOp::DropArraysIn(_) => Ok(None),
    }
}

/// Patches the array that an operation sets. If the patch does not fit, the operation stays as it was, and the code of the refusal is
/// returned.
pub(crate) fn patch_set(
    alloc: Global,
    op: &mut ArrayOp,
    at: i64,
    starts: &List<i64>,
    counts: &List<i64>,
    values: &AnyArray,
) -> Result<Option<ErrorCode>, NoMemory>
    ensures op { OnOk result (op.new ≡ patched_op at starts.now counts.now values.now op.old) }
    ensures code { IfOk result (λ code.
        code ≡ option_map code_of (set_refusal starts.now counts.now values.now op.old)) }
    ensures sound { IfOk result (λ code. code ≡ None → is_sound op.new ≡ true) }
{
    match op {
        ArrayOp::SetArray(_, array) => patch_in_place(alloc, array, at, starts, counts, values),
        ArrayOp::PatchArray { .. } => Ok(None),
        ArrayOp::DropArraysOf(_) => Ok(None),
        ArrayOp::DropArraysIn(_) => Ok(None),
    }
}
