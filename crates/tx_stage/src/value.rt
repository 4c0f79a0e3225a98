//! What can be at a key, and what an operation leaves of it.
ghost use Rattle.std.specs.Prelude.{◌≡◌, IfOk, OnOk, None};
ghost use Rattle.std.specs.Option.{option_copied, option_map};
ghost use Rattle.array_store.specs.Codes.{code_of};
ghost use Rattle.array_store.specs.Refusals.{record_refusal, write_refusal};
ghost use Rattle.array_store.specs.Table.{patched_at};
ghost use Rattle.tx_stage.specs.Ops.{made_at, patched_value, op_left};
ghost use Rattle.tx_stage.specs.Values.{as_space, as_object, as_array, memory_or_code};

use crate::op::{Op, OpWhat};
use array_store::{ArrayError, ArrayRecord, WeighedArray};
use etp_values::{AnyArray, Copied, ErrorCode, List, NoMemory};
use object_store::{ObjectRecord, SpaceRecord};
use std::alloc::Global;

/// A dataspace, an object or an array.
#[derive(Drop)]
pub enum Value {
    Space(SpaceRecord),
    Object(ObjectRecord),
    Array(ArrayRecord),
}

/// The dataspace that a value is.
pub(crate) fn as_space(value: Option<&Value>) -> Option<&SpaceRecord>
    ensures { option_copied result ≡ as_space (option_copied value.entry) }
{
    let Some(value) = value else {
        return None;
    };
    match value {
        Value::Space(space) => Some(space),
        Value::Object(_) => None,
        Value::Array(_) => None,
    }
}

/// The object that a value is.
pub(crate) fn as_object(value: Option<&Value>) -> Option<&ObjectRecord>
    ensures { option_copied result ≡ as_object (option_copied value.entry) }
{
    let Some(value) = value else {
        return None;
    };
    match value {
        Value::Space(_) => None,
        Value::Object(object) => Some(object),
        Value::Array(_) => None,
    }
}

/// The array that a value is.
pub(crate) fn as_array(value: Option<&Value>) -> Option<&ArrayRecord>
    ensures { option_copied result ≡ as_array (option_copied value.entry) }
{
    let Some(value) = value else {
        return None;
    };
    match value {
        Value::Space(_) => None,
        Value::Object(_) => None,
        Value::Array(array) => Some(array),
    }
}

/// When a value was created; one that did not exist is created now.
fn made_at(at: i64, before: &Option<Value>) -> i64
    ensures { result ≡ made_at at before.now }
{
    let Some(value) = before else {
        return at;
    };
    match value {
        Value::Space(space) => space.created,
        Value::Object(object) => object.created,
        Value::Array(array) => array.created,
    }
}

/// The code of a refusal; running out of memory is not one.
pub fn memory_or_code(error: ArrayError) -> Result<ErrorCode, NoMemory>
    ensures { result ≡ memory_or_code error }
{
    match error {
        ArrayError::Rank => Ok(error.code()),
        ArrayError::Outside => Ok(error.code()),
        ArrayError::Kind => Ok(error.code()),
        ArrayError::Count => Ok(error.code()),
        ArrayError::TooLarge => Ok(error.code()),
        ArrayError::NoMemory => Err(NoMemory),
    }
}

/// Writes values into a region of an array, at this time; if they do not fit it stays as it was, and the code of the refusal is returned.
pub(crate) fn patch_in_place(
    alloc: Global,
    array: &mut WeighedArray,
    at: i64,
    starts: &List<i64>,
    counts: &List<i64>,
    values: &AnyArray,
) -> Result<Option<ErrorCode>, NoMemory>
    ensures value { OnOk result (array.new ≡ patched_at at starts.now counts.now values.now array.old) }
    ensures code { IfOk result (λ code.
        code ≡ option_map code_of (write_refusal array.old starts.now counts.now values.now)) }
    ensures sound { IfOk result (λ code. code ≡ None → record_refusal array.new ≡ None) }
{
    let values = values.copy(alloc)?;
    match array.patch(alloc, starts, counts, values) {
        Ok(()) => {
            array.set_written(at);
            Ok(None)
        }
        Err(error) => {
            let code = memory_or_code(error)?;
            Ok(Some(code))
        }
    }
}

/// An array with values in a region, written at this time; or as it was, with the code of the refusal.
pub(crate) fn patch_array(
    alloc: Global,
    mut array: WeighedArray,
    at: i64,
    starts: &List<i64>,
    counts: &List<i64>,
    values: &AnyArray,
) -> Result<(WeighedArray, Option<ErrorCode>), NoMemory>
    ensures value { IfOk result (λ p. p.0 ≡ patched_at at starts.now counts.now values.now array) }
    ensures code { IfOk result (λ p.
        p.1 ≡ option_map code_of (write_refusal array starts.now counts.now values.now)) }
    ensures sound { IfOk result (λ p. p.1 ≡ None → record_refusal p.0 ≡ None) }
{
    let code = patch_in_place(alloc, &mut array, at, starts, counts, values)?;
    Ok((array, code))
}

/// A value with a patch, if it is an array that the patch fits.
fn patch_value(
    alloc: Global,
    value: Value,
    at: i64,
    starts: &List<i64>,
    counts: &List<i64>,
    values: &AnyArray,
) -> Result<Value, NoMemory>
    ensures { IfOk result (λ v. v ≡ patched_value at starts.now counts.now values.now value) }
{
    match value {
        Value::Space(space) => Ok(Value::Space(space)),
        Value::Object(object) => Ok(Value::Object(object)),
        Value::Array(array) => {
            let array = WeighedArray::weigh(array);
            let (array, _) = patch_array(alloc, array, at, starts, counts, values)?;
            Ok(Value::Array(array.into_record()))
        }
    }
}

/// What a patch leaves of the previous value.
fn patch_before(
    alloc: Global,
    before: Option<Value>,
    at: i64,
    starts: &List<i64>,
    counts: &List<i64>,
    values: &AnyArray,
) -> Result<Option<Value>, NoMemory>
    ensures { IfOk result (λ v. v ≡ option_map (patched_value at starts.now counts.now values.now) before) }
{
    match before {
        None => Ok(None),
        Some(value) => Ok(Some(patch_value(alloc, value, at, starts, counts, values)?)),
    }
}

/// What an operation leaves at a key that it alters, from the previous value.
pub fn left(alloc: Global, op: &Op, before: Option<Value>) -> Result<Option<Value>, NoMemory>
    ensures { IfOk result (λ v. v ≡ op_left op.now before) }
{
    let created = made_at(op.at, &before);
    match &op.what {
        OpWhat::SetObject(object) => {
            drop(before);
            let mut object = object.copy(alloc)?;
            object.written = op.at;
            object.created = created;
            Ok(Some(Value::Object(object)))
        }
        OpWhat::SetArray(array) => {
            drop(before);
            let mut array = array.copy(alloc)?;
            array.written = op.at;
            array.created = created;
            Ok(Some(Value::Array(array)))
        }
        OpWhat::Patch {
            starts,
            counts,
            values,
        } => patch_before(alloc, before, op.at, starts, counts, values),
        OpWhat::Gone => {
            drop(before);
            Ok(None)
        }
    }
}
