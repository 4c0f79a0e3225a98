//! What values count towards the limits of a journal.
ghost use Rattle.std.specs.Prelude.{◌≡◌, ◌+◌};
ghost use Rattle.etp_values.specs.Weight.{capped, plain_weight, bytes_weight, list_weight, array_weight, subarray_weight, value_weight, custom_weight_of};

use crate::blob::Blob;
use crate::data::{AnyArray, AnySubarray, DataValue};
use crate::list::List;
use crate::named::Named;
use crate::text::Text;

impl DataValue {
    /// How much the value counts towards a limit: a text or a bytes value counts its length plus 8, and every other constituent, each list
    /// included, counts 8. A sum above `u64::MAX` is `u64::MAX`.
    pub fn weight(&self) -> u64
        ensures { result ≡ capped (value_weight self.now) }
    {
        match self {
            DataValue::Null => 8,
            DataValue::Boolean(_) => 8,
            DataValue::Int(_) => 8,
            DataValue::Long(_) => 8,
            DataValue::Float(_) => 8,
            DataValue::Double(_) => 8,
            DataValue::String(text) => bytes(text.get().len()),
            DataValue::ArrayOfBoolean(items) => plain_list(items.get()),
            DataValue::ArrayOfNullableBoolean(items) => plain_list(items.get()),
            DataValue::ArrayOfInt(items) => plain_list(items.get()),
            DataValue::ArrayOfNullableInt(items) => plain_list(items.get()),
            DataValue::ArrayOfLong(items) => plain_list(items.get()),
            DataValue::ArrayOfNullableLong(items) => plain_list(items.get()),
            DataValue::ArrayOfFloat(items) => plain_list(items.get()),
            DataValue::ArrayOfDouble(items) => plain_list(items.get()),
            DataValue::ArrayOfString(items) => texts(items.get()),
            DataValue::ArrayOfBytes(items) => blobs(items.get()),
            DataValue::Bytes(blob) => bytes(blob.get().len()),
            DataValue::AnySparseArray(slices) => subarrays(slices.get()),
        }
    }
}

impl AnyArray {
    /// Like [`DataValue::weight`], for an array's elements.
    pub fn weight(&self) -> u64
        ensures { result ≡ capped (array_weight self.now) }
    {
        match self {
            AnyArray::ArrayOfBoolean(items) => plain_list(items),
            AnyArray::ArrayOfInt(items) => plain_list(items),
            AnyArray::ArrayOfLong(items) => plain_list(items),
            AnyArray::ArrayOfFloat(items) => plain_list(items),
            AnyArray::ArrayOfDouble(items) => plain_list(items),
            AnyArray::ArrayOfString(items) => texts(items),
            AnyArray::Bytes(blob) => bytes(blob.len()),
        }
    }
}

/// The weight of custom data: the lengths of its keys plus the weights of its values. A sum above `u64::MAX` is `u64::MAX`.
pub fn custom_weight(custom: &Named<DataValue>) -> u64
    ensures { result ≡ capped (custom_weight_of custom.now) }
{
    let mut sum = 0u64;
    for pair in custom.as_slice() {
        sum = sum.saturating_add((pair.0.len() as u64).saturating_add(pair.1.weight()));
    }
    sum
}

/// A text or a run of bytes of this length.
fn bytes(len: usize) -> u64
    ensures { result ≡ capped (8 + len) }
{
    8u64.saturating_add(len as u64)
}

/// A list of nulls and numbers.
fn plain_list<T>(items: &List<T>) -> u64
    ensures { result ≡ capped (list_weight plain_weight items.now) }
{
    8u64.saturating_add(8u64.saturating_mul(items.len() as u64))
}

fn texts(items: &List<Text>) -> u64
    ensures { result ≡ capped (list_weight bytes_weight items.now) }
{
    let mut sum = 8u64;
    for text in items.as_slice() {
        sum = sum.saturating_add(bytes(text.len()));
    }
    sum
}

fn blobs(items: &List<Blob>) -> u64
    ensures { result ≡ capped (list_weight bytes_weight items.now) }
{
    let mut sum = 8u64;
    for blob in items.as_slice() {
        sum = sum.saturating_add(bytes(blob.len()));
    }
    sum
}

/// The runs of a sparse array, each with its start.
fn subarrays(items: &List<AnySubarray>) -> u64
    ensures { result ≡ capped (list_weight subarray_weight items.now) }
{
    let mut sum = 8u64;
    for subarray in items.as_slice() {
        sum = sum.saturating_add(8u64.saturating_add(subarray.slice.weight()));
    }
    sum
}
