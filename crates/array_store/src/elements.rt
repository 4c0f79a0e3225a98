//! How many elements an array has, and their size.
ghost use Rattle.std.specs.Prelude.{◌≡◌};
ghost use Rattle.etp_values.specs.Weight.{capped, weigh, bytes_weight};
ghost use Rattle.array_store.specs.Arrays.{elements, size_of, kind, is_bytes, is_same_kind, has_numbers};
ghost use Rattle.array_store.specs.Refusals.{weight_refusal};

use crate::error::ArrayError;
use etp_values::{AnyArray, Text};

/// The greatest size that the elements of an array may have, in bytes.
pub const MAX_BYTES: u64 = 33_554_432;

/// How many elements there are.
pub fn element_count(values: &AnyArray) -> usize
    ensures { result ≡ elements values.now }
{
    match values {
        AnyArray::ArrayOfBoolean(items) => items.len(),
        AnyArray::ArrayOfInt(items) => items.len(),
        AnyArray::ArrayOfLong(items) => items.len(),
        AnyArray::ArrayOfFloat(items) => items.len(),
        AnyArray::ArrayOfDouble(items) => items.len(),
        AnyArray::ArrayOfString(items) => items.len(),
        AnyArray::Bytes(bytes) => bytes.len(),
    }
}

/// The size of the elements: 1 for each boolean or byte, 4 for each int or float, 8 for each long or double, and 8 plus its length for each
/// text. A sum above `u64::MAX` is `u64::MAX`.
pub fn array_bytes(values: &AnyArray) -> u64
    ensures { result ≡ capped (size_of values.now) }
{
    match values {
        AnyArray::ArrayOfBoolean(items) => items.len() as u64,
        AnyArray::ArrayOfInt(items) => 4u64.saturating_mul(items.len() as u64),
        AnyArray::ArrayOfLong(items) => 8u64.saturating_mul(items.len() as u64),
        AnyArray::ArrayOfFloat(items) => 4u64.saturating_mul(items.len() as u64),
        AnyArray::ArrayOfDouble(items) => 8u64.saturating_mul(items.len() as u64),
        AnyArray::ArrayOfString(items) => text_bytes(items.as_slice()),
        AnyArray::Bytes(bytes) => bytes.len() as u64,
    }
}

/// The size of texts.
pub(crate) fn text_bytes(texts: &[Text]) -> u64
    ensures { result ≡ capped (weigh bytes_weight texts.now) }
{
    let mut sum = 0u64;
    for text in texts {
        sum = sum.saturating_add(8u64.saturating_add(text.len() as u64));
    }
    sum
}

/// Why elements are too large together.
pub(crate) fn weight_refusal(values: &AnyArray) -> Option<ArrayError>
    ensures { result ≡ weight_refusal values.now }
{
    if array_bytes(values) > MAX_BYTES {
        return Some(ArrayError::TooLarge);
    }
    None
}

/// Whether two arrays have elements of one kind.
pub(crate) fn is_same_kind(left: &AnyArray, right: &AnyArray) -> bool
    ensures { result ≡ is_same_kind left.now right.now }
{
    array_kind(left) == array_kind(right)
}

/// Whether an array has bytes.
pub fn has_bytes(values: &AnyArray) -> bool
    ensures { result ≡ is_bytes values.now }
{
    array_kind(values) == 6
}

/// Whether an array has numbers or booleans, that is, neither texts nor bytes. No patch changes the size of such an array.
pub fn has_numbers(values: &AnyArray) -> bool
    ensures { result ≡ has_numbers values.now }
{
    array_kind(values) < 5
}

/// The index of an array's kind among the kinds: 0 for booleans, then ints, longs, floats, doubles, texts, and 6 for bytes.
pub fn array_kind(values: &AnyArray) -> u32
    ensures { result ≡ kind values.now }
{
    match values {
        AnyArray::ArrayOfBoolean(_) => 0,
        AnyArray::ArrayOfInt(_) => 1,
        AnyArray::ArrayOfLong(_) => 2,
        AnyArray::ArrayOfFloat(_) => 3,
        AnyArray::ArrayOfDouble(_) => 4,
        AnyArray::ArrayOfString(_) => 5,
        AnyArray::Bytes(_) => 6,
    }
}
