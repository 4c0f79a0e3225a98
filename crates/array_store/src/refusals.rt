//! Why arrays, regions and values are refused.
ghost use Rattle.std.specs.Prelude.{◌≡◌, true};
ghost use Rattle.etp_values.specs.Weight.{capped};
ghost use Rattle.array_store.specs.Arrays.{has_numbers, size_of};
ghost use Rattle.array_store.specs.Refusals.{record_refusal, region_refusal, values_refusal, write_refusal};

use crate::elements::{MAX_BYTES, element_count, is_same_kind, weight_refusal};
use crate::error::ArrayError;
use crate::record::ArrayRecord;
use crate::region::is_region;
use crate::shape::{dims, volume};
use etp_values::{AnyArray, List};

/// Why a record is not an array, and a store refuses to put it.
pub fn record_refusal(array: &ArrayRecord) -> Option<ArrayError>
    ensures { result ≡ record_refusal array.now }
{
    match dims(&array.dims, Some(element_count(&array.values) as u64)) {
        Ok(_) => weight_refusal(&array.values),
        Err(error) => Some(error),
    }
}

/// The same for a record whose elements are known to have this size.
pub(crate) fn weighed_refusal(array: &ArrayRecord, bytes: u64) -> Option<ArrayError>
    requires { bytes ≡ capped (size_of array.now.values) }
    ensures { result ≡ record_refusal array.now }
{
    if let Err(error) = dims(&array.dims, Some(element_count(&array.values) as u64)) {
        return Some(error);
    }
    if bytes > MAX_BYTES {
        return Some(ArrayError::TooLarge);
    }
    None
}

/// Why starts and counts are not a region of an array of these dimensions.
pub(crate) fn region_refusal(dims: &[i64], starts: &[i64], counts: &[i64]) -> Option<ArrayError>
    ensures { result ≡ region_refusal dims.now starts.now counts.now }
{
    if starts.len() != dims.len() || counts.len() != dims.len() {
        return Some(ArrayError::Rank);
    }
    if !is_region(dims, starts, counts) {
        return Some(ArrayError::Outside);
    }
    None
}

/// Why values don't fit a region of an array with these elements.
pub(crate) fn values_refusal(
    held: &AnyArray,
    counts: &[i64],
    values: &AnyArray,
) -> Option<ArrayError>
    ensures { result ≡ values_refusal held.now counts.now values.now }
{
    if !is_same_kind(held, values) {
        return Some(ArrayError::Kind);
    }
    if volume(counts) != Some(element_count(values) as u64) {
        return Some(ArrayError::Count);
    }
    None
}

/// Why a patch of numbers or booleans is refused, determined without applying it.
pub fn numbers_refusal(
    array: &ArrayRecord,
    starts: &List<i64>,
    counts: &List<i64>,
    values: &AnyArray,
) -> Option<ArrayError>
    requires { has_numbers array.now.values ≡ true }
    ensures { result ≡ write_refusal array.now starts.now counts.now values.now }
{
    if let Some(error) = record_refusal(array) {
        return Some(error);
    }
    let counts = counts.as_slice();
    if let Some(error) = region_refusal(array.dims.as_slice(), starts.as_slice(), counts) {
        return Some(error);
    }
    values_refusal(&array.values, counts, values)
}
