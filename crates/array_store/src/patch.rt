//! An array's own calls: reading a region and writing one.
ghost use Rattle.std.specs.Prelude.{◌≡◌, Err, None, IfOk, OnOk, OnErr, true};
ghost use Rattle.etp_values.specs.Weight.{capped};
ghost use Rattle.array_store.specs.Shape.{sizes};
ghost use Rattle.array_store.specs.Arrays.{size_of, slice_of, is_bytes};
ghost use Rattle.array_store.specs.Refusals.{record_refusal, region_refusal, patch_refusal, slice_refusal, write_refusal, Counts, Refuses};
ghost use Rattle.array_store.specs.Table.{patch_array};

use crate::elements::array_bytes;
use crate::error::ArrayError;
use crate::record::ArrayRecord;
use crate::refusals::{record_refusal, region_refusal, values_refusal, weighed_refusal};
use crate::window::{patch_values, region_bytes, slice_values};
use etp_values::{AnyArray, Blob, List};
use std::alloc::Global;
use std::mem;

/// The elements of a region of any record, in row-major order.
pub fn read_slice(
    alloc: Global,
    array: &ArrayRecord,
    starts: &List<i64>,
    counts: &List<i64>,
) -> Result<AnyArray, ArrayError>
    ensures done { Refuses result (slice_refusal array.now starts.now counts.now) }
    ensures ok { IfOk result (λ r.
        r ≡ slice_of (sizes array.now.dims) (sizes starts.now) (sizes counts.now) array.now.values) }
{
    if let Some(error) = record_refusal(array) {
        return Err(error);
    }
    slice_record(alloc, array, starts.as_slice(), counts.as_slice())
}

/// Moves values into a region of any record. Only a patch of bytes allocates, since others may read the bytes of a [`Blob`].
pub fn write_patch(
    alloc: Global,
    array: &mut ArrayRecord,
    starts: &List<i64>,
    counts: &List<i64>,
    values: AnyArray,
) -> Result<(), ArrayError>
    ensures done { Refuses result (write_refusal array.old starts.now counts.now values) }
    ensures ok { OnOk result (array.new ≡ patch_array array.old starts.now counts.now values) }
    ensures err { OnErr result (array.new ≡ array.old) }
    ensures sound { OnOk result (record_refusal array.new ≡ None) }
    ensures memory { result ≡ Err ArrayError.NoMemory → is_bytes array.old.values ≡ true }
{
    let bytes = array_bytes(&array.values);
    if let Some(error) = weighed_refusal(array, bytes) {
        return Err(error);
    }
    match patch_record(
        alloc,
        array,
        bytes,
        starts.as_slice(),
        counts.as_slice(),
        values,
    ) {
        Ok(_) => Ok(()),
        Err(error) => Err(error),
    }
}

/// The elements of a region.
pub(crate) fn slice_record(
    alloc: Global,
    array: &ArrayRecord,
    starts: &[i64],
    counts: &[i64],
) -> Result<AnyArray, ArrayError>
    requires { record_refusal array.now ≡ None }
    ensures done { Refuses result (region_refusal array.now.dims starts.now counts.now) }
    ensures ok { IfOk result (λ r.
        r ≡ slice_of (sizes array.now.dims) (sizes starts.now) (sizes counts.now) array.now.values) }
{
    let dims = array.dims.as_slice();
    if let Some(error) = region_refusal(dims, starts, counts) {
        return Err(error);
    }
    match slice_values(alloc, &array.values, dims, starts, counts) {
        Ok(values) => Ok(values),
        Err(_) => Err(ArrayError::NoMemory),
    }
}

/// The size of the elements of a region, computed without copying them.
pub(crate) fn slice_bytes(
    array: &ArrayRecord,
    starts: &[i64],
    counts: &[i64],
) -> Result<u64, ArrayError>
    requires { record_refusal array.now ≡ None }
    ensures { Counts result (region_refusal array.now.dims starts.now counts.now)
        (slice_of (sizes array.now.dims) (sizes starts.now) (sizes counts.now) array.now.values) }
{
    let dims = array.dims.as_slice();
    if let Some(error) = region_refusal(dims, starts, counts) {
        return Err(error);
    }
    Ok(region_bytes(&array.values, dims, starts, counts))
}

/// Moves values into a region of an array whose elements have the size `bytes`, and returns their size afterwards.
#[tactic(auto, using(crate::proofs::SoundLemmas::light_sound))]
pub(crate) fn patch_record(
    alloc: Global,
    array: &mut ArrayRecord,
    bytes: u64,
    starts: &[i64],
    counts: &[i64],
    values: AnyArray,
) -> Result<u64, ArrayError>
    requires sound { record_refusal array.old ≡ None }
    requires weighed { bytes ≡ capped (size_of array.old.values) }
    ensures done { Refuses result (patch_refusal array.old starts.now counts.now values) }
    ensures ok { OnOk result (array.new ≡ patch_array array.old starts.now counts.now values) }
    ensures weighed { IfOk result (λ n. n ≡ capped (size_of array.new.values)) }
    ensures err { OnErr result (array.new ≡ array.old) }
    ensures memory { result ≡ Err ArrayError.NoMemory → is_bytes array.old.values ≡ true }
{
    if let Some(error) = region_refusal(array.dims.as_slice(), starts, counts) {
        return Err(error);
    }
    if let Some(error) = values_refusal(&array.values, counts, &values) {
        return Err(error);
    }
    let held = mem::replace(&mut array.values, AnyArray::Bytes(Blob::new()));
    match patch_values(
        alloc,
        held,
        bytes,
        values,
        array.dims.as_slice(),
        starts,
        counts,
    ) {
        Ok((patched, bytes)) => {
            array.values = patched;
            Ok(bytes)
        }
        Err((held, error)) => {
            array.values = held;
            Err(error)
        }
    }
}
