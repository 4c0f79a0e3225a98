//! Regions of arrays of every kind.
ghost use Rattle.std.specs.Prelude.{◌≡◌, ℕ, ◌+◌, ◌*◌, ◌<◌, ◌≤◌, nat_lt, true, IfOk, None, length, MatchResult};
ghost use Rattle.etp_values.specs.Weight.{bytes_weight, capped, weigh};
ghost use Rattle.array_store.specs.Shape.{sizes, volume};
ghost use Rattle.array_store.specs.Region.{is_region, sliced, patched};
ghost use Rattle.array_store.specs.Arrays.{elements, is_same_kind, size_of, slice_of, patch_of};
ghost use Rattle.array_store.specs.Refusals.{Patches, PatchesTexts};

use crate::element::Element;
use crate::elements::{MAX_BYTES, text_bytes};
use crate::error::ArrayError;
use crate::region::{read_region, swap_region, weigh_region};
use crate::shape::volume;
use etp_values::{AnyArray, Blob, List, NoMemory, Text};
use std::alloc::Global;

/// A new array of the elements of a region.
pub(crate) fn slice_values(
    alloc: Global,
    values: &AnyArray,
    dims: &[i64],
    starts: &[i64],
    counts: &[i64],
) -> Result<AnyArray, NoMemory>
    requires region { is_region dims.now starts.now counts.now ≡ true }
    requires some { 0 < length dims.now }
    requires full { elements values.now ≡ volume (sizes dims.now) }
    ensures { IfOk result
        (λ r. r ≡ slice_of (sizes dims.now) (sizes starts.now) (sizes counts.now) values.now) }
{
    match values {
        AnyArray::ArrayOfBoolean(items) => Ok(AnyArray::ArrayOfBoolean(slice_list(
            alloc, items, dims, starts, counts,
        )?)),
        AnyArray::ArrayOfInt(items) => Ok(AnyArray::ArrayOfInt(slice_list(
            alloc, items, dims, starts, counts,
        )?)),
        AnyArray::ArrayOfLong(items) => Ok(AnyArray::ArrayOfLong(slice_list(
            alloc, items, dims, starts, counts,
        )?)),
        AnyArray::ArrayOfFloat(items) => Ok(AnyArray::ArrayOfFloat(slice_list(
            alloc, items, dims, starts, counts,
        )?)),
        AnyArray::ArrayOfDouble(items) => Ok(AnyArray::ArrayOfDouble(slice_list(
            alloc, items, dims, starts, counts,
        )?)),
        AnyArray::ArrayOfString(items) => Ok(AnyArray::ArrayOfString(slice_list(
            alloc, items, dims, starts, counts,
        )?)),
        AnyArray::Bytes(bytes) => Ok(AnyArray::Bytes(slice_blob(
            alloc, bytes, dims, starts, counts,
        )?)),
    }
}

fn slice_list<T: Element>(
    alloc: Global,
    items: &List<T>,
    dims: &[i64],
    starts: &[i64],
    counts: &[i64],
) -> Result<List<T>, NoMemory>
    requires region { is_region dims.now starts.now counts.now ≡ true }
    requires some { 0 < length dims.now }
    requires full { length items.now ≡ volume (sizes dims.now) }
    ensures { IfOk result
        (λ l. l ≡ sliced (sizes dims.now) (sizes starts.now) (sizes counts.now) items.now) }
{
    let out = slice_items(alloc, items.as_slice(), dims, starts, counts)?;
    Ok(List::from_vec(out))
}

fn slice_blob(
    alloc: Global,
    bytes: &Blob,
    dims: &[i64],
    starts: &[i64],
    counts: &[i64],
) -> Result<Blob, NoMemory>
    requires region { is_region dims.now starts.now counts.now ≡ true }
    requires some { 0 < length dims.now }
    requires full { length bytes.now ≡ volume (sizes dims.now) }
    ensures { IfOk result
        (λ b. b ≡ sliced (sizes dims.now) (sizes starts.now) (sizes counts.now) bytes.now) }
{
    let out = slice_items(alloc, bytes.as_bytes(), dims, starts, counts)?;
    Blob::from_vec(out)
}

/// The size of the elements of a region: for numbers the counts determine it, and of texts only those of the region are measured.
pub(crate) fn region_bytes(values: &AnyArray, dims: &[i64], starts: &[i64], counts: &[i64]) -> u64
    requires region { is_region dims.now starts.now counts.now ≡ true }
    requires some { 0 < length dims.now }
    requires full { elements values.now ≡ volume (sizes dims.now) }
    ensures { result ≡ capped (size_of
        (slice_of (sizes dims.now) (sizes starts.now) (sizes counts.now) values.now)) }
{
    match values {
        AnyArray::ArrayOfBoolean(_) => counted_bytes(counts, 1),
        AnyArray::ArrayOfInt(_) => counted_bytes(counts, 4),
        AnyArray::ArrayOfLong(_) => counted_bytes(counts, 8),
        AnyArray::ArrayOfFloat(_) => counted_bytes(counts, 4),
        AnyArray::ArrayOfDouble(_) => counted_bytes(counts, 8),
        AnyArray::ArrayOfString(texts) => {
            region_text_bytes(texts.as_slice(), dims, starts, counts)
        }
        AnyArray::Bytes(_) => counted_bytes(counts, 1),
    }
}

/// The size of this many elements of `size` each.
fn counted_bytes(counts: &[i64], size: u64) -> u64
    requires { 0 < size }
    ensures { result ≡ capped (size * volume (sizes counts.now)) }
{
    match volume(counts) {
        Some(count) => size.saturating_mul(count),
        None => u64::MAX,
    }
}

/// The size of the texts of a region. Without texts it looks at no dimension, like `slice_items`.
fn region_text_bytes(texts: &[Text], dims: &[i64], starts: &[i64], counts: &[i64]) -> u64
    requires region { is_region dims.now starts.now counts.now ≡ true }
    requires some { 0 < length dims.now }
    requires full { length texts.now ≡ volume (sizes dims.now) }
    ensures { result ≡ capped (weigh bytes_weight
        (sliced (sizes dims.now) (sizes starts.now) (sizes counts.now) texts.now)) }
{
    if let Some(0) = volume(counts) {
        return 0;
    }
    weigh_region(texts, dims, starts, counts)
}

/// A new list of the elements of a region. Without elements it looks at no dimension, since an array without elements can have as many
/// empty rows as a dimension can express.
fn slice_items<T: Element>(
    alloc: Global,
    items: &[T],
    dims: &[i64],
    starts: &[i64],
    counts: &[i64],
) -> Result<Vec<T>, NoMemory>
    requires region { is_region dims.now starts.now counts.now ≡ true }
    requires some { 0 < length dims.now }
    requires full { length items.now ≡ volume (sizes dims.now) }
    ensures { IfOk result
        (λ v. v.items ≡ sliced (sizes dims.now) (sizes starts.now) (sizes counts.now) items.now) }
{
    let room = match volume(counts) {
        Some(0) => return Ok(Vec::new(alloc)),
        Some(room) => room,
        None => 0,
    };
    let mut out = Vec::with_capacity(alloc, room as usize)?;
    read_region(alloc, &mut out, items, dims, starts, counts)?;
    Ok(out)
}

/// The array with these values in a region and its size then, or as it was with the reason. The values are of its kind, as many as the
/// region has, and are moved in. The elements that stay are not measured again. Only bytes are allocated, since others may read a
/// [`Blob`]'s bytes.
pub(crate) fn patch_values(
    alloc: Global,
    held: AnyArray,
    bytes: u64,
    values: AnyArray,
    dims: &[i64],
    starts: &[i64],
    counts: &[i64],
) -> Result<(AnyArray, u64), (AnyArray, ArrayError)>
    requires region { is_region dims.now starts.now counts.now ≡ true }
    requires some { 0 < length dims.now }
    requires full { elements held ≡ volume (sizes dims.now) }
    requires light { size_of held ≤ 33554432 }
    requires weighed { bytes ≡ capped (size_of held) }
    requires kinds { is_same_kind held values ≡ true }
    requires all { elements values ≡ volume (sizes counts.now) }
    ensures { Patches result held
        (patch_of (sizes dims.now) (sizes starts.now) (sizes counts.now) held values) }
{
    match (held, values) {
        (AnyArray::ArrayOfBoolean(held), AnyArray::ArrayOfBoolean(values)) => {
            let held = patch_list(held, values, dims, starts, counts);
            Ok((AnyArray::ArrayOfBoolean(held), bytes))
        }
        (AnyArray::ArrayOfInt(held), AnyArray::ArrayOfInt(values)) => {
            let held = patch_list(held, values, dims, starts, counts);
            Ok((AnyArray::ArrayOfInt(held), bytes))
        }
        (AnyArray::ArrayOfLong(held), AnyArray::ArrayOfLong(values)) => {
            let held = patch_list(held, values, dims, starts, counts);
            Ok((AnyArray::ArrayOfLong(held), bytes))
        }
        (AnyArray::ArrayOfFloat(held), AnyArray::ArrayOfFloat(values)) => {
            let held = patch_list(held, values, dims, starts, counts);
            Ok((AnyArray::ArrayOfFloat(held), bytes))
        }
        (AnyArray::ArrayOfDouble(held), AnyArray::ArrayOfDouble(values)) => {
            let held = patch_list(held, values, dims, starts, counts);
            Ok((AnyArray::ArrayOfDouble(held), bytes))
        }
        (AnyArray::ArrayOfString(held), AnyArray::ArrayOfString(values)) => {
            match patch_texts(held, bytes, values, dims, starts, counts) {
                Ok((held, bytes)) => Ok((AnyArray::ArrayOfString(held), bytes)),
                Err(held) => Err((AnyArray::ArrayOfString(held), ArrayError::TooLarge)),
            }
        }
        (AnyArray::Bytes(held), AnyArray::Bytes(values)) => {
            match patch_blob(alloc, held, values, dims, starts, counts) {
                Ok(held) => Ok((AnyArray::Bytes(held), bytes)),
                Err(held) => Err((AnyArray::Bytes(held), ArrayError::NoMemory)),
            }
        }
        _ => unreachable!(),
    }
}

fn patch_list<T: Drop>(
    held: List<T>,
    values: List<T>,
    dims: &[i64],
    starts: &[i64],
    counts: &[i64],
) -> List<T>
    requires region { is_region dims.now starts.now counts.now ≡ true }
    requires some { 0 < length dims.now }
    requires full { length held ≡ volume (sizes dims.now) }
    requires all { length values ≡ volume (sizes counts.now) }
    ensures value { result ≡ patched (sizes dims.now) (sizes starts.now) (sizes counts.now) held values }
    ensures len { length result ≡ length held }
{
    let mut items = held.into_vec();
    let mut values = values.into_vec();
    swap_items(&mut items, &mut values, dims, starts, counts);
    List::from_vec(items)
}

/// Like `patch_list`, with the size of the texts afterwards; or the texts as they were, if they would be too large. What the patch took out
/// is then put back.
fn patch_texts(
    held: List<Text>,
    bytes: u64,
    values: List<Text>,
    dims: &[i64],
    starts: &[i64],
    counts: &[i64],
) -> Result<(List<Text>, u64), List<Text>>
    requires region { is_region dims.now starts.now counts.now ≡ true }
    requires some { 0 < length dims.now }
    requires full { length held ≡ volume (sizes dims.now) }
    requires light { weigh bytes_weight held ≤ 33554432 }
    requires weighed { bytes ≡ capped (weigh bytes_weight held) }
    requires all { length values ≡ volume (sizes counts.now) }
    ensures { PatchesTexts result held
        (patched (sizes dims.now) (sizes starts.now) (sizes counts.now) held values) }
{
    let added = text_bytes(values.as_slice());
    let mut items = held.into_vec();
    let mut values = values.into_vec();
    swap_items(&mut items, &mut values, dims, starts, counts);
    let taken = text_bytes(values.as_slice());
    let weight = exchanged_bytes(bytes, taken, added);
    if are_too_heavy(weight) {
        swap_items(&mut items, &mut values, dims, starts, counts);
        return Err(List::from_vec(items));
    }
    let patched = List::from_vec(items);
    Ok((patched, weight))
}

/// Whether elements of this size are too large for an array.
fn are_too_heavy(bytes: u64) -> bool
    ensures { result ≡ nat_lt 33554432 bytes }
{
    bytes > MAX_BYTES
}

/// The size of elements after some of them were exchanged for others.
fn exchanged_bytes(bytes: u64, taken: u64, added: u64) -> u64
    ensures { (out rest put : ℕ) → out + rest ≤ 33554432 → bytes ≡ capped (out + rest)
        → taken ≡ capped out → added ≡ capped put → result ≡ capped (put + rest) }
{
    added.saturating_add(bytes.saturating_sub(taken))
}

/// Like `patch_list`, in a copy of the bytes; or the bytes as they were, if allocation fails.
fn patch_blob(
    alloc: Global,
    held: Blob,
    values: Blob,
    dims: &[i64],
    starts: &[i64],
    counts: &[i64],
) -> Result<Blob, Blob>
    requires region { is_region dims.now starts.now counts.now ≡ true }
    requires some { 0 < length dims.now }
    requires full { length held ≡ volume (sizes dims.now) }
    requires all { length values ≡ volume (sizes counts.now) }
    ensures value { MatchResult result
        (λ b. b ≡ patched (sizes dims.now) (sizes starts.now) (sizes counts.now) held values)
        (λ b. b ≡ held) }
    ensures len { length (patched (sizes dims.now) (sizes starts.now) (sizes counts.now) held values)
        ≡ length held }
{
    match patched_blob(
        alloc,
        held.as_bytes(),
        values.as_bytes(),
        dims,
        starts,
        counts,
    ) {
        Ok(patched) => Ok(patched),
        Err(_) => Err(held),
    }
}

fn patched_blob(
    alloc: Global,
    held: &[u8],
    values: &[u8],
    dims: &[i64],
    starts: &[i64],
    counts: &[i64],
) -> Result<Blob, NoMemory>
    requires region { is_region dims.now starts.now counts.now ≡ true }
    requires some { 0 < length dims.now }
    requires full { length held.now ≡ volume (sizes dims.now) }
    requires all { length values.now ≡ volume (sizes counts.now) }
    ensures { IfOk result
        (λ b. b
        ≡ patched (sizes dims.now) (sizes starts.now) (sizes counts.now) held.now values.now) }
{
    let mut items = Vec::from_slice(alloc, held)?;
    let mut values = Vec::from_slice(alloc, values)?;
    swap_items(&mut items, &mut values, dims, starts, counts);
    Blob::from_vec(items)
}

/// Exchanges the elements of a region with these values. Without values it looks at no dimension, since an array without elements can have
/// as many empty rows as a dimension can express.
fn swap_items<T>(
    items: &mut Vec<T>,
    values: &mut Vec<T>,
    dims: &[i64],
    starts: &[i64],
    counts: &[i64],
)
    requires region { is_region dims.now starts.now counts.now ≡ true }
    requires some { 0 < length dims.now }
    requires full { length items.old.items ≡ volume (sizes dims.now) }
    requires all { length values.old.items ≡ volume (sizes counts.now) }
    ensures items { items.new.items
        ≡ patched (sizes dims.now) (sizes starts.now) (sizes counts.now)
        items.old.items values.old.items }
    ensures values { values.new.items
        ≡ sliced (sizes dims.now) (sizes starts.now) (sizes counts.now) items.old.items }
    ensures len { length items.new.items ≡ length items.old.items }
    ensures values_len { length values.new.items ≡ length values.old.items }
{
    if values.is_empty() {
        return;
    }
    swap_region(
        items.as_mut_slice(),
        values.as_mut_slice(),
        dims,
        starts,
        counts,
    );
}
