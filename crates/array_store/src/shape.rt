//! Dimensions, and how many elements they make.
ghost use Rattle.std.specs.Prelude.{◌≡◌, ◌^◌, Option, Some, None, if◌then◌else◌, nat_lt};
ghost use Rattle.std.specs.List.{list_any};
ghost use Rattle.array_store.specs.Shape.{size, sizes, is_negative, volume};
ghost use Rattle.array_store.specs.Refusals.{dims_of, is_rank};

use crate::error::ArrayError;
use etp_values::List;

/// The greatest number of dimensions of an array.
pub const MAX_RANK: usize = 8;

/// The greatest number of elements of an array.
pub const MAX_ELEMENTS: u64 = 4_194_304;

/// How many elements an array of these dimensions has. If the number of its elements is given, it must match.
pub fn dims(list: &List<i64>, elements: Option<u64>) -> Result<u64, ArrayError>
    ensures { result ≡ dims_of list.now elements }
{
    let list = list.as_slice();
    if !has_rank(list.len()) {
        return Err(ArrayError::Rank);
    }
    if has_negative(list) {
        return Err(ArrayError::Outside);
    }
    let volume = volume(list);
    if let Some(elements) = elements {
        if volume != Some(elements) {
            return Err(ArrayError::Count);
        }
    }
    match volume {
        Some(volume) if volume <= MAX_ELEMENTS => Ok(volume),
        _ => Err(ArrayError::TooLarge),
    }
}

/// Whether an array can have this many dimensions.
fn has_rank(len: usize) -> bool
    ensures { result ≡ is_rank len }
{
    1 <= len && len <= MAX_RANK
}

fn has_negative(list: &[i64]) -> bool
    ensures { result ≡ list_any is_negative list.now }
{
    match list {
        [] => false,
        [first, rest @ ..] => *first < 0 || has_negative(rest),
    }
}

/// The volume, if it fits in 64 bits. A dimension of 0 makes it 0, whatever the others are.
pub(crate) fn volume(list: &[i64]) -> Option<u64>
    ensures { result
        ≡ (if nat_lt (volume (sizes list.now)) (2 ^ 64) then Some (volume (sizes list.now)) else None) }
{
    let [first, rest @ ..] = list else {
        return Some(1);
    };
    let first = size(*first);
    if first == 0 {
        return Some(0);
    }
    match volume(rest) {
        Some(rest) => (first as u64).checked_mul(rest),
        None => None,
    }
}

/// A non-negative number, or 0.
pub(crate) fn size(number: i64) -> usize
    ensures { result ≡ size number }
{
    if number < 0 { 0 } else { number as usize }
}
