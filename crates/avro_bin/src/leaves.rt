//! Values that hold no others: the value at the front of the bytes, and what follows it.
ghost use Rattle.std.specs.Prelude.{◌<◌};
ghost use Rattle.avro_bin.specs.Reading.{Gives, boolean_at, int_at, bytes_at, blob_at, text_at, place_at, fixed_number_at};
ghost use Rattle.std.specs.Int.{w32, w64};

use crate::fault::{Fault, Why};
use crate::numbers::number;

/// One byte, 0 or 1.
#[tactic(auto, unfolding(crate::specs::Reading::boolean_at))]
pub fn boolean(bytes: &[u8]) -> Result<(bool, &[u8]), Fault>
    ensures { Gives (λ x. (x.0, x.1.now)) result (boolean_at bytes.now) }
{
    match bytes {
        [] => Err(Fault::At(Why::Short, 0)),
        [0, rest @ ..] => Ok((false, rest)),
        [1, rest @ ..] => Ok((true, rest)),
        [_, ..] => Err(Fault::At(Why::Bool, bytes.len())),
    }
}

/// A number of 32 bits.
#[tactic(auto, unfolding(crate::specs::Reading::int_at))]
pub fn int(bytes: &[u8]) -> Result<(i32, &[u8]), Fault>
    ensures { Gives (λ x. (x.0, x.1.now)) result (int_at bytes.now) }
{
    let (x, rest) = number(bytes)?;
    if -2_147_483_648 <= x && x <= 2_147_483_647 {
        Ok((x as i32, rest))
    } else {
        Err(Fault::At(Why::Range, bytes.len()))
    }
}

/// The next `count` bytes, of an item that begins where `left` bytes are left.
#[tactic(auto, unfolding(crate::specs::Reading::bytes_at))]
pub fn bytes_of(left: usize, size: u64, bytes: &[u8]) -> Result<(&[u8], &[u8]), Fault>
    ensures { Gives (λ x. (x.0.now, x.1.now)) result (bytes_at left size bytes.now) }
{
    if (bytes.len() as u64) < size {
        return Err(Fault::At(Why::Short, left));
    }
    Ok(bytes.split_at(size as usize))
}

/// A length, and that many bytes.
#[tactic(auto, unfolding(crate::specs::Reading::blob_at))]
pub fn blob(bytes: &[u8]) -> Result<(&[u8], &[u8]), Fault>
    ensures { Gives (λ x. (x.0.now, x.1.now)) result (blob_at bytes.now) }
{
    let (size, rest) = number(bytes)?;
    if size < 0 {
        return Err(Fault::At(Why::Length, bytes.len()));
    }
    bytes_of(bytes.len(), size as u64, rest)
}

/// The place, from 0, of one of `count` symbols or branches. It is an int.
#[tactic(auto, unfolding(crate::specs::Reading::place_at))]
pub fn place(count: usize, bytes: &[u8]) -> Result<(u32, &[u8]), Fault>
    ensures { Gives (λ x. (x.0, x.1.now)) result (place_at count bytes.now) }
{
    let (x, rest) = number(bytes)?;
    if 0 <= x && x <= 2_147_483_647 && (x as usize) < count {
        Ok((x as u32, rest))
    } else {
        Err(Fault::At(Why::Branch, bytes.len()))
    }
}

/// The bits of a single, the lowest byte first.
#[tactic(auto, unfolding(crate::specs::Reading::fixed_number_at))]
pub fn float(bytes: &[u8]) -> Result<(u32, &[u8]), Fault>
    ensures { Gives (λ x. (x.0, x.1.now)) result (fixed_number_at w32 bytes.now) }
{
    if bytes.len() < 4 {
        return Err(Fault::At(Why::Short, bytes.len()));
    }
    let (b, rest) = bytes.split_at(4);
    Ok((u32::from_le_bytes([b[0], b[1], b[2], b[3]]), rest))
}

/// The bits of a double, the lowest byte first.
#[tactic(auto, unfolding(crate::specs::Reading::fixed_number_at))]
pub fn double(bytes: &[u8]) -> Result<(u64, &[u8]), Fault>
    ensures { Gives (λ x. (x.0, x.1.now)) result (fixed_number_at w64 bytes.now) }
{
    if bytes.len() < 8 {
        return Err(Fault::At(Why::Short, bytes.len()));
    }
    let (b, rest) = bytes.split_at(8);
    Ok((
        u64::from_le_bytes([b[0], b[1], b[2], b[3], b[4], b[5], b[6], b[7]]),
        rest,
    ))
}

/// A length, and that many bytes of UTF-8.
#[tactic(auto, unfolding(crate::specs::Reading::text_at), using(crate::proofs::TextLemmas::valid_is))]
pub fn text(bytes: &[u8]) -> Result<(&str, &[u8]), Fault>
    ensures { Gives (λ x. (x.0.now, x.1.now)) result (text_at bytes.now) }
{
    let (b, rest) = blob(bytes)?;
    match str::from_utf8(b) {
        Ok(text) => Ok((text, rest)),
        Err(_) => Err(Fault::At(Why::Utf8, bytes.len())),
    }
}
