//! Numbers as words and lines have them.
ghost use Rattle.std.specs.Prelude.{◌≡◌, ◌≤◌, ◌<◌, ◌+◌, ◌^◌, ◌*◌, length, IfSome, IfOk, true};
ghost use Rattle.std.specs.Option.{option_and_then};
ghost use Rattle.std.specs.Char.{digit_value};
ghost use Rattle.point_lines.specs.Numerals.{has_no_needless_zero, number_on, natural_in, positive_in, integer_in, is_capital_digit, bits_in, bits_on, negative, hex_value, byte_of, bytes_in};

use etp_values::{Blob, NoMemory};
use std::alloc::Global;

/// Whether digits have no unnecessary leading zero. The empty text is not a number.
fn has_no_needless_zero(digits: &[u8]) -> bool
    ensures { result ≡ has_no_needless_zero digits.now }
{
    match digits {
        [] => false,
        [_] => true,
        [first, _, ..] => *first != b'0',
    }
}

/// The number that digits denote when they follow those of `count`, if it is at most `most`.
#[tactic(auto, using(crate::proofs::NumeralLemmas::beyond))]
fn number_on(most: u64, count: u64, digits: &[u8]) -> Option<u64>
    requires within { count ≤ most }
    requires room { most ≤ 2 ^ 63 }
    ensures { result ≡ number_on most count digits.now }
{
    match digits {
        [] => Some(count),
        [digit, rest @ ..] => {
            if !digit.is_ascii_digit() {
                return None;
            }
            let longer = count
                .saturating_mul(10)
                .saturating_add(u64::from(*digit - b'0'));
            if longer > most {
                return None;
            }
            number_on(most, longer, rest)
        }
    }
}

/// A number in decimal of at most `most`, without a sign or an unnecessary zero.
fn natural_in(most: u64, text: &[u8]) -> Option<u64>
    requires { most ≤ 2 ^ 63 }
    ensures value { result ≡ natural_in most text.now }
    ensures within { IfSome result (λ n. n ≤ most) }
{
    if !has_no_needless_zero(text) {
        return None;
    }
    number_on(most, 0, text)
}

/// A number in decimal of 1 to `most`, without a sign or an unnecessary zero.
pub fn positive_in(most: u64, text: &[u8]) -> Option<u64>
    requires { most ≤ 2 ^ 63 }
    ensures { result ≡ positive_in most text.now }
{
    match natural_in(most, text) {
        None => None,
        Some(count) if count == 0 => None,
        Some(count) => Some(count),
    }
}

/// The negative number of a size of at most 2^63; 0 has no sign.
fn negative(size: u64) -> Option<i64>
    requires { size ≤ 2 ^ 63 }
    ensures { result ≡ negative size }
{
    if size == 0 {
        return None;
    }
    Some(-1 - (size - 1) as i64)
}

/// A number in decimal of a signed type whose greatest is `most`: a hyphen and a number of at least 1, or a number.
pub(crate) fn integer_in(most: u64, text: &[u8]) -> Option<i64>
    requires { most < 2 ^ 63 }
    ensures { result ≡ integer_in most text.now }
{
    match text {
        [] => None,
        [first, rest @ ..] => {
            if *first == b'-' {
                return negative_in(most + 1, rest);
            }
            match natural_in(most, text) {
                None => None,
                Some(size) => Some(size as i64),
            }
        }
    }
}

/// The negative number whose size a text denotes.
fn negative_in(most: u64, text: &[u8]) -> Option<i64>
    requires { most ≤ 2 ^ 63 }
    ensures { result ≡ option_and_then negative (natural_in most text.now) }
{
    match natural_in(most, text) {
        None => None,
        Some(size) => negative(size),
    }
}

/// The value of a hexadecimal digit in either case.
fn hex_value(digit: u8) -> Option<u8>
    ensures { result ≡ hex_value digit }
{
    match digit {
        b'0'..=b'9' => Some(digit - b'0'),
        b'A'..=b'F' => Some(digit - b'A' + 10),
        b'a'..=b'f' => Some(digit - b'a' + 10),
        _ => None,
    }
}

/// The byte of two hexadecimal digits.
fn byte_of(high: u8, low: u8) -> Option<u8>
    ensures { result ≡ byte_of (hex_value high) (hex_value low) }
{
    let high = hex_value(high)?;
    let low = hex_value(low)?;
    Some(16 * high + low)
}

fn is_capital_digit(c: u8) -> bool
    ensures { result ≡ is_capital_digit c }
{
    c.is_ascii_digit() || (b'A' <= c && c <= b'F')
}

/// The value of such a digit.
fn capital_value(c: u8) -> u64
    requires { is_capital_digit c ≡ true }
    ensures value { result ≡ digit_value c }
    ensures small { result < 16 }
{
    if c <= b'9' {
        u64::from(c - b'0')
    } else {
        u64::from(c - b'A' + 10)
    }
}

/// The number that such digits denote when they follow those of `bits`.
#[tactic(auto, using(crate::proofs::BitLemmas::bits_end))]
fn bits_on(bits: u64, digits: &[u8]) -> Option<u64>
    requires { (bits + 1) * 16 ^ length digits.now ≤ 2 ^ 64 }
    ensures value { result ≡ bits_on bits digits.now }
    ensures within { IfSome result (λ n. n < (bits + 1) * 16 ^ length digits.now) }
{
    match digits {
        [] => Some(bits),
        [digit, rest @ ..] => {
            if !is_capital_digit(*digit) {
                return None;
            }
            bits_on(bits * 16 + capital_value(*digit), rest)
        }
    }
}

/// The number of exactly `count` hexadecimal digits, whose letters are capitals.
#[tactic(auto, using(crate::proofs::BitLemmas::bits_whole))]
pub(crate) fn bits_in(count: usize, text: &[u8]) -> Option<u64>
    requires { 16 ^ count ≤ 2 ^ 64 }
    ensures value { result ≡ bits_in count text.now }
    ensures within { IfSome result (λ bits. bits < 16 ^ count) }
{
    if text.len() != count {
        return None;
    }
    bits_on(0, text)
}

/// Bytes, of two hexadecimal digits each.
pub(crate) fn bytes_in(alloc: Global, text: &[u8]) -> Result<Option<Blob>, NoMemory>
    ensures { IfOk result (λ bytes. bytes ≡ bytes_in text.now) }
{
    let mut bytes = Vec::new(alloc);
    for i in 0..text.len() / 2 {
        let Some(byte) = byte_of(text[2 * i], text[2 * i + 1]) else {
            return Ok(None);
        };
        bytes.push(byte)?;
    }
    if text.len() % 2 == 1 {
        return Ok(None);
    }
    Ok(Some(Blob::from_vec(bytes)?))
}
