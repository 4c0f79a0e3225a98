//! The points written in lines.
ghost use Rattle.std.specs.Prelude.{◌≡◌, ◌^◌, ◌-◌, IfOk};
ghost use Rattle.std.specs.Option.{option_map};
ghost use Rattle.etp_values.specs.declared.data.DataValue.TheVariants as value;
ghost use Rattle.point_lines.specs.Numerals.{bits_in as bits_of, bytes_in as bytes_of, integer_in as integer_of};
ghost use Rattle.point_lines.specs.Points.{long_in, point_at, point_in, text_in, truth_in, value_in};

use crate::kinds;
use crate::marks::parted;
use crate::numerals::{bits_in, bytes_in, integer_in};
use etp_values::{Bits32, Bits64, Boxed, DataValue, NoMemory, Point, Text};
use std::alloc::Global;

/// `true` or `false`.
fn truth_in(text: &[u8]) -> Option<bool>
    ensures { result ≡ truth_in text.now }
{
    if text == b"true".as_slice() {
        Some(true)
    } else if text == b"false".as_slice() {
        Some(false)
    } else {
        None
    }
}

fn boolean(text: &[u8]) -> Option<DataValue>
    ensures { result ≡ option_map value.Boolean (truth_in text.now) }
{
    match truth_in(text) {
        Some(truth) => Some(DataValue::Boolean(truth)),
        None => None,
    }
}

fn int(text: &[u8]) -> Option<DataValue>
    ensures { result ≡ option_map value.Int (integer_of (2 ^ 31 - 1) text.now) }
{
    match int_in(text) {
        Some(number) => Some(DataValue::Int(number)),
        None => None,
    }
}

/// A number of 32 bits.
fn int_in(text: &[u8]) -> Option<i32>
    ensures { result ≡ integer_of (2 ^ 31 - 1) text.now }
{
    match integer_in(i32::MAX as u64, text) {
        Some(number) => Some(number as i32),
        None => None,
    }
}

/// The number of 64 bits that a text denotes in decimal, without a sign except `-` and without an unnecessary zero.
pub fn long_in(text: &[u8]) -> Option<i64>
    ensures { result ≡ long_in text.now }
{
    integer_in(i64::MAX as u64, text)
}

fn long(text: &[u8]) -> Option<DataValue>
    ensures { result ≡ option_map value.Long (long_in text.now) }
{
    match long_in(text) {
        Some(number) => Some(DataValue::Long(number)),
        None => None,
    }
}

fn float(text: &[u8]) -> Option<DataValue>
    ensures { result ≡ option_map (λ n. value.Float (record { 0 = n })) (bits_of 8 text.now) }
{
    match bits_in(8, text) {
        Some(bits) => Some(DataValue::Float(Bits32(bits as u32))),
        None => None,
    }
}

fn double(text: &[u8]) -> Option<DataValue>
    ensures { result ≡ option_map (λ n. value.Double (record { 0 = n })) (bits_of 16 text.now) }
{
    match bits_in(16, text) {
        Some(bits) => Some(DataValue::Double(Bits64(bits))),
        None => None,
    }
}

/// A text, which is UTF-8.
fn text_in(alloc: Global, text: &[u8]) -> Result<Option<Text>, NoMemory>
    ensures { IfOk result (λ found. found ≡ text_in text.now) }
{
    match str::from_utf8(text) {
        Ok(text) => Ok(Some(Text::copy(alloc, text)?)),
        Err(_) => Ok(None),
    }
}

fn string(alloc: Global, text: &[u8]) -> Result<Option<DataValue>, NoMemory>
    ensures { IfOk result (λ found. found ≡ option_map value.String (text_in text.now)) }
{
    match text_in(alloc, text)? {
        Some(text) => Ok(Some(DataValue::String(Boxed::new(alloc, text)?))),
        None => Ok(None),
    }
}

fn bytes(alloc: Global, text: &[u8]) -> Result<Option<DataValue>, NoMemory>
    ensures { IfOk result (λ found. found ≡ option_map value.Bytes (bytes_of text.now)) }
{
    match bytes_in(alloc, text)? {
        Some(bytes) => Ok(Some(DataValue::Bytes(Boxed::new(alloc, bytes)?))),
        None => Ok(None),
    }
}

/// The value that a text denotes for a channel of this kind.
fn value_in(alloc: Global, kind: u32, text: &[u8]) -> Result<Option<DataValue>, NoMemory>
    ensures { IfOk result (λ found. found ≡ value_in kind text.now) }
{
    match kind {
        kinds::BOOLEAN => Ok(boolean(text)),
        kinds::INT => Ok(int(text)),
        kinds::LONG => Ok(long(text)),
        kinds::FLOAT => Ok(float(text)),
        kinds::DOUBLE => Ok(double(text)),
        kinds::STRING => string(alloc, text),
        kinds::BYTES => bytes(alloc, text),
        _ => Ok(None),
    }
}

/// The point of an index and a value, if both are well formed.
fn point_at(alloc: Global, kind: u32, index: &[u8], value: &[u8]) -> Result<Option<Point>, NoMemory>
    ensures { IfOk result (λ point. point ≡ point_at (long_in index.now) (value_in kind value.now)) }
{
    let Some(index) = long_in(index) else {
        return Ok(None);
    };
    match value_in(alloc, kind, value)? {
        Some(value) => Ok(Some(Point { index, value })),
        None => Ok(None),
    }
}

/// The point that a line `INDEX VALUE` denotes for a channel of this kind, or `None` if the line is malformed.
///
/// The index and the numbers are decimal, without a sign except `-` and without an unnecessary zero. A float is its bits in hexadecimal
/// capitals, a text the rest of the line, and bytes are pairs of hexadecimal digits. `kind` is the index of the kind among those of the
/// schema: 5 a truth value, 6 an int, 7 a long, 8 a float, 9 a double, 10 a text, 11 bytes.
pub fn point_in(alloc: Global, kind: u32, line: &[u8]) -> Result<Option<Point>, NoMemory>
    ensures { IfOk result (λ point. point ≡ point_in kind line.now) }
{
    match parted(b' ', line) {
        Some((index, value)) => point_at(alloc, kind, index, value),
        None => Ok(None),
    }
}
