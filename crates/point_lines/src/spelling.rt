//! Points written in lines.
ghost use Rattle.std.specs.Prelude.{◌≡◌, ◌<◌, ◌++◌, ◌∷◌, IfOk, OnOk};
ghost use Rattle.std.specs.Fmt.{signed_decimal};
ghost use Rattle.std.specs.Option.{option_map};
ghost use Rattle.point_lines.specs.Spelling.{bytes_text, hex_digit, hex_text, is_line, is_of_kind, line_of, lines_of, point_text, text_of, truth_text};

use crate::kinds;
use crate::lines::MAX_LINE_LEN;
use crate::marks::parted;
use etp_values::{DataValue, NoMemory, Point};
use itoa::Buffer;
use std::alloc::Global;

/// How many hexadecimal digits a float has.
const FLOAT_DIGITS: usize = 8;

/// How many a double has.
const DOUBLE_DIGITS: usize = 16;

/// The digit of a number below 16.
fn digit_of(n: u8) -> u8
    requires { n < 16 }
    ensures { result ≡ hex_digit n }
{
    if n < 10 { b'0' + n } else { b'A' - 10 + n }
}

/// Appends the last digits of a number in hexadecimal, as many as `count`.
#[tactic(auto, using(crate::proofs::SpellLemmas::hex_none))]
fn put_bits(into: &mut Vec<u8>, count: usize, bits: u64) -> Result<(), NoMemory>
    ensures { OnOk result (into.new.items ≡ into.old.items ++ hex_text count bits) }
{
    if count == 0 {
        return Ok(());
    }
    put_bits(into, count - 1, bits / 16)?;
    into.push(digit_of((bits % 16) as u8))?;
    Ok(())
}

/// Appends bytes in hexadecimal.
fn put_bytes(into: &mut Vec<u8>, bytes: &[u8]) -> Result<(), NoMemory>
    ensures { OnOk result (into.new.items ≡ into.old.items ++ bytes_text bytes.now) }
{
    for byte in bytes {
        into.push(digit_of(*byte / 16))?;
        into.push(digit_of(*byte % 16))?;
    }
    Ok(())
}

/// Appends a number in decimal.
fn put_number(into: &mut Vec<u8>, number: i64) -> Result<(), NoMemory>
    ensures { OnOk result (into.new.items ≡ into.old.items ++ signed_decimal number) }
{
    let mut buffer = Buffer::new();
    into.extend_from_slice(buffer.format(number).as_bytes())?;
    Ok(())
}

/// Appends `true` or `false`.
fn put_truth(into: &mut Vec<u8>, truth: bool) -> Result<(), NoMemory>
    ensures { OnOk result (into.new.items ≡ into.old.items ++ truth_text truth) }
{
    if truth {
        into.extend_from_slice(b"true")?;
    } else {
        into.extend_from_slice(b"false")?;
    }
    Ok(())
}

/// Whether a channel of this kind has such values.
fn is_of_kind(kind: u32, value: &DataValue) -> bool
    ensures { result ≡ is_of_kind kind value.now }
{
    match value {
        DataValue::Boolean(_) => kind == kinds::BOOLEAN,
        DataValue::Int(_) => kind == kinds::INT,
        DataValue::Long(_) => kind == kinds::LONG,
        DataValue::Float(_) => kind == kinds::FLOAT,
        DataValue::Double(_) => kind == kinds::DOUBLE,
        DataValue::String(_) => kind == kinds::STRING,
        DataValue::Bytes(_) => kind == kinds::BYTES,
        _ => false,
    }
}

/// Appends the text of a value, if it has one.
fn put_value(into: &mut Vec<u8>, value: &DataValue) -> Result<(), NoMemory>
    ensures { OnOk result (into.new.items ≡ into.old.items ++ text_of value.now) }
{
    match value {
        DataValue::Boolean(truth) => put_truth(into, *truth),
        DataValue::Int(number) => put_number(into, i64::from(*number)),
        DataValue::Long(number) => put_number(into, *number),
        DataValue::Float(bits) => put_bits(into, FLOAT_DIGITS, u64::from(bits.0)),
        DataValue::Double(bits) => put_bits(into, DOUBLE_DIGITS, bits.0),
        DataValue::String(text) => put_all(into, text.get().as_bytes()),
        DataValue::Bytes(bytes) => put_bytes(into, bytes.get().as_bytes()),
        _ => Ok(()),
    }
}

/// Appends bytes as they are.
fn put_all(into: &mut Vec<u8>, bytes: &[u8]) -> Result<(), NoMemory>
    ensures { OnOk result (into.new.items ≡ into.old.items ++ bytes.now) }
{
    into.extend_from_slice(bytes)?;
    Ok(())
}

/// Appends a point's index and value.
fn put_point(into: &mut Vec<u8>, point: &Point) -> Result<(), NoMemory>
    ensures { OnOk result (into.new.items ≡ into.old.items ++ point_text point.now) }
{
    put_number(into, point.index)?;
    into.push(b' ')?;
    put_value(into, &point.value)
}

/// Whether bytes are one line.
fn is_line(bytes: &[u8]) -> bool
    ensures { result ≡ is_line bytes.now }
{
    parted(b'\n', bytes).is_none() && bytes.len() <= MAX_LINE_LEN
}

/// The line of a point of a channel of this kind, if a line can denote the point.
fn line_of(alloc: Global, kind: u32, point: &Point) -> Result<Option<Vec<u8>>, NoMemory>
    ensures { IfOk result (λ line. option_map (λ l. l.items) line ≡ line_of kind point.now) }
{
    if !is_of_kind(kind, &point.value) {
        return Ok(None);
    }
    let mut line = Vec::new(alloc);
    put_point(&mut line, point)?;
    if is_line(line.as_slice()) {
        Ok(Some(line))
    } else {
        Ok(None)
    }
}

/// The lines `INDEX VALUE` of points of a channel of this kind, from which [`point_in`](crate::point_in) reads the same points. `None` if
/// a line can't denote one of them: its value is not of the channel's kind or has a line feed, or its line would be too long.
pub fn lines_of(alloc: Global, kind: u32, points: &[Point]) -> Result<Option<Vec<u8>>, NoMemory>
    ensures { IfOk result (λ lines. option_map (λ l. l.items) lines ≡ lines_of kind points.now) }
{
    let mut lines = Vec::new(alloc);
    for point in points {
        let Some(line) = line_of(alloc, kind, point)? else {
            return Ok(None);
        };
        lines.extend_from_slice(line.as_slice())?;
        lines.push(b'\n')?;
    }
    Ok(Some(lines))
}
