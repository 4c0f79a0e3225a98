//! Values of points and of custom data: a letter, and its content.
use crate::words::{blob_of, longs, members, text_of, texts};
use etp_values::{Bits32, Bits64, Boxed, DataValue, Named, NoMemory, Text};
use std::alloc::Global;

fn string(alloc: Global, word: &str) -> Result<DataValue, NoMemory> {
    Ok(DataValue::String(Boxed::new(alloc, text_of(alloc, word)?)?))
}

fn bytes(alloc: Global, word: &str) -> Result<DataValue, NoMemory> {
    Ok(DataValue::Bytes(Boxed::new(alloc, blob_of(alloc, word)?)?))
}

fn list_of_longs(alloc: Global, word: &str) -> Result<DataValue, NoMemory> {
    let items = longs(alloc, word, '+')?;
    Ok(DataValue::ArrayOfLong(Boxed::new(alloc, items)?))
}

fn list_of_texts(alloc: Global, word: &str) -> Result<DataValue, NoMemory> {
    let items = texts(alloc, word, '+')?;
    Ok(DataValue::ArrayOfString(Boxed::new(alloc, items)?))
}

/// A boxed value, by its letter.
fn long_value(alloc: Global, letter: &str, content: &str) -> Result<DataValue, NoMemory> {
    match letter {
        "s" => string(alloc, content),
        "x" => bytes(alloc, content),
        "L" => list_of_longs(alloc, content),
        "S" => list_of_texts(alloc, content),
        _ => Ok(DataValue::Null),
    }
}

fn boolean(content: &str) -> DataValue {
    DataValue::Boolean(content == "1")
}

fn int(content: &str) -> DataValue {
    DataValue::Int(content.parse::<i32>().unwrap_or(0))
}

fn long(content: &str) -> DataValue {
    DataValue::Long(content.parse::<i64>().unwrap_or(0))
}

fn float(content: &str) -> DataValue {
    DataValue::Float(Bits32(content.parse::<u32>().unwrap_or(0)))
}

fn double(content: &str) -> DataValue {
    DataValue::Double(Bits64(content.parse::<u64>().unwrap_or(0)))
}

/// The value of a word.
pub(crate) fn value_of(alloc: Global, word: &str) -> Result<DataValue, NoMemory> {
    let Some((letter, content)) = word.split_at_checked(1) else {
        return Ok(DataValue::Null);
    };
    match letter {
        "b" => Ok(boolean(content)),
        "i" => Ok(int(content)),
        "l" => Ok(long(content)),
        "f" => Ok(float(content)),
        "d" => Ok(double(content)),
        _ => long_value(alloc, letter, content),
    }
}

fn pair_of(alloc: Global, word: &str) -> Result<(Text, DataValue), NoMemory> {
    let (name, value) = word.split_once('=').unwrap_or((word, "n"));
    Ok((Text::copy(alloc, name)?, value_of(alloc, value)?))
}

/// Custom data, with commas between the pairs.
pub(crate) fn custom_of(alloc: Global, word: &str) -> Result<Named<DataValue>, NoMemory> {
    let members = members(alloc, word, ',')?;
    let mut pairs = Vec::new(alloc);
    for member in members.as_slice() {
        pairs.push(pair_of(alloc, member)?)?;
    }
    Ok(Named::from_pairs(pairs)?.unwrap_or(Named::new(alloc)))
}
