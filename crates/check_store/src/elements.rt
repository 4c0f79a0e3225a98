//! Elements of arrays, separated by commas.
use crate::words::{members, numbers, texts};
use etp_values::{AnyArray, Bits32, Bits64, Blob, List, NoMemory};
use std::alloc::Global;

fn booleans(alloc: Global, items: &[&str]) -> Result<List<bool>, NoMemory> {
    let mut values = Vec::new(alloc);
    for item in items {
        values.push(*item == "true")?;
    }
    Ok(List::from_vec(values))
}

fn ints(alloc: Global, items: &[&str]) -> Result<List<i32>, NoMemory> {
    let mut values = Vec::new(alloc);
    for item in items {
        values.push(item.parse::<i32>().unwrap_or(0))?;
    }
    Ok(List::from_vec(values))
}

fn floats(alloc: Global, items: &[&str]) -> Result<List<Bits32>, NoMemory> {
    let mut values = Vec::new(alloc);
    for item in items {
        values.push(Bits32(item.parse::<u32>().unwrap_or(0)))?;
    }
    Ok(List::from_vec(values))
}

fn doubles(alloc: Global, items: &[&str]) -> Result<List<Bits64>, NoMemory> {
    let mut values = Vec::new(alloc);
    for item in items {
        values.push(Bits64(item.parse::<u64>().unwrap_or(0)))?;
    }
    Ok(List::from_vec(values))
}

fn bytes(alloc: Global, items: &[&str]) -> Result<Blob, NoMemory> {
    let mut values = Vec::new(alloc);
    for item in items {
        values.push(item.parse::<u8>().unwrap_or(0))?;
    }
    Blob::from_vec(values)
}

/// Elements of a kind. Floats and doubles are given by their bits.
pub(crate) fn elements(alloc: Global, kind: &str, word: &str) -> Result<AnyArray, NoMemory> {
    let items = members(alloc, word, ',')?;
    let items = items.as_slice();
    match kind {
        "boolean" => Ok(AnyArray::ArrayOfBoolean(booleans(alloc, items)?)),
        "int" => Ok(AnyArray::ArrayOfInt(ints(alloc, items)?)),
        "long" => Ok(AnyArray::ArrayOfLong(numbers(alloc, word)?)),
        "float" => Ok(AnyArray::ArrayOfFloat(floats(alloc, items)?)),
        "double" => Ok(AnyArray::ArrayOfDouble(doubles(alloc, items)?)),
        "string" => Ok(AnyArray::ArrayOfString(texts(alloc, word, ',')?)),
        _ => Ok(AnyArray::Bytes(bytes(alloc, items)?)),
    }
}
