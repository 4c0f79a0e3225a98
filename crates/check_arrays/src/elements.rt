//! Lists and elements from their words. `-` is the empty list, and a text may be written as `PIECE*COUNT`.
use etp_values::{AnyArray, Bits32, Bits64, Blob, List, NoMemory, Text};
use std::alloc::Global;

/// The items of a list.
fn items_of<'a>(alloc: Global, word: &'a str) -> Result<Vec<&'a str>, NoMemory> {
    let mut items = Vec::new(alloc);
    if word == "-" {
        return Ok(items);
    }
    for item in word.split(',') {
        items.push(item)?;
    }
    Ok(items)
}

fn booleans(alloc: Global, items: &[&str]) -> Result<List<bool>, NoMemory> {
    let mut values = Vec::new(alloc);
    for item in items {
        values.push(*item == "true")?;
    }
    Ok(List::from_vec(values))
}

fn ints(alloc: Global, items: &[&str]) -> Result<List<i32>, NoMemory> {
    let mut values = Vec::new(alloc);
    for item in items {
        values.push(item.parse::<i32>().unwrap_or(0))?;
    }
    Ok(List::from_vec(values))
}

fn longs(alloc: Global, items: &[&str]) -> Result<List<i64>, NoMemory> {
    let mut values = Vec::new(alloc);
    for item in items {
        values.push(item.parse::<i64>().unwrap_or(0))?;
    }
    Ok(List::from_vec(values))
}

fn floats(alloc: Global, items: &[&str]) -> Result<List<Bits32>, NoMemory> {
    let mut values = Vec::new(alloc);
    for item in items {
        values.push(Bits32(item.parse::<u32>().unwrap_or(0)))?;
    }
    Ok(List::from_vec(values))
}

fn doubles(alloc: Global, items: &[&str]) -> Result<List<Bits64>, NoMemory> {
    let mut values = Vec::new(alloc);
    for item in items {
        values.push(Bits64(item.parse::<u64>().unwrap_or(0)))?;
    }
    Ok(List::from_vec(values))
}

/// A piece, repeated.
fn times(alloc: Global, piece: &str, count: u32) -> Result<String, NoMemory> {
    let mut text = String::new(alloc);
    for _ in 0..count {
        text.push_str(piece)?;
    }
    Ok(text)
}

/// A piece, repeated, by blocks of 1,024.
fn repeated(alloc: Global, piece: &str, count: u32) -> Result<Text, NoMemory> {
    let block = times(alloc, piece, 1024)?;
    let mut text = times(alloc, block.as_str(), count / 1024)?;
    text.push_str(times(alloc, piece, count % 1024)?.as_str())?;
    Ok(Text::from_string(text))
}

fn text(alloc: Global, item: &str) -> Result<Text, NoMemory> {
    match item.split_once('*') {
        Some((piece, count)) => repeated(alloc, piece, count.parse::<u32>().unwrap_or(0)),
        None => Text::copy(alloc, item),
    }
}

fn texts(alloc: Global, items: &[&str]) -> Result<List<Text>, NoMemory> {
    let mut values = Vec::new(alloc);
    for item in items {
        values.push(text(alloc, item)?)?;
    }
    Ok(List::from_vec(values))
}

fn bytes(alloc: Global, items: &[&str]) -> Result<Blob, NoMemory> {
    let mut values = Vec::new(alloc);
    for item in items {
        values.push(item.parse::<u8>().unwrap_or(0))?;
    }
    Blob::from_vec(values)
}

/// The numbers of a list.
pub(crate) fn numbers(alloc: Global, word: &str) -> Result<List<i64>, NoMemory> {
    longs(alloc, items_of(alloc, word)?.as_slice())
}

/// Elements of a kind. Floats and doubles are given by their bits.
pub(crate) fn elements(alloc: Global, kind: &str, word: &str) -> Result<AnyArray, NoMemory> {
    let items = items_of(alloc, word)?;
    let items = items.as_slice();
    if kind == "boolean" {
        Ok(AnyArray::ArrayOfBoolean(booleans(alloc, items)?))
    } else if kind == "int" {
        Ok(AnyArray::ArrayOfInt(ints(alloc, items)?))
    } else if kind == "long" {
        Ok(AnyArray::ArrayOfLong(longs(alloc, items)?))
    } else if kind == "float" {
        Ok(AnyArray::ArrayOfFloat(floats(alloc, items)?))
    } else if kind == "double" {
        Ok(AnyArray::ArrayOfDouble(doubles(alloc, items)?))
    } else if kind == "string" {
        Ok(AnyArray::ArrayOfString(texts(alloc, items)?))
    } else {
        Ok(AnyArray::Bytes(bytes(alloc, items)?))
    }
}
