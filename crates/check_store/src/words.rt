//! Words, and the numbers, texts and lists that they are. `-` is the empty text or list, and a text may be written as
//! `PIECE*COUNT`.
use etp_values::{Blob, List, NoMemory, Text};
use std::alloc::Global;

/// The words of a text.
pub(crate) fn words_of<'a>(alloc: Global, text: &'a str) -> Result<Vec<&'a str>, NoMemory> {
    let mut words = Vec::new(alloc);
    for word in text.split(' ') {
        words.push(word)?;
    }
    Ok(words)
}

/// The items after a colon, each of which has words; none if there is nothing.
pub(crate) fn items_of<'a>(alloc: Global, text: &'a str) -> Result<Vec<&'a str>, NoMemory> {
    let mut items = Vec::new(alloc);
    if text.is_empty() {
        return Ok(items);
    }
    for item in text.split(';') {
        items.push(item)?;
    }
    Ok(items)
}

/// The members of a list.
pub(crate) fn members<'a>(
    alloc: Global,
    word: &'a str,
    between: char,
) -> Result<Vec<&'a str>, NoMemory> {
    let mut members = Vec::new(alloc);
    if word == "-" {
        return Ok(members);
    }
    for member in word.split(between) {
        members.push(member)?;
    }
    Ok(members)
}

/// A number, as an index or a moment.
pub(crate) fn number(word: &str) -> i64 {
    word.parse::<i64>().unwrap_or(0)
}

/// A count or an index.
pub(crate) fn count(word: &str) -> u32 {
    word.parse::<u32>().unwrap_or(0)
}

/// Numbers, separated by commas.
pub(crate) fn numbers(alloc: Global, word: &str) -> Result<List<i64>, NoMemory> {
    longs(alloc, word, ',')
}

/// Numbers, with this between them.
pub(crate) fn longs(alloc: Global, word: &str, between: char) -> Result<List<i64>, NoMemory> {
    let members = members(alloc, word, between)?;
    let mut values = Vec::new(alloc);
    for member in members.as_slice() {
        values.push(number(member))?;
    }
    Ok(List::from_vec(values))
}

/// A piece, repeated.
fn times(alloc: Global, piece: &str, count: u32) -> Result<String, NoMemory> {
    let mut text = String::new(alloc);
    for _ in 0..count {
        text.push_str(piece)?;
    }
    Ok(text)
}

/// A piece, repeated, by blocks of 1,024.
fn repeated(alloc: Global, piece: &str, count: u32) -> Result<Text, NoMemory> {
    let block = times(alloc, piece, 1024)?;
    let mut text = times(alloc, block.as_str(), count / 1024)?;
    text.push_str(times(alloc, piece, count % 1024)?.as_str())?;
    Ok(Text::from_string(text))
}

/// The text of a word.
pub(crate) fn text_of(alloc: Global, word: &str) -> Result<Text, NoMemory> {
    if word == "-" {
        return Ok(Text::new(alloc));
    }
    match word.split_once('*') {
        Some((piece, times)) => repeated(alloc, piece, count(times)),
        None => Text::copy(alloc, word),
    }
}

/// The bytes of a word's text.
pub(crate) fn blob_of(alloc: Global, word: &str) -> Result<Blob, NoMemory> {
    let text = text_of(alloc, word)?;
    Blob::copy(alloc, text.as_bytes())
}

/// Texts, with this between them.
pub(crate) fn texts(alloc: Global, word: &str, between: char) -> Result<List<Text>, NoMemory> {
    let members = members(alloc, word, between)?;
    let mut values = Vec::new(alloc);
    for member in members.as_slice() {
        values.push(text_of(alloc, member)?)?;
    }
    Ok(List::from_vec(values))
}
