//! Words, and what they name. `-` is no bytes, or an empty list.
use etp_values::{Blob, Id16, List, NoMemory};
use std::alloc::Global;

/// The parts of a text between marks.
pub(crate) fn words_of<'a>(
    alloc: Global,
    text: &'a str,
    mark: char,
) -> Result<Vec<&'a str>, NoMemory> {
    let mut words = Vec::new(alloc);
    if text == "-" {
        return Ok(words);
    }
    for word in text.split(mark) {
        words.push(word)?;
    }
    Ok(words)
}

/// Bytes in hexadecimal digits.
pub(crate) fn bytes_of(alloc: Global, word: &str) -> Result<Blob, NoMemory> {
    if word == "-" {
        return Ok(Blob::new());
    }
    match hex::decode(alloc, word) {
        Ok(bytes) => Blob::from_vec(bytes),
        Err(_) => Err(NoMemory),
    }
}

/// An identifier in 32 hexadecimal digits.
pub(crate) fn id_of(alloc: Global, word: &str) -> Result<Id16, NoMemory> {
    let bytes = bytes_of(alloc, word)?;
    let mut id = [0; 16];
    if bytes.len() == 16 {
        id.copy_from_slice(bytes.as_bytes());
    }
    Ok(Id16::from_bytes(id))
}

/// Numbers between commas.
pub(crate) fn numbers_of(alloc: Global, word: &str) -> Result<List<u64>, NoMemory> {
    let mut numbers = Vec::new(alloc);
    for number in words_of(alloc, word, ',')? {
        numbers.push(number.parse::<u64>().unwrap_or(0))?;
    }
    Ok(List::from_vec(numbers))
}

/// Spellings between commas.
pub(crate) fn spellings_of(alloc: Global, word: &str) -> Result<List<Blob>, NoMemory> {
    let mut spellings = Vec::new(alloc);
    for digits in words_of(alloc, word, ',')? {
        spellings.push(bytes_of(alloc, digits)?)?;
    }
    Ok(List::from_vec(spellings))
}

/// Bytes in hexadecimal digits.
pub(crate) fn digits_of(alloc: Global, bytes: &[u8]) -> Result<String, NoMemory> {
    Ok(hex::encode(alloc, bytes)?)
}
