//! Words, and the keys that they name. `-` is the empty text, and so the path of the default dataspace.
use etp_values::{Id16, NoMemory, ObjectName, StoreUri, Text};
use std::alloc::Global;

/// The words of a text.
pub(crate) fn words_of<'a>(alloc: Global, text: &'a str) -> Result<Vec<&'a str>, NoMemory> {
    let mut words = Vec::new(alloc);
    for word in text.split(' ') {
        words.push(word)?;
    }
    Ok(words)
}

/// The text of a word.
pub(crate) fn text_of(word: &str) -> &str {
    if word == "-" { "" } else { word }
}

/// The path of a dataspace.
pub(crate) fn path_of(alloc: Global, word: &str) -> Result<Text, NoMemory> {
    Ok(Text::copy(alloc, text_of(word))?)
}

/// The name of the well of a number.
fn name_of(alloc: Global, number: &str) -> Result<ObjectName, NoMemory> {
    let domain = Text::copy(alloc, "witsml21")?;
    let name = Text::copy(alloc, "Well")?;
    let id = Id16::from_bytes([number.parse::<u8>().unwrap_or(0); 16]);
    Ok(ObjectName { domain, name, id })
}

/// The URI of the well of a number in a dataspace.
pub(crate) fn uri_of(alloc: Global, space: &str, number: &str) -> Result<StoreUri, NoMemory> {
    let space = path_of(alloc, space)?;
    let object = Some(name_of(alloc, number)?);
    Ok(StoreUri { space, object })
}
