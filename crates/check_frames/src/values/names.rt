//! URIs, identifiers, names and texts.
use etp_values::{Boxed, Copied, Id16, Named, NoMemory, Shared, StoreUri, Text, UriError};
use std::alloc::Global;

/// The canonical text of a URI's copy, or why the text is not one.
pub(crate) fn uri(alloc: Global, text: &str) -> Result<String, NoMemory> {
    match StoreUri::read(alloc, text) {
        Ok(uri) => canonical(alloc, &uri),
        Err(error) => Ok(error.to_string(alloc)?),
    }
}

fn canonical(alloc: Global, uri: &StoreUri) -> Result<String, NoMemory> {
    let copy = uri.copy(alloc)?;
    let text = copy.write(alloc)?;
    let same = copy.same(uri);
    let text = text.as_str();
    Ok(format!(in alloc; "{same} {text}")?)
}

pub(crate) fn without_memory(alloc: Global) -> Result<String, NoMemory> {
    Ok(UriError::NoMemory.to_string(alloc)?)
}

/// The text of an identifier.
fn id_text(alloc: Global, id: Id16) -> Result<String, NoMemory> {
    let mut buffer = [0; 40];
    Ok(String::from_str(alloc, id.write(&mut buffer))?)
}

pub(crate) fn id(alloc: Global, text: &str) -> Result<String, NoMemory> {
    match Id16::read(text) {
        Some(id) => id_text(alloc, id),
        None => Ok(String::from_str(alloc, "none")?),
    }
}

/// The identifier of a text in a name space: the identifier, and the text after it.
pub(crate) fn named(alloc: Global, words: &str) -> Result<String, NoMemory> {
    let Some((space, text)) = words.split_once(' ') else {
        return Ok(String::new(alloc));
    };
    match Id16::read(space) {
        Some(space) => id_text(alloc, Id16::named(space, text)),
        None => Ok(String::from_str(alloc, "none")?),
    }
}

/// The names of a line, each with its place.
fn places(alloc: Global, words: &str) -> Result<Vec<(Text, i64)>, NoMemory> {
    let mut pairs = Vec::new(alloc);
    let mut place: i64 = 0;
    for word in words.split(' ') {
        pairs.push((Text::copy(alloc, word)?, place))?;
        place = place.saturating_add(1);
    }
    Ok(pairs)
}

pub(crate) fn pairs(alloc: Global, words: &str) -> Result<String, NoMemory> {
    match Named::from_pairs(places(alloc, words)?)? {
        Some(named) => show_pairs(alloc, &named.copy(alloc)?),
        None => Ok(String::from_str(alloc, "twice")?),
    }
}

fn show_pairs(alloc: Global, named: &Named<i64>) -> Result<String, NoMemory> {
    let mut text = String::new(alloc);
    for (name, place) in named.as_slice() {
        let name = name.as_str();
        text.push_str(format!(in alloc; "{name}={place} ")?.as_str())?;
    }
    Ok(text)
}

/// Accepts only what may be moved to another thread, and seen there by several.
fn crossing<T: Send + Sync>(value: T) -> T {
    value
}

pub(crate) fn shared(alloc: Global, text: &str) -> Result<String, NoMemory> {
    let boxed = crossing(Boxed::new(alloc, Text::copy(alloc, text)?)?);
    let shared = crossing(Shared::new(alloc, boxed.copy(alloc)?.into_inner())?);
    let other = shared.copy(alloc)?;
    drop(shared);
    let (one, two) = (boxed.get().as_str(), other.get().as_str());
    Ok(format!(in alloc; "{one} {two}")?)
}
