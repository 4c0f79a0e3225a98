//! What a line of the input says about a run.
use etp_outside::{Item, MemDial, MemFile, MemHost, MemLink, MemSink, MemSource};
use etp_values::{Blob, List, NoMemory, Text};
use std::alloc::Global;

/// The name of the file that a host has.
const FILE_NAME: &str = "file";

/// What a run is given.
#[derive(Drop)]
pub(crate) struct Case {
    pub(crate) words: Vec<String>,
    pub(crate) host: MemHost,
    pub(crate) dialer: MemDial,
    pub(crate) input: MemSource,
    pub(crate) out: MemSink,
}

/// The bytes of a word in hexadecimal, or none for `-`.
fn content_of(alloc: Global, word: &str) -> Result<Blob, NoMemory> {
    if word == "-" {
        return Blob::from_vec(Vec::new(alloc));
    }
    match hex::decode(alloc, word) {
        Ok(bytes) => Blob::from_vec(bytes),
        Err(_) => Err(NoMemory),
    }
}

fn words_of(alloc: Global, text: &str) -> Result<Vec<String>, NoMemory> {
    let mut words = Vec::new(alloc);
    for word in text.split_whitespace() {
        words.push(String::from_str(alloc, word)?)?;
    }
    Ok(words)
}

/// A host with one file of this content, or without one for `-`.
fn host_of(alloc: Global, word: &str) -> Result<MemHost, NoMemory> {
    let mut files = Vec::new(alloc);
    if word != "-" {
        files.push(MemFile {
            name: Text::copy(alloc, FILE_NAME)?,
            content: content_of(alloc, word)?,
            fails: List::new(alloc),
        })?;
    }
    Ok(MemHost::new(List::from_vec(files), List::new(alloc)))
}

fn item_of(alloc: Global, word: &str) -> Result<Item, NoMemory> {
    if word == "-" {
        return Ok(Item::Idle);
    }
    Ok(Item::Message(content_of(alloc, word)?))
}

fn items_of(alloc: Global, words: &[&str]) -> Result<List<Item>, NoMemory> {
    let mut items = Vec::new(alloc);
    for word in words {
        items.push(item_of(alloc, word)?)?;
    }
    Ok(List::from_vec(items))
}

/// A list of one number, which a word spells.
fn only(alloc: Global, word: &str) -> Result<List<u64>, NoMemory> {
    let mut numbers = Vec::new(alloc);
    numbers.push(word.parse::<u64>().unwrap_or(0))?;
    Ok(List::from_vec(numbers))
}

/// The numbers of the link's call and of the dialer's that fail.
fn failing_calls(word: &str) -> (&str, &str) {
    match word.split_once('@') {
        Some(numbers) => numbers,
        None => (word, "0"),
    }
}

/// A dialer of the link of these words, the first of which has the numbers of the calls that fail; without words a dialer of no link.
fn dialer_of(alloc: Global, text: &str) -> Result<MemDial, NoMemory> {
    let words: Vec<&str> = text.split_whitespace().collect(alloc)?;
    let [fails, items @ ..] = words.as_slice() else {
        return MemDial::new(alloc, List::new(alloc), List::new(alloc));
    };
    let (call, dialed) = failing_calls(fails);
    let mut links = Vec::new(alloc);
    links.push(MemLink::new(alloc, items_of(alloc, items)?, only(alloc, call)?))?;
    MemDial::new(alloc, List::from_vec(links), only(alloc, dialed)?)
}

/// An output of which the write of this number fails.
fn sink_of(alloc: Global, word: &str) -> Result<MemSink, NoMemory> {
    Ok(MemSink::new(Vec::new(alloc), only(alloc, word)?))
}

/// The run of four fields, and of the number of the write that fails.
fn fields_case(
    alloc: Global,
    words: &str,
    file: &str,
    input: &str,
    link: &str,
    full: &str,
) -> Result<Case, NoMemory> {
    Ok(Case {
        words: words_of(alloc, words)?,
        host: host_of(alloc, file.trim())?,
        dialer: dialer_of(alloc, link)?,
        input: MemSource::new(content_of(alloc, input.trim())?, List::new(alloc)),
        out: sink_of(alloc, full.trim())?,
    })
}

/// The run of a line, if it is one.
pub(crate) fn case_of(alloc: Global, line: &str) -> Result<Option<Case>, NoMemory> {
    let fields: Vec<&str> = line.split('|').collect(alloc)?;
    match fields.as_slice() {
        [words, file, input, link] => Ok(Some(fields_case(alloc, words, file, input, link, "0")?)),
        [words, file, input, link, full] => Ok(Some(fields_case(
            alloc, words, file, input, link, full,
        )?)),
        _ => Ok(None),
    }
}
