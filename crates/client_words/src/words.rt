//! What words ask for.
ghost use Rattle.std.specs.Prelude.{◌≡◌, IfOk, map};
ghost use Rattle.client_words.specs.Forms.{as_command_option, as_option};
ghost use Rattle.client_words.specs.Words.{following, form_of, formed, index_in, interval_command, long_command, object_in, plain_command, ranging, short_command, watching, with_interval, with_word};
ghost use Rattle.client_words.specs.Address.{address_in};

use crate::address::read_address;
use etp_values::{NoMemory, StoreUri, UriError};
use point_lines::{long_in, positive_in};
use std::alloc::Global;
use url::Url;

/// The greatest number of changes that the words may ask for.
const MOST_CHANGES: u64 = 1_000_000;

/// The lowest index of a channel: -2^62.
const FIRST_INDEX: i64 = -4_611_686_018_427_387_904;

/// The greatest index of a channel: 2^62.
const LAST_INDEX: i64 = 4_611_686_018_427_387_904;

/// What the client is asked to do. Each command with a `uri` is about an object.
#[derive(Debug, Drop)]
pub enum Command<'a> {
    /// To put it, with the bytes of the file of this name.
    Put { uri: StoreUri, file: &'a str },
    /// To get it.
    Get(StoreUri),
    /// To load the points of the input into it.
    Load(StoreUri),
    /// To watch this many of its changes.
    Watch { uri: StoreUri, count: u64 },
    /// To ask the server for a sign of life.
    Ping,
    /// To list the dataspaces.
    Spaces,
    /// To write its points whose indexes lie in an interval, both ends included.
    Range { uri: StoreUri, from: i64, to: i64 },
    /// To delete it.
    Delete(StoreUri),
    /// To write its changes from this index on.
    Follow { uri: StoreUri, start: i64 },
}

/// What the client is asked to do, and at which server.
#[derive(Debug, Drop)]
pub struct Form<'a> {
    pub address: Url,
    pub command: Command<'a>,
}

/// The form of these words, if they are well formed.
#[tactic(auto, using(crate::proofs::CountLemmas::few_words, crate::proofs::CountLemmas::many_words))]
pub fn form_of<'a>(alloc: Global, words: &[&'a str]) -> Result<Option<Form<'a>>, NoMemory>
    ensures { IfOk result (λ form. as_option form ≡ form_of (map (λ w. w.now) words.now)) }
{
    match words {
        [] => Ok(None),
        [_] => Ok(None),
        [name, url] => formed(alloc, *url, plain_command(*name)),
        [name, url, uri] => {
            let command = short_command(alloc, *name, *uri)?;
            formed(alloc, *url, command)
        }
        [name, url, uri, word] => {
            let command = long_command(alloc, *name, *word, *uri)?;
            formed(alloc, *url, command)
        }
        [name, url, uri, from, to] => {
            let command = interval_command(alloc, *name, *from, *to, *uri)?;
            formed(alloc, *url, command)
        }
        [_, _, _, _, _, _, ..] => Ok(None),
    }
}

/// The form of an address and a command, if both exist.
fn formed<'a>(
    alloc: Global,
    url: &str,
    command: Option<Command<'a>>,
) -> Result<Option<Form<'a>>, NoMemory>
    ensures { IfOk result (λ form. as_option form ≡ formed (address_in url.now) (as_command_option command.entry)) }
{
    let Some(command) = command else {
        return Ok(None);
    };
    match read_address(alloc, url)? {
        Some(address) => Ok(Some(Form { address, command })),
        None => Ok(None),
    }
}

/// The URI of an object that a text is, if it is one.
fn object_in(alloc: Global, text: &str) -> Result<Option<StoreUri>, NoMemory>
    ensures { IfOk result (λ uri. uri ≡ object_in text.now) }
{
    match StoreUri::read(alloc, text) {
        Ok(uri) => {
            if uri.object.is_some() {
                Ok(Some(uri))
            } else {
                Ok(None)
            }
        }
        Err(UriError::NoMemory) => Err(NoMemory),
        Err(_) => Ok(None),
    }
}

/// The index that a word is: a number, or `first` or `last`, the lowest and the greatest index of a channel.
fn index_in(word: &str) -> Option<i64>
    ensures { result ≡ index_in word.now }
{
    if word == "first" {
        return Some(FIRST_INDEX);
    }
    if word == "last" {
        return Some(LAST_INDEX);
    }
    long_in(word.as_bytes())
}

/// The command of a name alone: `ping` or `spaces`.
fn plain_command<'a>(name: &str) -> Option<Command<'a>>
    ensures { as_command_option result ≡ plain_command name.now }
{
    if name == "ping" {
        Some(Command::Ping)
    } else if name == "spaces" {
        Some(Command::Spaces)
    } else {
        None
    }
}

/// The command of a name and a URI: `get`, `load` or `delete`.
fn short_command<'a>(alloc: Global, name: &str, uri: &str) -> Result<Option<Command<'a>>, NoMemory>
    ensures { IfOk result (λ command. as_command_option command ≡ short_command name.now (object_in uri.now)) }
{
    let Some(uri) = object_in(alloc, uri)? else {
        return Ok(None);
    };
    if name == "get" {
        Ok(Some(Command::Get(uri)))
    } else if name == "load" {
        Ok(Some(Command::Load(uri)))
    } else if name == "delete" {
        Ok(Some(Command::Delete(uri)))
    } else {
        Ok(None)
    }
}

/// The command of a name, a URI and one more word: `put` with a file, `watch` with a number of changes, or `follow` with an index.
fn long_command<'a>(
    alloc: Global,
    name: &str,
    word: &'a str,
    uri: &str,
) -> Result<Option<Command<'a>>, NoMemory>
    ensures { IfOk result (λ command. as_command_option command ≡ long_command name.now word.now (object_in uri.now)) }
{
    match object_in(alloc, uri)? {
        Some(uri) => Ok(with_word(name, word, uri)),
        None => Ok(None),
    }
}

/// The same for an object.
fn with_word<'a>(name: &str, word: &'a str, uri: StoreUri) -> Option<Command<'a>>
    ensures { as_command_option result ≡ with_word name.now word.now uri }
{
    if name == "put" {
        return Some(Command::Put { uri, file: word });
    }
    if name == "watch" {
        return watching(uri, positive_in(MOST_CHANGES, word.as_bytes()));
    }
    if name == "follow" {
        return following(uri, index_in(word));
    }
    None
}

/// The command to watch this many changes, if there is a number.
fn watching<'a>(uri: StoreUri, count: Option<u64>) -> Option<Command<'a>>
    ensures { as_command_option result ≡ watching uri count }
{
    match count {
        Some(count) => Some(Command::Watch { uri, count }),
        None => None,
    }
}

/// The command to follow from an index on, if there is one.
fn following<'a>(uri: StoreUri, start: Option<i64>) -> Option<Command<'a>>
    ensures { as_command_option result ≡ following uri start }
{
    match start {
        Some(start) => Some(Command::Follow { uri, start }),
        None => None,
    }
}

/// The command of a name, a URI and two indexes: `range`.
fn interval_command<'a>(
    alloc: Global,
    name: &str,
    from: &str,
    to: &str,
    uri: &str,
) -> Result<Option<Command<'a>>, NoMemory>
    ensures { IfOk result (λ command. as_command_option command ≡ interval_command name.now from.now to.now (object_in uri.now)) }
{
    match object_in(alloc, uri)? {
        Some(uri) => Ok(with_interval(name, from, to, uri)),
        None => Ok(None),
    }
}

/// The same for an object.
fn with_interval<'a>(name: &str, from: &str, to: &str, uri: StoreUri) -> Option<Command<'a>>
    ensures { as_command_option result ≡ with_interval name.now from.now to.now uri }
{
    if name == "range" {
        return ranging(uri, index_in(from), index_in(to));
    }
    None
}

/// The command to write an interval, if there are two indexes.
fn ranging<'a>(uri: StoreUri, from: Option<i64>, to: Option<i64>) -> Option<Command<'a>>
    ensures { as_command_option result ≡ ranging uri from to }
{
    let Some(from) = from else {
        return None;
    };
    match to {
        Some(to) => Some(Command::Range { uri, from, to }),
        None => None,
    }
}
