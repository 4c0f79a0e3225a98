//! The parts of a URI's text, from the left. A function that is given `whole`, the length of the text, reports what it refuses by its
//! offset in the text.
ghost use Rattle.std.specs.Prelude.{◌≡◌, ◌<◌, ◌≤◌, length, nat_eq, false, option_map, string_bytes, IfOk, codes};
ghost use Rattle.std.specs.List.{common_prefix_len, list_all};
ghost use Rattle.etp_values.specs.Gives.{Gives};
ghost use Rattle.etp_values.specs.Uri.{after as what_follows, parted as parts_at, unquoted, is_lower, is_digit, is_word, is_domain as is_domain_text, is_type_name as is_type_text, path_of, id_at, type_at, place as place_of, object_of, with_rest, with_space, is_type_filter as is_filter_text};

use crate::id::Id16;
use crate::memory::NoMemory;
use crate::text::Text;
use crate::uri::{MAX_PATH_LEN, ObjectName, StoreUri, UriError};
use std::alloc::Global;

/// What follows a prefix.
pub fn after<'a>(text: &'a str, prefix: &str) -> Option<&'a str>
    ensures { option_map (λ s. s.now) result ≡ what_follows prefix.now text.now }
{
    text.strip_prefix(prefix)
}

/// The length of the longest common prefix of two texts, in bytes.
pub fn agreeing(a: &[u8], b: &[u8]) -> usize
    ensures count { result ≡ common_prefix_len nat_eq a.now b.now }
    ensures bound { result ≤ length a.now }
{
    match a {
        [x, xs @ ..] => match b {
            [y, ys @ ..] => { if x == y { 1 + agreeing(xs, ys) } else { 0 } }
            [] => 0,
        },
        [] => 0,
    }
}

/// The text before and after the first mark, which is an ASCII character.
fn parted(text: &str, mark: char) -> Option<(&str, &str)>
    requires { mark < 128 }
    ensures { option_map (λ p. (p.0.now, p.1.now)) result ≡ parts_at mark text.now }
{
    text.split_once(mark)
}

/// The offset at which the rest of a text begins.
fn place(whole: usize, rest: &str) -> usize
    ensures { result ≡ place_of whole rest.now }
{
    whole.saturating_sub(rest.len())
}

fn are_lower(text: &[u8]) -> bool
    ensures { result ≡ list_all is_lower text.now }
{
    text.iter().all(|b| b.is_ascii_lowercase())
}

fn are_digits(text: &[u8]) -> bool
    ensures { result ≡ list_all is_digit text.now }
{
    text.iter().all(|b| b.is_ascii_digit())
}

fn are_words(text: &[u8]) -> bool
    ensures { result ≡ list_all is_word text.now }
{
    text.iter().all(|b| b.is_ascii_alphabetic() || b.is_ascii_digit() || *b == b'_')
}

fn is_domain(text: &[u8]) -> bool
    ensures { result ≡ is_domain_text text.now }
{
    if text.len() < 3 {
        return false;
    }
    let (letters, digits) = text.split_at(text.len() - 2);
    are_lower(letters) && are_digits(digits)
}

fn is_type_name(text: &[u8]) -> bool
    ensures { result ≡ is_type_text text.now }
{
    match text {
        [first, rest @ ..] => first.is_ascii_alphabetic() && are_words(rest),
        [] => false,
    }
}

/// Whether a text names types of objects: `DOMAIN.NAME` names one, and `DOMAIN.*` all of a domain.
pub fn is_type_filter(text: &str) -> bool
    ensures { result ≡ is_filter_text text.now }
{
    match parted(text, '.') {
        Some((domain, name)) => {
            is_domain(domain.as_bytes()) && (name == "*" || is_type_name(name.as_bytes()))
        }
        None => false,
    }
}

/// A quoted text up to its closing quote, with doubled quotes made single, and what follows it.
fn read_quoted(alloc: Global, text: &str) -> Result<Option<(String, &str)>, NoMemory>
    ensures { IfOk result (λ r. option_map (λ p. (string_bytes p.0, p.1.now)) r ≡ unquoted false text.now) }
{
    let mut path = String::new(alloc);
    let mut rest = text;
    while let Some((piece, behind)) = rest.split_once('\'') {
        path.push_str(piece)?;
        let Some(more) = behind.strip_prefix('\'') else {
            return Ok(Some((path, behind)));
        };
        path.push('\'')?;
        rest = more;
    }
    Ok(None)
}

/// A quoted path in parentheses, from its opening quote to its closing parenthesis, and what follows it.
fn read_path(alloc: Global, text: &str) -> Result<Option<(Text, &str)>, NoMemory>
    ensures { IfOk result (λ r. option_map (λ p. (p.0, p.1.now)) r ≡ path_of text.now) }
{
    let Some(quoted) = after(text, "'") else {
        return Ok(None);
    };
    let (path, behind) = match read_quoted(alloc, quoted) {
        Ok(Some(parts)) => parts,
        Ok(None) => return Ok(None),
        Err(NoMemory) => return Err(NoMemory),
    };
    if path.is_empty() || path.len() > MAX_PATH_LEN {
        return Ok(None);
    }
    match after(behind, ")") {
        Some(rest) => Ok(Some((Text::from_string(path), rest))),
        None => Ok(None),
    }
}

/// The domain before the first dot, the type's name before the next parenthesis, and what follows it.
fn read_type(text: &str) -> Option<(&str, &str, &str)>
    ensures { option_map (λ p. (p.0.now, (p.1.now, p.2.now))) result ≡ type_at text.now }
{
    let (domain, rest) = parted(text, '.')?;
    if !is_domain(domain.as_bytes()) {
        return None;
    }
    let (name, rest) = parted(rest, '(')?;
    if !is_type_name(name.as_bytes()) {
        return None;
    }
    Some((domain, name, rest))
}

/// The identifier before the first closing parenthesis, and what follows it.
fn read_id(text: &str) -> Option<(Id16, &str)>
    ensures { option_map (λ p. (p.0, p.1.now)) result ≡ id_at text.now }
{
    let (digits, rest) = parted(text, ')')?;
    let id = Id16::read(digits)?;
    Some((id, rest))
}

/// The object whose part ends a text.
fn read_object(alloc: Global, whole: usize, text: &str) -> Result<ObjectName, UriError>
    ensures { Gives UriError.NoMemory result (object_of whole text.now) }
{
    let Some((domain, name, rest)) = read_type(text) else {
        return Err(UriError::TypeName(place(whole, text)));
    };
    let Some((id, rest)) = read_id(rest) else {
        return Err(UriError::Uuid(place(whole, rest)));
    };
    if !rest.is_empty() {
        return Err(UriError::Rest(place(whole, rest)));
    }
    let (Ok(domain), Ok(name)) = (Text::copy(alloc, domain), Text::copy(alloc, name)) else {
        return Err(UriError::NoMemory);
    };
    Ok(ObjectName { domain, name, id })
}

/// What follows a dataspace's part: nothing, or a slash and an object's part.
fn read_rest(alloc: Global, whole: usize, space: Text, text: &str) -> Result<StoreUri, UriError>
    ensures { Gives UriError.NoMemory result (with_rest whole space text.now) }
{
    if text.is_empty() {
        return Ok(StoreUri {
            space,
            object: None,
        });
    }
    let Some(part) = after(text, "/") else {
        return Err(UriError::Rest(place(whole, text)));
    };
    match read_object(alloc, whole, part) {
        Ok(name) => Ok(StoreUri {
            space,
            object: Some(name),
        }),
        Err(error) => Err(error),
    }
}

/// What follows `eml:///` in a text.
pub fn read_body(alloc: Global, whole: usize, text: &str) -> Result<StoreUri, UriError>
    ensures { Gives UriError.NoMemory result (with_space whole text.now (what_follows (codes "dataspace(") text.now)) }
{
    if let Some(quoted) = after(text, "dataspace(") {
        return match read_path(alloc, quoted) {
            Ok(Some((space, rest))) => read_rest(alloc, whole, space, rest),
            Ok(None) => Err(UriError::Space(7)),
            Err(NoMemory) => Err(UriError::NoMemory),
        };
    }
    let space = Text::new(alloc);
    if text.is_empty() {
        return Ok(StoreUri {
            space,
            object: None,
        });
    }
    match read_object(alloc, whole, text) {
        Ok(name) => Ok(StoreUri {
            space,
            object: Some(name),
        }),
        Err(error) => Err(error),
    }
}
