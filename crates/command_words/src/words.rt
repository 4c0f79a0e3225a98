//! The words of a command line without options.
ghost use Rattle.std.specs.Prelude.{◌≡◌, IfOk, map, string_bytes};
ghost use Rattle.std.specs.Option.{option_map};
ghost use Rattle.command_words.specs.Words.{is_option, has_option, plain_words};

use crate::parsing::read_plain;
use etp_values::NoMemory;
use std::alloc::Global;

/// The words of a command line, unchanged; `None` if one begins with `-`.
///
/// `words` are those after the program's name.
pub fn words_of<'a>(alloc: Global, words: &'a [String]) -> Result<Option<Vec<&'a str>>, NoMemory>
    ensures { IfOk result (λ found. option_map (λ v. map (λ word. word.now) v.items) found
        ≡ plain_words (map string_bytes words.now)) }
{
    if has_option(words) {
        return Ok(None);
    }
    let found = read_plain(alloc, words)?;
    Ok(Some(found))
}

fn has_option(words: &[String]) -> bool
    ensures { result ≡ has_option (map string_bytes words.now) }
{
    words.iter().any(|word| is_option(word.as_bytes()))
}

fn is_option(word: &[u8]) -> bool
    ensures { result ≡ is_option word.now }
{
    match word {
        [] => false,
        [first, ..] => *first == b'-',
    }
}
