//! `clap` at a command with one argument, which takes all words.
ghost use Rattle.std.specs.Prelude.{◌≡◌, false, IfOk, IfErr, map, string_bytes};
ghost use Rattle.clap.specs.Matches.{found_of};
ghost use Rattle.clap.specs.Simple.{app_of};
ghost use Rattle.clap.specs.Values.{kind_of};
ghost use Rattle.clap.specs.Walk.{rows_of, rule_of};
ghost use Rattle.clap.specs.declared.error.kind.ErrorKind.TheVariants.{OutOfMemory};
ghost use Rattle.command_words.specs.Words.{has_option};
ghost use Rattle.command_words.specs.Command.{word_rule, word_app, word_values};

use clap::{Arg, ArgMatches, Command, Error};
use etp_values::NoMemory;
use std::alloc::{AllocError, Global};

/// The words as `clap` finds them: all of them, in their order.
pub fn read_plain<'a>(alloc: Global, words: &'a [String]) -> Result<Vec<&'a str>, NoMemory>
    requires { has_option (map string_bytes words.now) ≡ false }
    ensures { IfOk result (λ found.
        map (λ word. word.now) found.items ≡ map string_bytes words.now) }
{
    let command = word_command(alloc)?;
    match parsed(command, words) {
        Ok(matches) => values_of(alloc, &matches),
        Err(_) => Err(NoMemory),
    }
}

/// The argument `word`, which takes any number of values.
fn word_arg<'a>(alloc: Global) -> Arg<'a>
    ensures rule { rule_of result ≡ word_rule }
    ensures local { result.global ≡ false }
{
    Arg::new(alloc, "word").num_args(0..)
}

/// The command whose one argument is `word`.
fn word_command<'a>(alloc: Global) -> Result<Command<'a>, AllocError>
    ensures { IfOk result (λ command. app_of command ≡ word_app) }
{
    Command::new(alloc, "words")
        .no_binary_name(true)
        .disable_help_flag(true)
        .arg(word_arg(alloc))
}

/// What the command makes of words without options. `clap` fails only if memory runs out.
fn parsed<'a>(command: Command<'a>, words: &'a [String]) -> Result<ArgMatches<'a>, Error>
    requires command { app_of command ≡ word_app }
    requires plain { has_option (map string_bytes words.now) ≡ false }
    ensures values { IfOk result (λ matches.
        word_values (rows_of (found_of matches)) ≡ map string_bytes words.now) }
    ensures memory { IfErr result (λ error. kind_of error ≡ OutOfMemory) }
{
    command.try_get_matches_from(words)
}

/// The values of `word`; if `clap` has none, there were no words.
fn values_of<'a>(alloc: Global, matches: &ArgMatches<'a>) -> Result<Vec<&'a str>, NoMemory>
    ensures { IfOk result (λ found.
        map (λ word. word.now) found.items ≡ word_values (rows_of (found_of matches.now))) }
{
    match matches.get_strs("word") {
        Some(values) => copied(alloc, values),
        None => Ok(Vec::new(alloc)),
    }
}

fn copied<'a>(alloc: Global, values: &[&'a str]) -> Result<Vec<&'a str>, NoMemory>
    ensures { IfOk result (λ found.
        map (λ word. word.now) found.items ≡ map (λ word. word.now) values.now) }
{
    match Vec::from_slice(alloc, values) {
        Ok(found) => Ok(found),
        Err(_) => Err(NoMemory),
    }
}
