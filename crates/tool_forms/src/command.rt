//! What the words of a command line ask for.
ghost use Rattle.std.specs.Prelude.{◌≡◌, map};
ghost use Rattle.tool_forms.specs.Words.{command_of, command_with};
ghost use Rattle.tool_forms.specs.Commands.{as_option};

use command_words::count_in;

/// The least number of messages of a load.
const LEAST: u32 = 24;

/// What the tool is asked to do.
#[derive(Clone, Copy, Debug, PartialEq, Eq)]
pub enum Command<'a> {
    /// To replay a capture with the configuration of this name.
    Replay(&'a str),
    /// To show a capture.
    Show,
    /// To check a capture.
    Check,
    /// To write the capture of a load of this many messages.
    Capture(u32),
    /// To play a load of this many messages.
    Generate(u32),
}

/// The command of these words, if they are well formed.
pub fn command_of<'a>(words: &[&'a str]) -> Option<Command<'a>>
    ensures { as_option result ≡ command_of (map (λ w. w.now) words.now) }
{
    match words {
        [command] if *command == "show" => Some(Command::Show),
        [command] if *command == "check" => Some(Command::Check),
        [command, word] => command_with(*command, *word),
        _ => None,
    }
}

/// The command of two words, if they are well formed.
fn command_with<'a>(command: &'a str, word: &'a str) -> Option<Command<'a>>
    ensures { as_option result ≡ command_with command.now word.now }
{
    if command == "replay" {
        return Some(Command::Replay(word));
    }
    if command == "capture" {
        return match count_in(word, LEAST) {
            Some(size) => Some(Command::Capture(size)),
            None => None,
        };
    }
    if command == "generate" {
        return match count_in(word, LEAST) {
            Some(size) => Some(Command::Generate(size)),
            None => None,
        };
    }
    None
}
