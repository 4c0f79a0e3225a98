//! What the words of a command line ask for.
ghost use Rattle.std.specs.Prelude.{◌≡◌, map};
ghost use Rattle.server_forms.specs.Commands.{as_option};
ghost use Rattle.server_forms.specs.Words.{command_of, limited};

use command_words::count_in;

/// What the server is asked to do: to serve with the configuration of a name, at an address, and this many links, if their number is
/// limited.
#[derive(Clone, Copy, Debug, PartialEq, Eq)]
pub struct Command<'a> {
    pub config: &'a str,
    pub address: &'a str,
    pub sessions: Option<u64>,
}

/// The command of these words, if they are well formed.
pub(crate) fn command_of<'a>(words: &[&'a str]) -> Option<Command<'a>>
    ensures { as_option result ≡ command_of (map (λ w. w.now) words.now) }
{
    match words {
        [config, address] => Some(Command {
            config: *config,
            address: *address,
            sessions: None,
        }),
        [config, address, sessions] => limited(*config, *address, count_in(*sessions, 1)),
        _ => None,
    }
}

/// The command with this number of links, if there is one.
fn limited<'a>(config: &'a str, address: &'a str, sessions: Option<u32>) -> Option<Command<'a>>
    ensures { as_option result ≡ limited config.now address.now sessions }
{
    match sessions {
        None => None,
        Some(count) => Some(Command {
            config,
            address,
            sessions: Some(u64::from(count)),
        }),
    }
}
