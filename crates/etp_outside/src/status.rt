//! What a program ends with.
ghost use Rattle.std.specs.Prelude.{◌≡◌, ◌<◌, ◌^◌, ◌++◌, ℕ, List, IfOk, OnOk, OnErr, string_bytes};
ghost use Rattle.std.specs.Fmt.{decimal};
ghost use Rattle.etp_outside.specs.Decimal.{IsDecimal};
ghost use Rattle.etp_outside.specs.Status.{number_of, line_of, refusal_of};

use etp_values::NoMemory;
use std::alloc::{AllocError, Global};

/// Why a program ended, for its exit status and the line that it prints on standard error. The numbers 13 to 15 are free.
#[derive(Clone, Copy, Debug, PartialEq, Eq)]
pub enum Status {
    /// The command was done.
    Done,
    /// The command line is malformed.
    Usage,
    /// The configuration was refused. The causes, by number: 1 it is too long, 2 it is not TOML, 3 a key is missing or has a value that it
    /// may not have, 4 it has too many channels, 5 a channel's URI does not name an object, 6 a channel's kind is not one of the seven, 7 a
    /// channel has the URI of an earlier one. `channel` counts from 1, and is 0 for a key outside the channels; `channel` and `key` are
    /// used for the causes that name them.
    Config { cause: u8, channel: u64, key: u8 },
    /// The capture was refused at this offset, in bytes.
    Capture(u64),
    /// The input or a file could not be read.
    ReadFault,
    /// The output could not be written.
    WriteFault,
    /// Out of memory.
    NoMemory,
    /// No more connections could be accepted.
    ListenFault,
    /// A limit was exceeded.
    Limit,
    /// A peer refused with this code, or this number of a capture's messages were refused.
    Refused(i64),
    /// The connection failed.
    LinkFault,
    /// The peer broke the protocol, or left before the command was done.
    Peer,
    /// This line of the input, counted from 1, is malformed.
    Input(u64),
    /// The peer ended the subscription.
    Stopped,
}

impl Status {
    /// The exit status of the process.
    pub fn number(&self) -> u8
        ensures { result ≡ number_of self.now }
    {
        match self {
            Status::Done => 0,
            Status::Usage => 1,
            Status::Config { .. } => 2,
            Status::Capture(_) => 3,
            Status::ReadFault => 4,
            Status::WriteFault => 5,
            Status::NoMemory => 6,
            Status::ListenFault => 7,
            Status::Limit => 8,
            Status::Refused(_) => 9,
            Status::LinkFault => 10,
            Status::Peer => 11,
            Status::Input(_) => 12,
            Status::Stopped => 16,
        }
    }

    /// Appends the status line, without a line feed. `Done` has none: nothing is appended.
    pub fn line(&self, alloc: Global, into: &mut Vec<u8>) -> Result<(), NoMemory>
        ensures ok { OnOk result (into.new.items ≡ into.old.items ++ line_of self.now) }
        ensures err { OnErr result (into.new.items ≡ into.old.items) }
    {
        let text = self.text(alloc)?;
        into.extend_from_slice(text.as_bytes())?;
        Ok(())
    }

    fn text(&self, alloc: Global) -> Result<String, AllocError>
        ensures { IfOk result (λ t. string_bytes t ≡ line_of self.now) }
    {
        match *self {
            Status::Done => Ok(String::new(alloc)),
            Status::Usage => String::from_str(alloc, "usage"),
            Status::Config {
                cause,
                channel,
                key,
            } => config_text(alloc, cause, channel, key),
            Status::Capture(offset) => format!(in alloc; "capture refused at {offset}"),
            Status::ReadFault => String::from_str(alloc, "read fault"),
            Status::WriteFault => String::from_str(alloc, "write fault"),
            Status::NoMemory => String::from_str(alloc, "no memory"),
            Status::ListenFault => String::from_str(alloc, "listen fault"),
            Status::Limit => String::from_str(alloc, "limit"),
            Status::Refused(code) => format!(in alloc; "refused {code}"),
            Status::LinkFault => String::from_str(alloc, "link fault"),
            Status::Peer => String::from_str(alloc, "peer fault"),
            Status::Input(line) => format!(in alloc; "input line {line}"),
            Status::Stopped => String::from_str(alloc, "stopped"),
        }
    }
}

/// The line for a configuration that was refused.
fn config_text(alloc: Global, cause: u8, channel: u64, key: u8) -> Result<String, AllocError>
    ensures { IfOk result (λ t. string_bytes t ≡ refusal_of cause channel key) }
{
    match cause {
        1 => String::from_str(alloc, "config refused: too long"),
        2 => String::from_str(alloc, "config refused: toml"),
        3 => format!(in alloc; "config refused: key {key} of channel {channel}"),
        4 => String::from_str(alloc, "config refused: too many"),
        5 => format!(in alloc; "config refused: uri of channel {channel}"),
        6 => format!(in alloc; "config refused: kind of channel {channel}"),
        7 => format!(in alloc; "config refused: double uri of channel {channel}"),
        _ => format!(in alloc; "config refused: cause {cause}"),
    }
}

/// The law of the numbers in a line: the text of a number is digits with that value and no leading zero, and it is the
/// only such text.
pub fn one_numeral()
    ensures is_one { (n : ℕ) → n < 2 ^ 64 → IsDecimal n (decimal n) }
    ensures alone { (n : ℕ) → n < 2 ^ 64 → (ds : List ℕ) → IsDecimal n ds → ds ≡ decimal n }
{}
