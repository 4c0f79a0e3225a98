//! What is sent, cut into parts.
ghost use Rattle.std.specs.Prelude.{◌≡◌, ◌++◌, IfOk, OnOk};
ghost use Rattle.etp_frame.specs.Splitting.{parts as cut};
ghost use Rattle.session_core.specs.Sending.{blobs_after, blobs_sent, cut_all, ended};

use crate::state::{Addressee, Part, Saying};
use etp_frame::{Message, blobs_in, split};
use etp_values::{List, NoMemory};
use std::alloc::Global;

/// The parts of what is sent, and how many blobs were sent with them and before.
#[derive(Drop)]
pub(crate) struct Parted {
    pub(crate) parts: List<Part>,
    pub(crate) blobs: u64,
}

/// Adds a message's parts, of which the last ends it.
fn push_ended(parts: &mut Vec<Part>, to: Addressee, messages: List<Message>) -> Result<(), NoMemory>
    ensures { OnOk result (parts.new.items ≡ parts.old.items ++ ended to messages) }
{
    let mut left = messages.len();
    for message in messages.into_vec() {
        left -= 1;
        parts.push(Part {
            to,
            message,
            last: left == 0,
        })?;
    }
    Ok(())
}

/// How many blobs were sent after a message, by how many were sent before.
fn blobs_after(limit: u64, blobs: u64, message: &Message) -> u64
    ensures { result ≡ blobs_after limit blobs message.now }
{
    blobs.saturating_add(blobs_in(message, limit))
}

/// Adds the parts of what is sent, and returns how many blobs were then sent.
fn push_parts(
    alloc: Global,
    parts: &mut Vec<Part>,
    limit: u64,
    number: u64,
    blobs: u64,
    saying: Saying,
) -> Result<u64, NoMemory>
    ensures blobs { IfOk result (λ n. n ≡ blobs_after limit blobs saying.message) }
    ensures parts { let messages = cut limit number blobs saying.message in
        OnOk result (parts.new.items ≡ parts.old.items ++ ended saying.to messages) }
{
    let Saying { to, message } = saying;
    let after = blobs_after(limit, blobs, &message);
    let messages = split(alloc, message, limit, number, blobs)?;
    push_ended(parts, to, messages)?;
    Ok(after)
}

/// The parts of all that is sent, in a session of this number, if parts have at most `limit` bytes and `blobs` blobs were sent before.
pub(crate) fn cut_all(
    alloc: Global,
    limit: u64,
    number: u64,
    blobs: u64,
    sayings: List<Saying>,
) -> Result<Parted, NoMemory>
    ensures parts { IfOk result (λ p. p.parts ≡ cut_all limit number blobs sayings) }
    ensures blobs { IfOk result (λ p. p.blobs ≡ blobs_sent limit blobs sayings) }
{
    let mut parts = Vec::new(alloc);
    let mut sent = blobs;
    for saying in sayings.into_vec() {
        sent = push_parts(alloc, &mut parts, limit, number, sent, saying)?;
    }
    Ok(Parted {
        parts: List::from_vec(parts),
        blobs: sent,
    })
}
