//! What a server sends, without being asked, about channels that are subscribed to.
ghost use Rattle.std.specs.Prelude.{◌≡◌, IfOk, None};
ghost use Rattle.client_core.specs.Notices.{changes_of, notice};

use channel_store::ChangeMsg;
use client_parts::subscribe_changes;
use etp_frame::{Header, Message};
use etp_values::{List, NoMemory};
use std::alloc::Global;

/// No changes, for a message that is not a notice.
fn no_changes<M: Drop>(message: M) -> Result<Option<List<ChangeMsg>>, NoMemory>
    ensures { IfOk result (λ cs. cs ≡ None) }
{
    drop(message);
    Ok(None)
}

/// The changes that a message reports, if it is a notice with long indexes.
pub(crate) fn changes_of(
    alloc: Global,
    message: Message,
) -> Result<Option<List<ChangeMsg>>, NoMemory>
    ensures { IfOk result (λ cs. cs ≡ changes_of message) }
{
    match message {
        Message::ChannelSubscribe(message) => subscribe_changes(alloc, message.into_inner()),
        other => no_changes(other),
    }
}

/// A notice answers nothing.
pub(crate) fn notice(
    alloc: Global,
    header: &Header,
    message: Message,
) -> Result<Option<List<ChangeMsg>>, NoMemory>
    ensures { IfOk result (λ cs. cs ≡ notice header.now message) }
{
    if header.correlation != 0 {
        return no_changes(message);
    }
    changes_of(alloc, message)
}
