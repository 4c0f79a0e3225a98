//! The parts of a long message, put together.
ghost use Rattle.std.specs.Prelude.{◌≡◌, IfOk};
ghost use Rattle.client_core.specs.Joining.{core_exception, goes_on, grown, is_broken, is_exception, joined};
ghost use Rattle.etp_frame.specs.declared.message.Message.TheVariants as message;

use crate::state::Kept;
use client_parts::{core_joined, dataspace_joined, load_joined, store_joined, subscribe_joined};
use etp_frame::{Header, Message};
use etp_values::{Boxed, NoMemory};
use msg_channel::{ChannelDataLoadMessage, ChannelSubscribeMessage};
use msg_core::{CoreMessage, DataspaceMessage};
use msg_store::StoreMessage;
use std::alloc::Global;

/// The later of two messages that are not parts of one: the earlier one is not looked at any more.
fn later<M: Drop>(earlier: M, later: M) -> M
    ensures { result ≡ later }
{
    drop(earlier);
    later
}

fn core_behind(alloc: Global, first: Message, more: CoreMessage) -> Result<Message, NoMemory>
    ensures { IfOk result (λ m. m ≡ joined first (message.Core more)) }
{
    match first {
        Message::Core(first) => Ok(Message::Core(Boxed::new(
            alloc,
            core_joined(alloc, first.into_inner(), more)?,
        )?)),
        other => Ok(later(other, Message::Core(Boxed::new(alloc, more)?))),
    }
}

fn dataspace_behind(
    alloc: Global,
    first: Message,
    more: DataspaceMessage,
) -> Result<Message, NoMemory>
    ensures { IfOk result (λ m. m ≡ joined first (message.Dataspace more)) }
{
    match first {
        Message::Dataspace(first) => Ok(Message::Dataspace(Boxed::new(
            alloc,
            dataspace_joined(alloc, first.into_inner(), more)?,
        )?)),
        other => Ok(later(other, Message::Dataspace(Boxed::new(alloc, more)?))),
    }
}

fn store_behind(alloc: Global, first: Message, more: StoreMessage) -> Result<Message, NoMemory>
    ensures { IfOk result (λ m. m ≡ joined first (message.Store more)) }
{
    match first {
        Message::Store(first) => Ok(Message::Store(Boxed::new(
            alloc,
            store_joined(alloc, first.into_inner(), more)?,
        )?)),
        other => Ok(later(other, Message::Store(Boxed::new(alloc, more)?))),
    }
}

fn subscribe_behind(
    alloc: Global,
    first: Message,
    more: ChannelSubscribeMessage,
) -> Result<Message, NoMemory>
    ensures { IfOk result (λ m. m ≡ joined first (message.ChannelSubscribe more)) }
{
    match first {
        Message::ChannelSubscribe(first) => Ok(Message::ChannelSubscribe(Boxed::new(
            alloc,
            subscribe_joined(alloc, first.into_inner(), more)?,
        )?)),
        other => Ok(later(other, Message::ChannelSubscribe(Boxed::new(alloc, more)?))),
    }
}

fn load_behind(
    alloc: Global,
    first: Message,
    more: ChannelDataLoadMessage,
) -> Result<Message, NoMemory>
    ensures { IfOk result (λ m. m ≡ joined first (message.ChannelDataLoad more)) }
{
    match first {
        Message::ChannelDataLoad(first) => Ok(Message::ChannelDataLoad(Boxed::new(
            alloc,
            load_joined(alloc, first.into_inner(), more)?,
        )?)),
        other => Ok(later(other, Message::ChannelDataLoad(Boxed::new(alloc, more)?))),
    }
}

/// A further part of a message, appended to what there is of it.
fn joined(alloc: Global, first: Message, more: Message) -> Result<Message, NoMemory>
    ensures { IfOk result (λ m. m ≡ joined first more) }
{
    match more {
        Message::Core(more) => core_behind(alloc, first, more.into_inner()),
        Message::Dataspace(more) => dataspace_behind(alloc, first, more.into_inner()),
        Message::Store(more) => store_behind(alloc, first, more.into_inner()),
        Message::ChannelSubscribe(more) => subscribe_behind(alloc, first, more.into_inner()),
        Message::ChannelDataLoad(more) => load_behind(alloc, first, more.into_inner()),
        other => Ok(later(first, other)),
    }
}

/// What there is of a message with one more part.
pub(crate) fn grown(
    alloc: Global,
    kept: Option<Kept>,
    message: Message,
) -> Result<Message, NoMemory>
    ensures { IfOk result (λ m. m ≡ grown kept message) }
{
    match kept {
        Some(kept) => joined(alloc, kept.message, message),
        None => Ok(message),
    }
}

fn core_exception(message: &CoreMessage) -> bool
    ensures { result ≡ core_exception message.now }
{
    matches!(message, CoreMessage::ProtocolException(_))
}

pub(crate) fn is_exception(message: &Message) -> bool
    ensures { result ≡ is_exception message.now }
{
    match message {
        Message::Core(message) => core_exception(message.get()),
        _ => false,
    }
}

/// Whether a message continues one of which parts came, the last of them with the header `kept`.
fn goes_on(kept: &Header, header: &Header, message: &Message) -> bool
    ensures { result ≡ goes_on kept.now header.now message.now }
{
    header.correlation == kept.correlation
        && (is_exception(message) || (header.protocol == kept.protocol && header.kind == kept.kind))
}

/// Whether a message comes between the parts of another.
pub(crate) fn is_broken(kept: &Option<Kept>, header: &Header, message: &Message) -> bool
    ensures { result ≡ is_broken kept.now header.now message.now }
{
    match kept {
        Some(kept) => !goes_on(&kept.header, header, message),
        None => false,
    }
}
