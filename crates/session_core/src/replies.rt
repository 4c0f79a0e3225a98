//! What comes of a protocol's answer to a request: what is sent, including the exceptions that refuse it, and what awaits the store.
ghost use Rattle.std.specs.Prelude.{◌≡◌, IfOk};
ghost use Rattle.session_core.specs.Replies.{error_info, receipt, refusal, refused_message, saying_of, sayings_of, to_request};

use crate::state::{Addressee, Pending, Request, Saying};
use channel_rows::{LoadPending, SubscribePending};
use etp_frame::Message;
use etp_values::{Boxed, ErrorCode, List, Named, NoMemory, Text};
use keyed_requests::Sending;
use msg_channel::{ChannelDataLoadMessage, ChannelSubscribeMessage};
use msg_core::{
    Acknowledge, CoreMessage, DataspaceMessage, ErrorInfo, ProtocolException, TransactionMessage,
};
use msg_store::{DataArrayMessage, StoreMessage};
use session_rows::{DataspacePending, TransactionPending};
use std::alloc::Global;

/// A message of one protocol, as a message of any.
pub(crate) trait IntoMessage {
    ghost use Rattle.std.specs.Prelude.{◌≡◌, IfOk};
    ghost use Rattle.etp_frame.specs.declared.message.Message.{Message};

    ghost wrapped: { Self → Message };

    fn into_message(self, alloc: Global) -> Result<Message, NoMemory>
        ensures { IfOk result (λ message. message ≡ wrapped self) };
}

impl IntoMessage for StoreMessage {
    ghost use Rattle.etp_frame.specs.declared.message.Message.TheVariants.{Store};

    ghost wrapped = { λ message. Store message };

    fn into_message(self, alloc: Global) -> Result<Message, NoMemory> {
        Ok(Message::Store(Boxed::new(alloc, self)?))
    }
}

impl IntoMessage for DataArrayMessage {
    ghost use Rattle.etp_frame.specs.declared.message.Message.TheVariants.{DataArray};

    ghost wrapped = { λ message. DataArray message };

    fn into_message(self, alloc: Global) -> Result<Message, NoMemory> {
        Ok(Message::DataArray(Boxed::new(alloc, self)?))
    }
}

impl IntoMessage for ChannelSubscribeMessage {
    ghost use Rattle.etp_frame.specs.declared.message.Message.TheVariants.{ChannelSubscribe};

    ghost wrapped = { λ message. ChannelSubscribe message };

    fn into_message(self, alloc: Global) -> Result<Message, NoMemory> {
        Ok(Message::ChannelSubscribe(Boxed::new(alloc, self)?))
    }
}

impl IntoMessage for ChannelDataLoadMessage {
    ghost use Rattle.etp_frame.specs.declared.message.Message.TheVariants.{ChannelDataLoad};

    ghost wrapped = { λ message. ChannelDataLoad message };

    fn into_message(self, alloc: Global) -> Result<Message, NoMemory> {
        Ok(Message::ChannelDataLoad(Boxed::new(alloc, self)?))
    }
}

impl IntoMessage for TransactionMessage {
    ghost use Rattle.etp_frame.specs.declared.message.Message.TheVariants.{Transaction};

    ghost wrapped = { λ message. Transaction message };

    fn into_message(self, alloc: Global) -> Result<Message, NoMemory> {
        Ok(Message::Transaction(Boxed::new(alloc, self)?))
    }
}

impl IntoMessage for DataspaceMessage {
    ghost use Rattle.etp_frame.specs.declared.message.Message.TheVariants.{Dataspace};

    ghost wrapped = { λ message. Dataspace message };

    fn into_message(self, alloc: Global) -> Result<Message, NoMemory> {
        Ok(Message::Dataspace(Boxed::new(alloc, self)?))
    }
}

/// What one protocol keeps of a request while the store is asked, as what any protocol keeps.
pub(crate) trait IntoPending {
    ghost use Rattle.std.specs.Prelude.{◌≡◌};
    ghost use Rattle.session_core.specs.declared.state.Pending.{Pending};
    ghost use Rattle.session_core.specs.declared.state.Request.{Request};

    ghost kept: { Request → Self → Pending };

    fn into_pending(self, request: Request) -> Pending
        ensures { result ≡ kept request self };
}

impl IntoPending for DataspacePending {
    ghost use Rattle.session_core.specs.declared.state.Pending.TheVariants.{Dataspaces};

    ghost kept = { λ request pending. Dataspaces request pending };

    fn into_pending(self, request: Request) -> Pending {
        Pending::Dataspaces {
            request,
            pending: self,
        }
    }
}

impl IntoPending for TransactionPending {
    ghost use Rattle.session_core.specs.declared.state.Pending.TheVariants.{Transactions};

    ghost kept = { λ request pending. Transactions request pending };

    fn into_pending(self, request: Request) -> Pending {
        Pending::Transactions {
            request,
            pending: self,
        }
    }
}

impl IntoPending for LoadPending {
    ghost use Rattle.session_core.specs.declared.state.Pending.TheVariants.{Loads};

    ghost kept = { λ request pending. Loads request pending };

    fn into_pending(self, request: Request) -> Pending {
        Pending::Loads {
            request,
            pending: self,
        }
    }
}

impl IntoPending for SubscribePending {
    ghost use Rattle.session_core.specs.declared.state.Pending.TheVariants.{Subscriptions};

    ghost kept = { λ request pending. Subscriptions request pending };

    fn into_pending(self, request: Request) -> Pending {
        Pending::Subscriptions {
            request,
            pending: self,
        }
    }
}

fn error_info(alloc: Global, code: ErrorCode) -> Result<ErrorInfo, NoMemory>
    ensures { IfOk result (λ info. info ≡ error_info code) }
{
    Ok(ErrorInfo {
        message: Text::copy(alloc, code.text())?,
        code: code.number(),
    })
}

/// The exception that refuses a request as a whole.
pub(crate) fn refusal(alloc: Global, code: ErrorCode) -> Result<Message, NoMemory>
    ensures { IfOk result (λ message. message ≡ refusal code) }
{
    let error = error_info(alloc, code)?;
    Ok(Message::Core(Boxed::new(
        alloc,
        CoreMessage::ProtocolException(ProtocolException {
            error: Some(error),
            errors: Named::new(alloc),
        }),
    )?))
}

/// The exception that refuses some keys of a request, each with its code.
fn refused_message(alloc: Global, keys: Named<ErrorCode>) -> Result<Message, NoMemory>
    ensures { IfOk result (λ message. message ≡ refused_message keys) }
{
    let mut errors = Vec::new(alloc);
    for (key, code) in keys.into_vec() {
        let info = error_info(alloc, code)?;
        errors.push((key, info))?;
    }
    Ok(Message::Core(Boxed::new(
        alloc,
        CoreMessage::ProtocolException(ProtocolException {
            error: None,
            errors: Named::from_sorted(errors),
        }),
    )?))
}

/// What a protocol sends, with its addressee.
fn saying_of<M: IntoMessage>(alloc: Global, sending: Sending<M>) -> Result<Saying, NoMemory>
    ensures { IfOk result (λ saying. saying ≡ saying_of M.wrapped sending) }
{
    match sending {
        Sending::Reply(message) => Ok(to_request(message.into_message(alloc)?)),
        Sending::Refusal(code) => Ok(to_request(refusal(alloc, code)?)),
        Sending::RefusedKeys(keys) => Ok(to_request(refused_message(alloc, keys)?)),
        Sending::Notice(message) => Ok(Saying {
            to: Addressee::Nobody,
            message: message.into_message(alloc)?,
        }),
    }
}

/// A message of a reply.
pub(crate) fn to_request(message: Message) -> Saying
    ensures { result ≡ to_request message }
{
    Saying {
        to: Addressee::Request,
        message,
    }
}

/// The message by which the receipt of another is acknowledged.
pub(crate) fn receipt(alloc: Global) -> Result<Saying, NoMemory>
    ensures { IfOk result (λ saying. saying ≡ receipt) }
{
    Ok(Saying {
        to: Addressee::Receipt,
        message: Message::Core(Boxed::new(alloc, CoreMessage::Acknowledge(Acknowledge))?),
    })
}

/// What a protocol answers a request, and the notices after it.
pub(crate) fn sayings_of<M: IntoMessage + Drop>(
    alloc: Global,
    sendings: List<Sending<M>>,
) -> Result<List<Saying>, NoMemory>
    ensures { IfOk result (λ sayings. sayings ≡ sayings_of M.wrapped sendings) }
{
    let mut sayings = Vec::new(alloc);
    for sending in sendings.into_vec() {
        let saying = saying_of(alloc, sending)?;
        sayings.push(saying)?;
    }
    Ok(List::from_vec(sayings))
}
