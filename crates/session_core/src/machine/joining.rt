//! Messages of the Store protocol, and puts that await chunks.
ghost use Rattle.std.specs.Prelude.{◌≡◌, None, IfOk, OnOk};
ghost use Rattle.etp_frame.specs.Joining.{IsJoinFault};
ghost use Rattle.session_core.specs.Arriving.{request_of};
ghost use Rattle.session_core.specs.Machine.{join_code, on_join, on_store, on_whole, request_awaited};

use crate::arriving::request_of;
use crate::machine::Machine;
use crate::state::Request;
use etp_frame::{Header, JoinError, Joined, Message};
use etp_values::{Boxed, ErrorCode, NoMemory};
use msg_store::StoreMessage;
use request_scope::is_read_only;
use session_rows::object_outcome;
use std::alloc::Global;
use store_machine::StoreCall;

impl Machine {
    /// A message of the Store protocol.
    pub(crate) fn on_store(
        &mut self,
        alloc: Global,
        header: &Header,
        moment: i64,
        message: StoreMessage,
    ) -> Result<Option<StoreCall>, NoMemory>
        ensures call { IfOk result (λ call. call ≡ (on_store header.now moment message self.old).call) }
        ensures state { OnOk result (self.new ≡ (on_store header.now moment message self.old).state) }
    {
        match message {
            StoreMessage::PutDataObjects(put) => {
                let message = StoreMessage::PutDataObjects(put);
                if is_read_only(&self.stage) {
                    let request = request_of(header);
                    let message = Message::Store(Boxed::new(alloc, message)?);
                    return self.refuse_unread(alloc, &request, message, ErrorCode::RequestDenied);
                }
                self.on_join(alloc, header, moment, message)
            }
            StoreMessage::Chunk(chunk) => {
                self.on_join(alloc, header, moment, StoreMessage::Chunk(chunk))
            }
            other => self.on_whole(
                alloc,
                request_of(header),
                moment,
                Message::Store(Boxed::new(alloc, other)?),
            ),
        }
    }

    /// A put or a chunk, which the joiner takes.
    fn on_join(
        &mut self,
        alloc: Global,
        header: &Header,
        moment: i64,
        message: StoreMessage,
    ) -> Result<Option<StoreCall>, NoMemory>
        ensures call { IfOk result (λ call. call ≡ (on_join header.now moment message self.old).call) }
        ensures state { OnOk result (self.new ≡ (on_join header.now moment message self.old).state) }
    {
        let put = put_request(header, self.joiner.awaited());
        match self
            .joiner
            .add(alloc, header, Message::Store(Boxed::new(alloc, message)?))
        {
            Ok(Joined::More) => Ok(None),
            Ok(Joined::Whole(message)) => self.on_whole(alloc, put, moment, message),
            Err(error) => {
                let code = join_code(error)?;
                self.refuse(alloc, &request_of(header), code)?;
                Ok(None)
            }
        }
    }

    /// A request of the Store protocol that is whole.
    fn on_whole(
        &mut self,
        alloc: Global,
        request: Request,
        moment: i64,
        message: Message,
    ) -> Result<Option<StoreCall>, NoMemory>
        ensures call { IfOk result (λ call. call ≡ (on_whole request moment message self.old).call) }
        ensures state { OnOk result (self.new ≡ (on_whole request moment message self.old).state) }
    {
        match message {
            Message::Store(message) => {
                let outcome = object_outcome(
                    alloc,
                    &self.formats,
                    &self.config.types,
                    &self.stage,
                    moment,
                    message.into_inner(),
                )?;
                self.on_objects(alloc, request, outcome)
            }
            other => let_go(other),
        }
    }
}

/// Drops the message; there is no store call.
fn let_go(message: Message) -> Result<Option<StoreCall>, NoMemory>
    ensures { IfOk result (λ call. call ≡ None) }
{
    drop(message);
    Ok(None)
}

/// The message that is answered: for a put that becomes whole by a chunk the put, for any other the message itself.
fn put_request(header: &Header, awaited: Option<i64>) -> Request
    ensures { result ≡ request_awaited header.now awaited }
{
    match awaited {
        Some(id) => Request {
            protocol: header.protocol,
            id,
        },
        None => request_of(header),
    }
}

/// The code with which a joiner's refusal is answered; running out of memory is not one.
fn join_code(error: JoinError) -> Result<ErrorCode, NoMemory>
    ensures value { IfOk result (λ code. code ≡ join_code error) }
    ensures fault { OnOk result (IsJoinFault error) }
{
    match error {
        JoinError::NoBlob => Ok(ErrorCode::InvalidArgument),
        JoinError::WrongBlob => Ok(ErrorCode::InvalidArgument),
        JoinError::Interleaved => Ok(ErrorCode::InvalidArgument),
        JoinError::TooLong => Ok(ErrorCode::SizeExceeded),
        JoinError::NoMemory => Err(NoMemory),
    }
}
