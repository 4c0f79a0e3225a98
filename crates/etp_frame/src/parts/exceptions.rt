//! The parts of the messages of Core.
//!
//! `schema/write` writes all below the imports from `schema/messages.txt`.
ghost use Rattle.std.specs.Prelude.{◌≡◌, IfOk};
ghost use Rattle.etp_frame.specs.declared.message.Message.TheVariants as m;
ghost use Rattle.etp_frame.specs.Splitting.{core_parts};
ghost use Rattle.msg_core.specs.declared.core_messages.CoreMessage.TheVariants as c;

use crate::message::Message;
use crate::parting::{WithEntries, one_part, parts_of_entries};
use crate::parts::copies::copied_error;
use etp_values::{Boxed, List, Named, NoMemory};
use msg_core::{CoreMessage, ErrorInfo, ProtocolException};
use std::alloc::Global;

impl WithEntries<ErrorInfo> for ProtocolException {
    ghost use Rattle.msg_core.specs.declared.core_messages.CoreMessage.TheVariants as c;
    ghost use Rattle.etp_frame.specs.declared.message.Message.TheVariants as m;

    ghost whole = { λ x g. m.Core (c.ProtocolException (record x { errors = g })) };

    fn with_entries(&self, alloc: Global, entries: Named<ErrorInfo>) -> Result<Message, NoMemory>
        ensures { IfOk result (λ x. x ≡ m.Core (c.ProtocolException (record self.now { errors = entries }))) }
    {
        Ok(Message::Core(Boxed::new(
            alloc,
            CoreMessage::ProtocolException(ProtocolException {
                error: copied_error(alloc, &self.error)?,
                errors: entries,
            }),
        )?))
    }
}

/// The parts of this message.
fn core_protocol_exception(
    alloc: Global,
    message: ProtocolException,
    limit: u64,
) -> Result<List<Message>, NoMemory>
    ensures { IfOk result (λ l. l ≡ core_parts limit (c.ProtocolException message)) }
{
    let ProtocolException { error, errors } = message;
    let rest = ProtocolException {
        error,
        errors: Named::new(alloc),
    };
    parts_of_entries(alloc, &rest, errors, limit)
}

/// The parts of a message.
pub(crate) fn core_parts(
    alloc: Global,
    message: CoreMessage,
    limit: u64,
) -> Result<List<Message>, NoMemory>
    ensures { IfOk result (λ l. l ≡ core_parts limit message) }
{
    match message {
        CoreMessage::ProtocolException(message) => core_protocol_exception(alloc, message, limit),
        other => one_part(alloc, Message::Core(Boxed::new(alloc, other)?)),
    }
}
