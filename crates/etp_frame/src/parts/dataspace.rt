//! The parts of the messages of Dataspace.
//!
//! `schema/write` writes all below the imports from `schema/messages.txt`.
ghost use Rattle.std.specs.Prelude.{◌≡◌, IfOk};
ghost use Rattle.etp_frame.specs.declared.message.Message.TheVariants as m;
ghost use Rattle.etp_frame.specs.Splitting.{dataspace_parts};
ghost use Rattle.msg_core.specs.declared.dataspace_messages.DataspaceMessage.TheVariants as d;

use crate::message::Message;
use crate::parting::{WithElements, WithEntries, one_part, parts_of_elements, parts_of_entries};
use etp_values::{Boxed, List, Named, NoMemory, Text};
use msg_core::{
    Dataspace, DataspaceMessage, DeleteDataspacesResponse, GetDataspacesResponse,
    PutDataspacesResponse,
};
use std::alloc::Global;

impl WithElements<Dataspace> for GetDataspacesResponse {
    ghost use Rattle.msg_core.specs.declared.dataspace_messages.DataspaceMessage.TheVariants as d;
    ghost use Rattle.etp_frame.specs.declared.message.Message.TheVariants as m;

    ghost whole = { λ x g. m.Dataspace (d.GetDataspacesResponse (record x { dataspaces = g })) };

    fn with_elements(&self, alloc: Global, elements: List<Dataspace>) -> Result<Message, NoMemory>
        ensures { IfOk result (λ x. x ≡ m.Dataspace (d.GetDataspacesResponse (record self.now { dataspaces = elements }))) }
    {
        Ok(Message::Dataspace(Boxed::new(
            alloc,
            DataspaceMessage::GetDataspacesResponse(GetDataspacesResponse {
                dataspaces: elements,
            }),
        )?))
    }
}

/// The parts of this message.
fn dataspace_get_dataspaces_response(
    alloc: Global,
    message: GetDataspacesResponse,
    limit: u64,
) -> Result<List<Message>, NoMemory>
    ensures { IfOk result (λ l. l ≡ dataspace_parts limit (d.GetDataspacesResponse message)) }
{
    let GetDataspacesResponse { dataspaces } = message;
    let rest = GetDataspacesResponse {
        dataspaces: List::new(alloc),
    };
    parts_of_elements(alloc, &rest, dataspaces, limit)
}

impl WithEntries<Text> for PutDataspacesResponse {
    ghost use Rattle.msg_core.specs.declared.dataspace_messages.DataspaceMessage.TheVariants as d;
    ghost use Rattle.etp_frame.specs.declared.message.Message.TheVariants as m;

    ghost whole = { λ x g. m.Dataspace (d.PutDataspacesResponse (record x { success = g })) };

    fn with_entries(&self, alloc: Global, entries: Named<Text>) -> Result<Message, NoMemory>
        ensures { IfOk result (λ x. x ≡ m.Dataspace (d.PutDataspacesResponse (record self.now { success = entries }))) }
    {
        Ok(Message::Dataspace(Boxed::new(
            alloc,
            DataspaceMessage::PutDataspacesResponse(PutDataspacesResponse { success: entries }),
        )?))
    }
}

/// The parts of this message.
fn dataspace_put_dataspaces_response(
    alloc: Global,
    message: PutDataspacesResponse,
    limit: u64,
) -> Result<List<Message>, NoMemory>
    ensures { IfOk result (λ l. l ≡ dataspace_parts limit (d.PutDataspacesResponse message)) }
{
    let PutDataspacesResponse { success } = message;
    let rest = PutDataspacesResponse {
        success: Named::new(alloc),
    };
    parts_of_entries(alloc, &rest, success, limit)
}

impl WithEntries<Text> for DeleteDataspacesResponse {
    ghost use Rattle.msg_core.specs.declared.dataspace_messages.DataspaceMessage.TheVariants as d;
    ghost use Rattle.etp_frame.specs.declared.message.Message.TheVariants as m;

    ghost whole = { λ x g. m.Dataspace (d.DeleteDataspacesResponse (record x { success = g })) };

    fn with_entries(&self, alloc: Global, entries: Named<Text>) -> Result<Message, NoMemory>
        ensures { IfOk result (λ x. x ≡ m.Dataspace (d.DeleteDataspacesResponse (record self.now { success = entries }))) }
    {
        Ok(Message::Dataspace(Boxed::new(
            alloc,
            DataspaceMessage::DeleteDataspacesResponse(DeleteDataspacesResponse {
                success: entries,
            }),
        )?))
    }
}

/// The parts of this message.
fn dataspace_delete_dataspaces_response(
    alloc: Global,
    message: DeleteDataspacesResponse,
    limit: u64,
) -> Result<List<Message>, NoMemory>
    ensures { IfOk result (λ l. l ≡ dataspace_parts limit (d.DeleteDataspacesResponse message)) }
{
    let DeleteDataspacesResponse { success } = message;
    let rest = DeleteDataspacesResponse {
        success: Named::new(alloc),
    };
    parts_of_entries(alloc, &rest, success, limit)
}

/// The parts of a message.
pub(crate) fn dataspace_parts(
    alloc: Global,
    message: DataspaceMessage,
    limit: u64,
) -> Result<List<Message>, NoMemory>
    ensures { IfOk result (λ l. l ≡ dataspace_parts limit message) }
{
    match message {
        DataspaceMessage::GetDataspacesResponse(message) => dataspace_get_dataspaces_response(
            alloc, message, limit,
        ),
        DataspaceMessage::PutDataspacesResponse(message) => dataspace_put_dataspaces_response(
            alloc, message, limit,
        ),
        DataspaceMessage::DeleteDataspacesResponse(message) => dataspace_delete_dataspaces_response(
            alloc, message, limit,
        ),
        other => one_part(alloc, Message::Dataspace(Boxed::new(alloc, other)?)),
    }
}
