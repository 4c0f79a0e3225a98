//! The parts of the messages of Store.
//!
//! `schema/write` writes most of this file from `schema/messages.txt`.
ghost use Rattle.std.specs.Prelude.{◌≡◌, IfOk};
ghost use Rattle.etp_frame.specs.declared.message.Message.TheVariants as m;
ghost use Rattle.msg_store.specs.declared.store_messages.StoreMessage.TheVariants as s;
ghost use Rattle.etp_frame.specs.Splitting.{result_parts, store_parts};

use crate::message::Message;
use crate::parting::{WithEntries, one_part, parts_of_entries};
use crate::parts::objects::{put_parts, reply_parts};
use etp_values::{Boxed, List, Named, NoMemory};
use msg_store::{
    ArrayOfString, DeleteDataObjectsResponse, PutDataObjectsResponse, PutResponse, StoreMessage,
};
use std::alloc::Global;

impl WithEntries<PutResponse> for PutDataObjectsResponse {
    ghost use Rattle.msg_store.specs.declared.store_messages.StoreMessage.TheVariants as s;
    ghost use Rattle.etp_frame.specs.declared.message.Message.TheVariants as m;

    ghost whole = { λ x g. m.Store (s.PutDataObjectsResponse (record x { success = g })) };

    fn with_entries(&self, alloc: Global, entries: Named<PutResponse>) -> Result<Message, NoMemory>
        ensures { IfOk result (λ x. x ≡ m.Store (s.PutDataObjectsResponse (record self.now { success = entries }))) }
    {
        Ok(Message::Store(Boxed::new(
            alloc,
            StoreMessage::PutDataObjectsResponse(PutDataObjectsResponse { success: entries }),
        )?))
    }
}

/// The parts of this message.
fn store_put_data_objects_response(
    alloc: Global,
    message: PutDataObjectsResponse,
    limit: u64,
) -> Result<List<Message>, NoMemory>
    ensures { IfOk result (λ l. l ≡ result_parts limit (s.PutDataObjectsResponse message)) }
{
    let PutDataObjectsResponse { success } = message;
    let rest = PutDataObjectsResponse {
        success: Named::new(alloc),
    };
    parts_of_entries(alloc, &rest, success, limit)
}

impl WithEntries<ArrayOfString> for DeleteDataObjectsResponse {
    ghost use Rattle.msg_store.specs.declared.store_messages.StoreMessage.TheVariants as s;
    ghost use Rattle.etp_frame.specs.declared.message.Message.TheVariants as m;

    ghost whole = { λ x g. m.Store (s.DeleteDataObjectsResponse (record x { deleted_uris = g })) };

    fn with_entries(
        &self,
        alloc: Global,
        entries: Named<ArrayOfString>,
    ) -> Result<Message, NoMemory>
        ensures { IfOk result (λ x. x ≡ m.Store (s.DeleteDataObjectsResponse (record self.now { deleted_uris = entries }))) }
    {
        Ok(Message::Store(Boxed::new(
            alloc,
            StoreMessage::DeleteDataObjectsResponse(DeleteDataObjectsResponse {
                deleted_uris: entries,
            }),
        )?))
    }
}

/// The parts of this message.
fn store_delete_data_objects_response(
    alloc: Global,
    message: DeleteDataObjectsResponse,
    limit: u64,
) -> Result<List<Message>, NoMemory>
    ensures { IfOk result (λ l. l ≡ result_parts limit (s.DeleteDataObjectsResponse message)) }
{
    let DeleteDataObjectsResponse { deleted_uris } = message;
    let rest = DeleteDataObjectsResponse {
        deleted_uris: Named::new(alloc),
    };
    parts_of_entries(alloc, &rest, deleted_uris, limit)
}

/// The parts of a message without objects.
fn result_parts(alloc: Global, message: StoreMessage, limit: u64) -> Result<List<Message>, NoMemory>
    ensures { IfOk result (λ l. l ≡ result_parts limit message) }
{
    match message {
        StoreMessage::PutDataObjectsResponse(message) => store_put_data_objects_response(
            alloc, message, limit,
        ),
        StoreMessage::DeleteDataObjectsResponse(message) => store_delete_data_objects_response(
            alloc, message, limit,
        ),
        other => one_part(alloc, Message::Store(Boxed::new(alloc, other)?)),
    }
}

/// The parts of a message.
pub(crate) fn store_parts(
    alloc: Global,
    message: StoreMessage,
    limit: u64,
    number: u64,
    blobs: u64,
) -> Result<List<Message>, NoMemory>
    ensures { IfOk result (λ l. l ≡ store_parts limit number blobs message) }
{
    match message {
        StoreMessage::PutDataObjects(put) => put_parts(alloc, put, limit, number, blobs),
        StoreMessage::GetDataObjectsResponse(reply) => {
            reply_parts(alloc, reply, limit, number, blobs)
        }
        other => result_parts(alloc, other, limit),
    }
}
