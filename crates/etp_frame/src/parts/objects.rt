//! The parts of messages with objects, and the chunks of the objects' data.
ghost use Rattle.std.specs.Prelude.{◌≡◌, IfOk};
ghost use Rattle.etp_frame.specs.declared.message.Message.TheVariants as m;
ghost use Rattle.msg_store.specs.declared.store_messages.StoreMessage.TheVariants as s;
ghost use Rattle.etp_frame.specs.Splitting.{put_parts, reply_parts};

use crate::grouping::groups;
use crate::message::Message;
use crate::parting::WithEntries;
use crate::sending::{Sent, SentObjects, as_sent, push_with_chunks};
use etp_values::{Boxed, List, Named, NoMemory};
use msg_store::{DataObject, GetDataObjectsResponse, PutDataObjects, StoreMessage};
use std::alloc::Global;

impl WithEntries<DataObject> for PutDataObjects {
    ghost use Rattle.msg_store.specs.declared.store_messages.StoreMessage.TheVariants as s;
    ghost use Rattle.etp_frame.specs.declared.message.Message.TheVariants as m;

    ghost whole = { λ x g. m.Store (s.PutDataObjects (record x { data_objects = g })) };

    fn with_entries(&self, alloc: Global, entries: Named<DataObject>) -> Result<Message, NoMemory>
        ensures { IfOk result (λ x. x ≡ m.Store (s.PutDataObjects (record self.now { data_objects = entries }))) }
    {
        Ok(Message::Store(Boxed::new(
            alloc,
            StoreMessage::PutDataObjects(PutDataObjects {
                data_objects: entries,
                prune_contained_objects: self.prune_contained_objects,
            }),
        )?))
    }
}

impl WithEntries<DataObject> for GetDataObjectsResponse {
    ghost use Rattle.msg_store.specs.declared.store_messages.StoreMessage.TheVariants as s;
    ghost use Rattle.etp_frame.specs.declared.message.Message.TheVariants as m;

    ghost whole = { λ x g. m.Store (s.GetDataObjectsResponse (record x { data_objects = g })) };

    fn with_entries(&self, alloc: Global, entries: Named<DataObject>) -> Result<Message, NoMemory>
        ensures { IfOk result (λ x. x ≡ m.Store (s.GetDataObjectsResponse (record self.now { data_objects = entries }))) }
    {
        Ok(Message::Store(Boxed::new(
            alloc,
            StoreMessage::GetDataObjectsResponse(GetDataObjectsResponse {
                data_objects: entries,
            }),
        )?))
    }
}

/// The put, and the chunks of its objects' long data.
pub(crate) fn put_parts(
    alloc: Global,
    put: PutDataObjects,
    limit: u64,
    number: u64,
    blobs: u64,
) -> Result<List<Message>, NoMemory>
    ensures { IfOk result (λ l. l ≡ put_parts limit number blobs put) }
{
    let PutDataObjects {
        data_objects,
        prune_contained_objects,
    } = put;
    let objects = data_objects.into_vec();
    let sent = as_sent(alloc, limit, number, blobs, objects)?;
    let rest = PutDataObjects {
        data_objects: Named::new(alloc),
        prune_contained_objects,
    };
    let mut parts = Vec::new(alloc);
    push_with_chunks(alloc, &mut parts, &rest, sent)?;
    Ok(List::from_vec(parts))
}

/// The parts of a reply with objects, each followed by the chunks of its objects' long data.
pub(crate) fn reply_parts(
    alloc: Global,
    reply: GetDataObjectsResponse,
    limit: u64,
    number: u64,
    blobs: u64,
) -> Result<List<Message>, NoMemory>
    ensures { IfOk result (λ l. l ≡ reply_parts limit number blobs reply) }
{
    let GetDataObjectsResponse { data_objects } = reply;
    let objects = data_objects.into_vec();
    let sent = as_sent(alloc, limit, number, blobs, objects)?;
    let rest = GetDataObjectsResponse {
        data_objects: Named::new(alloc),
    };
    let in_groups = groups::<Sent, SentObjects>(alloc, sent, limit)?;
    let mut parts = Vec::new(alloc);
    for group in in_groups {
        let own = group.into_vec();
        push_with_chunks(alloc, &mut parts, &rest, own)?;
    }
    Ok(List::from_vec(parts))
}
