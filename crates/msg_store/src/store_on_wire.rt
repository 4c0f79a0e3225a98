//! The messages of the Store protocol, with their records, from and to bytes.
//!
//! `schema/write` writes all below the imports from `schema/messages.txt`.
ghost use Rattle.std.specs.Prelude.{◌≡◌, OnOk};
ghost use Rattle.avro_bin.specs.Plain.{plain, Writes};
ghost use Rattle.avro_bin.specs.Shape.{HasSchema, FitsTree};
ghost use Rattle.etp_schema.specs.Family.{kind_in};
ghost use Rattle.etp_schema.specs.Measure.{measured};
ghost use Rattle.etp_schema.specs.Reading.{Reads, kind_at};
ghost use Rattle.msg_store.specs.Store.{store_body, store_kinds};

use crate::store_messages::{
    ArrayOfString, Chunk, DataObject, DeleteDataObjects, DeleteDataObjectsResponse, GetDataObjects,
    GetDataObjectsResponse, PutDataObjects, PutDataObjectsResponse, PutResponse, Resource,
    StoreMessage,
};
use avro_bin::Fault;
use etp_schema::{Measure, OnWire, Reader, measure_fields, write_fields};
use etp_values::NoMemory;

impl OnWire for Resource {
    #[tactic(auto, using(etp_schema::proofs::RecordLemmas::record_read, etp_schema::proofs::RecordLemmas::record_fails))]
    fn read(from: &mut Reader<'_>) -> Result<Resource, Fault> {
        let (
            uri,
            (
                alternate_uris,
                (
                    name,
                    (
                        source_count,
                        (
                            target_count,
                            (
                                last_changed,
                                (
                                    store_last_write,
                                    (store_created, (active_status, (custom_data, ()))),
                                ),
                            ),
                        ),
                    ),
                ),
            ),
        ) = from.fields()?;
        Ok(Resource {
            uri,
            alternate_uris,
            name,
            source_count,
            target_count,
            last_changed,
            store_last_write,
            store_created,
            active_status,
            custom_data,
        })
    }

    #[tactic(auto, unfolding(etp_schema::specs::Form::Holds))]
    fn write(&self, into: &mut Vec<u8>) -> Result<(), NoMemory> {
        write_fields(
            (
                &self.uri,
                (
                    &self.alternate_uris,
                    (
                        &self.name,
                        (
                            &self.source_count,
                            (
                                &self.target_count,
                                (
                                    &self.last_changed,
                                    (
                                        &self.store_last_write,
                                        (
                                            &self.store_created,
                                            (&self.active_status, (&self.custom_data, ())),
                                        ),
                                    ),
                                ),
                            ),
                        ),
                    ),
                ),
            ),
            into,
        )
    }

    fn measure(&self) -> Measure {
        measure_fields((
            &self.uri,
            (
                &self.alternate_uris,
                (
                    &self.name,
                    (
                        &self.source_count,
                        (
                            &self.target_count,
                            (
                                &self.last_changed,
                                (
                                    &self.store_last_write,
                                    (
                                        &self.store_created,
                                        (&self.active_status, (&self.custom_data, ())),
                                    ),
                                ),
                            ),
                        ),
                    ),
                ),
            ),
        ))
    }
}

impl OnWire for DataObject {
    #[tactic(auto, using(etp_schema::proofs::RecordLemmas::record_read, etp_schema::proofs::RecordLemmas::record_fails))]
    fn read(from: &mut Reader<'_>) -> Result<DataObject, Fault> {
        let (resource, (format, (blob_id, (payload, ())))) = from.fields()?;
        Ok(DataObject {
            resource,
            format,
            blob_id,
            payload,
        })
    }

    #[tactic(auto, unfolding(etp_schema::specs::Form::Holds))]
    fn write(&self, into: &mut Vec<u8>) -> Result<(), NoMemory> {
        write_fields(
            (
                &self.resource,
                (&self.format, (&self.blob_id, (&self.payload, ()))),
            ),
            into,
        )
    }

    fn measure(&self) -> Measure {
        measure_fields((
            &self.resource,
            (&self.format, (&self.blob_id, (&self.payload, ()))),
        ))
    }
}

impl OnWire for PutResponse {
    #[tactic(auto, using(etp_schema::proofs::RecordLemmas::record_read, etp_schema::proofs::RecordLemmas::record_fails))]
    fn read(from: &mut Reader<'_>) -> Result<PutResponse, Fault> {
        let (
            created_contained_object_uris,
            (
                deleted_contained_object_uris,
                (joined_contained_object_uris, (unjoined_contained_object_uris, ())),
            ),
        ) = from.fields()?;
        Ok(PutResponse {
            created_contained_object_uris,
            deleted_contained_object_uris,
            joined_contained_object_uris,
            unjoined_contained_object_uris,
        })
    }

    #[tactic(auto, unfolding(etp_schema::specs::Form::Holds))]
    fn write(&self, into: &mut Vec<u8>) -> Result<(), NoMemory> {
        write_fields(
            (
                &self.created_contained_object_uris,
                (
                    &self.deleted_contained_object_uris,
                    (
                        &self.joined_contained_object_uris,
                        (&self.unjoined_contained_object_uris, ()),
                    ),
                ),
            ),
            into,
        )
    }

    fn measure(&self) -> Measure {
        measure_fields((
            &self.created_contained_object_uris,
            (
                &self.deleted_contained_object_uris,
                (
                    &self.joined_contained_object_uris,
                    (&self.unjoined_contained_object_uris, ()),
                ),
            ),
        ))
    }
}

impl OnWire for ArrayOfString {
    #[tactic(auto, using(etp_schema::proofs::RecordLemmas::record_read, etp_schema::proofs::RecordLemmas::record_fails))]
    fn read(from: &mut Reader<'_>) -> Result<ArrayOfString, Fault> {
        let (values, ()) = from.fields()?;
        Ok(ArrayOfString { values })
    }

    #[tactic(auto, unfolding(etp_schema::specs::Form::Holds))]
    fn write(&self, into: &mut Vec<u8>) -> Result<(), NoMemory> {
        write_fields((&self.values, ()), into)
    }

    fn measure(&self) -> Measure {
        measure_fields((&self.values, ()))
    }
}

impl OnWire for GetDataObjects {
    #[tactic(auto, using(etp_schema::proofs::RecordLemmas::record_read, etp_schema::proofs::RecordLemmas::record_fails))]
    fn read(from: &mut Reader<'_>) -> Result<GetDataObjects, Fault> {
        let (uris, (format, ())) = from.fields()?;
        Ok(GetDataObjects { uris, format })
    }

    #[tactic(auto, unfolding(etp_schema::specs::Form::Holds))]
    fn write(&self, into: &mut Vec<u8>) -> Result<(), NoMemory> {
        write_fields((&self.uris, (&self.format, ())), into)
    }

    fn measure(&self) -> Measure {
        measure_fields((&self.uris, (&self.format, ())))
    }
}

impl OnWire for PutDataObjects {
    #[tactic(auto, using(etp_schema::proofs::RecordLemmas::record_read, etp_schema::proofs::RecordLemmas::record_fails))]
    fn read(from: &mut Reader<'_>) -> Result<PutDataObjects, Fault> {
        let (data_objects, (prune_contained_objects, ())) = from.fields()?;
        Ok(PutDataObjects {
            data_objects,
            prune_contained_objects,
        })
    }

    #[tactic(auto, unfolding(etp_schema::specs::Form::Holds))]
    fn write(&self, into: &mut Vec<u8>) -> Result<(), NoMemory> {
        write_fields(
            (&self.data_objects, (&self.prune_contained_objects, ())),
            into,
        )
    }

    fn measure(&self) -> Measure {
        measure_fields((&self.data_objects, (&self.prune_contained_objects, ())))
    }
}

impl OnWire for DeleteDataObjects {
    #[tactic(auto, using(etp_schema::proofs::RecordLemmas::record_read, etp_schema::proofs::RecordLemmas::record_fails))]
    fn read(from: &mut Reader<'_>) -> Result<DeleteDataObjects, Fault> {
        let (uris, (prune_contained_objects, ())) = from.fields()?;
        Ok(DeleteDataObjects {
            uris,
            prune_contained_objects,
        })
    }

    #[tactic(auto, unfolding(etp_schema::specs::Form::Holds))]
    fn write(&self, into: &mut Vec<u8>) -> Result<(), NoMemory> {
        write_fields((&self.uris, (&self.prune_contained_objects, ())), into)
    }

    fn measure(&self) -> Measure {
        measure_fields((&self.uris, (&self.prune_contained_objects, ())))
    }
}

impl OnWire for GetDataObjectsResponse {
    #[tactic(auto, using(etp_schema::proofs::RecordLemmas::record_read, etp_schema::proofs::RecordLemmas::record_fails))]
    fn read(from: &mut Reader<'_>) -> Result<GetDataObjectsResponse, Fault> {
        let (data_objects, ()) = from.fields()?;
        Ok(GetDataObjectsResponse { data_objects })
    }

    #[tactic(auto, unfolding(etp_schema::specs::Form::Holds))]
    fn write(&self, into: &mut Vec<u8>) -> Result<(), NoMemory> {
        write_fields((&self.data_objects, ()), into)
    }

    fn measure(&self) -> Measure {
        measure_fields((&self.data_objects, ()))
    }
}

impl OnWire for Chunk {
    #[tactic(auto, using(etp_schema::proofs::RecordLemmas::record_read, etp_schema::proofs::RecordLemmas::record_fails))]
    fn read(from: &mut Reader<'_>) -> Result<Chunk, Fault> {
        let (blob_id, (payload, (last, ()))) = from.fields()?;
        Ok(Chunk {
            blob_id,
            payload,
            last,
        })
    }

    #[tactic(auto, unfolding(etp_schema::specs::Form::Holds))]
    fn write(&self, into: &mut Vec<u8>) -> Result<(), NoMemory> {
        write_fields((&self.blob_id, (&self.payload, (&self.last, ()))), into)
    }

    fn measure(&self) -> Measure {
        measure_fields((&self.blob_id, (&self.payload, (&self.last, ()))))
    }
}

impl OnWire for PutDataObjectsResponse {
    #[tactic(auto, using(etp_schema::proofs::RecordLemmas::record_read, etp_schema::proofs::RecordLemmas::record_fails))]
    fn read(from: &mut Reader<'_>) -> Result<PutDataObjectsResponse, Fault> {
        let (success, ()) = from.fields()?;
        Ok(PutDataObjectsResponse { success })
    }

    #[tactic(auto, unfolding(etp_schema::specs::Form::Holds))]
    fn write(&self, into: &mut Vec<u8>) -> Result<(), NoMemory> {
        write_fields((&self.success, ()), into)
    }

    fn measure(&self) -> Measure {
        measure_fields((&self.success, ()))
    }
}

impl OnWire for DeleteDataObjectsResponse {
    #[tactic(auto, using(etp_schema::proofs::RecordLemmas::record_read, etp_schema::proofs::RecordLemmas::record_fails))]
    fn read(from: &mut Reader<'_>) -> Result<DeleteDataObjectsResponse, Fault> {
        let (deleted_uris, ()) = from.fields()?;
        Ok(DeleteDataObjectsResponse { deleted_uris })
    }

    #[tactic(auto, unfolding(etp_schema::specs::Form::Holds))]
    fn write(&self, into: &mut Vec<u8>) -> Result<(), NoMemory> {
        write_fields((&self.deleted_uris, ()), into)
    }

    fn measure(&self) -> Measure {
        measure_fields((&self.deleted_uris, ()))
    }
}

impl StoreMessage {
    /// The message of this number whose body is at the front of the rest, if the protocol has one.
    pub fn read(from: &mut Reader<'_>, kind: i32) -> Result<Option<StoreMessage>, Fault>
        ensures { Reads (kind_at (kind_in store_kinds kind) from.old.left from.old.rest.now) result from.new }
    {
        match kind {
            1 => Ok(Some(StoreMessage::GetDataObjects(from.take()?))),
            2 => Ok(Some(StoreMessage::PutDataObjects(from.take()?))),
            3 => Ok(Some(StoreMessage::DeleteDataObjects(from.take()?))),
            4 => Ok(Some(StoreMessage::GetDataObjectsResponse(from.take()?))),
            8 => Ok(Some(StoreMessage::Chunk(from.take()?))),
            9 => Ok(Some(StoreMessage::PutDataObjectsResponse(from.take()?))),
            10 => Ok(Some(StoreMessage::DeleteDataObjectsResponse(from.take()?))),
            _ => Ok(None),
        }
    }

    /// Appends the written spelling of the body. After `NoMemory` what was there is still at the front.
    #[tactic(auto, unfolding(etp_schema::specs::Form::Holds))]
    pub fn write(&self, into: &mut Vec<u8>) -> Result<(), NoMemory>
        ensures written { Writes (plain (store_body self.now).value) into.old.items into.new.items result }
        ensures typed { OnOk result (HasSchema (store_body self.now).schema (store_body self.now).value) }
        ensures fits { OnOk result (FitsTree (store_body self.now).value) }
    {
        match self {
            StoreMessage::GetDataObjects(message) => message.write(into),
            StoreMessage::PutDataObjects(message) => message.write(into),
            StoreMessage::DeleteDataObjects(message) => message.write(into),
            StoreMessage::GetDataObjectsResponse(message) => message.write(into),
            StoreMessage::Chunk(message) => message.write(into),
            StoreMessage::PutDataObjectsResponse(message) => message.write(into),
            StoreMessage::DeleteDataObjectsResponse(message) => message.write(into),
        }
    }

    /// How much of a message the body takes. It does not allocate.
    pub fn measure(&self) -> Measure
        ensures { result ≡ measured (store_body self.now).value }
    {
        match self {
            StoreMessage::GetDataObjects(message) => message.measure(),
            StoreMessage::PutDataObjects(message) => message.measure(),
            StoreMessage::DeleteDataObjects(message) => message.measure(),
            StoreMessage::GetDataObjectsResponse(message) => message.measure(),
            StoreMessage::Chunk(message) => message.measure(),
            StoreMessage::PutDataObjectsResponse(message) => message.measure(),
            StoreMessage::DeleteDataObjectsResponse(message) => message.measure(),
        }
    }
}
