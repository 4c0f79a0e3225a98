//! The messages of the Dataspace protocol, with their records, from and to bytes.
//!
//! `schema/write` writes all below the imports from `schema/messages.txt`.
ghost use Rattle.std.specs.Prelude.{◌≡◌, OnOk};
ghost use Rattle.avro_bin.specs.Plain.{plain, Writes};
ghost use Rattle.avro_bin.specs.Shape.{HasSchema, FitsTree};
ghost use Rattle.etp_schema.specs.Family.{kind_in};
ghost use Rattle.etp_schema.specs.Measure.{measured};
ghost use Rattle.etp_schema.specs.Reading.{Reads, kind_at};
ghost use Rattle.msg_core.specs.Dataspace.{dataspace_body, dataspace_kinds};

use crate::dataspace_messages::{
    Dataspace, DataspaceMessage, DeleteDataspaces, DeleteDataspacesResponse, GetDataspaces,
    GetDataspacesResponse, PutDataspaces, PutDataspacesResponse,
};
use avro_bin::Fault;
use etp_schema::{Measure, OnWire, Reader, measure_fields, write_fields};
use etp_values::NoMemory;

impl OnWire for Dataspace {
    #[tactic(auto, using(etp_schema::proofs::RecordLemmas::record_read, etp_schema::proofs::RecordLemmas::record_fails))]
    fn read(from: &mut Reader<'_>) -> Result<Dataspace, Fault> {
        let (uri, (path, (store_last_write, (store_created, (custom_data, ()))))) = from.fields()?;
        Ok(Dataspace {
            uri,
            path,
            store_last_write,
            store_created,
            custom_data,
        })
    }

    #[tactic(auto, unfolding(etp_schema::specs::Form::Holds))]
    fn write(&self, into: &mut Vec<u8>) -> Result<(), NoMemory> {
        write_fields(
            (
                &self.uri,
                (
                    &self.path,
                    (
                        &self.store_last_write,
                        (&self.store_created, (&self.custom_data, ())),
                    ),
                ),
            ),
            into,
        )
    }

    fn measure(&self) -> Measure {
        measure_fields((
            &self.uri,
            (
                &self.path,
                (
                    &self.store_last_write,
                    (&self.store_created, (&self.custom_data, ())),
                ),
            ),
        ))
    }
}

impl OnWire for GetDataspaces {
    #[tactic(auto, using(etp_schema::proofs::RecordLemmas::record_read, etp_schema::proofs::RecordLemmas::record_fails))]
    fn read(from: &mut Reader<'_>) -> Result<GetDataspaces, Fault> {
        let (store_last_write_filter, ()) = from.fields()?;
        Ok(GetDataspaces {
            store_last_write_filter,
        })
    }

    #[tactic(auto, unfolding(etp_schema::specs::Form::Holds))]
    fn write(&self, into: &mut Vec<u8>) -> Result<(), NoMemory> {
        write_fields((&self.store_last_write_filter, ()), into)
    }

    fn measure(&self) -> Measure {
        measure_fields((&self.store_last_write_filter, ()))
    }
}

impl OnWire for GetDataspacesResponse {
    #[tactic(auto, using(etp_schema::proofs::RecordLemmas::record_read, etp_schema::proofs::RecordLemmas::record_fails))]
    fn read(from: &mut Reader<'_>) -> Result<GetDataspacesResponse, Fault> {
        let (dataspaces, ()) = from.fields()?;
        Ok(GetDataspacesResponse { dataspaces })
    }

    #[tactic(auto, unfolding(etp_schema::specs::Form::Holds))]
    fn write(&self, into: &mut Vec<u8>) -> Result<(), NoMemory> {
        write_fields((&self.dataspaces, ()), into)
    }

    fn measure(&self) -> Measure {
        measure_fields((&self.dataspaces, ()))
    }
}

impl OnWire for PutDataspaces {
    #[tactic(auto, using(etp_schema::proofs::RecordLemmas::record_read, etp_schema::proofs::RecordLemmas::record_fails))]
    fn read(from: &mut Reader<'_>) -> Result<PutDataspaces, Fault> {
        let (dataspaces, ()) = from.fields()?;
        Ok(PutDataspaces { dataspaces })
    }

    #[tactic(auto, unfolding(etp_schema::specs::Form::Holds))]
    fn write(&self, into: &mut Vec<u8>) -> Result<(), NoMemory> {
        write_fields((&self.dataspaces, ()), into)
    }

    fn measure(&self) -> Measure {
        measure_fields((&self.dataspaces, ()))
    }
}

impl OnWire for DeleteDataspaces {
    #[tactic(auto, using(etp_schema::proofs::RecordLemmas::record_read, etp_schema::proofs::RecordLemmas::record_fails))]
    fn read(from: &mut Reader<'_>) -> Result<DeleteDataspaces, Fault> {
        let (uris, ()) = from.fields()?;
        Ok(DeleteDataspaces { uris })
    }

    #[tactic(auto, unfolding(etp_schema::specs::Form::Holds))]
    fn write(&self, into: &mut Vec<u8>) -> Result<(), NoMemory> {
        write_fields((&self.uris, ()), into)
    }

    fn measure(&self) -> Measure {
        measure_fields((&self.uris, ()))
    }
}

impl OnWire for DeleteDataspacesResponse {
    #[tactic(auto, using(etp_schema::proofs::RecordLemmas::record_read, etp_schema::proofs::RecordLemmas::record_fails))]
    fn read(from: &mut Reader<'_>) -> Result<DeleteDataspacesResponse, Fault> {
        let (success, ()) = from.fields()?;
        Ok(DeleteDataspacesResponse { success })
    }

    #[tactic(auto, unfolding(etp_schema::specs::Form::Holds))]
    fn write(&self, into: &mut Vec<u8>) -> Result<(), NoMemory> {
        write_fields((&self.success, ()), into)
    }

    fn measure(&self) -> Measure {
        measure_fields((&self.success, ()))
    }
}

impl OnWire for PutDataspacesResponse {
    #[tactic(auto, using(etp_schema::proofs::RecordLemmas::record_read, etp_schema::proofs::RecordLemmas::record_fails))]
    fn read(from: &mut Reader<'_>) -> Result<PutDataspacesResponse, Fault> {
        let (success, ()) = from.fields()?;
        Ok(PutDataspacesResponse { success })
    }

    #[tactic(auto, unfolding(etp_schema::specs::Form::Holds))]
    fn write(&self, into: &mut Vec<u8>) -> Result<(), NoMemory> {
        write_fields((&self.success, ()), into)
    }

    fn measure(&self) -> Measure {
        measure_fields((&self.success, ()))
    }
}

impl DataspaceMessage {
    /// The message of this number whose body is at the front of the rest, if the protocol has one.
    pub fn read(from: &mut Reader<'_>, kind: i32) -> Result<Option<DataspaceMessage>, Fault>
        ensures { Reads (kind_at (kind_in dataspace_kinds kind) from.old.left from.old.rest.now) result from.new }
    {
        match kind {
            1 => Ok(Some(DataspaceMessage::GetDataspaces(from.take()?))),
            2 => Ok(Some(DataspaceMessage::GetDataspacesResponse(from.take()?))),
            3 => Ok(Some(DataspaceMessage::PutDataspaces(from.take()?))),
            4 => Ok(Some(DataspaceMessage::DeleteDataspaces(from.take()?))),
            5 => Ok(Some(DataspaceMessage::DeleteDataspacesResponse(from.take()?))),
            6 => Ok(Some(DataspaceMessage::PutDataspacesResponse(from.take()?))),
            _ => Ok(None),
        }
    }

    /// Appends the written spelling of the body. After `NoMemory` what was there is still at the front.
    #[tactic(auto, unfolding(etp_schema::specs::Form::Holds))]
    pub fn write(&self, into: &mut Vec<u8>) -> Result<(), NoMemory>
        ensures written { Writes (plain (dataspace_body self.now).value) into.old.items into.new.items result }
        ensures typed { OnOk result (HasSchema (dataspace_body self.now).schema (dataspace_body self.now).value) }
        ensures fits { OnOk result (FitsTree (dataspace_body self.now).value) }
    {
        match self {
            DataspaceMessage::GetDataspaces(message) => message.write(into),
            DataspaceMessage::GetDataspacesResponse(message) => message.write(into),
            DataspaceMessage::PutDataspaces(message) => message.write(into),
            DataspaceMessage::DeleteDataspaces(message) => message.write(into),
            DataspaceMessage::DeleteDataspacesResponse(message) => message.write(into),
            DataspaceMessage::PutDataspacesResponse(message) => message.write(into),
        }
    }

    /// How much of a message the body takes. It does not allocate.
    pub fn measure(&self) -> Measure
        ensures { result ≡ measured (dataspace_body self.now).value }
    {
        match self {
            DataspaceMessage::GetDataspaces(message) => message.measure(),
            DataspaceMessage::GetDataspacesResponse(message) => message.measure(),
            DataspaceMessage::PutDataspaces(message) => message.measure(),
            DataspaceMessage::DeleteDataspaces(message) => message.measure(),
            DataspaceMessage::DeleteDataspacesResponse(message) => message.measure(),
            DataspaceMessage::PutDataspacesResponse(message) => message.measure(),
        }
    }
}
