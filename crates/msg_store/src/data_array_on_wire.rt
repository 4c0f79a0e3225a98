//! The messages of the DataArray protocol from and to bytes.
//!
//! `schema/write` writes all below the imports from `schema/messages.txt`.
ghost use Rattle.std.specs.Prelude.{◌≡◌, OnOk};
ghost use Rattle.avro_bin.specs.Plain.{plain, Writes};
ghost use Rattle.avro_bin.specs.Shape.{HasSchema, FitsTree};
ghost use Rattle.etp_schema.specs.Family.{kind_in};
ghost use Rattle.etp_schema.specs.Measure.{measured};
ghost use Rattle.etp_schema.specs.Reading.{Reads, kind_at};
ghost use Rattle.msg_store.specs.DataArray.{data_array_body, data_array_kinds};

use crate::data_array_messages::{
    DataArrayMessage, GetDataArrayMetadata, GetDataArrayMetadataResponse, GetDataArrays,
    GetDataArraysResponse, GetDataSubarrays, GetDataSubarraysResponse, PutDataArrays,
    PutDataArraysResponse, PutDataSubarrays, PutDataSubarraysResponse, PutUninitializedDataArrays,
    PutUninitializedDataArraysResponse,
};
use avro_bin::Fault;
use etp_schema::{Measure, OnWire, Reader, measure_fields, write_fields};
use etp_values::NoMemory;

impl OnWire for GetDataArraysResponse {
    #[tactic(auto, using(etp_schema::proofs::RecordLemmas::record_read, etp_schema::proofs::RecordLemmas::record_fails))]
    fn read(from: &mut Reader<'_>) -> Result<GetDataArraysResponse, Fault> {
        let (data_arrays, ()) = from.fields()?;
        Ok(GetDataArraysResponse { data_arrays })
    }

    #[tactic(auto, unfolding(etp_schema::specs::Form::Holds))]
    fn write(&self, into: &mut Vec<u8>) -> Result<(), NoMemory> {
        write_fields((&self.data_arrays, ()), into)
    }

    fn measure(&self) -> Measure {
        measure_fields((&self.data_arrays, ()))
    }
}

impl OnWire for GetDataArrays {
    #[tactic(auto, using(etp_schema::proofs::RecordLemmas::record_read, etp_schema::proofs::RecordLemmas::record_fails))]
    fn read(from: &mut Reader<'_>) -> Result<GetDataArrays, Fault> {
        let (data_arrays, ()) = from.fields()?;
        Ok(GetDataArrays { data_arrays })
    }

    #[tactic(auto, unfolding(etp_schema::specs::Form::Holds))]
    fn write(&self, into: &mut Vec<u8>) -> Result<(), NoMemory> {
        write_fields((&self.data_arrays, ()), into)
    }

    fn measure(&self) -> Measure {
        measure_fields((&self.data_arrays, ()))
    }
}

impl OnWire for GetDataSubarrays {
    #[tactic(auto, using(etp_schema::proofs::RecordLemmas::record_read, etp_schema::proofs::RecordLemmas::record_fails))]
    fn read(from: &mut Reader<'_>) -> Result<GetDataSubarrays, Fault> {
        let (data_subarrays, ()) = from.fields()?;
        Ok(GetDataSubarrays { data_subarrays })
    }

    #[tactic(auto, unfolding(etp_schema::specs::Form::Holds))]
    fn write(&self, into: &mut Vec<u8>) -> Result<(), NoMemory> {
        write_fields((&self.data_subarrays, ()), into)
    }

    fn measure(&self) -> Measure {
        measure_fields((&self.data_subarrays, ()))
    }
}

impl OnWire for PutDataArrays {
    #[tactic(auto, using(etp_schema::proofs::RecordLemmas::record_read, etp_schema::proofs::RecordLemmas::record_fails))]
    fn read(from: &mut Reader<'_>) -> Result<PutDataArrays, Fault> {
        let (data_arrays, ()) = from.fields()?;
        Ok(PutDataArrays { data_arrays })
    }

    #[tactic(auto, unfolding(etp_schema::specs::Form::Holds))]
    fn write(&self, into: &mut Vec<u8>) -> Result<(), NoMemory> {
        write_fields((&self.data_arrays, ()), into)
    }

    fn measure(&self) -> Measure {
        measure_fields((&self.data_arrays, ()))
    }
}

impl OnWire for PutDataSubarrays {
    #[tactic(auto, using(etp_schema::proofs::RecordLemmas::record_read, etp_schema::proofs::RecordLemmas::record_fails))]
    fn read(from: &mut Reader<'_>) -> Result<PutDataSubarrays, Fault> {
        let (data_subarrays, ()) = from.fields()?;
        Ok(PutDataSubarrays { data_subarrays })
    }

    #[tactic(auto, unfolding(etp_schema::specs::Form::Holds))]
    fn write(&self, into: &mut Vec<u8>) -> Result<(), NoMemory> {
        write_fields((&self.data_subarrays, ()), into)
    }

    fn measure(&self) -> Measure {
        measure_fields((&self.data_subarrays, ()))
    }
}

impl OnWire for GetDataArrayMetadata {
    #[tactic(auto, using(etp_schema::proofs::RecordLemmas::record_read, etp_schema::proofs::RecordLemmas::record_fails))]
    fn read(from: &mut Reader<'_>) -> Result<GetDataArrayMetadata, Fault> {
        let (data_arrays, ()) = from.fields()?;
        Ok(GetDataArrayMetadata { data_arrays })
    }

    #[tactic(auto, unfolding(etp_schema::specs::Form::Holds))]
    fn write(&self, into: &mut Vec<u8>) -> Result<(), NoMemory> {
        write_fields((&self.data_arrays, ()), into)
    }

    fn measure(&self) -> Measure {
        measure_fields((&self.data_arrays, ()))
    }
}

impl OnWire for GetDataArrayMetadataResponse {
    #[tactic(auto, using(etp_schema::proofs::RecordLemmas::record_read, etp_schema::proofs::RecordLemmas::record_fails))]
    fn read(from: &mut Reader<'_>) -> Result<GetDataArrayMetadataResponse, Fault> {
        let (array_metadata, ()) = from.fields()?;
        Ok(GetDataArrayMetadataResponse { array_metadata })
    }

    #[tactic(auto, unfolding(etp_schema::specs::Form::Holds))]
    fn write(&self, into: &mut Vec<u8>) -> Result<(), NoMemory> {
        write_fields((&self.array_metadata, ()), into)
    }

    fn measure(&self) -> Measure {
        measure_fields((&self.array_metadata, ()))
    }
}

impl OnWire for GetDataSubarraysResponse {
    #[tactic(auto, using(etp_schema::proofs::RecordLemmas::record_read, etp_schema::proofs::RecordLemmas::record_fails))]
    fn read(from: &mut Reader<'_>) -> Result<GetDataSubarraysResponse, Fault> {
        let (data_subarrays, ()) = from.fields()?;
        Ok(GetDataSubarraysResponse { data_subarrays })
    }

    #[tactic(auto, unfolding(etp_schema::specs::Form::Holds))]
    fn write(&self, into: &mut Vec<u8>) -> Result<(), NoMemory> {
        write_fields((&self.data_subarrays, ()), into)
    }

    fn measure(&self) -> Measure {
        measure_fields((&self.data_subarrays, ()))
    }
}

impl OnWire for PutUninitializedDataArrays {
    #[tactic(auto, using(etp_schema::proofs::RecordLemmas::record_read, etp_schema::proofs::RecordLemmas::record_fails))]
    fn read(from: &mut Reader<'_>) -> Result<PutUninitializedDataArrays, Fault> {
        let (data_arrays, ()) = from.fields()?;
        Ok(PutUninitializedDataArrays { data_arrays })
    }

    #[tactic(auto, unfolding(etp_schema::specs::Form::Holds))]
    fn write(&self, into: &mut Vec<u8>) -> Result<(), NoMemory> {
        write_fields((&self.data_arrays, ()), into)
    }

    fn measure(&self) -> Measure {
        measure_fields((&self.data_arrays, ()))
    }
}

impl OnWire for PutDataArraysResponse {
    #[tactic(auto, using(etp_schema::proofs::RecordLemmas::record_read, etp_schema::proofs::RecordLemmas::record_fails))]
    fn read(from: &mut Reader<'_>) -> Result<PutDataArraysResponse, Fault> {
        let (success, ()) = from.fields()?;
        Ok(PutDataArraysResponse { success })
    }

    #[tactic(auto, unfolding(etp_schema::specs::Form::Holds))]
    fn write(&self, into: &mut Vec<u8>) -> Result<(), NoMemory> {
        write_fields((&self.success, ()), into)
    }

    fn measure(&self) -> Measure {
        measure_fields((&self.success, ()))
    }
}

impl OnWire for PutDataSubarraysResponse {
    #[tactic(auto, using(etp_schema::proofs::RecordLemmas::record_read, etp_schema::proofs::RecordLemmas::record_fails))]
    fn read(from: &mut Reader<'_>) -> Result<PutDataSubarraysResponse, Fault> {
        let (success, ()) = from.fields()?;
        Ok(PutDataSubarraysResponse { success })
    }

    #[tactic(auto, unfolding(etp_schema::specs::Form::Holds))]
    fn write(&self, into: &mut Vec<u8>) -> Result<(), NoMemory> {
        write_fields((&self.success, ()), into)
    }

    fn measure(&self) -> Measure {
        measure_fields((&self.success, ()))
    }
}

impl OnWire for PutUninitializedDataArraysResponse {
    #[tactic(auto, using(etp_schema::proofs::RecordLemmas::record_read, etp_schema::proofs::RecordLemmas::record_fails))]
    fn read(from: &mut Reader<'_>) -> Result<PutUninitializedDataArraysResponse, Fault> {
        let (success, ()) = from.fields()?;
        Ok(PutUninitializedDataArraysResponse { success })
    }

    #[tactic(auto, unfolding(etp_schema::specs::Form::Holds))]
    fn write(&self, into: &mut Vec<u8>) -> Result<(), NoMemory> {
        write_fields((&self.success, ()), into)
    }

    fn measure(&self) -> Measure {
        measure_fields((&self.success, ()))
    }
}

impl DataArrayMessage {
    /// The message of this number whose body is at the front of the rest, if the protocol has one.
    pub fn read(from: &mut Reader<'_>, kind: i32) -> Result<Option<DataArrayMessage>, Fault>
        ensures { Reads (kind_at (kind_in data_array_kinds kind) from.old.left from.old.rest.now) result from.new }
    {
        match kind {
            1 => Ok(Some(DataArrayMessage::GetDataArraysResponse(from.take()?))),
            2 => Ok(Some(DataArrayMessage::GetDataArrays(from.take()?))),
            3 => Ok(Some(DataArrayMessage::GetDataSubarrays(from.take()?))),
            4 => Ok(Some(DataArrayMessage::PutDataArrays(from.take()?))),
            5 => Ok(Some(DataArrayMessage::PutDataSubarrays(from.take()?))),
            6 => Ok(Some(DataArrayMessage::GetDataArrayMetadata(from.take()?))),
            7 => Ok(Some(DataArrayMessage::GetDataArrayMetadataResponse(from.take()?))),
            8 => Ok(Some(DataArrayMessage::GetDataSubarraysResponse(from.take()?))),
            9 => Ok(Some(DataArrayMessage::PutUninitializedDataArrays(from.take()?))),
            10 => Ok(Some(DataArrayMessage::PutDataArraysResponse(from.take()?))),
            11 => Ok(Some(DataArrayMessage::PutDataSubarraysResponse(from.take()?))),
            12 => Ok(Some(DataArrayMessage::PutUninitializedDataArraysResponse(from.take()?))),
            _ => Ok(None),
        }
    }

    /// Appends the written spelling of the body. After `NoMemory` what was there is still at the front.
    #[tactic(auto, unfolding(etp_schema::specs::Form::Holds))]
    pub fn write(&self, into: &mut Vec<u8>) -> Result<(), NoMemory>
        ensures written { Writes (plain (data_array_body self.now).value) into.old.items into.new.items result }
        ensures typed { OnOk result (HasSchema (data_array_body self.now).schema (data_array_body self.now).value) }
        ensures fits { OnOk result (FitsTree (data_array_body self.now).value) }
    {
        match self {
            DataArrayMessage::GetDataArraysResponse(message) => message.write(into),
            DataArrayMessage::GetDataArrays(message) => message.write(into),
            DataArrayMessage::GetDataSubarrays(message) => message.write(into),
            DataArrayMessage::PutDataArrays(message) => message.write(into),
            DataArrayMessage::PutDataSubarrays(message) => message.write(into),
            DataArrayMessage::GetDataArrayMetadata(message) => message.write(into),
            DataArrayMessage::GetDataArrayMetadataResponse(message) => message.write(into),
            DataArrayMessage::GetDataSubarraysResponse(message) => message.write(into),
            DataArrayMessage::PutUninitializedDataArrays(message) => message.write(into),
            DataArrayMessage::PutDataArraysResponse(message) => message.write(into),
            DataArrayMessage::PutDataSubarraysResponse(message) => message.write(into),
            DataArrayMessage::PutUninitializedDataArraysResponse(message) => message.write(into),
        }
    }

    /// How much of a message the body takes. It does not allocate.
    pub fn measure(&self) -> Measure
        ensures { result ≡ measured (data_array_body self.now).value }
    {
        match self {
            DataArrayMessage::GetDataArraysResponse(message) => message.measure(),
            DataArrayMessage::GetDataArrays(message) => message.measure(),
            DataArrayMessage::GetDataSubarrays(message) => message.measure(),
            DataArrayMessage::PutDataArrays(message) => message.measure(),
            DataArrayMessage::PutDataSubarrays(message) => message.measure(),
            DataArrayMessage::GetDataArrayMetadata(message) => message.measure(),
            DataArrayMessage::GetDataArrayMetadataResponse(message) => message.measure(),
            DataArrayMessage::GetDataSubarraysResponse(message) => message.measure(),
            DataArrayMessage::PutUninitializedDataArrays(message) => message.measure(),
            DataArrayMessage::PutDataArraysResponse(message) => message.measure(),
            DataArrayMessage::PutDataSubarraysResponse(message) => message.measure(),
            DataArrayMessage::PutUninitializedDataArraysResponse(message) => message.measure(),
        }
    }
}
