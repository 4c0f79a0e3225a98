//! The records of arrays from and to bytes.
//!
//! `schema/write` writes all below the imports from `schema/messages.txt`.

use crate::array_records::{
    DataArray, DataArrayIdentifier, DataArrayMetadata, GetDataSubarraysType, PutDataArraysType,
    PutDataSubarraysType, PutUninitializedDataArrayType,
};
use avro_bin::Fault;
use etp_schema::{Measure, OnWire, Reader, measure_fields, write_fields};
use etp_values::NoMemory;

impl OnWire for DataArrayIdentifier {
    #[tactic(auto, using(etp_schema::proofs::RecordLemmas::record_read, etp_schema::proofs::RecordLemmas::record_fails))]
    fn read(from: &mut Reader<'_>) -> Result<DataArrayIdentifier, Fault> {
        let (uri, (path_in_resource, ())) = from.fields()?;
        Ok(DataArrayIdentifier {
            uri,
            path_in_resource,
        })
    }

    #[tactic(auto, unfolding(etp_schema::specs::Form::Holds))]
    fn write(&self, into: &mut Vec<u8>) -> Result<(), NoMemory> {
        write_fields((&self.uri, (&self.path_in_resource, ())), into)
    }

    fn measure(&self) -> Measure {
        measure_fields((&self.uri, (&self.path_in_resource, ())))
    }
}

impl OnWire for DataArray {
    #[tactic(auto, using(etp_schema::proofs::RecordLemmas::record_read, etp_schema::proofs::RecordLemmas::record_fails))]
    fn read(from: &mut Reader<'_>) -> Result<DataArray, Fault> {
        let (dimensions, (payload, ())) = from.fields()?;
        Ok(DataArray {
            dimensions,
            payload,
        })
    }

    #[tactic(auto, unfolding(etp_schema::specs::Form::Holds))]
    fn write(&self, into: &mut Vec<u8>) -> Result<(), NoMemory> {
        write_fields((&self.dimensions, (&self.payload, ())), into)
    }

    fn measure(&self) -> Measure {
        measure_fields((&self.dimensions, (&self.payload, ())))
    }
}

impl OnWire for DataArrayMetadata {
    #[tactic(auto, using(etp_schema::proofs::RecordLemmas::record_read, etp_schema::proofs::RecordLemmas::record_fails))]
    fn read(from: &mut Reader<'_>) -> Result<DataArrayMetadata, Fault> {
        let (
            dimensions,
            (
                preferred_subarray_dimensions,
                (
                    transport_array_type,
                    (logical_array_type, (store_last_write, (store_created, (custom_data, ())))),
                ),
            ),
        ) = from.fields()?;
        Ok(DataArrayMetadata {
            dimensions,
            preferred_subarray_dimensions,
            transport_array_type,
            logical_array_type,
            store_last_write,
            store_created,
            custom_data,
        })
    }

    #[tactic(auto, unfolding(etp_schema::specs::Form::Holds))]
    fn write(&self, into: &mut Vec<u8>) -> Result<(), NoMemory> {
        write_fields(
            (
                &self.dimensions,
                (
                    &self.preferred_subarray_dimensions,
                    (
                        &self.transport_array_type,
                        (
                            &self.logical_array_type,
                            (
                                &self.store_last_write,
                                (&self.store_created, (&self.custom_data, ())),
                            ),
                        ),
                    ),
                ),
            ),
            into,
        )
    }

    fn measure(&self) -> Measure {
        measure_fields((
            &self.dimensions,
            (
                &self.preferred_subarray_dimensions,
                (
                    &self.transport_array_type,
                    (
                        &self.logical_array_type,
                        (
                            &self.store_last_write,
                            (&self.store_created, (&self.custom_data, ())),
                        ),
                    ),
                ),
            ),
        ))
    }
}

impl OnWire for GetDataSubarraysType {
    #[tactic(auto, using(etp_schema::proofs::RecordLemmas::record_read, etp_schema::proofs::RecordLemmas::record_fails))]
    fn read(from: &mut Reader<'_>) -> Result<GetDataSubarraysType, Fault> {
        let (uid, (starts, (counts, ()))) = from.fields()?;
        Ok(GetDataSubarraysType {
            uid,
            starts,
            counts,
        })
    }

    #[tactic(auto, unfolding(etp_schema::specs::Form::Holds))]
    fn write(&self, into: &mut Vec<u8>) -> Result<(), NoMemory> {
        write_fields((&self.uid, (&self.starts, (&self.counts, ()))), into)
    }

    fn measure(&self) -> Measure {
        measure_fields((&self.uid, (&self.starts, (&self.counts, ()))))
    }
}

impl OnWire for PutDataArraysType {
    #[tactic(auto, using(etp_schema::proofs::RecordLemmas::record_read, etp_schema::proofs::RecordLemmas::record_fails))]
    fn read(from: &mut Reader<'_>) -> Result<PutDataArraysType, Fault> {
        let (uid, (array, (custom_data, ()))) = from.fields()?;
        Ok(PutDataArraysType {
            uid,
            array,
            custom_data,
        })
    }

    #[tactic(auto, unfolding(etp_schema::specs::Form::Holds))]
    fn write(&self, into: &mut Vec<u8>) -> Result<(), NoMemory> {
        write_fields((&self.uid, (&self.array, (&self.custom_data, ()))), into)
    }

    fn measure(&self) -> Measure {
        measure_fields((&self.uid, (&self.array, (&self.custom_data, ()))))
    }
}

impl OnWire for PutDataSubarraysType {
    #[tactic(auto, using(etp_schema::proofs::RecordLemmas::record_read, etp_schema::proofs::RecordLemmas::record_fails))]
    fn read(from: &mut Reader<'_>) -> Result<PutDataSubarraysType, Fault> {
        let (uid, (payload, (starts, (counts, ())))) = from.fields()?;
        Ok(PutDataSubarraysType {
            uid,
            payload,
            starts,
            counts,
        })
    }

    #[tactic(auto, unfolding(etp_schema::specs::Form::Holds))]
    fn write(&self, into: &mut Vec<u8>) -> Result<(), NoMemory> {
        write_fields(
            (
                &self.uid,
                (&self.payload, (&self.starts, (&self.counts, ()))),
            ),
            into,
        )
    }

    fn measure(&self) -> Measure {
        measure_fields((
            &self.uid,
            (&self.payload, (&self.starts, (&self.counts, ()))),
        ))
    }
}

impl OnWire for PutUninitializedDataArrayType {
    #[tactic(auto, using(etp_schema::proofs::RecordLemmas::record_read, etp_schema::proofs::RecordLemmas::record_fails))]
    fn read(from: &mut Reader<'_>) -> Result<PutUninitializedDataArrayType, Fault> {
        let (uid, (metadata, ())) = from.fields()?;
        Ok(PutUninitializedDataArrayType { uid, metadata })
    }

    #[tactic(auto, unfolding(etp_schema::specs::Form::Holds))]
    fn write(&self, into: &mut Vec<u8>) -> Result<(), NoMemory> {
        write_fields((&self.uid, (&self.metadata, ())), into)
    }

    fn measure(&self) -> Measure {
        measure_fields((&self.uid, (&self.metadata, ())))
    }
}
