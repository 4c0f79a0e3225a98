//! What a channel is, from and to bytes.
//!
//! `schema/write` writes all below the imports from `schema/messages.txt`.

use crate::channel_records::{
    AttributeMetadataRecord, ChannelDataKind, ChannelIndexKind, ChannelMetadataRecord,
    IndexDirection, IndexMetadataRecord,
};
use avro_bin::Fault;
use avro_bin::numbers::put_number;
use etp_schema::{Measure, OnWire, Reader, measure_fields, read_symbol, write_fields};
use etp_values::NoMemory;

impl OnWire for ChannelIndexKind {
    fn read(from: &mut Reader<'_>) -> Result<ChannelIndexKind, Fault> {
        read_symbol(
            from,
            &[
                ChannelIndexKind::DateTime,
                ChannelIndexKind::ElapsedTime,
                ChannelIndexKind::MeasuredDepth,
                ChannelIndexKind::TrueVerticalDepth,
                ChannelIndexKind::PassIndexedDepth,
                ChannelIndexKind::Pressure,
                ChannelIndexKind::Temperature,
                ChannelIndexKind::Scalar,
            ],
            ChannelIndexKind::Scalar,
        )
    }

    #[tactic(auto, unfolding(etp_schema::specs::Form::Holds))]
    fn write(&self, into: &mut Vec<u8>) -> Result<(), NoMemory> {
        match self {
            ChannelIndexKind::DateTime => put_number(into, 0),
            ChannelIndexKind::ElapsedTime => put_number(into, 1),
            ChannelIndexKind::MeasuredDepth => put_number(into, 2),
            ChannelIndexKind::TrueVerticalDepth => put_number(into, 3),
            ChannelIndexKind::PassIndexedDepth => put_number(into, 4),
            ChannelIndexKind::Pressure => put_number(into, 5),
            ChannelIndexKind::Temperature => put_number(into, 6),
            ChannelIndexKind::Scalar => put_number(into, 7),
        }
    }

    fn measure(&self) -> Measure {
        match self {
            ChannelIndexKind::DateTime => Measure::of_number(0),
            ChannelIndexKind::ElapsedTime => Measure::of_number(1),
            ChannelIndexKind::MeasuredDepth => Measure::of_number(2),
            ChannelIndexKind::TrueVerticalDepth => Measure::of_number(3),
            ChannelIndexKind::PassIndexedDepth => Measure::of_number(4),
            ChannelIndexKind::Pressure => Measure::of_number(5),
            ChannelIndexKind::Temperature => Measure::of_number(6),
            ChannelIndexKind::Scalar => Measure::of_number(7),
        }
    }
}

impl OnWire for IndexDirection {
    fn read(from: &mut Reader<'_>) -> Result<IndexDirection, Fault> {
        read_symbol(
            from,
            &[
                IndexDirection::Increasing,
                IndexDirection::Decreasing,
                IndexDirection::Unordered,
            ],
            IndexDirection::Unordered,
        )
    }

    #[tactic(auto, unfolding(etp_schema::specs::Form::Holds))]
    fn write(&self, into: &mut Vec<u8>) -> Result<(), NoMemory> {
        match self {
            IndexDirection::Increasing => put_number(into, 0),
            IndexDirection::Decreasing => put_number(into, 1),
            IndexDirection::Unordered => put_number(into, 2),
        }
    }

    fn measure(&self) -> Measure {
        match self {
            IndexDirection::Increasing => Measure::of_number(0),
            IndexDirection::Decreasing => Measure::of_number(1),
            IndexDirection::Unordered => Measure::of_number(2),
        }
    }
}

impl OnWire for ChannelDataKind {
    fn read(from: &mut Reader<'_>) -> Result<ChannelDataKind, Fault> {
        read_symbol(
            from,
            &[
                ChannelDataKind::DateTime,
                ChannelDataKind::ElapsedTime,
                ChannelDataKind::MeasuredDepth,
                ChannelDataKind::PassIndexedDepth,
                ChannelDataKind::TrueVerticalDepth,
                ChannelDataKind::TypeBoolean,
                ChannelDataKind::TypeInt,
                ChannelDataKind::TypeLong,
                ChannelDataKind::TypeFloat,
                ChannelDataKind::TypeDouble,
                ChannelDataKind::TypeString,
                ChannelDataKind::TypeBytes,
            ],
            ChannelDataKind::TypeBytes,
        )
    }

    #[tactic(auto, unfolding(etp_schema::specs::Form::Holds))]
    fn write(&self, into: &mut Vec<u8>) -> Result<(), NoMemory> {
        match self {
            ChannelDataKind::DateTime => put_number(into, 0),
            ChannelDataKind::ElapsedTime => put_number(into, 1),
            ChannelDataKind::MeasuredDepth => put_number(into, 2),
            ChannelDataKind::PassIndexedDepth => put_number(into, 3),
            ChannelDataKind::TrueVerticalDepth => put_number(into, 4),
            ChannelDataKind::TypeBoolean => put_number(into, 5),
            ChannelDataKind::TypeInt => put_number(into, 6),
            ChannelDataKind::TypeLong => put_number(into, 7),
            ChannelDataKind::TypeFloat => put_number(into, 8),
            ChannelDataKind::TypeDouble => put_number(into, 9),
            ChannelDataKind::TypeString => put_number(into, 10),
            ChannelDataKind::TypeBytes => put_number(into, 11),
        }
    }

    fn measure(&self) -> Measure {
        match self {
            ChannelDataKind::DateTime => Measure::of_number(0),
            ChannelDataKind::ElapsedTime => Measure::of_number(1),
            ChannelDataKind::MeasuredDepth => Measure::of_number(2),
            ChannelDataKind::PassIndexedDepth => Measure::of_number(3),
            ChannelDataKind::TrueVerticalDepth => Measure::of_number(4),
            ChannelDataKind::TypeBoolean => Measure::of_number(5),
            ChannelDataKind::TypeInt => Measure::of_number(6),
            ChannelDataKind::TypeLong => Measure::of_number(7),
            ChannelDataKind::TypeFloat => Measure::of_number(8),
            ChannelDataKind::TypeDouble => Measure::of_number(9),
            ChannelDataKind::TypeString => Measure::of_number(10),
            ChannelDataKind::TypeBytes => Measure::of_number(11),
        }
    }
}

impl OnWire for IndexMetadataRecord {
    #[tactic(auto, using(etp_schema::proofs::RecordLemmas::record_read, etp_schema::proofs::RecordLemmas::record_fails))]
    fn read(from: &mut Reader<'_>) -> Result<IndexMetadataRecord, Fault> {
        let (
            index_kind,
            (
                interval,
                (
                    direction,
                    (name, (uom, (depth_datum, (index_property_kind_uri, (filterable, ()))))),
                ),
            ),
        ) = from.fields()?;
        Ok(IndexMetadataRecord {
            index_kind,
            interval,
            direction,
            name,
            uom,
            depth_datum,
            index_property_kind_uri,
            filterable,
        })
    }

    #[tactic(auto, unfolding(etp_schema::specs::Form::Holds))]
    fn write(&self, into: &mut Vec<u8>) -> Result<(), NoMemory> {
        write_fields(
            (
                &self.index_kind,
                (
                    &self.interval,
                    (
                        &self.direction,
                        (
                            &self.name,
                            (
                                &self.uom,
                                (
                                    &self.depth_datum,
                                    (&self.index_property_kind_uri, (&self.filterable, ())),
                                ),
                            ),
                        ),
                    ),
                ),
            ),
            into,
        )
    }

    fn measure(&self) -> Measure {
        measure_fields((
            &self.index_kind,
            (
                &self.interval,
                (
                    &self.direction,
                    (
                        &self.name,
                        (
                            &self.uom,
                            (
                                &self.depth_datum,
                                (&self.index_property_kind_uri, (&self.filterable, ())),
                            ),
                        ),
                    ),
                ),
            ),
        ))
    }
}

impl OnWire for AttributeMetadataRecord {
    #[tactic(auto, using(etp_schema::proofs::RecordLemmas::record_read, etp_schema::proofs::RecordLemmas::record_fails))]
    fn read(from: &mut Reader<'_>) -> Result<AttributeMetadataRecord, Fault> {
        let (
            attribute_id,
            (
                attribute_name,
                (
                    data_kind,
                    (uom, (depth_datum, (attribute_property_kind_uri, (axis_vector_lengths, ())))),
                ),
            ),
        ) = from.fields()?;
        Ok(AttributeMetadataRecord {
            attribute_id,
            attribute_name,
            data_kind,
            uom,
            depth_datum,
            attribute_property_kind_uri,
            axis_vector_lengths,
        })
    }

    #[tactic(auto, unfolding(etp_schema::specs::Form::Holds))]
    fn write(&self, into: &mut Vec<u8>) -> Result<(), NoMemory> {
        write_fields(
            (
                &self.attribute_id,
                (
                    &self.attribute_name,
                    (
                        &self.data_kind,
                        (
                            &self.uom,
                            (
                                &self.depth_datum,
                                (
                                    &self.attribute_property_kind_uri,
                                    (&self.axis_vector_lengths, ()),
                                ),
                            ),
                        ),
                    ),
                ),
            ),
            into,
        )
    }

    fn measure(&self) -> Measure {
        measure_fields((
            &self.attribute_id,
            (
                &self.attribute_name,
                (
                    &self.data_kind,
                    (
                        &self.uom,
                        (
                            &self.depth_datum,
                            (
                                &self.attribute_property_kind_uri,
                                (&self.axis_vector_lengths, ()),
                            ),
                        ),
                    ),
                ),
            ),
        ))
    }
}

impl OnWire for ChannelMetadataRecord {
    #[tactic(auto, using(etp_schema::proofs::RecordLemmas::record_read, etp_schema::proofs::RecordLemmas::record_fails))]
    fn read(from: &mut Reader<'_>) -> Result<ChannelMetadataRecord, Fault> {
        let (
            uri,
            (
                id,
                (
                    indexes,
                    (
                        channel_name,
                        (
                            data_kind,
                            (
                                uom,
                                (
                                    depth_datum,
                                    (
                                        channel_class_uri,
                                        (
                                            status,
                                            (
                                                source,
                                                (
                                                    axis_vector_lengths,
                                                    (attribute_metadata, (custom_data, ())),
                                                ),
                                            ),
                                        ),
                                    ),
                                ),
                            ),
                        ),
                    ),
                ),
            ),
        ) = from.fields()?;
        Ok(ChannelMetadataRecord {
            uri,
            id,
            indexes,
            channel_name,
            data_kind,
            uom,
            depth_datum,
            channel_class_uri,
            status,
            source,
            axis_vector_lengths,
            attribute_metadata,
            custom_data,
        })
    }

    #[tactic(auto, unfolding(etp_schema::specs::Form::Holds))]
    fn write(&self, into: &mut Vec<u8>) -> Result<(), NoMemory> {
        write_fields(
            (
                &self.uri,
                (
                    &self.id,
                    (
                        &self.indexes,
                        (
                            &self.channel_name,
                            (
                                &self.data_kind,
                                (
                                    &self.uom,
                                    (
                                        &self.depth_datum,
                                        (
                                            &self.channel_class_uri,
                                            (
                                                &self.status,
                                                (
                                                    &self.source,
                                                    (
                                                        &self.axis_vector_lengths,
                                                        (
                                                            &self.attribute_metadata,
                                                            (&self.custom_data, ()),
                                                        ),
                                                    ),
                                                ),
                                            ),
                                        ),
                                    ),
                                ),
                            ),
                        ),
                    ),
                ),
            ),
            into,
        )
    }

    fn measure(&self) -> Measure {
        measure_fields((
            &self.uri,
            (
                &self.id,
                (
                    &self.indexes,
                    (
                        &self.channel_name,
                        (
                            &self.data_kind,
                            (
                                &self.uom,
                                (
                                    &self.depth_datum,
                                    (
                                        &self.channel_class_uri,
                                        (
                                            &self.status,
                                            (
                                                &self.source,
                                                (
                                                    &self.axis_vector_lengths,
                                                    (
                                                        &self.attribute_metadata,
                                                        (&self.custom_data, ()),
                                                    ),
                                                ),
                                            ),
                                        ),
                                    ),
                                ),
                            ),
                        ),
                    ),
                ),
            ),
        ))
    }
}
