//! The kinds of arrays from and to bytes.
//!
//! `schema/write` writes all below the imports from `schema/messages.txt`.

use crate::array_types::{AnyArrayType, AnyLogicalArrayType};
use avro_bin::Fault;
use avro_bin::numbers::put_number;
use etp_schema::{Measure, OnWire, Reader, read_symbol};
use etp_values::NoMemory;

impl OnWire for AnyArrayType {
    fn read(from: &mut Reader<'_>) -> Result<AnyArrayType, Fault> {
        read_symbol(
            from,
            &[
                AnyArrayType::ArrayOfBoolean,
                AnyArrayType::ArrayOfInt,
                AnyArrayType::ArrayOfLong,
                AnyArrayType::ArrayOfFloat,
                AnyArrayType::ArrayOfDouble,
                AnyArrayType::ArrayOfString,
                AnyArrayType::Bytes,
            ],
            AnyArrayType::Bytes,
        )
    }

    #[tactic(auto, unfolding(etp_schema::specs::Form::Holds))]
    fn write(&self, into: &mut Vec<u8>) -> Result<(), NoMemory> {
        match self {
            AnyArrayType::ArrayOfBoolean => put_number(into, 0),
            AnyArrayType::ArrayOfInt => put_number(into, 1),
            AnyArrayType::ArrayOfLong => put_number(into, 2),
            AnyArrayType::ArrayOfFloat => put_number(into, 3),
            AnyArrayType::ArrayOfDouble => put_number(into, 4),
            AnyArrayType::ArrayOfString => put_number(into, 5),
            AnyArrayType::Bytes => put_number(into, 6),
        }
    }

    fn measure(&self) -> Measure {
        match self {
            AnyArrayType::ArrayOfBoolean => Measure::of_number(0),
            AnyArrayType::ArrayOfInt => Measure::of_number(1),
            AnyArrayType::ArrayOfLong => Measure::of_number(2),
            AnyArrayType::ArrayOfFloat => Measure::of_number(3),
            AnyArrayType::ArrayOfDouble => Measure::of_number(4),
            AnyArrayType::ArrayOfString => Measure::of_number(5),
            AnyArrayType::Bytes => Measure::of_number(6),
        }
    }
}

impl OnWire for AnyLogicalArrayType {
    fn read(from: &mut Reader<'_>) -> Result<AnyLogicalArrayType, Fault> {
        read_symbol(
            from,
            &[
                AnyLogicalArrayType::ArrayOfBoolean,
                AnyLogicalArrayType::ArrayOfInt8,
                AnyLogicalArrayType::ArrayOfUInt8,
                AnyLogicalArrayType::ArrayOfInt16LE,
                AnyLogicalArrayType::ArrayOfInt32LE,
                AnyLogicalArrayType::ArrayOfInt64LE,
                AnyLogicalArrayType::ArrayOfUInt16LE,
                AnyLogicalArrayType::ArrayOfUInt32LE,
                AnyLogicalArrayType::ArrayOfUInt64LE,
                AnyLogicalArrayType::ArrayOfFloat32LE,
                AnyLogicalArrayType::ArrayOfDouble64LE,
                AnyLogicalArrayType::ArrayOfInt16BE,
                AnyLogicalArrayType::ArrayOfInt32BE,
                AnyLogicalArrayType::ArrayOfInt64BE,
                AnyLogicalArrayType::ArrayOfUInt16BE,
                AnyLogicalArrayType::ArrayOfUInt32BE,
                AnyLogicalArrayType::ArrayOfUInt64BE,
                AnyLogicalArrayType::ArrayOfFloat32BE,
                AnyLogicalArrayType::ArrayOfDouble64BE,
                AnyLogicalArrayType::ArrayOfString,
                AnyLogicalArrayType::ArrayOfCustom,
            ],
            AnyLogicalArrayType::ArrayOfCustom,
        )
    }

    #[tactic(auto, unfolding(etp_schema::specs::Form::Holds))]
    fn write(&self, into: &mut Vec<u8>) -> Result<(), NoMemory> {
        match self {
            AnyLogicalArrayType::ArrayOfBoolean => put_number(into, 0),
            AnyLogicalArrayType::ArrayOfInt8 => put_number(into, 1),
            AnyLogicalArrayType::ArrayOfUInt8 => put_number(into, 2),
            AnyLogicalArrayType::ArrayOfInt16LE => put_number(into, 3),
            AnyLogicalArrayType::ArrayOfInt32LE => put_number(into, 4),
            AnyLogicalArrayType::ArrayOfInt64LE => put_number(into, 5),
            AnyLogicalArrayType::ArrayOfUInt16LE => put_number(into, 6),
            AnyLogicalArrayType::ArrayOfUInt32LE => put_number(into, 7),
            AnyLogicalArrayType::ArrayOfUInt64LE => put_number(into, 8),
            AnyLogicalArrayType::ArrayOfFloat32LE => put_number(into, 9),
            AnyLogicalArrayType::ArrayOfDouble64LE => put_number(into, 10),
            AnyLogicalArrayType::ArrayOfInt16BE => put_number(into, 11),
            AnyLogicalArrayType::ArrayOfInt32BE => put_number(into, 12),
            AnyLogicalArrayType::ArrayOfInt64BE => put_number(into, 13),
            AnyLogicalArrayType::ArrayOfUInt16BE => put_number(into, 14),
            AnyLogicalArrayType::ArrayOfUInt32BE => put_number(into, 15),
            AnyLogicalArrayType::ArrayOfUInt64BE => put_number(into, 16),
            AnyLogicalArrayType::ArrayOfFloat32BE => put_number(into, 17),
            AnyLogicalArrayType::ArrayOfDouble64BE => put_number(into, 18),
            AnyLogicalArrayType::ArrayOfString => put_number(into, 19),
            AnyLogicalArrayType::ArrayOfCustom => put_number(into, 20),
        }
    }

    fn measure(&self) -> Measure {
        match self {
            AnyLogicalArrayType::ArrayOfBoolean => Measure::of_number(0),
            AnyLogicalArrayType::ArrayOfInt8 => Measure::of_number(1),
            AnyLogicalArrayType::ArrayOfUInt8 => Measure::of_number(2),
            AnyLogicalArrayType::ArrayOfInt16LE => Measure::of_number(3),
            AnyLogicalArrayType::ArrayOfInt32LE => Measure::of_number(4),
            AnyLogicalArrayType::ArrayOfInt64LE => Measure::of_number(5),
            AnyLogicalArrayType::ArrayOfUInt16LE => Measure::of_number(6),
            AnyLogicalArrayType::ArrayOfUInt32LE => Measure::of_number(7),
            AnyLogicalArrayType::ArrayOfUInt64LE => Measure::of_number(8),
            AnyLogicalArrayType::ArrayOfFloat32LE => Measure::of_number(9),
            AnyLogicalArrayType::ArrayOfDouble64LE => Measure::of_number(10),
            AnyLogicalArrayType::ArrayOfInt16BE => Measure::of_number(11),
            AnyLogicalArrayType::ArrayOfInt32BE => Measure::of_number(12),
            AnyLogicalArrayType::ArrayOfInt64BE => Measure::of_number(13),
            AnyLogicalArrayType::ArrayOfUInt16BE => Measure::of_number(14),
            AnyLogicalArrayType::ArrayOfUInt32BE => Measure::of_number(15),
            AnyLogicalArrayType::ArrayOfUInt64BE => Measure::of_number(16),
            AnyLogicalArrayType::ArrayOfFloat32BE => Measure::of_number(17),
            AnyLogicalArrayType::ArrayOfDouble64BE => Measure::of_number(18),
            AnyLogicalArrayType::ArrayOfString => Measure::of_number(19),
            AnyLogicalArrayType::ArrayOfCustom => Measure::of_number(20),
        }
    }
}
