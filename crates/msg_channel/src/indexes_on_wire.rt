//! Indexes from and to bytes.

use crate::indexes::{IndexInterval, IndexValue, PassDirection, PassIndexedDepth};
use avro_bin::Fault;
use avro_bin::numbers::put_number;
use etp_schema::{
    Measure, OnWire, Reader, measure_fields, read_symbol, write_branch, write_fields, write_null,
};
use etp_values::NoMemory;

impl OnWire for PassDirection {
    fn read(from: &mut Reader<'_>) -> Result<PassDirection, Fault> {
        read_symbol(
            from,
            &[
                PassDirection::Up,
                PassDirection::HoldingSteady,
                PassDirection::Down,
            ],
            PassDirection::Down,
        )
    }

    #[tactic(auto, unfolding(etp_schema::specs::Form::Holds))]
    fn write(&self, into: &mut Vec<u8>) -> Result<(), NoMemory> {
        match self {
            PassDirection::Up => put_number(into, 0),
            PassDirection::HoldingSteady => put_number(into, 1),
            PassDirection::Down => put_number(into, 2),
        }
    }

    fn measure(&self) -> Measure {
        match self {
            PassDirection::Up => Measure::of_number(0),
            PassDirection::HoldingSteady => Measure::of_number(1),
            PassDirection::Down => Measure::of_number(2),
        }
    }
}

impl OnWire for PassIndexedDepth {
    #[tactic(auto, using(etp_schema::proofs::RecordLemmas::record_read, etp_schema::proofs::RecordLemmas::record_fails))]
    fn read(from: &mut Reader<'_>) -> Result<PassIndexedDepth, Fault> {
        let (pass, (direction, (depth, ()))) = from.fields()?;
        Ok(PassIndexedDepth {
            pass,
            direction,
            depth,
        })
    }

    #[tactic(auto, unfolding(etp_schema::specs::Form::Holds))]
    fn write(&self, into: &mut Vec<u8>) -> Result<(), NoMemory> {
        write_fields((&self.pass, (&self.direction, (&self.depth, ()))), into)
    }

    fn measure(&self) -> Measure {
        measure_fields((&self.pass, (&self.direction, (&self.depth, ()))))
    }
}

impl OnWire for IndexValue {
    fn read(from: &mut Reader<'_>) -> Result<IndexValue, Fault> {
        from.node()?;
        from.node()?;
        let place = from.place(4)?;
        match place {
            0 => {
                from.node()?;
                Ok(IndexValue::Null)
            }
            1 => Ok(IndexValue::Long(from.take()?)),
            2 => Ok(IndexValue::Double(from.take()?)),
            3 => Ok(IndexValue::PassIndexedDepth(from.take()?)),
            _ => unreachable!(),
        }
    }

    #[tactic(auto, unfolding(etp_schema::specs::Form::Holds))]
    fn write(&self, into: &mut Vec<u8>) -> Result<(), NoMemory> {
        match self {
            IndexValue::Null => write_null(0, into),
            IndexValue::Long(value) => write_branch(1, value, into),
            IndexValue::Double(value) => write_branch(2, value, into),
            IndexValue::PassIndexedDepth(depth) => write_branch(3, depth, into),
        }
    }

    fn measure(&self) -> Measure {
        match self {
            IndexValue::Null => Measure::of_null(0),
            IndexValue::Long(value) => Measure::of_branch(1, value),
            IndexValue::Double(value) => Measure::of_branch(2, value),
            IndexValue::PassIndexedDepth(depth) => Measure::of_branch(3, depth),
        }
    }
}

impl OnWire for IndexInterval {
    #[tactic(auto, using(etp_schema::proofs::RecordLemmas::record_read, etp_schema::proofs::RecordLemmas::record_fails))]
    fn read(from: &mut Reader<'_>) -> Result<IndexInterval, Fault> {
        let (start_index, (end_index, (uom, (depth_datum, ())))) = from.fields()?;
        Ok(IndexInterval {
            start_index,
            end_index,
            uom,
            depth_datum,
        })
    }

    #[tactic(auto, unfolding(etp_schema::specs::Form::Holds))]
    fn write(&self, into: &mut Vec<u8>) -> Result<(), NoMemory> {
        write_fields(
            (
                &self.start_index,
                (&self.end_index, (&self.uom, (&self.depth_datum, ()))),
            ),
            into,
        )
    }

    fn measure(&self) -> Measure {
        measure_fields((
            &self.start_index,
            (&self.end_index, (&self.uom, (&self.depth_datum, ()))),
        ))
    }
}
