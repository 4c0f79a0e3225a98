//! Data values and arrays of any kind, from and to bytes.
ghost use Rattle.std.specs.Prelude.{OnOk, [], ◌∷◌};
ghost use Rattle.avro_bin.specs.Plain.{plain, Writes};
ghost use Rattle.avro_bin.specs.Shape.{FitsTree};
ghost use Rattle.avro_bin.specs.Value.{VNull, VUnion, VFields, row};
ghost use Rattle.etp_schema.specs.Form.{Holds, wrapped};
ghost use Rattle.etp_schema.specs.Reading.{Reads};

use crate::measure::Measure;
use crate::on_wire::OnWire;
use crate::reader::Reader;
use avro_bin::Fault;
use avro_bin::numbers::put_number;
use etp_values::{AnyArray, AnySubarray, DataValue, NoMemory};

/// Reads a record with one field.
fn read_wrapped<T: OnWire>(from: &mut Reader<'_>) -> Result<T, Fault>
    ensures { Reads ((wrapped T.form).at from.old.left from.old.rest.now) result from.new }
{
    from.node()?;
    T::read(from)
}

/// Appends the record whose one field is the branch of a union without a value.
pub fn write_null(place: u32, into: &mut Vec<u8>) -> Result<(), NoMemory>
    ensures { Writes (plain (VFields (row (VUnion place VNull ∷ [])))) into.old.items into.new.items result }
{
    put_number(into, place as i64)
}

/// Appends the record whose one field is this branch of a union.
pub fn write_branch<T: OnWire>(place: u32, value: &T, into: &mut Vec<u8>) -> Result<(), NoMemory>
    ensures written { Writes (plain (VFields (row (VUnion place (T.form.as_value value.now) ∷ [])))) into.old.items into.new.items result }
    ensures typed { OnOk result (Holds T.form value.now) }
    ensures fits { OnOk result (FitsTree (T.form.as_value value.now)) }
{
    put_number(into, place as i64)?;
    value.write(into)?;
    Ok(())
}

/// Appends the same if the branch is a record with one field.
fn write_wrapped<T: OnWire>(place: u32, value: &T, into: &mut Vec<u8>) -> Result<(), NoMemory>
    ensures written { Writes (plain (VFields (row (VUnion place (VFields (row (T.form.as_value value.now ∷ []))) ∷ [])))) into.old.items into.new.items result }
    ensures typed { OnOk result (Holds T.form value.now) }
    ensures fits { OnOk result (FitsTree (T.form.as_value value.now)) }
{
    put_number(into, place as i64)?;
    value.write(into)?;
    Ok(())
}

impl OnWire for AnyArray {
    fn read(from: &mut Reader<'_>) -> Result<AnyArray, Fault> {
        from.node()?;
        from.node()?;
        let place = from.place(7)?;
        match place {
            0 => Ok(AnyArray::ArrayOfBoolean(read_wrapped(from)?)),
            1 => Ok(AnyArray::ArrayOfInt(read_wrapped(from)?)),
            2 => Ok(AnyArray::ArrayOfLong(read_wrapped(from)?)),
            3 => Ok(AnyArray::ArrayOfFloat(read_wrapped(from)?)),
            4 => Ok(AnyArray::ArrayOfDouble(read_wrapped(from)?)),
            5 => Ok(AnyArray::ArrayOfString(read_wrapped(from)?)),
            6 => Ok(AnyArray::Bytes(from.take()?)),
            _ => unreachable!(),
        }
    }

    #[tactic(auto, unfolding(crate::specs::Form::Holds))]
    fn write(&self, into: &mut Vec<u8>) -> Result<(), NoMemory> {
        match self {
            AnyArray::ArrayOfBoolean(items) => write_wrapped(0, items, into),
            AnyArray::ArrayOfInt(items) => write_wrapped(1, items, into),
            AnyArray::ArrayOfLong(items) => write_wrapped(2, items, into),
            AnyArray::ArrayOfFloat(items) => write_wrapped(3, items, into),
            AnyArray::ArrayOfDouble(items) => write_wrapped(4, items, into),
            AnyArray::ArrayOfString(items) => write_wrapped(5, items, into),
            AnyArray::Bytes(value) => write_branch(6, value, into),
        }
    }

    fn measure(&self) -> Measure {
        match self {
            AnyArray::ArrayOfBoolean(items) => Measure::of_wrapped(0, items),
            AnyArray::ArrayOfInt(items) => Measure::of_wrapped(1, items),
            AnyArray::ArrayOfLong(items) => Measure::of_wrapped(2, items),
            AnyArray::ArrayOfFloat(items) => Measure::of_wrapped(3, items),
            AnyArray::ArrayOfDouble(items) => Measure::of_wrapped(4, items),
            AnyArray::ArrayOfString(items) => Measure::of_wrapped(5, items),
            AnyArray::Bytes(value) => Measure::of_branch(6, value),
        }
    }
}

impl OnWire for AnySubarray {
    fn read(from: &mut Reader<'_>) -> Result<AnySubarray, Fault> {
        from.node()?;
        Ok(AnySubarray {
            start: from.take()?,
            slice: from.take()?,
        })
    }

    #[tactic(auto, unfolding(crate::specs::Form::Holds))]
    fn write(&self, into: &mut Vec<u8>) -> Result<(), NoMemory> {
        self.start.write(into)?;
        self.slice.write(into)?;
        Ok(())
    }

    fn measure(&self) -> Measure {
        Measure::of_record().with(&self.start).with(&self.slice)
    }
}

impl OnWire for DataValue {
    fn read(from: &mut Reader<'_>) -> Result<DataValue, Fault> {
        from.node()?;
        from.node()?;
        let place = from.place(19)?;
        match place {
            0 => {
                from.node()?;
                Ok(DataValue::Null)
            }
            1 => Ok(DataValue::Boolean(from.take()?)),
            2 => Ok(DataValue::Int(from.take()?)),
            3 => Ok(DataValue::Long(from.take()?)),
            4 => Ok(DataValue::Float(from.take()?)),
            5 => Ok(DataValue::Double(from.take()?)),
            6 => Ok(DataValue::String(from.take()?)),
            7 => Ok(DataValue::ArrayOfBoolean(read_wrapped(from)?)),
            8 => Ok(DataValue::ArrayOfNullableBoolean(read_wrapped(from)?)),
            9 => Ok(DataValue::ArrayOfInt(read_wrapped(from)?)),
            10 => Ok(DataValue::ArrayOfNullableInt(read_wrapped(from)?)),
            11 => Ok(DataValue::ArrayOfLong(read_wrapped(from)?)),
            12 => Ok(DataValue::ArrayOfNullableLong(read_wrapped(from)?)),
            13 => Ok(DataValue::ArrayOfFloat(read_wrapped(from)?)),
            14 => Ok(DataValue::ArrayOfDouble(read_wrapped(from)?)),
            15 => Ok(DataValue::ArrayOfString(read_wrapped(from)?)),
            16 => Ok(DataValue::ArrayOfBytes(read_wrapped(from)?)),
            17 => Ok(DataValue::Bytes(from.take()?)),
            18 => Ok(DataValue::AnySparseArray(read_wrapped(from)?)),
            _ => unreachable!(),
        }
    }

    #[tactic(auto, unfolding(crate::specs::Form::Holds))]
    fn write(&self, into: &mut Vec<u8>) -> Result<(), NoMemory> {
        match self {
            DataValue::Null => write_null(0, into),
            DataValue::Boolean(value) => write_branch(1, value, into),
            DataValue::Int(value) => write_branch(2, value, into),
            DataValue::Long(value) => write_branch(3, value, into),
            DataValue::Float(value) => write_branch(4, value, into),
            DataValue::Double(value) => write_branch(5, value, into),
            DataValue::String(value) => write_branch(6, value, into),
            DataValue::ArrayOfBoolean(items) => write_wrapped(7, items, into),
            DataValue::ArrayOfNullableBoolean(items) => write_wrapped(8, items, into),
            DataValue::ArrayOfInt(items) => write_wrapped(9, items, into),
            DataValue::ArrayOfNullableInt(items) => write_wrapped(10, items, into),
            DataValue::ArrayOfLong(items) => write_wrapped(11, items, into),
            DataValue::ArrayOfNullableLong(items) => write_wrapped(12, items, into),
            DataValue::ArrayOfFloat(items) => write_wrapped(13, items, into),
            DataValue::ArrayOfDouble(items) => write_wrapped(14, items, into),
            DataValue::ArrayOfString(items) => write_wrapped(15, items, into),
            DataValue::ArrayOfBytes(items) => write_wrapped(16, items, into),
            DataValue::Bytes(value) => write_branch(17, value, into),
            DataValue::AnySparseArray(items) => write_wrapped(18, items, into),
        }
    }

    fn measure(&self) -> Measure {
        match self {
            DataValue::Null => Measure::of_null(0),
            DataValue::Boolean(value) => Measure::of_branch(1, value),
            DataValue::Int(value) => Measure::of_branch(2, value),
            DataValue::Long(value) => Measure::of_branch(3, value),
            DataValue::Float(value) => Measure::of_branch(4, value),
            DataValue::Double(value) => Measure::of_branch(5, value),
            DataValue::String(value) => Measure::of_branch(6, value),
            DataValue::ArrayOfBoolean(items) => Measure::of_wrapped(7, items),
            DataValue::ArrayOfNullableBoolean(items) => Measure::of_wrapped(8, items),
            DataValue::ArrayOfInt(items) => Measure::of_wrapped(9, items),
            DataValue::ArrayOfNullableInt(items) => Measure::of_wrapped(10, items),
            DataValue::ArrayOfLong(items) => Measure::of_wrapped(11, items),
            DataValue::ArrayOfNullableLong(items) => Measure::of_wrapped(12, items),
            DataValue::ArrayOfFloat(items) => Measure::of_wrapped(13, items),
            DataValue::ArrayOfDouble(items) => Measure::of_wrapped(14, items),
            DataValue::ArrayOfString(items) => Measure::of_wrapped(15, items),
            DataValue::ArrayOfBytes(items) => Measure::of_wrapped(16, items),
            DataValue::Bytes(value) => Measure::of_branch(17, value),
            DataValue::AnySparseArray(items) => Measure::of_wrapped(18, items),
        }
    }
}
