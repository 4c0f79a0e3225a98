//! Data values and arrays of any kind as trees.
ghost use Rattle.std.specs.Prelude.{◌≡◌, IfOk, OnOk, [], ◌∷◌};
ghost use Rattle.avro_bin.specs.Value.{VFields, row};
ghost use Rattle.avro_bin.specs.View.{value_of};
ghost use Rattle.etp_schema.specs.Form.{Holds, fields_in, first};

use crate::choices::{branch_of, branch_record};
use crate::fields::{Fields, record_of};
use crate::in_tree::InTree;
use avro_bin::Tree;
use etp_values::{AnyArray, AnySubarray, Bits32, Bits64, Blob, Boxed, DataValue, NoMemory};
use std::alloc::Global;

impl InTree for AnyArray {
    #[tactic(auto, using(avro_bin::proofs::ViewLemmas::values), unfolding(etp_schema::specs::Form::Holds))]
    fn to_tree(&self, alloc: Global) -> Result<Tree, NoMemory> {
        match self {
            AnyArray::ArrayOfBoolean(items) => branch_record(alloc, 0, wrapped(alloc, items)?),
            AnyArray::ArrayOfInt(items) => branch_record(alloc, 1, wrapped(alloc, items)?),
            AnyArray::ArrayOfLong(items) => branch_record(alloc, 2, wrapped(alloc, items)?),
            AnyArray::ArrayOfFloat(items) => branch_record(alloc, 3, wrapped(alloc, items)?),
            AnyArray::ArrayOfDouble(items) => branch_record(alloc, 4, wrapped(alloc, items)?),
            AnyArray::ArrayOfString(items) => branch_record(alloc, 5, wrapped(alloc, items)?),
            AnyArray::Bytes(value) => branch_record(alloc, 6, value.to_tree(alloc)?),
        }
    }

    fn from_tree(alloc: Global, tree: Tree) -> Result<AnyArray, NoMemory> {
        let (place, value) = branch_of(alloc, tree);
        match place {
            0 => Ok(AnyArray::ArrayOfBoolean(unwrapped(alloc, value)?)),
            1 => Ok(AnyArray::ArrayOfInt(unwrapped(alloc, value)?)),
            2 => Ok(AnyArray::ArrayOfLong(unwrapped(alloc, value)?)),
            3 => Ok(AnyArray::ArrayOfFloat(unwrapped(alloc, value)?)),
            4 => Ok(AnyArray::ArrayOfDouble(unwrapped(alloc, value)?)),
            5 => Ok(AnyArray::ArrayOfString(unwrapped(alloc, value)?)),
            _ => Ok(AnyArray::Bytes(Blob::from_tree(alloc, value)?)),
        }
    }
}

impl InTree for AnySubarray {
    #[tactic(auto, unfolding(etp_schema::specs::Form::Holds))]
    fn to_tree(&self, alloc: Global) -> Result<Tree, NoMemory> {
        Ok(record_of(vec![in alloc; self.start.to_tree(alloc)?, self.slice.to_tree(alloc)?]?))
    }

    fn from_tree(alloc: Global, tree: Tree) -> Result<AnySubarray, NoMemory> {
        let mut fields = Fields::of(alloc, tree);
        Ok(AnySubarray {
            start: fields.take()?,
            slice: fields.take()?,
        })
    }
}

impl InTree for DataValue {
    #[tactic(auto, using(avro_bin::proofs::ViewLemmas::values), unfolding(etp_schema::specs::Form::Holds))]
    fn to_tree(&self, alloc: Global) -> Result<Tree, NoMemory> {
        match self {
            DataValue::Null => branch_record(alloc, 0, Tree::Null),
            DataValue::Boolean(value) => branch_record(alloc, 1, value.to_tree(alloc)?),
            DataValue::Int(value) => branch_record(alloc, 2, value.to_tree(alloc)?),
            DataValue::Long(value) => branch_record(alloc, 3, value.to_tree(alloc)?),
            DataValue::Float(value) => branch_record(alloc, 4, value.to_tree(alloc)?),
            DataValue::Double(value) => branch_record(alloc, 5, value.to_tree(alloc)?),
            DataValue::String(value) => branch_record(alloc, 6, value.to_tree(alloc)?),
            DataValue::ArrayOfBoolean(items) => branch_record(alloc, 7, wrapped(alloc, items)?),
            DataValue::ArrayOfNullableBoolean(items) => branch_record(
                alloc,
                8,
                wrapped(alloc, items)?,
            ),
            DataValue::ArrayOfInt(items) => branch_record(alloc, 9, wrapped(alloc, items)?),
            DataValue::ArrayOfNullableInt(items) => branch_record(
                alloc,
                10,
                wrapped(alloc, items)?,
            ),
            DataValue::ArrayOfLong(items) => branch_record(alloc, 11, wrapped(alloc, items)?),
            DataValue::ArrayOfNullableLong(items) => branch_record(
                alloc,
                12,
                wrapped(alloc, items)?,
            ),
            DataValue::ArrayOfFloat(items) => branch_record(alloc, 13, wrapped(alloc, items)?),
            DataValue::ArrayOfDouble(items) => branch_record(alloc, 14, wrapped(alloc, items)?),
            DataValue::ArrayOfString(items) => branch_record(alloc, 15, wrapped(alloc, items)?),
            DataValue::ArrayOfBytes(items) => branch_record(alloc, 16, wrapped(alloc, items)?),
            DataValue::Bytes(value) => branch_record(alloc, 17, value.to_tree(alloc)?),
            DataValue::AnySparseArray(items) => branch_record(alloc, 18, wrapped(alloc, items)?),
        }
    }

    fn from_tree(alloc: Global, tree: Tree) -> Result<DataValue, NoMemory> {
        let (place, value) = branch_of(alloc, tree);
        match place {
            0 => Ok(DataValue::Null),
            1 => Ok(DataValue::Boolean(bool::from_tree(alloc, value)?)),
            2 => Ok(DataValue::Int(i32::from_tree(alloc, value)?)),
            3 => Ok(DataValue::Long(i64::from_tree(alloc, value)?)),
            4 => Ok(DataValue::Float(Bits32::from_tree(alloc, value)?)),
            5 => Ok(DataValue::Double(Bits64::from_tree(alloc, value)?)),
            6 => Ok(DataValue::String(Boxed::from_tree(alloc, value)?)),
            7 => Ok(DataValue::ArrayOfBoolean(unwrapped(alloc, value)?)),
            8 => Ok(DataValue::ArrayOfNullableBoolean(unwrapped(alloc, value)?)),
            9 => Ok(DataValue::ArrayOfInt(unwrapped(alloc, value)?)),
            10 => Ok(DataValue::ArrayOfNullableInt(unwrapped(alloc, value)?)),
            11 => Ok(DataValue::ArrayOfLong(unwrapped(alloc, value)?)),
            12 => Ok(DataValue::ArrayOfNullableLong(unwrapped(alloc, value)?)),
            13 => Ok(DataValue::ArrayOfFloat(unwrapped(alloc, value)?)),
            14 => Ok(DataValue::ArrayOfDouble(unwrapped(alloc, value)?)),
            15 => Ok(DataValue::ArrayOfString(unwrapped(alloc, value)?)),
            16 => Ok(DataValue::ArrayOfBytes(unwrapped(alloc, value)?)),
            17 => Ok(DataValue::Bytes(Boxed::from_tree(alloc, value)?)),
            _ => Ok(DataValue::AnySparseArray(unwrapped(alloc, value)?)),
        }
    }
}

/// The one field of a record.
fn unwrapped<T: InTree>(alloc: Global, tree: Tree) -> Result<T, NoMemory>
    ensures { IfOk result (λ x. x ≡ T.form.from_value (first (fields_in (value_of tree)))) }
{
    Fields::of(alloc, tree).take()
}

/// A record with one field.
fn wrapped<T: InTree>(alloc: Global, value: &T) -> Result<Tree, NoMemory>
    ensures value { IfOk result (λ t. value_of t ≡ VFields (row (T.form.as_value value.now ∷ []))) }
    ensures typed { OnOk result (Holds T.form value.now) }
{
    Ok(record_of(vec![in alloc; value.to_tree(alloc)?]?))
}
