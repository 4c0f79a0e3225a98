//! Values of all the schema's kinds, as used in custom data, array elements and channel data.
use crate::bits::{Bits32, Bits64};
use crate::blob::Blob;
use crate::boxed::Boxed;
use crate::copied::Copied;
use crate::list::List;
use crate::memory::NoMemory;
use crate::text::Text;
use std::alloc::Global;

/// The elements of an array, one kind for the whole array, in row-major order.
#[derive(Debug, Drop, PartialEq, Eq)]
pub enum AnyArray {
    ArrayOfBoolean(List<bool>),
    ArrayOfInt(List<i32>),
    ArrayOfLong(List<i64>),
    ArrayOfFloat(List<Bits32>),
    ArrayOfDouble(List<Bits64>),
    ArrayOfString(List<Text>),
    Bytes(Blob),
}

/// A run of elements in a sparse array, starting at index `start`.
#[derive(Debug, Drop, PartialEq, Eq)]
pub struct AnySubarray {
    pub start: i64,
    pub slice: AnyArray,
}

/// A value of one of nineteen kinds. The variants are in the order of the schema's union. Those that own memory are boxed, so that a number
/// takes 16 bytes.
#[derive(Debug, Drop, PartialEq, Eq)]
pub enum DataValue {
    Null,
    Boolean(bool),
    Int(i32),
    Long(i64),
    Float(Bits32),
    Double(Bits64),
    String(Boxed<Text>),
    ArrayOfBoolean(Boxed<List<bool>>),
    ArrayOfNullableBoolean(Boxed<List<Option<bool>>>),
    ArrayOfInt(Boxed<List<i32>>),
    ArrayOfNullableInt(Boxed<List<Option<i32>>>),
    ArrayOfLong(Boxed<List<i64>>),
    ArrayOfNullableLong(Boxed<List<Option<i64>>>),
    ArrayOfFloat(Boxed<List<Bits32>>),
    ArrayOfDouble(Boxed<List<Bits64>>),
    ArrayOfString(Boxed<List<Text>>),
    ArrayOfBytes(Boxed<List<Blob>>),
    Bytes(Boxed<Blob>),
    AnySparseArray(Boxed<List<AnySubarray>>),
}

impl Copied for AnyArray {
    fn copy(&self, alloc: Global) -> Result<AnyArray, NoMemory> {
        match self {
            AnyArray::ArrayOfBoolean(items) => Ok(AnyArray::ArrayOfBoolean(items.copy(alloc)?)),
            AnyArray::ArrayOfInt(items) => Ok(AnyArray::ArrayOfInt(items.copy(alloc)?)),
            AnyArray::ArrayOfLong(items) => Ok(AnyArray::ArrayOfLong(items.copy(alloc)?)),
            AnyArray::ArrayOfFloat(items) => Ok(AnyArray::ArrayOfFloat(items.copy(alloc)?)),
            AnyArray::ArrayOfDouble(items) => Ok(AnyArray::ArrayOfDouble(items.copy(alloc)?)),
            AnyArray::ArrayOfString(items) => Ok(AnyArray::ArrayOfString(items.copy(alloc)?)),
            AnyArray::Bytes(bytes) => Ok(AnyArray::Bytes(bytes.copy(alloc)?)),
        }
    }
}

impl Copied for AnySubarray {
    fn copy(&self, alloc: Global) -> Result<AnySubarray, NoMemory> {
        Ok(AnySubarray {
            start: self.start,
            slice: self.slice.copy(alloc)?,
        })
    }
}

impl Copied for DataValue {
    fn copy(&self, alloc: Global) -> Result<DataValue, NoMemory> {
        match self {
            DataValue::Null => Ok(DataValue::Null),
            DataValue::Boolean(value) => Ok(DataValue::Boolean(*value)),
            DataValue::Int(value) => Ok(DataValue::Int(*value)),
            DataValue::Long(value) => Ok(DataValue::Long(*value)),
            DataValue::Float(value) => Ok(DataValue::Float(*value)),
            DataValue::Double(value) => Ok(DataValue::Double(*value)),
            DataValue::String(text) => Ok(DataValue::String(text.copy(alloc)?)),
            DataValue::ArrayOfBoolean(items) => Ok(DataValue::ArrayOfBoolean(items.copy(alloc)?)),
            DataValue::ArrayOfNullableBoolean(items) => {
                Ok(DataValue::ArrayOfNullableBoolean(items.copy(alloc)?))
            }
            DataValue::ArrayOfInt(items) => Ok(DataValue::ArrayOfInt(items.copy(alloc)?)),
            DataValue::ArrayOfNullableInt(items) => {
                Ok(DataValue::ArrayOfNullableInt(items.copy(alloc)?))
            }
            DataValue::ArrayOfLong(items) => Ok(DataValue::ArrayOfLong(items.copy(alloc)?)),
            DataValue::ArrayOfNullableLong(items) => {
                Ok(DataValue::ArrayOfNullableLong(items.copy(alloc)?))
            }
            DataValue::ArrayOfFloat(items) => Ok(DataValue::ArrayOfFloat(items.copy(alloc)?)),
            DataValue::ArrayOfDouble(items) => Ok(DataValue::ArrayOfDouble(items.copy(alloc)?)),
            DataValue::ArrayOfString(items) => Ok(DataValue::ArrayOfString(items.copy(alloc)?)),
            DataValue::ArrayOfBytes(items) => Ok(DataValue::ArrayOfBytes(items.copy(alloc)?)),
            DataValue::Bytes(bytes) => Ok(DataValue::Bytes(bytes.copy(alloc)?)),
            DataValue::AnySparseArray(slices) => Ok(DataValue::AnySparseArray(slices.copy(alloc)?)),
        }
    }
}
