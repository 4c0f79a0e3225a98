//! Records of the DataArray protocol (9): arrays, their metadata, and what is asked of them.
use crate::array_types::{AnyArrayType, AnyLogicalArrayType};
use etp_schema::Typed;
use etp_values::{AnyArray, DataValue, List, Named, Text};

/// Names an array.
#[derive(Debug, Drop)]
pub struct DataArrayIdentifier {
    /// The URI of the object that the array belongs to.
    pub uri: Text,
    /// The array's path in the object.
    pub path_in_resource: Text,
}

impl Typed for DataArrayIdentifier {
    ghost use Rattle.msg_store.specs.ArrayRecords.{data_array_identifier_form};

    ghost form = { data_array_identifier_form };
}

/// An array, or a region of one.
#[derive(Debug, Drop)]
pub struct DataArray {
    /// How many elements it has in each dimension; the last dimension varies fastest.
    pub dimensions: List<i64>,
    /// The elements in row-major order (`data` in the schema).
    pub payload: AnyArray,
}

impl Typed for DataArray {
    ghost use Rattle.msg_store.specs.ArrayRecords.{data_array_form};

    ghost form = { data_array_form };
}

/// What is known about an array apart from its elements.
#[derive(Debug, Drop)]
pub struct DataArrayMetadata {
    /// How many elements the array has in each dimension; the last dimension varies fastest.
    pub dimensions: List<i64>,
    /// The dimensions in which regions are best requested: as many as the array's, or none.
    pub preferred_subarray_dimensions: List<i64>,
    /// The kind in which the elements are sent.
    pub transport_array_type: AnyArrayType,
    /// What the elements mean.
    pub logical_array_type: AnyLogicalArrayType,
    /// The time of the last write, in microseconds since 1970-01-01 UTC.
    pub store_last_write: i64,
    /// The time at which it was created in the store, in microseconds since 1970-01-01 UTC.
    pub store_created: i64,
    /// What the customer keeps with it, by name.
    pub custom_data: Named<DataValue>,
}

impl Typed for DataArrayMetadata {
    ghost use Rattle.msg_store.specs.ArrayRecords.{data_array_metadata_form};

    ghost form = { data_array_metadata_form };
}

/// A region of an array that is requested.
#[derive(Debug, Drop)]
pub struct GetDataSubarraysType {
    pub uid: DataArrayIdentifier,
    /// The index of the region's first element in each dimension, from 0.
    pub starts: List<i64>,
    /// How many elements the region has in each dimension.
    pub counts: List<i64>,
}

impl Typed for GetDataSubarraysType {
    ghost use Rattle.msg_store.specs.ArrayRecords.{get_data_subarrays_type_form};

    ghost form = { get_data_subarrays_type_form };
}

/// An array to create or overwrite.
#[derive(Debug, Drop)]
pub struct PutDataArraysType {
    pub uid: DataArrayIdentifier,
    pub array: DataArray,
    /// What the customer keeps with it, by name.
    pub custom_data: Named<DataValue>,
}

impl Typed for PutDataArraysType {
    ghost use Rattle.msg_store.specs.ArrayRecords.{put_data_arrays_type_form};

    ghost form = { put_data_arrays_type_form };
}

/// A region of an array to write.
#[derive(Debug, Drop)]
pub struct PutDataSubarraysType {
    pub uid: DataArrayIdentifier,
    /// The region's elements in row-major order (`data` in the schema).
    pub payload: AnyArray,
    /// The index of the region's first element in each dimension, from 0.
    pub starts: List<i64>,
    /// How many elements the region has in each dimension.
    pub counts: List<i64>,
}

impl Typed for PutDataSubarraysType {
    ghost use Rattle.msg_store.specs.ArrayRecords.{put_data_subarrays_type_form};

    ghost form = { put_data_subarrays_type_form };
}

/// An array to create, whose elements are false, 0, the empty text or the byte 0.
#[derive(Debug, Drop)]
pub struct PutUninitializedDataArrayType {
    pub uid: DataArrayIdentifier,
    /// What the array is to be. Its two times are ignored.
    pub metadata: DataArrayMetadata,
}

impl Typed for PutUninitializedDataArrayType {
    ghost use Rattle.msg_store.specs.ArrayRecords.{put_uninitialized_data_array_type_form};

    ghost form = { put_uninitialized_data_array_type_form };
}
