//! The messages of the DataArray protocol (9).
ghost use Rattle.std.specs.Prelude.{◌≡◌, pos};
ghost use Rattle.std.specs.List.{AllByRecursion};
ghost use Rattle.etp_schema.specs.Family.{IsFound, IsAgain};
ghost use Rattle.msg_store.specs.DataArray.{data_array_body, data_array_kinds};

use crate::array_records::{
    DataArray, DataArrayIdentifier, DataArrayMetadata, GetDataSubarraysType, PutDataArraysType,
    PutDataSubarraysType, PutUninitializedDataArrayType,
};
use etp_schema::Typed;
use etp_values::{Named, Text};

/// Answers GetDataArrays.
#[derive(Debug, Drop)]
pub struct GetDataArraysResponse {
    /// The arrays, under the client's keys.
    pub data_arrays: Named<DataArray>,
}

impl Typed for GetDataArraysResponse {
    ghost use Rattle.msg_store.specs.DataArray.{get_data_arrays_response_form};

    ghost form = { get_data_arrays_response_form };
}

/// Asks for whole arrays.
#[derive(Debug, Drop)]
pub struct GetDataArrays {
    /// Which arrays, under the client's keys.
    pub data_arrays: Named<DataArrayIdentifier>,
}

impl Typed for GetDataArrays {
    ghost use Rattle.msg_store.specs.DataArray.{get_data_arrays_form};

    ghost form = { get_data_arrays_form };
}

/// Asks for regions of arrays.
#[derive(Debug, Drop)]
pub struct GetDataSubarrays {
    /// Which regions, under the client's keys.
    pub data_subarrays: Named<GetDataSubarraysType>,
}

impl Typed for GetDataSubarrays {
    ghost use Rattle.msg_store.specs.DataArray.{get_data_subarrays_form};

    ghost form = { get_data_subarrays_form };
}

/// Creates or overwrites whole arrays.
#[derive(Debug, Drop)]
pub struct PutDataArrays {
    /// The arrays, under the client's keys.
    pub data_arrays: Named<PutDataArraysType>,
}

impl Typed for PutDataArrays {
    ghost use Rattle.msg_store.specs.DataArray.{put_data_arrays_form};

    ghost form = { put_data_arrays_form };
}

/// Writes regions of existing arrays.
#[derive(Debug, Drop)]
pub struct PutDataSubarrays {
    /// The regions, under the client's keys.
    pub data_subarrays: Named<PutDataSubarraysType>,
}

impl Typed for PutDataSubarrays {
    ghost use Rattle.msg_store.specs.DataArray.{put_data_subarrays_form};

    ghost form = { put_data_subarrays_form };
}

/// Asks for the metadata of arrays, without their elements.
#[derive(Debug, Drop)]
pub struct GetDataArrayMetadata {
    /// Which arrays, under the client's keys.
    pub data_arrays: Named<DataArrayIdentifier>,
}

impl Typed for GetDataArrayMetadata {
    ghost use Rattle.msg_store.specs.DataArray.{get_data_array_metadata_form};

    ghost form = { get_data_array_metadata_form };
}

/// Answers GetDataArrayMetadata.
#[derive(Debug, Drop)]
pub struct GetDataArrayMetadataResponse {
    /// The metadata of each array, under the client's keys.
    pub array_metadata: Named<DataArrayMetadata>,
}

impl Typed for GetDataArrayMetadataResponse {
    ghost use Rattle.msg_store.specs.DataArray.{get_data_array_metadata_response_form};

    ghost form = { get_data_array_metadata_response_form };
}

/// Answers GetDataSubarrays.
#[derive(Debug, Drop)]
pub struct GetDataSubarraysResponse {
    /// The regions, under the client's keys.
    pub data_subarrays: Named<DataArray>,
}

impl Typed for GetDataSubarraysResponse {
    ghost use Rattle.msg_store.specs.DataArray.{get_data_subarrays_response_form};

    ghost form = { get_data_subarrays_response_form };
}

/// Creates arrays without sending their elements.
#[derive(Debug, Drop)]
pub struct PutUninitializedDataArrays {
    /// The arrays, under the client's keys.
    pub data_arrays: Named<PutUninitializedDataArrayType>,
}

impl Typed for PutUninitializedDataArrays {
    ghost use Rattle.msg_store.specs.DataArray.{put_uninitialized_data_arrays_form};

    ghost form = { put_uninitialized_data_arrays_form };
}

/// Answers PutDataArrays.
#[derive(Debug, Drop)]
pub struct PutDataArraysResponse {
    /// An empty text for each key that was granted.
    pub success: Named<Text>,
}

impl Typed for PutDataArraysResponse {
    ghost use Rattle.msg_store.specs.DataArray.{put_data_arrays_response_form};

    ghost form = { put_data_arrays_response_form };
}

/// Answers PutDataSubarrays.
#[derive(Debug, Drop)]
pub struct PutDataSubarraysResponse {
    /// An empty text for each key that was granted.
    pub success: Named<Text>,
}

impl Typed for PutDataSubarraysResponse {
    ghost use Rattle.msg_store.specs.DataArray.{put_data_subarrays_response_form};

    ghost form = { put_data_subarrays_response_form };
}

/// Answers PutUninitializedDataArrays.
#[derive(Debug, Drop)]
pub struct PutUninitializedDataArraysResponse {
    /// An empty text for each key that was granted.
    pub success: Named<Text>,
}

impl Typed for PutUninitializedDataArraysResponse {
    ghost use Rattle.msg_store.specs.DataArray.{put_uninitialized_data_arrays_response_form};

    ghost form = { put_uninitialized_data_arrays_response_form };
}

/// A message of the DataArray protocol.
#[derive(Debug, Drop)]
pub enum DataArrayMessage {
    GetDataArraysResponse(GetDataArraysResponse),
    GetDataArrays(GetDataArrays),
    GetDataSubarrays(GetDataSubarrays),
    PutDataArrays(PutDataArrays),
    PutDataSubarrays(PutDataSubarrays),
    GetDataArrayMetadata(GetDataArrayMetadata),
    GetDataArrayMetadataResponse(GetDataArrayMetadataResponse),
    GetDataSubarraysResponse(GetDataSubarraysResponse),
    PutUninitializedDataArrays(PutUninitializedDataArrays),
    PutDataArraysResponse(PutDataArraysResponse),
    PutDataSubarraysResponse(PutDataSubarraysResponse),
    PutUninitializedDataArraysResponse(PutUninitializedDataArraysResponse),
}

impl DataArrayMessage {
    /// The message's number.
    pub fn kind(&self) -> i32
        ensures { result ≡ pos (data_array_body self.now).number }
    {
        match self {
            DataArrayMessage::GetDataArraysResponse(_) => 1,
            DataArrayMessage::GetDataArrays(_) => 2,
            DataArrayMessage::GetDataSubarrays(_) => 3,
            DataArrayMessage::PutDataArrays(_) => 4,
            DataArrayMessage::PutDataSubarrays(_) => 5,
            DataArrayMessage::GetDataArrayMetadata(_) => 6,
            DataArrayMessage::GetDataArrayMetadataResponse(_) => 7,
            DataArrayMessage::GetDataSubarraysResponse(_) => 8,
            DataArrayMessage::PutUninitializedDataArrays(_) => 9,
            DataArrayMessage::PutDataArraysResponse(_) => 10,
            DataArrayMessage::PutDataSubarraysResponse(_) => 11,
            DataArrayMessage::PutUninitializedDataArraysResponse(_) => 12,
        }
    }
}

/// How DataArrayMessage and the trees of its bodies relate: each message is found by its number and its body is read as that message, and
/// what is read from a body is written as that body.
pub fn data_array_laws()
    ensures found { (x : DataArrayMessage) → IsFound data_array_kinds data_array_body x }
    ensures again { AllByRecursion (IsAgain data_array_body) data_array_kinds }
{}
