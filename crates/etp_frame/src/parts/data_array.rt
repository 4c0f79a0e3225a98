//! The parts of the messages of DataArray.
//!
//! `schema/write` writes all below the imports from `schema/messages.txt`.
ghost use Rattle.std.specs.Prelude.{◌≡◌, IfOk};
ghost use Rattle.etp_frame.specs.declared.message.Message.TheVariants as m;
ghost use Rattle.etp_frame.specs.Splitting.{data_array_parts};
ghost use Rattle.msg_store.specs.declared.data_array_messages.DataArrayMessage.TheVariants as array;

use crate::message::Message;
use crate::parting::{WithEntries, one_part, parts_of_entries};
use etp_values::{Boxed, List, Named, NoMemory, Text};
use msg_store::{
    DataArray, DataArrayMessage, DataArrayMetadata, GetDataArrayMetadataResponse,
    GetDataArraysResponse, GetDataSubarraysResponse, PutDataArraysResponse,
    PutDataSubarraysResponse, PutUninitializedDataArraysResponse,
};
use std::alloc::Global;

impl WithEntries<DataArray> for GetDataArraysResponse {
    ghost use Rattle.msg_store.specs.declared.data_array_messages.DataArrayMessage.TheVariants as array;
    ghost use Rattle.etp_frame.specs.declared.message.Message.TheVariants as m;

    ghost whole = { λ x g. m.DataArray (array.GetDataArraysResponse (record x { data_arrays = g })) };

    fn with_entries(&self, alloc: Global, entries: Named<DataArray>) -> Result<Message, NoMemory>
        ensures { IfOk result (λ x. x ≡ m.DataArray (array.GetDataArraysResponse (record self.now { data_arrays = entries }))) }
    {
        Ok(Message::DataArray(Boxed::new(
            alloc,
            DataArrayMessage::GetDataArraysResponse(GetDataArraysResponse {
                data_arrays: entries,
            }),
        )?))
    }
}

/// The parts of this message.
fn data_array_get_data_arrays_response(
    alloc: Global,
    message: GetDataArraysResponse,
    limit: u64,
) -> Result<List<Message>, NoMemory>
    ensures { IfOk result (λ l. l ≡ data_array_parts limit (array.GetDataArraysResponse message)) }
{
    let GetDataArraysResponse { data_arrays } = message;
    let rest = GetDataArraysResponse {
        data_arrays: Named::new(alloc),
    };
    parts_of_entries(alloc, &rest, data_arrays, limit)
}

impl WithEntries<DataArray> for GetDataSubarraysResponse {
    ghost use Rattle.msg_store.specs.declared.data_array_messages.DataArrayMessage.TheVariants as array;
    ghost use Rattle.etp_frame.specs.declared.message.Message.TheVariants as m;

    ghost whole = { λ x g. m.DataArray (array.GetDataSubarraysResponse (record x { data_subarrays = g })) };

    fn with_entries(&self, alloc: Global, entries: Named<DataArray>) -> Result<Message, NoMemory>
        ensures { IfOk result (λ x. x ≡ m.DataArray (array.GetDataSubarraysResponse (record self.now { data_subarrays = entries }))) }
    {
        Ok(Message::DataArray(Boxed::new(
            alloc,
            DataArrayMessage::GetDataSubarraysResponse(GetDataSubarraysResponse {
                data_subarrays: entries,
            }),
        )?))
    }
}

/// The parts of this message.
fn data_array_get_data_subarrays_response(
    alloc: Global,
    message: GetDataSubarraysResponse,
    limit: u64,
) -> Result<List<Message>, NoMemory>
    ensures { IfOk result (λ l. l ≡ data_array_parts limit (array.GetDataSubarraysResponse message)) }
{
    let GetDataSubarraysResponse { data_subarrays } = message;
    let rest = GetDataSubarraysResponse {
        data_subarrays: Named::new(alloc),
    };
    parts_of_entries(alloc, &rest, data_subarrays, limit)
}

impl WithEntries<DataArrayMetadata> for GetDataArrayMetadataResponse {
    ghost use Rattle.msg_store.specs.declared.data_array_messages.DataArrayMessage.TheVariants as array;
    ghost use Rattle.etp_frame.specs.declared.message.Message.TheVariants as m;

    ghost whole = { λ x g. m.DataArray (array.GetDataArrayMetadataResponse (record x { array_metadata = g })) };

    fn with_entries(
        &self,
        alloc: Global,
        entries: Named<DataArrayMetadata>,
    ) -> Result<Message, NoMemory>
        ensures { IfOk result (λ x. x ≡ m.DataArray (array.GetDataArrayMetadataResponse (record self.now { array_metadata = entries }))) }
    {
        Ok(Message::DataArray(Boxed::new(
            alloc,
            DataArrayMessage::GetDataArrayMetadataResponse(GetDataArrayMetadataResponse {
                array_metadata: entries,
            }),
        )?))
    }
}

/// The parts of this message.
fn data_array_get_data_array_metadata_response(
    alloc: Global,
    message: GetDataArrayMetadataResponse,
    limit: u64,
) -> Result<List<Message>, NoMemory>
    ensures { IfOk result (λ l. l ≡ data_array_parts limit (array.GetDataArrayMetadataResponse message)) }
{
    let GetDataArrayMetadataResponse { array_metadata } = message;
    let rest = GetDataArrayMetadataResponse {
        array_metadata: Named::new(alloc),
    };
    parts_of_entries(alloc, &rest, array_metadata, limit)
}

impl WithEntries<Text> for PutDataArraysResponse {
    ghost use Rattle.msg_store.specs.declared.data_array_messages.DataArrayMessage.TheVariants as array;
    ghost use Rattle.etp_frame.specs.declared.message.Message.TheVariants as m;

    ghost whole = { λ x g. m.DataArray (array.PutDataArraysResponse (record x { success = g })) };

    fn with_entries(&self, alloc: Global, entries: Named<Text>) -> Result<Message, NoMemory>
        ensures { IfOk result (λ x. x ≡ m.DataArray (array.PutDataArraysResponse (record self.now { success = entries }))) }
    {
        Ok(Message::DataArray(Boxed::new(
            alloc,
            DataArrayMessage::PutDataArraysResponse(PutDataArraysResponse { success: entries }),
        )?))
    }
}

/// The parts of this message.
fn data_array_put_data_arrays_response(
    alloc: Global,
    message: PutDataArraysResponse,
    limit: u64,
) -> Result<List<Message>, NoMemory>
    ensures { IfOk result (λ l. l ≡ data_array_parts limit (array.PutDataArraysResponse message)) }
{
    let PutDataArraysResponse { success } = message;
    let rest = PutDataArraysResponse {
        success: Named::new(alloc),
    };
    parts_of_entries(alloc, &rest, success, limit)
}

impl WithEntries<Text> for PutDataSubarraysResponse {
    ghost use Rattle.msg_store.specs.declared.data_array_messages.DataArrayMessage.TheVariants as array;
    ghost use Rattle.etp_frame.specs.declared.message.Message.TheVariants as m;

    ghost whole = { λ x g. m.DataArray (array.PutDataSubarraysResponse (record x { success = g })) };

    fn with_entries(&self, alloc: Global, entries: Named<Text>) -> Result<Message, NoMemory>
        ensures { IfOk result (λ x. x ≡ m.DataArray (array.PutDataSubarraysResponse (record self.now { success = entries }))) }
    {
        Ok(Message::DataArray(Boxed::new(
            alloc,
            DataArrayMessage::PutDataSubarraysResponse(PutDataSubarraysResponse {
                success: entries,
            }),
        )?))
    }
}

/// The parts of this message.
fn data_array_put_data_subarrays_response(
    alloc: Global,
    message: PutDataSubarraysResponse,
    limit: u64,
) -> Result<List<Message>, NoMemory>
    ensures { IfOk result (λ l. l ≡ data_array_parts limit (array.PutDataSubarraysResponse message)) }
{
    let PutDataSubarraysResponse { success } = message;
    let rest = PutDataSubarraysResponse {
        success: Named::new(alloc),
    };
    parts_of_entries(alloc, &rest, success, limit)
}

impl WithEntries<Text> for PutUninitializedDataArraysResponse {
    ghost use Rattle.msg_store.specs.declared.data_array_messages.DataArrayMessage.TheVariants as array;
    ghost use Rattle.etp_frame.specs.declared.message.Message.TheVariants as m;

    ghost whole = { λ x g. m.DataArray (array.PutUninitializedDataArraysResponse (record x { success = g })) };

    fn with_entries(&self, alloc: Global, entries: Named<Text>) -> Result<Message, NoMemory>
        ensures { IfOk result (λ x. x ≡ m.DataArray (array.PutUninitializedDataArraysResponse (record self.now { success = entries }))) }
    {
        Ok(Message::DataArray(Boxed::new(
            alloc,
            DataArrayMessage::PutUninitializedDataArraysResponse(
                PutUninitializedDataArraysResponse { success: entries },
            ),
        )?))
    }
}

/// The parts of this message.
fn data_array_put_uninitialized_data_arrays_response(
    alloc: Global,
    message: PutUninitializedDataArraysResponse,
    limit: u64,
) -> Result<List<Message>, NoMemory>
    ensures { IfOk result (λ l. l ≡ data_array_parts limit (array.PutUninitializedDataArraysResponse message)) }
{
    let PutUninitializedDataArraysResponse { success } = message;
    let rest = PutUninitializedDataArraysResponse {
        success: Named::new(alloc),
    };
    parts_of_entries(alloc, &rest, success, limit)
}

/// The parts of a message.
pub(crate) fn data_array_parts(
    alloc: Global,
    message: DataArrayMessage,
    limit: u64,
) -> Result<List<Message>, NoMemory>
    ensures { IfOk result (λ l. l ≡ data_array_parts limit message) }
{
    match message {
        DataArrayMessage::GetDataArraysResponse(message) => data_array_get_data_arrays_response(
            alloc, message, limit,
        ),
        DataArrayMessage::GetDataSubarraysResponse(message) =>
            data_array_get_data_subarrays_response(alloc, message, limit),
        DataArrayMessage::GetDataArrayMetadataResponse(message) =>
            data_array_get_data_array_metadata_response(alloc, message, limit),
        DataArrayMessage::PutDataArraysResponse(message) => data_array_put_data_arrays_response(
            alloc, message, limit,
        ),
        DataArrayMessage::PutDataSubarraysResponse(message) =>
            data_array_put_data_subarrays_response(alloc, message, limit),
        DataArrayMessage::PutUninitializedDataArraysResponse(message) =>
            data_array_put_uninitialized_data_arrays_response(alloc, message, limit),
        other => one_part(alloc, Message::DataArray(Boxed::new(alloc, other)?)),
    }
}
