//! The requests of the DataArray protocol.
ghost use Rattle.std.specs.Prelude.{◌≡◌, [], IfOk};
ghost use Rattle.array_rows.specs.Arrays.{array_outcome, array_reply, change_refusal, looks_reply, says, verdicts_reply};

use crate::changing::{ArrayChange, ArrayPatch, ArrayPut, change_reply, staged_put_reply};
use crate::making::make_outcome;
use crate::metadata::{metadata_outcome, metadata_reply, staged_metadata_reply};
use crate::naming::Region;
use crate::patching::{patch_outcome, staged_patch_reply};
use crate::putting::put_outcome;
use crate::reading::{get_outcome, get_reply};
use crate::slicing::{slice_outcome, slice_reply, staged_slice_reply};
use array_store::ArrayKey;
use etp_values::{ErrorCode, List, Named, NoMemory};
use keyed_requests::{Decision, Outcome, Sending, keys_refusal, refusal_alone, refused_outcome};
use msg_store::DataArrayMessage;
use request_scope::{Answered, is_read_only};
use std::alloc::Global;
use store_machine::{Looked, Reply, StoreCall, Verdict};
use tx_stage::Stage;

/// What a request of the DataArray protocol keeps while the store is asked.
#[derive(Drop)]
pub enum ArrayPending {
    /// GetDataArrays, with the arrays that its keys name.
    Get {
        items: Named<Decision<ArrayKey>>,
    },
    /// GetDataSubarrays outside a transaction, with the counts of the regions.
    Slice {
        items: Named<Decision<List<i64>>>,
    },
    /// GetDataSubarrays in a transaction, with the regions.
    StagedSlice {
        items: Named<Decision<Region>>,
    },
    /// GetDataArrayMetadata outside a transaction.
    Shape {
        items: Named<Decision<()>>,
    },
    /// GetDataArrayMetadata in a transaction, with the arrays that its keys name.
    StagedShape {
        items: Named<Decision<ArrayKey>>,
    },
    /// A change of arrays outside a transaction.
    Change {
        what: ArrayChange,
        items: Named<Decision<()>>,
    },
    /// A put of whole arrays in a transaction, at this moment.
    StagedPut {
        what: ArrayChange,
        moment: i64,
        items: Named<Decision<ArrayPut>>,
    },
    /// PutDataSubarrays in a transaction, at this moment.
    StagedPatch {
        moment: i64,
        items: Named<Decision<ArrayPatch>>,
    },
}

/// What comes of a request of the DataArray protocol.
pub type ArrayOutcome = Outcome<StoreCall, ArrayPending, DataArrayMessage>;

/// Why a change of arrays is refused as a whole: the transaction only reads, or its keys exceed the limits.
fn change_refusal<T>(stage: &Option<Stage>, items: &Named<T>) -> Option<ErrorCode>
    ensures { result ≡ change_refusal stage.now items.now }
{
    if is_read_only(stage) {
        return Some(ErrorCode::RequestDenied);
    }
    keys_refusal(items)
}

/// What comes of a message of the DataArray protocol at this moment, within the open transaction, if there is one. Outside a
/// transaction changes are put at once; in one each request makes a single look.
pub fn array_outcome(
    alloc: Global,
    stage: &Option<Stage>,
    moment: i64,
    message: DataArrayMessage,
) -> Result<ArrayOutcome, NoMemory>
    ensures { IfOk result (λ o. o ≡ array_outcome stage.now moment message) }
{
    match message {
        DataArrayMessage::GetDataArrays(request) => match keys_refusal(&request.data_arrays) {
            Some(code) => refused_outcome(alloc, code),
            None => get_outcome(alloc, stage, request.data_arrays),
        },
        DataArrayMessage::GetDataSubarrays(request) => match keys_refusal(&request.data_subarrays) {
            Some(code) => refused_outcome(alloc, code),
            None => slice_outcome(alloc, stage, request.data_subarrays),
        },
        DataArrayMessage::GetDataArrayMetadata(request) => match keys_refusal(
            &request.data_arrays,
        ) {
            Some(code) => refused_outcome(alloc, code),
            None => metadata_outcome(alloc, stage, request.data_arrays),
        },
        DataArrayMessage::PutDataArrays(request) => match change_refusal(
            stage,
            &request.data_arrays,
        ) {
            Some(code) => refused_outcome(alloc, code),
            None => put_outcome(alloc, stage, moment, request.data_arrays),
        },
        DataArrayMessage::PutDataSubarrays(request) => match change_refusal(
            stage,
            &request.data_subarrays,
        ) {
            Some(code) => refused_outcome(alloc, code),
            None => patch_outcome(alloc, stage, moment, request.data_subarrays),
        },
        DataArrayMessage::PutUninitializedDataArrays(request) => match change_refusal(
            stage,
            &request.data_arrays,
        ) {
            Some(code) => refused_outcome(alloc, code),
            None => make_outcome(alloc, stage, moment, request.data_arrays),
        },
        DataArrayMessage::GetDataArraysResponse(_)
        | DataArrayMessage::GetDataArrayMetadataResponse(_)
        | DataArrayMessage::GetDataSubarraysResponse(_)
        | DataArrayMessage::PutDataArraysResponse(_)
        | DataArrayMessage::PutDataSubarraysResponse(_)
        | DataArrayMessage::PutUninitializedDataArraysResponse(_) => refused_outcome(
            alloc,
            ErrorCode::InvalidMessageType,
        ),
    }
}

/// A reply that leaves the transaction unchanged.
fn says(
    stage: Option<Stage>,
    sendings: List<Sending<DataArrayMessage>>,
) -> Answered<DataArrayMessage>
    ensures { result ≡ says stage sendings }
{
    Answered { stage, sendings }
}

fn verdicts_reply(
    alloc: Global,
    stage: Option<Stage>,
    pending: ArrayPending,
    verdicts: Named<Verdict>,
) -> Result<Answered<DataArrayMessage>, NoMemory>
    ensures { IfOk result (λ r. r ≡ verdicts_reply stage pending verdicts) }
{
    match pending {
        ArrayPending::Change { what, items } => {
            let sendings = change_reply(alloc, what, items, verdicts)?;
            Ok(says(stage, sendings))
        }
        other => Ok(unanswered(alloc, stage, other)),
    }
}

fn looks_reply(
    alloc: Global,
    limit: u64,
    stage: Option<Stage>,
    pending: ArrayPending,
    looks: List<Looked>,
) -> Result<Answered<DataArrayMessage>, NoMemory>
    ensures { IfOk result (λ r. r ≡ looks_reply limit stage pending looks) }
{
    match pending {
        ArrayPending::Get { items } => get_reply(alloc, limit, stage, items, looks),
        ArrayPending::Slice { items } => slice_reply(alloc, limit, stage, items, looks),
        ArrayPending::StagedSlice { items } => {
            staged_slice_reply(alloc, limit, stage, items, looks)
        }
        ArrayPending::Shape { items } => metadata_reply(alloc, limit, stage, items, looks),
        ArrayPending::StagedShape { items } => {
            staged_metadata_reply(alloc, limit, stage, items, looks)
        }
        ArrayPending::StagedPut {
            what,
            moment,
            items,
        } => staged_put_reply(alloc, stage, what, moment, items, looks),
        ArrayPending::StagedPatch { moment, items } => {
            staged_patch_reply(alloc, stage, moment, items, looks)
        }
        ArrayPending::Change { .. } => Ok(says(stage, List::new(alloc))),
    }
}

/// The reply to a request of the DataArray protocol, once the store has answered its call, in a session whose parts have at most `limit`
/// bytes, and what it leaves of the open transaction. An answer that does not belong to the call has no reply.
pub fn array_reply(
    alloc: Global,
    limit: u64,
    stage: Option<Stage>,
    pending: ArrayPending,
    reply: Reply,
) -> Result<Answered<DataArrayMessage>, NoMemory>
    ensures { IfOk result (λ r. r ≡ array_reply limit stage pending reply) }
{
    match reply {
        Reply::Verdicts(verdicts) => verdicts_reply(alloc, stage, pending, verdicts),
        Reply::Looked(looks) => looks_reply(alloc, limit, stage, pending, looks),
        Reply::JournalFull => {
            let sendings = refusal_alone(alloc, ErrorCode::LimitExceeded)?;
            Ok(says(stage, sendings))
        }
        other => Ok(no_reply(alloc, stage, other)),
    }
}

/// A request that asked for no verdicts gets no reply.
fn unanswered(
    alloc: Global,
    stage: Option<Stage>,
    pending: ArrayPending,
) -> Answered<DataArrayMessage>
    ensures { result ≡ says stage [] }
{
    drop(pending);
    says(stage, List::new(alloc))
}

/// An answer that does not belong to the call has no reply.
fn no_reply(alloc: Global, stage: Option<Stage>, reply: Reply) -> Answered<DataArrayMessage>
    ensures { result ≡ says stage [] }
{
    drop(reply);
    says(stage, List::new(alloc))
}
