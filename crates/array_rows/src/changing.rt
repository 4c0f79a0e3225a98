//! What the requests that change arrays have in common.
ghost use Rattle.std.specs.Prelude.{◌≡◌, IfOk, OnOk, []};
ghost use Rattle.array_rows.specs.Arrays.{joined_called, ops_call};
ghost use Rattle.array_rows.specs.Changing.{change_response, decided_found, patch_array, put_wants, set_array, staged_put};
ghost use Rattle.array_rows.specs.declared.arrays.ArrayPending.TheVariants as pending;
ghost use Rattle.keyed_requests.specs.Keyed.{granted_unless};
ghost use Rattle.keyed_requests.specs.Plain.{plain_reply};
ghost use Rattle.request_scope.specs.Finding.{found_refusal, putting};
ghost use Rattle.request_scope.specs.Reply.{scoped_reply};

use crate::arrays::{ArrayOutcome, ArrayPending};
use crate::reading::seen_reply;
use array_store::{ArrayKey, ArrayRecord};
use etp_values::{AnyArray, Copied, ErrorCode, List, Named, NoMemory, Text};
use keyed_requests::{
    Decision, Findings, KeyedReply, Outcome, Plain, PlainReply, Sending, joined_values,
    request_reply,
};
use msg_store::{
    DataArrayMessage, PutDataArraysResponse, PutDataSubarraysResponse,
    PutUninitializedDataArraysResponse,
};
use request_scope::{Answered, Scope};
use std::alloc::Global;
use store_machine::{Looked, StoreCall, Verdict, Want};
use tx_stage::{Key, Op, OpWhat, Stage};

/// Which request changes arrays.
#[derive(Clone, Copy, Debug, PartialEq, Eq, Drop)]
pub enum ArrayChange {
    /// PutDataArrays.
    Put,
    /// PutDataSubarrays.
    Patch,
    /// PutUninitializedDataArrays.
    Make,
}

/// An array to be put.
#[derive(Drop)]
pub struct ArrayPut {
    pub key: ArrayKey,
    pub array: ArrayRecord,
}

/// Values to be written into a region of an array.
#[derive(Drop)]
pub struct ArrayPatch {
    pub key: ArrayKey,
    pub starts: List<i64>,
    pub counts: List<i64>,
    pub values: AnyArray,
}

/// The operation that puts an array.
pub(crate) fn set_array(at: i64, put: ArrayPut) -> Op
    ensures { result ≡ set_array at put }
{
    let ArrayPut { key, array } = put;
    Op {
        key: Key::Array(key),
        what: OpWhat::SetArray(array),
        at,
    }
}

/// The operation that writes values into a region.
pub(crate) fn patch_array(at: i64, patch: ArrayPatch) -> Op
    ensures { result ≡ patch_array at patch }
{
    let ArrayPatch {
        key,
        starts,
        counts,
        values,
    } = patch;
    Op {
        key: Key::Array(key),
        what: OpWhat::Patch {
            starts,
            counts,
            values,
        },
        at,
    }
}

/// What is looked at before an array is staged: its object and itself.
pub(crate) fn put_wants(alloc: Global, put: &ArrayPut) -> Result<List<Want>, NoMemory>
    ensures { IfOk result (λ l. l ≡ put_wants put.now) }
{
    let mut wants = Vec::new(alloc);
    wants.push(Want::Known(put.key.uri.copy(alloc)?))?;
    wants.push(Want::Shape(put.key.copy(alloc)?))?;
    Ok(List::from_vec(wants))
}

/// The response to a request that changes arrays.
pub(crate) fn change_response(what: ArrayChange, success: Named<Text>) -> DataArrayMessage
    ensures { result ≡ change_response what success }
{
    match what {
        ArrayChange::Put => {
            DataArrayMessage::PutDataArraysResponse(PutDataArraysResponse { success })
        }
        ArrayChange::Patch => {
            DataArrayMessage::PutDataSubarraysResponse(PutDataSubarraysResponse { success })
        }
        ArrayChange::Make => {
            DataArrayMessage::PutUninitializedDataArraysResponse(
                PutUninitializedDataArraysResponse { success },
            )
        }
    }
}

/// The second half without a transaction: by the store's verdicts.
#[derive(Drop)]
pub(crate) struct ChangeReply {
    pub(crate) what: ArrayChange,
}

impl PlainReply for ChangeReply {
    type Found = (Text, Verdict);

    type Given = Text;

    type Message = DataArrayMessage;

    ghost decide = { λ change found. decided_found found };

    ghost response = { λ change success. change_response change.what success };

    fn decide(&self, alloc: Global, found: &(Text, Verdict)) -> Result<Decision<Text>, NoMemory> {
        match found.1 {
            Verdict::Accepted => Ok(Decision::Granted(Text::new(alloc))),
            Verdict::Refused(code) => Ok(Decision::Refused(code)),
        }
    }

    fn response(&self, granted: Named<Text>) -> DataArrayMessage
        ensures { result ≡ change_response self.now.what granted }
    {
        change_response(self.what, granted)
    }
}

/// The operations make one call.
pub(crate) fn ops_call(
    what: ArrayChange,
    outcome: Outcome<Named<Op>, Named<Decision<()>>, DataArrayMessage>,
) -> ArrayOutcome
    ensures { result ≡ ops_call what outcome }
{
    match outcome {
        Outcome::Replies(sendings) => Outcome::Replies(sendings),
        Outcome::Calls { call, pending } => Outcome::Calls {
            call: StoreCall::Put { items: call },
            pending: ArrayPending::Change {
                what,
                items: pending,
            },
        },
    }
}

/// The reply to a change of arrays outside a transaction, by the store's verdicts.
pub(crate) fn change_reply(
    alloc: Global,
    what: ArrayChange,
    items: Named<Decision<()>>,
    verdicts: Named<Verdict>,
) -> Result<List<Sending<DataArrayMessage>>, NoMemory>
    ensures { IfOk result (λ l. l ≡ plain_reply decided_found (change_response what) items verdicts) }
{
    let findings = Findings::from_vec(verdicts.into_vec());
    request_reply(
        alloc,
        &Plain(ChangeReply { what }),
        &mut (),
        items,
        findings,
    )
}

/// The empty text, unless there is a cause against it.
pub(crate) fn granted_unless(alloc: Global, cause: Option<ErrorCode>) -> Decision<Text>
    ensures { result ≡ granted_unless cause [] }
{
    match cause {
        Some(code) => Decision::Refused(code),
        None => Decision::Granted(Text::new(alloc)),
    }
}

/// Stages an operation by what was seen of the key that it needs and of its own.
fn put_seen(
    alloc: Global,
    scope: &mut Scope,
    needed: Key,
    op: Op,
    found: List<Looked>,
) -> Result<Decision<Text>, NoMemory>
    ensures decision { let cause = found_refusal scope.old.stage needed op found in
        IfOk result (λ d. d ≡ granted_unless cause []) }
    ensures state { OnOk result (scope.new ≡ putting scope.old needed op found) }
{
    let cause = scope.put_found(op, &needed, found.as_slice())?;
    Ok(granted_unless(alloc, cause))
}

/// The second half in a transaction where whole arrays are put: each is staged.
#[derive(Drop)]
pub(crate) struct StagedPutReply {
    pub(crate) what: ArrayChange,
    pub(crate) moment: i64,
}

impl KeyedReply for StagedPutReply {
    type Kept = ArrayPut;

    type Found = Looked;

    type Given = Text;

    type Finishing = Scope;

    type Message = DataArrayMessage;

    ghost width = { 2 };

    ghost finish = { λ put s key x found. staged_put put.moment s key x found };

    ghost response = { λ put success. change_response put.what success };

    fn width(&self) -> usize {
        2
    }

    fn finish(
        &self,
        alloc: Global,
        state: &mut Scope,
        _key: &Text,
        kept: ArrayPut,
        found: List<Looked>,
    ) -> Result<Decision<Text>, NoMemory>
        ensures decision { IfOk result (λ d. d ≡ (staged_put self.now.moment state.old _key.now kept found).1) }
        ensures state { OnOk result (state.new ≡ (staged_put self.now.moment state.old _key.now kept found).0) }
    {
        let needed = Key::Object(kept.key.uri.copy(alloc)?);
        put_seen(alloc, state, needed, set_array(self.moment, kept), found)
    }

    fn response(&self, granted: Named<Text>) -> DataArrayMessage
        ensures { result ≡ change_response self.now.what granted }
    {
        change_response(self.what, granted)
    }
}

/// The looks before whole arrays are staged make one call.
pub(crate) fn staged_put_call(
    alloc: Global,
    what: ArrayChange,
    moment: i64,
    outcome: Outcome<Named<List<Want>>, Named<Decision<ArrayPut>>, DataArrayMessage>,
) -> Result<ArrayOutcome, NoMemory>
    ensures { IfOk result (λ o. o ≡ joined_called (pending.StagedPut what moment) outcome) }
{
    match outcome {
        Outcome::Replies(sendings) => Ok(Outcome::Replies(sendings)),
        Outcome::Calls { call, pending } => Ok(Outcome::Calls {
            call: StoreCall::Look {
                items: joined_values(alloc, call)?,
            },
            pending: ArrayPending::StagedPut {
                what,
                moment,
                items: pending,
            },
        }),
    }
}

/// The reply to a put of whole arrays in a transaction, by what was seen.
pub(crate) fn staged_put_reply(
    alloc: Global,
    stage: Option<Stage>,
    what: ArrayChange,
    moment: i64,
    items: Named<Decision<ArrayPut>>,
    looks: List<Looked>,
) -> Result<Answered<DataArrayMessage>, NoMemory>
    ensures { IfOk result (λ r. r ≡ scoped_reply (staged_put moment) 2 (change_response what) stage items looks) }
{
    seen_reply(alloc, &StagedPutReply { what, moment }, stage, items, looks)
}
