//! GetDataArrays, and what all requests that read arrays have in common.
ghost use Rattle.std.specs.Prelude.{◌≡◌, IfOk, OnOk};
ghost use Rattle.array_rows.specs.Arrays.{get_outcome, looks_called};
ghost use Rattle.array_rows.specs.Naming.{named_array};
ghost use Rattle.array_rows.specs.Reading.{array_seen, array_there, arrays_response, get_one, got};
ghost use Rattle.array_rows.specs.declared.arrays.ArrayPending.TheVariants as pending;
ghost use Rattle.request_scope.specs.Reply.{scoped_reply};
ghost use Rattle.tx_stage.specs.declared.look.Want.TheVariants as want;

use crate::arrays::{ArrayOutcome, ArrayPending};
use crate::naming::named_array;
use crate::sizes::fitting;
use array_store::{ArrayKey, ArrayRecord};
use etp_values::{Copied, ErrorCode, List, Named, NoMemory, Text};
use keyed_requests::{
    Decision, Findings, KeyedReply, KeyedRequest, Outcome, first_found, request_outcome,
    sent_values,
};
use msg_store::{DataArray, DataArrayIdentifier, DataArrayMessage, GetDataArraysResponse};
use request_scope::{Answered, Scope, scoped_reply};
use std::alloc::Global;
use store_machine::{Looked, StoreCall, Want};
use tx_stage::Stage;

/// The first half if whole arrays are looked at.
#[derive(Drop)]
pub(crate) struct WholeArrays<'a> {
    pub(crate) stage: &'a Option<Stage>,
}

impl<'a> KeyedRequest for WholeArrays<'a> {
    type Item = DataArrayIdentifier;

    type Checked = ArrayKey;

    type Kept = ArrayKey;

    type Sent = Want;

    type Checking = ();

    ghost check = { λ get s id. (s, named_array get.stage.now id) };

    ghost keep = { λ get key. key };

    ghost send = { λ get key. want.Array key };

    fn check(
        &self,
        alloc: Global,
        _state: &mut (),
        item: DataArrayIdentifier,
    ) -> Result<Decision<ArrayKey>, NoMemory> {
        named_array(alloc, self.stage, item)
    }

    fn divide(&self, alloc: Global, checked: ArrayKey) -> Result<(ArrayKey, Want), NoMemory> {
        let looked_at = checked.copy(alloc)?;
        Ok((checked, Want::Array(looked_at)))
    }
}

/// The second half of GetDataArrays, for messages of at most `limit` bytes.
#[derive(Drop)]
struct GetArraysReply {
    limit: u64,
}

impl KeyedReply for GetArraysReply {
    type Kept = ArrayKey;

    type Found = Looked;

    type Given = DataArray;

    type Finishing = Scope;

    type Message = DataArrayMessage;

    ghost width = { 1 };

    ghost finish = { λ get s key k found. get_one get.limit s key k found };

    ghost response = { λ get arrays. arrays_response arrays };

    fn width(&self) -> usize {
        1
    }

    fn finish(
        &self,
        alloc: Global,
        state: &mut Scope,
        key: &Text,
        kept: ArrayKey,
        found: List<Looked>,
    ) -> Result<Decision<DataArray>, NoMemory>
        ensures decision { IfOk result (λ d. d ≡ (get_one self.now.limit state.old key.now kept found).1) }
        ensures state { OnOk result (state.new ≡ (get_one self.now.limit state.old key.now kept found).0) }
    {
        let seen = array_seen(alloc, state, &kept, first_found(found))?;
        Ok(got(self.limit, state, key, seen))
    }

    fn response(&self, granted: Named<DataArray>) -> DataArrayMessage
        ensures { result ≡ arrays_response granted }
    {
        DataArrayMessage::GetDataArraysResponse(GetDataArraysResponse {
            data_arrays: granted,
        })
    }
}

/// An existing array as it is sent, if its elements are counted.
fn got(
    limit: u64,
    scope: &mut Scope,
    key: &Text,
    seen: Decision<ArrayRecord>,
) -> Decision<DataArray>
    ensures decision { result ≡ (got limit scope.old key.now seen).1 }
    ensures state { scope.new ≡ (got limit scope.old key.now seen).0 }
{
    match seen {
        Decision::Granted(array) => {
            if !scope.pay_elements(&array.values) {
                return Decision::Refused(ErrorCode::LimitExceeded);
            }
            let ArrayRecord { dims, values, .. } = array;
            let array = DataArray {
                dimensions: dims,
                payload: values,
            };
            fitting(limit, key, array)
        }
        Decision::Refused(code) => Decision::Refused(code),
    }
}

/// The array of a key, by what was seen there.
pub(crate) fn array_seen(
    alloc: Global,
    scope: &Scope,
    key: &ArrayKey,
    seen: Option<Looked>,
) -> Result<Decision<ArrayRecord>, NoMemory>
    ensures { IfOk result (λ d. d ≡ array_seen scope.now.stage key.now seen) }
{
    match seen {
        Some(Looked::Array(array)) => Ok(array_there(scope.array(alloc, key, Some(array))?)),
        Some(Looked::Missing) => Ok(array_there(scope.array(alloc, key, None)?)),
        Some(Looked::Refused(code)) => Ok(Decision::Refused(code)),
        _ => Ok(Decision::Refused(ErrorCode::RequestDenied)),
    }
}

fn array_there(array: Option<ArrayRecord>) -> Decision<ArrayRecord>
    ensures { result ≡ array_there array }
{
    match array {
        Some(array) => Decision::Granted(array),
        None => Decision::Refused(ErrorCode::NotFound),
    }
}

fn get_call(
    alloc: Global,
    outcome: Outcome<Named<Want>, Named<Decision<ArrayKey>>, DataArrayMessage>,
) -> Result<ArrayOutcome, NoMemory>
    ensures { IfOk result (λ o. o ≡ looks_called pending.Get outcome) }
{
    match outcome {
        Outcome::Replies(sendings) => Ok(Outcome::Replies(sendings)),
        Outcome::Calls { call, pending } => Ok(Outcome::Calls {
            call: StoreCall::Look {
                items: sent_values(alloc, call)?,
            },
            pending: ArrayPending::Get { items: pending },
        }),
    }
}

/// What comes of a GetDataArrays whose keys are within the limits.
pub(crate) fn get_outcome(
    alloc: Global,
    stage: &Option<Stage>,
    ids: Named<DataArrayIdentifier>,
) -> Result<ArrayOutcome, NoMemory>
    ensures { IfOk result (λ o. o ≡ get_outcome stage.now ids) }
{
    // The first half makes no part, so any limit works.
    let reply = GetArraysReply { limit: 0 };
    let outcome = request_outcome(alloc, &WholeArrays { stage }, &reply, &mut (), ids)?;
    get_call(alloc, outcome)
}

/// The second half of a request whose keys were looked at, by what was seen.
pub(crate) fn seen_reply<
    A: KeyedReply<Found = Looked, Finishing = Scope, Message = DataArrayMessage>,
>(
    alloc: Global,
    reply: &A,
    stage: Option<Stage>,
    items: Named<Decision<A::Kept>>,
    looks: List<Looked>,
) -> Result<Answered<DataArrayMessage>, NoMemory>
where
    A::Kept: Drop,
    A::Given: Drop,
    ensures { IfOk result (λ r. r ≡ scoped_reply (A.finish reply.now) A.width (A.response reply.now) stage items looks) }
{
    let findings = Findings::from_vec(looks.into_vec());
    scoped_reply(alloc, reply, stage, items, findings)
}

/// The reply to a GetDataArrays, by what was seen.
pub(crate) fn get_reply(
    alloc: Global,
    limit: u64,
    stage: Option<Stage>,
    items: Named<Decision<ArrayKey>>,
    looks: List<Looked>,
) -> Result<Answered<DataArrayMessage>, NoMemory>
    ensures { IfOk result (λ r. r ≡ scoped_reply (get_one limit) 1 arrays_response stage items looks) }
{
    seen_reply(alloc, &GetArraysReply { limit }, stage, items, looks)
}
