//! GetDataSubarrays.
ghost use Rattle.std.specs.Prelude.{◌≡◌, IfOk, OnOk};
ghost use Rattle.array_rows.specs.Arrays.{looks_called, slice_outcome, staged_slice_outcome, unstaged_slice_outcome};
ghost use Rattle.array_rows.specs.Naming.{named_region};
ghost use Rattle.array_rows.specs.Reading.{cut_counted, cut_out, cut_seen, slice_one, slice_seen, slice_want, slices_response, staged_slice};
ghost use Rattle.array_rows.specs.declared.arrays.ArrayPending.TheVariants as pending;
ghost use Rattle.request_scope.specs.Reply.{scoped_reply};
ghost use Rattle.tx_stage.specs.declared.look.Want.TheVariants as want;

use crate::arrays::{ArrayOutcome, ArrayPending};
use crate::naming::{Region, named_region};
use crate::reading::{array_seen, seen_reply};
use crate::sizes::fitting;
use array_store::{ArrayRecord, read_slice};
use etp_values::{AnyArray, Copied, ErrorCode, List, Named, NoMemory, Text};
use keyed_requests::{
    Decision, KeyedReply, KeyedRequest, Outcome, first_found, request_outcome, sent_values,
};
use msg_store::{DataArray, DataArrayMessage, GetDataSubarraysResponse, GetDataSubarraysType};
use request_scope::{Answered, Scope};
use std::alloc::Global;
use store_machine::{Looked, StoreCall, Want};
use tx_stage::{Stage, memory_or_code};

/// The first half without a transaction: the store cuts the regions out.
#[derive(Drop)]
struct Slices<'a> {
    stage: &'a Option<Stage>,
}

impl<'a> KeyedRequest for Slices<'a> {
    type Item = GetDataSubarraysType;

    type Checked = Region;

    type Kept = List<i64>;

    type Sent = Want;

    type Checking = ();

    ghost check = { λ get s asked. (s, named_region get.stage.now asked) };

    ghost keep = { λ get region. region.counts };

    ghost send = { λ get region. slice_want region };

    fn check(
        &self,
        alloc: Global,
        _state: &mut (),
        item: GetDataSubarraysType,
    ) -> Result<Decision<Region>, NoMemory> {
        named_region(alloc, self.stage, item)
    }

    fn divide(&self, alloc: Global, checked: Region) -> Result<(List<i64>, Want), NoMemory> {
        let Region {
            key,
            starts,
            counts,
        } = checked;
        let kept = counts.copy(alloc)?;
        Ok((
            kept,
            Want::Slice {
                key,
                starts,
                counts,
            },
        ))
    }
}

/// The second half without a transaction.
#[derive(Drop)]
struct SlicesReply {
    limit: u64,
}

impl KeyedReply for SlicesReply {
    type Kept = List<i64>;

    type Found = Looked;

    type Given = DataArray;

    type Finishing = Scope;

    type Message = DataArrayMessage;

    ghost width = { 1 };

    ghost finish = { λ get s key counts found. slice_one get.limit s key counts found };

    ghost response = { λ get arrays. slices_response arrays };

    fn width(&self) -> usize {
        1
    }

    fn finish(
        &self,
        _alloc: Global,
        _state: &mut Scope,
        key: &Text,
        kept: List<i64>,
        found: List<Looked>,
    ) -> Result<Decision<DataArray>, NoMemory>
        ensures decision { IfOk result (λ d. d ≡ (slice_one self.now.limit _state.old key.now kept found).1) }
        ensures state { OnOk result (_state.new ≡ (slice_one self.now.limit _state.old key.now kept found).0) }
    {
        Ok(slice_seen(self.limit, key, kept, first_found(found)))
    }

    fn response(&self, granted: Named<DataArray>) -> DataArrayMessage
        ensures { result ≡ slices_response granted }
    {
        slices_response(granted)
    }
}

fn slices_response(data_subarrays: Named<DataArray>) -> DataArrayMessage
    ensures { result ≡ slices_response data_subarrays }
{
    DataArrayMessage::GetDataSubarraysResponse(GetDataSubarraysResponse { data_subarrays })
}

/// The elements of a region of these counts, as the store saw them.
fn slice_seen(
    limit: u64,
    key: &Text,
    counts: List<i64>,
    seen: Option<Looked>,
) -> Decision<DataArray>
    ensures { result ≡ slice_seen limit key.now counts seen }
{
    match seen {
        Some(Looked::Slice(values)) => {
            let array = DataArray {
                dimensions: counts,
                payload: values,
            };
            fitting(limit, key, array)
        }
        Some(Looked::Missing) => Decision::Refused(ErrorCode::NotFound),
        Some(Looked::Refused(code)) => Decision::Refused(code),
        _ => Decision::Refused(ErrorCode::RequestDenied),
    }
}

/// The first half while a transaction is open, which looks at whole arrays.
#[derive(Drop)]
struct StagedSlices<'a> {
    stage: &'a Option<Stage>,
}

impl<'a> KeyedRequest for StagedSlices<'a> {
    type Item = GetDataSubarraysType;

    type Checked = Region;

    type Kept = Region;

    type Sent = Want;

    type Checking = ();

    ghost check = { λ get s asked. (s, named_region get.stage.now asked) };

    ghost keep = { λ get region. region };

    ghost send = { λ get region. want.Array region.key };

    fn check(
        &self,
        alloc: Global,
        _state: &mut (),
        item: GetDataSubarraysType,
    ) -> Result<Decision<Region>, NoMemory> {
        named_region(alloc, self.stage, item)
    }

    fn divide(&self, alloc: Global, checked: Region) -> Result<(Region, Want), NoMemory> {
        let looked_at = checked.key.copy(alloc)?;
        Ok((checked, Want::Array(looked_at)))
    }
}

/// The second half in a transaction: the regions are cut out of the arrays with the staged operations applied.
#[derive(Drop)]
struct StagedSlicesReply {
    limit: u64,
}

impl KeyedReply for StagedSlicesReply {
    type Kept = Region;

    type Found = Looked;

    type Given = DataArray;

    type Finishing = Scope;

    type Message = DataArrayMessage;

    ghost width = { 1 };

    ghost finish = { λ get s key region found. staged_slice get.limit s key region found };

    ghost response = { λ get arrays. slices_response arrays };

    fn width(&self) -> usize {
        1
    }

    fn finish(
        &self,
        alloc: Global,
        state: &mut Scope,
        key: &Text,
        kept: Region,
        found: List<Looked>,
    ) -> Result<Decision<DataArray>, NoMemory>
        ensures decision { IfOk result (λ d. d ≡ (staged_slice self.now.limit state.old key.now kept found).1) }
        ensures state { OnOk result (state.new ≡ (staged_slice self.now.limit state.old key.now kept found).0) }
    {
        let seen = array_seen(alloc, state, &kept.key, first_found(found))?;
        cut_seen(alloc, self.limit, state, key, kept, seen)
    }

    fn response(&self, granted: Named<DataArray>) -> DataArrayMessage
        ensures { result ≡ slices_response granted }
    {
        slices_response(granted)
    }
}

/// The elements of a region of an array that was looked at as a whole.
fn cut_out(
    alloc: Global,
    region: &Region,
    array: &ArrayRecord,
) -> Result<Decision<AnyArray>, NoMemory>
    ensures { IfOk result (λ d. d ≡ cut_out region.now array.now) }
{
    match read_slice(alloc, array, &region.starts, &region.counts) {
        Ok(values) => Ok(Decision::Granted(values)),
        Err(error) => {
            let code = memory_or_code(error)?;
            Ok(Decision::Refused(code))
        }
    }
}

/// The same, if the array is counted as a whole, except for a region that it doesn't have.
fn cut_counted(
    limit: u64,
    scope: &mut Scope,
    key: &Text,
    counts: List<i64>,
    whole: &AnyArray,
    cut: Decision<AnyArray>,
) -> Decision<DataArray>
    ensures decision { result ≡ (cut_counted limit scope.old key.now counts whole.now cut).1 }
    ensures state { scope.new ≡ (cut_counted limit scope.old key.now counts whole.now cut).0 }
{
    match cut {
        Decision::Granted(values) => {
            if !scope.pay_elements(whole) {
                return Decision::Refused(ErrorCode::LimitExceeded);
            }
            let array = DataArray {
                dimensions: counts,
                payload: values,
            };
            fitting(limit, key, array)
        }
        Decision::Refused(code) => Decision::Refused(code),
    }
}

/// The elements of a region of an existing array.
fn cut_seen(
    alloc: Global,
    limit: u64,
    scope: &mut Scope,
    key: &Text,
    region: Region,
    seen: Decision<ArrayRecord>,
) -> Result<Decision<DataArray>, NoMemory>
    ensures decision { IfOk result (λ d. d ≡ (cut_seen limit scope.old key.now region seen).1) }
    ensures state { OnOk result (scope.new ≡ (cut_seen limit scope.old key.now region seen).0) }
{
    match seen {
        Decision::Granted(array) => {
            let cut = cut_out(alloc, &region, &array)?;
            let Region { counts, .. } = region;
            Ok(cut_counted(limit, scope, key, counts, &array.values, cut))
        }
        Decision::Refused(code) => Ok(Decision::Refused(code)),
    }
}

fn slice_call(
    alloc: Global,
    outcome: Outcome<Named<Want>, Named<Decision<List<i64>>>, DataArrayMessage>,
) -> Result<ArrayOutcome, NoMemory>
    ensures { IfOk result (λ o. o ≡ looks_called pending.Slice outcome) }
{
    match outcome {
        Outcome::Replies(sendings) => Ok(Outcome::Replies(sendings)),
        Outcome::Calls { call, pending } => Ok(Outcome::Calls {
            call: StoreCall::Look {
                items: sent_values(alloc, call)?,
            },
            pending: ArrayPending::Slice { items: pending },
        }),
    }
}

fn staged_slice_call(
    alloc: Global,
    outcome: Outcome<Named<Want>, Named<Decision<Region>>, DataArrayMessage>,
) -> Result<ArrayOutcome, NoMemory>
    ensures { IfOk result (λ o. o ≡ looks_called pending.StagedSlice outcome) }
{
    match outcome {
        Outcome::Replies(sendings) => Ok(Outcome::Replies(sendings)),
        Outcome::Calls { call, pending } => Ok(Outcome::Calls {
            call: StoreCall::Look {
                items: sent_values(alloc, call)?,
            },
            pending: ArrayPending::StagedSlice { items: pending },
        }),
    }
}

fn unstaged_slice_outcome(
    alloc: Global,
    stage: &Option<Stage>,
    asked: Named<GetDataSubarraysType>,
) -> Result<ArrayOutcome, NoMemory>
    ensures { IfOk result (λ o. o ≡ unstaged_slice_outcome stage.now asked) }
{
    // The first half makes no part, so any limit works.
    let reply = SlicesReply { limit: 0 };
    let outcome = request_outcome(alloc, &Slices { stage }, &reply, &mut (), asked)?;
    slice_call(alloc, outcome)
}

fn staged_slice_outcome(
    alloc: Global,
    stage: &Option<Stage>,
    asked: Named<GetDataSubarraysType>,
) -> Result<ArrayOutcome, NoMemory>
    ensures { IfOk result (λ o. o ≡ staged_slice_outcome stage.now asked) }
{
    // The first half makes no part, so any limit works.
    let reply = StagedSlicesReply { limit: 0 };
    let outcome = request_outcome(alloc, &StagedSlices { stage }, &reply, &mut (), asked)?;
    staged_slice_call(alloc, outcome)
}

/// What comes of a GetDataSubarrays whose keys are within the limits.
pub(crate) fn slice_outcome(
    alloc: Global,
    stage: &Option<Stage>,
    asked: Named<GetDataSubarraysType>,
) -> Result<ArrayOutcome, NoMemory>
    ensures { IfOk result (λ o. o ≡ slice_outcome stage.now asked) }
{
    if stage.is_some() {
        return staged_slice_outcome(alloc, stage, asked);
    }
    unstaged_slice_outcome(alloc, stage, asked)
}

/// The reply to a GetDataSubarrays outside a transaction, by what was seen.
pub(crate) fn slice_reply(
    alloc: Global,
    limit: u64,
    stage: Option<Stage>,
    items: Named<Decision<List<i64>>>,
    looks: List<Looked>,
) -> Result<Answered<DataArrayMessage>, NoMemory>
    ensures { IfOk result (λ r. r ≡ scoped_reply (slice_one limit) 1 slices_response stage items looks) }
{
    seen_reply(alloc, &SlicesReply { limit }, stage, items, looks)
}

/// The reply to a GetDataSubarrays in a transaction, by what was seen.
pub(crate) fn staged_slice_reply(
    alloc: Global,
    limit: u64,
    stage: Option<Stage>,
    items: Named<Decision<Region>>,
    looks: List<Looked>,
) -> Result<Answered<DataArrayMessage>, NoMemory>
    ensures { IfOk result (λ r. r ≡ scoped_reply (staged_slice limit) 1 slices_response stage items looks) }
{
    seen_reply(alloc, &StagedSlicesReply { limit }, stage, items, looks)
}
