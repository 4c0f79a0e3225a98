//! PutDataSubarrays.
ghost use Rattle.std.specs.Prelude.{◌≡◌, IfOk, OnOk};
ghost use Rattle.array_rows.specs.Arrays.{looks_called, patch_outcome, staged_patch_outcome, unstaged_patch_outcome};
ghost use Rattle.array_rows.specs.Changing.{change_response, checked_patch, op_of, patch_array, patch_counted, patch_fault, patch_seen, patch_unless, staged_patch, write_fault};
ghost use Rattle.array_rows.specs.declared.arrays.ArrayPending.TheVariants as pending;
ghost use Rattle.array_rows.specs.declared.changing.ArrayChange.TheVariants as change;
ghost use Rattle.array_store.specs.Arrays.{size_of};
ghost use Rattle.etp_values.specs.Weight.{capped};
ghost use Rattle.request_scope.specs.Reply.{scoped_reply};
ghost use Rattle.tx_stage.specs.declared.look.Want.TheVariants as want;

use crate::arrays::{ArrayOutcome, ArrayPending};
use crate::changing::{
    ArrayChange, ArrayPatch, ChangeReply, change_response, granted_unless, ops_call, patch_array,
};
use crate::naming::named_array;
use crate::reading::{array_seen, seen_reply};
use array_store::{ArrayRecord, array_bytes, write_patch};
use etp_values::{AnyArray, Copied, ErrorCode, List, Named, NoMemory, Text};
use keyed_requests::{
    Decision, KeyedReply, KeyedRequest, Outcome, Plain, PlainRequest, first_found, request_outcome,
    sent_values,
};
use msg_store::{DataArrayMessage, PutDataSubarraysType};
use request_scope::{Answered, Scope};
use std::alloc::Global;
use store_machine::{Looked, StoreCall, Want};
use tx_stage::{Op, Stage, memory_or_code};

/// A patch of a named array.
fn checked_patch(
    alloc: Global,
    stage: &Option<Stage>,
    item: PutDataSubarraysType,
) -> Result<Decision<ArrayPatch>, NoMemory>
    ensures { IfOk result (λ d. d ≡ checked_patch stage.now item) }
{
    let PutDataSubarraysType {
        uid,
        payload,
        starts,
        counts,
    } = item;
    match named_array(alloc, stage, uid)? {
        Decision::Granted(key) => Ok(Decision::Granted(ArrayPatch {
            key,
            starts,
            counts,
            values: payload,
        })),
        Decision::Refused(code) => Ok(Decision::Refused(code)),
    }
}

/// The first half without a transaction: each array is patched.
#[derive(Drop)]
struct PatchArrays<'a> {
    stage: &'a Option<Stage>,
    moment: i64,
}

impl<'a> PlainRequest for PatchArrays<'a> {
    type Item = PutDataSubarraysType;

    type Sent = Op;

    ghost check = { λ patch x. op_of (patch_array patch.moment) (checked_patch patch.stage.now x) };

    fn check(&self, alloc: Global, item: PutDataSubarraysType) -> Result<Decision<Op>, NoMemory> {
        match checked_patch(alloc, self.stage, item)? {
            Decision::Granted(patch) => Ok(Decision::Granted(patch_array(self.moment, patch))),
            Decision::Refused(code) => Ok(Decision::Refused(code)),
        }
    }
}

/// The first half in a transaction: each array is looked at.
#[derive(Drop)]
struct StagedPatches<'a> {
    stage: &'a Option<Stage>,
}

impl<'a> KeyedRequest for StagedPatches<'a> {
    type Item = PutDataSubarraysType;

    type Checked = ArrayPatch;

    type Kept = ArrayPatch;

    type Sent = Want;

    type Checking = ();

    ghost check = { λ patch s x. (s, checked_patch patch.stage.now x) };

    ghost keep = { λ patch x. x };

    ghost send = { λ patch x. want.Array x.key };

    fn check(
        &self,
        alloc: Global,
        _state: &mut (),
        item: PutDataSubarraysType,
    ) -> Result<Decision<ArrayPatch>, NoMemory> {
        checked_patch(alloc, self.stage, item)
    }

    fn divide(&self, alloc: Global, checked: ArrayPatch) -> Result<(ArrayPatch, Want), NoMemory> {
        let looked_at = checked.key.copy(alloc)?;
        Ok((checked, Want::Array(looked_at)))
    }
}

/// The second half in a transaction: each patch that fits its array is staged.
#[derive(Drop)]
struct StagedPatchReply {
    moment: i64,
}

impl KeyedReply for StagedPatchReply {
    type Kept = ArrayPatch;

    type Found = Looked;

    type Given = Text;

    type Finishing = Scope;

    type Message = DataArrayMessage;

    ghost width = { 1 };

    ghost finish = { λ patch s key x found. staged_patch patch.moment s key x found };

    ghost response = { λ patch success. change_response change.Patch success };

    fn width(&self) -> usize {
        1
    }

    fn finish(
        &self,
        alloc: Global,
        state: &mut Scope,
        _key: &Text,
        kept: ArrayPatch,
        found: List<Looked>,
    ) -> Result<Decision<Text>, NoMemory>
        ensures decision { IfOk result (λ d. d ≡ (staged_patch self.now.moment state.old _key.now kept found).1) }
        ensures state { OnOk result (state.new ≡ (staged_patch self.now.moment state.old _key.now kept found).0) }
    {
        let seen = array_seen(alloc, state, &kept.key, first_found(found))?;
        patch_seen(alloc, self.moment, state, kept, seen)
    }

    fn response(&self, granted: Named<Text>) -> DataArrayMessage
        ensures { result ≡ change_response change.Patch granted }
    {
        change_response(ArrayChange::Patch, granted)
    }
}

/// Why values don't fit into a region of an array, if they don't. Those that do are written into it.
fn write_fault(
    alloc: Global,
    array: &mut ArrayRecord,
    starts: &List<i64>,
    counts: &List<i64>,
    values: AnyArray,
) -> Result<Option<ErrorCode>, NoMemory>
    ensures { IfOk result (λ code. code ≡ write_fault array.old starts.now counts.now values) }
{
    match write_patch(alloc, array, starts, counts, values) {
        Ok(()) => Ok(None),
        Err(error) => {
            let code = memory_or_code(error)?;
            Ok(Some(code))
        }
    }
}

/// Why a patch doesn't fit an array, if it doesn't.
fn patch_fault(
    alloc: Global,
    array: &mut ArrayRecord,
    patch: &ArrayPatch,
) -> Result<Option<ErrorCode>, NoMemory>
    ensures { IfOk result (λ code. code ≡ patch_fault array.old patch.now) }
{
    let values = patch.values.copy(alloc)?;
    write_fault(alloc, array, &patch.starts, &patch.counts, values)
}

/// A patch that fits is staged, if its array is counted.
fn patch_counted(
    alloc: Global,
    moment: i64,
    scope: &mut Scope,
    patch: ArrayPatch,
    is_counted: bool,
) -> Result<Decision<Text>, NoMemory>
    ensures decision { IfOk result (λ d. d ≡ (patch_counted moment scope.old patch is_counted).1) }
    ensures state { OnOk result (scope.new ≡ (patch_counted moment scope.old patch is_counted).0) }
{
    if !is_counted {
        return Ok(Decision::Refused(ErrorCode::LimitExceeded));
    }
    let cause = scope.put(patch_array(moment, patch))?;
    Ok(granted_unless(alloc, cause))
}

/// A patch by why it doesn't fit its array, which has this size in bytes.
fn patch_unless(
    alloc: Global,
    moment: i64,
    scope: &mut Scope,
    patch: ArrayPatch,
    size: u64,
    fault: Option<ErrorCode>,
) -> Result<Decision<Text>, NoMemory>
    ensures decision { (whole : AnyArray) → size ≡ capped (size_of whole) →
        IfOk result (λ d. d ≡ (patch_unless moment scope.old patch whole fault).1) }
    ensures state { (whole : AnyArray) → size ≡ capped (size_of whole) →
        OnOk result (scope.new ≡ (patch_unless moment scope.old patch whole fault).0) }
{
    match fault {
        Some(code) => Ok(Decision::Refused(code)),
        None => {
            let is_counted = scope.pay(size);
            patch_counted(alloc, moment, scope, patch, is_counted)
        }
    }
}

/// A patch of an existing array: it is judged on the array that was looked at, and then counted and staged.
fn patch_standing(
    alloc: Global,
    moment: i64,
    scope: &mut Scope,
    patch: ArrayPatch,
    mut array: ArrayRecord,
) -> Result<Decision<Text>, NoMemory>
    ensures decision { let fault = patch_fault array patch in
        IfOk result (λ d. d ≡ (patch_unless moment scope.old patch array.values fault).1) }
    ensures state { let fault = patch_fault array patch in
        OnOk result (scope.new ≡ (patch_unless moment scope.old patch array.values fault).0) }
{
    let size = array_bytes(&array.values);
    let fault = patch_fault(alloc, &mut array, &patch)?;
    patch_unless(alloc, moment, scope, patch, size, fault)
}

/// The same, if the array exists.
fn patch_seen(
    alloc: Global,
    moment: i64,
    scope: &mut Scope,
    patch: ArrayPatch,
    seen: Decision<ArrayRecord>,
) -> Result<Decision<Text>, NoMemory>
    ensures decision { IfOk result (λ d. d ≡ (patch_seen moment scope.old patch seen).1) }
    ensures state { OnOk result (scope.new ≡ (patch_seen moment scope.old patch seen).0) }
{
    match seen {
        Decision::Granted(array) => patch_standing(alloc, moment, scope, patch, array),
        Decision::Refused(code) => Ok(Decision::Refused(code)),
    }
}

fn staged_patch_call(
    alloc: Global,
    moment: i64,
    outcome: Outcome<Named<Want>, Named<Decision<ArrayPatch>>, DataArrayMessage>,
) -> Result<ArrayOutcome, NoMemory>
    ensures { IfOk result (λ o. o ≡ looks_called (pending.StagedPatch moment) outcome) }
{
    match outcome {
        Outcome::Replies(sendings) => Ok(Outcome::Replies(sendings)),
        Outcome::Calls { call, pending } => Ok(Outcome::Calls {
            call: StoreCall::Look {
                items: sent_values(alloc, call)?,
            },
            pending: ArrayPending::StagedPatch {
                moment,
                items: pending,
            },
        }),
    }
}

fn unstaged_patch_outcome(
    alloc: Global,
    stage: &Option<Stage>,
    moment: i64,
    arrays: Named<PutDataSubarraysType>,
) -> Result<ArrayOutcome, NoMemory>
    ensures { IfOk result (λ o. o ≡ unstaged_patch_outcome stage.now moment arrays) }
{
    let what = ArrayChange::Patch;
    let request = Plain(PatchArrays { stage, moment });
    let reply = Plain(ChangeReply { what });
    let outcome = request_outcome(alloc, &request, &reply, &mut (), arrays)?;
    Ok(ops_call(what, outcome))
}

fn staged_patch_outcome(
    alloc: Global,
    stage: &Option<Stage>,
    moment: i64,
    arrays: Named<PutDataSubarraysType>,
) -> Result<ArrayOutcome, NoMemory>
    ensures { IfOk result (λ o. o ≡ staged_patch_outcome stage.now moment arrays) }
{
    let reply = StagedPatchReply { moment };
    let outcome = request_outcome(alloc, &StagedPatches { stage }, &reply, &mut (), arrays)?;
    staged_patch_call(alloc, moment, outcome)
}

/// What comes of a PutDataSubarrays that isn't refused as a whole.
pub(crate) fn patch_outcome(
    alloc: Global,
    stage: &Option<Stage>,
    moment: i64,
    arrays: Named<PutDataSubarraysType>,
) -> Result<ArrayOutcome, NoMemory>
    ensures { IfOk result (λ o. o ≡ patch_outcome stage.now moment arrays) }
{
    if stage.is_some() {
        return staged_patch_outcome(alloc, stage, moment, arrays);
    }
    unstaged_patch_outcome(alloc, stage, moment, arrays)
}

/// The reply to a PutDataSubarrays in a transaction, by what was seen.
pub(crate) fn staged_patch_reply(
    alloc: Global,
    stage: Option<Stage>,
    moment: i64,
    items: Named<Decision<ArrayPatch>>,
    looks: List<Looked>,
) -> Result<Answered<DataArrayMessage>, NoMemory>
    ensures { IfOk result (λ r. r ≡ scoped_reply (staged_patch moment) 1 (change_response change.Patch) stage items looks) }
{
    seen_reply(alloc, &StagedPatchReply { moment }, stage, items, looks)
}
