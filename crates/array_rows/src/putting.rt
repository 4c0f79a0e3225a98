//! PutDataArrays.
ghost use Rattle.std.specs.Prelude.{◌≡◌, IfOk};
ghost use Rattle.array_rows.specs.Arrays.{put_outcome, staged_put_outcome, unstaged_put_outcome};
ghost use Rattle.array_store.specs.Refusals.{record_refusal};
ghost use Rattle.array_rows.specs.Changing.{checked_put, op_of, plain_meaning, put_record, put_unless, put_wants, set_array};

use crate::arrays::ArrayOutcome;
use crate::changing::{
    ArrayChange, ArrayPut, ChangeReply, StagedPutReply, ops_call, put_wants, set_array,
    staged_put_call,
};
use crate::naming::named_array;
use crate::sizes::is_custom_large;
use array_store::{ArrayKey, ArrayRecord, record_refusal};
use etp_values::{AnyArray, Copied, DataValue, ErrorCode, List, Named, NoMemory};
use keyed_requests::{Decision, KeyedRequest, Plain, PlainRequest, request_outcome};
use msg_store::{DataArray, PutDataArraysType};
use std::alloc::Global;
use store_machine::Want;
use tx_stage::{Op, Stage};

/// What the elements of each kind mean if nothing else is said, by its index among the logical types: `arrayOfBoolean`, those of signed
/// integers and of floating-point values with the lowest byte first, `arrayOfString`, and `arrayOfUInt8` for bytes.
fn plain_meaning(values: &AnyArray) -> u32
    ensures { result ≡ plain_meaning values.now }
{
    match values {
        AnyArray::ArrayOfBoolean(_) => 0,
        AnyArray::ArrayOfInt(_) => 4,
        AnyArray::ArrayOfLong(_) => 5,
        AnyArray::ArrayOfFloat(_) => 9,
        AnyArray::ArrayOfDouble(_) => 10,
        AnyArray::ArrayOfString(_) => 19,
        AnyArray::Bytes(_) => 2,
    }
}

/// What is stored of an array.
fn put_record(
    alloc: Global,
    array: DataArray,
    custom: Named<DataValue>,
) -> Result<ArrayRecord, NoMemory>
    ensures { IfOk result (λ r. r ≡ put_record array custom) }
{
    let DataArray {
        dimensions,
        payload,
    } = array;
    let preferred = dimensions.copy(alloc)?;
    let logical = plain_meaning(&payload);
    Ok(ArrayRecord {
        dims: dimensions,
        preferred,
        values: payload,
        logical,
        custom,
        written: 0,
        created: 0,
    })
}

/// A named array that is valid, with custom data that are not too large.
fn put_unless(key: ArrayKey, array: ArrayRecord) -> Decision<ArrayPut>
    ensures { result ≡ put_unless (record_refusal array) key array }
{
    if let Some(error) = record_refusal(&array) {
        return Decision::Refused(error.code());
    }
    if is_custom_large(&array.custom) {
        return Decision::Refused(ErrorCode::SizeExceeded);
    }
    Decision::Granted(ArrayPut { key, array })
}

/// An array to be put: its name, its dimensions and elements, and its custom data are tested in this order.
fn checked_put(
    alloc: Global,
    stage: &Option<Stage>,
    item: PutDataArraysType,
) -> Result<Decision<ArrayPut>, NoMemory>
    ensures { IfOk result (λ d. d ≡ checked_put stage.now item) }
{
    let PutDataArraysType {
        uid,
        array,
        custom_data,
    } = item;
    match named_array(alloc, stage, uid)? {
        Decision::Granted(key) => {
            let array = put_record(alloc, array, custom_data)?;
            Ok(put_unless(key, array))
        }
        Decision::Refused(code) => Ok(Decision::Refused(code)),
    }
}

/// The first half without a transaction: each array is put.
#[derive(Drop)]
struct PutArrays<'a> {
    stage: &'a Option<Stage>,
    moment: i64,
}

impl<'a> PlainRequest for PutArrays<'a> {
    type Item = PutDataArraysType;

    type Sent = Op;

    ghost check = { λ put x. op_of (set_array put.moment) (checked_put put.stage.now x) };

    fn check(&self, alloc: Global, item: PutDataArraysType) -> Result<Decision<Op>, NoMemory> {
        match checked_put(alloc, self.stage, item)? {
            Decision::Granted(put) => Ok(Decision::Granted(set_array(self.moment, put))),
            Decision::Refused(code) => Ok(Decision::Refused(code)),
        }
    }
}

/// The first half in a transaction: each array's object and the array are looked at.
#[derive(Drop)]
struct StagedPut<'a> {
    stage: &'a Option<Stage>,
}

impl<'a> KeyedRequest for StagedPut<'a> {
    type Item = PutDataArraysType;

    type Checked = ArrayPut;

    type Kept = ArrayPut;

    type Sent = List<Want>;

    type Checking = ();

    ghost check = { λ put s x. (s, checked_put put.stage.now x) };

    ghost keep = { λ put x. x };

    ghost send = { λ put x. put_wants x };

    fn check(
        &self,
        alloc: Global,
        _state: &mut (),
        item: PutDataArraysType,
    ) -> Result<Decision<ArrayPut>, NoMemory> {
        checked_put(alloc, self.stage, item)
    }

    fn divide(&self, alloc: Global, checked: ArrayPut) -> Result<(ArrayPut, List<Want>), NoMemory> {
        let wants = put_wants(alloc, &checked)?;
        Ok((checked, wants))
    }
}

fn unstaged_put_outcome(
    alloc: Global,
    stage: &Option<Stage>,
    moment: i64,
    arrays: Named<PutDataArraysType>,
) -> Result<ArrayOutcome, NoMemory>
    ensures { IfOk result (λ o. o ≡ unstaged_put_outcome stage.now moment arrays) }
{
    let what = ArrayChange::Put;
    let request = Plain(PutArrays { stage, moment });
    let reply = Plain(ChangeReply { what });
    let outcome = request_outcome(alloc, &request, &reply, &mut (), arrays)?;
    Ok(ops_call(what, outcome))
}

fn staged_put_outcome(
    alloc: Global,
    stage: &Option<Stage>,
    moment: i64,
    arrays: Named<PutDataArraysType>,
) -> Result<ArrayOutcome, NoMemory>
    ensures { IfOk result (λ o. o ≡ staged_put_outcome stage.now moment arrays) }
{
    let what = ArrayChange::Put;
    let reply = StagedPutReply { what, moment };
    let outcome = request_outcome(alloc, &StagedPut { stage }, &reply, &mut (), arrays)?;
    staged_put_call(alloc, what, moment, outcome)
}

/// What comes of a PutDataArrays that isn't refused as a whole.
pub(crate) fn put_outcome(
    alloc: Global,
    stage: &Option<Stage>,
    moment: i64,
    arrays: Named<PutDataArraysType>,
) -> Result<ArrayOutcome, NoMemory>
    ensures { IfOk result (λ o. o ≡ put_outcome stage.now moment arrays) }
{
    if stage.is_some() {
        return staged_put_outcome(alloc, stage, moment, arrays);
    }
    unstaged_put_outcome(alloc, stage, moment, arrays)
}
