//! PutUninitializedDataArrays.
ghost use Rattle.std.specs.Prelude.{◌≡◌, ◌≤◌, [], IfOk, OnOk, replicate};
ghost use Rattle.array_rows.specs.Arrays.{make_outcome, staged_make_outcome, unstaged_make_outcome};
ghost use Rattle.array_rows.specs.Changing.{checked_made, is_preferred, made_of, made_record, made_within, put_wants, set_array, zero_size, zeros};
ghost use Rattle.keyed_requests.specs.Plain.{nothing};
ghost use Rattle.msg_store.specs.ArrayTypes.{logical_type_place};

use crate::arrays::ArrayOutcome;
use crate::changing::{
    ArrayChange, ArrayPut, ChangeReply, StagedPutReply, ops_call, put_wants, set_array,
    staged_put_call,
};
use crate::naming::named_array;
use crate::sizes::is_custom_large;
use array_store::{ArrayError, ArrayKey, ArrayRecord, dims};
use etp_values::{AnyArray, Bits32, Bits64, Blob, ErrorCode, List, Named, NoMemory, Text};
use keyed_requests::{Decision, KeyedRequest, Plain, request_outcome};
use msg_store::{
    AnyArrayType, AnyLogicalArrayType, DataArrayMetadata, PutUninitializedDataArrayType,
};
use std::alloc::Global;
use store_machine::Want;
use tx_stage::{Op, Stage};

/// The greatest total size of the elements that one request creates, in bytes.
pub const MAX_MADE_BYTES: u64 = 67_108_864;

/// A value, repeated `count` times.
#[tactic(auto, using(std::proofs::lemmas::List::replicate_more))]
fn repeated<T: Copy + Drop>(alloc: Global, value: T, count: u64) -> Result<Vec<T>, NoMemory>
    ensures { IfOk result (λ v. v.items ≡ replicate count value) }
{
    let mut values = Vec::new(alloc);
    for _i in 0..count {
        values.push(value)?;
    }
    Ok(values)
}

/// The empty text, repeated `count` times.
#[tactic(auto, using(std::proofs::lemmas::List::replicate_more))]
fn empty_texts(alloc: Global, count: u64) -> Result<List<Text>, NoMemory>
    ensures { IfOk result (λ l. l ≡ replicate count []) }
{
    let mut texts = Vec::new(alloc);
    for _i in 0..count {
        texts.push(Text::new(alloc))?;
    }
    Ok(List::from_vec(texts))
}

/// `count` elements of a kind: false, 0, the empty text or the byte 0.
fn zeros(alloc: Global, kind: AnyArrayType, count: u64) -> Result<AnyArray, NoMemory>
    ensures { IfOk result (λ a. a ≡ zeros kind count) }
{
    match kind {
        AnyArrayType::ArrayOfBoolean => Ok(AnyArray::ArrayOfBoolean(List::from_vec(repeated(
            alloc, false, count,
        )?))),
        AnyArrayType::ArrayOfInt => Ok(AnyArray::ArrayOfInt(List::from_vec(repeated(
            alloc, 0, count,
        )?))),
        AnyArrayType::ArrayOfLong => Ok(AnyArray::ArrayOfLong(List::from_vec(repeated(
            alloc, 0, count,
        )?))),
        AnyArrayType::ArrayOfFloat => Ok(AnyArray::ArrayOfFloat(List::from_vec(repeated(
            alloc,
            Bits32(0),
            count,
        )?))),
        AnyArrayType::ArrayOfDouble => Ok(AnyArray::ArrayOfDouble(List::from_vec(repeated(
            alloc,
            Bits64(0),
            count,
        )?))),
        AnyArrayType::ArrayOfString => { Ok(AnyArray::ArrayOfString(empty_texts(alloc, count)?)) }
        AnyArrayType::Bytes => Ok(AnyArray::Bytes(Blob::from_vec(repeated(alloc, 0, count)?)?)),
    }
}

/// The size of an element of a kind.
fn zero_size(kind: AnyArrayType) -> u64
    ensures is { result ≡ zero_size kind }
    ensures small { result ≤ 8 }
{
    match kind {
        AnyArrayType::ArrayOfBoolean => 1,
        AnyArrayType::ArrayOfInt => 4,
        AnyArrayType::ArrayOfLong => 8,
        AnyArrayType::ArrayOfFloat => 4,
        AnyArrayType::ArrayOfDouble => 8,
        AnyArrayType::ArrayOfString => 8,
        AnyArrayType::Bytes => 1,
    }
}

/// The index of a meaning among the logical types.
fn meaning_place(meaning: AnyLogicalArrayType) -> u32
    ensures { result ≡ logical_type_place meaning }
{
    match meaning {
        AnyLogicalArrayType::ArrayOfBoolean => 0,
        AnyLogicalArrayType::ArrayOfInt8 => 1,
        AnyLogicalArrayType::ArrayOfUInt8 => 2,
        AnyLogicalArrayType::ArrayOfInt16LE => 3,
        AnyLogicalArrayType::ArrayOfInt32LE => 4,
        AnyLogicalArrayType::ArrayOfInt64LE => 5,
        AnyLogicalArrayType::ArrayOfUInt16LE => 6,
        AnyLogicalArrayType::ArrayOfUInt32LE => 7,
        AnyLogicalArrayType::ArrayOfUInt64LE => 8,
        AnyLogicalArrayType::ArrayOfFloat32LE => 9,
        AnyLogicalArrayType::ArrayOfDouble64LE => 10,
        AnyLogicalArrayType::ArrayOfInt16BE => 11,
        AnyLogicalArrayType::ArrayOfInt32BE => 12,
        AnyLogicalArrayType::ArrayOfInt64BE => 13,
        AnyLogicalArrayType::ArrayOfUInt16BE => 14,
        AnyLogicalArrayType::ArrayOfUInt32BE => 15,
        AnyLogicalArrayType::ArrayOfUInt64BE => 16,
        AnyLogicalArrayType::ArrayOfFloat32BE => 17,
        AnyLogicalArrayType::ArrayOfDouble64BE => 18,
        AnyLogicalArrayType::ArrayOfString => 19,
        AnyLogicalArrayType::ArrayOfCustom => 20,
    }
}

/// What is stored of an array with this many elements.
fn made_record(
    alloc: Global,
    metadata: DataArrayMetadata,
    count: u64,
) -> Result<ArrayRecord, NoMemory>
    ensures { IfOk result (λ r. r ≡ made_record metadata count) }
{
    let DataArrayMetadata {
        dimensions,
        preferred_subarray_dimensions,
        transport_array_type,
        logical_array_type,
        custom_data,
        ..
    } = metadata;
    Ok(ArrayRecord {
        dims: dimensions,
        preferred: preferred_subarray_dimensions,
        values: zeros(alloc, transport_array_type, count)?,
        logical: meaning_place(logical_array_type),
        custom: custom_data,
        written: 0,
        created: 0,
    })
}

/// Whether there are no preferred dimensions, or as many as dimensions.
fn is_preferred(metadata: &DataArrayMetadata) -> bool
    ensures { result ≡ is_preferred metadata.now }
{
    let preferred = metadata.preferred_subarray_dimensions.len();
    preferred == 0 || preferred == metadata.dimensions.len()
}

/// An array of this many elements, if those of the granted keys have the size `sum`.
fn made_within(
    alloc: Global,
    sum: &mut u64,
    key: ArrayKey,
    metadata: DataArrayMetadata,
    count: u64,
) -> Result<Decision<ArrayPut>, NoMemory>
    ensures decision { IfOk result (λ d. d ≡ (made_within sum.old key metadata count).1) }
    ensures state { OnOk result (sum.new ≡ (made_within sum.old key metadata count).0) }
{
    let bytes = zero_size(metadata.transport_array_type).saturating_mul(count);
    let after = sum.saturating_add(bytes);
    if after > MAX_MADE_BYTES {
        return Ok(Decision::Refused(ErrorCode::SizeExceeded));
    }
    if is_custom_large(&metadata.custom_data) {
        return Ok(Decision::Refused(ErrorCode::SizeExceeded));
    }
    let array = made_record(alloc, metadata, count)?;
    *sum = after;
    Ok(Decision::Granted(ArrayPut { key, array }))
}

/// An array of these dimensions, if an array can have them.
fn made_of(
    alloc: Global,
    sum: &mut u64,
    key: ArrayKey,
    metadata: DataArrayMetadata,
    counted: Result<u64, ArrayError>,
) -> Result<Decision<ArrayPut>, NoMemory>
    ensures decision { IfOk result (λ d. d ≡ (made_of sum.old key metadata counted).1) }
    ensures state { OnOk result (sum.new ≡ (made_of sum.old key metadata counted).0) }
{
    match counted {
        Ok(count) => {
            if !is_preferred(&metadata) {
                return Ok(Decision::Refused(ErrorCode::InvalidArgument));
            }
            made_within(alloc, sum, key, metadata, count)
        }
        Err(error) => Ok(Decision::Refused(error.code())),
    }
}

/// An array to be created: its name, its dimensions, the preferred ones, the elements of the request and its custom data are tested in this
/// order.
fn checked_made(
    alloc: Global,
    stage: &Option<Stage>,
    sum: &mut u64,
    item: PutUninitializedDataArrayType,
) -> Result<Decision<ArrayPut>, NoMemory>
    ensures decision { IfOk result (λ d. d ≡ (checked_made stage.now sum.old item).1) }
    ensures state { OnOk result (sum.new ≡ (checked_made stage.now sum.old item).0) }
{
    let PutUninitializedDataArrayType { uid, metadata } = item;
    match named_array(alloc, stage, uid)? {
        Decision::Granted(key) => {
            let counted = dims(&metadata.dimensions, None);
            made_of(alloc, sum, key, metadata, counted)
        }
        Decision::Refused(code) => Ok(Decision::Refused(code)),
    }
}

/// The first half without a transaction: each array is put. The size of the elements of the granted keys is passed on.
#[derive(Drop)]
struct MakeArrays<'a> {
    stage: &'a Option<Stage>,
    moment: i64,
}

impl<'a> KeyedRequest for MakeArrays<'a> {
    type Item = PutUninitializedDataArrayType;

    type Checked = ArrayPut;

    type Kept = ();

    type Sent = Op;

    type Checking = u64;

    ghost check = { λ make sum x. checked_made make.stage.now sum x };

    ghost keep = { λ make x. nothing };

    ghost send = { λ make x. set_array make.moment x };

    fn check(
        &self,
        alloc: Global,
        state: &mut u64,
        item: PutUninitializedDataArrayType,
    ) -> Result<Decision<ArrayPut>, NoMemory> {
        checked_made(alloc, self.stage, state, item)
    }

    fn divide(&self, _alloc: Global, checked: ArrayPut) -> Result<((), Op), NoMemory> {
        Ok(((), set_array(self.moment, checked)))
    }
}

/// The first half in a transaction: each array's object and the array are looked at.
#[derive(Drop)]
struct StagedMake<'a> {
    stage: &'a Option<Stage>,
}

impl<'a> KeyedRequest for StagedMake<'a> {
    type Item = PutUninitializedDataArrayType;

    type Checked = ArrayPut;

    type Kept = ArrayPut;

    type Sent = List<Want>;

    type Checking = u64;

    ghost check = { λ make sum x. checked_made make.stage.now sum x };

    ghost keep = { λ make x. x };

    ghost send = { λ make x. put_wants x };

    fn check(
        &self,
        alloc: Global,
        state: &mut u64,
        item: PutUninitializedDataArrayType,
    ) -> Result<Decision<ArrayPut>, NoMemory> {
        checked_made(alloc, self.stage, state, item)
    }

    fn divide(&self, alloc: Global, checked: ArrayPut) -> Result<(ArrayPut, List<Want>), NoMemory> {
        let wants = put_wants(alloc, &checked)?;
        Ok((checked, wants))
    }
}

fn unstaged_make_outcome(
    alloc: Global,
    stage: &Option<Stage>,
    moment: i64,
    arrays: Named<PutUninitializedDataArrayType>,
) -> Result<ArrayOutcome, NoMemory>
    ensures { IfOk result (λ o. o ≡ unstaged_make_outcome stage.now moment arrays) }
{
    let what = ArrayChange::Make;
    let request = MakeArrays { stage, moment };
    let reply = Plain(ChangeReply { what });
    let outcome = request_outcome(alloc, &request, &reply, &mut 0, arrays)?;
    Ok(ops_call(what, outcome))
}

fn staged_make_outcome(
    alloc: Global,
    stage: &Option<Stage>,
    moment: i64,
    arrays: Named<PutUninitializedDataArrayType>,
) -> Result<ArrayOutcome, NoMemory>
    ensures { IfOk result (λ o. o ≡ staged_make_outcome stage.now moment arrays) }
{
    let what = ArrayChange::Make;
    let reply = StagedPutReply { what, moment };
    let outcome = request_outcome(alloc, &StagedMake { stage }, &reply, &mut 0, arrays)?;
    staged_put_call(alloc, what, moment, outcome)
}

/// What comes of a PutUninitializedDataArrays that isn't refused as a whole.
pub(crate) fn make_outcome(
    alloc: Global,
    stage: &Option<Stage>,
    moment: i64,
    arrays: Named<PutUninitializedDataArrayType>,
) -> Result<ArrayOutcome, NoMemory>
    ensures { IfOk result (λ o. o ≡ make_outcome stage.now moment arrays) }
{
    if stage.is_some() {
        return staged_make_outcome(alloc, stage, moment, arrays);
    }
    unstaged_make_outcome(alloc, stage, moment, arrays)
}
