//! GetDataArrayMetadata.
ghost use Rattle.std.specs.Prelude.{◌≡◌, IfOk, OnOk, get_or};
ghost use Rattle.array_rows.specs.Arrays.{looks_called, metadata_outcome, staged_metadata_outcome, unstaged_metadata_outcome};
ghost use Rattle.array_rows.specs.Naming.{named_array};
ghost use Rattle.array_rows.specs.Reading.{described, metadata_of, metadata_response, shape_one, shape_seen, staged_shape};
ghost use Rattle.array_rows.specs.declared.arrays.ArrayPending.TheVariants as pending;
ghost use Rattle.keyed_requests.specs.Plain.{nothing};
ghost use Rattle.msg_store.specs.ArrayTypes.{array_types, logical_types};
ghost use Rattle.msg_store.specs.declared.array_types.AnyArrayType.TheVariants as kinds;
ghost use Rattle.msg_store.specs.declared.array_types.AnyLogicalArrayType.TheVariants as meanings;
ghost use Rattle.request_scope.specs.Reply.{scoped_reply};
ghost use Rattle.tx_stage.specs.declared.look.Want.TheVariants as want;

use crate::arrays::{ArrayOutcome, ArrayPending};
use crate::naming::named_array;
use crate::reading::{WholeArrays, array_seen, seen_reply};
use crate::sizes::fitting;
use array_store::{ArrayKey, ArrayRecord, array_kind};
use etp_values::{ErrorCode, List, Named, NoMemory, Text};
use keyed_requests::{
    Decision, KeyedReply, KeyedRequest, Outcome, first_found, request_outcome, sent_values,
};
use msg_store::{
    AnyArrayType, AnyLogicalArrayType, DataArrayIdentifier, DataArrayMessage, DataArrayMetadata,
    GetDataArrayMetadataResponse,
};
use request_scope::{Answered, Scope};
use std::alloc::Global;
use store_machine::{Looked, StoreCall, Want};
use tx_stage::Stage;

/// The first half without a transaction: the elements are not looked at.
#[derive(Drop)]
struct Shapes<'a> {
    stage: &'a Option<Stage>,
}

impl<'a> KeyedRequest for Shapes<'a> {
    type Item = DataArrayIdentifier;

    type Checked = ArrayKey;

    type Kept = ();

    type Sent = Want;

    type Checking = ();

    ghost check = { λ get s id. (s, named_array get.stage.now id) };

    ghost keep = { λ get key. nothing };

    ghost send = { λ get key. want.Shape key };

    fn check(
        &self,
        alloc: Global,
        _state: &mut (),
        item: DataArrayIdentifier,
    ) -> Result<Decision<ArrayKey>, NoMemory> {
        named_array(alloc, self.stage, item)
    }

    fn divide(&self, _alloc: Global, checked: ArrayKey) -> Result<((), Want), NoMemory> {
        Ok(((), Want::Shape(checked)))
    }
}

/// The second half without a transaction.
#[derive(Drop)]
struct ShapesReply {
    limit: u64,
}

impl KeyedReply for ShapesReply {
    type Kept = ();

    type Found = Looked;

    type Given = DataArrayMetadata;

    type Finishing = Scope;

    type Message = DataArrayMessage;

    ghost width = { 1 };

    ghost finish = { λ get s key kept found. shape_one get.limit s key kept found };

    ghost response = { λ get metadata. metadata_response metadata };

    fn width(&self) -> usize {
        1
    }

    fn finish(
        &self,
        _alloc: Global,
        _state: &mut Scope,
        key: &Text,
        _kept: (),
        found: List<Looked>,
    ) -> Result<Decision<DataArrayMetadata>, NoMemory>
        ensures decision { IfOk result (λ d. d ≡ (shape_one self.now.limit _state.old key.now _kept found).1) }
        ensures state { OnOk result (_state.new ≡ (shape_one self.now.limit _state.old key.now _kept found).0) }
    {
        Ok(shape_seen(self.limit, key, first_found(found)))
    }

    fn response(&self, granted: Named<DataArrayMetadata>) -> DataArrayMessage
        ensures { result ≡ metadata_response granted }
    {
        metadata_response(granted)
    }
}

fn metadata_response(array_metadata: Named<DataArrayMetadata>) -> DataArrayMessage
    ensures { result ≡ metadata_response array_metadata }
{
    DataArrayMessage::GetDataArrayMetadataResponse(GetDataArrayMetadataResponse { array_metadata })
}

/// The symbol at an index, or `past` if there are fewer.
fn symbol_at<T: Copy>(symbols: &[T], place: u32, past: T) -> T
    ensures { result ≡ get_or symbols.now place past }
{
    match symbols.get(place as usize) {
        Some(symbol) => *symbol,
        None => past,
    }
}

/// The kind at an index.
fn kind_at(place: u32) -> AnyArrayType
    ensures { result ≡ get_or array_types place kinds.Bytes }
{
    symbol_at(
        &[
            AnyArrayType::ArrayOfBoolean,
            AnyArrayType::ArrayOfInt,
            AnyArrayType::ArrayOfLong,
            AnyArrayType::ArrayOfFloat,
            AnyArrayType::ArrayOfDouble,
            AnyArrayType::ArrayOfString,
            AnyArrayType::Bytes,
        ],
        place,
        AnyArrayType::Bytes,
    )
}

/// The meaning at an index.
fn meaning_at(place: u32) -> AnyLogicalArrayType
    ensures { result ≡ get_or logical_types place meanings.ArrayOfCustom }
{
    symbol_at(
        &[
            AnyLogicalArrayType::ArrayOfBoolean,
            AnyLogicalArrayType::ArrayOfInt8,
            AnyLogicalArrayType::ArrayOfUInt8,
            AnyLogicalArrayType::ArrayOfInt16LE,
            AnyLogicalArrayType::ArrayOfInt32LE,
            AnyLogicalArrayType::ArrayOfInt64LE,
            AnyLogicalArrayType::ArrayOfUInt16LE,
            AnyLogicalArrayType::ArrayOfUInt32LE,
            AnyLogicalArrayType::ArrayOfUInt64LE,
            AnyLogicalArrayType::ArrayOfFloat32LE,
            AnyLogicalArrayType::ArrayOfDouble64LE,
            AnyLogicalArrayType::ArrayOfInt16BE,
            AnyLogicalArrayType::ArrayOfInt32BE,
            AnyLogicalArrayType::ArrayOfInt64BE,
            AnyLogicalArrayType::ArrayOfUInt16BE,
            AnyLogicalArrayType::ArrayOfUInt32BE,
            AnyLogicalArrayType::ArrayOfUInt64BE,
            AnyLogicalArrayType::ArrayOfFloat32BE,
            AnyLogicalArrayType::ArrayOfDouble64BE,
            AnyLogicalArrayType::ArrayOfString,
            AnyLogicalArrayType::ArrayOfCustom,
        ],
        place,
        AnyLogicalArrayType::ArrayOfCustom,
    )
}

/// What is known about an array, as the store saw it.
fn shape_seen(limit: u64, key: &Text, seen: Option<Looked>) -> Decision<DataArrayMetadata>
    ensures { result ≡ shape_seen limit key.now seen }
{
    match seen {
        Some(
            Looked::Shape {
                dims,
                preferred,
                branch,
                logical,
                custom,
                written,
                created,
            },
        ) => {
            let metadata = DataArrayMetadata {
                dimensions: dims,
                preferred_subarray_dimensions: preferred,
                transport_array_type: kind_at(branch),
                logical_array_type: meaning_at(logical),
                store_last_write: written,
                store_created: created,
                custom_data: custom,
            };
            fitting(limit, key, metadata)
        }
        Some(Looked::Missing) => Decision::Refused(ErrorCode::NotFound),
        Some(Looked::Refused(code)) => Decision::Refused(code),
        _ => Decision::Refused(ErrorCode::RequestDenied),
    }
}

/// What is known about an array apart from its elements.
fn metadata_of(array: ArrayRecord) -> DataArrayMetadata
    ensures { result ≡ metadata_of array }
{
    let branch = array_kind(&array.values);
    let ArrayRecord {
        dims,
        preferred,
        logical,
        custom,
        written,
        created,
        ..
    } = array;
    DataArrayMetadata {
        dimensions: dims,
        preferred_subarray_dimensions: preferred,
        transport_array_type: kind_at(branch),
        logical_array_type: meaning_at(logical),
        store_last_write: written,
        store_created: created,
        custom_data: custom,
    }
}

/// What is known about an existing array, if its elements are counted.
fn described(
    limit: u64,
    scope: &mut Scope,
    key: &Text,
    seen: Decision<ArrayRecord>,
) -> Decision<DataArrayMetadata>
    ensures decision { result ≡ (described limit scope.old key.now seen).1 }
    ensures state { scope.new ≡ (described limit scope.old key.now seen).0 }
{
    match seen {
        Decision::Granted(array) => {
            if !scope.pay_elements(&array.values) {
                return Decision::Refused(ErrorCode::LimitExceeded);
            }
            fitting(limit, key, metadata_of(array))
        }
        Decision::Refused(code) => Decision::Refused(code),
    }
}

/// The second half in a transaction: for the arrays with the staged operations applied.
#[derive(Drop)]
struct StagedShapesReply {
    limit: u64,
}

impl KeyedReply for StagedShapesReply {
    type Kept = ArrayKey;

    type Found = Looked;

    type Given = DataArrayMetadata;

    type Finishing = Scope;

    type Message = DataArrayMessage;

    ghost width = { 1 };

    ghost finish = { λ get s key k found. staged_shape get.limit s key k found };

    ghost response = { λ get metadata. metadata_response metadata };

    fn width(&self) -> usize {
        1
    }

    fn finish(
        &self,
        alloc: Global,
        state: &mut Scope,
        key: &Text,
        kept: ArrayKey,
        found: List<Looked>,
    ) -> Result<Decision<DataArrayMetadata>, NoMemory>
        ensures decision { IfOk result (λ d. d ≡ (staged_shape self.now.limit state.old key.now kept found).1) }
        ensures state { OnOk result (state.new ≡ (staged_shape self.now.limit state.old key.now kept found).0) }
    {
        let seen = array_seen(alloc, state, &kept, first_found(found))?;
        Ok(described(self.limit, state, key, seen))
    }

    fn response(&self, granted: Named<DataArrayMetadata>) -> DataArrayMessage
        ensures { result ≡ metadata_response granted }
    {
        metadata_response(granted)
    }
}

fn metadata_call(
    alloc: Global,
    outcome: Outcome<Named<Want>, Named<Decision<()>>, DataArrayMessage>,
) -> Result<ArrayOutcome, NoMemory>
    ensures { IfOk result (λ o. o ≡ looks_called pending.Shape outcome) }
{
    match outcome {
        Outcome::Replies(sendings) => Ok(Outcome::Replies(sendings)),
        Outcome::Calls { call, pending } => Ok(Outcome::Calls {
            call: StoreCall::Look {
                items: sent_values(alloc, call)?,
            },
            pending: ArrayPending::Shape { items: pending },
        }),
    }
}

fn staged_metadata_call(
    alloc: Global,
    outcome: Outcome<Named<Want>, Named<Decision<ArrayKey>>, DataArrayMessage>,
) -> Result<ArrayOutcome, NoMemory>
    ensures { IfOk result (λ o. o ≡ looks_called pending.StagedShape outcome) }
{
    match outcome {
        Outcome::Replies(sendings) => Ok(Outcome::Replies(sendings)),
        Outcome::Calls { call, pending } => Ok(Outcome::Calls {
            call: StoreCall::Look {
                items: sent_values(alloc, call)?,
            },
            pending: ArrayPending::StagedShape { items: pending },
        }),
    }
}

fn unstaged_metadata_outcome(
    alloc: Global,
    stage: &Option<Stage>,
    ids: Named<DataArrayIdentifier>,
) -> Result<ArrayOutcome, NoMemory>
    ensures { IfOk result (λ o. o ≡ unstaged_metadata_outcome stage.now ids) }
{
    // The first half makes no part, so any limit works.
    let reply = ShapesReply { limit: 0 };
    let outcome = request_outcome(alloc, &Shapes { stage }, &reply, &mut (), ids)?;
    metadata_call(alloc, outcome)
}

fn staged_metadata_outcome(
    alloc: Global,
    stage: &Option<Stage>,
    ids: Named<DataArrayIdentifier>,
) -> Result<ArrayOutcome, NoMemory>
    ensures { IfOk result (λ o. o ≡ staged_metadata_outcome stage.now ids) }
{
    // The first half makes no part, so any limit works.
    let reply = StagedShapesReply { limit: 0 };
    let outcome = request_outcome(alloc, &WholeArrays { stage }, &reply, &mut (), ids)?;
    staged_metadata_call(alloc, outcome)
}

/// What comes of a GetDataArrayMetadata whose keys are within the limits.
pub(crate) fn metadata_outcome(
    alloc: Global,
    stage: &Option<Stage>,
    ids: Named<DataArrayIdentifier>,
) -> Result<ArrayOutcome, NoMemory>
    ensures { IfOk result (λ o. o ≡ metadata_outcome stage.now ids) }
{
    if stage.is_some() {
        return staged_metadata_outcome(alloc, stage, ids);
    }
    unstaged_metadata_outcome(alloc, stage, ids)
}

/// The reply to a GetDataArrayMetadata outside a transaction, by what was seen.
pub(crate) fn metadata_reply(
    alloc: Global,
    limit: u64,
    stage: Option<Stage>,
    items: Named<Decision<()>>,
    looks: List<Looked>,
) -> Result<Answered<DataArrayMessage>, NoMemory>
    ensures { IfOk result (λ r. r ≡ scoped_reply (shape_one limit) 1 metadata_response stage items looks) }
{
    seen_reply(alloc, &ShapesReply { limit }, stage, items, looks)
}

/// The reply to a GetDataArrayMetadata in a transaction, by what was seen.
pub(crate) fn staged_metadata_reply(
    alloc: Global,
    limit: u64,
    stage: Option<Stage>,
    items: Named<Decision<ArrayKey>>,
    looks: List<Looked>,
) -> Result<Answered<DataArrayMessage>, NoMemory>
    ensures { IfOk result (λ r. r ≡ scoped_reply (staged_shape limit) 1 metadata_response stage items looks) }
{
    seen_reply(alloc, &StagedShapesReply { limit }, stage, items, looks)
}
