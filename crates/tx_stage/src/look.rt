//! What is asked about a value, and what is seen of it.
ghost use Rattle.std.specs.Prelude.{◌≡◌, ◌≤◌, IfOk, None, Some};
ghost use Rattle.std.specs.Option.{option_copied};
ghost use Rattle.etp_values.specs.Weight.{capped};
ghost use Rattle.array_store.specs.Arrays.{size_of, slice_of};
ghost use Rattle.array_store.specs.Refusals.{slice_refusal};
ghost use Rattle.array_store.specs.Shape.{sizes};
ghost use Rattle.tx_stage.specs.Looks.{payload_of, space_seen, known_seen, object_seen, array_seen, slice_seen, shape_seen, memory_or_refused, seen_of, given};

use crate::value::{Value, as_array, as_object, as_space};
use array_store::{
    ArrayError, ArrayKey, ArrayRecord, WeighedArray, array_bytes, array_kind, read_slice,
};
use etp_values::{AnyArray, Copied, DataValue, ErrorCode, List, Named, NoMemory, StoreUri, Text};
use object_store::{ObjectRecord, SpaceRecord};
use std::alloc::Global;

/// The greatest number of bytes of payload that the looks of one call give.
pub const MAX_PAYLOAD: u64 = 67_108_864;

/// What is asked.
#[derive(Debug, Drop, PartialEq, Eq)]
pub enum Want {
    /// A dataspace.
    Space(Text),
    /// Whether there is an object, and since when.
    Known(StoreUri),
    /// An object.
    Object(StoreUri),
    /// An array with all its elements.
    Array(ArrayKey),
    /// The elements of a region of an array.
    Slice {
        key: ArrayKey,
        starts: List<i64>,
        counts: List<i64>,
    },
    /// All of an array but its elements.
    Shape(ArrayKey),
}

/// What is seen.
#[derive(Drop)]
pub enum Looked {
    /// Nothing exists there.
    Missing,
    Space(SpaceRecord),
    Known {
        created: i64,
    },
    Object(ObjectRecord),
    Array(ArrayRecord),
    Slice(AnyArray),
    Shape {
        dims: List<i64>,
        preferred: List<i64>,
        /// The index of the elements' kind among the kinds.
        branch: u32,
        logical: u32,
        custom: Named<DataValue>,
        written: i64,
        created: i64,
    },
    /// A region that the array doesn't have, or more payload than a call gives.
    Refused(ErrorCode),
}

/// How many bytes of payload something seen has: for an object its data, for an array or its region the size of the elements, and for
/// anything else none. A number above `u64::MAX` is `u64::MAX`.
pub fn payload_of(looked: &Looked) -> u64
    ensures { result ≡ capped (payload_of looked.now) }
{
    match looked {
        Looked::Missing => 0,
        Looked::Space(_) => 0,
        Looked::Known { .. } => 0,
        Looked::Object(object) => object.payload.len() as u64,
        Looked::Array(array) => array_bytes(&array.values),
        Looked::Slice(values) => array_bytes(values),
        Looked::Shape { .. } => 0,
        Looked::Refused(_) => 0,
    }
}

pub(crate) fn see_space(alloc: Global, space: Option<&SpaceRecord>) -> Result<Looked, NoMemory>
    ensures { IfOk result (λ l. l ≡ space_seen (option_copied space.entry)) }
{
    let Some(space) = space else {
        return Ok(Looked::Missing);
    };
    Ok(Looked::Space(space.copy(alloc)?))
}

pub(crate) fn see_known(object: Option<&ObjectRecord>) -> Looked
    ensures { result ≡ known_seen (option_copied object.entry) }
{
    let Some(object) = object else {
        return Looked::Missing;
    };
    Looked::Known {
        created: object.created,
    }
}

fn see_object(alloc: Global, object: Option<&ObjectRecord>) -> Result<Looked, NoMemory>
    ensures { IfOk result (λ l. l ≡ object_seen (option_copied object.entry)) }
{
    let Some(object) = object else {
        return Ok(Looked::Missing);
    };
    Ok(Looked::Object(object.copy(alloc)?))
}

fn see_array(alloc: Global, array: Option<&ArrayRecord>) -> Result<Looked, NoMemory>
    ensures { IfOk result (λ l. l ≡ array_seen (option_copied array.entry)) }
{
    let Some(array) = array else {
        return Ok(Looked::Missing);
    };
    Ok(Looked::Array(array.copy(alloc)?))
}

/// How a refusal is seen; running out of memory is not one.
fn memory_or_refused(error: ArrayError) -> Result<Looked, NoMemory>
    ensures { result ≡ memory_or_refused error }
{
    match error {
        ArrayError::Rank => Ok(Looked::Refused(error.code())),
        ArrayError::Outside => Ok(Looked::Refused(error.code())),
        ArrayError::Kind => Ok(Looked::Refused(error.code())),
        ArrayError::Count => Ok(Looked::Refused(error.code())),
        ArrayError::TooLarge => Ok(Looked::Refused(error.code())),
        ArrayError::NoMemory => Err(NoMemory),
    }
}

fn see_slice(
    alloc: Global,
    array: Option<&ArrayRecord>,
    starts: &List<i64>,
    counts: &List<i64>,
) -> Result<Looked, NoMemory>
    ensures { IfOk result (λ l. l ≡ slice_seen starts.now counts.now (option_copied array.entry)) }
{
    let Some(array) = array else {
        return Ok(Looked::Missing);
    };
    match read_slice(alloc, array, starts, counts) {
        Ok(values) => Ok(Looked::Slice(values)),
        Err(error) => memory_or_refused(error),
    }
}

pub(crate) fn see_shape(alloc: Global, array: Option<&ArrayRecord>) -> Result<Looked, NoMemory>
    ensures { IfOk result (λ l. l ≡ shape_seen (option_copied array.entry)) }
{
    let Some(array) = array else {
        return Ok(Looked::Missing);
    };
    Ok(Looked::Shape {
        dims: array.dims.copy(alloc)?,
        preferred: array.preferred.copy(alloc)?,
        branch: array_kind(&array.values),
        logical: array.logical,
        custom: array.custom.copy(alloc)?,
        written: array.written,
        created: array.created,
    })
}

/// What is seen of a value.
pub fn see(alloc: Global, want: &Want, value: Option<&Value>) -> Result<Looked, NoMemory>
    ensures { IfOk result (λ l. l ≡ seen_of want.now (option_copied value.entry)) }
{
    match want {
        Want::Space(_) => see_space(alloc, as_space(value)),
        Want::Known(_) => Ok(see_known(as_object(value))),
        Want::Object(_) => see_object(alloc, as_object(value)),
        Want::Array(_) => see_array(alloc, as_array(value)),
        Want::Slice { starts, counts, .. } => see_slice(alloc, as_array(value), starts, counts),
        Want::Shape(_) => see_shape(alloc, as_array(value)),
    }
}

// ---- with this many bytes of payload left to give

/// An object, unless its data is more than what is left; then it is not copied.
pub(crate) fn give_object(
    alloc: Global,
    object: Option<&ObjectRecord>,
    room: u64,
) -> Result<Looked, NoMemory>
    ensures { IfOk result (λ l. l ≡ given room (object_seen (option_copied object.entry))) }
{
    let Some(object) = object else {
        return Ok(Looked::Missing);
    };
    if object.payload.len() as u64 > room {
        return Ok(Looked::Refused(ErrorCode::LimitExceeded));
    }
    Ok(Looked::Object(object.copy(alloc)?))
}

/// An array, unless its elements are larger than what is left; then they are not copied.
pub(crate) fn give_array(
    alloc: Global,
    array: Option<&WeighedArray>,
    room: u64,
) -> Result<Looked, NoMemory>
    requires { room ≤ MAX_PAYLOAD }
    ensures { IfOk result (λ l. l ≡ given room (array_seen (option_copied array.entry))) }
{
    let Some(array) = array else {
        return Ok(Looked::Missing);
    };
    if array.bytes() > room {
        return Ok(Looked::Refused(ErrorCode::LimitExceeded));
    }
    Ok(Looked::Array(array.as_record().copy(alloc)?))
}

/// The elements of a region, unless they are larger than what is left; then they are not copied.
pub(crate) fn give_slice(
    alloc: Global,
    array: Option<&WeighedArray>,
    starts: &List<i64>,
    counts: &List<i64>,
    room: u64,
) -> Result<Looked, NoMemory>
    requires { room ≤ MAX_PAYLOAD }
    ensures { IfOk result (λ l.
        l ≡ given room (slice_seen starts.now counts.now (option_copied array.entry))) }
{
    let Some(array) = array else {
        return Ok(Looked::Missing);
    };
    match array.slice_bytes(starts, counts) {
        Ok(bytes) => give_region(alloc, array, starts, counts, bytes, room),
        Err(error) => Ok(Looked::Refused(error.code())),
    }
}

/// The elements of a region that the array has, whose size is known.
fn give_region(
    alloc: Global,
    array: &WeighedArray,
    starts: &List<i64>,
    counts: &List<i64>,
    bytes: u64,
    room: u64,
) -> Result<Looked, NoMemory>
    requires room { room ≤ MAX_PAYLOAD }
    requires fits { slice_refusal array.now starts.now counts.now ≡ None }
    requires weighed { bytes ≡ capped (size_of
        (slice_of (sizes array.now.dims) (sizes starts.now) (sizes counts.now) array.now.values)) }
    ensures { IfOk result (λ l. l ≡ given room (slice_seen starts.now counts.now (Some array.now))) }
{
    if bytes > room {
        return Ok(Looked::Refused(ErrorCode::LimitExceeded));
    }
    match array.slice(alloc, starts, counts) {
        Ok(values) => Ok(Looked::Slice(values)),
        Err(_) => Err(NoMemory),
    }
}
