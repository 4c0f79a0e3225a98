//! A message that awaits the data of its objects.
ghost use Rattle.std.specs.Prelude.{◌≡◌, ◌<◌, ◌≤◌, ◌+◌, ◌++◌, Ok, IfOk, IfErr, Some, None, true, false, length, nat_lt, if◌then◌else◌};
ghost use Rattle.std.specs.List.{list_any};
ghost use Rattle.etp_values.specs.Gives.{Gives};
ghost use Rattle.etp_frame.specs.Joining.{came, chunk_came, carried, chunk_refusal, grows, with_piece, is_double, is_blob, is_other, awaits, data_size, data_limit, fed};
ghost use Rattle.etp_frame.specs.Kept.{FindsEach, IsPlace, PlacesOf, AddsPlace, last_piece, filled_at, awaiting};
ghost use Rattle.etp_frame.specs.declared.joining.JoinError.TheVariants as e;
ghost use Rattle.etp_frame.specs.declared.joining.Joined.TheVariants as j;

use crate::joining::{JoinError, Joined};
use crate::message::Message;
use etp_values::{Blob, Boxed, Id16, Named, NoMemory, Text};
use msg_store::{Chunk, DataObject, GetDataObjectsResponse, PutDataObjects, StoreMessage};
use std::alloc::Global;
use std::collections::BTreeMap;
use std::marker::Model;

/// Which message carries objects.
#[derive(Clone, Copy, Debug, PartialEq, Eq, Drop)]
pub enum Carrier {
    /// A PutDataObjects, with its flag for contained objects.
    Put(bool),
    /// A GetDataObjectsResponse.
    Reply,
}

/// A message that awaits data. A table finds the object that awaits a blob, since one message can have very many; and the pieces of the
/// current blob are gathered in one vector, which becomes the object's data with the last of them.
#[derive(Drop)]
pub(crate) struct Awaiting {
    correlation: i64,
    carrier: Carrier,
    objects: Vec<(Text, DataObject)>,
    places: BTreeMap<Id16, usize>,
    left: u64,
    size: u64,
    begun: Option<Id16>,
    pieces: Vec<u8>,
}

impl Model for Awaiting {
    ghost use Rattle.etp_frame.specs.Joining.{Awaited};
    ghost use Rattle.etp_frame.specs.Kept.{IsKept, gathered};

    ghost Value = { Awaited };

    ghost view = { λ a. record { correlation = a.correlation; carrier = a.carrier; objects = gathered a.begun a.pieces.items a.objects.items; begun = a.begun } };

    ghost invariant = { λ a. IsKept a.places.entries a.left a.size a.begun a.pieces.items a.objects.items };
}

/// The maximum total size of the data of one message's objects, in bytes.
const DATA_LIMIT: u64 = 67_108_864;

impl Awaiting {
    /// The correlation of the chunks that are awaited.
    pub(crate) fn correlation(&self) -> i64
        ensures { result ≡ self.now.correlation }
    {
        self.correlation
    }

    /// Why a chunk is refused, if it is.
    fn refusal(&self, correlation: i64, chunk: &Chunk) -> Option<JoinError>
        ensures { result ≡ chunk_refusal self.now correlation chunk.now }
    {
        if correlation != self.correlation {
            return Some(JoinError::WrongBlob);
        }
        if !is_awaited(&self.places, &self.objects, chunk.blob_id) {
            return Some(JoinError::WrongBlob);
        }
        if is_other(self.begun, chunk.blob_id) {
            return Some(JoinError::Interleaved);
        }
        if self.size + chunk.payload.len() as u64 > DATA_LIMIT {
            return Some(JoinError::TooLong);
        }
        None
    }

    /// Takes a chunk that is not refused.
    fn grow(self, alloc: Global, chunk: Chunk) -> Result<(Joined, Option<Awaiting>), JoinError>
        requires awaited { list_any (awaits chunk.blob_id) self.objects ≡ true }
        requires begun { is_other self.begun chunk.blob_id ≡ false }
        requires size { data_size self.objects + length chunk.payload ≤ data_limit }
        ensures ok { IfOk result (λ r. r ≡ grows (with_piece self chunk)) }
        ensures err { IfErr result (λ x. x ≡ e.NoMemory) }
    {
        let Awaiting {
            correlation,
            carrier,
            objects,
            places,
            left,
            size,
            begun: _,
            pieces,
        } = self;
        let size = size + chunk.payload.len() as u64;
        let pieces = match appended(pieces, chunk.payload.as_bytes()) {
            Ok(pieces) => pieces,
            Err(_) => return Err(JoinError::NoMemory),
        };
        if !chunk.last {
            let awaiting = Awaiting {
                correlation,
                carrier,
                objects,
                places,
                left,
                size,
                begun: Some(chunk.blob_id),
                pieces,
            };
            return Ok((Joined::More, Some(awaiting)));
        }
        let objects = match finished(&places, objects, chunk.blob_id, pieces) {
            Ok(objects) => objects,
            Err(_) => return Err(JoinError::NoMemory),
        };
        if left == 1 {
            return brought(alloc, carrier, Named::from_sorted(objects));
        }
        let awaiting = Awaiting {
            correlation,
            carrier,
            objects,
            places,
            left: left - 1,
            size,
            begun: None,
            pieces: Vec::new(alloc),
        };
        Ok((Joined::More, Some(awaiting)))
    }
}

/// Whether an object awaits a blob.
fn is_awaited(places: &BTreeMap<Id16, usize>, objects: &[(Text, DataObject)], id: Id16) -> bool
    requires { FindsEach places.now.entries objects.now }
    ensures { result ≡ list_any (awaits id) objects.now }
{
    match place_of(places, objects, id) {
        Some(_) => true,
        None => false,
    }
}

/// The index of the object that awaits a blob, if one does.
fn place_of(
    places: &BTreeMap<Id16, usize>,
    objects: &[(Text, DataObject)],
    id: Id16,
) -> Option<usize>
    requires { FindsEach places.now.entries objects.now }
    ensures { IsPlace result id objects.now }
{
    let place = match places.get(&id) {
        Some(place) => *place,
        None => return None,
    };
    if has_blob(&objects[place].1, id) {
        return Some(place);
    }
    None
}

/// Whether the object awaits this blob.
fn has_blob(object: &DataObject, id: Id16) -> bool
    ensures { result ≡ is_blob object.now.blob_id id }
{
    match object.blob_id {
        Some(own) => own == id,
        None => false,
    }
}

/// Whether a blob other than this one has begun.
fn is_other(begun: Option<Id16>, id: Id16) -> bool
    ensures { result ≡ is_other begun id }
{
    match begun {
        Some(begun) => begun != id,
        None => false,
    }
}

/// The pieces followed by one more.
fn appended(mut pieces: Vec<u8>, piece: &[u8]) -> Result<Vec<u8>, NoMemory>
    ensures { IfOk result (λ v. v.items ≡ pieces.items ++ piece.now) }
{
    pieces.extend_from_slice(piece)?;
    Ok(pieces)
}

/// The objects, with these data for the one that awaits this blob.
fn finished(
    places: &BTreeMap<Id16, usize>,
    objects: Vec<(Text, DataObject)>,
    id: Id16,
    pieces: Vec<u8>,
) -> Result<Vec<(Text, DataObject)>, NoMemory>
    requires finds { FindsEach places.now.entries objects.items }
    requires single { list_any is_double objects.items ≡ false }
    ensures { IfOk result (λ v. v.items ≡ fed objects.items (last_piece id pieces.items)) }
{
    let payload = Blob::from_vec(pieces)?;
    match place_of(places, &objects, id) {
        Some(place) => Ok(filled(objects, place, payload)),
        None => Ok(objects),
    }
}

/// The objects, with these data for the one at an index.
fn filled(
    mut objects: Vec<(Text, DataObject)>,
    place: usize,
    payload: Blob,
) -> Vec<(Text, DataObject)>
    requires { place < length objects.items }
    ensures { result.items ≡ filled_at place payload objects.items }
{
    let object = &mut objects[place].1;
    object.blob_id = None;
    object.payload = payload;
    objects
}

/// The message that carries these objects.
fn carried(alloc: Global, carrier: Carrier, objects: Named<DataObject>) -> Result<Message, NoMemory>
    ensures { IfOk result (λ message. message ≡ carried carrier objects) }
{
    let message = match carrier {
        Carrier::Put(prune) => StoreMessage::PutDataObjects(PutDataObjects {
            data_objects: objects,
            prune_contained_objects: prune,
        }),
        Carrier::Reply => StoreMessage::GetDataObjectsResponse(GetDataObjectsResponse {
            data_objects: objects,
        }),
    };
    Ok(Message::Store(Boxed::new(alloc, message)?))
}

/// The whole message that carries these objects; then nothing is awaited.
fn brought(
    alloc: Global,
    carrier: Carrier,
    objects: Named<DataObject>,
) -> Result<(Joined, Option<Awaiting>), JoinError>
    ensures gives { Gives e.NoMemory result (Ok (j.Whole (carried carrier objects), None)) }
    ensures ok { IfOk result (λ r. r ≡ (j.Whole (carried carrier objects), None)) }
    ensures err { IfErr result (λ x. x ≡ e.NoMemory) }
{
    match carried(alloc, carrier, objects) {
        Ok(message) => Ok((Joined::Whole(message), None)),
        Err(_) => Err(JoinError::NoMemory),
    }
}

/// Takes a chunk.
pub(crate) fn chunk_came(
    alloc: Global,
    awaited: Option<Awaiting>,
    correlation: i64,
    chunk: Chunk,
) -> Result<(Joined, Option<Awaiting>), JoinError>
    ensures { Gives e.NoMemory result (chunk_came awaited correlation chunk) }
{
    let Some(awaiting) = awaited else {
        return Err(JoinError::NoBlob);
    };
    if let Some(error) = awaiting.refusal(correlation, &chunk) {
        return Err(error);
    }
    awaiting.grow(alloc, chunk)
}

/// Takes a message with objects.
pub(crate) fn came(
    alloc: Global,
    awaited: Option<Awaiting>,
    correlation: i64,
    carrier: Carrier,
    objects: Named<DataObject>,
) -> Result<(Joined, Option<Awaiting>), JoinError>
    ensures { Gives e.NoMemory result (came awaited correlation carrier objects) }
{
    let places = match blob_places(alloc, objects.as_slice()) {
        Ok(Some(places)) => places,
        Ok(None) => return Err(JoinError::WrongBlob),
        Err(_) => return Err(JoinError::NoMemory),
    };
    if has_double(objects.as_slice()) {
        return Err(JoinError::WrongBlob);
    }
    if awaited.is_some() {
        return Err(JoinError::Interleaved);
    }
    let Some(size) = sum_data(objects.as_slice()) else {
        return Err(JoinError::TooLong);
    };
    opened(alloc, correlation, carrier, objects, places, size)
}

/// What comes of a message with such objects if nothing is awaited.
fn opened(
    alloc: Global,
    correlation: i64,
    carrier: Carrier,
    objects: Named<DataObject>,
    places: BTreeMap<Id16, usize>,
    size: u64,
) -> Result<(Joined, Option<Awaiting>), JoinError>
    requires finds { FindsEach places.entries objects }
    requires single { list_any is_double objects ≡ false }
    requires size { size ≡ data_size objects }
    requires small { data_size objects ≤ data_limit }
    ensures { Gives e.NoMemory result (Ok (grows (record { correlation = correlation; carrier = carrier; objects = objects; begun = None }))) }
{
    let left = count_awaiting(objects.as_slice());
    if left == 0 {
        return brought(alloc, carrier, objects);
    }
    let awaiting = Awaiting {
        correlation,
        carrier,
        objects: objects.into_vec(),
        places,
        left,
        size,
        begun: None,
        pieces: Vec::new(alloc),
    };
    Ok((Joined::More, Some(awaiting)))
}

/// How many objects await a blob.
fn count_awaiting(objects: &[(Text, DataObject)]) -> u64
    ensures { result ≡ awaiting objects.now }
{
    let mut count = 0;
    for (_, object) in objects {
        if object.blob_id.is_some() {
            count += 1;
        }
    }
    count
}

/// Whether an object awaits a blob although it has data.
fn has_double(objects: &[(Text, DataObject)]) -> bool
    ensures { result ≡ list_any is_double objects.now }
{
    for (_, object) in objects {
        if object.blob_id.is_some() && !object.payload.is_empty() {
            return true;
        }
    }
    false
}

/// How many bytes of data the objects have together; `None` if that is too many.
fn sum_data(objects: &[(Text, DataObject)]) -> Option<u64>
    ensures { result ≡ (if nat_lt data_limit (data_size objects.now) then None else Some (data_size objects.now)) }
{
    let mut size = 0;
    for (_, object) in objects {
        size += object.payload.len() as u64;
        if size > DATA_LIMIT {
            return None;
        }
    }
    Some(size)
}

/// The indexes of the objects that await a blob, by blob; `None` if two await the same.
fn blob_places(
    alloc: Global,
    objects: &[(Text, DataObject)],
) -> Result<Option<BTreeMap<Id16, usize>>, NoMemory>
    ensures { IfOk result (λ r. PlacesOf r objects.now) }
{
    let mut places = BTreeMap::new(alloc);
    let mut place = objects.len();
    while place > 0 {
        place -= 1;
        if !add_place(&mut places, &objects[place].1, place)? {
            return Ok(None);
        }
    }
    Ok(Some(places))
}

/// Adds the index of an object, if it awaits a blob. Returns false if the blob has an index already.
fn add_place(
    places: &mut BTreeMap<Id16, usize>,
    object: &DataObject,
    place: usize,
) -> Result<bool, NoMemory>
    ensures { IfOk result (λ new. AddsPlace new object.now.blob_id place places.old.entries places.new.entries) }
{
    let Some(id) = object.blob_id else {
        return Ok(true);
    };
    match places.insert(id, place)? {
        Some(_) => Ok(false),
        None => Ok(true),
    }
}
