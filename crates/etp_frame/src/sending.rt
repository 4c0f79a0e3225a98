//! Objects as they are sent, with long data in chunks.
ghost use Rattle.std.specs.Prelude.{◌≡◌, ◌++◌, ◌∷◌, ◌-◌, ◌/◌, ◌<◌, [], IfOk, OnOk, map, true, if◌then◌else◌};
ghost use Rattle.std.specs.Cmp.Lexicographic.{slice_cmp};
ghost use Rattle.std.specs.List.Sorted.{IsStrictlySortedBy};
ghost use Rattle.std.specs.Ordering.{nat_cmp};
ghost use Rattle.etp_frame.specs.Joining.{Objects};
ghost use Rattle.etp_frame.specs.declared.message.Message.TheVariants as m;
ghost use Rattle.etp_frame.specs.Chunking.{as_sent, blob_id, chunk, chunk_messages, chunk_size, chunks_of, in_chunks, in_place, is_long, long_objects, next_blob, with_chunks};
ghost use Rattle.msg_store.specs.declared.store_messages.StoreMessage.TheVariants as s;

use crate::grouping::{Entries, Measuring};
use crate::message::Message;
use crate::parting::WithEntries;
use etp_schema::Measure;
use etp_values::{Blob, Boxed, Id16, List, Named, NoMemory, Text};
use msg_store::{Chunk, DataObject, StoreMessage};
use std::alloc::Global;

/// An object as it is sent, and the chunks of its data.
#[derive(Drop)]
pub(crate) struct Sent {
    object: (Text, DataObject),
    chunks: List<Chunk>,
}

/// Objects as they are sent, each with its key.
pub(crate) struct SentObjects;

impl Measuring<Sent> for SentObjects {
    ghost use Rattle.etp_frame.specs.Chunking.{sent_amount};

    ghost amount = { sent_amount };

    fn measure(item: &Sent) -> Measure {
        Entries::measure(&item.object)
    }
}

/// The identity of the k-th blob that is sent in the session of this number.
fn blob_id(number: u64, k: u64) -> Id16
    ensures { result ≡ blob_id number k }
{
    let [a, b, c, d, e, f, g, h] = number.to_be_bytes();
    let [i, j, l, m, n, o, p, q] = k.to_be_bytes();
    Id16::from_bytes([a, b, c, d, e, f, g, h, i, j, l, m, n, o, p, q])
}

/// How many bytes each chunk but the last has.
fn chunk_size(limit: u64) -> usize
    ensures size { result ≡ chunk_size limit }
    ensures some { 0 < result }
{
    (limit / 2).max(1) as usize
}

/// The chunks with the last one.
fn with_last(mut chunks: Vec<Chunk>, id: Id16, payload: Blob) -> Result<List<Chunk>, NoMemory>
    ensures { IfOk result (λ l. l ≡ chunks.items ++ chunk id payload true ∷ []) }
{
    push_chunk(&mut chunks, id, payload, true)?;
    Ok(List::from_vec(chunks))
}

/// How many chunks of this size come before the last one, for data of this length.
fn full_chunks(len: usize, size: usize) -> usize
    requires { 0 < size }
    ensures { result ≡ (len - 1) / size }
{
    len.saturating_sub(1) / size
}

/// Adds a chunk.
fn push_chunk(chunks: &mut Vec<Chunk>, id: Id16, payload: Blob, last: bool) -> Result<(), NoMemory>
    ensures { OnOk result (chunks.new.items ≡ chunks.old.items ++ chunk id payload last ∷ []) }
{
    chunks.push(Chunk {
        blob_id: id,
        payload,
        last,
    })?;
    Ok(())
}

/// The data in chunks of this size, which share the bytes.
fn chunks_of(alloc: Global, size: usize, id: Id16, payload: &Blob) -> Result<List<Chunk>, NoMemory>
    requires { 0 < size }
    ensures { IfOk result (λ l. l ≡ chunks_of size id payload.now) }
{
    let len = payload.len();
    let mut left = full_chunks(len, size);
    let mut chunks = Vec::new(alloc);
    let mut start = 0;
    while left > 0 {
        let end = start + size;
        let piece = payload.part(start, end)?;
        push_chunk(&mut chunks, id, piece, false)?;
        start = end;
        left -= 1;
    }
    let rest = payload.part(start, len)?;
    with_last(chunks, id, rest)
}

/// Whether data are sent in chunks.
fn is_long(limit: u64, payload: &Blob) -> bool
    ensures { result ≡ is_long limit payload.now }
{
    payload.len() as u64 > limit / 2
}

/// The object with its data in the chunks of a blob.
fn in_chunks(
    alloc: Global,
    size: usize,
    id: Id16,
    object: (Text, DataObject),
) -> Result<Sent, NoMemory>
    requires { 0 < size }
    ensures { IfOk result (λ s. s ≡ in_chunks size id object) }
{
    let (key, mut object) = object;
    let chunks = chunks_of(alloc, size, id, &object.payload)?;
    object.blob_id = Some(id);
    object.payload = Blob::new();
    Ok(Sent {
        object: (key, object),
        chunks,
    })
}

/// The object as it is sent, with the next blob's identity if its data are long.
fn send(
    alloc: Global,
    limit: u64,
    number: u64,
    next: u64,
    object: (Text, DataObject),
) -> Result<Sent, NoMemory>
    ensures { IfOk result (λ s. s ≡ (if is_long limit object.1.payload then in_chunks (chunk_size limit) (blob_id number next) object else in_place object)) }
{
    if is_long(limit, &object.1.payload) {
        return in_chunks(alloc, chunk_size(limit), blob_id(number, next), object);
    }
    Ok(Sent {
        object,
        chunks: List::new(alloc),
    })
}

/// The number of blobs after an object.
fn count_behind(limit: u64, count: u64, object: &(Text, DataObject)) -> u64
    ensures { result ≡ (if is_long limit object.now.1.payload then next_blob count else count) }
{
    if is_long(limit, &object.1.payload) {
        return count.saturating_add(1);
    }
    count
}

/// Objects as they are sent, and the number of blobs after them.
#[derive(Drop)]
struct Sending {
    sent: Vec<Sent>,
    count: u64,
}

/// One more object.
fn send_next(
    alloc: Global,
    sending: Sending,
    limit: u64,
    number: u64,
    object: (Text, DataObject),
) -> Result<Sending, NoMemory>
    ensures { IfOk result (λ s. (rest : Objects) → s.sent.items ++ as_sent limit number s.count rest ≡ sending.sent.items ++ as_sent limit number sending.count (object ∷ rest)) }
{
    let Sending {
        mut sent,
        count: before,
    } = sending;
    let behind = count_behind(limit, before, &object);
    let one = send(alloc, limit, number, behind, object)?;
    sent.push(one)?;
    Ok(Sending {
        sent,
        count: behind,
    })
}

/// The objects as they are sent, if this many blobs were sent in the session before.
pub(crate) fn as_sent(
    alloc: Global,
    limit: u64,
    number: u64,
    blobs: u64,
    objects: Vec<(Text, DataObject)>,
) -> Result<Vec<Sent>, NoMemory>
    ensures { IfOk result (λ v. v.items ≡ as_sent limit number blobs objects.items) }
{
    let mut sending = Sending {
        sent: Vec::new(alloc),
        count: blobs,
    };
    for object in objects {
        sending = send_next(alloc, sending, limit, number, object)?;
    }
    let Sending { sent, count: _ } = sending;
    Ok(sent)
}

/// Adds the chunks as messages.
fn push_chunks(alloc: Global, into: &mut Vec<Message>, chunks: List<Chunk>) -> Result<(), NoMemory>
    ensures { OnOk result (into.new.items ≡ into.old.items ++ map (λ c. m.Store (s.Chunk c)) chunks) }
{
    for chunk in chunks.into_vec() {
        into.push(Message::Store(Boxed::new(alloc, StoreMessage::Chunk(chunk))?))?;
    }
    Ok(())
}

/// Objects, and the messages of their chunks.
#[derive(Drop)]
struct Unpacked {
    objects: Vec<(Text, DataObject)>,
    chunks: Vec<Message>,
}

/// The objects apart from their chunks.
fn unpack(alloc: Global, sent: Vec<Sent>) -> Result<Unpacked, NoMemory>
    ensures objects { IfOk result (λ u. u.objects.items ≡ map (λ x. x.object) sent.items) }
    ensures chunks { IfOk result (λ u. u.chunks.items ≡ chunk_messages sent.items) }
{
    let mut objects = Vec::new(alloc);
    let mut chunks = Vec::new(alloc);
    for one in sent {
        let Sent {
            object,
            chunks: own,
        } = one;
        objects.push(object)?;
        push_chunks(alloc, &mut chunks, own)?;
    }
    Ok(Unpacked { objects, chunks })
}

/// Adds a message with objects, followed by the chunks of their data.
pub(crate) fn push_with_chunks<W: WithEntries<DataObject>>(
    alloc: Global,
    into: &mut Vec<Message>,
    rest: &W,
    sent: Vec<Sent>,
) -> Result<(), NoMemory>
    requires { IsStrictlySortedBy (slice_cmp nat_cmp) (map (λ x. x.object.0) sent.items) }
    ensures { OnOk result (into.new.items ≡ into.old.items ++ with_chunks (W.whole rest.now) sent.items) }
{
    let apart = unpack(alloc, sent)?;
    let Unpacked { objects, chunks } = apart;
    let named = Named::from_sorted(objects);
    let message = rest.with_entries(alloc, named)?;
    into.push(message)?;
    for chunk in chunks {
        into.push(chunk)?;
    }
    Ok(())
}

/// How many of the objects are sent in chunks.
pub(crate) fn long_objects(limit: u64, objects: &[(Text, DataObject)]) -> u64
    ensures { result ≡ long_objects limit objects.now }
{
    let mut count = 0;
    for (_, object) in objects {
        if is_long(limit, &object.payload) {
            count += 1;
        }
    }
    count
}
