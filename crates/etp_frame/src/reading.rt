//! Reading whole messages.
ghost use Rattle.std.specs.Prelude.{◌≡◌, ◌≢◌, ◌<◌, ◌≤◌, ◌+◌, ◌-◌, ◌^◌, ◌==◌, if◌then◌else◌, length, Some, Ok, Err, IfOk, IfErr, pos};
ghost use Rattle.std.specs.Bool.{OnTrue};
ghost use Rattle.etp_values.specs.Gives.{Gives};
ghost use Rattle.avro_bin.specs.Laws.{read_value, node_limit};
ghost use Rattle.avro_bin.specs.Refusing.{refusal};
ghost use Rattle.avro_bin.specs.Value.{nodes};
ghost use Rattle.avro_bin.specs.Shape.{HasSchema};
ghost use Rattle.avro_bin.specs.View.{value_of};
ghost use Rattle.etp_schema.specs.Bodies.{body_place};
ghost use Rattle.etp_schema.specs.Shapes.{shape_at, table_size};
ghost use Rattle.etp_frame.specs.Reading.{tree_of, read_of, header_in, admitted, as_body, body_in};
ghost use Rattle.etp_schema.specs.Family.{Kind};
ghost use Rattle.etp_frame.specs.Message.{channel_data_load_number, typed_kind};
ghost use Rattle.etp_frame.specs.Parts.{offset_in, as_header_error, as_body_error, GivesValue, GivesMessage, GivesTree, IsFront, load_kind, message_of_load};
ghost use Rattle.etp_frame.specs.declared.message.Message.{Message as AnyMessage};
ghost use Rattle.etp_frame.specs.Wire.{IsMessage};
ghost use Rattle.etp_frame.specs.declared.error.FrameError.TheVariants as f;

use crate::error::FrameError;
use crate::flags;
use crate::header::Header;
use crate::message::Message;
use avro_bin::{Fault, NODE_LIMIT, Refusal, Tree, Why, decode, refusal_at};
use etp_schema::{Reader, Side, body_of, is_protocol, protocols, read_body, schema_table};
use etp_values::{Boxed, NoMemory};
use msg_channel::{ChannelDataLoadMessage, LoadChannelData, read_load};
use std::alloc::Global;

/// The number of the message that loads points, among those of its protocol.
const LOAD_KIND: i32 = 4;

/// The header and the message of these bytes, which `sender` sent. If several causes refuse them, the first in the order of [`FrameError`]
/// is returned. Flags other than those of a compressed body and of an extension refuse nothing.
pub fn read_message(
    alloc: Global,
    bytes: &[u8],
    sender: Side,
) -> Result<(Header, Message), FrameError>
    ensures gives { Gives f.NoMemory result (read_of sender bytes.now) }
    ensures form { IfOk result (λ r. IsMessage sender r.0 r.1 bytes.now) }
{
    let (header, length, _) = match read_front(alloc, bytes, sender) {
        Ok(front) => front,
        Err(error) => return Err(error),
    };
    match read_typed(alloc, header, length, &bytes[length..]) {
        Ok(message) => Ok((header, message)),
        Err(error) => Err(error),
    }
}

/// The message of the body from this offset on, if it ends with the bytes.
fn read_typed(
    alloc: Global,
    header: Header,
    front: usize,
    rest: &[u8],
) -> Result<Message, FrameError>
    requires { front + length rest.now < 2 ^ 64 }
    ensures { (k : Kind AnyMessage) → typed_kind header.protocol header.kind ≡ Some k
        → GivesMessage k result (as_body header front (length rest.now) (read_value k.schema node_limit rest.now)) }
{
    if is_load(&header) {
        return read_loaded(alloc, header, front, rest);
    }
    read_by_kind(alloc, header, front, rest)
}

/// Whether the message is one that loads points.
fn is_load(header: &Header) -> bool
    ensures { OnTrue result ((header.now.protocol ≡ pos channel_data_load_number) × (header.now.kind ≡ pos load_kind.number)) }
{
    header.protocol == protocols::CHANNEL_DATA_LOAD && header.kind == LOAD_KIND
}

/// The load of the body from this offset on, if it ends with the bytes.
fn read_loaded(
    alloc: Global,
    header: Header,
    front: usize,
    rest: &[u8],
) -> Result<Message, FrameError>
    requires { front + length rest.now < 2 ^ 64 }
    ensures { GivesMessage load_kind result (as_body header front (length rest.now) (read_value load_kind.schema node_limit rest.now)) }
{
    let (load, length) = match read_load(alloc, rest) {
        Ok(read) => read,
        Err(refusal) => return Err(body_error(header, front, refusal)),
    };
    match load_message(alloc, load) {
        Ok(message) => ended(header, message, front, length, rest.len()),
        Err(_) => Err(FrameError::NoMemory),
    }
}

/// The load as a message.
fn load_message(alloc: Global, load: LoadChannelData) -> Result<Message, NoMemory>
    ensures { IfOk result (λ x. x ≡ message_of_load load) }
{
    let load = Boxed::new(alloc, ChannelDataLoadMessage::LoadChannelData(load))?;
    Ok(Message::ChannelDataLoad(load))
}

/// The message of the body from this offset on, read by its protocol and number, if it ends with the bytes.
fn read_by_kind(
    alloc: Global,
    header: Header,
    front: usize,
    rest: &[u8],
) -> Result<Message, FrameError>
    requires { front + length rest.now < 2 ^ 64 }
    ensures { (k : Kind AnyMessage) → typed_kind header.protocol header.kind ≡ Some k
        → GivesMessage k result (as_body header front (length rest.now) (read_value k.schema node_limit rest.now)) }
{
    let mut from = Reader::new(alloc, rest, NODE_LIMIT);
    match Message::read(&mut from, header.protocol, header.kind) {
        Ok(Some(message)) => {
            let length = rest.len().saturating_sub(from.rest().len());
            ended(header, message, front, length, rest.len())
        }
        Ok(None) => Err(FrameError::UnknownKind(header)),
        Err(Fault::At(why, left)) => Err(fault_error(header, front, rest.len(), why, left)),
        Err(Fault::Memory) => Err(FrameError::NoMemory),
    }
}

/// Why a body of `size` bytes, which follows `front` others, is refused: the refused item begins with `left` of them left.
fn fault_error(header: Header, front: usize, size: usize, why: Why, left: usize) -> FrameError
    requires { front + size < 2 ^ 64 }
    ensures { result ≡ as_body_error header front (refusal why (size - left)) }
{
    body_error(header, front, refusal_at(why, size.saturating_sub(left)))
}

/// The message, if its body from this offset on is as long as the rest of the bytes.
fn ended(
    header: Header,
    message: Message,
    front: usize,
    length: usize,
    size: usize,
) -> Result<Message, FrameError>
    requires { front + length < 2 ^ 64 }
    ensures { result ≡ (if length == size then Ok message else Err (f.Rest header (front + length))) }
{
    if length != size {
        drop(message);
        return Err(FrameError::Rest(header, front + length));
    }
    Ok(message)
}

/// The header of these bytes, which `sender` sent, the place of their body's schema in [`TABLE`](etp_schema::TABLE), and the body's tree.
/// They are refused if [`read_message`] refuses them, for the same reason.
pub fn read_tree(
    alloc: Global,
    bytes: &[u8],
    sender: Side,
) -> Result<(Header, u32, Tree), FrameError>
    ensures gives { GivesTree result (tree_of sender bytes.now) }
    ensures place { IfOk result (λ r. r.1 < table_size) }
    ensures typed { IfOk result (λ r. HasSchema (shape_at r.1) (value_of r.2)) }
    ensures few { IfOk result (λ r. nodes (value_of r.2) ≤ node_limit) }
{
    let (header, length, place) = match read_front(alloc, bytes, sender) {
        Ok(front) => front,
        Err(error) => return Err(error),
    };
    match read_body_tree(alloc, header, place, length, bytes) {
        Ok(tree) => Ok((header, place, tree)),
        Err(error) => Err(error),
    }
}

/// What is read before a body: the header, the length of its spelling, and the place of the body's schema.
pub(crate) fn read_front(
    alloc: Global,
    bytes: &[u8],
    sender: Side,
) -> Result<(Header, usize, u32), FrameError>
    ensures front { IfOk result (λ r. IsFront sender r.0 r.1 r.2 bytes.now) }
    ensures within { IfOk result (λ r. r.1 ≤ length bytes.now) }
    ensures place { IfOk result (λ r. r.2 < table_size) }
    ensures refused { IfErr result (λ e. e ≢ f.NoMemory → tree_of sender bytes.now ≡ Err e) }
{
    let (header, length) = match read_header(alloc, bytes) {
        Ok(front) => front,
        Err(error) => return Err(error),
    };
    if let Err(error) = admit(&header) {
        return Err(error);
    }
    let Some(place) = body_place(&header, sender) else {
        return Err(FrameError::UnknownKind(header));
    };
    Ok((header, length, place))
}

/// The header at the front of the bytes, and the length of its spelling.
fn read_header(alloc: Global, bytes: &[u8]) -> Result<(Header, usize), FrameError>
    ensures gives { Gives f.NoMemory result (header_in bytes.now) }
    ensures within { IfOk result (λ r. r.1 ≤ length bytes.now) }
{
    match read_body::<Header>(alloc, bytes) {
        Ok(front) => Ok(front),
        Err(refusal) => Err(header_error(refusal)),
    }
}

fn header_error(refusal: Refusal) -> FrameError
    ensures { result ≡ as_header_error refusal }
{
    match refusal {
        Refusal::NoMemory => FrameError::NoMemory,
        _ => FrameError::Header(refusal),
    }
}

/// Refuses a header whose body can't be read, whatever it is.
fn admit(header: &Header) -> Result<(), FrameError>
    ensures { result ≡ admitted header.now }
{
    if header.has_flag(flags::EXTENSION) {
        return Err(FrameError::Extension(*header));
    }
    if header.has_flag(flags::COMPRESSED) {
        return Err(FrameError::Compressed(*header));
    }
    if !is_protocol(header.protocol) {
        return Err(FrameError::UnknownProtocol(*header));
    }
    Ok(())
}

/// The place of the body's schema, if the sender sends such messages.
fn body_place(header: &Header, sender: Side) -> Option<u32>
    ensures { result ≡ body_place header.now.protocol header.now.kind sender }
{
    body_of(header.protocol, header.kind, sender)
}

/// The body's tree from this offset on, if it ends with the bytes.
fn read_body_tree(
    alloc: Global,
    header: Header,
    place: u32,
    front: usize,
    bytes: &[u8],
) -> Result<Tree, FrameError>
    requires place { place < table_size }
    requires front { front ≤ length bytes.now }
    ensures gives { GivesValue result (body_in header (shape_at place) front bytes.now) }
    ensures typed { IfOk result (λ tree. HasSchema (shape_at place) (value_of tree)) }
    ensures few { IfOk result (λ tree. nodes (value_of tree) ≤ node_limit) }
{
    let rest = &bytes[front..];
    match decode(alloc, schema_table(), place, rest) {
        Ok((tree, length)) => {
            if length != rest.len() {
                return Err(FrameError::Rest(header, front + length));
            }
            Ok(tree)
        }
        Err(refusal) => Err(body_error(header, front, refusal)),
    }
}

/// Why the body from this offset on is refused.
pub(crate) fn body_error(header: Header, front: usize, refusal: Refusal) -> FrameError
    requires { front + offset_in refusal < 2 ^ 64 }
    ensures { result ≡ as_body_error header front refusal }
{
    match refusal {
        Refusal::Short(offset) => FrameError::Body(header, Refusal::Short(front + offset)),
        Refusal::Number(offset) => FrameError::Body(header, Refusal::Number(front + offset)),
        Refusal::Range(offset) => FrameError::Body(header, Refusal::Range(front + offset)),
        Refusal::Bool(offset) => FrameError::Body(header, Refusal::Bool(front + offset)),
        Refusal::Branch(offset) => FrameError::Body(header, Refusal::Branch(front + offset)),
        Refusal::Utf8(offset) => FrameError::Body(header, Refusal::Utf8(front + offset)),
        Refusal::Length(offset) => FrameError::Body(header, Refusal::Length(front + offset)),
        Refusal::BlockSize(offset) => FrameError::Body(header, Refusal::BlockSize(front + offset)),
        Refusal::DoubleKey(offset) => FrameError::Body(header, Refusal::DoubleKey(front + offset)),
        Refusal::Limit(offset) => FrameError::Body(header, Refusal::Limit(front + offset)),
        Refusal::NoMemory => FrameError::NoMemory,
    }
}
