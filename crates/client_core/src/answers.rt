//! What ends an ask.
ghost use Rattle.std.specs.Prelude.{◌≡◌, map, option_map, IfOk};
ghost use Rattle.client_core.specs.Answers.{answer, at_key, channel_in, core_moment, core_session, dataspace_spaces, done, grants_object, grants_space, grants_subscription, is_dataspace_granted, is_granted, load_channel, load_cut, load_replaced, meta_of, moment_in, object_in, opened_in, points_in, says_cut, says_deleted, says_replaced, session_in, space_of, spaces_in, store_deleted, store_granted, store_object, subscribe_channel, subscribe_granted, subscribe_points};
ghost use Rattle.client_core.specs.declared.got.Got.TheVariants as got;
ghost use Rattle.msg_channel.specs.ChannelRecords.{channel_data_kind_place};

use crate::got::{Got, Space};
use crate::messages::KEY;
use crate::state::Due;
use client_parts::channel_points;
use etp_frame::Message;
use etp_values::{Blob, Id16, List, Named, NoMemory, Point, Text};
use msg_channel::{
    ChannelDataKind, ChannelDataLoadMessage, ChannelMetadataRecord, ChannelSubscribeMessage,
};
use msg_core::{CoreMessage, Dataspace, DataspaceMessage};
use msg_store::{GetDataObjectsResponse, StoreMessage};
use std::alloc::Global;

/// The index of a kind of data in the schema's order.
fn kind_place(kind: ChannelDataKind) -> u32
    ensures { result ≡ channel_data_kind_place kind }
{
    match kind {
        ChannelDataKind::DateTime => 0,
        ChannelDataKind::ElapsedTime => 1,
        ChannelDataKind::MeasuredDepth => 2,
        ChannelDataKind::PassIndexedDepth => 3,
        ChannelDataKind::TrueVerticalDepth => 4,
        ChannelDataKind::TypeBoolean => 5,
        ChannelDataKind::TypeInt => 6,
        ChannelDataKind::TypeLong => 7,
        ChannelDataKind::TypeFloat => 8,
        ChannelDataKind::TypeDouble => 9,
        ChannelDataKind::TypeString => 10,
        ChannelDataKind::TypeBytes => 11,
    }
}

/// What a channel is, for the ask of this id.
fn meta_of(id: i64, metadata: &ChannelMetadataRecord) -> Got
    ensures { result ≡ meta_of id metadata.now }
{
    Got::Meta {
        id,
        channel: metadata.id,
        kind: kind_place(metadata.data_kind),
    }
}

/// That the ask of this id is done, if its key is granted.
fn done(id: i64, granted: bool) -> Option<Got>
    ensures { result ≡ done id granted }
{
    if granted { Some(Got::Done(id)) } else { None }
}

/// Whether an ask's key is granted.
fn is_granted<T>(values: &Named<T>) -> bool
    ensures { result ≡ is_granted values.now }
{
    values.get(KEY).is_some()
}

// ---- the session and its moments

fn core_session(message: &CoreMessage) -> Option<Id16>
    ensures { result ≡ core_session message.now }
{
    match message {
        CoreMessage::OpenSession(reply) => Some(reply.session_id),
        _ => None,
    }
}

fn session_in(message: &Message) -> Option<Id16>
    ensures { result ≡ session_in message.now }
{
    match message {
        Message::Core(message) => core_session(message.get()),
        _ => None,
    }
}

fn opened(message: &Message) -> Option<Got>
    ensures { result ≡ option_map got.Opened (session_in message.now) }
{
    match session_in(message) {
        Some(session) => Some(Got::Opened(session)),
        None => None,
    }
}

fn core_moment(message: &CoreMessage) -> Option<i64>
    ensures { result ≡ core_moment message.now }
{
    match message {
        CoreMessage::Pong(pong) => Some(pong.current_date_time),
        _ => None,
    }
}

fn moment_in(message: &Message) -> Option<i64>
    ensures { result ≡ moment_in message.now }
{
    match message {
        Message::Core(message) => core_moment(message.get()),
        _ => None,
    }
}

fn pong(message: &Message) -> Option<Got>
    ensures { result ≡ option_map got.Pong (moment_in message.now) }
{
    match moment_in(message) {
        Some(moment) => Some(Got::Pong(moment)),
        None => None,
    }
}

// ---- what is granted

fn is_dataspace_granted(message: &DataspaceMessage) -> bool
    ensures { result ≡ is_dataspace_granted message.now }
{
    match message {
        DataspaceMessage::PutDataspacesResponse(reply) => is_granted(&reply.success),
        _ => false,
    }
}

fn grants_space(message: &Message) -> bool
    ensures { result ≡ grants_space message.now }
{
    match message {
        Message::Dataspace(message) => is_dataspace_granted(message.get()),
        _ => false,
    }
}

fn store_granted(message: &StoreMessage) -> bool
    ensures { result ≡ store_granted message.now }
{
    match message {
        StoreMessage::PutDataObjectsResponse(reply) => is_granted(&reply.success),
        _ => false,
    }
}

fn grants_object(message: &Message) -> bool
    ensures { result ≡ grants_object message.now }
{
    match message {
        Message::Store(message) => store_granted(message.get()),
        _ => false,
    }
}

fn subscribe_granted(message: &ChannelSubscribeMessage) -> bool
    ensures { result ≡ subscribe_granted message.now }
{
    match message {
        ChannelSubscribeMessage::SubscribeChannelsResponse(reply) => is_granted(&reply.success),
        _ => false,
    }
}

fn grants_subscription(message: &Message) -> bool
    ensures { result ≡ grants_subscription message.now }
{
    match message {
        Message::ChannelSubscribe(message) => subscribe_granted(message.get()),
        _ => false,
    }
}

// ---- an object

fn data_of(reply: &GetDataObjectsResponse) -> Result<Option<Blob>, NoMemory>
    ensures { IfOk result (λ b. b ≡ option_map (λ o. o.payload) (at_key reply.now.data_objects)) }
{
    match reply.data_objects.get(KEY) {
        Some(object) => Ok(Some(object.payload.share()?)),
        None => Ok(None),
    }
}

fn store_object(message: &StoreMessage) -> Result<Option<Blob>, NoMemory>
    ensures { IfOk result (λ b. b ≡ store_object message.now) }
{
    match message {
        StoreMessage::GetDataObjectsResponse(reply) => data_of(reply),
        _ => Ok(None),
    }
}

fn object_in(message: &Message) -> Result<Option<Blob>, NoMemory>
    ensures { IfOk result (λ b. b ≡ object_in message.now) }
{
    match message {
        Message::Store(message) => store_object(message.get()),
        _ => Ok(None),
    }
}

fn object(id: i64, message: &Message) -> Result<Option<Got>, NoMemory>
    ensures { IfOk result (λ g. g ≡ option_map (got.Object id) (object_in message.now)) }
{
    match object_in(message)? {
        Some(payload) => Ok(Some(Got::Object(id, payload))),
        None => Ok(None),
    }
}

// ---- what a channel is

fn subscribe_meta(id: i64, message: &ChannelSubscribeMessage) -> Option<Got>
    ensures { result ≡ option_map (meta_of id) (subscribe_channel message.now) }
{
    match message {
        ChannelSubscribeMessage::GetChannelMetadataResponse(reply) => {
            match reply.metadata.get(KEY) {
                Some(record) => Some(meta_of(id, record)),
                None => None,
            }
        }
        _ => None,
    }
}

fn meta(id: i64, message: &Message) -> Option<Got>
    ensures { result ≡ option_map (meta_of id) (channel_in message.now) }
{
    match message {
        Message::ChannelSubscribe(message) => subscribe_meta(id, message.get()),
        _ => None,
    }
}

fn load_meta(id: i64, message: &ChannelDataLoadMessage) -> Option<Got>
    ensures { result ≡ option_map (meta_of id) (load_channel message.now) }
{
    match message {
        ChannelDataLoadMessage::OpenChannelsResponse(reply) => match reply.channels.get(KEY) {
            Some(info) => Some(meta_of(id, &info.metadata)),
            None => None,
        },
        _ => None,
    }
}

fn opening(id: i64, message: &Message) -> Option<Got>
    ensures { result ≡ option_map (meta_of id) (opened_in message.now) }
{
    match message {
        Message::ChannelDataLoad(message) => load_meta(id, message.get()),
        _ => None,
    }
}

// ---- points

fn load_replaced(message: &ChannelDataLoadMessage) -> bool
    ensures { result ≡ load_replaced message.now }
{
    matches!(message, ChannelDataLoadMessage::ReplaceRangeResponse(_))
}

fn says_replaced(message: &Message) -> bool
    ensures { result ≡ says_replaced message.now }
{
    match message {
        Message::ChannelDataLoad(message) => load_replaced(message.get()),
        _ => false,
    }
}

fn load_cut(message: &ChannelDataLoadMessage) -> bool
    ensures { result ≡ load_cut message.now }
{
    match message {
        ChannelDataLoadMessage::TruncateChannelsResponse(reply) => is_granted(
            &reply.channels_truncated_time,
        ),
        _ => false,
    }
}

fn says_cut(message: &Message) -> bool
    ensures { result ≡ says_cut message.now }
{
    match message {
        Message::ChannelDataLoad(message) => load_cut(message.get()),
        _ => false,
    }
}

fn subscribe_points(
    alloc: Global,
    channel: i64,
    message: &ChannelSubscribeMessage,
) -> Result<Option<List<Point>>, NoMemory>
    ensures { IfOk result (λ ps. ps ≡ subscribe_points channel message.now) }
{
    match message {
        ChannelSubscribeMessage::GetRangesResponse(reply) => channel_points(
            alloc,
            channel,
            reply.payload.as_slice(),
        ),
        _ => Ok(None),
    }
}

fn points_in(
    alloc: Global,
    channel: i64,
    message: &Message,
) -> Result<Option<List<Point>>, NoMemory>
    ensures { IfOk result (λ ps. ps ≡ points_in channel message.now) }
{
    match message {
        Message::ChannelSubscribe(message) => subscribe_points(alloc, channel, message.get()),
        _ => Ok(None),
    }
}

fn points(alloc: Global, id: i64, channel: i64, message: &Message) -> Result<Option<Got>, NoMemory>
    ensures { IfOk result (λ g. g ≡ option_map (got.Points id) (points_in channel message.now)) }
{
    match points_in(alloc, channel, message)? {
        Some(points) => Ok(Some(Got::Points(id, points))),
        None => Ok(None),
    }
}

// ---- dataspaces

fn space_of(alloc: Global, found: &Dataspace) -> Result<Space, NoMemory>
    ensures { IfOk result (λ s. s ≡ space_of found.now) }
{
    Ok(Space {
        uri: Text::copy(alloc, found.uri.get().as_str())?,
        written: found.store_last_write,
        created: found.store_created,
    })
}

fn all_spaces(alloc: Global, all: &[Dataspace]) -> Result<List<Space>, NoMemory>
    ensures { IfOk result (λ l. l ≡ map space_of all.now) }
{
    let mut spaces = Vec::new(alloc);
    for found in all {
        spaces.push(space_of(alloc, found)?)?;
    }
    Ok(List::from_vec(spaces))
}

fn dataspace_spaces(
    alloc: Global,
    message: &DataspaceMessage,
) -> Result<Option<List<Space>>, NoMemory>
    ensures { IfOk result (λ l. l ≡ dataspace_spaces message.now) }
{
    match message {
        DataspaceMessage::GetDataspacesResponse(reply) => Ok(Some(all_spaces(
            alloc,
            reply.dataspaces.as_slice(),
        )?)),
        _ => Ok(None),
    }
}

fn spaces_in(alloc: Global, message: &Message) -> Result<Option<List<Space>>, NoMemory>
    ensures { IfOk result (λ l. l ≡ spaces_in message.now) }
{
    match message {
        Message::Dataspace(message) => dataspace_spaces(alloc, message.get()),
        _ => Ok(None),
    }
}

fn spaces(alloc: Global, id: i64, message: &Message) -> Result<Option<Got>, NoMemory>
    ensures { IfOk result (λ g. g ≡ option_map (got.Spaces id) (spaces_in message.now)) }
{
    match spaces_in(alloc, message)? {
        Some(spaces) => Ok(Some(Got::Spaces(id, spaces))),
        None => Ok(None),
    }
}

// ---- a deletion

fn store_deleted(message: &StoreMessage) -> bool
    ensures { result ≡ store_deleted message.now }
{
    match message {
        StoreMessage::DeleteDataObjectsResponse(reply) => is_granted(&reply.deleted_uris),
        _ => false,
    }
}

fn says_deleted(message: &Message) -> bool
    ensures { result ≡ says_deleted message.now }
{
    match message {
        Message::Store(message) => store_deleted(message.get()),
        _ => false,
    }
}

// ---- answers

/// The answer that a message is to the ask of this id, if it ends what the ask waits for.
pub(crate) fn answer(
    alloc: Global,
    id: i64,
    due: Due,
    message: &Message,
) -> Result<Option<Got>, NoMemory>
    ensures { IfOk result (λ g. g ≡ answer id due message.now) }
{
    match due {
        Due::Session => Ok(opened(message)),
        Due::SpacePut => Ok(done(id, grants_space(message))),
        Due::ObjectPut => Ok(done(id, grants_object(message))),
        Due::Object => object(id, message),
        Due::Opening => Ok(opening(id, message)),
        Due::Metadata => Ok(meta(id, message)),
        Due::Load => Ok(None),
        Due::Subscription(_) => Ok(done(id, grants_subscription(message))),
        Due::Replacement => Ok(done(id, says_replaced(message))),
        Due::Truncation => Ok(done(id, says_cut(message))),
        Due::Range(channel) => points(alloc, id, channel, message),
        Due::Spaces => spaces(alloc, id, message),
        Due::Deletion => Ok(done(id, says_deleted(message))),
        Due::Pong => Ok(pong(message)),
    }
}
