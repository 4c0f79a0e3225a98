//! The messages of asks.
ghost use Rattle.std.specs.Prelude.{◌≡◌, ◌∷◌, [], None, IfOk, map};
ghost use Rattle.client_core.specs.Messages.{channel_asked, channel_cut, channel_opened, channel_subscribed, formats, item_at, item_of, keyed, long_interval, message_of, object_asked, object_deleted, object_put, pinged, points_loaded, protocols, range_asked, range_of, range_replaced, request_message, request_session, requested, resource_of, session_closed, space_put, spaces_asked};

use crate::ask::Ask;
use etp_frame::Message;
use etp_schema::{ActiveStatusKind, Few, protocols};
use etp_values::{
    Blob, Boxed, ChannelPoint, Id16, List, Named, NoMemory, Point, Shared, StoreUri, Text,
};
use msg_channel::{
    ChannelDataLoadMessage, ChannelRangeInfo, ChannelSubscribeInfo, ChannelSubscribeMessage,
    DataItem, GetChannelMetadata, GetRanges, IndexInterval, IndexValue, LoadChannelData,
    OpenChannels, ReplaceRange, SubscribeChannels, TruncateChannels, TruncateInfo,
};
use msg_core::{
    CloseSession, CoreMessage, Dataspace, DataspaceMessage, GetDataspaces, Ping, PutDataspaces,
    RequestSession, SupportedProtocol, Version,
};
use msg_store::{
    DataObject, DeleteDataObjects, GetDataObjects, PutDataObjects, Resource, StoreMessage,
};
use std::alloc::Global;

/// The key under which an ask names its one thing.
pub(crate) const KEY: &str = "c";

/// One thing under an ask's key.
fn keyed<T: Drop>(alloc: Global, value: T) -> Result<Named<T>, NoMemory>
    ensures { IfOk result (λ n. n ≡ keyed value) }
{
    let key = Text::copy(alloc, KEY)?;
    let mut items = Vec::new(alloc);
    items.push((key, value))?;
    Ok(Named::from_sorted(items))
}

/// A protocol as it is requested: version 1.2.0.0 of a store.
fn requested(alloc: Global, protocol: i32) -> Result<SupportedProtocol, NoMemory>
    ensures { IfOk result (λ p. p ≡ requested protocol) }
{
    Ok(SupportedProtocol {
        protocol,
        protocol_version: Version {
            major: 1,
            minor: 2,
            revision: 0,
            patch: 0,
        },
        role: Text::copy(alloc, "store")?,
        protocol_capabilities: Named::new(alloc),
    })
}

fn all_requested(alloc: Global, protocols: &[i32]) -> Result<List<SupportedProtocol>, NoMemory>
    ensures { IfOk result (λ l. l ≡ map requested protocols.now) }
{
    let mut all = Vec::new(alloc);
    for protocol in protocols {
        let one = requested(alloc, *protocol)?;
        all.push(one)?;
    }
    Ok(List::from_vec(all))
}

/// The protocols that a client asks for.
fn requested_protocols(alloc: Global) -> Result<List<SupportedProtocol>, NoMemory>
    ensures { IfOk result (λ l. l ≡ map requested protocols) }
{
    all_requested(
        alloc,
        &[
            protocols::STORE,
            protocols::DATA_ARRAY,
            protocols::TRANSACTION,
            protocols::CHANNEL_SUBSCRIBE,
            protocols::CHANNEL_DATA_LOAD,
            protocols::DATASPACE,
        ],
    )
}

fn formats(alloc: Global) -> Result<List<Text>, NoMemory>
    ensures { IfOk result (λ l. l ≡ formats) }
{
    let xml = Text::copy(alloc, "xml")?;
    let json = Text::copy(alloc, "json")?;
    let mut formats = Vec::new(alloc);
    formats.push(xml)?;
    formats.push(json)?;
    Ok(List::from_vec(formats))
}

fn request_session(alloc: Global, moment: i64) -> Result<RequestSession, NoMemory>
    ensures { IfOk result (λ m. m ≡ request_session moment) }
{
    let application_name = Text::copy(alloc, "etpctl")?;
    let application_version = Text::copy(alloc, "1")?;
    let requested_protocols = requested_protocols(alloc)?;
    let supported_formats = formats(alloc)?;
    Ok(RequestSession {
        application_name,
        application_version,
        client_instance_id: Id16::from_bytes([0; 16]),
        requested_protocols,
        supported_data_objects: List::new(alloc),
        supported_compression: List::new(alloc),
        supported_formats,
        current_date_time: moment,
        earliest_retained_change_time: 0,
        server_authorization_required: false,
        endpoint_capabilities: Named::new(alloc),
    })
}

/// The message with which a client begins.
pub(crate) fn request_message(alloc: Global, moment: i64) -> Result<Message, NoMemory>
    ensures { IfOk result (λ m. m ≡ request_message moment) }
{
    let request = request_session(alloc, moment)?;
    Ok(Message::Core(Boxed::new(alloc, CoreMessage::RequestSession(request))?))
}

fn put_space(alloc: Global, path: Text) -> Result<Message, NoMemory>
    ensures { IfOk result (λ m. m ≡ space_put path) }
{
    let uri = StoreUri {
        space: path,
        object: None,
    };
    let uri = uri.write(alloc)?;
    let dataspaces = keyed(
        alloc,
        Dataspace {
            uri: Shared::new(alloc, uri)?,
            path: Shared::new(alloc, Text::new(alloc))?,
            store_last_write: 0,
            store_created: 0,
            custom_data: Named::new(alloc),
        },
    )?;
    Ok(Message::Dataspace(Boxed::new(
        alloc,
        DataspaceMessage::PutDataspaces(PutDataspaces { dataspaces }),
    )?))
}

fn resource_of(alloc: Global, uri: &StoreUri) -> Result<Resource, NoMemory>
    ensures { IfOk result (λ r. r ≡ resource_of uri.now) }
{
    let uri = uri.write(alloc)?;
    Ok(Resource {
        uri,
        alternate_uris: List::new(alloc),
        name: Text::new(alloc),
        source_count: None,
        target_count: None,
        last_changed: 0,
        store_last_write: 0,
        store_created: 0,
        active_status: ActiveStatusKind::Active,
        custom_data: Named::new(alloc),
    })
}

fn put(alloc: Global, uri: StoreUri, payload: Blob) -> Result<Message, NoMemory>
    ensures { IfOk result (λ m. m ≡ object_put uri payload) }
{
    let resource = resource_of(alloc, &uri)?;
    let format = Text::copy(alloc, "xml")?;
    let data_objects = keyed(
        alloc,
        DataObject {
            resource,
            format,
            blob_id: None,
            payload,
        },
    )?;
    Ok(Message::Store(Boxed::new(
        alloc,
        StoreMessage::PutDataObjects(PutDataObjects {
            data_objects,
            prune_contained_objects: false,
        }),
    )?))
}

fn get(alloc: Global, uri: StoreUri) -> Result<Message, NoMemory>
    ensures { IfOk result (λ m. m ≡ object_asked uri) }
{
    let uri = uri.write(alloc)?;
    let uris = keyed(alloc, uri)?;
    Ok(Message::Store(Boxed::new(
        alloc,
        StoreMessage::GetDataObjects(GetDataObjects {
            uris,
            format: Text::new(alloc),
        }),
    )?))
}

fn open_channel(alloc: Global, uri: StoreUri) -> Result<Message, NoMemory>
    ensures { IfOk result (λ m. m ≡ channel_opened uri) }
{
    let uri = uri.write(alloc)?;
    let uris = keyed(alloc, uri)?;
    Ok(Message::ChannelDataLoad(Boxed::new(
        alloc,
        ChannelDataLoadMessage::OpenChannels(OpenChannels { uris }),
    )?))
}

/// A point with its one index.
fn item_of(alloc: Global, point: ChannelPoint) -> DataItem
    ensures { result ≡ item_of point }
{
    let ChannelPoint { channel, point } = point;
    DataItem {
        channel_id: channel,
        indexes: Few::one(IndexValue::Long(point.index)),
        value: point.value,
        value_attributes: List::new(alloc),
    }
}

fn items_of(alloc: Global, points: List<ChannelPoint>) -> Result<List<DataItem>, NoMemory>
    ensures { IfOk result (λ l. l ≡ map item_of points) }
{
    let mut items = Vec::new(alloc);
    items.reserve(points.len())?;
    for point in points.into_vec() {
        let item = item_of(alloc, point);
        items.push(item)?;
    }
    Ok(List::from_vec(items))
}

fn load(alloc: Global, points: List<ChannelPoint>) -> Result<Message, NoMemory>
    ensures { IfOk result (λ m. m ≡ points_loaded points) }
{
    let payload = items_of(alloc, points)?;
    Ok(Message::ChannelDataLoad(Boxed::new(
        alloc,
        ChannelDataLoadMessage::LoadChannelData(LoadChannelData { payload }),
    )?))
}

fn meta(alloc: Global, uri: StoreUri) -> Result<Message, NoMemory>
    ensures { IfOk result (λ m. m ≡ channel_asked uri) }
{
    let uri = uri.write(alloc)?;
    let uris = keyed(alloc, uri)?;
    Ok(Message::ChannelSubscribe(Boxed::new(
        alloc,
        ChannelSubscribeMessage::GetChannelMetadata(GetChannelMetadata { uris }),
    )?))
}

fn subscribe(alloc: Global, channel: i64, start: i64) -> Result<Message, NoMemory>
    ensures { IfOk result (λ m. m ≡ channel_subscribed channel start) }
{
    let channels = keyed(
        alloc,
        ChannelSubscribeInfo {
            channel_id: channel,
            start_index: IndexValue::Long(start),
            data_changes: true,
            request_latest_index_count: None,
        },
    )?;
    Ok(Message::ChannelSubscribe(Boxed::new(
        alloc,
        ChannelSubscribeMessage::SubscribeChannels(SubscribeChannels { channels }),
    )?))
}

/// The items of points of one channel.
fn items_at(alloc: Global, channel: i64, points: List<Point>) -> Result<List<DataItem>, NoMemory>
    ensures { IfOk result (λ l. l ≡ map (item_at channel) points) }
{
    let mut items = Vec::new(alloc);
    items.reserve(points.len())?;
    for point in points.into_vec() {
        let item = item_of(alloc, ChannelPoint { channel, point });
        items.push(item)?;
    }
    Ok(List::from_vec(items))
}

/// An interval from one index to another.
fn interval(alloc: Global, from: i64, to: i64) -> IndexInterval
    ensures { result ≡ long_interval from to }
{
    IndexInterval {
        start_index: IndexValue::Long(from),
        end_index: IndexValue::Long(to),
        uom: Text::new(alloc),
        depth_datum: Text::new(alloc),
    }
}

fn only(alloc: Global, channel: i64) -> Result<List<i64>, NoMemory>
    ensures { IfOk result (λ l. l ≡ channel ∷ []) }
{
    let mut channels = Vec::new(alloc);
    channels.push(channel)?;
    Ok(List::from_vec(channels))
}

fn replace(
    alloc: Global,
    channel: i64,
    from: i64,
    to: i64,
    points: List<Point>,
) -> Result<Message, NoMemory>
    ensures { IfOk result (λ m. m ≡ range_replaced channel from to points) }
{
    let payload = items_at(alloc, channel, points)?;
    let channel_ids = only(alloc, channel)?;
    Ok(Message::ChannelDataLoad(Boxed::new(
        alloc,
        ChannelDataLoadMessage::ReplaceRange(ReplaceRange {
            changed_interval: interval(alloc, from, to),
            channel_ids,
            payload,
        }),
    )?))
}

fn cut(alloc: Global, channel: i64, end: i64) -> Result<Message, NoMemory>
    ensures { IfOk result (λ m. m ≡ channel_cut channel end) }
{
    let channels = keyed(
        alloc,
        TruncateInfo {
            channel_id: channel,
            new_end_index: IndexValue::Long(end),
        },
    )?;
    Ok(Message::ChannelDataLoad(Boxed::new(
        alloc,
        ChannelDataLoadMessage::TruncateChannels(TruncateChannels { channels }),
    )?))
}

fn range_of(alloc: Global, channel: i64, from: i64, to: i64) -> Result<ChannelRangeInfo, NoMemory>
    ensures { IfOk result (λ r. r ≡ range_of channel from to) }
{
    let channel_ids = only(alloc, channel)?;
    Ok(ChannelRangeInfo {
        channel_ids,
        interval: interval(alloc, from, to),
        secondary_intervals: List::new(alloc),
    })
}

fn range(alloc: Global, channel: i64, from: i64, to: i64) -> Result<Message, NoMemory>
    ensures { IfOk result (λ m. m ≡ range_asked channel from to) }
{
    let one = range_of(alloc, channel, from, to)?;
    let mut channel_ranges = Vec::new(alloc);
    channel_ranges.push(one)?;
    Ok(Message::ChannelSubscribe(Boxed::new(
        alloc,
        ChannelSubscribeMessage::GetRanges(GetRanges {
            request_uuid: Id16::from_bytes([0; 16]),
            channel_ranges: List::from_vec(channel_ranges),
        }),
    )?))
}

fn spaces(alloc: Global) -> Result<Message, NoMemory>
    ensures { IfOk result (λ m. m ≡ spaces_asked) }
{
    Ok(Message::Dataspace(Boxed::new(
        alloc,
        DataspaceMessage::GetDataspaces(GetDataspaces {
            store_last_write_filter: None,
        }),
    )?))
}

fn delete(alloc: Global, uri: StoreUri) -> Result<Message, NoMemory>
    ensures { IfOk result (λ m. m ≡ object_deleted uri) }
{
    let uri = uri.write(alloc)?;
    let uris = keyed(alloc, uri)?;
    Ok(Message::Store(Boxed::new(
        alloc,
        StoreMessage::DeleteDataObjects(DeleteDataObjects {
            uris,
            prune_contained_objects: false,
        }),
    )?))
}

fn ping(alloc: Global, moment: i64) -> Result<Message, NoMemory>
    ensures { IfOk result (λ m. m ≡ pinged moment) }
{
    Ok(Message::Core(Boxed::new(
        alloc,
        CoreMessage::Ping(Ping {
            current_date_time: moment,
        }),
    )?))
}

fn close(alloc: Global) -> Result<Message, NoMemory>
    ensures { IfOk result (λ m. m ≡ session_closed) }
{
    Ok(Message::Core(Boxed::new(
        alloc,
        CoreMessage::CloseSession(CloseSession {
            reason: Text::new(alloc),
        }),
    )?))
}

/// What is sent for an ask, which was made at this moment.
pub(crate) fn message_of(alloc: Global, ask: Ask, moment: i64) -> Result<Message, NoMemory>
    ensures { IfOk result (λ m. m ≡ message_of moment ask) }
{
    match ask {
        Ask::PutSpace(path) => put_space(alloc, path),
        Ask::Put { uri, payload } => put(alloc, uri, payload),
        Ask::Get(uri) => get(alloc, uri),
        Ask::OpenChannel(uri) => open_channel(alloc, uri),
        Ask::Load(points) => load(alloc, points),
        Ask::Meta(uri) => meta(alloc, uri),
        Ask::Subscribe { channel, start } => subscribe(alloc, channel, start),
        Ask::Replace {
            channel,
            from,
            to,
            points,
        } => replace(alloc, channel, from, to, points),
        Ask::Cut { channel, end } => cut(alloc, channel, end),
        Ask::Range { channel, from, to } => range(alloc, channel, from, to),
        Ask::Spaces => spaces(alloc),
        Ask::Delete(uri) => delete(alloc, uri),
        Ask::Ping => ping(alloc, moment),
        Ask::Close => close(alloc),
    }
}
