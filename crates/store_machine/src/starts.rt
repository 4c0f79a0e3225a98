//! Where subscriptions start.
ghost use Rattle.std.specs.Prelude.{◌≡◌, ◌≤◌, ◌&&◌, IfOk, Ok, Some, is_some, true};
ghost use Rattle.std.specs.Option.{unwrap_or};
ghost use Rattle.channel_store.specs.Points.{index_from_end, last_of, past};
ghost use Rattle.channel_store.specs.Refusals.{channel_at, points_at};
ghost use Rattle.channel_store.specs.Store.{tail_of};
ghost use Rattle.channel_store.specs.Told.{sized_within};
ghost use Rattle.store_machine.specs.Reads.{room_with, whole_room};
ghost use Rattle.store_machine.specs.Starts.{IsEnded, EndsInRange, begun, from_index, is_start, least_index, natural, past_last, room_behind, start_of, started};

use crate::call::{Start, StartAsk, StartReply};
use crate::reads::Room;
use channel_store::{ChannelStore, MAX_INDEX, MIN_INDEX, PointSize};
use etp_values::{ErrorCode, NoMemory, Text};
use std::alloc::Global;

/// Whether there is a channel of this id.
fn has(channels: &ChannelStore, channel: i64) -> bool
    ensures { result ≡ is_some (channel_at channels.now channel) }
{
    channels.tail_size(channel, MAX_INDEX).is_ok()
}

/// Whether such a start is possible.
fn is_start(start: Start) -> bool
    ensures { result ≡ is_start start }
{
    match start {
        Start::At(index) => MIN_INDEX <= index && index <= MAX_INDEX,
        Start::Latest(count) => count >= 1,
        Start::Live => true,
    }
}

/// The index of the last point but `count - 1`, or the least index if there are fewer points.
fn latest(channels: &ChannelStore, channel: i64, count: i32) -> i64
    ensures { result ≡ unwrap_or (index_from_end (natural count) (points_at channels.now channel)) least_index }
{
    match channels.index_from_end(channel, count.max(0) as u64) {
        Some(index) => index,
        None => MIN_INDEX,
    }
}

/// The index past the last point, or the least index if there is none.
fn past_last(channels: &ChannelStore, channel: i64) -> i64
    requires { IsEnded (last_of (points_at channels.now channel)) }
    ensures { result ≡ past_last (last_of (points_at channels.now channel)) }
{
    match channels.last_index(channel) {
        Some(index) => index.saturating_add(1),
        None => MIN_INDEX,
    }
}

/// The index at which a subscription of a channel starts.
fn start_of(channels: &ChannelStore, channel: i64, start: Start) -> i64
    requires { IsEnded (last_of (points_at channels.now channel)) }
    ensures { result ≡ start_of (points_at channels.now channel) start }
{
    match start {
        Start::At(index) => index,
        Start::Latest(count) => latest(channels, channel, count),
        Start::Live => past_last(channels, channel),
    }
}

/// The points from an index on, if they fit into the room of the answer; they are of this size, or too many.
fn from_sized(
    channels: &ChannelStore,
    channel: i64,
    start: i64,
    size: Option<PointSize>,
    room: &mut Room,
) -> Result<StartReply, NoMemory>
    requires within { room.old.bytes ≤ 67108864 }
    requires size { Ok size ≡ sized_within room.old.points (tail_of channels.now channel start) }
    ensures reply { IfOk result (λ r. r ≡ from_index start (past start (points_at channels.now channel))
        (room_with room.old (past start (points_at channels.now channel)))) }
    ensures room { IfOk result (λ r. room.new ≡ room_behind room.old r) }
    ensures within { room.new.bytes ≤ 67108864 }
{
    let Some(left) = room.left_by(size) else {
        return Ok(StartReply::Refused(ErrorCode::LimitExceeded));
    };
    let Ok(points) = channels.tail(channel, start) else {
        return Err(NoMemory);
    };
    *room = left;
    Ok(StartReply::From { start, points })
}

/// The points of an existing channel from an index on, if they fit into the room of the answer.
fn from_start(
    channels: &ChannelStore,
    channel: i64,
    start: i64,
    room: &mut Room,
) -> Result<StartReply, NoMemory>
    requires there { is_some (channel_at channels.now channel) ≡ true }
    requires within { room.old.bytes ≤ 67108864 }
    ensures reply { IfOk result (λ r. r ≡ from_index start (past start (points_at channels.now channel))
        (room_with room.old (past start (points_at channels.now channel)))) }
    ensures room { IfOk result (λ r. room.new ≡ room_behind room.old r) }
    ensures within { room.new.bytes ≤ 67108864 }
{
    match channels.tail_size_within(channel, start, room.points()) {
        Err(_) => Ok(StartReply::Refused(ErrorCode::NotFound)),
        Ok(size) => from_sized(channels, channel, start, size, room),
    }
}

/// Where a subscription starts, and its points, which are taken from the room of the answer.
fn start(channels: &ChannelStore, ask: &StartAsk, room: &mut Room) -> Result<StartReply, NoMemory>
    requires ends { EndsInRange channels.now }
    requires within { room.old.bytes ≤ 67108864 }
    ensures reply { IfOk result (λ r. r ≡ begun (channel_at channels.now ask.now.channel) room.old ask.now.start) }
    ensures room { IfOk result (λ r. room.new ≡ room_behind room.old r) }
    ensures within { room.new.bytes ≤ 67108864 }
{
    if !has(channels, ask.channel) {
        return Ok(StartReply::Refused(ErrorCode::NotFound));
    }
    if !is_start(ask.start) {
        return Ok(StartReply::Refused(ErrorCode::InvalidArgument));
    }
    let start = start_of(channels, ask.channel, ask.start);
    from_start(channels, ask.channel, start, room)
}

/// Where subscriptions start, in order.
#[tactic(auto, using(crate::proofs::BeginningLemmas::started_step))]
pub(crate) fn starts(
    alloc: Global,
    channels: &ChannelStore,
    items: Vec<(Text, StartAsk)>,
) -> Result<Vec<(Text, StartReply)>, NoMemory>
    requires { EndsInRange channels.now }
    ensures { IfOk result (λ l. l.items ≡ started channels.now whole_room items.items) }
{
    let mut room = Room::whole();
    let mut starts = Vec::new(alloc);
    starts.reserve(items.len())?;
    for (name, ask) in items {
        let reply = start(channels, &ask, &mut room)?;
        starts.push((name, reply))?;
    }
    Ok(starts)
}
