//! What a server sends, without being asked, about channels that are subscribed to.
ghost use Rattle.std.specs.Prelude.{◌≡◌, ◌++◌, ◌∷◌, [], map, IfOk, OnOk, None, Some};
ghost use Rattle.std.specs.BTreeMap.{get};
ghost use Rattle.std.specs.List.{list_all};
ghost use Rattle.std.specs.Option.{unwrap_or};
ghost use Rattle.std.specs.Ordering.{int_cmp};
ghost use Rattle.client_parts.specs.Changes.{appended, bare_point, behind, channel_points, has_long_ends, has_one_long, index_of, is_long, is_point, is_point_of, long_of, point_of, points_of, range_changes, replaced_by, replacements, run_of, runs, subscribe_changes, truncated, truncations, with_point};
ghost use Rattle.msg_channel.specs.declared.channel_subscribe_messages.ChannelSubscribeMessage.TheVariants as subscribe;

use crate::grouping::{grouped, points_at};
use channel_points::{BoxedPoints, Points};
use channel_store::{ChangeMsg, What};
use etp_values::{ChannelPoint, Copied, List, NoMemory, Point};
use msg_channel::{
    ChannelData, ChannelSubscribeMessage, ChannelsTruncated, DataItem, IndexInterval, IndexValue,
    RangeReplaced, TruncateInfo,
};
use std::alloc::Global;
use std::collections::BTreeMap;

/// Consecutive points of one channel in a message.
#[derive(Drop)]
pub struct Run {
    pub channel: i64,
    pub points: List<Point>,
}

fn is_long(index: IndexValue) -> bool
    ensures { result ≡ is_long index }
{
    matches!(index, IndexValue::Long(_))
}

/// The number of an index that is a long.
fn long_of(index: IndexValue) -> i64
    ensures { result ≡ long_of index }
{
    match index {
        IndexValue::Long(number) => number,
        _ => 0,
    }
}

fn has_one_long(indexes: &[IndexValue]) -> bool
    ensures { result ≡ has_one_long indexes.now }
{
    match indexes {
        [] => false,
        [index] => is_long(*index),
        [_, _, ..] => false,
    }
}

fn index_of(indexes: &[IndexValue]) -> i64
    ensures { result ≡ index_of indexes.now }
{
    match indexes {
        [index, ..] => long_of(*index),
        [] => 0,
    }
}

/// Whether all items are points.
fn are_points(items: &[DataItem]) -> bool
    ensures { result ≡ list_all is_point items.now }
{
    for item in items {
        if !has_one_long(item.indexes.as_slice()) {
            return false;
        }
    }
    true
}

fn point_of(item: DataItem) -> ChannelPoint
    ensures { result ≡ point_of item }
{
    let index = index_of(item.indexes.as_slice());
    let DataItem {
        channel_id,
        value,
        ..
    } = item;
    ChannelPoint {
        channel: channel_id,
        point: Point { index, value },
    }
}

fn map_points(alloc: Global, items: List<DataItem>) -> Result<List<ChannelPoint>, NoMemory>
    ensures { IfOk result (λ l. l ≡ map point_of items) }
{
    let mut points = Vec::new(alloc);
    points.reserve(items.len())?;
    for item in items.into_vec() {
        points.push(point_of(item))?;
    }
    Ok(List::from_vec(points))
}

/// The points of items, if all of them are points.
fn points_of(alloc: Global, items: List<DataItem>) -> Result<Option<List<ChannelPoint>>, NoMemory>
    ensures { IfOk result (λ ps. ps ≡ points_of items) }
{
    if !are_points(items.as_slice()) {
        return no_points(items);
    }
    let points = map_points(alloc, items)?;
    Ok(Some(points))
}

fn no_points(items: List<DataItem>) -> Result<Option<List<ChannelPoint>>, NoMemory>
    ensures { IfOk result (λ ps. ps ≡ None) }
{
    drop(items);
    Ok(None)
}

/// Whether all items are points of a channel.
fn are_points_of(channel: i64, items: &[DataItem]) -> bool
    ensures { result ≡ list_all (is_point_of channel) items.now }
{
    for item in items {
        if !(has_one_long(item.indexes.as_slice()) && item.channel_id == channel) {
            return false;
        }
    }
    true
}

fn bare_point(alloc: Global, item: &DataItem) -> Result<Point, NoMemory>
    ensures { IfOk result (λ p. p ≡ bare_point item.now) }
{
    let value = item.value.copy(alloc)?;
    Ok(Point {
        index: index_of(item.indexes.as_slice()),
        value,
    })
}

fn bare_points(alloc: Global, items: &[DataItem]) -> Result<List<Point>, NoMemory>
    ensures { IfOk result (λ l. l ≡ map bare_point items.now) }
{
    let mut points = Vec::new(alloc);
    for item in items {
        points.push(bare_point(alloc, item)?)?;
    }
    Ok(List::from_vec(points))
}

/// Copies of the points of items, if all of them are points of a channel.
pub fn channel_points(
    alloc: Global,
    channel: i64,
    items: &[DataItem],
) -> Result<Option<List<Point>>, NoMemory>
    ensures { IfOk result (λ ps. ps ≡ channel_points channel items.now) }
{
    if !are_points_of(channel, items) {
        return Ok(None);
    }
    Ok(Some(bare_points(alloc, items)?))
}

fn run_of(alloc: Global, point: ChannelPoint) -> Result<Run, NoMemory>
    ensures { IfOk result (λ r. r ≡ run_of point) }
{
    let ChannelPoint { channel, point } = point;
    let mut points = Vec::new(alloc);
    points.push(point)?;
    Ok(Run {
        channel,
        points: List::from_vec(points),
    })
}

/// A run with one more point.
fn longer(run: Run, point: Point) -> Result<Run, NoMemory>
    ensures { IfOk result (λ r. r ≡ record run { points = run.points ++ point ∷ [] }) }
{
    let Run { channel, points } = run;
    let mut points = points.into_vec();
    points.push(point)?;
    Ok(Run {
        channel,
        points: List::from_vec(points),
    })
}

/// Adds a point to the last run, or starts a run of its own if its channel is another.
#[tactic(auto, using(crate::proofs::RunLemmas::with_last))]
fn add_point(alloc: Global, runs: &mut Vec<Run>, point: ChannelPoint) -> Result<(), NoMemory>
    ensures { OnOk result (runs.new.items ≡ with_point runs.old.items point) }
{
    match runs.pop() {
        Some(run) => add_behind(alloc, runs, run, point),
        None => {
            runs.push(run_of(alloc, point)?)?;
            Ok(())
        }
    }
}

fn add_behind(
    alloc: Global,
    runs: &mut Vec<Run>,
    last: Run,
    point: ChannelPoint,
) -> Result<(), NoMemory>
    ensures { OnOk result (runs.new.items ≡ runs.old.items ++ behind last point) }
{
    if last.channel == point.channel {
        runs.push(longer(last, point.point)?)?;
        return Ok(());
    }
    let next = run_of(alloc, point)?;
    runs.push(last)?;
    runs.push(next)?;
    Ok(())
}

fn runs(alloc: Global, points: List<ChannelPoint>) -> Result<Vec<Run>, NoMemory>
    ensures { IfOk result (λ r. r.items ≡ runs points) }
{
    let mut all = Vec::new(alloc);
    for point in points.into_vec() {
        add_point(alloc, &mut all, point)?;
    }
    Ok(all)
}

fn appended(alloc: Global, run: Run) -> Result<ChangeMsg, NoMemory>
    ensures { IfOk result (λ c. c ≡ appended run) }
{
    let points = Points::of(alloc, run.points.into_vec())?;
    Ok(ChangeMsg {
        channel: run.channel,
        what: What::Append(points),
    })
}

fn all_appended(alloc: Global, runs: Vec<Run>) -> Result<List<ChangeMsg>, NoMemory>
    ensures { IfOk result (λ l. l ≡ map appended runs.items) }
{
    let mut changes = Vec::new(alloc);
    for run in runs {
        changes.push(appended(alloc, run)?)?;
    }
    Ok(List::from_vec(changes))
}

/// One change for each run of points of one channel.
fn data_changes(alloc: Global, message: ChannelData) -> Result<Option<List<ChangeMsg>>, NoMemory>
    ensures { IfOk result (λ cs. cs ≡ subscribe_changes (subscribe.ChannelData message)) }
{
    let Some(points) = points_of(alloc, message.payload)? else {
        return Ok(None);
    };
    let runs = runs(alloc, points)?;
    let changes = all_appended(alloc, runs)?;
    Ok(Some(changes))
}

/// The change of a channel whose points are in the groups.
fn replaced(
    alloc: Global,
    held: &mut BTreeMap<i64, Points>,
    interval: &IndexInterval,
    channel: i64,
) -> Result<ChangeMsg, NoMemory>
    ensures change { IfOk result (λ c. c ≡ replaced_by interval.now (unwrap_or (get int_cmp held.old channel) []) channel) }
    ensures same { OnOk result ((q : _) → get int_cmp held.new q ≡ get int_cmp held.old q) }
{
    let points = points_at(alloc, held, channel)?;
    let points = BoxedPoints::new(alloc, points)?;
    Ok(ChangeMsg {
        channel,
        what: What::Replace {
            from: long_of(interval.start_index),
            to: long_of(interval.end_index),
            points,
        },
    })
}

/// A change for each of these channels.
fn all_replaced(
    alloc: Global,
    mut held: BTreeMap<i64, Points>,
    interval: &IndexInterval,
    channels: &[i64],
) -> Result<List<ChangeMsg>, NoMemory>
    ensures { IfOk result (λ l. l ≡ map (λ c. replaced_by interval.now (unwrap_or (get int_cmp held c) []) c) channels.now) }
{
    let mut changes = Vec::new(alloc);
    for channel in channels {
        let change = replaced(alloc, &mut held, interval, *channel)?;
        changes.push(change)?;
    }
    Ok(List::from_vec(changes))
}

fn replacements(
    alloc: Global,
    channels: &[i64],
    interval: &IndexInterval,
    points: Option<List<ChannelPoint>>,
) -> Result<Option<List<ChangeMsg>>, NoMemory>
    ensures { IfOk result (λ cs. cs ≡ replacements channels.now interval.now points) }
{
    match points {
        Some(points) => replacements_of(alloc, channels, interval, points),
        None => Ok(None),
    }
}

/// The changes of points, if each is of a channel that is listed.
fn replacements_of(
    alloc: Global,
    channels: &[i64],
    interval: &IndexInterval,
    points: List<ChannelPoint>,
) -> Result<Option<List<ChangeMsg>>, NoMemory>
    ensures { IfOk result (λ cs. cs ≡ replacements channels.now interval.now (Some points)) }
{
    let groups = grouped(alloc, channels, points)?;
    let Some(held) = groups else {
        return Ok(None);
    };
    let changes = all_replaced(alloc, held, interval, channels)?;
    Ok(Some(changes))
}

fn has_long_ends(interval: &IndexInterval) -> bool
    ensures { result ≡ has_long_ends interval.now }
{
    is_long(interval.start_index) && is_long(interval.end_index)
}

/// One change for each channel that is listed.
fn range_changes(alloc: Global, message: RangeReplaced) -> Result<Option<List<ChangeMsg>>, NoMemory>
    ensures { IfOk result (λ cs. cs ≡ range_changes message) }
{
    if !has_long_ends(&message.changed_interval) {
        return Ok(None);
    }
    let points = points_of(alloc, message.payload)?;
    replacements(
        alloc,
        message.channel_ids.as_slice(),
        &message.changed_interval,
        points,
    )
}

fn truncated(info: &TruncateInfo) -> ChangeMsg
    ensures { result ≡ truncated info.now }
{
    ChangeMsg {
        channel: info.channel_id,
        what: What::Truncate {
            end: long_of(info.new_end_index),
        },
    }
}

fn all_truncated(alloc: Global, infos: &[TruncateInfo]) -> Result<List<ChangeMsg>, NoMemory>
    ensures { IfOk result (λ l. l ≡ map truncated infos.now) }
{
    let mut changes = Vec::new(alloc);
    for info in infos {
        changes.push(truncated(info))?;
    }
    Ok(List::from_vec(changes))
}

fn have_long_ends(infos: &[TruncateInfo]) -> bool
    ensures { result ≡ list_all (λ t. is_long t.new_end_index) infos.now }
{
    for info in infos {
        if !is_long(info.new_end_index) {
            return false;
        }
    }
    true
}

/// One change for each truncated channel.
fn truncations(
    alloc: Global,
    message: ChannelsTruncated,
) -> Result<Option<List<ChangeMsg>>, NoMemory>
    ensures { IfOk result (λ cs. cs ≡ truncations message.channels) }
{
    let infos = message.channels.as_slice();
    if !have_long_ends(infos) {
        return Ok(None);
    }
    let changes = all_truncated(alloc, infos)?;
    Ok(Some(changes))
}

/// No changes, for a message that is not a notice.
fn no_changes<M: Drop>(message: M) -> Result<Option<List<ChangeMsg>>, NoMemory>
    ensures { IfOk result (λ cs. cs ≡ None) }
{
    drop(message);
    Ok(None)
}

/// The changes that a message reports, if it is a notice with long indexes.
pub fn subscribe_changes(
    alloc: Global,
    message: ChannelSubscribeMessage,
) -> Result<Option<List<ChangeMsg>>, NoMemory>
    ensures { IfOk result (λ cs. cs ≡ subscribe_changes message) }
{
    match message {
        ChannelSubscribeMessage::ChannelData(message) => data_changes(alloc, message),
        ChannelSubscribeMessage::RangeReplaced(message) => range_changes(alloc, message),
        ChannelSubscribeMessage::ChannelsTruncated(message) => truncations(alloc, message),
        other => no_changes(other),
    }
}
