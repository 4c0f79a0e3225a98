//! The points of a message by their channels.
ghost use Rattle.std.specs.Prelude.{◌≡◌, ◌++◌, ◌∷◌, [], is_some, option_map, IfOk, IfSome, OnOk};
ghost use Rattle.std.specs.BTreeMap.{get};
ghost use Rattle.std.specs.List.{list_all};
ghost use Rattle.std.specs.Option.{unwrap_or};
ghost use Rattle.std.specs.Ordering.{int_cmp};
ghost use Rattle.client_parts.specs.Changes.{is_listed, of_channel};
ghost use Rattle.client_parts.specs.Grouping.{group};

use channel_points::Points;
use etp_values::{ChannelPoint, Copied, List, NoMemory};
use std::alloc::Global;
use std::collections::BTreeMap;

/// An empty list of points for each channel that is listed.
fn listed(alloc: Global, channels: &[i64]) -> Result<BTreeMap<i64, Points>, NoMemory>
    ensures { IfOk result (λ held. (q : _) → get int_cmp held q ≡ group channels.now [] q) }
{
    let mut held = BTreeMap::new(alloc);
    for channel in channels {
        held.insert(*channel, Points::none())?;
    }
    Ok(held)
}

/// Adds a point to those of its channel. Returns whether the channel is listed.
fn add(
    alloc: Global,
    held: &mut BTreeMap<i64, Points>,
    point: ChannelPoint,
) -> Result<bool, NoMemory>
    ensures there { IfOk result (λ there. there ≡ is_some (get int_cmp held.old point.channel)) }
    ensures added { OnOk result ((q : _) → get int_cmp held.new q ≡ option_map (λ ps. ps ++ of_channel q (point ∷ [])) (get int_cmp held.old q)) }
{
    let ChannelPoint { channel, point } = point;
    let Some(mut points) = held.remove(&channel) else {
        return Ok(false);
    };
    points.push(alloc, point)?;
    held.insert(channel, points)?;
    Ok(true)
}

/// The points of each channel that is listed; `None` if a point is of another channel.
pub(crate) fn grouped(
    alloc: Global,
    channels: &[i64],
    points: List<ChannelPoint>,
) -> Result<Option<BTreeMap<i64, Points>>, NoMemory>
    ensures all { IfOk result (λ held. is_some held ≡ list_all (is_listed channels.now) points) }
    ensures points { IfOk result (λ held. IfSome held (λ h. (q : _) → get int_cmp h q ≡ group channels.now points q)) }
{
    let mut held = listed(alloc, channels)?;
    for point in points.into_vec() {
        if !add(alloc, &mut held, point)? {
            return Ok(None);
        }
    }
    Ok(Some(held))
}

/// The points of a channel. They are not moved: the copy shares their memory.
pub(crate) fn points_at(
    alloc: Global,
    held: &mut BTreeMap<i64, Points>,
    channel: i64,
) -> Result<Points, NoMemory>
    ensures points { IfOk result (λ ps. ps ≡ unwrap_or (get int_cmp held.old channel) []) }
    ensures same { OnOk result ((q : _) → get int_cmp held.new q ≡ get int_cmp held.old q) }
{
    let Some(points) = held.remove(&channel) else {
        return Ok(Points::none());
    };
    let points = points.sealed(alloc)?;
    let copy = points.copy(alloc)?;
    held.insert(channel, points)?;
    Ok(copy)
}
