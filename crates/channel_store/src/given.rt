//! The items of a call as the journal keeps them, which share the memory of the changes.
ghost use Rattle.std.specs.Prelude.{◌≡◌, ℤ, IfOk, OnOk};
ghost use Rattle.std.specs.List.{AllByRecursion};
ghost use Rattle.channel_store.specs.Refusals.{points_of};
ghost use Rattle.channel_store.specs.Rows.{Becomes};
ghost use Rattle.channel_store.specs.Sweeps.{Tells, row_at, shown_of, told_at};
ghost use Rattle.channel_store.specs.Told.{ending};

use crate::checks::{place_of, track_at};
use crate::error::ChannelError;
use crate::track::Track;
use channel_points::{ChannelPoints, Points, only_channel};
use etp_values::{ChannelPoint, Copied, List, NoMemory};
use std::alloc::Global;

fn seal(alloc: Global, tracks: &mut Vec<Track>, channel: i64) -> Result<(), NoMemory>
    ensures ok { OnOk result (tracks.new.items ≡ tracks.old.items) }
    ensures kept { shown_of tracks.new.items ≡ shown_of tracks.old.items }
{
    let Some(place) = place_of(tracks.len(), channel) else {
        return Ok(());
    };
    tracks[place].seal(alloc)
}

/// What is about to happen to the channels of these items is kept so that a copy of it shares its points.
fn seal_items(
    alloc: Global,
    tracks: &mut Vec<Track>,
    items: &[ChannelPoint],
) -> Result<(), NoMemory>
    ensures ok { OnOk result (tracks.new.items ≡ tracks.old.items) }
    ensures kept { shown_of tracks.new.items ≡ shown_of tracks.old.items }
{
    for item in items {
        if let Err(error) = seal(alloc, tracks, item.channel) {
            return Err(error);
        }
    }
    Ok(())
}

/// The points of what is about to happen to a channel.
fn staged_points(alloc: Global, tracks: &[Track], channel: i64) -> Result<Option<Points>, NoMemory>
    ensures { IfOk result (λ r. r ≡ told_at (row_at tracks.now channel)) }
{
    let Some(track) = track_at(tracks, channel) else {
        return Ok(None);
    };
    track.staged_points(alloc)
}

fn copy_items(alloc: Global, items: &[ChannelPoint]) -> Result<ChannelPoints, NoMemory>
    ensures { IfOk result (λ r. r ≡ items.now) }
{
    let mut copies = Vec::new(alloc);
    copies.reserve(items.len())?;
    for item in items {
        copies.push(item.copy(alloc)?)?;
    }
    ChannelPoints::of(alloc, List::from_vec(copies))
}

/// Items of one channel, which share the points of its change.
fn share(
    alloc: Global,
    tracks: &[Track],
    channel: i64,
    items: &[ChannelPoint],
) -> Result<ChannelPoints, NoMemory>
    requires one { AllByRecursion (λ i. i.channel ≡ channel) items.now }
    requires told { Tells (row_at tracks.now channel) (points_of channel items.now) }
    ensures { IfOk result (λ r. r ≡ items.now) }
{
    let Some(points) = staged_points(alloc, tracks, channel)? else {
        return copy_items(alloc, items);
    };
    Ok(ChannelPoints::single(channel, points))
}

/// The items, which share the points of the change if they are of one channel.
fn gather(
    alloc: Global,
    tracks: &[Track],
    items: &[ChannelPoint],
) -> Result<ChannelPoints, NoMemory>
    requires { (id : ℤ) → Tells (row_at tracks.now id) (points_of id items.now) }
    ensures { IfOk result (λ r. r ≡ items.now) }
{
    let Some(channel) = only_channel(items) else {
        return copy_items(alloc, items);
    };
    share(alloc, tracks, channel, items)
}

/// The items of what is about to happen, for the journal.
pub fn hand_out(
    alloc: Global,
    tracks: &mut Vec<Track>,
    items: &[ChannelPoint],
) -> Result<ChannelPoints, ChannelError>
    requires { (id : ℤ) → Tells (row_at tracks.old.items id) (points_of id items.now) }
    ensures answer { Becomes (ending result) tracks.new.items (Ok tracks.old.items) }
    ensures kept { shown_of tracks.new.items ≡ shown_of tracks.old.items }
    ensures items { IfOk result (λ r. r ≡ items.now) }
{
    seal_items(alloc, tracks, items)?;
    Ok(gather(alloc, tracks.as_slice(), items)?)
}
