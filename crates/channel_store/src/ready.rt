//! The points of channels after what is about to happen, made before it happens: so it can't fail.
ghost use Rattle.std.specs.Prelude.{◌≡◌, IfOk};
ghost use Rattle.channel_store.specs.Sweeps.{AreReady, IsNextIn, ids_ready, row_at};

use crate::checks::track_at;
use crate::track::Track;
use channel_points::Chunks;
use etp_values::NoMemory;
use std::alloc::Global;

/// The points that a channel will have.
#[derive(Drop)]
pub struct Ready {
    pub channel: i64,
    pub points: Chunks,
}

/// The points that a channel will have, if there is one.
fn points_after(alloc: Global, tracks: &[Track], channel: i64) -> Result<Chunks, NoMemory>
    ensures { IfOk result (λ h. IsNextIn (row_at tracks.now channel) h) }
{
    let Some(track) = track_at(tracks, channel) else {
        return Ok(Chunks::new(alloc));
    };
    track.ready(alloc)
}

/// The points that these channels will have.
pub fn ready_channels(
    alloc: Global,
    tracks: &[Track],
    channels: &[i64],
) -> Result<Vec<Ready>, NoMemory>
    ensures channels { IfOk result (λ r. ids_ready r.items ≡ channels.now) }
    ensures ready { IfOk result (λ r. AreReady tracks.now r.items) }
{
    let mut readies = Vec::new(alloc);
    for channel in channels {
        readies.reserve(1)?;
        let points = points_after(alloc, tracks, *channel)?;
        readies.push_reserved(Ready {
            channel: *channel,
            points,
        });
    }
    Ok(readies)
}
