//! The tracks of all channels, and their ids by their URIs.
ghost use Rattle.std.specs.Prelude.{◌≡◌, IfOk, OnOk, map};
ghost use Rattle.std.specs.Map.{lookup};
ghost use Rattle.etp_values.specs.SameUri.{same_uri};
ghost use Rattle.channel_store.specs.Channels.{fresh};
ghost use Rattle.channel_store.specs.Rows.{plain};
ghost use Rattle.channel_store.specs.Tables.{HasIds, PutsId};

use crate::track::Track;
use etp_values::{Copied, NoMemory, StoreUri};
use indexmap::IndexMap;
use server_config::ChannelDef;
use std::alloc::Global;

/// A track for each definition.
pub fn fresh_tracks(alloc: Global, defs: &[ChannelDef]) -> Result<Vec<Track>, NoMemory>
    ensures { IfOk result (λ tracks. tracks.items ≡ map plain (map fresh defs.now)) }
{
    let mut tracks = Vec::new(alloc);
    tracks.reserve(defs.len())?;
    for def in defs {
        tracks.push(Track::new(alloc, def)?)?;
    }
    Ok(tracks)
}

/// Puts the id of a channel under its URI, if there is none yet.
#[tactic(auto, using(crate::proofs::TableLemmas::put_there))]
fn put_id(
    ids: &mut IndexMap<StoreUri, i64>,
    alloc: Global,
    uri: &StoreUri,
    id: i64,
) -> Result<(), NoMemory>
    ensures { OnOk result (PutsId uri.now id ids.old.entries ids.new.entries) }
{
    if ids.get(uri).is_some() {
        return Ok(());
    }
    ids.insert(uri.copy(alloc)?, id)?;
    Ok(())
}

/// The ids of the channels of definitions by their URIs; that of the first, if several have one URI.
#[tactic(auto, using(crate::proofs::TableLemmas::ids_done))]
pub fn ids_by_uri(alloc: Global, defs: &[ChannelDef]) -> Result<IndexMap<StoreUri, i64>, NoMemory>
    ensures { IfOk result (λ ids. HasIds ids.entries (map fresh defs.now)) }
{
    let mut ids = IndexMap::new(alloc);
    for (place, def) in defs.iter().enumerate() {
        put_id(&mut ids, alloc, &def.uri, place as i64)?;
    }
    Ok(ids)
}

/// The id of the channel that is this object.
pub fn id_in(ids: &IndexMap<StoreUri, i64>, uri: &StoreUri) -> Option<i64>
    ensures { result ≡ lookup (same_uri uri.now) ids.now.entries }
{
    match ids.get(uri) {
        Some(id) => Some(*id),
        None => None,
    }
}
