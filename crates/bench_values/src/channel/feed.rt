//! A store of one channel that counts the places of its changes itself.
ghost use Rattle.std.specs.Prelude.{◌≡◌, ◌+◌, IfOk, OnErr, length};

use crate::channel::changes::Change;
use crate::channel::error::FeedError;
use channel_store::ChannelStore;
use etp_values::{
    ChannelPoint, Copied, DataValue, Id16, List, NoMemory, Point, Shared, StoreUri, Text,
};
use server_config::{ChannelDef, Config, ValueKind};
use std::alloc::Global;
use std::marker::Model;

/// The one channel's points and changes. Every place from `next` on is new.
#[derive(Drop)]
pub(crate) struct Feed {
    alloc: Global,
    store: ChannelStore,
    next: u64,
}

impl Model for Feed {
    ghost use Rattle.std.specs.Prelude.{List as Items, ℕ, ◌≤◌};
    ghost use Rattle.channel_store.specs.Channels.{Channel};
    ghost use Rattle.channel_store.specs.Store.{IsNewPlace};

    ghost Value = { Items Channel };

    ghost view = { λ s. s.store };

    ghost invariant = { λ s. (place : ℕ) → s.next ≤ place → IsNewPlace place s.store };
}

fn def(alloc: Global) -> Result<ChannelDef, NoMemory> {
    Ok(ChannelDef {
        uri: StoreUri {
            space: Text::copy(alloc, "a")?,
            object: None,
        },
        name: Text::copy(alloc, "a")?,
        kind: ValueKind::Long,
        uom: Text::new(alloc),
    })
}

fn config(alloc: Global) -> Result<Config, NoMemory> {
    let mut channels = Vec::new(alloc);
    channels.push(def(alloc)?)?;
    Ok(Config {
        instance: Id16::from_bytes([0; 16]),
        name: Text::copy(alloc, "wd")?,
        lag: 1,
        journal: 2,
        types: None,
        channels: Shared::new(alloc, List::from_vec(channels))?,
    })
}

/// The items of the channel at these indexes with these values.
fn items(alloc: Global, points: &[(i64, i64)]) -> Result<List<ChannelPoint>, NoMemory> {
    let mut items = Vec::new(alloc);
    for point in points {
        items.push(ChannelPoint {
            channel: 0,
            point: Point {
                index: point.0,
                value: DataValue::Long(point.1),
            },
        })?;
    }
    Ok(List::from_vec(items))
}

fn one(alloc: Global, number: i64) -> Result<List<i64>, NoMemory>
    ensures { IfOk result (λ r. length r ≡ 1) }
{
    Ok(List::from_vec([number].to_vec(alloc)?))
}

/// Takes the next place.
fn take(next: &mut u64) -> Result<u64, FeedError>
    ensures ok { IfOk result (λ place. (place ≡ next.old) × (next.new ≡ place + 1)) }
    ensures err { OnErr result (next.new ≡ next.old) }
{
    let place = *next;
    let Some(later) = place.checked_add(1) else {
        return Err(FeedError::Full);
    };
    *next = later;
    Ok(place)
}

impl Feed {
    pub(crate) fn new(alloc: Global) -> Result<Feed, NoMemory> {
        let config = config(alloc)?;
        let store = ChannelStore::new(alloc, &config)?;
        Ok(Feed {
            alloc,
            store,
            next: 0,
        })
    }

    pub(crate) fn append(&mut self, points: &[(i64, i64)]) -> Result<(), FeedError> {
        let items = items(self.alloc, points)?;
        let place = take(&mut self.next)?;
        Ok(self.store.append(place, 0, &items)?)
    }

    fn replace(&mut self, from: i64, to: i64, points: &[(i64, i64)]) -> Result<(), FeedError> {
        let items = items(self.alloc, points)?;
        let channels = one(self.alloc, 0)?;
        let place = take(&mut self.next)?;
        Ok(self.store.replace(place, 0, &channels, from, to, &items)?)
    }

    fn truncate(&mut self, end: i64) -> Result<(), FeedError> {
        let channels = one(self.alloc, 0)?;
        let ends = one(self.alloc, end)?;
        let place = take(&mut self.next)?;
        Ok(self.store.truncate(place, 0, &channels, &ends)?)
    }

    pub(crate) fn apply(&mut self, change: &Change) -> Result<(), FeedError> {
        match change {
            Change::Append(points) => self.append(points.as_slice()),
            Change::Replace { from, to, points } => self.replace(*from, *to, points.as_slice()),
            Change::Truncate { end } => self.truncate(*end),
        }
    }

    pub(crate) fn last_index(&self) -> Option<i64> {
        self.store.last_index(0)
    }

    pub(crate) fn range(&self, from: i64, to: i64) -> Result<List<Point>, FeedError> {
        Ok(self.store.range(0, from, to)?)
    }
}
