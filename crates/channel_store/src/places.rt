//! A channel's changes by the places of their entries in the journal.
ghost use Rattle.std.specs.Prelude.{◌≡◌, ◌≤◌, ◌==◌, find, length, nat_le, nat_lt, option_map, slice_get, true, false};
ghost use Rattle.std.specs.List.Sorted.{IsPartitionPoint};
ghost use Rattle.std.specs.Option.{option_copied};
ghost use Rattle.channel_store.specs.Channels.{PlacesRise};
ghost use Rattle.channel_store.specs.Marks.{marked};
ghost use Rattle.channel_store.specs.Told.{stands_before};

use crate::change::ChannelChange;
use channel_points::Rows;

/// Whether the change of this number is before a place. After the last change none is.
fn stands_before(changes: &Rows<ChannelChange>, number: usize, place: u64) -> bool
    ensures { result ≡ stands_before place (slice_get changes.now.items number) }
{
    match changes.get(number) {
        Some(change) => change.place < place,
        None => false,
    }
}

/// How many changes are before a place.
fn count_before(changes: &Rows<ChannelChange>, place: u64) -> usize
    requires { PlacesRise changes.now.items }
    ensures point { IsPartitionPoint (λ x. nat_lt x.place place ≡ true)
        (λ x. nat_lt x.place place ≡ false) changes.now.items result }
    ensures within { result ≤ length changes.now.items }
{
    let mut low = 0usize;
    let mut high = changes.len();
    while low < high {
        let middle = low + (high - low) / 2;
        if stands_before(changes, middle, place) {
            low = middle + 1;
        } else {
            high = middle;
        }
    }
    low
}

/// The change whose entry is at a place.
pub fn change_at(changes: &Rows<ChannelChange>, place: u64) -> Option<&ChannelChange>
    requires { PlacesRise changes.now.items }
    ensures { option_copied result ≡ find (λ x. x.place == place) changes.now.items }
{
    let count = count_before(changes, place);
    let Some(change) = changes.get(count) else {
        return None;
    };
    if change.place == place {
        return Some(change);
    }
    None
}

/// The place of the first change whose entry is at or past a place.
pub fn next_place(changes: &Rows<ChannelChange>, place: u64) -> Option<u64>
    requires { PlacesRise changes.now.items }
    ensures { result
        ≡ option_map (λ x. x.place) (find (λ x. nat_le place x.place) changes.now.items) }
{
    let count = count_before(changes, place);
    let Some(change) = changes.get(count) else {
        return None;
    };
    Some(change.place)
}

/// Sets the marks of the places from `from` on at which there is a change. The first mark is that of the place `first`.
pub fn mark_changes(changes: &Rows<ChannelChange>, from: u64, first: u64, marks: &mut [bool])
    requires { PlacesRise changes.now.items }
    ensures { marks.new ≡ marked from first changes.now.items marks.old }
{
    let start = count_before(changes, from.max(first));
    for number in start..changes.len() {
        let Some(change) = changes.get(number) else {
            return;
        };
        let mark = (change.place - first) as usize;
        if mark >= marks.len() {
            return;
        }
        marks[mark] = true;
    }
}
