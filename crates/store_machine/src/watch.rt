//! What a session's last poll counted, so that its next one counts only what has come since.
ghost use Rattle.std.specs.Prelude.{◌≡◌, ◌≤◌, ◌-◌, IfOk, IsTrue, List as Items, length};
ghost use Rattle.std.specs.List.{All};
ghost use Rattle.store_machine.specs.News.{lag};
ghost use Rattle.store_machine.specs.Telling.{dues_at};
ghost use Rattle.store_machine.specs.Watching.{IsCounted, Knows, Suits};
ghost use Rattle.store_machine.specs.declared.journal.Entry.{Entry as AnEntry};

use crate::news::{Followed, count_due};
use channel_store::ChannelStore;
use etp_values::NoMemory;
use std::alloc::Global;

/// How many sessions' counts are kept. With more sessions than these some are counted anew at a poll.
pub(crate) const MAX_WATCHES: usize = 64;

/// How many of the entries from `from` on, below `mark`, have changes that are due to the session `by`, which follows these channels. `channels`
/// is how many channels there are.
#[derive(Drop)]
pub(crate) struct Watch {
    pub(crate) by: u64,
    pub(crate) channels: u64,
    pub(crate) followed: Vec<Followed>,
    pub(crate) from: u64,
    pub(crate) mark: u64,
    pub(crate) lag: u64,
}

/// The place of a session's watch, or how many watches there are if it has none.
fn place_of(watches: &[Watch], by: u64) -> usize
    ensures { result ≤ length watches.now }
{
    let mut place = 0;
    for watch in watches {
        if watch.by == by {
            return place;
        }
        place += 1;
    }
    place
}

/// The place of the watch that was set first.
fn oldest(watches: &[Watch]) -> usize
    ensures { result ≤ length watches.now }
{
    let mut oldest = 0;
    let mut mark = u64::MAX;
    let mut place = 0;
    for watch in watches {
        if watch.mark < mark {
            oldest = place;
            mark = watch.mark;
        }
        place += 1;
    }
    oldest
}

/// The place at which a session's watch is kept: that of its last one, or a further one, or that of the oldest.
pub(crate) fn slot(watches: &[Watch], by: u64) -> usize
    ensures { result ≤ length watches.now }
{
    let place = place_of(watches, by);
    if place < MAX_WATCHES {
        return place;
    }
    oldest(watches)
}

/// Whether two channels are followed from the same place on, and are the same.
fn is_same_one(one: &Followed, other: &Followed) -> bool
    ensures { IsTrue result → one.now ≡ other.now }
{
    one.channel == other.channel && one.from == other.from
}

/// Whether the same channels are followed from the same places on.
#[tactic(auto, using(crate::proofs::WatchLemmas::same_cons))]
fn is_same(ones: &[Followed], others: &[Followed]) -> bool
    ensures { IsTrue result → ones.now ≡ others.now }
{
    let [one, ones @ ..] = ones else {
        return others.is_empty();
    };
    let [other, others @ ..] = others else {
        return false;
    };
    if !is_same_one(one, other) {
        return false;
    }
    is_same(ones, others)
}

/// Whether a count goes on from a watch.
fn suits(watch: &Watch, ids: u64, followed: &[Followed], from: u64, mark: u64) -> bool
    ensures { IsTrue result → Suits ids followed.now from mark watch.now }
{
    if watch.channels != ids {
        return false;
    }
    if watch.from > from || from > watch.mark || watch.mark > mark {
        return false;
    }
    is_same(watch.followed.as_slice(), followed)
}

/// How many entries from `from` on, below `mark`, have due changes: what a watch counted without what was passed since, and what was added.
fn carried(
    alloc: Global,
    channels: &ChannelStore,
    followed: &[Followed],
    from: u64,
    mark: u64,
    watch: &Watch,
) -> Result<u64, NoMemory>
    requires begun { watch.now.from ≤ from }
    requires inside { from ≤ watch.now.mark }
    requires within { watch.now.mark ≤ mark }
    requires known { watch.now.lag
        ≡ lag (dues_at channels.now followed.now watch.now.from (watch.now.mark - watch.now.from)) }
    ensures { IfOk result (λ n. n ≡ lag (dues_at channels.now followed.now from (mark - from))) }
{
    let passed = count_due(alloc, channels, followed, watch.from, from)?;
    let added = count_due(alloc, channels, followed, watch.mark, mark)?;
    Ok(watch.lag.saturating_sub(passed).saturating_add(added))
}

/// How many entries from `from` on, below `mark`, have due changes, by the watch at a place if it suits.
pub(crate) fn lag_since(
    alloc: Global,
    channels: &ChannelStore,
    ids: u64,
    followed: &[Followed],
    from: u64,
    mark: u64,
    watches: &[Watch],
    place: usize,
) -> Result<u64, NoMemory>
    requires within { from ≤ mark }
    requires known { All (Knows channels.now ids followed.now) watches.now }
    ensures { IfOk result (λ n. n ≡ lag (dues_at channels.now followed.now from (mark - from))) }
{
    let Some(watch) = watches.get(place) else {
        return count_due(alloc, channels, followed, from, mark);
    };
    if !suits(watch, ids, followed, from, mark) {
        return count_due(alloc, channels, followed, from, mark);
    }
    carried(alloc, channels, followed, from, mark, watch)
}

/// Keeps a watch at a place. A further one for which there is no memory is not kept, and the session is counted anew at its next poll.
pub(crate) fn keep(watches: &mut Vec<Watch>, place: usize, watch: Watch)
    requires { place ≤ length watches.old.items }
    ensures { (history : Items AnEntry) → All (IsCounted history) watches.old.items → IsCounted history watch
        → All (IsCounted history) watches.new.items }
{
    if place < watches.len() {
        watches[place] = watch;
        return;
    }
    let _ = watches.push(watch);
}
