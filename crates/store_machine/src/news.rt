//! The changes that are due to subscriptions.
ghost use Rattle.std.specs.Prelude.{ℕ, ◌≡◌, ◌≤◌, ◌<◌, ◌++◌, ◌-◌, ◌+◌, [], IfOk, List as Items, OnOk, false, length, min, replicate, slice_get};
ghost use Rattle.std.specs.Option.{option_copied};
ghost use Rattle.etp_values.specs.Weight.{capped, weigh};
ghost use Rattle.channel_store.specs.declared.change.ChannelChange.{ChannelChange as AChange};
ghost use Rattle.channel_store.specs.Marks.{marked};
ghost use Rattle.channel_store.specs.Store.{changes_at};
ghost use Rattle.channel_store.specs.Told.{change_bytes};
ghost use Rattle.std.specs.List.{All};
ghost use Rattle.store_machine.specs.News.{fits_behind, is_some_due, joined, lag, news_by, taken as taken_of};
ghost use Rattle.store_machine.specs.Telling.{Takes, below, due_at, due_here, dues_at, followed_by, followed_with, marked_by, marks_at, same_from, set_marks};
ghost use Rattle.store_machine.specs.Watching.{IsCounted, IsFresh, Knows, Looks};
ghost use Rattle.store_machine.specs.declared.journal.Entry.{Entry as AnEntry};
ghost use Rattle.store_machine.specs.declared.watch.Watch.{Watch as AWatch};
ghost use Rattle.store_machine.specs.declared.call.Reply.TheVariants as replied;

use crate::call::Reply;
use crate::watch::{Watch, keep, lag_since, slot};
use channel_store::{ChannelChange, ChannelStore, Sub, change_bytes};
use etp_values::{Copied, List, NoMemory};
use std::alloc::Global;

/// The greatest number of changes in an answer, unless they are one entry's.
pub const MAX_CHANGES: usize = 256;

/// The greatest size of the points of these changes, unless they are one entry's.
pub const MAX_CHANGE_BYTES: u64 = 67_108_864;

/// A channel that subscriptions follow from a place of the journal on.
#[derive(Clone, Copy, Debug, Drop)]
pub(crate) struct Followed {
    pub(crate) channel: i64,
    pub(crate) from: u64,
}

/// How many of these channels are below a subscription's.
fn below(followed: &[Followed], sub: &Sub) -> usize
    ensures count { result ≡ below followed.now sub.now }
    ensures within { result ≤ length followed.now }
{
    let mut count = 0;
    for each in followed {
        if each.channel >= sub.channel {
            return count;
        }
        count += 1;
    }
    count
}

/// The place from which the channel at an index of these is followed, if it is the subscription's.
fn same_from(followed: &[Followed], place: usize, sub: &Sub) -> Option<u64>
    ensures { result ≡ same_from (slice_get followed.now place) sub.now }
{
    let Some(each) = followed.get(place) else {
        return None;
    };
    if each.channel != sub.channel {
        return None;
    }
    Some(each.from)
}

/// Follows the channel of a further subscription.
#[tactic(auto, using(crate::proofs::FollowingLemmas::put_same, crate::proofs::FollowingLemmas::put_new, crate::proofs::FollowingLemmas::place_within))]
fn follow(followed: &mut Vec<Followed>, sub: &Sub) -> Result<(), NoMemory>
    ensures { OnOk result (followed.new.items ≡ followed_with followed.old.items sub.now) }
{
    let place = below(followed.as_slice(), sub);
    if let Some(from) = same_from(followed.as_slice(), place, sub) {
        followed[place] = Followed {
            channel: sub.channel,
            from: from.min(sub.from),
        };
        return Ok(());
    }
    let each = Followed {
        channel: sub.channel,
        from: sub.from,
    };
    followed.insert(place, each)?;
    Ok(())
}

/// The channels that are followed, each once, in the order of their ids, from the least place of their subscriptions on.
fn followed_by(alloc: Global, subs: &List<Sub>) -> Result<Vec<Followed>, NoMemory>
    ensures { IfOk result (λ f. f.items ≡ followed_by subs.now) }
{
    let mut followed = Vec::new(alloc);
    for sub in subs.as_slice() {
        follow(&mut followed, sub)?;
    }
    Ok(followed)
}

/// The change of a channel by the entry at a place, if it is followed there.
fn due_here<'a>(
    channels: &'a ChannelStore,
    each: &Followed,
    place: u64,
) -> Option<&'a ChannelChange>
    ensures { option_copied result ≡ due_here channels.now each.now place }
{
    if each.from > place {
        return None;
    }
    channels.change_at(each.channel, place)
}

/// Sets the marks of the entries that change a followed channel. The first mark is that of the entry at `place`.
fn mark_due(channels: &ChannelStore, each: &Followed, place: u64, marks: &mut [bool])
    ensures { marks.new
        ≡ marked each.now.from place (changes_at channels.now each.now.channel) marks.old }
{
    channels.mark_changes(each.channel, each.from, place, marks);
}

/// Sets the marks of the entries with due changes. The first mark is that of the entry at `place`.
fn mark_all(channels: &ChannelStore, followed: &[Followed], place: u64, marks: &mut [bool])
    ensures { marks.new ≡ marked_by channels.now followed.now place marks.old }
{
    for each in followed {
        mark_due(channels, each, place, marks);
    }
}

/// How many marks are set.
fn count_set(marks: &[bool]) -> u64
    ensures { result ≡ set_marks marks.now }
{
    let mut count = 0;
    for mark in marks {
        if *mark {
            count += 1;
        }
    }
    count
}

/// This many marks, none of which is set.
fn no_marks(alloc: Global, count: u64) -> Result<Vec<bool>, NoMemory>
    ensures { IfOk result (λ m. m.items ≡ replicate count false) }
{
    let mut marks: Vec<bool> = Vec::new(alloc);
    marks.resize(count as usize, false)?;
    Ok(marks)
}

/// The marks of the entries from `place` on, below `mark`, that have due changes. Each change is visited once, and no entry is searched
/// for.
fn marks_from(
    alloc: Global,
    channels: &ChannelStore,
    followed: &[Followed],
    place: u64,
    mark: u64,
) -> Result<Vec<bool>, NoMemory>
    requires { place ≤ mark }
    ensures { IfOk result (λ m. m.items ≡ marks_at channels.now followed.now place (mark - place)) }
{
    let mut marks = no_marks(alloc, mark - place)?;
    mark_all(channels, followed, place, marks.as_mut_slice());
    Ok(marks)
}

/// How many of the entries from `place` on, below `mark`, have due changes. Each change is visited once.
#[tactic(auto, using(crate::proofs::LagLemmas::lag_marked, crate::proofs::LagLemmas::lag_nobody, crate::proofs::LagLemmas::lag_nothing))]
pub(crate) fn count_due(
    alloc: Global,
    channels: &ChannelStore,
    followed: &[Followed],
    place: u64,
    mark: u64,
) -> Result<u64, NoMemory>
    requires { place ≤ mark }
    ensures { IfOk result (λ n. n ≡ lag (dues_at channels.now followed.now place (mark - place))) }
{
    if followed.is_empty() {
        return Ok(0);
    }
    if place == mark {
        return Ok(0);
    }
    let marks = marks_from(alloc, channels, followed, place, mark)?;
    Ok(count_set(marks.as_slice()))
}

/// The due changes by the entry at a place, in the order of their channels.
fn due_at(
    alloc: Global,
    channels: &ChannelStore,
    followed: &[Followed],
    place: u64,
) -> Result<Vec<ChannelChange>, NoMemory>
    ensures { IfOk result (λ d. d.items ≡ due_at channels.now followed.now place) }
{
    let mut due = Vec::new(alloc);
    for each in followed {
        if let Some(change) = due_here(channels, each, place) {
            due.push(change.copy(alloc)?)?;
        }
    }
    Ok(due)
}

/// What the points of changes count; a sum above `u64::MAX` is `u64::MAX`.
fn changes_bytes(changes: &[ChannelChange]) -> u64
    ensures { result ≡ capped (weigh change_bytes changes.now) }
{
    let mut sum = 0u64;
    for change in changes {
        sum = sum.saturating_add(change_bytes(change));
    }
    sum
}

/// The changes that were taken, and what their points count.
#[derive(Drop)]
struct Taken {
    changes: Vec<ChannelChange>,
    bytes: u64,
}

/// Whether this many changes are taken after others, if all of them then count this many bytes. The first always are.
#[tactic(auto, using(crate::proofs::TakingLemmas::fits_empty, crate::proofs::TakingLemmas::fits_first, crate::proofs::TakingLemmas::fits_by_numbers))]
fn fits(taken: usize, count: usize, bytes: u64) -> bool
    ensures { (b : ℕ) (due : Items AChange) → count ≡ length due → bytes ≡ capped (b + weigh change_bytes due)
        → result ≡ fits_behind taken b due }
{
    if count == 0 || taken == 0 {
        return true;
    }
    taken.saturating_add(count) <= MAX_CHANGES && bytes <= MAX_CHANGE_BYTES
}

/// Adds changes after others.
fn push_all(changes: &mut Vec<ChannelChange>, due: Vec<ChannelChange>) -> Result<(), NoMemory>
    ensures { OnOk result (changes.new.items ≡ changes.old.items ++ due.items) }
{
    changes.reserve(due.len())?;
    for change in due {
        changes.push(change)?;
    }
    Ok(())
}

/// Takes the changes by the entry at a place, if they fit.
fn take_entry(
    alloc: Global,
    channels: &ChannelStore,
    followed: &[Followed],
    place: u64,
    taken: &mut Taken,
) -> Result<bool, NoMemory>
    requires { taken.old.bytes ≡ capped (weigh change_bytes taken.old.changes.items) }
    ensures takes { IfOk result (λ b.
        Takes b (due_at channels.now followed.now place) taken.old.changes.items taken.new.changes.items) }
    ensures bytes { IfOk result (λ b. taken.new.bytes ≡ capped (weigh change_bytes taken.new.changes.items)) }
{
    let due = due_at(alloc, channels, followed, place)?;
    let bytes = taken.bytes.saturating_add(changes_bytes(due.as_slice()));
    if !fits(taken.changes.len(), due.len(), bytes) {
        return Ok(false);
    }
    push_all(&mut taken.changes, due)?;
    taken.bytes = bytes;
    Ok(true)
}

/// Takes the changes by the entry at a place, if they fit. An entry that is not marked has none, and is not looked at.
fn take_marked(
    alloc: Global,
    channels: &ChannelStore,
    followed: &[Followed],
    place: u64,
    marked: bool,
    taken: &mut Taken,
) -> Result<bool, NoMemory>
    requires marked { marked ≡ is_some_due (due_at channels.now followed.now place) }
    requires bytes { taken.old.bytes ≡ capped (weigh change_bytes taken.old.changes.items) }
    ensures takes { IfOk result (λ b.
        Takes b (due_at channels.now followed.now place) taken.old.changes.items taken.new.changes.items) }
    ensures bytes { IfOk result (λ b. taken.new.bytes ≡ capped (weigh change_bytes taken.new.changes.items)) }
{
    if !marked {
        return Ok(true);
    }
    take_entry(alloc, channels, followed, place, taken)
}

/// The marks of the entries from `first` on, below `end`.
#[derive(Drop)]
struct Window {
    first: u64,
    end: u64,
    marks: Vec<bool>,
}

/// How many entries are marked after a window of this size. It grows, so that few windows pass over many entries without due changes; and it
/// starts small, since a few entries with many due changes are all that is taken at once.
fn next_size(size: u64) -> u64
    ensures { 0 < result }
{
    size.saturating_mul(2).max(4)
}

/// Goes on to a window that has the mark of the entry at a place, unless this one has it.
fn look_on(
    alloc: Global,
    channels: &ChannelStore,
    followed: &[Followed],
    window: &mut Window,
    place: u64,
    mark: u64,
) -> Result<(), NoMemory>
    requires begun { window.old.first ≤ place }
    requires looks { Looks channels.now followed.now window.old }
    requires within { place < mark }
    ensures begun { OnOk result (window.new.first ≤ place) }
    ensures looks { OnOk result (Looks channels.now followed.now window.new) }
    ensures within { OnOk result (place < window.new.end) }
{
    if place < window.end {
        return Ok(());
    }
    let size = next_size(window.end.saturating_sub(window.first));
    let end = place.saturating_add(size).min(mark);
    let marks = marks_from(alloc, channels, followed, place, end)?;
    *window = Window {
        first: place,
        end,
        marks,
    };
    Ok(())
}

/// Takes entries in order from `place` on as long as they fit, and returns the place up to which they were taken. It looks only at the
/// marked ones, and marks no more than twice as many as it takes.
fn take_from(
    alloc: Global,
    channels: &ChannelStore,
    followed: &[Followed],
    place: u64,
    mark: u64,
    taken: &mut Taken,
) -> Result<u64, NoMemory>
    requires within { place ≤ mark }
    requires none { taken.old.changes.items ≡ [] }
    requires bytes { taken.old.bytes ≡ 0 }
    ensures upto { IfOk result (λ u.
        u ≡ place + length (taken_of 0 0 (dues_at channels.now followed.now place (mark - place)))) }
    ensures changes { IfOk result (λ u. taken.new.changes.items
        ≡ joined (taken_of 0 0 (dues_at channels.now followed.now place (mark - place)))) }
{
    let mut window = Window {
        first: place,
        end: place,
        marks: Vec::new(alloc),
    };
    let mut from = place;
    while from < mark {
        look_on(alloc, channels, followed, &mut window, from, mark)?;
        let marked = window.marks[(from - window.first) as usize];
        let took = take_marked(alloc, channels, followed, from, marked, taken)?;
        if !took {
            return Ok(from);
        }
        from += 1;
    }
    Ok(from)
}

/// No changes.
fn nothing(alloc: Global, upto: u64, lag: u64) -> Reply
    ensures { result ≡ replied.News upto lag [] }
{
    Reply::News {
        upto,
        lag,
        changes: List::from_vec(Vec::new(alloc)),
    }
}

/// The changes of the entries from `from` on that are due to those who follow these channels, where `due` entries have such changes.
#[tactic(auto, using(crate::proofs::TakingLemmas::news_lagged, crate::proofs::TakingLemmas::news_untold, crate::proofs::TakingLemmas::news_told))]
fn news_from(
    alloc: Global,
    channels: &ChannelStore,
    limit: u64,
    mark: u64,
    from: u64,
    followed: &[Followed],
    due: u64,
) -> Result<Reply, NoMemory>
    requires within { from ≤ mark }
    requires due { due ≡ lag (dues_at channels.now followed.now from (mark - from)) }
    ensures { IfOk result (λ r. r ≡ news_by limit from mark
        (dues_at channels.now followed.now from (mark - from))) }
{
    if due > limit {
        return Ok(nothing(alloc, mark, due));
    }
    if due == 0 {
        return Ok(nothing(alloc, mark, 0));
    }
    let mut taken = Taken {
        changes: Vec::new(alloc),
        bytes: 0,
    };
    let upto = take_from(alloc, channels, followed, from, mark, &mut taken)?;
    Ok(Reply::News {
        upto,
        lag: due,
        changes: List::from_vec(taken.changes),
    })
}

/// The changes that are due to the subscriptions of the session `by` from `cursor` on, if the journal has the length `mark` and there are
/// `ids` channels. If more than `limit` entries have such changes, none are returned. What the session's last poll counted is carried on.
pub(crate) fn news(
    alloc: Global,
    channels: &ChannelStore,
    ids: u64,
    limit: u64,
    mark: u64,
    by: u64,
    cursor: u64,
    subs: &List<Sub>,
    watches: &mut Vec<Watch>,
) -> Result<Reply, NoMemory>
    requires { All (Knows channels.now ids (followed_by subs.now)) watches.old.items }
    ensures reply { IfOk result (λ r. r ≡ news_by limit (min cursor mark) mark
        (dues_at channels.now (followed_by subs.now) (min cursor mark) (mark - min cursor mark))) }
    ensures watches { (history : Items AnEntry) → All (IsCounted history) watches.old.items
        → ((w : AWatch) → IsFresh channels.now ids (followed_by subs.now) mark w → IsCounted history w)
        → All (IsCounted history) watches.new.items }
{
    let followed = followed_by(alloc, subs)?;
    let from = cursor.min(mark);
    let place = slot(watches.as_slice(), by);
    let due = lag_since(
        alloc,
        channels,
        ids,
        followed.as_slice(),
        from,
        mark,
        watches.as_slice(),
        place,
    )?;
    let reply = news_from(alloc, channels, limit, mark, from, followed.as_slice(), due)?;
    let watch = Watch {
        by,
        channels: ids,
        followed,
        from,
        mark,
        lag: due,
    };
    keep(watches, place, watch);
    Ok(reply)
}
