//! The thousand changes of one channel, kept by the store and by a plain list.
use crate::channel::changes::{Change, Numbers};
use crate::channel::error::FeedError;
use crate::channel::feed::Feed;
use crate::channel::plain::{apply, is_same, last_index};
use channel_store::{MAX_INDEX, MIN_INDEX};
use std::alloc::Global;
use std::io;

/// How many changes of each kind there were.
#[derive(Clone, Copy)]
struct Tally {
    appends: u32,
    replacements: u32,
    truncations: u32,
}

impl Tally {
    fn count(&mut self, change: &Change) {
        let counter = match change {
            Change::Append(_) => &mut self.appends,
            Change::Replace { .. } => &mut self.replacements,
            Change::Truncate { .. } => &mut self.truncations,
        };
        *counter = counter.saturating_add(1);
    }
}

#[derive(Drop)]
struct Trial {
    alloc: Global,
    numbers: Numbers,
    feed: Feed,
    list: Vec<(i64, i64)>,
    tally: Tally,
    same: bool,
}

impl Trial {
    fn new(alloc: Global) -> Result<Trial, FeedError> {
        Ok(Trial {
            alloc,
            numbers: Numbers::new(),
            feed: Feed::new(alloc)?,
            list: Vec::new(alloc),
            tally: Tally {
                appends: 0,
                replacements: 0,
                truncations: 0,
            },
            same: true,
        })
    }

    /// Makes the next change in both, and compares them.
    fn step(&mut self) -> Result<(), FeedError> {
        let last = last_index(self.list.as_slice()).unwrap_or(0);
        let change = self.numbers.change(self.alloc, last)?;
        self.tally.count(&change);
        self.feed.apply(&change)?;
        apply(&mut self.list, &change)?;
        self.compare()
    }

    fn compare(&mut self) -> Result<(), FeedError> {
        let points = self.feed.range(MIN_INDEX, MAX_INDEX)?;
        self.same = self.same
            && is_same(self.list.as_slice(), points.as_slice())
            && self.feed.last_index() == last_index(self.list.as_slice());
        Ok(())
    }

    fn steps(&mut self, count: u32) -> Result<(), FeedError> {
        for _ in 0..count {
            self.step()?;
        }
        Ok(())
    }
}

/// The sum of the values of points.
fn sum(points: &[(i64, i64)]) -> i64 {
    let mut sum = 0i64;
    for point in points {
        sum = sum.saturating_add(point.1);
    }
    sum
}

fn thousand(alloc: Global) -> Result<Trial, FeedError> {
    let mut trial = Trial::new(alloc)?;
    trial.steps(1000)?;
    Ok(trial)
}

/// How many points a range gives, of as many that were appended at once.
fn read_at_once(alloc: Global, count: u32) -> Result<usize, FeedError> {
    let mut feed = Feed::new(alloc)?;
    let mut points = Vec::new(alloc);
    for index in 0..count {
        points.push((index as i64, 0))?;
    }
    feed.append(points.as_slice())?;
    Ok(feed.range(0, count as i64)?.len())
}

fn show(rt: &HostRuntime, trial: &Trial) -> io::Result<()> {
    let tally = trial.tally;
    println!(rt; "appends: {}", tally.appends)?;
    println!(rt; "replacements: {}", tally.replacements)?;
    println!(rt; "truncations: {}", tally.truncations)?;
    println!(rt; "points left: {}", trial.list.len())?;
    println!(rt; "sum of their values: {}", sum(trial.list.as_slice()))?;
    println!(rt; "last index: {:?}", trial.feed.last_index())?;
    println!(rt; "{}", if trial.same { "same" } else { "different" })
}

/// Takes a channel through its changes and prints what came of it, and how many points a range gives that were appended at once.
pub(crate) fn run_trial(rt: &HostRuntime) -> io::Result<()> {
    match thousand(rt.alloc()) {
        Ok(trial) => show(rt, &trial)?,
        Err(error) => println!(rt; "{error:?}")?,
    }
    match read_at_once(rt.alloc(), 2000) {
        Ok(count) => println!(rt; "points read at once: {count}"),
        Err(error) => println!(rt; "{error:?}"),
    }
}
