//! The time that appending and reading take.
use crate::channel::error::FeedError;
use crate::channel::feed::Feed;
use std::alloc::Global;
use std::io;
use std::time::{Duration, Instant};

/// How many points are read at once.
const READ: u32 = 1000;

/// The nanoseconds for each of `count` points.
fn each(time: Duration, count: u32) -> u128 {
    time.as_nanos() / (count as u128).max(1)
}

/// Appends them, `at_once` by each call.
fn append(alloc: Global, feed: &mut Feed, count: u32, at_once: u32) -> Result<(), FeedError> {
    let mut points = Vec::new(alloc);
    for index in 0..count {
        points.push((index as i64, index as i64))?;
        if points.len() >= at_once as usize {
            feed.append(points.as_slice())?;
            points.clear();
        }
    }
    feed.append(points.as_slice())
}

/// Reads them all, and returns how many there were.
fn read(feed: &Feed, count: u32) -> Result<u64, FeedError> {
    let mut found = 0u64;
    for part in 0..count.div_ceil(READ) {
        let from = part as i64 * READ as i64;
        let points = feed.range(from, from + READ as i64 - 1)?;
        found = found.saturating_add(points.len() as u64);
    }
    Ok(found)
}

/// Appends this many points and reads them by ranges, and prints the time that a point took.
pub(crate) fn measure_points(rt: &HostRuntime, count: u32, at_once: u32) -> io::Result<()> {
    let Ok(mut feed) = Feed::new(rt.alloc()) else {
        return println!(rt; "no memory for the store");
    };
    let start = Instant::now(rt)?;
    let appended = append(rt.alloc(), &mut feed, count, at_once);
    let appending = start.elapsed(rt)?;
    if let Err(error) = appended {
        return println!(rt; "{error:?}");
    }
    let start = Instant::now(rt)?;
    let read = read(&feed, count);
    let reading = start.elapsed(rt)?;
    match read {
        Ok(found) => println!(rt; "points read: {found}")?,
        Err(error) => println!(rt; "{error:?}")?,
    }
    println!(rt; "append: {} ns for each point", each(appending, count))?;
    println!(rt; "read: {} ns for each point", each(reading, count))
}
