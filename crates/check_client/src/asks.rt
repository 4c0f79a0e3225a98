//! Asks, by their words.
use client_core::Ask;
use etp_values::{Blob, ChannelPoint, DataValue, List, NoMemory, Point, StoreUri, Text};
use std::alloc::Global;

fn number(word: &str) -> i64 {
    word.parse::<i64>().unwrap_or(0)
}

/// The URI of a word, or the default dataspace.
fn uri_of(alloc: Global, word: &str) -> StoreUri {
    match StoreUri::read(alloc, word) {
        Ok(uri) => uri,
        Err(_) => StoreUri {
            space: Text::new(alloc),
            object: None,
        },
    }
}

/// This many bytes 0x41.
fn payload_of(alloc: Global, count: &str) -> Result<Blob, NoMemory> {
    let mut bytes = Vec::new(alloc);
    for _ in 0..count.parse::<u32>().unwrap_or(0) {
        bytes.push(0x41u8)?;
    }
    Ok(Blob::from_vec(bytes)?)
}

/// The point of `CHANNEL:INDEX:LONG`.
fn point_of(word: &str) -> ChannelPoint {
    let (channel, rest) = word.split_once(':').unwrap_or(("0", ""));
    let (index, value) = rest.split_once(':').unwrap_or(("0", "0"));
    ChannelPoint {
        channel: number(channel),
        point: Point {
            index: number(index),
            value: DataValue::Long(number(value)),
        },
    }
}

fn points_of(alloc: Global, words: &str) -> Result<List<ChannelPoint>, NoMemory> {
    let mut points = Vec::new(alloc);
    for word in words.split(' ') {
        points.push(point_of(word))?;
    }
    Ok(List::from_vec(points))
}

/// The points of `INDEX:LONG ..`, of which there may be none.
fn bare_points_of(alloc: Global, words: &str) -> Result<List<Point>, NoMemory> {
    let mut points = Vec::new(alloc);
    for word in words.split_whitespace() {
        let (index, value) = word.split_once(':').unwrap_or(("0", "0"));
        points.push(Point {
            index: number(index),
            value: DataValue::Long(number(value)),
        })?;
    }
    Ok(List::from_vec(points))
}

/// The ask of two words.
fn pair_of(alloc: Global, name: &str, rest: &str) -> Result<Option<Ask>, NoMemory> {
    match name {
        "space" => Ok(Some(Ask::PutSpace(Text::copy(alloc, rest)?))),
        "get" => Ok(Some(Ask::Get(uri_of(alloc, rest)))),
        "open" => Ok(Some(Ask::OpenChannel(uri_of(alloc, rest)))),
        "meta" => Ok(Some(Ask::Meta(uri_of(alloc, rest)))),
        "load" => Ok(Some(Ask::Load(points_of(alloc, rest)?))),
        "delete" => Ok(Some(Ask::Delete(uri_of(alloc, rest)))),
        _ => triple_of(alloc, name, rest),
    }
}

/// The ask of three words.
fn triple_of(alloc: Global, name: &str, rest: &str) -> Result<Option<Ask>, NoMemory> {
    let (second, third) = rest.split_once(' ').unwrap_or((rest, ""));
    match name {
        "put" => {
            let payload = payload_of(alloc, third)?;
            let uri = uri_of(alloc, second);
            Ok(Some(Ask::Put { uri, payload }))
        }
        "subscribe" => Ok(Some(Ask::Subscribe {
            channel: number(second),
            start: number(third),
        })),
        "cut" => Ok(Some(Ask::Cut {
            channel: number(second),
            end: number(third),
        })),
        _ => interval_of(alloc, name, number(second), third),
    }
}

/// The ask of a channel, an interval and points.
fn interval_of(
    alloc: Global,
    name: &str,
    channel: i64,
    rest: &str,
) -> Result<Option<Ask>, NoMemory> {
    let (from, rest) = rest.split_once(' ').unwrap_or((rest, ""));
    let (to, rest) = rest.split_once(' ').unwrap_or((rest, ""));
    let from = number(from);
    let to = number(to);
    match name {
        "range" => Ok(Some(Ask::Range { channel, from, to })),
        "replace" => {
            let points = bare_points_of(alloc, rest)?;
            Ok(Some(Ask::Replace {
                channel,
                from,
                to,
                points,
            }))
        }
        _ => Ok(None),
    }
}

/// The ask of a line, if it is one.
pub(crate) fn ask_of(alloc: Global, line: &str) -> Result<Option<Ask>, NoMemory> {
    match line {
        "ping" => Ok(Some(Ask::Ping)),
        "spaces" => Ok(Some(Ask::Spaces)),
        "close" => Ok(Some(Ask::Close)),
        _ => {
            let (name, rest) = line.split_once(' ').unwrap_or((line, ""));
            pair_of(alloc, name, rest)
        }
    }
}
