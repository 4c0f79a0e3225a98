use crate::claims::{equal, holds};
use channel_points::*;
use etp_values::{Boxed, ChannelPoint, Copied, DataValue, List, NoMemory, Point, Text};
use std::alloc::Global;
use std::test::Fail;

fn long(index: i64) -> Point {
    Point {
        index,
        value: DataValue::Long(index),
    }
}

fn text(alloc: Global, index: i64, value: &str) -> Result<Point, NoMemory> {
    Ok(Point {
        index,
        value: DataValue::String(Boxed::new(alloc, Text::copy(alloc, value)?)?),
    })
}

/// Accepts only what may be moved to another thread, and seen there by several.
fn crossing<T: Send + Sync>(value: T) -> T {
    value
}

#[test]
fn rows_are_found_in_their_blocks(rt: HostRuntime) -> Result<(), Fail> {
    let mut rows = Rows::new(rt.alloc());
    holds(&rt, rows.is_empty());
    for number in 0..2050u32 {
        rows.reserve()?;
        rows.push_reserved(number);
    }
    equal(&rt, rows.len(), 2050);
    for place in [0usize, 1023, 1024, 2047, 2048, 2049] {
        equal(&rt, rows.get(place).copied(), Some(place as u32));
    }
    equal(&rt, rows.get(2050), None);
    Ok(())
}

/// A long and a text of three bytes.
fn two_points(alloc: Global) -> Result<Points, NoMemory> {
    let mut points = Points::none();
    points.push(alloc, long(10))?;
    points.push(alloc, text(alloc, 20, "abc")?)?;
    points.sealed(alloc)
}

/// 16 each, 8 for a long and 3 for the text.
#[test]
fn points_are_shared(rt: HostRuntime) -> Result<(), Fail> {
    let alloc = rt.alloc();
    let copied = crossing(two_points(alloc)?.copy(alloc)?);
    equal(&rt, copied.bytes(), 43);
    assert_eq!(rt; copied.len(), 2);
    equal(&rt, copied.index_at(1), 20);
    holds(&rt, copied.copy_at(alloc, 1)? == text(alloc, 20, "abc")?);
    Ok(())
}

#[test]
fn boxed_points_are_their_points(rt: HostRuntime) -> Result<(), Fail> {
    let alloc = rt.alloc();
    let boxed = BoxedPoints::new(alloc, two_points(alloc)?)?;
    holds(&rt, boxed.copy(alloc)? == boxed);
    let listed = Points::of(alloc, boxed.get().to_list(alloc)?.into_vec())?;
    holds(&rt, listed == two_points(alloc)?);
    Ok(())
}

#[test]
fn items_keep_their_order(rt: HostRuntime) -> Result<(), Fail> {
    let alloc = rt.alloc();
    let mut items = Vec::new(alloc);
    for row in [(7, 10), (9, 11), (7, 12)] {
        items.push(ChannelPoint {
            channel: row.0,
            point: long(row.1),
        })?;
    }
    let items = List::from_vec(items);
    let kept = crossing(ChannelPoints::of(alloc, items.copy(alloc)?)?).copy(alloc)?;
    assert_eq!(rt; kept.len(), 3);
    equal(&rt, kept.channel_at(1), 9);
    equal(&rt, kept.index_at(2), 12);
    holds(&rt, kept.copy_at(alloc, 0)? == long(10));
    equal(&rt, kept.bytes(), 72);
    holds(&rt, kept.to_list(alloc)? == items);
    Ok(())
}
