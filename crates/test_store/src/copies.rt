//! What a copy of a channel has after changes, in whatever order they come.
use channel_points::{BoxedPoints, Points};
use channel_store::{ChannelCopy, What};
use etp_values::{DataValue, NoMemory, Point};
use std::alloc::Global;
use std::process::Abort;
use std::test::Fail;

/// Points with these indexes.
fn points(alloc: Global, indexes: &[i64]) -> Result<Points, NoMemory> {
    let mut points = Points::none();
    for index in indexes {
        points.push(
            alloc,
            Point {
                index: *index,
                value: DataValue::Null,
            },
        )?;
    }
    Ok(points)
}

/// What happened leaves the copy with these indexes.
fn takes_in(
    rt: &impl Abort,
    alloc: Global,
    copy: &mut ChannelCopy,
    what: What,
    expected: &[i64],
) -> Result<(), Fail> {
    copy.take_in(alloc, &what)?;
    let left = copy.points().as_slice();
    assert_eq!(rt; left.len(), expected.len());
    for (point, index) in left.iter().zip(expected) {
        assert_eq!(rt; point.index, *index);
    }
    Ok(())
}

/// Points out of order are kept as they came, and a replacement goes before the first that is above it.
#[test]
fn a_copy_takes_in_what_it_is_told(rt: HostRuntime) -> Result<(), Fail> {
    let alloc = rt.alloc();
    let mut copy = ChannelCopy::new(alloc);
    let told = What::Append(points(alloc, &[10, 40, 20, 30])?);
    takes_in(&rt, alloc, &mut copy, told, &[10, 40, 20, 30])?;
    let told = What::Replace {
        from: 20,
        to: 30,
        points: BoxedPoints::new(alloc, points(alloc, &[25, 26])?)?,
    };
    takes_in(&rt, alloc, &mut copy, told, &[10, 25, 26, 40])?;
    takes_in(&rt, alloc, &mut copy, What::Truncate { end: 25 }, &[10, 25])
}
