//! Measured points.
use crate::copied::Copied;
use crate::data::DataValue;
use crate::memory::NoMemory;
use std::alloc::Global;

/// A value at an index. Indexes are microseconds since 1970-01-01 UTC.
#[derive(Debug, Drop, PartialEq, Eq)]
pub struct Point {
    pub index: i64,
    pub value: DataValue,
}

/// A point of the channel with this number.
#[derive(Debug, Drop, PartialEq, Eq)]
pub struct ChannelPoint {
    pub channel: i64,
    pub point: Point,
}

impl Copied for Point {
    fn copy(&self, alloc: Global) -> Result<Point, NoMemory> {
        Ok(Point {
            index: self.index,
            value: self.value.copy(alloc)?,
        })
    }
}

impl Copied for ChannelPoint {
    fn copy(&self, alloc: Global) -> Result<ChannelPoint, NoMemory> {
        Ok(ChannelPoint {
            channel: self.channel,
            point: self.point.copy(alloc)?,
        })
    }
}
