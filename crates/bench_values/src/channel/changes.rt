//! The fixed sequence of changes.
ghost use Rattle.std.specs.Prelude.{◌<◌};

use channel_store::MAX_INDEX;
use etp_values::NoMemory;
use std::alloc::Global;

/// What happens to the channel. A point is an index and a value.
#[derive(Drop)]
pub(crate) enum Change {
    Append(Vec<(i64, i64)>),
    Replace {
        from: i64,
        to: i64,
        points: Vec<(i64, i64)>,
    },
    Truncate {
        end: i64,
    },
}

/// Numbers without a visible order, the same in each run.
#[derive(Drop)]
pub(crate) struct Numbers {
    state: u64,
}

impl Numbers {
    pub(crate) fn new() -> Numbers {
        Numbers { state: 1 }
    }

    /// The next number below a bound.
    fn below(&mut self, bound: u32) -> u32
        requires { 0 < bound }
        ensures { result < bound }
    {
        self.state = self
            .state
            .wrapping_mul(6_364_136_223_846_793_005)
            .wrapping_add(1_442_695_040_888_963_407);
        (self.state >> 33) as u32 % bound
    }

    /// Up to `count` points at rising indexes above `index`, none above `to`.
    fn points(
        &mut self,
        alloc: Global,
        count: u32,
        mut index: i64,
        to: i64,
    ) -> Result<Vec<(i64, i64)>, NoMemory> {
        let mut points = Vec::new(alloc);
        for _ in 0..count {
            index = index.saturating_add(self.below(5) as i64 + 1);
            let value = self.below(1000) as i64;
            if index <= to {
                points.push((index, value))?;
            }
        }
        Ok(points)
    }

    fn append(&mut self, alloc: Global, last: i64) -> Result<Change, NoMemory> {
        let count = self.below(4) + 1;
        Ok(Change::Append(self.points(alloc, count, last, MAX_INDEX)?))
    }

    fn replace(&mut self, alloc: Global, last: i64) -> Result<Change, NoMemory> {
        let from = last.saturating_sub(self.below(40) as i64);
        let to = from.saturating_add(self.below(15) as i64);
        let count = self.below(4);
        let points = self.points(alloc, count, from.saturating_sub(1), to)?;
        Ok(Change::Replace { from, to, points })
    }

    fn truncate(&mut self, last: i64) -> Change {
        Change::Truncate {
            end: last.saturating_sub(self.below(8) as i64),
        }
    }

    /// The next change of a channel whose last point is at this index.
    pub(crate) fn change(&mut self, alloc: Global, last: i64) -> Result<Change, NoMemory> {
        match self.below(10) {
            0 | 1 => Ok(self.truncate(last)),
            2 | 3 | 4 => self.replace(alloc, last),
            _ => self.append(alloc, last),
        }
    }
}
