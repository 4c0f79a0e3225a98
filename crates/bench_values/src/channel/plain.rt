//! The points of the channel as a plain list.
use crate::channel::changes::Change;
use etp_values::{DataValue, NoMemory, Point};

/// Replaces the points from `from` to `to` by these.
fn replace(
    list: &mut Vec<(i64, i64)>,
    from: i64,
    to: i64,
    points: &[(i64, i64)],
) -> Result<(), NoMemory> {
    list.retain(|x: &(i64, i64)| x.0 < from || x.0 > to);
    for point in points {
        let place = list.as_slice().iter().take_while(|x| x.0 < point.0).count();
        list.insert(place, *point)?;
    }
    Ok(())
}

pub(crate) fn apply(list: &mut Vec<(i64, i64)>, change: &Change) -> Result<(), NoMemory> {
    match change {
        Change::Append(points) => {
            for point in points.as_slice() {
                list.push(*point)?;
            }
        }
        Change::Replace { from, to, points } => replace(list, *from, *to, points.as_slice())?,
        Change::Truncate { end } => list.retain(|x: &(i64, i64)| x.0 <= *end),
    }
    Ok(())
}

/// Whether these are the same points.
pub(crate) fn is_same(list: &[(i64, i64)], points: &[Point]) -> bool {
    if list.len() != points.len() {
        return false;
    }
    for (pair, point) in list.iter().zip(points) {
        if point.index != pair.0 || point.value != DataValue::Long(pair.1) {
            return false;
        }
    }
    true
}

pub(crate) fn last_index(list: &[(i64, i64)]) -> Option<i64> {
    match list.last() {
        Some(point) => Some(point.0),
        None => None,
    }
}
