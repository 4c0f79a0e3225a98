//! What points count towards the limits of a journal and of an answer.
ghost use Rattle.std.specs.Prelude.{◌≡◌};
ghost use Rattle.etp_values.specs.Weight.{capped, weigh};
ghost use Rattle.channel_points.specs.Bytes.{point_bytes, value_bytes};

use etp_values::{DataValue, Point};

/// A null counts nothing, and neither does a value that no channel has.
fn value_bytes(value: &DataValue) -> u64
    ensures { result ≡ capped (value_bytes value.now) }
{
    match value {
        DataValue::Boolean(_) => 1,
        DataValue::Int(_) => 4,
        DataValue::Long(_) => 8,
        DataValue::Float(_) => 4,
        DataValue::Double(_) => 8,
        DataValue::String(text) => text.get().len() as u64,
        DataValue::Bytes(bytes) => bytes.get().len() as u64,
        _ => 0,
    }
}

/// 16 for the point, plus 1 for a boolean, 4 for an int or a float, 8 for a long or a double, and its length for a text or a bytes value. A
/// sum above `u64::MAX` is `u64::MAX`.
pub fn point_bytes(point: &Point) -> u64
    ensures { result ≡ capped (point_bytes point.now) }
{
    16u64.saturating_add(value_bytes(&point.value))
}

/// Like [`point_bytes`], for all points together.
pub fn points_bytes(points: &[Point]) -> u64
    ensures { result ≡ capped (weigh point_bytes points.now) }
{
    let mut sum = 0u64;
    for point in points {
        sum = sum.saturating_add(point_bytes(point));
    }
    sum
}
