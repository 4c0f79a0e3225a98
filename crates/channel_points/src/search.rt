//! Searches in points that are in the order of their indexes.
ghost use Rattle.std.specs.Prelude.{◌≡◌, int_lt, not};
ghost use Rattle.channel_points.specs.Order.{Rises};
ghost use Rattle.channel_points.specs.Splits.{IsSplit};

use etp_values::Point;

/// How many points are below an index.
pub fn count_below(points: &[Point], index: i64) -> usize
    requires { Rises points.now }
    ensures { IsSplit (λ x. int_lt x.index index) points.now result }
{
    points.partition_point(
        |x: &Point| -> bool
            ensures { result ≡ int_lt x.now.index index }
        { x.index < index },
    )
}

/// How many points are at or below an index.
pub(crate) fn count_to(points: &[Point], index: i64) -> usize
    requires { Rises points.now }
    ensures { IsSplit (λ x. not (int_lt index x.index)) points.now result }
{
    points.partition_point(
        |x: &Point| -> bool
            ensures { result ≡ not (int_lt index x.now.index) }
        { x.index <= index },
    )
}
