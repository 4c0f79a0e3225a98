//! The law of `range` and `load`: its contract is what the function is for.
ghost use Rattle.client_forms.specs.Loading.{RangesAreLoaded};

use point_lines::lines_are_read;

/// The lines that `range` writes of points are read by `load` as these points, and none is refused.
pub fn ranges_are_loaded()
    ensures { RangesAreLoaded }
{
    lines_are_read();
}
