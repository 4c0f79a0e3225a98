//! Laws of lines. The function does nothing: its contract is the law.
ghost use Rattle.point_lines.specs.Spelling.{LinesAreRead, LinesStand};

/// The line in which a point is written denotes that point, and the lines of several are read as these.
pub fn lines_are_read()
    ensures points { LinesAreRead }
    ensures lines { LinesStand }
{}
