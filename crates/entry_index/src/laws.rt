//! Laws of the places of entries: what an index keeps as a journal grows, and what it finds.
ghost use Rattle.entry_index.specs.Where.{FirstIsFound, PlacesGoOn};

/// The places of the entries that pass a test, for entries of any kind.
pub fn place_laws<X>()
    ensures goes_on { PlacesGoOn X }
    ensures found { FirstIsFound X }
{}
