//! The law of loads. It is the contract of an empty function, so that it is proved with the crate.
ghost use Rattle.load_forms.specs.Laws.{LoadsAreCaptures};

/// The bytes that are written for a load of up to 1,000,000 messages are the capture of its frames: each is a frame that a capture may
/// hold, and together they are no more than a capture may have. So a reader gives these frames again.
pub fn loads_are_captures()
    ensures { LoadsAreCaptures }
{}
