//! The laws of captures. Each is the contract of an empty function, so that it is proved with the crate.
ghost use Rattle.etp_capture.specs.Laws.{ReadsBack, WritesBack, OneCapture, OneFault, NoFault, SomeAnswer};

/// What was written for a frame is read as that frame within the limit, whatever follows it; and what is read as a frame is what is written
/// for it.
pub fn frame_is_read_back()
    ensures reads { ReadsBack }
    ensures writes { WritesBack }
{}

/// Bytes are the capture of at most one list of frames, or fail for at most one reason, and never both.
pub fn capture_has_one_reading()
    ensures frames { OneCapture }
    ensures fault { OneFault }
    ensures either { NoFault }
{}

/// All bytes are the capture of some frames or fail for some reason.
pub fn each_input_has_an_answer()
    ensures { SomeAnswer }
{}
