//! What looks find, in the terms of RFC 6455.
ghost use Rattle.web_frames.specs.Laws.{DataFrameIsTaken, PayloadMayBeCut, PiecesAreJoined};

/// A data frame that is allowed is taken as it was sent: its payload is unmasked and added to its message, and the bytes after it are left.
pub fn data_frame_is_taken()
    ensures { DataFrameIsTaken }
{}

/// The pieces of a message are joined in their order, whether they are fragments or parts of a frame that came one after another.
pub fn pieces_are_joined()
    ensures { PiecesAreJoined }
{}

/// A payload may come in pieces that are cut at any place: what is found is what would be found in all of it.
pub fn payload_may_be_cut()
    ensures { PayloadMayBeCut }
{}
