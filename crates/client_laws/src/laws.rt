//! What a client makes of a message that comes in parts.
ghost use Rattle.client_laws.specs.Parts.{FirstIsRefused, PartsAreJoined, ReadPartsAreJoined};

/// A client that receives a message in its parts, of which only the last is flagged as such, is left as the whole message leaves it, and is
/// given by the last part what the whole gives, by the others nothing. This holds for headers and messages, and for bytes that are read as
/// these. If the message may not come, its first part is refused as the whole is.
pub fn parts_are_joined()
    ensures messages { PartsAreJoined }
    ensures bytes { ReadPartsAreJoined }
    ensures refused { FirstIsRefused }
{}
