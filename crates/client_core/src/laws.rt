//! What holds for a client whatever it asks and takes, for proofs only.
ghost use Rattle.client_core.specs.Laws.{CopiesAreFolds};

/// A channel's copy is what the changes leave that were returned since its subscription was last accepted.
pub fn copies_are_folds()
    ensures { CopiesAreFolds }
{}
