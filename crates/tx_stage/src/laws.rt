//! Laws on the definitions, as contracts of functions that do nothing.
ghost use Rattle.tx_stage.specs.Laws.{OverlayIsThere, OverlayGoesOn, LooksAtOwnKeys, RefusalsSeeTheState};

/// What exists after operations: something exactly if `there` says so, and after one more what that leaves. Whether an operation is refused
/// depends only on what exists.
pub fn overlay_laws()
    ensures there { OverlayIsThere }
    ensures next { OverlayGoesOn }
    ensures refusals { RefusalsSeeTheState }
{}

/// The looks of a call depend only on what exists at their own keys.
pub fn look_laws()
    ensures { LooksAtOwnKeys }
{}
