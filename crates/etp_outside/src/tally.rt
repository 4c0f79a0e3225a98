//! A count that only proofs can read.
ghost use Rattle.std.specs.Prelude.{◌≡◌, suc};

use std::marker::Model;
use std::snapshot::Snapshot;

/// A count without an upper limit. At run time nothing of it is kept.
#[derive(Drop)]
#[cycle(tally)]
pub(crate) struct Tally {
    before: Before,
}

/// The count before the last call, if there was one.
#[derive(Drop)]
#[cycle(tally)]
enum Before {
    Nothing,
    Call(Snapshot<Tally>),
}

impl Model for Tally {
    ghost use Rattle.std.specs.Prelude.{ℕ};

    ghost Value = { ℕ };

    ghost use Rattle.etp_outside.specs.Tallies.{count_of};

    ghost view = { λ t. count_of t.before };

    ghost size = { λ n. n };

    ghost use Rattle.std.proofs.Common.{arith};

    ghost size_decreases = { λ a h. Prim.grind arith };
}

impl Tally {
    /// No call.
    pub(crate) fn new() -> Tally
        ensures { result ≡ 0 }
    {
        Tally {
            before: Before::Nothing,
        }
    }

    /// One more call.
    pub(crate) fn more(&self) -> Tally
        ensures { result ≡ suc self.now }
    {
        Tally {
            before: Before::Call(Snapshot::of(self)),
        }
    }
}
