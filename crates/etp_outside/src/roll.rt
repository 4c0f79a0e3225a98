//! A list of links that only proofs can read.
ghost use Rattle.std.specs.Prelude.{◌≡◌, ◌∷◌, ◌++◌, []};

use crate::mem_link::MemLink;
use std::marker::Model;
use std::snapshot::Snapshot;

/// Links as they were when they were added, in that order. At run time nothing of them is kept, so adding one does not allocate.
#[derive(Drop)]
#[cycle(roll)]
pub(crate) struct Roll {
    added: Added,
}

/// The links before the last, and the last, if any was added.
#[derive(Drop)]
#[cycle(roll)]
enum Added {
    Nothing,
    Link(Snapshot<Roll>, Snapshot<MemLink>),
}

impl Model for Roll {
    ghost use Rattle.std.specs.Prelude.{List, length};
    ghost use Rattle.etp_outside.specs.Line.{Line};

    ghost Value = { List Line };

    ghost use Rattle.etp_outside.specs.Rolls.{links_of};

    ghost view = { λ r. links_of r.added };

    ghost size = { λ ls. length ls };

    ghost use Rattle.std.proofs.Common.{arith, length-append};

    ghost size_decreases = { λ a h. Prim.grind (arith, length-append) };
}

impl Roll {
    /// No link.
    pub(crate) fn new() -> Roll
        ensures { result ≡ [] }
    {
        Roll {
            added: Added::Nothing,
        }
    }

    /// The same links, followed by this one.
    pub(crate) fn with(&self, link: &MemLink) -> Roll
        ensures { result ≡ self.now ++ link.now ∷ [] }
    {
        Roll {
            added: Added::Link(Snapshot::of(self), Snapshot::of(link)),
        }
    }
}
