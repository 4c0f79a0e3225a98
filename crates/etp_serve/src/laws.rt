//! The laws of the crates below that the proofs of this one rely on.
ghost use Rattle.etp_serve.specs.Closing.{EachEntered, ServedInTheEnd};
ghost use Rattle.etp_serve.specs.Laws.{Laws};

use session_core::{run_streams, runs, serial};
use store_machine::{number_laws, room_laws};

/// What holds for runs, and for the entries of a session's calls.
pub(crate) fn laws()
    ensures { Laws }
{
    runs();
    serial();
    run_streams();
    number_laws();
}

/// What became of links also holds over the journal of the closed store, and each link that was given out is an entry of it that lets a
/// session in, unless the journal is full.
pub fn closing_laws()
    ensures served { ServedInTheEnd }
    ensures entered { EachEntered }
{
    laws();
    room_laws();
}
