//! Messages that come in pieces.
ghost use Rattle.std.specs.Prelude.{◌≡◌, ◌++◌, List, ℕ, [], IfOk};
ghost use Rattle.etp_values.specs.Gives.{Gives};
ghost use Rattle.etp_frame.specs.Reading.{read_of};
ghost use Rattle.etp_frame.specs.Pieces.{Fed, WasFed, after, said, IsAgain, Finishes, RefusedStays};
ghost use Rattle.etp_frame.specs.Standing.{heard_at};
ghost use Rattle.etp_frame.specs.declared.error.FrameError.TheVariants as f;

use crate::error::FrameError;
use crate::header::Header;
use crate::message::Message;
use crate::reading::read_message;
use crate::stage::{Reading, Stage, take};
use avro_bin::Table;
use etp_schema::{Side, schema_table};
use etp_values::NoMemory;
use std::alloc::Global;
use std::marker::Model;
use std::mem;

/// Reads one message, whose bytes come in pieces.
///
/// Each piece is answered by what [`read_message`] says of all bytes so far, without building a value of the body and without looking again
/// at what was passed of it. A refusal is final, and so is that memory ran out.
#[derive(Drop)]
pub struct MessageReader {
    alloc: Global,
    sender: Side,
    table: &'static Table,
    stage: Stage,
}

impl Model for MessageReader {
    ghost use Rattle.etp_frame.specs.Pieces.{Hearing};

    ghost Value = { Hearing };

    ghost use Rattle.etp_frame.specs.Standing.{IsProfile, Stands, heard_at};

    ghost view = { λ r. record { sender = r.sender; heard = heard_at r.stage } };

    ghost invariant = { λ r. IsProfile r.table.now.nodes.now × Stands r.sender r.table.now.nodes.now r.stage };
}

impl MessageReader {
    /// A reader of a message that this side sends, which was fed nothing.
    pub fn new(alloc: Global, sender: Side) -> MessageReader
        ensures { result ≡ record { sender = sender; heard = Fed [] } }
    {
        MessageReader {
            alloc,
            sender,
            table: schema_table(),
            stage: Stage::Header(Vec::new(alloc)),
        }
    }

    /// Takes the next piece, and says of all bytes so far what [`read_message`] says of them.
    pub fn feed(&mut self, piece: &[u8]) -> Result<Reading, NoMemory>
        ensures reads { (fed : List ℕ) → WasFed self.old fed → IfOk result (λ x. x ≡ said (read_of self.old.sender (fed ++ piece.now))) × WasFed self.new (fed ++ piece.now) }
        ensures leaves { self.new ≡ after self.old piece.now result }
        ensures again { IsAgain self.old.heard result }
    {
        let stage = mem::replace(&mut self.stage, Stage::Lost);
        match take(self.alloc, self.sender, self.table, stage, piece) {
            Ok((answer, stage)) => {
                self.stage = stage;
                Ok(answer)
            }
            Err(error) => Err(error),
        }
    }

    /// The header and the message of all bytes.
    pub fn finish(self) -> Result<(Header, Message), FrameError>
        ensures reads { (fed : List ℕ) → WasFed self fed → Gives f.NoMemory result (read_of self.sender fed) }
        ensures finishes { Finishes self.sender self.heard result }
    {
        let MessageReader {
            alloc,
            sender,
            table: _,
            stage,
        } = self;
        finished(alloc, sender, stage)
    }
}

/// The header and the message of the bytes that have come.
fn finished(alloc: Global, sender: Side, stage: Stage) -> Result<(Header, Message), FrameError>
    ensures { Finishes sender (heard_at stage) result }
{
    match stage {
        Stage::Header(bytes) => read_message(alloc, &bytes, sender),
        Stage::Body(bytes, _, _) => read_message(alloc, &bytes, sender),
        Stage::Refused(error) => Err(error),
        Stage::Lost => Err(FrameError::NoMemory),
    }
}

/// For proofs only: what is refused, but not because the bytes end, stays refused, whatever follows it.
pub fn refused_stays()
    ensures { RefusedStays }
{}
