//! Writes what was gathered of a text.
ghost use Rattle.std.specs.Prelude.{◌≡◌, ◌≤◌, [], ℕ, List};
ghost use Rattle.std.specs.declared.option.Option.{Option};
ghost use Rattle.etp_outside.specs.Faults.{Rose};
ghost use Rattle.gathered_text.specs.Writing.{Going, GoesOn, Writes};

use etp_outside::{Sink, Written, write_all};

/// The number of bytes that are gathered before they are written.
const GATHERED: usize = 65_536;

/// What came of a text, or of a part of it.
#[derive(Clone, Copy, Debug, PartialEq, Eq)]
pub enum Wrote {
    /// All of it was written, or gathered.
    Whole,
    /// A prefix of it was written, and then the output failed.
    WriteFault,
    /// A prefix of it was written, and then memory ran out.
    NoMemory,
}

/// Writes what was gathered, once it is 64 KB.
pub fn pass_on<W: Sink>(text: &mut Vec<u8>, out: &mut W) -> Wrote
    ensures goes { (whole rest : List ℕ) (before : Option (List ℕ))
        → Going whole text.old.items rest before (W.held out.old)
        → GoesOn result whole text.new.items rest before (W.held out.new) }
    ensures kept { W.faults out.old ≤ W.faults out.new }
    ensures cause { result ≡ Wrote.WriteFault → Rose (W.faults out.old) (W.faults out.new) }
    ensures memory { result ≡ Wrote.NoMemory → ⊥ }
{
    if text.len() < GATHERED {
        return Wrote::Whole;
    }
    match write_all(out, text.as_slice()) {
        Written::Done => {
            text.clear();
            Wrote::Whole
        }
        Written::Failed => Wrote::WriteFault,
    }
}

/// Writes what is left.
pub fn finish<W: Sink>(text: &[u8], out: &mut W) -> Wrote
    ensures written { (whole : List ℕ) (before : Option (List ℕ))
        → Going whole text.now [] before (W.held out.old)
        → Writes result whole before (W.held out.new) }
    ensures kept { W.faults out.old ≤ W.faults out.new }
    ensures cause { result ≡ Wrote.WriteFault → Rose (W.faults out.old) (W.faults out.new) }
    ensures memory { result ≡ Wrote.NoMemory → ⊥ }
{
    match write_all(out, text) {
        Written::Done => Wrote::Whole,
        Written::Failed => Wrote::WriteFault,
    }
}

/// Writes a text of which nothing was written before.
pub fn write_text<W: Sink>(text: &[u8], out: &mut W) -> Wrote
    ensures written { Writes result text.now (W.held out.old) (W.held out.new) }
    ensures kept { W.faults out.old ≤ W.faults out.new }
    ensures cause { result ≡ Wrote.WriteFault → Rose (W.faults out.old) (W.faults out.new) }
    ensures memory { result ≡ Wrote.NoMemory → ⊥ }
{
    finish(text, out)
}
