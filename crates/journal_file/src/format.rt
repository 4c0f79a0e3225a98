//! The bytes of a journal's file.
ghost use Rattle.std.specs.Prelude.{◌≡◌, ◌++◌, ◌∷◌, [], OnOk, IfOk, length};
ghost use Rattle.std.specs.Int.{w64, to_be_bytes};
ghost use Rattle.journal_file.specs.Layout.{block, blocks, head};

use etp_values::{Blob, Id16, NoMemory};
use std::alloc::Global;

/// How many bytes come before the first gate.
pub(crate) const FIRST_GATE: u64 = 24;

/// What a file begins with.
pub(crate) const MAGIC: [u8; 8] = *b"ETPJRN01";

/// The bytes before the first gate of an instance's journal.
pub(crate) fn file_head(id: Id16) -> [u8; 24]
    ensures bytes { result ≡ head id }
    ensures size { length id ≡ 16 }
{
    let mut bytes = [0; 24];
    bytes[..8].copy_from_slice(&MAGIC);
    bytes[8..].copy_from_slice(id.as_bytes().as_slice());
    bytes
}

/// The file of an instance's journal without an entry.
pub(crate) fn file_start(id: Id16) -> [u8; 25]
    ensures bytes { result ≡ head id ++ 0 ∷ [] }
    ensures size { length id ≡ 16 }
{
    let mut bytes = [0; 25];
    bytes[..24].copy_from_slice(&file_head(id));
    bytes
}

/// Appends the length of a spelling, and the spelling.
fn push_record(into: &mut Vec<u8>, spelling: &[u8]) -> Result<(), NoMemory>
    ensures { OnOk result (into.new.items ≡ into.old.items ++ (to_be_bytes w64 (length spelling.now) ++ spelling.now)) }
{
    into.extend_from_slice(&(spelling.len() as u64).to_be_bytes())?;
    into.extend_from_slice(spelling)?;
    Ok(())
}

/// Appends an entry's gate, length and spelling.
fn push_block(into: &mut Vec<u8>, spelling: &[u8]) -> Result<(), NoMemory>
    ensures { OnOk result (into.new.items ≡ into.old.items ++ block spelling.now) }
{
    into.push(1)?;
    push_record(into, spelling)?;
    Ok(())
}

/// Appends the blocks of these spellings, one after the other.
#[tactic(auto, using(crate::proofs::LayoutLemmas::blocks_next))]
fn push_blocks(into: &mut Vec<u8>, spellings: &[Blob]) -> Result<(), NoMemory>
    ensures { OnOk result (into.new.items ≡ into.old.items ++ blocks spellings.now) }
{
    for spelling in spellings {
        push_block(into, spelling.as_bytes())?;
    }
    Ok(())
}

/// The blocks of these spellings and a closed gate, without the first gate.
pub(crate) fn behind_gate(alloc: Global, first: &[u8], rest: &[Blob]) -> Result<Vec<u8>, NoMemory>
    ensures { IfOk result (λ v. 1 ∷ v.items ≡ blocks (first.now ∷ rest.now) ++ 0 ∷ []) }
{
    let mut bytes = Vec::new(alloc);
    push_record(&mut bytes, first)?;
    push_blocks(&mut bytes, rest)?;
    bytes.push(0)?;
    Ok(bytes)
}
