//! The head of a block: its count, and the size that it may state.
ghost use Rattle.std.specs.Prelude.{◌≡◌, ◌≤◌, length, IfOk, IfErr, true, false};
ghost use Rattle.avro_bin.specs.declared.fault.Why.TheVariants.{BlockSize};
ghost use Rattle.avro_bin.specs.declared.fault.Fault.TheVariants.{At};
ghost use Rattle.avro_pieces.specs.Levels.{IsHead, HeadFails, NextFails, fills, size_left};

use crate::level::Block;
use avro_bin::blocks::is_filled;
use avro_bin::numbers::number;
use avro_bin::{Fault, Why};

/// How many items follow, with the size that the block states if it states one, and the bytes after the head. A count of 0 ends the list of
/// blocks. `all` is the number of all bytes so far, of which `bytes` are the last.
fn head(all: usize, bytes: &[u8]) -> Result<(u64, Option<Block>, &[u8]), Fault>
    requires { length bytes.now ≤ all }
    ensures head { IfOk result (λ x. IsHead all bytes.now x.0 x.1 x.2.now) }
    ensures fails { IfErr result (λ e. HeadFails e bytes.now) }
{
    let (count, rest) = number(bytes)?;
    if count >= 0 {
        return Ok((count as u64, None, rest));
    }
    let (size, items) = number(rest)?;
    if size < 0 {
        return Err(Fault::At(Why::Length, rest.len()));
    }
    let block = Block {
        size_at: all.saturating_sub(rest.len()),
        size: size as u64,
        from: all.saturating_sub(items.len()),
    };
    Ok(((-(count + 1)) as u64 + 1, Some(block), items))
}

/// Whether the items of a block fill the size that it states, if this many bytes are left after them.
fn filled(block: Option<Block>, all: usize, left: usize) -> Result<(), Fault>
    ensures fills { IfOk result (λ _. fills all left block ≡ true) }
    ensures not { IfErr result (λ e. (fills all left block ≡ false) × (e ≡ At BlockSize (size_left all block))) }
{
    match block {
        Some(it) if !is_filled(all.saturating_sub(it.from), it.size, left) => {
            Err(Fault::At(Why::BlockSize, all.saturating_sub(it.size_at)))
        }
        _ => Ok(()),
    }
}

/// The head after the items of a block, which have to fill it.
pub(crate) fn next_head(
    block: Option<Block>,
    all: usize,
    bytes: &[u8],
) -> Result<(u64, Option<Block>, &[u8]), Fault>
    requires { length bytes.now ≤ all }
    ensures filled { IfOk result (λ _. fills all (length bytes.now) block ≡ true) }
    ensures head { IfOk result (λ x. IsHead all bytes.now x.0 x.1 x.2.now) }
    ensures fails { IfErr result (λ e. NextFails all bytes.now block e) }
{
    filled(block, all, bytes.len())?;
    head(all, bytes)
}
