//! The values that are measured.
use etp_values::{Bits64, List, Named, NoMemory, Text};
use std::alloc::Global;

/// Longs of up to three bytes, of both signs.
pub(crate) fn longs(alloc: Global, count: u32) -> Result<List<i64>, NoMemory> {
    let mut items = Vec::new(alloc);
    for i in 0..count {
        items.push((i as u64 * 7919 % 1_000_000) as i64 - 500_000)?;
    }
    Ok(List::from_vec(items))
}

/// Doubles of any bits.
pub(crate) fn doubles(alloc: Global, count: u32) -> Result<List<Bits64>, NoMemory> {
    let mut items = Vec::new(alloc);
    for i in 0..count {
        items.push(Bits64((i as u64).wrapping_mul(0x9E37_79B9_7F4A_7C15)))?;
    }
    Ok(List::from_vec(items))
}

/// Longs under names of ten bytes.
pub(crate) fn map(alloc: Global, count: u32) -> Result<Named<i64>, NoMemory> {
    let mut items = Vec::new(alloc);
    for i in 0..count {
        let name = format!(in alloc; "key{:07}", i as u64 * 7919 % 10_000_019)?;
        items.push((Text::from_string(name), i as i64))?;
    }
    match Named::from_pairs(items)? {
        Some(named) => Ok(named),
        None => Ok(Named::new(alloc)),
    }
}
