//! What the elements of an array can do.
ghost use Rattle.std.specs.Prelude.{◌≡◌, ◌++◌, OnOk};

use etp_values::{Bits32, Bits64, Copied, NoMemory, Text};
use std::alloc::Global;

/// An element of an array.
pub(crate) trait Element: Drop {
    /// Appends copies of a run of elements.
    fn append(alloc: Global, out: &mut Vec<Self>, run: &[Self]) -> Result<(), NoMemory>
        ensures { OnOk result (out.new.items ≡ out.old.items ++ run.now) };
}

impl Element for bool {
    fn append(_alloc: Global, out: &mut Vec<bool>, run: &[bool]) -> Result<(), NoMemory> {
        Ok(out.extend_from_slice(run)?)
    }
}

impl Element for u8 {
    fn append(_alloc: Global, out: &mut Vec<u8>, run: &[u8]) -> Result<(), NoMemory> {
        Ok(out.extend_from_slice(run)?)
    }
}

impl Element for i32 {
    fn append(_alloc: Global, out: &mut Vec<i32>, run: &[i32]) -> Result<(), NoMemory> {
        Ok(out.extend_from_slice(run)?)
    }
}

impl Element for i64 {
    fn append(_alloc: Global, out: &mut Vec<i64>, run: &[i64]) -> Result<(), NoMemory> {
        Ok(out.extend_from_slice(run)?)
    }
}

impl Element for Bits32 {
    fn append(_alloc: Global, out: &mut Vec<Bits32>, run: &[Bits32]) -> Result<(), NoMemory> {
        Ok(out.extend_from_slice(run)?)
    }
}

impl Element for Bits64 {
    fn append(_alloc: Global, out: &mut Vec<Bits64>, run: &[Bits64]) -> Result<(), NoMemory> {
        Ok(out.extend_from_slice(run)?)
    }
}

impl Element for Text {
    fn append(alloc: Global, out: &mut Vec<Text>, run: &[Text]) -> Result<(), NoMemory> {
        for text in run {
            out.push(text.copy(alloc)?)?;
        }
        Ok(())
    }
}
