//! Copies that are equal to the original.
ghost use Rattle.std.specs.Prelude.{◌≡◌, IfOk};

use crate::bits::{Bits32, Bits64};
use crate::blob::Blob;
use crate::id::Id16;
use crate::list::List;
use crate::memory::NoMemory;
use crate::named::Named;
use crate::text::Text;
use std::alloc::Global;

/// A type whose values can be copied, if memory allows. Bytes are shared and not copied.
pub trait Copied: Drop {
    /// An equal value.
    fn copy(&self, alloc: Global) -> Result<Self, NoMemory>
        ensures { IfOk result (λ r. r ≡ self.now) };
}

impl Copied for bool {
    fn copy(&self, _alloc: Global) -> Result<bool, NoMemory> {
        Ok(*self)
    }
}

impl Copied for i32 {
    fn copy(&self, _alloc: Global) -> Result<i32, NoMemory> {
        Ok(*self)
    }
}

impl Copied for i64 {
    fn copy(&self, _alloc: Global) -> Result<i64, NoMemory> {
        Ok(*self)
    }
}

impl Copied for Bits32 {
    fn copy(&self, _alloc: Global) -> Result<Bits32, NoMemory> {
        Ok(*self)
    }
}

impl Copied for Bits64 {
    fn copy(&self, _alloc: Global) -> Result<Bits64, NoMemory> {
        Ok(*self)
    }
}

impl Copied for Id16 {
    fn copy(&self, _alloc: Global) -> Result<Id16, NoMemory> {
        Ok(*self)
    }
}

impl Copied for Text {
    fn copy(&self, alloc: Global) -> Result<Text, NoMemory> {
        Ok(Text::copy(alloc, self.as_str())?)
    }
}

impl Copied for Blob {
    fn copy(&self, _alloc: Global) -> Result<Blob, NoMemory> {
        self.share()
    }
}

impl<T: Copied> Copied for List<T> {
    fn copy(&self, alloc: Global) -> Result<List<T>, NoMemory> {
        let mut items = Vec::new(alloc);
        items.reserve_exact(self.len())?;
        for item in self.as_slice() {
            items.push(item.copy(alloc)?)?;
        }
        Ok(List::from_vec(items))
    }
}

impl<T: Copied> Copied for Named<T> {
    fn copy(&self, alloc: Global) -> Result<Named<T>, NoMemory> {
        if self.len() == 0 {
            return Ok(Named::new(alloc));
        }
        let mut items = Vec::new(alloc);
        items.reserve_exact(self.as_slice().len())?;
        for pair in self.as_slice() {
            items.push((pair.0.copy(alloc)?, pair.1.copy(alloc)?))?;
        }
        Ok(Named::from_sorted(items))
    }
}

impl<T: Copied> Copied for Option<T> {
    fn copy(&self, alloc: Global) -> Result<Option<T>, NoMemory> {
        match self {
            None => Ok(None),
            Some(x) => Ok(Some(x.copy(alloc)?)),
        }
    }
}
