//! A value that several owners share without copying.
ghost use Rattle.std.specs.Prelude.{◌≡◌, IfOk};

use crate::copied::Copied;
use crate::memory::NoMemory;
use std::alloc::Global;
use std::marker::Model;
use std::sync::Arc;

/// A value on the heap with any number of owners, in any threads. A contract sees the value.
#[derive(Debug)]
pub struct Shared<T> {
    inner: Arc<T, Global>,
}

/// Written out, so that whatever holds one drops it by a single call.
impl<T: Drop> Drop for Shared<T> {
    fn drop(self) {
        let Shared { inner } = self;
        drop(inner);
    }
}

impl<T> Model for Shared<T> {
    ghost use Rattle.std.specs.Arc.{arc_value};

    ghost Value = { T };

    ghost coded = { T.code };

    ghost view = { λ s. arc_value s.inner };
}

impl<T> Shared<T> {
    /// Borrows the value.
    pub fn get(&self) -> &T
        ensures { result.now ≡ self.now }
    {
        &self.inner
    }

    /// Another owner of the same value, which is not copied.
    pub fn share(&self) -> Result<Shared<T>, NoMemory>
        ensures { IfOk result (λ s. s ≡ self.now) }
    {
        Ok(Shared {
            inner: Arc::try_clone(&self.inner)?,
        })
    }
}

impl<T: Drop> Shared<T> {
    /// Moves a value to the heap, with one owner. If allocation fails, the value is dropped.
    pub fn new(alloc: Global, value: T) -> Result<Shared<T>, NoMemory>
        ensures { IfOk result (λ s. s ≡ value) }
    {
        Ok(Shared {
            inner: Arc::new(alloc, value)?,
        })
    }
}

impl<T: Drop> Copied for Shared<T> {
    fn copy(&self, _alloc: Global) -> Result<Shared<T>, NoMemory> {
        self.share()
    }
}

impl<T: PartialEq> PartialEq for Shared<T> {
    ghost eq = { T.eq };

    ghost laws = { T.laws };

    fn eq(&self, other: &Shared<T>) -> bool {
        *self.get() == *other.get()
    }
}

impl<T: Eq> Eq for Shared<T> {
    ghost laws = { T.Eq.laws };
}
