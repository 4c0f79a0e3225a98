//! A box that contracts see as its value.
ghost use Rattle.std.specs.Prelude.{◌≡◌, IfOk};

use crate::copied::Copied;
use crate::memory::NoMemory;
use std::alloc::Global;
use std::marker::Model;

/// A value on the heap, which takes the room of one pointer in whatever holds it. A contract sees the value.
#[derive(Debug)]
pub struct Boxed<T> {
    inner: Box<T>,
}

/// Written out, so that whatever holds one drops it by a single call.
impl<T: Drop> Drop for Boxed<T> {
    fn drop(self) {
        let Boxed { inner } = self;
        drop(inner);
    }
}

impl<T> Model for Boxed<T> {
    ghost Value = { T };

    ghost coded = { T.code };

    ghost view = { λ b. b.inner.value };
}

impl<T> Boxed<T> {
    ghost use Rattle.std.specs.Prelude.{◌≡◌};
    ghost use Rattle.std.specs.Borrow.{Lends, sem};
    ghost use Rattle.etp_values.specs.contracts.boxed.Boxed.{the_row};

    /// Borrows the value.
    pub fn get(&self) -> &T
        ensures { result.now ≡ self.now }
    {
        &self.inner
    }

    /// Borrows the value mutably.
    pub fn get_mut(&mut self) -> &mut T
        ensures value { result.now ≡ self.old }
        ensures* writes_back { sem 𝓛 (Lends (the_row T.row) T.row self.entry result (λ w. w)) }
    {
        &mut self.inner
    }

    /// The value, moved out and not copied.
    pub fn into_inner(self) -> T
        ensures { result ≡ self }
    {
        let Boxed { inner } = self;
        Box::into_inner(inner)
    }
}

impl<T: Drop> Boxed<T> {
    /// Moves a value to the heap. If allocation fails, the value is dropped.
    pub fn new(alloc: Global, value: T) -> Result<Boxed<T>, NoMemory>
        ensures { IfOk result (λ b. b ≡ value) }
    {
        Ok(Boxed {
            inner: Box::new(alloc, value)?,
        })
    }
}

impl<T: Copied> Copied for Boxed<T> {
    fn copy(&self, alloc: Global) -> Result<Boxed<T>, NoMemory> {
        Boxed::new(alloc, self.get().copy(alloc)?)
    }
}

impl<T: PartialEq> PartialEq for Boxed<T> {
    ghost eq = { T.eq };

    ghost laws = { T.laws };

    fn eq(&self, other: &Boxed<T>) -> bool {
        *self.get() == *other.get()
    }
}

impl<T: Eq> Eq for Boxed<T> {
    ghost laws = { T.Eq.laws };
}
