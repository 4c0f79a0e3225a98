//! Bytes that several owners share without copying: the payloads of objects and messages.
ghost use Rattle.std.specs.Prelude.{◌≡◌, ◌==◌, ◌≤◌, ◌^◌, ◌<◌, IfOk, [], length, slice_range};
ghost use Rattle.std.specs.Bool.{nat_eq};
ghost use Rattle.std.specs.Cmp.{partial_equiv_from_equiv};
ghost use Rattle.std.specs.Cmp.Lexicographic.{pointwise, nat_list_eq_equiv};

use crate::memory::NoMemory;
use bytes::Bytes;
use std::alloc::Global;
use std::marker::Model;

/// Bytes with any number of owners. A contract sees the bytes.
#[derive(Debug)]
pub struct Blob {
    bytes: Bytes,
}

/// Written out, so that whatever holds one drops it by a single call.
impl Drop for Blob {
    fn drop(self) {
        let Blob { bytes } = self;
        drop(bytes);
    }
}

impl Model for Blob {
    ghost use Rattle.std.specs.Prelude.{List, ℕ};

    ghost Value = { List ℕ };

    ghost view = { λ b. b.bytes };
}

impl Blob {
    /// No bytes.
    pub fn new() -> Blob
        ensures { result ≡ [] }
    {
        Blob {
            bytes: Bytes::new(),
        }
    }

    /// A copy of these bytes.
    pub fn copy(alloc: Global, bytes: &[u8]) -> Result<Blob, NoMemory>
        ensures { IfOk result (λ b. b ≡ bytes.now) }
    {
        Ok(Blob {
            bytes: Bytes::copy_from_slice(alloc, bytes)?,
        })
    }

    /// These bytes, moved and not copied. Only the count of owners is allocated.
    pub fn from_vec(bytes: Vec<u8>) -> Result<Blob, NoMemory>
        ensures { IfOk result (λ b. b ≡ bytes.items) }
    {
        Ok(Blob {
            bytes: Bytes::from_vec(bytes)?,
        })
    }

    /// These bytes, with their present owners.
    pub fn from_bytes(bytes: Bytes) -> Blob
        ensures { result ≡ bytes }
    {
        Blob { bytes }
    }

    /// The bytes, with their present owners.
    pub fn into_bytes(self) -> Bytes
        ensures { result ≡ self }
    {
        let Blob { bytes } = self;
        bytes
    }

    /// Another owner of the same bytes, which are not copied.
    pub fn share(&self) -> Result<Blob, NoMemory>
        ensures { IfOk result (λ b. b ≡ self.now) }
    {
        Ok(Blob {
            bytes: self.bytes.clone()?,
        })
    }

    /// An owner of the bytes from `start` up to but not including `end`, which are not copied.
    pub fn part(&self, start: usize, end: usize) -> Result<Blob, NoMemory>
        requires order { start ≤ end }
        requires bound { end ≤ length self.now }
        ensures { IfOk result (λ b. b ≡ slice_range self.now start end) }
    {
        Ok(Blob {
            bytes: self.bytes.slice(start..end)?,
        })
    }

    /// Borrows the bytes.
    pub fn as_bytes(&self) -> &[u8]
        ensures { result.now ≡ self.now }
    {
        self.bytes.as_slice()
    }

    /// How many bytes there are.
    pub fn len(&self) -> usize
        ensures value { result ≡ length self.now }
        ensures small { result < 2 ^ 63 }
    {
        self.bytes.len()
    }

    /// Whether there are no bytes.
    pub fn is_empty(&self) -> bool
        ensures { result ≡ length self.now == 0 }
    {
        self.bytes.is_empty()
    }
}

impl PartialEq for Blob {
    ghost eq = { pointwise nat_eq };

    ghost laws = { partial_equiv_from_equiv nat_list_eq_equiv };

    fn eq(&self, other: &Blob) -> bool {
        self.as_bytes() == other.as_bytes()
    }
}

impl Eq for Blob {
    ghost laws = { nat_list_eq_equiv };
}
