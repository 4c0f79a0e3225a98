//! Blocks of items.
ghost use Rattle.std.specs.Prelude.{◌≡◌, ◌==◌, ◌+◌};

/// Whether a block took exactly the bytes that it states, by how many bytes were left before its items and after them.
pub fn is_filled(before: usize, size: u64, after: usize) -> bool
    ensures { result ≡ after + size == before }
{
    after as u128 + size as u128 == before as u128
}
