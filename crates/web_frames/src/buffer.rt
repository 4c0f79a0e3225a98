//! The memory in which bytes wait until they are taken.
ghost use Rattle.std.specs.Prelude.{◌≤◌, vec_len};

/// Bytes that were read and not taken yet.
#[derive(Drop)]
pub(crate) struct Input {
    pub(crate) bytes: Vec<u8>,
    /// The offset of the first byte that was not taken, and the offset after the last.
    pub(crate) start: usize,
    pub(crate) end: usize,
    /// Whether the last read brought all that it asked for.
    pub(crate) full: bool,
    ghost order: { start ≤ end },
    ghost inside: { end ≤ vec_len bytes },
}
