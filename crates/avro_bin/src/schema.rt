//! Schemas as tables of nodes.

/// A node of a schema. A child is named by its place in the table.
#[derive(Clone, Copy, Debug)]
pub enum Node {
    /// No bytes.
    Null,
    /// One byte, 0 or 1.
    Boolean,
    /// A zigzag number of 32 bits.
    Int,
    /// A zigzag number of 64 bits.
    Long,
    /// The four bytes of an IEEE 754 single, the lowest first.
    Float,
    /// The eight bytes of an IEEE 754 double, the lowest first.
    Double,
    /// A length and that many bytes.
    Bytes,
    /// A length and that many bytes of UTF-8.
    Text,
    /// A fixed number of bytes.
    Fixed(u32),
    /// The place, from 0, of one of this number of symbols.
    Enum(u32),
    /// Blocks of items of the child's schema.
    Array(u32),
    /// Blocks of entries: a name, which is a text, and a value of the child's schema.
    Map(u32),
    /// The place, from 0, of one of these branches, and a value of it.
    Union(&'static [u32]),
    /// A record: a value of each field, in order.
    Fields(&'static [u32]),
}

/// The nodes of a schema. The children of a node have smaller places than the node, which bounds the depth of each value: calls require
/// this.
#[derive(Clone, Copy, Debug)]
pub struct Table {
    pub nodes: &'static [Node],
}
