//! Values.
use etp_values::{Bits32, Bits64, Blob, List, Named, Text};

/// A value of a node, with a variant for each kind of node. Contracts compare trees by the value that they denote, `value_of` of
/// `specs/View`.
#[derive(Drop, Debug)]
pub enum Tree {
    Null,
    Boolean(bool),
    Int(i32),
    Long(i64),
    Float(Bits32),
    Double(Bits64),
    Bytes(Blob),
    Text(Text),
    Fixed(Blob),
    /// A symbol's place.
    Enum(u32),
    Array(List<Tree>),
    Map(Named<Tree>),
    /// A branch's place, and its value.
    Union(u32, Box<Tree>),
    Fields(List<Tree>),
}
