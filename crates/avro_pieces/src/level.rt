//! What is still to come of a value that is not whole.
use etp_values::Text;
use std::collections::BTreeMap;

/// The size that a block of items or entries states: the offset of the size, the size itself, and the offset of the first item.
#[derive(Clone, Copy, Debug)]
pub(crate) struct Block {
    pub(crate) size_at: usize,
    pub(crate) size: u64,
    pub(crate) from: usize,
}

/// The fields of a record, from the field with the number `next` on.
#[derive(Clone, Copy, Debug)]
pub(crate) struct Fields {
    pub(crate) places: &'static [u32],
    pub(crate) next: usize,
}

/// The remaining entries of a block of a map (how many), with the size that the block states, and the blocks that follow; and the names so far.
#[derive(Drop)]
pub(crate) struct Entries {
    pub(crate) child: u32,
    pub(crate) left: u64,
    pub(crate) block: Option<Block>,
    pub(crate) names: BTreeMap<Text, ()>,
}

/// A part of a value, of which some is still to come. Children are places of the table.
#[derive(Drop)]
pub(crate) enum Level {
    /// A node.
    Node(u32),
    /// The last fields of a record.
    Fields(Fields),
    /// The remaining items of a block of an array (how many), with the size that the block states, and the blocks that follow.
    Items(u32, u64, Option<Block>),
    /// The last entries of a map.
    Entries(Entries),
}
