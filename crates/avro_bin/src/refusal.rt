//! Why bytes are refused.
ghost use Rattle.std.specs.Prelude.{◌≡◌};
ghost use Rattle.avro_bin.specs.Refusing.{refusal};

use crate::fault::Why;
use thiserror::Error;

/// Why bytes were refused, and where: the offset at which the refused item begins. For a text, bytes, a name and a block that is the offset
/// of the length, count or size before it. Of several faults the one that a reader meets first counts.
#[derive(Clone, Copy, Debug, PartialEq, Eq, Drop, Error)]
pub enum Refusal {
    /// The input ends inside the item.
    #[error("the input ends inside the item at byte {0}")]
    Short(usize),
    /// Ten bytes do not end a number, or the tenth is above 1.
    #[error("the number at byte {0} does not end within ten bytes")]
    Number(usize),
    /// An int exceeds 32 bits.
    #[error("the int at byte {0} does not fit in 32 bits")]
    Range(usize),
    /// A boolean is neither 0 nor 1.
    #[error("the boolean at byte {0} is neither 0 nor 1")]
    Bool(usize),
    /// A union has no branch at that place, or an enum no symbol, or the place exceeds 32 bits.
    #[error("the union or enum at byte {0} has no such branch or symbol")]
    Branch(usize),
    /// A text or a name is not UTF-8.
    #[error("the text at byte {0} is not UTF-8")]
    Utf8(usize),
    /// A length or a block's size is negative.
    #[error("the length at byte {0} is negative")]
    Length(usize),
    /// The items of a block do not fill exactly the size that the block states.
    #[error("the items of the block at byte {0} do not fill its size")]
    BlockSize(usize),
    /// A map has the name already.
    #[error("the map has the name at byte {0} already")]
    DoubleKey(usize),
    /// The value would be one node more than `NODE_LIMIT` allows.
    #[error("the value at byte {0} is one node too many")]
    Limit(usize),
    /// Out of memory.
    #[error("out of memory")]
    NoMemory,
}

/// The refusal at an offset.
pub fn refusal_at(why: Why, offset: usize) -> Refusal
    ensures { result ≡ refusal why offset }
{
    match why {
        Why::Short => Refusal::Short(offset),
        Why::Number => Refusal::Number(offset),
        Why::Range => Refusal::Range(offset),
        Why::Bool => Refusal::Bool(offset),
        Why::Branch => Refusal::Branch(offset),
        Why::Utf8 => Refusal::Utf8(offset),
        Why::Length => Refusal::Length(offset),
        Why::BlockSize => Refusal::BlockSize(offset),
        Why::DoubleKey => Refusal::DoubleKey(offset),
        Why::Limit => Refusal::Limit(offset),
    }
}
