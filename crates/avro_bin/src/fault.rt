//! Faults while reading: what is wrong, and how many bytes were left where the refused item begins. So the parts of a value need not know
//! where in the message they are; `decode` counts the offset from the front.
ghost use Rattle.std.specs.Prelude.{◌≡◌};
ghost use Rattle.avro_bin.specs.declared.fault.Fault.TheVariants.{Memory};

use etp_values::NoMemory;
use std::alloc::{AllocError, AllocFailed};
use thiserror::Error;

/// What is wrong with the bytes, as described by the variant of `Refusal` with the same name.
#[derive(Clone, Copy, Debug, PartialEq, Eq, Error)]
pub enum Why {
    #[error("the input ends inside the item")]
    Short,
    #[error("the number does not end within ten bytes")]
    Number,
    #[error("the int does not fit in 32 bits")]
    Range,
    #[error("the boolean is neither 0 nor 1")]
    Bool,
    #[error("the union or enum has no such branch or symbol")]
    Branch,
    #[error("the text is not UTF-8")]
    Utf8,
    #[error("the length is negative")]
    Length,
    #[error("the items of the block do not fill its size")]
    BlockSize,
    #[error("the map has the name already")]
    DoubleKey,
    #[error("the value is one node too many")]
    Limit,
}

/// Out of memory, or what is wrong and how many bytes are left where the refused item begins.
#[derive(Clone, Copy, Debug, PartialEq, Eq, Error)]
pub enum Fault {
    #[error("out of memory")]
    Memory,
    #[error("{0}, with {1} bytes left")]
    At(Why, usize),
}

impl From<AllocError> for Fault {
    ghost from_gives = { λ _ e. e ≡ Memory };

    fn from(_error: AllocError) -> Fault {
        Fault::Memory
    }
}

impl<T: Drop> From<AllocFailed<T>> for Fault {
    ghost from_gives = { λ _ e. e ≡ Memory };

    fn from(_error: AllocFailed<T>) -> Fault {
        Fault::Memory
    }
}

impl From<NoMemory> for Fault {
    ghost from_gives = { λ _ e. e ≡ Memory };

    fn from(_error: NoMemory) -> Fault {
        Fault::Memory
    }
}
