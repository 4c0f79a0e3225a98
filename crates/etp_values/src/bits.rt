//! Floating-point values as their bits: nothing in this product computes with them, and two values are equal exactly if their bits are.

/// The 32 bits of an IEEE 754 single.
#[derive(Clone, Copy, Debug, PartialEq, Eq, Drop)]
pub struct Bits32(pub u32);

/// The 64 bits of an IEEE 754 double.
#[derive(Clone, Copy, Debug, PartialEq, Eq, Drop)]
pub struct Bits64(pub u64);
