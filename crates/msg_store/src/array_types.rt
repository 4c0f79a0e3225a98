//! The kinds of arrays, and what their elements mean.
use etp_schema::Typed;

/// A kind of array: the branch of AnyArray in which its elements are sent.
#[derive(Clone, Copy, Debug, PartialEq, Eq, Drop)]
pub enum AnyArrayType {
    ArrayOfBoolean,
    /// Integers of 32 bits.
    ArrayOfInt,
    /// Integers of 64 bits.
    ArrayOfLong,
    /// Floating-point values of 32 bits.
    ArrayOfFloat,
    /// Floating-point values of 64 bits.
    ArrayOfDouble,
    ArrayOfString,
    /// Elements of one byte each.
    Bytes,
}

impl Typed for AnyArrayType {
    ghost use Rattle.msg_store.specs.ArrayTypes.{any_array_type_form};

    ghost form = { any_array_type_form };
}

/// What the elements of an array mean to those who wrote them: signedness, width and byte order (`LE` with the lowest byte first, `BE` with
/// the highest). The store keeps it and does not act on it.
#[derive(Clone, Copy, Debug, PartialEq, Eq, Drop)]
pub enum AnyLogicalArrayType {
    ArrayOfBoolean,
    ArrayOfInt8,
    ArrayOfUInt8,
    ArrayOfInt16LE,
    ArrayOfInt32LE,
    ArrayOfInt64LE,
    ArrayOfUInt16LE,
    ArrayOfUInt32LE,
    ArrayOfUInt64LE,
    ArrayOfFloat32LE,
    ArrayOfDouble64LE,
    ArrayOfInt16BE,
    ArrayOfInt32BE,
    ArrayOfInt64BE,
    ArrayOfUInt16BE,
    ArrayOfUInt32BE,
    ArrayOfUInt64BE,
    ArrayOfFloat32BE,
    ArrayOfDouble64BE,
    ArrayOfString,
    /// Known only to those who wrote them.
    ArrayOfCustom,
}

impl Typed for AnyLogicalArrayType {
    ghost use Rattle.msg_store.specs.ArrayTypes.{any_logical_array_type_form};

    ghost form = { any_logical_array_type_form };
}
