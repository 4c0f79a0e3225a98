//! The kinds of channels by their indexes among the kinds of the schema.

pub(crate) const BOOLEAN: u32 = 5;

pub(crate) const INT: u32 = 6;

pub(crate) const LONG: u32 = 7;

pub(crate) const FLOAT: u32 = 8;

pub(crate) const DOUBLE: u32 = 9;

pub(crate) const STRING: u32 = 10;

pub(crate) const BYTES: u32 = 11;
