//! Values in Avro's binary encoding, read and written by a schema.
//!
//! A [`Table`] is a schema as a static list of [`Node`]s, in which children come before the nodes that hold them. A [`Tree`] is a value.
//! [`decode`] reads the value of a node from the front of some bytes: it accepts every spelling that the encoding allows, in any blocks and
//! with numbers of up to ten bytes, and refuses everything else with one [`Refusal`] at its offset. [`encode`] appends the one spelling
//! that is written: shortest numbers, one block, and a map's names in byte order. [`size`] is that spelling's length. [`span`] reads
//! without building a value: it returns the length of the spelling. [`pass`] skips one value among others.
//!
//! [`leaves`], [`numbers`] and [`blocks`] are the parts of reading, for types that are read without a tree. Each returns the item at the
//! front of the bytes and what follows it, or a [`Fault`], which counts the bytes that are left where the refused item begins.
//!
//! The grammar is the relation `Spells` of `specs/Grammar`, by recursion on the schema. [`one_spelling`], [`one_outcome`],
//! [`reading_is_exact`], [`reads_back`] and [`read_longer`] carry its laws: bytes begin with at most one value, they are either read or refused
//! in one way, what was written reads back whatever follows it, and what is read or refused stays so when more bytes come.
#![tactic(auto)]

pub mod blocks;
mod decoding;
mod encoding;
mod fault;
mod laws;
pub mod leaves;
pub mod numbers;
mod refusal;
mod schema;
mod sizing;
mod spanning;
mod tree;

pub use decoding::{NODE_LIMIT, decode};
pub use encoding::{encode, put_blob, put_text};
pub use fault::{Fault, Why};
pub use laws::{
    one_outcome, one_spelling, read_longer, reading_is_exact, reads_back, spelled_has_schema,
};
pub use refusal::{Refusal, refusal_at};
pub use schema::{Node, Table};
pub use sizing::{SIZE_LIMIT, TooLong, blob_size, number_size, size};
pub use spanning::{pass, span};
pub use tree::Tree;
