//! The values that messages and the store are made of.
//!
//! [`Text`], [`Blob`], [`List`], [`Named`], [`Boxed`] and [`Shared`] are `String`, `Bytes`, `Vec`, a sorted `Vec` of pairs, `Box` and
//! `Arc`, which contracts see as what they hold: the bytes, the items, the names with their values, the value. So a contract compares two
//! records of any depth by `≡`, and no record needs a second type for specifications.
//!
//! [`StoreUri`] names a dataspace or an object in one, and is read from exactly the texts of its grammar. [`Id16`] is an identifier,
//! [`DataValue`] a value of any kind, [`Point`] a value at an index, and [`ErrorCode`] the reason why a request is refused.
#![tactic(auto)]

mod bits;
mod blob;
mod boxed;
mod code;
mod copied;
mod data;
mod id;
mod id_text;
mod laws;
mod list;
mod memory;
mod named;
mod point;
mod same;
mod shared;
mod text;
mod uri;
mod weight;

pub use bits::{Bits32, Bits64};
pub use blob::Blob;
pub use boxed::Boxed;
pub use code::ErrorCode;
pub use copied::Copied;
pub use data::{AnyArray, AnySubarray, DataValue};
pub use id::Id16;
pub use id_text::ID_TEXT_LEN;
pub use laws::{lookup_laws, prefix_laws};
pub use list::List;
pub use memory::NoMemory;
pub use named::Named;
pub use point::{ChannelPoint, Point};
pub use shared::Shared;
pub use text::Text;
pub use uri::{
    MAX_PATH_LEN, MAX_URI_LEN, ObjectName, SpacePath, StoreUri, UriError, id_texts, is_type_filter,
    uri_equality, uri_texts,
};
pub use weight::custom_weight;
