//! Dataspaces and data objects: the tables of what is stored, by path and by URI.
//!
//! An [`ObjectStore`] holds a [`SpaceRecord`] for each dataspace and an [`ObjectRecord`] for each object. It is changed by lists of
//! [`ObjectOp`]s: [`ObjectStore::reserve`] allocates for a list, and [`ObjectStore::apply`] then performs it and can't fail. So whoever
//! changes several tables at once can allocate for all of them first.
//!
//! An operation that sets a record carries a copy of the record's key next to it ([`KeyedSpace`], [`KeyedObject`]), since the table needs a
//! key of its own. A contract sees such a pair as the record.
#![tactic(auto)]

mod going;
mod keyed;
mod op;
mod records;
mod store;
mod tables;

pub use keyed::{KeyedObject, KeyedSpace};
pub use op::ObjectOp;
pub use records::{ObjectRecord, SpaceRecord};
pub use store::ObjectStore;
