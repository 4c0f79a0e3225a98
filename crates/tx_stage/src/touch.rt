//! What a transaction touched, and what it leaves when it is committed.
use crate::key::Key;
use crate::op::Op;
use etp_values::{Copied, List, NoMemory};
use std::alloc::Global;

/// A key that a transaction read or wrote, and the length that the journal had when it first did.
#[derive(Debug, Drop, PartialEq, Eq)]
pub struct Touch {
    pub key: Key,
    pub mark: u64,
}

/// A transaction that is to be committed: its operations in order, and what it touched, each key once.
#[derive(Debug, Drop, PartialEq, Eq)]
pub struct Staged {
    pub ops: List<Op>,
    pub touched: List<Touch>,
}

impl Copied for Touch {
    fn copy(&self, alloc: Global) -> Result<Touch, NoMemory> {
        Ok(Touch {
            key: self.key.copy(alloc)?,
            mark: self.mark,
        })
    }
}

impl Copied for Staged {
    fn copy(&self, alloc: Global) -> Result<Staged, NoMemory> {
        Ok(Staged {
            ops: self.ops.copy(alloc)?,
            touched: self.touched.copy(alloc)?,
        })
    }
}
