//! Transactions, by the words of the keys that they touched and of their operations.
use crate::keys::key_of;
use crate::operations::op_of;
use crate::words::words_of;
use etp_values::{List, NoMemory};
use std::alloc::Global;
use tx_stage::{Op, Staged, Touch};

fn touch_of(alloc: Global, key: &str, mark: &str) -> Result<Touch, NoMemory> {
    let key = key_of(alloc, key)?;
    let mark = mark.parse::<u64>().unwrap_or(0);
    Ok(Touch { key, mark })
}

/// Takes in an item that is a touched key.
fn push_touch(alloc: Global, touched: &mut Vec<Touch>, item: &str) -> Result<(), NoMemory> {
    let words = words_of(alloc, item)?;
    let ["touch", key, mark] = words.as_slice() else {
        return Ok(());
    };
    touched.push(touch_of(alloc, key, mark)?)?;
    Ok(())
}

/// Takes in an item that is an operation.
fn push_op(alloc: Global, ops: &mut Vec<Op>, item: &str) -> Result<(), NoMemory> {
    let words = words_of(alloc, item)?;
    let ["do", moment, key, what @ ..] = words.as_slice() else {
        return Ok(());
    };
    ops.push(op_of(alloc, moment, key, what)?)?;
    Ok(())
}

fn touches(alloc: Global, items: &[&str]) -> Result<List<Touch>, NoMemory> {
    let mut touched = Vec::new(alloc);
    for item in items {
        push_touch(alloc, &mut touched, item)?;
    }
    Ok(List::from_vec(touched))
}

fn ops(alloc: Global, items: &[&str]) -> Result<List<Op>, NoMemory> {
    let mut ops = Vec::new(alloc);
    for item in items {
        push_op(alloc, &mut ops, item)?;
    }
    Ok(List::from_vec(ops))
}

/// A transaction that touched keys and has operations given by these items, each in their order.
pub(crate) fn staged(alloc: Global, items: &[&str]) -> Result<Staged, NoMemory> {
    let ops = ops(alloc, items)?;
    let touched = touches(alloc, items)?;
    Ok(Staged { ops, touched })
}
