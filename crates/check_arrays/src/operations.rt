//! Lists of operations, with semicolons between them.
use crate::calls::{key_of, record_of};
use crate::elements::{elements, numbers};
use array_store::{ArrayOp, ArrayStore, WeighedArray};
use etp_values::{List, NoMemory};
use std::alloc::Global;
use std::io;

/// The words of a line.
pub(crate) fn words_of<'a>(alloc: Global, line: &'a str) -> Result<Vec<&'a str>, NoMemory> {
    let mut words = Vec::new(alloc);
    for word in line.split(' ') {
        words.push(word)?;
    }
    Ok(words)
}

/// A patch in place, at this moment.
fn patch_of(
    alloc: Global,
    space: &str,
    path: &str,
    starts: &str,
    counts: &str,
    kind: &str,
    values: &str,
    at: &str,
) -> Result<ArrayOp, NoMemory> {
    let starts = numbers(alloc, starts)?;
    let counts = numbers(alloc, counts)?;
    let key = key_of(alloc, space, path)?;
    let values = elements(alloc, kind, values)?;
    Ok(ArrayOp::PatchArray {
        key,
        at: at.parse::<i64>().unwrap_or(0),
        starts,
        counts,
        values,
    })
}

/// The operation of these words, if they are one.
fn op_of(alloc: Global, words: &[&str]) -> Result<Option<ArrayOp>, NoMemory> {
    match words {
        ["set", space, path, dims, kind, values, at] => {
            let values = elements(alloc, kind, values)?;
            let record = record_of(alloc, dims, values, at)?;
            let array = WeighedArray::weigh(record);
            Ok(Some(ArrayOp::SetArray(key_of(alloc, space, path)?, array)))
        }
        ["patch", space, path, starts, counts, kind, values, at] => {
            let op = patch_of(alloc, space, path, starts, counts, kind, values, at)?;
            Ok(Some(op))
        }
        ["drop_object", space] => Ok(Some(ArrayOp::DropArraysOf(key_of(alloc, space, "")?.uri))),
        ["drop_space", space] => {
            Ok(Some(ArrayOp::DropArraysIn(key_of(alloc, space, "")?.uri.space)))
        }
        _ => Ok(None),
    }
}

fn ops_of(alloc: Global, line: &str) -> Result<List<ArrayOp>, NoMemory> {
    let mut ops = Vec::new(alloc);
    for part in line.split(';') {
        let words = words_of(alloc, part)?;
        if let Some(op) = op_of(alloc, words.as_slice())? {
            ops.push(op)?;
        }
    }
    Ok(List::from_vec(ops))
}

/// Applies the operations of a line, and counts them.
fn apply(alloc: Global, store: &mut ArrayStore, line: &str) -> Result<usize, NoMemory> {
    let ops = ops_of(alloc, line)?;
    let count = ops.len();
    store.reserve(count as u64)?;
    store.apply(ops);
    Ok(count)
}

/// Applies the operations of a line, and prints how many they are.
pub(crate) fn print_applied(
    rt: &HostRuntime,
    store: &mut ArrayStore,
    line: &str,
) -> io::Result<()> {
    match apply(rt.alloc(), store, line) {
        Ok(count) => println!(rt; "{count} done"),
        Err(_) => println!(rt; "no memory for the operations"),
    }
}
