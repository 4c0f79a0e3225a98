//! The calls on a copy of a record that is in no store.
use crate::elements::{elements, numbers};
use crate::showing::{print_answer, print_record};
use array_store::{ArrayError, ArrayRecord, read_slice, write_patch};
use etp_values::{AnyArray, Copied};
use std::alloc::Global;
use std::io;

fn read(
    alloc: Global,
    array: &ArrayRecord,
    starts: &str,
    counts: &str,
) -> Result<AnyArray, ArrayError> {
    let starts = numbers(alloc, starts)?;
    let counts = numbers(alloc, counts)?;
    read_slice(alloc, &array.copy(alloc)?, &starts, &counts)
}

fn write(
    alloc: Global,
    array: &ArrayRecord,
    starts: &str,
    counts: &str,
    values: AnyArray,
) -> Result<ArrayRecord, ArrayError> {
    let starts = numbers(alloc, starts)?;
    let counts = numbers(alloc, counts)?;
    let mut copy = array.copy(alloc)?;
    write_patch(alloc, &mut copy, &starts, &counts, values)?;
    Ok(copy)
}

fn print_copy(rt: &HostRuntime, copy: Result<ArrayRecord, ArrayError>) -> io::Result<()> {
    match copy {
        Ok(copy) => print_record(rt, &copy),
        Err(error) => println!(rt; "{error}"),
    }
}

/// Prints what a call on a copy of the record gives.
pub(crate) fn print_copied(
    rt: &HostRuntime,
    found: Option<&ArrayRecord>,
    words: &[&str],
) -> io::Result<()> {
    let Some(array) = found else {
        return println!(rt; "no array");
    };
    let alloc = rt.alloc();
    match words {
        [starts, counts] => print_answer(rt, read(alloc, array, starts, counts)),
        [starts, counts, kind, values] => match elements(alloc, kind, values) {
            Ok(values) => print_copy(rt, write(alloc, array, starts, counts, values)),
            Err(_) => println!(rt; "no memory for the values"),
        },
        _ => println!(rt; "no call"),
    }
}
