//! The calls of the store, each by the words of its line.
ghost use Rattle.std.specs.Prelude.{IsSome};
ghost use Rattle.array_store.specs.Table.{array_in};

use crate::elements::{elements, numbers};
use crate::records::print_copied;
use crate::showing::{print_answer, print_record};
use array_store::{ArrayError, ArrayKey, ArrayRecord, ArrayStore, dims, record_refusal};
use etp_values::{AnyArray, Copied, List, Named, NoMemory, StoreUri, Text};
use std::alloc::Global;
use std::io;

/// The key of a path in a dataspace.
pub(crate) fn key_of(alloc: Global, space: &str, path: &str) -> Result<ArrayKey, NoMemory> {
    Ok(ArrayKey {
        uri: StoreUri {
            space: Text::copy(alloc, space)?,
            object: None,
        },
        path: Text::copy(alloc, path)?,
    })
}

/// A record of these elements, written at this moment.
pub(crate) fn record_of(
    alloc: Global,
    dims: &str,
    values: AnyArray,
    at: &str,
) -> Result<ArrayRecord, NoMemory> {
    Ok(ArrayRecord {
        dims: numbers(alloc, dims)?,
        preferred: List::new(alloc),
        values,
        logical: 4,
        custom: Named::new(alloc),
        written: at.parse::<i64>().unwrap_or(0),
        created: 0,
    })
}

fn print_dims(rt: &HostRuntime, list: &str, count: &str) -> io::Result<()> {
    let alloc = rt.alloc();
    match numbers(alloc, list) {
        Ok(list) => match dims(&list, count.parse::<u64>().ok()) {
            Ok(count) => println!(rt; "{count}"),
            Err(error) => println!(rt; "{error}"),
        },
        Err(_) => println!(rt; "no memory for the dimensions"),
    }
}

/// Why a record is not an array, if it is not.
fn judge(
    alloc: Global,
    dims: &str,
    kind: &str,
    values: &str,
) -> Result<Option<ArrayError>, NoMemory> {
    let values = elements(alloc, kind, values)?;
    let record = record_of(alloc, dims, values, "0")?;
    Ok(record_refusal(&record))
}

fn print_judged(rt: &HostRuntime, dims: &str, kind: &str, values: &str) -> io::Result<()> {
    match judge(rt.alloc(), dims, kind, values) {
        Ok(Some(error)) => {
            let code = error.code().number();
            println!(rt; "code {code}: {error}")
        }
        Ok(None) => println!(rt; "an array"),
        Err(_) => println!(rt; "no memory for the record"),
    }
}

fn print_done(rt: &HostRuntime, done: Result<(), ArrayError>) -> io::Result<()> {
    match done {
        Ok(()) => println!(rt; "done"),
        Err(error) => println!(rt; "{error}"),
    }
}

/// Prints a copy of the array.
fn print_found(rt: &HostRuntime, found: Option<&ArrayRecord>) -> io::Result<()> {
    let Some(array) = found else {
        return println!(rt; "no array");
    };
    match array.copy(rt.alloc()) {
        Ok(copy) => print_record(rt, &copy),
        Err(_) => println!(rt; "no memory for a copy"),
    }
}

fn reserve(store: &mut ArrayStore, more: &str) -> Result<(), ArrayError> {
    Ok(store.reserve(more.parse::<u64>().unwrap_or(0))?)
}

fn put(
    alloc: Global,
    store: &mut ArrayStore,
    key: &ArrayKey,
    dims: &str,
    values: AnyArray,
    at: &str,
) -> Result<(), ArrayError> {
    let record = record_of(alloc, dims, values, at)?;
    store.put(key.copy(alloc)?, record)
}

fn slice(
    alloc: Global,
    store: &ArrayStore,
    key: &ArrayKey,
    starts: &str,
    counts: &str,
) -> Result<AnyArray, ArrayError>
    requires { IsSome (array_in store.now key.now) }
{
    store.slice(
        alloc,
        key,
        &numbers(alloc, starts)?,
        &numbers(alloc, counts)?,
    )
}

fn patch(
    alloc: Global,
    store: &mut ArrayStore,
    key: &ArrayKey,
    starts: &str,
    counts: &str,
    values: AnyArray,
) -> Result<(), ArrayError>
    requires { IsSome (array_in store.old key.now) }
{
    let starts = numbers(alloc, starts)?;
    let counts = numbers(alloc, counts)?;
    store.patch(alloc, key, &starts, &counts, values)
}

/// A call on an existing array.
fn print_held(
    rt: &HostRuntime,
    store: &mut ArrayStore,
    key: &ArrayKey,
    call: &str,
    words: &[&str],
) -> io::Result<()>
    requires { IsSome (array_in store.old key.now) }
{
    let alloc = rt.alloc();
    match words {
        [starts, counts] if call == "slice" => {
            print_answer(rt, slice(alloc, store, key, starts, counts))
        }
        [starts, counts, kind, values] if call == "patch" => match elements(alloc, kind, values) {
            Ok(values) => print_done(rt, patch(alloc, store, key, starts, counts, values)),
            Err(_) => println!(rt; "no memory for the values"),
        },
        [at] if call == "written" => {
            store.set_written(key, at.parse::<i64>().unwrap_or(0));
            println!(rt; "done")
        }
        _ => println!(rt; "no call"),
    }
}

/// A call on the array of a key.
fn print_keyed(
    rt: &HostRuntime,
    store: &mut ArrayStore,
    key: &ArrayKey,
    call: &str,
    words: &[&str],
) -> io::Result<()> {
    let alloc = rt.alloc();
    match words {
        [] => print_found(rt, store.get(key)),
        [dims, kind, values, at] if call == "put" => match elements(alloc, kind, values) {
            Ok(values) => print_done(rt, put(alloc, store, key, dims, values, at)),
            Err(_) => println!(rt; "no memory for the values"),
        },
        words if call == "copied" => print_copied(rt, store.get(key), words),
        _ => {
            if store.get(key).is_none() {
                return println!(rt; "no array");
            }
            print_held(rt, store, key, call, words)
        }
    }
}

/// Runs one call, and prints what it gives.
pub(crate) fn print_call(
    rt: &HostRuntime,
    store: &mut ArrayStore,
    words: &[&str],
) -> io::Result<()> {
    match words {
        [call, dims, count] if *call == "dims" => print_dims(rt, dims, count),
        [call, dims, kind, values] if *call == "judge" => print_judged(rt, dims, kind, values),
        [call, more] if *call == "reserve" => print_done(rt, reserve(store, more)),
        [call, space, path, words @ ..] => match key_of(rt.alloc(), space, path) {
            Ok(key) => print_keyed(rt, store, &key, call, words),
            Err(_) => println!(rt; "no memory for the key"),
        },
        [call, space] => match key_of(rt.alloc(), space, "") {
            Ok(key) if *call == "drop_object" => println!(rt; "{}", store.drop_object(&key.uri)),
            Ok(key) => println!(rt; "{}", store.drop_space(&key.uri.space)),
            Err(_) => println!(rt; "no memory for the key"),
        },
        _ => println!(rt; "no call"),
    }
}
