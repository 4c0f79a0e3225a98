//! Measures the codec: writes and reads an array of longs, an array of doubles or a map of longs, as a tree and as typed values.
ghost use Rattle.std.specs.Prelude.{◌<◌};

mod values;

use avro_bin::{Node, Refusal, Table, decode, encode};
use etp_schema::{OnWire, read_body, write_body};
use etp_values::NoMemory;
use message_trees::InTree;
use std::io;
use std::time::{Duration, Instant};
use values::{doubles, longs, map};

static TABLE: Table = Table {
    nodes: &[
        Node::Long,
        Node::Double,
        Node::Array(0),
        Node::Array(1),
        Node::Map(0),
    ],
};

/// The place of the node of a kind of value, which is `longs`, `doubles` or `map`.
fn place_of(kind: &str) -> u32
    ensures { result < 5 }
{
    match kind {
        "longs" => 2,
        "doubles" => 3,
        _ => 4,
    }
}

/// Bytes per second, in thousands.
fn rate(bytes: usize, time: Duration) -> u128 {
    bytes as u128 * 1_000_000 / (time.as_nanos() + 1)
}

/// How long it took to write a value and to read it again.
#[derive(Clone, Copy, Drop)]
struct Times {
    writing: Duration,
    reading: Duration,
}

/// Prints how many of the bytes were read.
fn tell(
    rt: &HostRuntime,
    kind: &str,
    way: &str,
    bytes: usize,
    read: Result<usize, Refusal>,
) -> io::Result<()> {
    match read {
        Ok(len) => println!(rt; "{kind}, {way}: {len} of {bytes} bytes"),
        Err(refusal) => println!(rt; "{kind}, {way}: {refusal:?}"),
    }
}

/// Prints how fast they were written and read.
fn tell_times(rt: &HostRuntime, bytes: usize, times: Times) -> io::Result<()> {
    println!(rt;
        "written: {} thousand bytes a second",
        rate(bytes, times.writing)
    )?;
    println!(rt;
        "read: {} thousand bytes a second",
        rate(bytes, times.reading)
    )
}

/// Writes and reads a value as a tree, and prints how many bytes it has, and how fast that was if `timed`.
#[tactic(auto, using(avro_bin::proofs::TableTestLemmas::table_is))]
fn measure_tree<T: InTree>(rt: &HostRuntime, kind: &str, value: &T, timed: bool) -> io::Result<()> {
    let alloc = rt.alloc();
    let place = place_of(kind);
    let Ok(tree) = value.to_tree(alloc) else {
        return println!(rt; "no memory for the tree");
    };
    let mut bytes = Vec::new(alloc);
    let start = Instant::now(rt)?;
    let written = encode(&TABLE, place, &tree, &mut bytes);
    let writing = start.elapsed(rt)?;
    if written.is_err() {
        return println!(rt; "no memory to write");
    }
    let start = Instant::now(rt)?;
    let read = decode(alloc, &TABLE, place, bytes.as_slice());
    let reading = start.elapsed(rt)?;
    tell(rt, kind, "tree", bytes.len(), read.map(|(_, len)| len))?;
    if timed {
        tell_times(rt, bytes.len(), Times { writing, reading })?;
    }
    Ok(())
}

/// Writes and reads a value without a tree, and prints the same.
fn measure_typed<T: OnWire>(
    rt: &HostRuntime,
    kind: &str,
    value: &T,
    timed: bool,
) -> io::Result<()> {
    let alloc = rt.alloc();
    let mut bytes = Vec::new(alloc);
    let start = Instant::now(rt)?;
    let written = write_body(value, &mut bytes);
    let writing = start.elapsed(rt)?;
    if written.is_err() {
        return println!(rt; "no memory to write");
    }
    let start = Instant::now(rt)?;
    let read = read_body::<T>(alloc, bytes.as_slice());
    let reading = start.elapsed(rt)?;
    tell(rt, kind, "typed", bytes.len(), read.map(|(_, len)| len))?;
    if timed {
        tell_times(rt, bytes.len(), Times { writing, reading })?;
    }
    Ok(())
}

fn measure<T: OnWire + InTree>(
    rt: &HostRuntime,
    kind: &str,
    value: Result<T, NoMemory>,
    timed: bool,
) -> io::Result<()> {
    let Ok(value) = value else {
        return println!(rt; "no memory for the value");
    };
    measure_tree(rt, kind, &value, timed)?;
    measure_typed(rt, kind, &value, timed)
}

/// Measures this many values of a kind, and prints how many bytes they have, and how fast they were written and read if `timed`.
pub(crate) fn measure_kind(
    rt: &HostRuntime,
    kind: &str,
    count: u32,
    timed: bool,
) -> io::Result<()> {
    let alloc = rt.alloc();
    match kind {
        "longs" => measure(rt, kind, longs(alloc, count), timed),
        "doubles" => measure(rt, kind, doubles(alloc, count), timed),
        _ => measure(rt, kind, map(alloc, count), timed),
    }
}
