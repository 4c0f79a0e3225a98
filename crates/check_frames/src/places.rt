//! The places of messages' bodies in the schema's table.
use etp_schema::{Side, body_of};
use std::io;

/// Protocols have no greater number.
const LAST_PROTOCOL: i32 = 31;

/// Messages of one protocol alone have no greater number.
const LAST_KIND: i32 = 31;

/// The messages of every protocol have numbers from the first to the second of these.
const COMMON_KINDS: (i32, i32) = (1000, 1001);

fn print_place(rt: &HostRuntime, protocol: i32, kind: i32) -> io::Result<()> {
    for (name, sender) in [("C", Side::Client), ("S", Side::Server)] {
        if let Some(place) = body_of(protocol, kind, sender) {
            println!(rt; "{protocol} {kind} {name} {place}")?;
        }
    }
    Ok(())
}

/// Prints of each message its protocol's number, its own, who sends it, and the place of its body.
pub(crate) fn print_places(rt: &HostRuntime) -> io::Result<()> {
    for protocol in 0..=LAST_PROTOCOL {
        for kind in 0..=LAST_KIND {
            print_place(rt, protocol, kind)?;
        }
        for kind in COMMON_KINDS.0..=COMMON_KINDS.1 {
            print_place(rt, protocol, kind)?;
        }
    }
    Ok(())
}
