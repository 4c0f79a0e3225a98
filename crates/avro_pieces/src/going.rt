//! Steps into a value, one after another.
ghost use Rattle.std.specs.Prelude.{◌≡◌, ◌<◌, length, IfOk, IfErr};
ghost use Rattle.avro_bin.specs.Schema.{IsTable};
ghost use Rattle.avro_pieces.specs.Passage.{IsGoing, MovesTo, Stops, GoingFails};

use crate::level::Level;
use crate::turn::{Turn, step};
use avro_bin::{Fault, Table};
use std::alloc::Global;

/// The parts of a value that are still to come, each inside the one before it, how many nodes they may have, and the bytes that were not
/// skipped.
#[derive(Drop)]
pub(crate) struct Going<'a> {
    pub(crate) levels: Vec<Level>,
    pub(crate) allowed: u32,
    pub(crate) rest: &'a [u8],
}

/// Where a step leads.
#[derive(Drop)]
pub(crate) enum Moved<'a> {
    On(Going<'a>),
    /// Nothing is left of the value, or the bytes end inside its innermost part.
    Stop(Going<'a>, bool),
}

/// One step into the innermost part.
fn advance<'a>(
    alloc: Global,
    table: &Table,
    id: u32,
    bytes: &'a [u8],
    going: Going<'a>,
) -> Result<Moved<'a>, Fault>
    requires table { IsTable table.now.nodes.now }
    requires going { IsGoing table.now.nodes.now id bytes.now going }
    ensures moves { IfOk result (MovesTo table.now.nodes.now id bytes.now) }
    ensures fails { IfErr result (GoingFails table.now.nodes.now id bytes.now) }
{
    let Going {
        mut levels,
        allowed,
        rest,
    } = going;
    let Some(level) = levels.pop() else {
        let whole = Going {
            levels,
            allowed,
            rest,
        };
        return Ok(Moved::Stop(whole, true));
    };
    match step(alloc, table, level, allowed, bytes.len(), rest)? {
        Turn::Short(level) => {
            levels.push(level)?;
            let short = Going {
                levels,
                allowed,
                rest,
            };
            Ok(Moved::Stop(short, false))
        }
        Turn::Over(allowed, rest) => Ok(Moved::On(Going {
            levels,
            allowed,
            rest,
        })),
        Turn::Into(level, allowed, rest) => {
            levels.push(level)?;
            Ok(Moved::On(Going {
                levels,
                allowed,
                rest,
            }))
        }
        Turn::Inside(outer, inner, allowed, rest) => {
            levels.push(outer)?;
            levels.push(inner)?;
            Ok(Moved::On(Going {
                levels,
                allowed,
                rest,
            }))
        }
    }
}

/// Steps until nothing is left of the value, or the bytes end inside it.
pub(crate) fn run<'a>(
    alloc: Global,
    table: &Table,
    id: u32,
    bytes: &'a [u8],
    going: Going<'a>,
) -> Result<(Going<'a>, bool), Fault>
    requires table { IsTable table.now.nodes.now }
    requires going { IsGoing table.now.nodes.now id bytes.now going }
    ensures going { IfOk result (λ x. IsGoing table.now.nodes.now id bytes.now x.0) }
    ensures stops { IfOk result (λ x. Stops table.now.nodes.now bytes.now x.0 x.1) }
    ensures fails { IfErr result (GoingFails table.now.nodes.now id bytes.now) }
{
    let mut current = going;
    for _ in 0..u64::MAX {
        match advance(alloc, table, id, bytes, current)? {
            Moved::On(next) => current = next,
            Moved::Stop(last, is_whole) => return Ok((last, is_whole)),
        }
    }
    // Unreachable: each step skips bytes, or opens one of at most 8,388,608 nodes, or goes on to a part for which the bytes so far stated a count.
    Err(Fault::Memory)
}
