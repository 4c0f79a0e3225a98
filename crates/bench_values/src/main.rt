//! Measures the codec and the store of channels.
//!
//! Without words it writes and reads a few values of each kind, and prints how many bytes they have. Then it takes one channel through
//! a thousand changes of a fixed sequence, next to a plain list of its points, and prints how many changes of each kind there were, what
//! is left, whether both were the same after each change, and how many points a range gives that were appended at once.
//!
//! ```text
//! longs COUNT, doubles COUNT, map COUNT    how many bytes a second are written and read of such a value, as a tree and typed
//! points COUNT [AT_ONCE]                   how long a point takes to be appended, AT_ONCE by each call, and to be read in ranges
//! ```
#![tactic(auto)]

mod channel;
mod codec;

use channel::measure::measure_points;
use channel::trial::run_trial;
use codec::measure_kind;
use std::{env, io};

/// What is run if nothing is measured.
fn run_unmeasured(rt: &HostRuntime) -> io::Result<()> {
    measure_kind(rt, "longs", 5, false)?;
    measure_kind(rt, "doubles", 5, false)?;
    measure_kind(rt, "map", 5, false)?;
    run_trial(rt)
}

/// The number that a word denotes; `otherwise` if there is no word, or none.
fn number_in(word: Option<String>, otherwise: u32) -> u32 {
    match word {
        Some(word) => word.as_str().parse::<u32>().unwrap_or(otherwise),
        None => otherwise,
    }
}

fn main(rt: HostRuntime) -> io::Result<()> {
    let mut words = env::args(&rt)?;
    let _program = words.next();
    let Some(kind) = words.next() else {
        return run_unmeasured(&rt);
    };
    let count = number_in(words.next(), 0);
    if kind.as_str() == "points" {
        return measure_points(&rt, count, number_in(words.next(), 1));
    }
    measure_kind(&rt, kind.as_str(), count, true)
}
