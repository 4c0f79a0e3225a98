//! Shows and checks messages that no well-behaved peer sends.
//!
//! The samples are the messages of a capture. From them are made messages of random bytes, half of them after the header of a sample, and
//! samples that are damaged in one to three places. Each is shown and checked; and after every thousand it is printed how many lines that
//! made, how many messages were accepted and refused, and a digest of all lines so far. `outside/hostile_messages.py` makes and reads the
//! same messages.
//!
//! With no words the seed is 1, and there are ten thousand messages of each sort. `SEED THOUSANDS` gives others, and a third word `lines`
//! prints the lines themselves.
ghost use Rattle.std.specs.Prelude.{◌<◌, length};

pub(crate) mod making;
pub(crate) mod random;
mod tally;

use crate::captures::{Capture, sender_of};
use etp_capture::Frame;
use etp_values::NoMemory;
use making::{damaged, headed, noise};
use random::Random;
use std::alloc::Global;
use std::io::{self, Write};
use tally::Tally;

/// What is made.
#[derive(Drop)]
struct Plan {
    seed: u64,
    /// How many thousand messages of each sort.
    thousands: u64,
    /// Whether the lines are printed, instead of their digest.
    lines: bool,
}

/// The plan of these words.
fn plan_of(words: &[&str]) -> Plan {
    let (seed, thousands) = match words {
        [seed, thousands, ..] => (
            seed.parse::<u64>().unwrap_or(1),
            thousands.parse::<u64>().unwrap_or(10),
        ),
        _ => (1, 10),
    };
    Plan {
        seed,
        thousands,
        lines: words.len() > 2,
    }
}

/// The frames of the capture that have a message.
fn samples(alloc: Global, capture: Capture) -> Result<Vec<Frame>, NoMemory> {
    let mut samples = Vec::new(alloc);
    for placed in capture.frames {
        if sender_of(&placed.frame).is_some() {
            samples.push(placed.frame)?;
        }
    }
    Ok(samples)
}

/// The message at this place of its sort: first those of random bytes, without and with a header by turns, then damaged samples.
fn made(
    alloc: Global,
    random: &mut Random,
    samples: &[Frame],
    is_random: bool,
    place: u64,
) -> Result<Frame, NoMemory>
    requires { 0 < length samples.now }
{
    if !is_random {
        return damaged(alloc, random, samples);
    }
    if place % 2 == 0 {
        noise(alloc, random)
    } else {
        headed(alloc, random, samples)
    }
}

/// Makes a thousand messages, and shows and checks them.
fn thousand(
    rt: &HostRuntime,
    plan: &Plan,
    random: &mut Random,
    samples: &[Frame],
    is_random: bool,
    tally: &mut Tally,
) -> io::Result<()>
    requires { 0 < length samples.now }
{
    let mut lines = Vec::new(rt.alloc());
    for place in 0..1000 {
        match one(
            rt.alloc(),
            random,
            samples,
            is_random,
            place,
            tally,
            &mut lines,
        ) {
            Ok(()) => {}
            Err(_) => return println!(rt; "no memory"),
        }
        if plan.lines {
            io::writer(rt).write_all(lines.as_slice())?;
        }
    }
    if plan.lines {
        return Ok(());
    }
    print_tally(rt, tally)
}

/// Makes a message, and shows and checks it.
fn one(
    alloc: Global,
    random: &mut Random,
    samples: &[Frame],
    is_random: bool,
    place: u64,
    tally: &mut Tally,
    lines: &mut Vec<u8>,
) -> Result<(), NoMemory>
    requires { 0 < length samples.now }
{
    let frame = made(alloc, random, samples, is_random, place)?;
    tally.add(alloc, &frame, lines)
}

fn print_tally(rt: &HostRuntime, tally: &Tally) -> io::Result<()> {
    println!(rt;
        "messages {} lines {} taken {} refused {} digest {:016x}",
        tally.messages, tally.lines, tally.taken, tally.refused, tally.digest
    )
}

/// Makes the messages of a plan.
fn make_all(rt: &HostRuntime, plan: &Plan, samples: &[Frame]) -> io::Result<()>
    requires { 0 < length samples.now }
{
    let mut random = Random::new(plan.seed);
    let mut tally = Tally::new();
    for _ in 0..plan.thousands {
        thousand(rt, plan, &mut random, samples, true, &mut tally)?;
    }
    for _ in 0..plan.thousands {
        thousand(rt, plan, &mut random, samples, false, &mut tally)?;
    }
    Ok(())
}

/// Makes messages from the samples of a capture, as the words say.
pub(crate) fn print_hostile(rt: &HostRuntime, capture: Capture, words: &[&str]) -> io::Result<()> {
    let Ok(samples) = samples(rt.alloc(), capture) else {
        return println!(rt; "no memory for the samples");
    };
    if samples.is_empty() {
        return println!(rt; "no samples");
    }
    make_all(rt, &plan_of(words), samples.as_slice())
}
