//! Makes hostile messages.
ghost use Rattle.std.specs.Prelude.{◌<◌, length};

use crate::hostile::random::Random;
use etp_capture::{Frame, kinds};
use etp_values::{Blob, NoMemory};
use std::alloc::Global;

/// The longest message of random bytes, after its header.
const NOISE: u64 = 63;

/// The frame of a message at a random moment.
fn frame_of(random: &mut Random, kind: u8, bytes: Vec<u8>) -> Result<Frame, NoMemory> {
    let tag = random.below(5) as u32;
    let moment = (random.next() >> 1) as i64 - (1 << 62);
    Ok(Frame {
        kind,
        tag,
        moment,
        bytes: Blob::from_vec(bytes)?,
    })
}

/// The kind of a frame of either side's messages.
fn either_side(random: &mut Random) -> u8 {
    if random.below(2) == 0 {
        kinds::IN
    } else {
        kinds::OUT
    }
}

/// The kind of a frame of the other side's messages.
fn other_side(kind: u8) -> u8 {
    if kind == kinds::IN {
        kinds::OUT
    } else {
        kinds::IN
    }
}

/// A message of random bytes.
pub(crate) fn noise(alloc: Global, random: &mut Random) -> Result<Frame, NoMemory> {
    let kind = either_side(random);
    let mut bytes = Vec::new(alloc);
    push_noise(random, &mut bytes)?;
    frame_of(random, kind, bytes)
}

fn push_noise(random: &mut Random, bytes: &mut Vec<u8>) -> Result<(), NoMemory> {
    for _ in 0..random.below(NOISE + 1) {
        bytes.push(random.byte())?;
    }
    Ok(())
}

/// A message of random bytes after the header of a sample.
pub(crate) fn headed(
    alloc: Global,
    random: &mut Random,
    samples: &[Frame],
) -> Result<Frame, NoMemory>
    requires { 0 < length samples.now }
{
    let sample = one_of(random, samples);
    let mut bytes = header_of(sample.bytes.as_bytes()).to_vec(alloc)?;
    push_noise(random, &mut bytes)?;
    frame_of(random, sample.kind, bytes)
}

fn one_of<'a>(random: &mut Random, samples: &'a [Frame]) -> &'a Frame
    requires { 0 < length samples.now }
{
    &samples[random.below(samples.len() as u64) as usize]
}

/// The header of a message: five numbers, each of which ends with a byte below 128.
fn header_of(bytes: &[u8]) -> &[u8] {
    let mut left = 5u8;
    for at in 0..bytes.len() {
        if bytes[at] < 128 {
            left = left.saturating_sub(1);
        }
        if left == 0 {
            return &bytes[..at + 1];
        }
    }
    bytes
}

/// A sample that is damaged in one to three places. One in eight is shown as the other side's.
pub(crate) fn damaged(
    alloc: Global,
    random: &mut Random,
    samples: &[Frame],
) -> Result<Frame, NoMemory>
    requires { 0 < length samples.now }
{
    let sample = one_of(random, samples);
    let kind = if random.below(8) == 0 {
        other_side(sample.kind)
    } else {
        sample.kind
    };
    let mut bytes = sample.bytes.as_bytes().to_vec(alloc)?;
    for _ in 0..random.below(3) + 1 {
        damage(random, &mut bytes)?;
    }
    frame_of(random, kind, bytes)
}

/// Changes, removes or doubles a byte, or cuts off everything from it on.
pub(crate) fn damage(random: &mut Random, bytes: &mut Vec<u8>) -> Result<(), NoMemory> {
    if bytes.is_empty() {
        return Ok(());
    }
    let place = random.below(bytes.len() as u64) as usize;
    match random.below(8) {
        0 | 1 => bytes[place] = random.byte(),
        2 => bytes[place] ^= 1 << random.below(8),
        3 | 4 => {
            let _ = bytes.remove(place);
        }
        5 | 6 => {
            let byte = bytes[place];
            bytes.insert(place, byte)?;
        }
        _ => bytes.truncate(place),
    }
    Ok(())
}
