//! Feeds readers messages in pieces, and compares each answer with what is read of all bytes so far.
//!
//! Each message of a capture is fed as it is, damaged in one to three places, and cut: after an empty piece, in pieces of 1, 7 and 4,096
//! bytes. It is printed how many answers of each sort there were, and how many of them and of what the readers finished with differ from
//! what is read of the same bytes. Of the answers after the first 1,024 bytes every 256th is compared, and the last one.
//! `outside/piece_samples.py` counts the answers.
use crate::captures::{Placed, sender_of};
use crate::hostile::making::damage;
use crate::hostile::random::Random;
use avro_bin::Refusal;
use etp_frame::{FrameError, Header, Message, MessageReader, Reading, read_message};
use etp_schema::Side;
use etp_values::NoMemory;
use std::alloc::Global;
use std::io;

/// Up to how many bytes each answer is compared.
const COMPARED: usize = 1_024;

type Read = Result<(Header, Message), FrameError>;

/// How many answers there were.
#[derive(Drop)]
struct Answers {
    more: u64,
    whole: u64,
    refused: u64,
    /// How many are not what is read of the same bytes.
    different: u64,
}

impl Answers {
    fn new() -> Answers {
        Answers {
            more: 0,
            whole: 0,
            refused: 0,
            different: 0,
        }
    }

    fn add(&mut self, answer: Reading) {
        match answer {
            Reading::More => self.more = self.more.saturating_add(1),
            Reading::Whole => self.whole = self.whole.saturating_add(1),
            Reading::Refused(_) => self.refused = self.refused.saturating_add(1),
        }
    }

    /// Counts what is not the same.
    fn compare(&mut self, is_same: bool) {
        if !is_same {
            self.different = self.different.saturating_add(1);
        }
    }
}

/// The answer to bytes that are read so.
fn expected(read: &Read) -> Reading {
    match read {
        Ok(_) => Reading::Whole,
        Err(FrameError::Header(Refusal::Short(_))) => Reading::More,
        Err(FrameError::Body(_, Refusal::Short(_))) => Reading::More,
        Err(error) => Reading::Refused(*error),
    }
}

/// Whether both are refused for one reason, or have one header.
fn is_alike(one: &Read, other: &Read) -> bool {
    match (one, other) {
        (Ok(one), Ok(other)) => one.0 == other.0,
        (Err(one), Err(other)) => one == other,
        _ => false,
    }
}

/// Whether the answer to the front of the bytes is compared.
fn is_compared(front: &[u8], bytes: &[u8]) -> bool {
    front.len() <= COMPARED || front.len() % 256 == 0 || front.len() == bytes.len()
}

/// Compares the answer to bytes with what is read of them.
fn compare(alloc: Global, answer: Reading, bytes: &[u8], sender: Side, answers: &mut Answers) {
    let read = read_message(alloc, bytes, sender);
    answers.compare(answer == expected(&read));
    drop(read);
}

/// Compares what a reader finished with.
fn finish(alloc: Global, reader: MessageReader, bytes: &[u8], sender: Side, answers: &mut Answers) {
    let finished = reader.finish();
    let read = read_message(alloc, bytes, sender);
    answers.compare(is_alike(&finished, &read));
    drop(finished);
    drop(read);
}

/// Feeds a message in pieces of this length.
fn feed_pieces(
    alloc: Global,
    bytes: &[u8],
    sender: Side,
    size: usize,
    answers: &mut Answers,
) -> Result<(), NoMemory> {
    let mut reader = MessageReader::new(alloc, sender);
    answers.add(reader.feed(b"")?);
    let mut left = bytes;
    while !left.is_empty() {
        let (piece, after) = left.split_at(left.len().min(size.max(1)));
        let (front, _) = bytes.split_at(bytes.len().saturating_sub(after.len()));
        let answer = reader.feed(piece)?;
        answers.add(answer);
        if is_compared(front, bytes) {
            compare(alloc, answer, front, sender, answers);
        }
        left = after;
    }
    finish(alloc, reader, bytes, sender, answers);
    Ok(())
}

/// Feeds a message in pieces of each length.
fn feed_all(
    alloc: Global,
    bytes: &[u8],
    sender: Side,
    answers: &mut Answers,
) -> Result<(), NoMemory> {
    feed_pieces(alloc, bytes, sender, 1, answers)?;
    feed_pieces(alloc, bytes, sender, 7, answers)?;
    feed_pieces(alloc, bytes, sender, 4_096, answers)
}

/// Feeds a copy of a message that is damaged in one to three places.
fn feed_damaged(
    alloc: Global,
    random: &mut Random,
    bytes: &[u8],
    sender: Side,
    answers: &mut Answers,
) -> Result<(), NoMemory> {
    let mut damaged = bytes.to_vec(alloc)?;
    for _ in 0..random.below(3) + 1 {
        damage(random, &mut damaged)?;
    }
    feed_all(alloc, damaged.as_slice(), sender, answers)
}

/// Feeds the front of a message.
fn feed_cut(
    alloc: Global,
    random: &mut Random,
    bytes: &[u8],
    sender: Side,
    answers: &mut Answers,
) -> Result<(), NoMemory> {
    let length = random.below((bytes.len() as u64).max(1)) as usize;
    feed_all(alloc, &bytes[..length.min(bytes.len())], sender, answers)
}

/// The answers to the messages as they are, to the damaged ones and to the ones that are cut.
#[derive(Drop)]
struct Tally {
    whole: Answers,
    damaged: Answers,
    cut: Answers,
}

/// Feeds the messages of these frames.
fn feed_frames(alloc: Global, frames: &[Placed]) -> Result<Tally, NoMemory> {
    let mut random = Random::new(1);
    let mut tally = Tally {
        whole: Answers::new(),
        damaged: Answers::new(),
        cut: Answers::new(),
    };
    for placed in frames {
        if let Some(sender) = sender_of(&placed.frame) {
            let bytes = placed.frame.bytes.as_bytes();
            feed_all(alloc, bytes, sender, &mut tally.whole)?;
            feed_damaged(alloc, &mut random, bytes, sender, &mut tally.damaged)?;
            feed_cut(alloc, &mut random, bytes, sender, &mut tally.cut)?;
        }
    }
    Ok(tally)
}

fn print_answers(rt: &HostRuntime, sort: &str, answers: &Answers) -> io::Result<()> {
    println!(rt;
        "{sort}: more {} whole {} refused {} different {}",
        answers.more, answers.whole, answers.refused, answers.different
    )
}

/// Feeds the messages of these frames, and prints how many answers there were.
pub(crate) fn feed_messages(rt: &HostRuntime, frames: &[Placed]) -> io::Result<()> {
    let Ok(tally) = feed_frames(rt.alloc(), frames) else {
        return println!(rt; "no memory");
    };
    print_answers(rt, "as they are", &tally.whole)?;
    print_answers(rt, "damaged", &tally.damaged)?;
    print_answers(rt, "cut", &tally.cut)
}
