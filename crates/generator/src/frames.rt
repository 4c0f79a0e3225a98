//! The frames of the load, two at a time.
ghost use Rattle.std.specs.Prelude.{◌≡◌, ◌+◌, ◌<◌, ◌^◌, IfOk};
ghost use Rattle.etp_frame.specs.Wire.{message_bytes};
ghost use Rattle.generator.specs.Generator.{request_header, frame_of, message_frame, poll_frame, frames, Gives};

use crate::messages::{message_at, next_number};
use etp_capture::{Frame, kinds};
use etp_frame::{Header, Message, flags, write_message};
use etp_values::{Blob, NoMemory};
use std::alloc::Global;
use std::marker::Model;

/// How many sessions the load has; each has a channel of its own.
pub(crate) const SESSIONS: u32 = 8;

/// A load that is given frame by frame. A contract sees the frames that are left to give.
#[derive(Drop)]
pub struct Generator {
    /// The number that was drawn for the next message.
    number: u64,
    /// The place of the next message.
    place: u32,
    /// How many messages are left.
    count: u32,
}

impl Model for Generator {
    ghost use Rattle.std.specs.Prelude.{List, ◌+◌, ◌<◌, ◌^◌};
    ghost use Rattle.etp_capture.specs.declared.frame.Frame.{Frame};
    ghost use Rattle.generator.specs.Generator.{frames_from};

    ghost Value = { List Frame };

    ghost view = { λ g. frames_from g.number g.place g.count };

    ghost invariant = { λ g. g.place + g.count < 2 ^ 32 };
}

impl Generator {
    /// A load of this many messages; the count is also the seed of the draws.
    pub fn new(count: u32) -> Generator
        ensures { result ≡ frames count }
    {
        Generator {
            number: u64::from(count),
            place: 0,
            count,
        }
    }

    /// The frame of the next message and that of the poll after it; `None` if there are no more. An error gives nothing.
    pub fn next(&mut self, alloc: Global) -> Result<Option<(Frame, Frame)>, NoMemory>
        ensures { Gives result self.old self.new }
    {
        if self.count == 0 {
            return Ok(None);
        }
        let message = message_frame(alloc, self.number, self.place)?;
        let poll = poll_frame(self.place);
        self.number = next_number(self.number);
        self.place += 1;
        self.count -= 1;
        Ok(Some((message, poll)))
    }
}

/// The frame of a message.
fn message_frame(alloc: Global, number: u64, place: u32) -> Result<Frame, NoMemory>
    ensures { IfOk result (λ f. f ≡ message_frame number place) }
{
    let message = message_at(alloc, number, place)?;
    let frame = frame_of(alloc, place, &message);
    drop(message);
    frame
}

fn frame_of(alloc: Global, place: u32, message: &Message) -> Result<Frame, NoMemory>
    ensures { IfOk result (λ f. f ≡ frame_of place message.now) }
{
    let bytes = bytes_of(alloc, place, message)?;
    Ok(Frame {
        kind: kinds::IN,
        tag: place % SESSIONS,
        moment: i64::from(place),
        bytes,
    })
}

fn bytes_of(alloc: Global, place: u32, message: &Message) -> Result<Blob, NoMemory>
    ensures { IfOk result (λ b. b ≡ message_bytes (request_header place message.now) message.now) }
{
    let header = request_header(place, message);
    write_message(alloc, &header, message)
}

/// The header of a message; the messages of each session have the even ids in order.
fn request_header(place: u32, message: &Message) -> Header
    ensures { result ≡ request_header place message.now }
{
    Header {
        protocol: message.protocol(),
        kind: message.kind(),
        correlation: 0,
        id: (2 * (u64::from(place / SESSIONS) + 1)) as i64,
        flags: flags::FINAL_PART,
    }
}

/// The frame of a poll.
fn poll_frame(place: u32) -> Frame
    ensures { result ≡ poll_frame place }
{
    Frame {
        kind: kinds::POLL,
        tag: place % SESSIONS,
        moment: i64::from(place),
        bytes: Blob::new(),
    }
}
