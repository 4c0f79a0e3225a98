//! Counts what answers a load.
ghost use Rattle.std.specs.Prelude.{◌≡◌, ◌≢◌, ◌+◌, ◌<◌, ◌^◌, ℕ, IfOk, false};
ghost use Rattle.etp_schema.specs.declared.body.Side.TheVariants as side;
ghost use Rattle.etp_schema.specs.Bodies.{is_number};
ghost use Rattle.etp_frame.specs.Message.{channel_subscribe_number};
ghost use Rattle.etp_frame.specs.Reading.{tree_of};
ghost use Rattle.etp_frame.specs.declared.error.FrameError.TheVariants as refused;
ghost use Rattle.load_forms.specs.Tally.{change_in, is_change, one_sent, plus, tally, tally_of, tally_part, tells_change, HasRoom};

use etp_capture::{Frame, kinds};
use etp_frame::{FrameError, Header, check_message};
use etp_schema::{Side, protocols};
use etp_values::NoMemory;
use std::alloc::Global;

/// The number of ChannelData in ChannelSubscribe.
const CHANNEL_DATA: i32 = 4;

/// The number of RangeReplaced.
const RANGE_REPLACED: i32 = 6;

/// The number of ChannelsTruncated.
const CHANNELS_TRUNCATED: i32 = 13;

/// How many messages were sent, and how many of them report points, a range or an end of channels. No number of answers that a load can
/// have exceeds 2^128.
#[derive(Clone, Copy)]
pub struct Tally {
    pub sent: u128,
    pub changes: u128,
}

/// Counts the messages among the frames that answer one, and adds them to those that were counted before.
pub fn count_answers(alloc: Global, before: Tally, answers: &[Frame]) -> Result<Tally, NoMemory>
    requires { HasRoom 1 before }
    ensures counts { IfOk result (λ t. t ≡ plus before (tally answers.now)) }
    ensures room { IfOk result (λ t. (frames : ℕ) → HasRoom (frames + 1) before → HasRoom frames t) }
{
    let mut counted = before;
    for answer in answers {
        let more = count_frame(alloc, counted, answer)?;
        counted = more;
    }
    Ok(counted)
}

/// One more frame.
fn count_frame(alloc: Global, before: Tally, frame: &Frame) -> Result<Tally, NoMemory>
    requires sent { before.sent + 1 < 2 ^ 128 }
    requires changes { before.changes + 1 < 2 ^ 128 }
    ensures { IfOk result (λ t. t ≡ plus before (tally_of frame.now)) }
{
    let one = tally_part(alloc, frame.kind, frame.bytes.as_bytes())?;
    Ok(plus(before, one))
}

/// Both together.
fn plus(before: Tally, one: Tally) -> Tally
    requires sent { before.sent + one.sent < 2 ^ 128 }
    requires changes { before.changes + one.changes < 2 ^ 128 }
    ensures { result ≡ plus before one }
{
    Tally {
        sent: before.sent + one.sent,
        changes: before.changes + one.changes,
    }
}

/// What a frame counts.
fn tally_part(alloc: Global, kind: u8, payload: &[u8]) -> Result<Tally, NoMemory>
    ensures { IfOk result (λ t. t ≡ tally_part kind payload.now) }
{
    if kind != kinds::OUT {
        return Ok(Tally {
            sent: 0,
            changes: 0,
        });
    }
    let change = change_in(alloc, payload)?;
    Ok(one_sent(change))
}

fn one_sent(change: bool) -> Tally
    ensures { result ≡ one_sent change }
{
    if change {
        return Tally {
            sent: 1,
            changes: 1,
        };
    }
    Tally {
        sent: 1,
        changes: 0,
    }
}

/// Whether a server's message reports a change.
fn change_in(alloc: Global, bytes: &[u8]) -> Result<bool, NoMemory>
    ensures { IfOk result (λ b. b ≡ change_in (tree_of side.Server bytes.now)) }
{
    match check_message(alloc, bytes, Side::Server) {
        Ok(header) => Ok(tells_change(header)),
        Err(error) => no_change(error),
    }
}

/// What is refused reports none, unless memory runs out.
fn no_change(error: FrameError) -> Result<bool, NoMemory>
    ensures { IfOk result (λ b. (b ≡ false) × (error ≢ refused.NoMemory)) }
{
    match error {
        FrameError::NoMemory => Err(NoMemory),
        FrameError::Header(_)
        | FrameError::Extension(_)
        | FrameError::Compressed(_)
        | FrameError::UnknownProtocol(_)
        | FrameError::UnknownKind(_)
        | FrameError::Body(_, _)
        | FrameError::Rest(_, _) => Ok(false),
    }
}

fn tells_change(header: Header) -> bool
    ensures { result ≡ tells_change header }
{
    is_subscribe(header.protocol) && is_change(header.kind)
}

fn is_subscribe(protocol: i32) -> bool
    ensures { result ≡ is_number channel_subscribe_number protocol }
{
    match protocol {
        protocols::CHANNEL_SUBSCRIBE => true,
        _ => false,
    }
}

/// Whether this is the number of ChannelData, RangeReplaced or ChannelsTruncated.
fn is_change(kind: i32) -> bool
    ensures { result ≡ is_change kind }
{
    match kind {
        CHANNEL_DATA => true,
        RANGE_REPLACED => true,
        CHANNELS_TRUNCATED => true,
        _ => false,
    }
}
