//! Messages that are checked in pieces.
ghost use Rattle.std.specs.Prelude.{◌≡◌, ◌<◌, ◌≤◌, ◌++◌, List, ℕ, length, IfOk, IfErr};
ghost use Rattle.avro_bin.specs.Laws.{IsBytes};
ghost use Rattle.etp_schema.specs.declared.body.Side.{Side};
ghost use Rattle.etp_frame.specs.Reading.{tree_of, read_of};
ghost use Rattle.etp_frame.specs.declared.stage.Reading.TheVariants as p;
ghost use Rattle.capture_text.specs.Feeding.{IsFed, IsRight, HasSaid, IsCause, ChecksBytes};

use etp_frame::{FrameError, MessageReader, Reading, check_message};
use etp_schema::Side;
use std::alloc::Global;

/// How many bytes of a message are looked at in one piece.
const PIECE: usize = 4_096;

/// How long the next piece of `length` bytes is.
fn next_size(length: usize) -> usize
    requires { 0 < length }
    ensures some { 0 < result }
    ensures within { result ≤ length }
{
    if length < PIECE { length } else { PIECE }
}

/// The next piece, and what follows it.
fn cut(bytes: &[u8]) -> (&[u8], &[u8])
    requires { 0 < length bytes.now }
    ensures whole { bytes.now ≡ result.0.now ++ result.1.now }
    ensures less { length result.1.now < length bytes.now }
{
    let size = next_size(bytes.len());
    bytes.split_at(size)
}

/// What a reader answered, and what is left to feed it. A refusal is an error.
fn unless_refused(
    reader: MessageReader,
    answer: Reading,
    left: &[u8],
) -> Result<(MessageReader, Reading, &[u8]), FrameError>
    ensures same { IfOk result (λ x. (x.0 ≡ reader) × (x.1 ≡ answer) × (x.2.now ≡ left.now)) }
    ensures refused { IfErr result (λ e. answer ≡ p.Refused e) }
{
    match answer {
        Reading::Refused(error) => Err(error),
        _ => Ok((reader, answer, left)),
    }
}

/// Feeds a reader the next piece: what it answers, and the bytes that are left.
fn next(
    mut reader: MessageReader,
    bytes: &[u8],
) -> Result<(MessageReader, Reading, &[u8]), FrameError>
    requires { 0 < length bytes.now }
    ensures says { (side : Side) (whole : List ℕ) → IsFed side whole bytes.now reader → IfOk result (λ x. HasSaid side whole x.2.now x.0 x.1) }
    ensures less { IfOk result (λ x. length x.2.now < length bytes.now) }
    ensures refuses { (side : Side) (whole : List ℕ) → IsBytes whole → IsFed side whole bytes.now reader → IfErr result (IsCause (read_of side whole)) }
{
    let (piece, left) = cut(bytes);
    match reader.feed(piece) {
        Ok(answer) => unless_refused(reader, answer, left),
        Err(_) => Err(FrameError::NoMemory),
    }
}

/// Feeds a reader a message up to the first refusal. The answer is `Whole` if the bytes are a message, and otherwise that more is needed.
fn feed_all(alloc: Global, bytes: &[u8], sender: Side) -> Result<Reading, FrameError>
    ensures right { IfOk result (IsRight sender bytes.now) }
    ensures refuses { IfErr result (IsCause (read_of sender bytes.now)) }
{
    let mut reader = MessageReader::new(alloc, sender);
    let mut answer = Reading::More;
    let mut left = bytes;
    while !left.is_empty() {
        match next(reader, left) {
            Ok((fed, said, after)) => {
                reader = fed;
                answer = said;
                left = after;
            }
            Err(error) => return Err(error),
        }
    }
    Ok(answer)
}

/// Succeeds if the bytes are a message that `sender` sends. Otherwise they are refused at the first piece that shows it, with the cause that
/// refuses the whole message.
pub(crate) fn check_pieces(alloc: Global, bytes: &[u8], sender: Side) -> Result<(), FrameError>
    ensures { ChecksBytes (tree_of sender bytes.now) result }
{
    match feed_all(alloc, bytes, sender) {
        Ok(answer) => settle(alloc, bytes, sender, answer),
        Err(error) => Err(error),
    }
}

/// Succeeds if the bytes are a message that `sender` sends. `answer` is what a reader answered to them.
fn settle(alloc: Global, bytes: &[u8], sender: Side, answer: Reading) -> Result<(), FrameError>
    requires { IsRight sender bytes.now answer }
    ensures { ChecksBytes (tree_of sender bytes.now) result }
{
    match answer {
        Reading::Whole => Ok(()),
        _ => check_whole(alloc, bytes, sender),
    }
}

/// Succeeds if the bytes are a message that `sender` sends.
fn check_whole(alloc: Global, bytes: &[u8], sender: Side) -> Result<(), FrameError>
    ensures { ChecksBytes (tree_of sender bytes.now) result }
{
    match check_message(alloc, bytes, sender) {
        Ok(_) => Ok(()),
        Err(error) => Err(error),
    }
}
