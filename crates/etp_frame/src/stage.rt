//! How far a message that comes in pieces was read.
ghost use Rattle.std.specs.Prelude.{◌≡◌, ◌≢◌, ◌≤◌, ◌++◌, length, drop, Err, IfOk, IfErr};
ghost use Rattle.avro_bin.specs.Laws.{read_value, node_limit};
ghost use Rattle.avro_pieces.specs.Passage.{Passes, PassRefuses};
ghost use Rattle.avro_pieces.specs.declared.passage.Passed.TheVariants as passed;
ghost use Rattle.etp_schema.specs.Shapes.{shape_at};
ghost use Rattle.etp_frame.specs.Reading.{IsFault, tree_of};
ghost use Rattle.etp_frame.specs.Standing.{IsProfile, IsFrontOf, StandsIn, StoodIn, Stands, Takes, heard_at, IsAnswer, IsRejected};
ghost use Rattle.etp_frame.specs.declared.error.FrameError.TheVariants as f;

use crate::error::FrameError;
use crate::header::Header;
use crate::reading::{body_error, read_front};
use avro_bin::{Refusal, Table};
use avro_pieces::{Passage, Passed};
use etp_schema::Side;
use etp_values::NoMemory;
use std::alloc::Global;

/// What a reader says of all bytes that it was fed.
#[derive(Clone, Copy, Debug, PartialEq, Eq, Drop)]
pub enum Reading {
    /// They end inside the header or the body.
    More,
    /// They are a message.
    Whole,
    /// They are no message, whatever follows them.
    Refused(FrameError),
}

/// What comes before a body: the header, the length of its spelling, and the place of the body's schema.
#[derive(Clone, Copy, Debug)]
pub(crate) struct Front {
    header: Header,
    length: usize,
    place: u32,
}

/// How far the bytes that have come were read.
#[derive(Drop)]
pub(crate) enum Stage {
    /// They end inside the header.
    Header(Vec<u8>),
    /// They begin with this header, and the passage has come so far in the body.
    Body(Vec<u8>, Front, Passage),
    /// They are refused.
    Refused(FrameError),
    /// Memory ran out.
    Lost,
}

/// The refusal, unless the bytes only end inside the header or the body.
fn rejected(error: FrameError) -> Result<Option<FrameError>, NoMemory>
    ensures { IfOk result (IsRejected error) }
{
    match error {
        FrameError::NoMemory => Err(NoMemory),
        FrameError::Header(Refusal::Short(_)) => Ok(None),
        FrameError::Body(_, Refusal::Short(_)) => Ok(None),
        _ => Ok(Some(error)),
    }
}

/// The error, unless it is that memory ran out.
fn fault(error: FrameError) -> Result<FrameError, NoMemory>
    ensures { IfOk result (λ x. (x ≡ error) × IsFault x) }
{
    match error {
        FrameError::NoMemory => Err(NoMemory),
        _ => Ok(error),
    }
}

/// Where a refusal of the header leaves a message.
fn refused_front(
    sender: Side,
    table: &Table,
    bytes: Vec<u8>,
    error: FrameError,
) -> Result<(Reading, Stage), NoMemory>
    requires { error ≢ f.NoMemory → tree_of sender bytes.items ≡ Err error }
    ensures { IfOk result (λ x. IsAnswer sender table.now.nodes.now bytes.items x.0 x.1) }
{
    match rejected(error) {
        Ok(Some(error)) => Ok((Reading::Refused(error), Stage::Refused(error))),
        Ok(None) => Ok((Reading::More, Stage::Header(bytes))),
        Err(error) => Err(error),
    }
}

/// Where a refusal of the body leaves a message.
fn refused_body(
    sender: Side,
    table: &Table,
    bytes: &[u8],
    front: Front,
    refusal: Refusal,
) -> Result<(Reading, Stage), NoMemory>
    requires front { IsFrontOf sender front bytes.now }
    requires refused { PassRefuses (read_value (shape_at front.place) node_limit (drop front.length bytes.now)) refusal }
    ensures { IfOk result (λ x. IsAnswer sender table.now.nodes.now bytes.now x.0 x.1) }
{
    let error = body_error(front.header, front.length, refusal);
    match fault(error) {
        Ok(error) => Ok((Reading::Refused(error), Stage::Refused(error))),
        Err(error) => Err(error),
    }
}

/// The bytes from an offset on.
fn behind(bytes: &[u8], at: usize) -> &[u8]
    requires { at ≤ length bytes.now }
    ensures { result.now ≡ drop at bytes.now }
{
    let (_, rest) = bytes.split_at(at);
    rest
}

/// Goes on in the body as far as the bytes reach.
fn pass_body(
    alloc: Global,
    sender: Side,
    table: &Table,
    bytes: &[u8],
    front: Front,
    passage: Passage,
) -> Result<(Passage, Passed), Refusal>
    requires profile { IsProfile table.now.nodes.now }
    requires stood { StoodIn sender table.now.nodes.now front passage bytes.now }
    ensures front { IsFrontOf sender front bytes.now }
    ensures passes { IfOk result (λ x. Passes (read_value (shape_at front.place) node_limit (drop front.length bytes.now)) x.1) }
    ensures stands { IfOk result (λ x. StandsIn table.now.nodes.now front x.0 bytes.now) }
    ensures refuses { IfErr result (PassRefuses (read_value (shape_at front.place) node_limit (drop front.length bytes.now))) }
{
    let rest = behind(bytes, front.length);
    passage.go_on(alloc, table, rest)
}

/// Where a body that ends after so many bytes leaves a message.
fn ended(
    sender: Side,
    table: &Table,
    bytes: Vec<u8>,
    front: Front,
    passage: Passage,
    length: usize,
) -> (Reading, Stage)
    requires front { IsFrontOf sender front bytes.items }
    requires ended { Passes (read_value (shape_at front.place) node_limit (drop front.length bytes.items)) (passed.Whole length) }
    requires stands { StandsIn table.now.nodes.now front passage bytes.items }
    ensures { IsAnswer sender table.now.nodes.now bytes.items result.0 result.1 }
{
    let size = bytes.len();
    let end = front.length + length;
    if end != size {
        let error = FrameError::Rest(front.header, end);
        return (Reading::Refused(error), Stage::Refused(error));
    }
    (Reading::Whole, Stage::Body(bytes, front, passage))
}

/// Where a passage of the body leaves a message.
fn passed_body(
    sender: Side,
    table: &Table,
    bytes: Vec<u8>,
    front: Front,
    passage: Passage,
    passed: Passed,
) -> (Reading, Stage)
    requires front { IsFrontOf sender front bytes.items }
    requires passes { Passes (read_value (shape_at front.place) node_limit (drop front.length bytes.items)) passed }
    requires stands { StandsIn table.now.nodes.now front passage bytes.items }
    ensures { IsAnswer sender table.now.nodes.now bytes.items result.0 result.1 }
{
    match passed {
        Passed::More => (Reading::More, Stage::Body(bytes, front, passage)),
        Passed::Whole(length) => ended(sender, table, bytes, front, passage, length),
    }
}

/// Goes on with a message whose header was read.
fn read_on(
    alloc: Global,
    sender: Side,
    table: &Table,
    bytes: Vec<u8>,
    front: Front,
    passage: Passage,
) -> Result<(Reading, Stage), NoMemory>
    requires profile { IsProfile table.now.nodes.now }
    requires stood { StoodIn sender table.now.nodes.now front passage bytes.items }
    ensures { IfOk result (λ x. IsAnswer sender table.now.nodes.now bytes.items x.0 x.1) }
{
    match pass_body(alloc, sender, table, &bytes, front, passage) {
        Ok((passage, passed)) => Ok(passed_body(sender, table, bytes, front, passage, passed)),
        Err(refusal) => refused_body(sender, table, &bytes, front, refusal),
    }
}

/// Begins the body of a message.
fn enter(
    alloc: Global,
    sender: Side,
    table: &Table,
    bytes: Vec<u8>,
    front: Front,
) -> Result<(Reading, Stage), NoMemory>
    requires profile { IsProfile table.now.nodes.now }
    requires front { IsFrontOf sender front bytes.items }
    ensures { IfOk result (λ x. IsAnswer sender table.now.nodes.now bytes.items x.0 x.1) }
{
    match Passage::new(alloc, front.place) {
        Ok(passage) => read_on(alloc, sender, table, bytes, front, passage),
        Err(error) => Err(error),
    }
}

/// Begins a message.
fn begin(
    alloc: Global,
    sender: Side,
    table: &Table,
    bytes: Vec<u8>,
) -> Result<(Reading, Stage), NoMemory>
    requires { IsProfile table.now.nodes.now }
    ensures { IfOk result (λ x. IsAnswer sender table.now.nodes.now bytes.items x.0 x.1) }
{
    match read_front(alloc, &bytes, sender) {
        Ok((header, length, place)) => {
            let front = Front {
                header,
                length,
                place,
            };
            enter(alloc, sender, table, bytes, front)
        }
        Err(error) => refused_front(sender, table, bytes, error),
    }
}

/// The bytes followed by a piece.
fn joined(mut bytes: Vec<u8>, piece: &[u8]) -> Result<Vec<u8>, NoMemory>
    ensures { IfOk result (λ v. v.items ≡ bytes.items ++ piece.now) }
{
    bytes.extend_from_slice(piece)?;
    Ok(bytes)
}

/// Takes a piece while the header is not whole.
fn begin_with(
    alloc: Global,
    sender: Side,
    table: &Table,
    bytes: Vec<u8>,
    piece: &[u8],
) -> Result<(Reading, Stage), NoMemory>
    requires { IsProfile table.now.nodes.now }
    ensures { IfOk result (λ x. IsAnswer sender table.now.nodes.now (bytes.items ++ piece.now) x.0 x.1) }
{
    match joined(bytes, piece) {
        Ok(bytes) => begin(alloc, sender, table, bytes),
        Err(error) => Err(error),
    }
}

/// Takes a piece after the header.
fn read_on_with(
    alloc: Global,
    sender: Side,
    table: &Table,
    bytes: Vec<u8>,
    front: Front,
    passage: Passage,
    piece: &[u8],
) -> Result<(Reading, Stage), NoMemory>
    requires profile { IsProfile table.now.nodes.now }
    requires front { IsFrontOf sender front bytes.items }
    requires stands { StandsIn table.now.nodes.now front passage bytes.items }
    ensures { IfOk result (λ x. IsAnswer sender table.now.nodes.now (bytes.items ++ piece.now) x.0 x.1) }
{
    match joined(bytes, piece) {
        Ok(bytes) => read_on(alloc, sender, table, bytes, front, passage),
        Err(error) => Err(error),
    }
}

/// Takes a piece.
pub(crate) fn take(
    alloc: Global,
    sender: Side,
    table: &Table,
    stage: Stage,
    piece: &[u8],
) -> Result<(Reading, Stage), NoMemory>
    requires profile { IsProfile table.now.nodes.now }
    requires stands { Stands sender table.now.nodes.now stage }
    ensures { Takes sender table.now.nodes.now (heard_at stage) piece.now result }
{
    match stage {
        Stage::Header(bytes) => begin_with(alloc, sender, table, bytes, piece),
        Stage::Body(bytes, front, passage) => {
            read_on_with(alloc, sender, table, bytes, front, passage, piece)
        }
        Stage::Refused(error) => Ok((Reading::Refused(error), Stage::Refused(error))),
        Stage::Lost => Err(NoMemory),
    }
}
