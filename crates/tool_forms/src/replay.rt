//! The form that replays a capture: it plays each frame, and writes the frames that answer it as a capture.
ghost use Rattle.std.specs.Prelude.{◌≡◌, ◌++◌, IfOk, OnOk, OnErr};
ghost use Rattle.std.specs.Io.{StartsWith};
ghost use Rattle.etp_capture.specs.Capture.{frames_bytes};
ghost use Rattle.tool_forms.specs.Play.{first_world};
ghost use Rattle.tool_forms.specs.Replay.{replay_plan, Leads};
ghost use Rattle.tool_forms.specs.Sound.{IsSound};

use crate::player::Player;
use capture_run::Form;
use etp_capture::{Frame, HEAD_LEN, push_frame, push_magic};
use etp_values::NoMemory;
use server_config::Config;
use std::alloc::Global;

/// A replay: the sessions of the capture over one store.
#[derive(Drop)]
pub struct Replay {
    player: Player,
}

impl Replay {
    /// A replay before its first frame.
    pub fn new(alloc: Global, config: Config) -> Result<Replay, NoMemory>
        ensures world { IfOk result (λ r. r.player ≡ first_world config) }
        ensures sound { IfOk result (λ r. IsSound r.player) }
    {
        Ok(Replay {
            player: Player::new(alloc, config)?,
        })
    }
}

impl Form for Replay {
    ghost plan = { λ r. replay_plan r.player.config };

    ghost stands = { λ r fs. Leads fs r.player };

    ghost fits = { λ r offset. IsSound r.player };

    fn start(&self, into: &mut Vec<u8>) -> Result<(), NoMemory> {
        push_magic(into)
    }

    fn take(
        &mut self,
        alloc: Global,
        _offset: u64,
        frame: &Frame,
        into: &mut Vec<u8>,
    ) -> Result<bool, NoMemory> {
        let mut answers: Vec<Frame> = Vec::new(alloc);
        let refused = self.player.play(alloc, frame, &mut answers)?;
        push_all(into, answers)?;
        Ok(refused)
    }

    fn close(&self, _alloc: Global, _offset: u64, _into: &mut Vec<u8>) -> Result<u32, NoMemory> {
        Ok(0)
    }
}

/// How much room frames take.
fn room_of(frames: &[Frame]) -> usize {
    let mut room = 0usize;
    for frame in frames {
        room = room
            .saturating_add(HEAD_LEN)
            .saturating_add(frame.bytes.as_bytes().len());
    }
    room
}

/// Appends the bytes of frames, or nothing if memory runs out.
fn push_all(into: &mut Vec<u8>, frames: Vec<Frame>) -> Result<(), NoMemory>
    ensures ok { OnOk result (into.new.items ≡ into.old.items ++ frames_bytes frames.items) }
    ensures err { OnErr result (into.new.items ≡ into.old.items) }
{
    let start = into.len();
    into.reserve(room_of(frames.as_slice()))?;
    match push_frames(into, frames) {
        Ok(()) => Ok(()),
        Err(error) => {
            into.truncate(start);
            Err(error)
        }
    }
}

/// Appends the bytes of frames, and drops each after its own. If memory runs out, some of them may have been appended.
#[tactic(auto, using(std::proofs::Transfers::starts_with_trans))]
fn push_frames(into: &mut Vec<u8>, frames: Vec<Frame>) -> Result<(), NoMemory>
    ensures ok { OnOk result (into.new.items ≡ into.old.items ++ frames_bytes frames.items) }
    ensures err { OnErr result (StartsWith into.new.items into.old.items) }
{
    for frame in frames {
        push_frame(into, &frame)?;
    }
    Ok(())
}
