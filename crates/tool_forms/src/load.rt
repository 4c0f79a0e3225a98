//! The forms that make a load: its capture, and a summary of what playing it results in.
ghost use Rattle.std.specs.Prelude.{◌≡◌, ◌≢◌, ◌+◌, ◌++◌, ◌∷◌, [], true, not, IfOk, OnOk, List, ℕ};
ghost use Rattle.std.specs.declared.option.Option.{Option};
ghost use Rattle.etp_capture.specs.Capture.{frames_bytes};
ghost use Rattle.etp_capture.specs.Frames.{magic};
ghost use Rattle.etp_outside.specs.Faults.{Rose};
ghost use Rattle.etp_outside.specs.declared.status.Status.TheVariants as status;
ghost use Rattle.generator.specs.Generator.{frames};
ghost use Rattle.load_forms.specs.Tally.{nothing_sent, HasRoom};
ghost use Rattle.tool_forms.specs.Loads.{IsAt, CameTo};
ghost use Rattle.tool_forms.specs.Play.{Played, happens, play_from};
ghost use Rattle.tool_forms.specs.Sound.{IsSound};
ghost use Rattle.tool_forms.specs.Summary.{summary};
ghost use Rattle.tool_forms.specs.Top.{Tells, status_of};
ghost use Rattle.capture_run.specs.Running.{between};

use crate::player::Player;
use etp_capture::Frame;
use etp_outside::{Sink, Status};
use etp_values::NoMemory;
use gathered_text::{Wrote, write_text};
use generator::{Generator, generator_config};
use load_forms::{Tally, count_answers, push_summary, write_load};
use std::alloc::Global;

/// Writes the capture of a load of this many messages.
pub(crate) fn capture<W: Sink>(alloc: Global, size: u32, out: &mut W) -> Status
    ensures told { (input : Option (List ℕ)) → Tells (magic ++ frames_bytes (frames size)) result (between input input) (between (W.held out.old) (W.held out.new)) }
    ensures form { result ≢ status.Usage }
    ensures read_cause { result ≢ status.ReadFault }
    ensures write_cause { result ≡ status.WriteFault → Rose (W.faults out.old) (W.faults out.new) }
{
    status_of(write_load(alloc, size, out))
}

/// Plays a load of this many messages, and writes what came of it.
pub(crate) fn generate<W: Sink>(alloc: Global, size: u32, out: &mut W) -> Status
    ensures told { (input : Option (List ℕ)) → Tells (summary size) result (between input input) (between (W.held out.old) (W.held out.new)) }
    ensures form { result ≢ status.Usage }
    ensures read_cause { result ≢ status.ReadFault }
    ensures write_cause { result ≡ status.WriteFault → Rose (W.faults out.old) (W.faults out.new) }
{
    match summary(alloc, size) {
        Ok(text) => status_of(write_text(text.as_slice(), out)),
        Err(_) => Status::NoMemory,
    }
}

/// The status of what came of a text.
fn status_of(wrote: Wrote) -> Status
    ensures { result ≡ status_of wrote }
{
    match wrote {
        Wrote::Whole => Status::Done,
        Wrote::WriteFault => Status::WriteFault,
        Wrote::NoMemory => Status::NoMemory,
    }
}

/// The five lines of a load of this many messages.
fn summary(alloc: Global, size: u32) -> Result<Vec<u8>, NoMemory>
    ensures { IfOk result (λ text. text.items ≡ summary size) }
{
    let config = generator_config(alloc)?;
    let mut player = Player::new(alloc, config)?;
    let tally = play_load(alloc, size, &mut player)?;
    let mut text: Vec<u8> = Vec::new(alloc);
    push_summary(alloc, size, player.entries(), tally, &mut text)?;
    Ok(text)
}

/// Plays the frames of a load, until one is refused, and counts the messages that answer them.
fn play_load(alloc: Global, size: u32, player: &mut Player) -> Result<Tally, NoMemory>
    requires { IsSound player.old }
    ensures { IfOk result (λ t. (p : Played) → IsAt p true player.old nothing_sent → CameTo (play_from p (frames size)) player.new t) }
{
    let mut generator = Generator::new(size);
    let mut counted = Tally {
        sent: 0,
        changes: 0,
    };
    while let Some(two) = generator.next(alloc)? {
        let played = play_two(alloc, player, two, counted)?;
        if played.refused {
            return Ok(played.tally);
        }
        counted = played.tally;
    }
    Ok(counted)
}

/// What playing frames resulted in: whether one was refused, and the messages that were counted by then.
#[derive(Clone, Copy)]
pub struct Counted {
    pub refused: bool,
    pub tally: Tally,
}

/// Plays two frames, and counts the messages that answer them.
fn play_two(
    alloc: Global,
    player: &mut Player,
    two: (Frame, Frame),
    counted: Tally,
) -> Result<Counted, NoMemory>
    requires sound { IsSound player.old }
    requires room { HasRoom 2 counted }
    ensures counts { IfOk result (λ c. (p : Played) → IsAt p true player.old counted → IsAt (play_from p (two.0 ∷ two.1 ∷ [])) (not c.refused) player.new c.tally) }
    ensures room { IfOk result (λ c. (n : ℕ) → HasRoom (n + 1 + 1) counted → HasRoom n c.tally) }
    ensures sound { OnOk result (IsSound player.new) }
{
    let played = play_one(alloc, player, &two.0, counted)?;
    if played.refused {
        return Ok(played);
    }
    play_one(alloc, player, &two.1, played.tally)
}

/// Plays a frame, and counts the messages that answer it.
fn play_one(
    alloc: Global,
    player: &mut Player,
    frame: &Frame,
    counted: Tally,
) -> Result<Counted, NoMemory>
    requires sound { IsSound player.old }
    requires room { HasRoom 1 counted }
    ensures counts { IfOk result (λ c. (p : Played) → IsAt p true player.old counted → IsAt (happens p frame.now) (not c.refused) player.new c.tally) }
    ensures room { IfOk result (λ c. (n : ℕ) → HasRoom (n + 1) counted → HasRoom n c.tally) }
    ensures sound { OnOk result (IsSound player.new) }
{
    let mut answers: Vec<Frame> = Vec::new(alloc);
    let refused = player.play(alloc, frame, &mut answers)?;
    let tally = count_answers(alloc, counted, answers.as_slice())?;
    Ok(Counted { refused, tally })
}
