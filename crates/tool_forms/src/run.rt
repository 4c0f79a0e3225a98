//! The top call.
ghost use Rattle.std.specs.Prelude.{◌≡◌, ◌≢◌, ◌⊎◌, None, Some, Err, map, string_bytes};
ghost use Rattle.etp_outside.specs.Faults.{Rose};
ghost use Rattle.etp_outside.specs.declared.status.Status.TheVariants.{Usage, ReadFault, WriteFault, NoMemory};
ghost use Rattle.tool_forms.specs.Words.{command_in};
ghost use Rattle.tool_forms.specs.Commands.{as_command};
ghost use Rattle.capture_run.specs.Running.{between};
ghost use Rattle.tool_forms.specs.Top.{Answers, Fulfils, ReplaysWith};

use crate::command::{Command, command_of};
use crate::load::{capture, generate};
use crate::replay::Replay;
use capture_listing::{Check, Show};
use capture_run::run_form;
use command_words::words_of;
use config_file::read_config;
use etp_outside::{Host, Sink, Source, Status};
use std::alloc::Global;

/// Does what the words say, and returns how that ended. The forms are:
///
/// - `replay CONFIG`: the configuration of that name is read, and then the input as a capture; what answers it is written to the output;
/// - `show`: a line for each frame of the input is written to the output;
/// - `check`: a line for each message of the input that is refused is written to the output, and at the end one with the counts;
/// - `capture N`: the capture of a load of N messages is written to the output;
/// - `generate N`: that load is played, and how many messages, sessions, entries and answers there were is written to the output.
pub fn run_tool<H: Host, R: Source, W: Sink>(
    alloc: Global,
    words: &[String],
    host: &mut H,
    input: &mut R,
    out: &mut W,
) -> Status
    ensures usage { result ≡ Usage → command_in (map string_bytes words.now) ≡ None }
    ensures no_form { command_in (map string_bytes words.now) ≡ None → result ≢ NoMemory → result ≡ Usage }
    ensures answers { Answers result (command_in (map string_bytes words.now)) (H.content host.old) (between (R.left input.old) (R.left input.new)) (between (W.held out.old) (W.held out.new)) }
    ensures read_cause { result ≡ ReadFault → Rose (H.faults host.old) (H.faults host.new) ⊎ Rose (R.faults input.old) (R.faults input.new) }
    ensures write_cause { result ≡ WriteFault → Rose (W.faults out.old) (W.faults out.new) }
{
    let plain = match words_of(alloc, words) {
        Ok(Some(plain)) => plain,
        Ok(None) => return Status::Usage,
        Err(_) => return Status::NoMemory,
    };
    match command_of(plain.as_slice()) {
        Some(command) => run(alloc, command, host, input, out),
        None => Status::Usage,
    }
}

/// Does what a command says.
fn run<H: Host, R: Source, W: Sink>(
    alloc: Global,
    command: Command,
    host: &mut H,
    input: &mut R,
    out: &mut W,
) -> Status
    ensures form { result ≢ Usage }
    ensures fulfils { Fulfils result (as_command command.entry) (H.content host.old) (between (R.left input.old) (R.left input.new)) (between (W.held out.old) (W.held out.new)) }
    ensures read_cause { result ≡ ReadFault → Rose (H.faults host.old) (H.faults host.new) ⊎ Rose (R.faults input.old) (R.faults input.new) }
    ensures write_cause { result ≡ WriteFault → Rose (W.faults out.old) (W.faults out.new) }
{
    match command {
        Command::Replay(name) => replay_with(alloc, name, host, input, out),
        Command::Show => run_form(alloc, Show, input, out),
        Command::Check => run_form(alloc, Check::new(), input, out),
        Command::Capture(size) => capture(alloc, size, out),
        Command::Generate(size) => generate(alloc, size, out),
    }
}

/// Replays the input with the configuration of a name.
fn replay_with<H: Host, R: Source, W: Sink>(
    alloc: Global,
    name: &str,
    host: &mut H,
    input: &mut R,
    out: &mut W,
) -> Status
    ensures form { result ≢ Usage }
    ensures replays { ReplaysWith result (H.content host.old name.now) (between (R.left input.old) (R.left input.new)) (between (W.held out.old) (W.held out.new)) }
    ensures read_cause { result ≡ ReadFault → Rose (H.faults host.old) (H.faults host.new) ⊎ Rose (R.faults input.old) (R.faults input.new) }
    ensures write_cause { result ≡ WriteFault → Rose (W.faults out.old) (W.faults out.new) }
{
    let config = match read_config(alloc, host, name) {
        Ok(config) => config,
        Err(status) => return status,
    };
    match Replay::new(alloc, config) {
        Ok(replay) => run_form(alloc, replay, input, out),
        Err(_) => Status::NoMemory,
    }
}
