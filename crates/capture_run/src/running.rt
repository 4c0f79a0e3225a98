//! Runs a form over the frames of a capture: reads them one after another, and writes what the form makes of them.
ghost use Rattle.std.specs.Prelude.{◌≡◌, ◌≢◌, ◌≤◌, ◌+◌, ◌⊎◌, [], List, ℕ, Option, None, Some, true, IfSome, IfNone};
ghost use Rattle.etp_outside.specs.Faults.{Rose};
ghost use Rattle.etp_capture.specs.Frames.{capture_limit};
ghost use Rattle.etp_outside.specs.declared.status.Status.TheVariants as status;
ghost use Rattle.capture_run.specs.Running.{between, Runs, Ran, Going, Halts, WritesGathered, Finishes};
ghost use Rattle.capture_run.specs.declared.form.Stop.TheVariants.{ReadFault, WriteFault};

use crate::form::{Form, Stop, status_of, stop_for};
use etp_capture::CaptureReader;
use etp_outside::{Sink, Source, Status, Written, write_all};
use std::alloc::Global;

/// The number of bytes that are gathered before they are written.
const GATHERED: usize = 65_536;

/// Runs a form over the input, and returns the status of its stop.
pub fn run_form<F: Form, R: Source, W: Sink>(
    alloc: Global,
    form: F,
    input: &mut R,
    out: &mut W,
) -> Status
    requires stands { F.stands form [] }
    requires fits { F.fits form 8 }
    requires accepts { (F.plan form).accepts [] ≡ true }
    ensures ran { Ran (F.plan form) result (between (R.left input.old) (R.left input.new)) (between (W.held out.old) (W.held out.new)) }
    ensures form { result ≢ status.Usage }
    ensures read_cause { result ≡ status.ReadFault → Rose (R.faults input.old) (R.faults input.new) }
    ensures write_cause { result ≡ status.WriteFault → Rose (W.faults out.old) (W.faults out.new) }
{
    let stop = run_frames(alloc, form, input, out);
    status_of(stop)
}

/// Reads the beginning and the frames of the input, until something stops that.
fn run_frames<F: Form, R: Source, W: Sink>(
    alloc: Global,
    form: F,
    input: &mut R,
    out: &mut W,
) -> Stop
    requires stands { F.stands form [] }
    requires fits { F.fits form 8 }
    requires accepts { (F.plan form).accepts [] ≡ true }
    ensures runs { Runs result (F.plan form) (between (R.left input.old) (R.left input.new)) (between (W.held out.old) (W.held out.new)) }
    ensures read_cause { result ≡ ReadFault → Rose (R.faults input.old) (R.faults input.new) }
    ensures write_cause { result ≡ WriteFault → Rose (W.faults out.old) (W.faults out.new) }
{
    let mut form = form;
    let mut gathered = Vec::new(alloc);
    match form.start(&mut gathered) {
        Ok(()) => {}
        Err(_) => return Stop::NoMemory,
    }
    let mut reader = CaptureReader::new();
    if let Err(error) = reader.begin(input) {
        return stop_for(error);
    }
    match write_now(&mut gathered, out) {
        None => {}
        Some(stop) => return stop,
    }
    loop {
        if let Some(stop) = run_frame(alloc, &mut form, &mut reader, &mut gathered, input, out) {
            return finish(stop, gathered.as_slice(), out);
        }
    }
}

/// Reads a frame and passes it to the form. `None` if the run continues.
fn run_frame<F: Form, R: Source, W: Sink>(
    alloc: Global,
    form: &mut F,
    reader: &mut CaptureReader,
    gathered: &mut Vec<u8>,
    input: &mut R,
    out: &mut W,
) -> Option<Stop>
    requires fresh { reader.old.failed ≡ None }
    requires begun { 8 ≤ reader.old.at }
    requires fits { F.fits form.old reader.old.at }
    ensures fresh { IfNone result (reader.new.failed ≡ None) }
    ensures further { IfNone result (reader.old.at + 17 ≤ reader.new.at) }
    ensures within { reader.new.at ≤ capture_limit }
    ensures plan { IfNone result (F.plan form.new ≡ F.plan form.old) }
    ensures fits { IfNone result (F.fits form.new reader.new.at) }
    ensures goes { IfNone result ((left held : Option (List ℕ)) → Going (F.plan form.old) (F.stands form.old) reader.old.at gathered.old.items (between left (R.left input.old)) (between held (W.held out.old)) → Going (F.plan form.old) (F.stands form.new) reader.new.at gathered.new.items (between left (R.left input.new)) (between held (W.held out.new))) }
    ensures halts { IfSome result (λ stop. (left held : Option (List ℕ)) → Going (F.plan form.old) (F.stands form.old) reader.old.at gathered.old.items (between left (R.left input.old)) (between held (W.held out.old)) → Halts stop (F.plan form.old) gathered.new.items (between left (R.left input.new)) (between held (W.held out.new))) }
    ensures read_kept { R.faults input.old ≤ R.faults input.new }
    ensures write_kept { W.faults out.old ≤ W.faults out.new }
    ensures read_cause { result ≡ Some ReadFault → Rose (R.faults input.old) (R.faults input.new) }
    ensures write_cause { result ≡ Some WriteFault → Rose (W.faults out.old) (W.faults out.new) }
{
    let offset = reader.at();
    let frame = match reader.next(alloc, input) {
        Ok(Some(frame)) => frame,
        Ok(None) => {
            return match form.close(alloc, offset, gathered) {
                Ok(refused) => Some(Stop::End(refused)),
                Err(_) => Some(Stop::NoMemory),
            };
        }
        Err(error) => return Some(stop_for(error)),
    };
    match form.take(alloc, offset, &frame, gathered) {
        Ok(false) => write_gathered(gathered, out),
        Ok(true) => Some(Stop::Refused(offset)),
        Err(_) => Some(Stop::NoMemory),
    }
}

/// Writes what was gathered, if there is enough for a write.
fn write_gathered<W: Sink>(gathered: &mut Vec<u8>, out: &mut W) -> Option<Stop>
    ensures bytes { WritesGathered result gathered.old.items gathered.new.items (W.held out.old) (W.held out.new) }
    ensures kept { W.faults out.old ≤ W.faults out.new }
    ensures cause { result ≡ Some WriteFault → Rose (W.faults out.old) (W.faults out.new) }
{
    if gathered.len() < GATHERED {
        return None;
    }
    write_now(gathered, out)
}

/// Writes all that was gathered.
fn write_now<W: Sink>(gathered: &mut Vec<u8>, out: &mut W) -> Option<Stop>
    ensures bytes { WritesGathered result gathered.old.items gathered.new.items (W.held out.old) (W.held out.new) }
    ensures kept { W.faults out.old ≤ W.faults out.new }
    ensures cause { result ≡ Some WriteFault → Rose (W.faults out.old) (W.faults out.new) }
    ensures fault { IfSome result (λ stop. stop ≡ WriteFault) }
{
    match write_all(out, gathered.as_slice()) {
        Written::Done => {
            gathered.clear();
            None
        }
        Written::Failed => Some(Stop::WriteFault),
    }
}

/// Writes what is still to be written before a stop is returned.
fn finish<W: Sink>(stop: Stop, rest: &[u8], out: &mut W) -> Stop
    ensures bytes { Finishes stop result rest.now (W.held out.old) (W.held out.new) }
    ensures kept { W.faults out.old ≤ W.faults out.new }
    ensures read_cause { result ≡ ReadFault → stop ≡ ReadFault }
    ensures write_cause { result ≡ WriteFault → (stop ≡ WriteFault) ⊎ Rose (W.faults out.old) (W.faults out.new) }
{
    if stop == Stop::WriteFault {
        return stop;
    }
    match write_all(out, rest) {
        Written::Done => stop,
        Written::Failed => Stop::WriteFault,
    }
}
