//! What a form of the tool does with the frames of a capture, and why a run over them stops.
ghost use Rattle.std.specs.Prelude.{◌≡◌, ◌≢◌, ◌≤◌, ◌+◌, ◌++◌, [], List, ℕ, length, IfOk, OnOk, OnErr};
ghost use Rattle.etp_capture.specs.Capture.{end_at};
ghost use Rattle.etp_capture.specs.Frames.{capture_limit};
ghost use Rattle.etp_capture.specs.declared.frame.Frame.{Frame};
ghost use Rattle.etp_outside.specs.declared.status.Status.TheVariants.{Usage};
ghost use Rattle.capture_run.specs.Form.{Plan, Takes, Closes};
ghost use Rattle.capture_run.specs.Running.{stop_for, status_of};

use etp_capture::{CaptureError, Frame};
use etp_outside::Status;
use etp_values::NoMemory;
use std::alloc::Global;

/// Why a run over a capture stopped.
#[derive(Clone, Copy, Debug, PartialEq, Eq)]
pub enum Stop {
    /// The capture was read to its end, and this many of its messages were refused.
    End(u32),
    /// What is at this offset of the input is neither a capture's beginning nor a frame.
    Fault(u64),
    /// The form refuses the frame at this offset.
    Refused(u64),
    /// The input has more bytes than a capture may have.
    Limit,
    /// The input could not be read.
    ReadFault,
    /// The output could not be written.
    WriteFault,
    /// Out of memory.
    NoMemory,
}

/// A form of the tool, with the state that the frames so far have left.
pub trait Form: Drop {
    /// What the form promises about whole lists of frames.
    ghost plan: { Self → Plan };

    /// That the state is the one that these frames leave, each of them taken.
    ghost stands: { Self → List Frame → Type 0 };

    /// What holds for the state before an offset.
    ghost fits: { Self → ℕ → Type 0 };

    /// Appends what is written before the first frame.
    fn start(&self, into: &mut Vec<u8>) -> Result<(), NoMemory>
        ensures { OnOk result (into.new.items ≡ into.old.items ++ (plan self.now).written []) };

    /// Takes the frame at an offset and appends what is written for it, or refuses it. Returns whether it was refused. After `NoMemory` the
    /// state is unspecified.
    fn take(
        &mut self,
        alloc: Global,
        offset: u64,
        frame: &Frame,
        into: &mut Vec<u8>,
    ) -> Result<bool, NoMemory>
        requires fits { fits self.old offset }
        requires within { offset ≤ capture_limit }
        ensures plan { OnOk result (plan self.new ≡ plan self.old) }
        ensures fits { OnOk result (fits self.new (offset + 17 + length frame.now.bytes)) }
        ensures taken { IfOk result (λ refused. (fs : List Frame) → stands self.old fs → end_at 8 fs ≡ offset → Takes refused (plan self.old) fs frame.now (stands self.new) into.old.items into.new.items) }
        ensures err { OnErr result (into.new.items ≡ into.old.items) };

    /// Appends what follows at the capture's end, and returns how many of its messages were refused.
    fn close(&self, alloc: Global, offset: u64, into: &mut Vec<u8>) -> Result<u32, NoMemory>
        requires fits { fits self.now offset }
        requires within { offset ≤ capture_limit }
        ensures closed { IfOk result (λ refused. (fs : List Frame) → stands self.now fs → Closes (plan self.now) fs refused into.old.items into.new.items) }
        ensures err { OnErr result (into.new.items ≡ into.old.items) };
}

/// The stop that an error of the capture's reader makes.
pub fn stop_for(error: CaptureError) -> Stop
    ensures { result ≡ stop_for error }
{
    match error {
        CaptureError::Magic => Stop::Fault(0),
        CaptureError::Kind(offset) | CaptureError::Length(offset) | CaptureError::Cut(offset) => {
            Stop::Fault(offset)
        }
        CaptureError::Limit => Stop::Limit,
        CaptureError::ReadFault => Stop::ReadFault,
        CaptureError::NoMemory => Stop::NoMemory,
    }
}

/// The status of a stop.
pub fn status_of(stop: Stop) -> Status
    ensures status { result ≡ status_of stop }
    ensures form { result ≢ Usage }
{
    match stop {
        Stop::End(0) => Status::Done,
        Stop::End(refused) => Status::Refused(i64::from(refused)),
        Stop::Fault(offset) | Stop::Refused(offset) => Status::Capture(offset),
        Stop::Limit => Status::Limit,
        Stop::ReadFault => Status::ReadFault,
        Stop::WriteFault => Status::WriteFault,
        Stop::NoMemory => Status::NoMemory,
    }
}
