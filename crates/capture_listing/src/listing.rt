//! Lines for the frames of a capture.
ghost use Rattle.std.specs.Prelude.{◌≡◌, ◌≤◌, []};
ghost use Rattle.etp_capture.specs.Frames.{capture_limit};
ghost use Rattle.capture_listing.specs.Listing.{show_plan, check_plan, counts_of, with_one, IsSmall};

use capture_run::Form;
use capture_text::{Checked, Counts, check_frame, show_frame, write_counts};
use etp_capture::Frame;
use etp_values::NoMemory;
use std::alloc::Global;

/// Shows a capture.
#[derive(Drop)]
pub struct Show;

impl Form for Show {
    ghost plan = { λ _. show_plan };

    ghost stands = { λ _ fs. Unit {0} };

    ghost fits = { λ _ offset. Unit {0} };

    fn start(&self, _into: &mut Vec<u8>) -> Result<(), NoMemory> {
        Ok(())
    }

    fn take(
        &mut self,
        alloc: Global,
        offset: u64,
        frame: &Frame,
        into: &mut Vec<u8>,
    ) -> Result<bool, NoMemory> {
        let before = into.len();
        match show_frame(alloc, offset, frame, into) {
            Ok(()) => Ok(false),
            Err(error) => {
                into.truncate(before);
                Err(error)
            }
        }
    }

    fn close(&self, _alloc: Global, _offset: u64, _into: &mut Vec<u8>) -> Result<u32, NoMemory> {
        Ok(0)
    }
}

/// Checks a capture, with the counts of the frames so far.
#[derive(Drop)]
pub struct Check {
    counts: Counts,
}

impl Check {
    /// A check before its first frame.
    pub fn new() -> Check
        ensures { result.counts ≡ counts_of [] }
    {
        Check {
            counts: Counts {
                frames: 0,
                messages: 0,
                refused: 0,
            },
        }
    }
}

impl Form for Check {
    ghost plan = { λ _. check_plan };

    ghost stands = { λ check fs. check.counts ≡ counts_of fs };

    ghost fits = { λ check offset. IsSmall check.counts offset };

    fn start(&self, _into: &mut Vec<u8>) -> Result<(), NoMemory> {
        Ok(())
    }

    fn take(
        &mut self,
        alloc: Global,
        offset: u64,
        frame: &Frame,
        into: &mut Vec<u8>,
    ) -> Result<bool, NoMemory> {
        let before = into.len();
        match check_frame(alloc, offset, frame, into) {
            Ok(checked) => {
                count(&mut self.counts, checked);
                Ok(false)
            }
            Err(error) => {
                into.truncate(before);
                Err(error)
            }
        }
    }

    fn close(&self, alloc: Global, _offset: u64, into: &mut Vec<u8>) -> Result<u32, NoMemory> {
        let before = into.len();
        let refused = self.counts.refused as u32;
        match write_counts(alloc, &self.counts, into) {
            Ok(()) => Ok(refused),
            Err(error) => {
                into.truncate(before);
                Err(error)
            }
        }
    }
}

/// Counts one more frame.
fn count(counts: &mut Counts, checked: Checked)
    requires frames { counts.old.frames ≤ capture_limit }
    requires messages { counts.old.messages ≤ capture_limit }
    requires refused { counts.old.refused ≤ capture_limit }
    ensures { counts.new ≡ with_one counts.old checked }
{
    counts.frames += 1;
    match checked {
        Checked::NoMessage => {}
        Checked::Taken => counts.messages += 1,
        Checked::Refused => {
            counts.messages += 1;
            counts.refused += 1;
        }
    }
}
