//! Shows and checks messages, and keeps count.
use crate::digest::{NO_BYTES, digest};
use capture_text::{Checked, check_frame, show_frame};
use etp_capture::Frame;
use etp_values::NoMemory;
use std::alloc::Global;

/// What came of the messages so far.
#[derive(Drop)]
pub(crate) struct Tally {
    pub(crate) messages: u64,
    /// How many lines were written: one that shows each message, and one more for each that is refused.
    pub(crate) lines: u64,
    pub(crate) taken: u64,
    pub(crate) refused: u64,
    /// The digest of all lines by FNV-1a of 64 bits.
    pub(crate) digest: u64,
}

impl Tally {
    pub(crate) fn new() -> Tally {
        Tally {
            messages: 0,
            lines: 0,
            taken: 0,
            refused: 0,
            digest: NO_BYTES,
        }
    }

    /// Shows and checks the message of a frame, and leaves its lines in `lines`. Frames are 100 bytes apart.
    pub(crate) fn add(
        &mut self,
        alloc: Global,
        frame: &Frame,
        lines: &mut Vec<u8>,
    ) -> Result<(), NoMemory> {
        let offset = self.messages.saturating_mul(100);
        lines.clear();
        show_frame(alloc, offset, frame, lines)?;
        let checked = check_frame(alloc, offset, frame, lines)?;
        self.count(checked);
        self.digest = digest(self.digest, lines.as_slice());
        Ok(())
    }

    fn count(&mut self, checked: Checked) {
        self.messages = self.messages.saturating_add(1);
        self.lines = self.lines.saturating_add(1);
        match checked {
            Checked::Taken => self.taken = self.taken.saturating_add(1),
            Checked::Refused => {
                self.refused = self.refused.saturating_add(1);
                self.lines = self.lines.saturating_add(1);
            }
            Checked::NoMessage => {}
        }
    }
}
