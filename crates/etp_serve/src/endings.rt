//! Which of the sessions' threads have ended.
use std::sync::Wait;
use std::sync::atomic::{AtomicU64, Ordering};
use std::thread::Parker;

/// The threads that have ended since the accepting thread last asked, by a bit for each. It waits here for another one.
#[derive(Drop)]
pub(crate) struct Endings {
    bits: AtomicU64,
    parker: Parker,
}

impl Endings {
    /// No thread has ended.
    pub(crate) fn new() -> Endings {
        Endings {
            bits: AtomicU64::new(0),
            parker: Parker::new(),
        }
    }

    /// Notes that the thread with a bit has ended, and wakes the thread that waits.
    pub(crate) fn note(&self, bit: u64) {
        self.bits.fetch_or(bit, Ordering::SeqCst);
        self.parker.unpark();
    }

    /// The bits of the threads that have ended since this was last asked.
    pub(crate) fn take(&self) -> u64 {
        self.bits.swap(0, Ordering::SeqCst)
    }

    /// Clears a bit, which a further thread gets.
    pub(crate) fn forget(&self, bit: u64) {
        self.bits.fetch_and(!bit, Ordering::SeqCst);
    }

    /// Waits until a thread has ended since the last wait.
    pub(crate) fn wait<R: Wait>(&self, rt: &R) {
        self.parker.park(rt);
    }
}
