//! Which calls of an object in memory fail.
ghost use Rattle.std.specs.Prelude.{◌≡◌, ◌≤◌, true, false};
ghost use Rattle.etp_outside.specs.Calls.{after_call, fails_next, new_script};
ghost use Rattle.etp_outside.specs.Faults.{next_count};

use etp_values::List;

/// The numbers of the calls that fail, counted from 1, with the calls made and the faults so far. Both counts stop at `u64::MAX`.
#[derive(Debug, Drop)]
pub struct Script {
    pub fails: List<u64>,
    pub made: u64,
    pub faults: u64,
}

impl Script {
    /// The script of an object before any call.
    pub(crate) fn new(fails: List<u64>) -> Script
        ensures { result ≡ new_script fails }
    {
        Script {
            fails,
            made: 0,
            faults: 0,
        }
    }

    /// Resets the script to its state before any call.
    pub(crate) fn renew(&mut self)
        ensures { self.new ≡ new_script self.old.fails }
    {
        self.made = 0;
        self.faults = 0;
    }

    /// Whether the next call fails.
    pub(crate) fn fails_next(&self) -> bool
        ensures { result ≡ fails_next self.now }
    {
        let number = self.made.saturating_add(1);
        self.fails.as_slice().contains(&number)
    }

    /// Counts a call that did not fail.
    pub(crate) fn passed(&mut self)
        ensures { self.new ≡ after_call self.old false }
    {
        self.made = self.made.saturating_add(1);
    }

    /// Counts a call that failed.
    pub(crate) fn failed(&mut self)
        ensures after { self.new ≡ after_call self.old true }
        ensures kept { self.old.faults ≤ self.new.faults }
    {
        self.made = self.made.saturating_add(1);
        self.fault();
    }

    /// Counts a fault.
    pub(crate) fn fault(&mut self)
        ensures after { self.new ≡ record self.old { faults = next_count self.old.faults } }
        ensures kept { self.old.faults ≤ self.new.faults }
    {
        let _faults = self.faults;
        self.faults = self.faults.saturating_add(1);
    }
}
