//! A clock whose moments are one step apart.
ghost use Rattle.std.specs.Prelude.{◌≡◌, ◌++◌, ◌∷◌, [], suc, Some};
ghost use Rattle.std.specs.Int.{cast_unsigned, w64};
ghost use Rattle.etp_outside.specs.Steps.{is_stepping, moment_at, moments};
ghost use Rattle.etp_outside.specs.StepLaws.{told_passes};

use crate::clock::Clock;
use crate::tally::Tally;
use std::marker::Model;

/// A clock that returns a start, and then each time the previous moment plus a step, modulo 2^64. Proofs know each of its moments.
#[derive(Drop)]
pub struct StepClock {
    start: u64,
    step: u64,
    next: u64,
    count: Tally,
}

impl Model for StepClock {
    ghost use Rattle.std.specs.Prelude.{◌≡◌};
    ghost use Rattle.etp_outside.specs.Steps.{Steps, bits_at};

    ghost Value = { Steps };

    ghost view = { λ c. record { start = c.start; step = c.step; count = c.count } };

    ghost invariant = { λ c. c.next ≡ bits_at c.start c.step c.count };
}

impl StepClock {
    /// A clock that has not been read yet.
    pub fn new(start: i64, step: i64) -> StepClock
        ensures { result ≡ record { start = cast_unsigned w64 start; step = cast_unsigned w64 step; count = 0 } }
    {
        StepClock::from_bits(start.cast_unsigned(), step.cast_unsigned())
    }

    fn from_bits(start: u64, step: u64) -> StepClock
        ensures { result ≡ record { start = start; step = step; count = 0 } }
    {
        StepClock {
            start,
            step,
            next: start,
            count: Tally::new(),
        }
    }
}

impl Clock for StepClock {
    ghost told = { λ c. Some (moments c.start c.step c.count) };

    ghost passes = { λ c. is_stepping c.start c.step };

    ghost tested = { told_passes };

    fn now(&mut self) -> i64
        ensures moment { result ≡ moment_at self.old.start self.old.step self.old.count }
        ensures after { self.new ≡ record self.old { count = suc self.old.count } }
        ensures told { moments self.new.start self.new.step self.new.count
            ≡ moments self.old.start self.old.step self.old.count ++ result ∷ [] }
        ensures test { is_stepping self.new.start self.new.step ≡ is_stepping self.old.start self.old.step }
    {
        let moment = self.next.cast_signed();
        self.next = self.next.wrapping_add(self.step);
        self.count = self.count.more();
        moment
    }

    fn another(&self) -> StepClock
        ensures after { result ≡ record self.now { count = 0 } }
        ensures told { Some (moments result.start result.step result.count) ≡ Some [] }
        ensures test { is_stepping result.start result.step ≡ is_stepping self.now.start self.now.step }
    {
        StepClock::from_bits(self.start, self.step)
    }
}
