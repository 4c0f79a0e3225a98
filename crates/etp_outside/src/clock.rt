//! What tells the time.
ghost use Rattle.std.specs.Prelude.{◌≡◌, ◌++◌, ◌∷◌, [], ℤ, Bool, List};
ghost use Rattle.std.specs.declared.option.Option.{Option};
ghost use Rattle.etp_outside.specs.Told.{Told};
ghost use Rattle.etp_outside.specs.Moments.{BeginsAnew, Tests};

/// A clock. It can cross threads, and neither of its calls allocates.
pub trait Clock: Drop + Send {
    /// The moments that it has returned, if it reveals them to proofs.
    ghost told: { Self → Option (List ℤ) };

    /// Which lists of moments it can return.
    ghost passes: { Self → List ℤ → Bool };

    /// The moment now: microseconds since 1970-01-01 UTC.
    fn now(&mut self) -> i64
        ensures told { Told (told self.old) (told self.new) (λ xs ys. ys ≡ xs ++ result ∷ []) }
        ensures test { passes self.new ≡ passes self.old };

    /// Another clock of the same kind, for a thread of its own.
    fn another(&self) -> Self
        ensures told { BeginsAnew (told self.now) (told result) }
        ensures test { passes result ≡ passes self.now };

    /// The moments that it has returned pass the test; if it reveals none, any list does.
    ghost tested: { (c : Self) → Tests (told c) (passes c) };
}
