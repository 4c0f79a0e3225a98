//! What a shared book is.
ghost use Rattle.std.specs.Prelude.{◌≡◌, ℕ, Bool, List, length};

/// A book is its journal of entries and a part that never changes.
pub trait Book: Drop {
    type Entry;

    type Fixed;

    /// The entries, in order.
    ghost journal: { Self → List Self.Entry };

    /// What every book that comes out shares with the one that was put in first.
    ghost fixed: { Self → Self.Fixed };

    /// Whose entry it is: the place of the entry by which its writer entered.
    ghost by: { Self.Entry → ℕ };

    /// Whether a writer enters by it.
    ghost enters: { Self.Entry → Bool };

    /// How many entries the journal has.
    fn len(&self) -> u64
        ensures { result ≡ length (journal self.now) };
}
