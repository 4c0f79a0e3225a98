//! What holds for every file.
ghost use Rattle.std.specs.Prelude.{◌≡◌, ℕ, List, length};
ghost use Rattle.journal_file.specs.Layout.{OpensTo};
ghost use Rattle.journal_file.specs.Opening.{IsOutside, IsRefusal};
ghost use Rattle.journal_file.specs.declared.error.JournalError.{JournalError};

/// A file opens to one list of entries; a file that opens is refused only for a fault, or if memory runs out.
pub fn one_reading()
    ensures once { (id : List ℕ) (ss more : List (List ℕ)) (f : List ℕ) → OpensTo id ss f → OpensTo id more f → ss ≡ more }
    ensures not_refused { (id : List ℕ) → length id ≡ 16 → (ss : List (List ℕ)) (f : List ℕ) → OpensTo id ss f
        → (e : JournalError) → IsRefusal id f e → IsOutside e }
{}
