//! What is seen at keys.
ghost use Rattle.std.specs.Prelude.{◌≡◌, IfOk, List as Items};
ghost use Rattle.store_machine.specs.Answers.{seen_after};
ghost use Rattle.store_machine.specs.History.{changes_of};
ghost use Rattle.store_machine.specs.Kept.{Holds};
ghost use Rattle.store_machine.specs.declared.journal.Entry.{Entry};

use etp_values::{List, NoMemory};
use std::alloc::Global;
use tx_stage::{Contents, Looked, Want};

/// What is seen of the keys that are looked at, in order.
pub(crate) fn looked(
    alloc: Global,
    contents: &Contents,
    wants: &List<Want>,
) -> Result<List<Looked>, NoMemory>
    ensures { IfOk result (λ l. (history : Items Entry) → Holds contents.now (changes_of history)
        → l ≡ seen_after history wants.now) }
{
    let seen = contents.look(alloc, wants)?;
    Ok(seen)
}
