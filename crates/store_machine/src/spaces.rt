//! The list of the dataspaces.
ghost use Rattle.std.specs.Prelude.{◌≡◌, ◌++◌, ◌∷◌, [], IfOk, List, OnOk, filter, if◌then◌else◌};
ghost use Rattle.store_machine.specs.Dataspaces.{dataspaces, is_newer};
ghost use Rattle.store_machine.specs.History.{Change};
ghost use Rattle.store_machine.specs.Kept.{Holds};

use etp_values::{Copied, List, NoMemory};
use object_store::SpaceRecord;
use std::alloc::Global;
use tx_stage::Contents;

fn is_newer(newer: Option<i64>, dataspace: &SpaceRecord) -> bool
    ensures { result ≡ is_newer newer dataspace.now }
{
    match newer {
        None => true,
        Some(moment) => dataspace.written > moment,
    }
}

/// Adds a copy of a dataspace to others, if it is newer.
fn push_newer(
    copies: &mut Vec<SpaceRecord>,
    alloc: Global,
    newer: Option<i64>,
    dataspace: &SpaceRecord,
) -> Result<(), NoMemory>
    ensures { OnOk result (copies.new.items
        ≡ (if is_newer newer dataspace.now then copies.old.items ++ dataspace.now ∷ [] else copies.old.items)) }
{
    if !is_newer(newer, dataspace) {
        return Ok(());
    }
    copies.push(dataspace.copy(alloc)?)?;
    Ok(())
}

/// Copies of the newer ones of these dataspaces.
fn copies(
    alloc: Global,
    dataspaces: &[SpaceRecord],
    newer: Option<i64>,
) -> Result<Vec<SpaceRecord>, NoMemory>
    ensures { IfOk result (λ c. c.items ≡ filter (is_newer newer) dataspaces.now) }
{
    let mut copies = Vec::new(alloc);
    for dataspace in dataspaces {
        push_newer(&mut copies, alloc, newer, dataspace)?;
    }
    Ok(copies)
}

/// Copies of the dataspaces, or of those that were written after a moment, in byte order of their paths. Only these are copied
/// and sorted.
pub(crate) fn listed(
    alloc: Global,
    contents: &Contents,
    newer: Option<i64>,
) -> Result<List<SpaceRecord>, NoMemory>
    ensures { IfOk result (λ l. (sofar : List Change) → Holds contents.now sofar
        → l ≡ filter (is_newer newer) (dataspaces sofar)) }
{
    let mut found = copies(alloc, contents.spaces(), newer)?;
    found.sort_by(|a, b| a.path.as_text().cmp(b.path.as_text()))?;
    Ok(List::from_vec(found))
}
