//! Calls of the sessions whose numbers are in the journal.
ghost use Rattle.std.specs.Prelude.{◌≡◌, ◌≤◌, ◌∷◌, [], IfSome, length};
ghost use Rattle.store_machine.specs.Laws.{is_enter};
ghost use Rattle.store_machine.specs.Legal.{IsNext, own};

use etp_values::NoMemory;
use std::alloc::Global;
use store_machine::{Act, Answer, Entry, Store, StoreCall, number_laws};

/// 1 for an entry of a session, and 0 for another's.
fn own_of(entry: &Entry, by: u64) -> u64
    ensures count { result ≡ length (own by (entry.now ∷ [])) }
    ensures small { result ≤ 1 }
{
    if entry.by == by { 1 } else { 0 }
}

/// How many entries are a session's.
fn own_entries(store: &Store, by: u64) -> u64
    ensures { result ≡ length (own by store.now.journal) }
{
    let mut count = 0u64;
    for place in 0..store.entries() {
        count += own_of(store.entry(place), by);
    }
    count
}

fn is_enter(act: &Act) -> bool
    ensures { result ≡ is_enter act.now }
{
    matches!(act, Act::Enter)
}

/// How many entries a session has, if the number is a session's.
fn next_of(store: &Store, by: u64) -> Option<u64>
    ensures { IfSome result (IsNext store.now.journal by) }
{
    // For the proof only: what the test for an Enter says.
    number_laws();
    if by >= store.entries() {
        return None;
    }
    if !is_enter(&store.entry(by).act) {
        return None;
    }
    Some(own_entries(store, by))
}

/// Has the store answer a session's call; `None` if the number is no session's.
pub(crate) fn ask(
    alloc: Global,
    store: &mut Store,
    by: u64,
    at: i64,
    call: StoreCall,
) -> Result<Option<Answer>, NoMemory> {
    let Some(nth) = next_of(store, by) else {
        drop(call);
        return Ok(None);
    };
    Ok(Some(store.ask(alloc, by, nth, at, call)?))
}
