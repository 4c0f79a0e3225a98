//! What is under the keys of a call, and what is found for one key.
ghost use Rattle.std.specs.Prelude.{◌≡◌, IfOk, OnOk, ◌++◌, slice_get};
ghost use Rattle.std.specs.List.{flat_map};
ghost use Rattle.std.specs.Map.{values_of};

use etp_values::{List, Named, NoMemory};
use std::alloc::Global;
use std::collections::VecDeque;

/// What is under the keys, in their order.
pub fn sent_values<T: Drop>(alloc: Global, items: Named<T>) -> Result<List<T>, NoMemory>
    ensures { IfOk result (λ l. l ≡ values_of items) }
{
    let mut out = Vec::new(alloc);
    for pair in items.into_vec() {
        let (_key, value) = pair;
        out.push(value)?;
    }
    Ok(List::from_vec(out))
}

/// What is in the lists under the keys, in their order.
pub fn joined_values<T: Drop>(alloc: Global, items: Named<List<T>>) -> Result<List<T>, NoMemory>
    ensures { IfOk result (λ l. l ≡ flat_map (λ x. x.1) items) }
{
    let mut out = Vec::new(alloc);
    for pair in items.into_vec() {
        let (_key, values) = pair;
        push_all(&mut out, values)?;
    }
    Ok(List::from_vec(out))
}

/// Adds values at the end.
fn push_all<T: Drop>(out: &mut Vec<T>, values: List<T>) -> Result<(), NoMemory>
    ensures { OnOk result (out.new.items ≡ out.old.items ++ values) }
{
    for value in values.into_vec() {
        out.push(value)?;
    }
    Ok(())
}

/// The first of what was found for a key.
pub fn first_found<T: Drop>(found: List<T>) -> Option<T>
    ensures { result ≡ slice_get found 0 }
{
    let mut found = VecDeque::from(found.into_vec());
    found.pop_front()
}
