//! Messages with one list or map that can grow, in parts.
ghost use Rattle.std.specs.Prelude.{◌≡◌, ◌∷◌, [], IfOk, List as Items, ℕ, map};
ghost use Rattle.etp_frame.specs.Grouping.{entry_amount, item_amount, groups};
ghost use Rattle.etp_frame.specs.declared.message.Message.{Message};

use crate::grouping::{Elements, groups, named_groups};
use crate::message::Message;
use etp_schema::OnWire;
use etp_values::{List, Named, NoMemory};
use std::alloc::Global;

/// A message without its entries: what each part repeats.
pub(crate) trait WithEntries<T> {
    ghost whole: { Self → Items (Items ℕ × T) → Message };

    /// The message with these entries.
    fn with_entries(&self, alloc: Global, entries: Named<T>) -> Result<Message, NoMemory>
        ensures { IfOk result (λ x. x ≡ whole self.now entries) };
}

/// A message without its elements: what each part repeats.
pub(crate) trait WithElements<T> {
    ghost whole: { Self → Items T → Message };

    /// The message with these elements.
    fn with_elements(&self, alloc: Global, elements: List<T>) -> Result<Message, NoMemory>
        ensures { IfOk result (λ x. x ≡ whole self.now elements) };
}

/// The message with these entries, in parts.
pub(crate) fn parts_of_entries<T: OnWire, W: WithEntries<T>>(
    alloc: Global,
    rest: &W,
    entries: Named<T>,
    limit: u64,
) -> Result<List<Message>, NoMemory>
    ensures { IfOk result (λ l. l ≡ map (W.whole rest.now) (groups (entry_amount T.form) limit entries)) }
{
    let in_groups = named_groups(alloc, entries, limit)?;
    let mut parts = Vec::new(alloc);
    for group in in_groups {
        let part = rest.with_entries(alloc, group)?;
        parts.push(part)?;
    }
    Ok(List::from_vec(parts))
}

/// The message with these elements, in parts.
pub(crate) fn parts_of_elements<T: OnWire, W: WithElements<T>>(
    alloc: Global,
    rest: &W,
    elements: List<T>,
    limit: u64,
) -> Result<List<Message>, NoMemory>
    ensures { IfOk result (λ l. l ≡ map (W.whole rest.now) (groups (item_amount T.form) limit elements)) }
{
    let in_groups = groups::<T, Elements>(alloc, elements.into_vec(), limit)?;
    let mut parts = Vec::new(alloc);
    for group in in_groups {
        let part = rest.with_elements(alloc, group)?;
        parts.push(part)?;
    }
    Ok(List::from_vec(parts))
}

/// A message that is one part.
pub(crate) fn one_part(alloc: Global, message: Message) -> Result<List<Message>, NoMemory>
    ensures { IfOk result (λ l. l ≡ message ∷ []) }
{
    let mut parts = Vec::new(alloc);
    parts.push(message)?;
    Ok(List::from_vec(parts))
}
