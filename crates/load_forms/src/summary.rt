//! The lines of a summary.
ghost use Rattle.std.specs.Prelude.{◌≡◌, ◌++◌, OnOk};
ghost use Rattle.load_forms.specs.Summary.{summary_lines, first_lines, last_lines};

use crate::tally::Tally;
use etp_values::NoMemory;
use std::alloc::Global;

/// Appends how many messages a load has, how many sessions and entries there are, and how many messages answer it.
pub fn push_summary(
    alloc: Global,
    messages: u32,
    entries: u64,
    tally: Tally,
    into: &mut Vec<u8>,
) -> Result<(), NoMemory>
    ensures { OnOk result (into.new.items ≡ into.old.items ++ summary_lines messages entries tally) }
{
    push_first(alloc, messages, entries, into)?;
    push_last(alloc, tally, into)
}

fn push_first(
    alloc: Global,
    messages: u32,
    entries: u64,
    into: &mut Vec<u8>,
) -> Result<(), NoMemory>
    ensures { OnOk result (into.new.items ≡ into.old.items ++ first_lines messages entries) }
{
    let lines = format!(in alloc; "messages {messages}\nsessions 8\nentries {entries}\n")?;
    into.extend_from_slice(lines.as_bytes())?;
    Ok(())
}

fn push_last(alloc: Global, tally: Tally, into: &mut Vec<u8>) -> Result<(), NoMemory>
    ensures { OnOk result (into.new.items ≡ into.old.items ++ last_lines tally) }
{
    let Tally { sent, changes } = tally;
    let lines = format!(in alloc; "sent {sent}\nchanges {changes}\n")?;
    into.extend_from_slice(lines.as_bytes())?;
    Ok(())
}
