//! Truncations, prepared and done.
ghost use Rattle.std.specs.Prelude.{◌≡◌, ◌++◌, ◌∷◌, [], IfOk, OnErr, OnOk, None, length, map};
ghost use Rattle.std.specs.Map.{values_of};
ghost use Rattle.channel_store.specs.Refusals.{cut_refusal, truncate_refusal};
ghost use Rattle.channel_store.specs.Store.{IsNewPlace, changed, truncated};
ghost use Rattle.store_machine.specs.Channels.{cut_of};
ghost use Rattle.store_machine.specs.Cuts.{cut_verdict, cut_verdicts, cuts_accepted};
ghost use Rattle.store_machine.specs.Kept.{with_accepted};
ghost use Rattle.store_machine.specs.Loads.{TakesCut};
ghost use Rattle.store_machine.specs.declared.journal.Act.TheVariants as act;

use crate::call::{Cutting, Verdict};
use crate::codes::refusal_code;
use crate::journal::{Act, Entry};
use channel_store::ChannelStore;
use etp_values::{List, NoMemory, Text};
use std::alloc::Global;

/// Items that were judged in order: the verdicts, the accepted ones, and the channels of all of them.
#[derive(Drop)]
pub(crate) struct CutDraft {
    pub(crate) verdicts: Vec<(Text, Verdict)>,
    pub(crate) accepted: Vec<Cutting>,
    named: Vec<i64>,
}

impl CutDraft {
    fn new(alloc: Global) -> CutDraft
        ensures verdicts { result.verdicts.items ≡ [] }
        ensures accepted { result.accepted.items ≡ [] }
        ensures named { result.named.items ≡ [] }
    {
        CutDraft {
            verdicts: Vec::new(alloc),
            accepted: Vec::new(alloc),
            named: Vec::new(alloc),
        }
    }

    /// Notes the verdict on a cut, and takes the cut if it is accepted.
    fn note(&mut self, name: Text, verdict: Verdict, cut: Cutting) -> Result<(), NoMemory>
        ensures verdicts { OnOk result (
            self.new.verdicts.items ≡ self.old.verdicts.items ++ (name, verdict) ∷ []) }
        ensures accepted { OnOk result (
            self.new.accepted.items ≡ with_accepted verdict self.old.accepted.items cut) }
        ensures named { OnOk result (
            self.new.named.items ≡ self.old.named.items ++ cut.channel ∷ []) }
    {
        self.verdicts.push((name, verdict))?;
        self.named.push(cut.channel)?;
        if let Verdict::Refused(_) = verdict {
            return Ok(());
        }
        self.accepted.push(cut)?;
        Ok(())
    }
}

fn cut_verdict(channels: &ChannelStore, earlier: &[i64], cut: &Cutting) -> Result<Verdict, NoMemory>
    ensures { IfOk result (λ v. v ≡ cut_verdict (cut_refusal channels.now earlier.now (cut_of cut.now))) }
{
    match channels.test_cut(earlier, cut.channel, cut.end) {
        Ok(()) => Ok(Verdict::Accepted),
        Err(error) => Ok(Verdict::Refused(refusal_code(error)?)),
    }
}

fn take_cut(
    channels: &ChannelStore,
    draft: &mut CutDraft,
    name: Text,
    cut: Cutting,
) -> Result<(), NoMemory>
    ensures { OnOk result (TakesCut channels.now name cut
        draft.old.verdicts.items draft.new.verdicts.items
        draft.old.accepted.items draft.new.accepted.items
        draft.old.named.items draft.new.named.items) }
{
    let verdict = cut_verdict(channels, draft.named.as_slice(), &cut)?;
    draft.note(name, verdict, cut)?;
    Ok(())
}

/// Judges truncations, each together with all channels that an earlier item names.
pub(crate) fn draft_cuts(
    alloc: Global,
    channels: &ChannelStore,
    items: Vec<(Text, Cutting)>,
) -> Result<CutDraft, NoMemory>
    ensures verdicts { IfOk result (λ d. d.verdicts.items ≡ cut_verdicts channels.now [] items.items) }
    ensures accepted { IfOk result (λ d.
        d.accepted.items ≡ cuts_accepted channels.now [] (values_of items.items)) }
{
    let mut draft = CutDraft::new(alloc);
    for (name, cut) in items {
        take_cut(channels, &mut draft, name, cut)?;
    }
    Ok(draft)
}

/// The channels that are truncated.
fn channels_of(alloc: Global, cuts: &List<Cutting>) -> Result<List<i64>, NoMemory>
    ensures { IfOk result (λ l. l ≡ map (λ c. c.channel) cuts.now) }
{
    let mut channels = Vec::new(alloc);
    channels.reserve(cuts.len())?;
    for cut in cuts.as_slice() {
        channels.push(cut.channel)?;
    }
    Ok(List::from_vec(channels))
}

/// Their ends.
fn ends_of(alloc: Global, cuts: &List<Cutting>) -> Result<List<i64>, NoMemory>
    ensures { IfOk result (λ l. l ≡ map (λ c. c.end) cuts.now) }
{
    let mut ends = Vec::new(alloc);
    ends.reserve(cuts.len())?;
    for cut in cuts.as_slice() {
        ends.push(cut.end)?;
    }
    Ok(List::from_vec(ends))
}

/// Truncates channels, and adds the entry, once it has allocated for both.
pub(crate) fn add_cuts(
    alloc: Global,
    journal: &mut Vec<Entry>,
    channels: &mut ChannelStore,
    by: u64,
    nth: u64,
    at: i64,
    cuts: List<Cutting>,
) -> Result<(), NoMemory>
    requires new { IsNewPlace (length journal.old.items) channels.old }
    requires accepted { truncate_refusal channels.old [] (map cut_of cuts) ≡ None }
    ensures journal { OnOk result (journal.new.items
        ≡ journal.old.items ++ record { by = by; nth = nth; at = at; act = act.Truncate cuts } ∷ []) }
    ensures channels { OnOk result (
        channels.new ≡ changed (length journal.old.items) at (truncated (map cut_of cuts)) channels.old) }
    ensures kept { OnErr result (journal.new.items ≡ journal.old.items) }
    ensures same { OnErr result (channels.new ≡ channels.old) }
{
    let ids = channels_of(alloc, &cuts)?;
    let ends = ends_of(alloc, &cuts)?;
    journal.reserve(1)?;
    let Ok(()) = channels.truncate(journal.len() as u64, at, &ids, &ends) else {
        return Err(NoMemory);
    };
    let act = Act::Truncate(cuts);
    let _ = journal.push(Entry { by, nth, at, act });
    Ok(())
}
