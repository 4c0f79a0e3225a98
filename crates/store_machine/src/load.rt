//! Points that are given to channels.
ghost use Rattle.std.specs.Prelude.{◌≡◌, IfOk, OnErr, length};
ghost use Rattle.std.specs.Option.{option_map};
ghost use Rattle.etp_values.specs.Weight.{capped};
ghost use Rattle.channel_store.specs.Refusals.{Refuses, append_refusal, replace_refusal};
ghost use Rattle.channel_store.specs.Store.{Changes, IsNewPlace, appended, replaced};
ghost use Rattle.channel_store.specs.Told.{ending};
ghost use Rattle.store_machine.specs.Channels.{code_of, what_of};
ghost use Rattle.store_machine.specs.Counted.{act_bytes};
ghost use Rattle.store_machine.specs.Loads.{Adds, adds_entry, load_act, load_refusal};
ghost use Rattle.store_machine.specs.declared.journal.Act.TheVariants as act;

use crate::boxed::BoxedItems;
use crate::codes::{refusal_code, refusal_of};
use crate::counted::{points_bytes, replaced_bytes};
use crate::journal::{Act, Entry};
use channel_points::{ChannelPoints, Points};
use channel_store::{ChannelError, ChannelStore};
use etp_values::{ChannelPoint, ErrorCode, List, NoMemory};
use std::alloc::Global;

/// Points that go after the last ones of their channels, or that replace those from `from` to `to` in each channel of a list.
#[derive(Drop)]
pub(crate) enum Load {
    Append(List<ChannelPoint>),
    Replace {
        channels: List<i64>,
        from: i64,
        to: i64,
        items: List<ChannelPoint>,
    },
}

impl Load {
    /// Whether it makes an entry if it is not refused: an append of items, a replacement in channels.
    pub(crate) fn adds_entry(&self) -> bool
        ensures { result ≡ adds_entry self.now }
    {
        match self {
            Load::Append(items) => !items.is_empty(),
            Load::Replace { channels, .. } => !channels.is_empty(),
        }
    }

    /// What its entry counts in addition to 64.
    pub(crate) fn bytes(&self) -> u64
        ensures { result ≡ capped (act_bytes (load_act self.now)) }
    {
        match self {
            Load::Append(items) => points_bytes(items),
            Load::Replace {
                channels,
                items,
                ..
            } => replaced_bytes(channels, items),
        }
    }

    /// Why the channels refuse it. Allocates what the load would allocate, and changes nothing.
    pub(crate) fn refusal(&self, channels: &mut ChannelStore) -> Result<Option<ErrorCode>, NoMemory>
        ensures code { IfOk result (λ r. r ≡ option_map code_of (load_refusal channels.old self.now)) }
        ensures same { channels.new ≡ channels.old }
    {
        let refusal = refusal_of(self.test(channels))?;
        Ok(refusal)
    }

    fn test(&self, channels: &mut ChannelStore) -> Result<(), ChannelError>
        ensures answer { Refuses result (load_refusal channels.old self.now) }
        ensures same { channels.new ≡ channels.old }
    {
        match self {
            Load::Append(items) => channels.test_append(items),
            Load::Replace {
                channels: ids,
                from,
                to,
                items,
            } => channels.test_replace(ids, *from, *to, items),
        }
    }

    /// Does it, as the changes of the entry at a place, and makes the entry's act.
    fn apply(
        self,
        alloc: Global,
        channels: &mut ChannelStore,
        place: u64,
        at: i64,
    ) -> Result<Act, ChannelError>
        requires { IsNewPlace place channels.old }
        ensures answer { Refuses (ending result) (load_refusal channels.old self) }
        ensures channels { Changes (ending result) place at (what_of (load_act self)) channels.old channels.new }
        ensures act { IfOk result (λ a. a ≡ load_act self) }
    {
        match self {
            Load::Append(items) => append(channels, place, at, items),
            Load::Replace {
                channels: ids,
                from,
                to,
                items,
            } => replace(alloc, channels, place, at, ids, from, to, items),
        }
    }
}

fn append(
    channels: &mut ChannelStore,
    place: u64,
    at: i64,
    items: List<ChannelPoint>,
) -> Result<Act, ChannelError>
    requires { IsNewPlace place channels.old }
    ensures answer { Refuses (ending result) (append_refusal channels.old items) }
    ensures channels { Changes (ending result) place at (appended items) channels.old channels.new }
    ensures act { IfOk result (λ a. a ≡ act.Append items) }
{
    match channels.take_append(place, at, &items) {
        Ok(points) => Ok(Act::Append(points)),
        Err(error) => Err(error),
    }
}

fn replace(
    alloc: Global,
    channels: &mut ChannelStore,
    place: u64,
    at: i64,
    ids: List<i64>,
    from: i64,
    to: i64,
    items: List<ChannelPoint>,
) -> Result<Act, ChannelError>
    requires { IsNewPlace place channels.old }
    ensures answer { Refuses (ending result) (replace_refusal channels.old ids from to items) }
    ensures channels { Changes (ending result) place at (replaced ids from to items) channels.old channels.new }
    ensures act { IfOk result (λ a. a ≡ act.Replace ids from to items) }
{
    let mut kept = BoxedItems::new(alloc, ChannelPoints::single(0, Points::none()))?;
    match channels.take_replace(place, at, &ids, from, to, &items) {
        Ok(points) => {
            kept.set(points);
            Ok(Act::Replace {
                channels: ids,
                from,
                to,
                items: kept,
            })
        }
        Err(error) => Err(error),
    }
}

/// Performs the load, and adds its entry, if the channels do not refuse it, once it has allocated for all of it.
pub(crate) fn add_load(
    alloc: Global,
    journal: &mut Vec<Entry>,
    channels: &mut ChannelStore,
    by: u64,
    nth: u64,
    at: i64,
    load: Load,
) -> Result<Option<ErrorCode>, NoMemory>
    requires { IsNewPlace (length journal.old.items) channels.old }
    ensures code { IfOk result (λ r. r ≡ option_map code_of (load_refusal channels.old load)) }
    ensures added { IfOk result (λ r. Adds r (record { by = by; nth = nth; at = at; act = load_act load })
        journal.old.items journal.new.items channels.old channels.new) }
    ensures kept { OnErr result (journal.new.items ≡ journal.old.items) }
    ensures same { OnErr result (channels.new ≡ channels.old) }
{
    journal.reserve(1)?;
    match load.apply(alloc, channels, journal.len() as u64, at) {
        Ok(act) => {
            let _ = journal.push(Entry { by, nth, at, act });
            Ok(None)
        }
        Err(error) => Ok(Some(refusal_code(error)?)),
    }
}
