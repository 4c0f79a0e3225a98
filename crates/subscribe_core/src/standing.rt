//! The list of the subscriptions.
ghost use Rattle.std.specs.Prelude.{◌≡◌, ◌++◌, ◌∷◌, [], OnErr, OnOk, not};
ghost use Rattle.std.specs.Ordering.{int_eq};
ghost use Rattle.subscribe_core.specs.Subscriptions.{others};
ghost use Rattle.subscribe_core.specs.Views.{sub_of};

use channel_store::Sub;
use etp_values::{List, NoMemory};
use std::alloc::Global;
use std::mem;

/// The subscription of a channel.
pub(crate) fn sub_of(subs: &[Sub], channel: i64) -> Option<Sub>
    ensures { result ≡ sub_of channel subs.now }
{
    for sub in subs {
        if sub.channel == channel {
            return Some(*sub);
        }
    }
    None
}

/// Adds a subscription after the last one.
pub(crate) fn push(alloc: Global, subs: &mut List<Sub>, sub: Sub) -> Result<(), NoMemory>
    ensures ok { OnOk result (subs.new ≡ subs.old ++ sub ∷ []) }
    ensures err { OnErr result (subs.new ≡ subs.old) }
{
    let mut items = mem::replace(subs, List::new(alloc)).into_vec();
    let pushed = items.push(sub);
    *subs = List::from_vec(items);
    pushed?;
    Ok(())
}

/// Takes the subscription of a channel out.
pub(crate) fn take_out(alloc: Global, subs: &mut List<Sub>, channel: i64)
    ensures { subs.new ≡ others channel subs.old }
{
    let mut items = mem::replace(subs, List::new(alloc)).into_vec();
    retain_others(&mut items, channel);
    *subs = List::from_vec(items);
}

fn retain_others(subs: &mut Vec<Sub>, channel: i64)
    ensures { subs.new.items ≡ others channel subs.old.items }
{
    subs.retain(
        |sub: &Sub| -> bool
            ensures { result ≡ not (int_eq sub.now.channel channel) }
        { sub.channel != channel },
    );
}
