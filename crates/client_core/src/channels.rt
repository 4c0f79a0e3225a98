//! The channels that were subscribed to, with their copies.
ghost use Rattle.std.specs.Prelude.{◌≡◌, [], not, filter, OnOk};
ghost use Rattle.std.specs.List.{list_any};
ghost use Rattle.std.specs.Map.{values_of};
ghost use Rattle.std.specs.Option.{option_copied};
ghost use Rattle.std.specs.Ordering.{int_eq};
ghost use Rattle.client_core.specs.Answers.{subscribed};
ghost use Rattle.client_core.specs.Notices.{are_live, copy_in, follow_all, followed, follows, is_live, stop, stopped};

use crate::state::Channel;
use channel_store::{ChangeMsg, ChannelCopy};
use etp_values::{List, NoMemory, Point, Text};
use std::alloc::Global;
use std::marker::Model;

/// Channels. A contract sees the list of them.
#[derive(Drop)]
pub(crate) struct Channels {
    items: Vec<Channel>,
}

impl Model for Channels {
    ghost use Rattle.std.specs.Prelude.{List};
    ghost use Rattle.client_core.specs.declared.state.Channel.{Channel};

    ghost Value = { List Channel };

    ghost view = { λ c. c.items.items };
}

fn is_live(channels: &[Channel], id: i64) -> bool
    ensures { result ≡ is_live id channels.now }
{
    for channel in channels {
        if channel.id == id && channel.live {
            return true;
        }
    }
    false
}

fn find(channels: &[Channel], id: i64) -> Option<&List<Point>>
    ensures { option_copied result ≡ copy_in id channels.now }
{
    for channel in channels {
        if channel.id == id {
            return Some(channel.copy.points());
        }
    }
    None
}

/// Takes a change into the copy of a channel, if the change is of it.
fn follow_one(alloc: Global, channel: &mut Channel, change: &ChangeMsg) -> Result<(), NoMemory>
    ensures { OnOk result (channel.new ≡ followed change.now channel.old) }
{
    if channel.id == change.channel {
        return channel.copy.take_in(alloc, &change.what);
    }
    Ok(())
}

fn follow_each(alloc: Global, channels: &mut [Channel], change: &ChangeMsg) -> Result<(), NoMemory>
    ensures { OnOk result (channels.new ≡ follows channels.old change.now) }
{
    for channel in channels.iter_mut() {
        follow_one(alloc, channel, change)?;
    }
    Ok(())
}

/// Takes a change into the copy of its channel.
fn follow(alloc: Global, channels: &mut Vec<Channel>, change: &ChangeMsg) -> Result<(), NoMemory>
    ensures { OnOk result (channels.new.items ≡ follows channels.old.items change.now) }
{
    follow_each(alloc, channels.as_mut_slice(), change)
}

/// Takes changes into the copies of their channels.
fn follow_all(
    alloc: Global,
    channels: &mut Vec<Channel>,
    changes: &[ChangeMsg],
) -> Result<(), NoMemory>
    ensures { OnOk result (channels.new.items ≡ follow_all channels.old.items changes.now) }
{
    for change in changes {
        follow(alloc, channels, change)?;
    }
    Ok(())
}

fn is_among(named: &[(Text, i64)], id: i64) -> bool
    ensures { result ≡ list_any (λ x. int_eq x id) (values_of named.now) }
{
    for pair in named {
        if pair.1 == id {
            return true;
        }
    }
    false
}

/// Ends the subscription of a channel, if it is one of these.
fn stop_one(channel: &mut Channel, named: &[(Text, i64)])
    ensures { channel.new ≡ stop (values_of named.now) channel.old }
{
    if is_among(named, channel.id) {
        channel.live = false;
    }
}

fn stop_each(channels: &mut [Channel], named: &[(Text, i64)])
    ensures { channels.new ≡ stopped (values_of named.now) channels.old }
{
    for channel in channels.iter_mut() {
        stop_one(channel, named);
    }
}

fn stop_all(channels: &mut Vec<Channel>, named: &[(Text, i64)])
    ensures { channels.new.items ≡ stopped (values_of named.now) channels.old.items }
{
    stop_each(channels.as_mut_slice(), named);
}

fn retain_others(channels: &mut Vec<Channel>, id: i64)
    ensures { channels.new.items ≡ filter (λ f. not (int_eq f.id id)) channels.old.items }
{
    channels.retain(
        |channel: &Channel| -> bool
            ensures { result ≡ not (int_eq channel.now.id id) }
        { channel.id != id },
    );
}

impl Channels {
    /// No channels.
    pub(crate) fn new(alloc: Global) -> Channels
        ensures { result ≡ [] }
    {
        Channels {
            items: Vec::new(alloc),
        }
    }

    /// The copy of a channel, if it was subscribed to.
    pub(crate) fn copy(&self, id: i64) -> Option<&List<Point>>
        ensures { option_copied result ≡ copy_in id self.now }
    {
        find(self.items.as_slice(), id)
    }

    /// Adds a channel whose subscription is active from now on, with an empty copy.
    pub(crate) fn subscribe(&mut self, alloc: Global, id: i64) -> Result<(), NoMemory>
        ensures { OnOk result (self.new ≡ subscribed id self.old) }
    {
        retain_others(&mut self.items, id);
        self.items.push(Channel {
            id,
            live: true,
            copy: ChannelCopy::new(alloc),
        })?;
        Ok(())
    }

    /// Whether the changes are all of channels whose subscriptions are active.
    pub(crate) fn are_live(&self, changes: &[ChangeMsg]) -> bool
        ensures { result ≡ are_live self.now changes.now }
    {
        for change in changes {
            if !is_live(self.items.as_slice(), change.channel) {
                return false;
            }
        }
        true
    }

    /// Takes changes into the copies of their channels.
    pub(crate) fn follow_all(
        &mut self,
        alloc: Global,
        changes: &[ChangeMsg],
    ) -> Result<(), NoMemory>
        ensures { OnOk result (self.new ≡ follow_all self.old changes.now) }
    {
        follow_all(alloc, &mut self.items, changes)
    }

    /// Ends the subscriptions of the channels under these names. Their copies are kept.
    pub(crate) fn stop(&mut self, named: &[(Text, i64)])
        ensures { self.new ≡ stopped (values_of named.now) self.old }
    {
        stop_all(&mut self.items, named);
    }
}
