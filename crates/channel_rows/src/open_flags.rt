//! Which channels a session has open.
ghost use Rattle.std.specs.Prelude.{◌≡◌, ◌<◌, [], OnOk, Some, false, slice_set, vec_len};
ghost use Rattle.channel_rows.specs.Opens.{are_open, closed, flag_at, is_open, opened, with_flag};

use crate::ids::place_of;
use etp_values::NoMemory;
use std::alloc::Global;
use std::marker::Model;

/// A flag for each channel, at the index that is its id, up to the last that was opened. A contract sees the flags.
pub struct Opens {
    flags: Vec<bool>,
}

/// Written out, so that whatever holds one drops it by a single call.
impl Drop for Opens {
    fn drop(self) {
        let Opens { flags } = self;
        drop(flags);
    }
}

impl Model for Opens {
    ghost use Rattle.std.specs.Prelude.{Bool, List};

    ghost Value = { List Bool };

    ghost view = { λ o. o.flags.items };
}

impl Opens {
    /// No channel is open.
    pub fn none(alloc: Global) -> Opens
        ensures { result ≡ [] }
    {
        Opens {
            flags: Vec::new(alloc),
        }
    }

    /// Whether a channel is open.
    pub(crate) fn is_open(&self, channel: i64) -> bool
        ensures { result ≡ is_open self.now channel }
    {
        match place_of(channel) {
            Some(place) => flag_at(&self.flags, place),
            None => false,
        }
    }

    /// Whether all of these channels are open.
    pub(crate) fn are_open(&self, channels: &[i64]) -> bool
        ensures { result ≡ are_open self.now channels.now }
    {
        for channel in channels {
            if !self.is_open(*channel) {
                return false;
            }
        }
        true
    }

    /// Opens a channel.
    pub(crate) fn open(&mut self, channel: i64) -> Result<(), NoMemory>
        ensures { OnOk result (self.new ≡ opened self.old channel) }
    {
        match place_of(channel) {
            Some(place) => set_flag(&mut self.flags, place),
            None => Ok(()),
        }
    }

    /// Closes a channel.
    pub(crate) fn close(&mut self, channel: i64)
        ensures { self.new ≡ closed self.old channel }
    {
        if let Some(place) = place_of(channel) {
            unset_flag(&mut self.flags, place);
        }
    }
}

fn flag_at(flags: &[bool], place: usize) -> bool
    ensures { result ≡ flag_at flags.now (Some place) }
{
    match flags.get(place) {
        Some(flag) => *flag,
        None => false,
    }
}

/// Adds flags that are not set until there is one at the index.
fn extend(flags: &mut Vec<bool>, place: usize) -> Result<(), NoMemory>
    ensures there { OnOk result (place < vec_len flags.new) }
    ensures same { OnOk result (with_flag flags.new.items place ≡ with_flag flags.old.items place) }
{
    let mut len = flags.len();
    while len <= place {
        flags.push(false)?;
        len += 1;
    }
    Ok(())
}

/// Sets the flag at an index.
#[tactic(auto, using(crate::proofs::FlagLemmas::flag_set))]
fn set_flag(flags: &mut Vec<bool>, place: usize) -> Result<(), NoMemory>
    ensures { OnOk result (flags.new.items ≡ with_flag flags.old.items place) }
{
    extend(flags, place)?;
    flags[place] = true;
    Ok(())
}

/// Clears the flag at an index, if there is one.
fn unset_flag(flags: &mut [bool], place: usize)
    ensures { flags.new ≡ slice_set flags.old place false }
{
    if place < flags.len() {
        flags[place] = false;
    }
}
