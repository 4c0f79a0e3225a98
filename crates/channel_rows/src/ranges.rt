//! GetRanges.
ghost use Rattle.std.specs.Prelude.{◌≡◌, ◌++◌, IfOk, OnOk, Some, min, ◌^◌, ◌-◌};
ghost use Rattle.std.specs.List.{list_any};
ghost use Rattle.channel_rows.specs.Subscriptions.{asks_of, asks_within, has_no_ends, has_secondary, named_channels, ranges_outcome, ranges_refusal};

use crate::items::ends_of;
use crate::subscriptions::{SubscribeOutcome, SubscribePending};
use etp_values::{ErrorCode, List, NoMemory};
use keyed_requests::{Outcome, refused_outcome};
use msg_channel::ChannelRangeInfo;
use std::alloc::Global;
use store_machine::{RangeAsk, StoreCall};

/// The greatest number of channels in a GetRanges.
pub const MAX_RANGE_CHANNELS: u64 = 1_024;

/// How many channels are named; `u64::MAX` for a number above that.
fn named_channels(infos: &[ChannelRangeInfo]) -> u64
    ensures { result ≡ min (named_channels infos.now) (2 ^ 64 - 1) }
{
    let mut count: u64 = 0;
    for info in infos {
        count = count.saturating_add(info.channel_ids.len() as u64);
    }
    count
}

fn is_any_secondary(infos: &[ChannelRangeInfo]) -> bool
    ensures { result ≡ list_any has_secondary infos.now }
{
    for info in infos {
        if info.secondary_intervals.len() > 0 {
            return true;
        }
    }
    false
}

fn is_any_without_ends(infos: &[ChannelRangeInfo]) -> bool
    ensures { result ≡ list_any has_no_ends infos.now }
{
    for info in infos {
        if ends_of(&info.interval).is_none() {
            return true;
        }
    }
    false
}

/// Why a GetRanges is refused: all its ranges are tested for one cause before any is tested for the next.
fn ranges_refusal(infos: &[ChannelRangeInfo]) -> Option<ErrorCode>
    ensures { result ≡ ranges_refusal infos.now }
{
    if named_channels(infos) > MAX_RANGE_CHANNELS {
        return Some(ErrorCode::LimitExceeded);
    }
    if is_any_secondary(infos) {
        return Some(ErrorCode::InvalidArgument);
    }
    if is_any_without_ends(infos) {
        return Some(ErrorCode::InvalidIndexKind);
    }
    None
}

/// Adds a range of each channel.
fn push_channels(
    asks: &mut Vec<RangeAsk>,
    channels: &[i64],
    from: i64,
    to: i64,
) -> Result<(), NoMemory>
    ensures { OnOk result (asks.new.items ≡ asks.old.items ++ asks_within channels.now (Some (from, to))) }
{
    for channel in channels {
        asks.push(RangeAsk {
            channel: *channel,
            from,
            to,
        })?;
    }
    Ok(())
}

/// Adds the ranges of each channel of an interval, if it has ends.
fn push_asks(
    asks: &mut Vec<RangeAsk>,
    channels: &[i64],
    ends: Option<(i64, i64)>,
) -> Result<(), NoMemory>
    ensures { OnOk result (asks.new.items ≡ asks.old.items ++ asks_within channels.now ends) }
{
    match ends {
        Some((from, to)) => push_channels(asks, channels, from, to),
        None => Ok(()),
    }
}

fn asks_of(alloc: Global, infos: &[ChannelRangeInfo]) -> Result<List<RangeAsk>, NoMemory>
    ensures { IfOk result (λ l. l ≡ asks_of infos.now) }
{
    let mut asks = Vec::new(alloc);
    for info in infos {
        let ends = ends_of(&info.interval);
        push_asks(&mut asks, info.channel_ids.as_slice(), ends)?;
    }
    Ok(List::from_vec(asks))
}

/// What comes of a GetRanges. One without channels asks the store too.
pub(crate) fn ranges_outcome(
    alloc: Global,
    infos: List<ChannelRangeInfo>,
) -> Result<SubscribeOutcome, NoMemory>
    ensures { IfOk result (λ o. o ≡ ranges_outcome infos) }
{
    if let Some(code) = ranges_refusal(infos.as_slice()) {
        return refused_outcome(alloc, code);
    }
    Ok(Outcome::Calls {
        call: StoreCall::Range {
            items: asks_of(alloc, infos.as_slice())?,
        },
        pending: SubscribePending::Ranges,
    })
}
