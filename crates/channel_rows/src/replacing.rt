//! ReplaceRange.
ghost use Rattle.std.specs.Prelude.{◌≡◌, IfOk};
ghost use Rattle.channel_rows.specs.Loads.{replace_call, replace_outcome};

use crate::items::{ends_of, loaded};
use crate::loads::{LoadOutcome, LoadPending};
use crate::open_flags::Opens;
use etp_values::{ChannelPoint, ErrorCode, List, NoMemory};
use keyed_requests::{Decision, Outcome, refused_outcome};
use msg_channel::ReplaceRange;
use std::alloc::Global;
use store_machine::StoreCall;

fn replace_call(
    alloc: Global,
    moment: i64,
    channels: List<i64>,
    ends: (i64, i64),
    points: Decision<List<ChannelPoint>>,
) -> Result<LoadOutcome, NoMemory>
    ensures { IfOk result (λ o. o ≡ replace_call moment channels ends points) }
{
    match points {
        Decision::Granted(points) => Ok(Outcome::Calls {
            call: StoreCall::Replace {
                channels,
                from: ends.0,
                to: ends.1,
                items: points,
            },
            pending: LoadPending::Replace { moment },
        }),
        Decision::Refused(code) => refused_outcome(alloc, code),
    }
}

/// What comes of a ReplaceRange: its channels, its ends and its items are tested in this order.
pub(crate) fn replace_outcome(
    alloc: Global,
    opens: &Opens,
    moment: i64,
    message: ReplaceRange,
) -> Result<LoadOutcome, NoMemory>
    ensures { IfOk result (λ o. o ≡ replace_outcome opens.now moment message) }
{
    if message.channel_ids.is_empty() {
        return refused_outcome(alloc, ErrorCode::InvalidArgument);
    }
    if !opens.are_open(message.channel_ids.as_slice()) {
        return refused_outcome(alloc, ErrorCode::NotFound);
    }
    let Some(ends) = ends_of(&message.changed_interval) else {
        return refused_outcome(alloc, ErrorCode::InvalidIndexKind);
    };
    let ReplaceRange {
        channel_ids,
        payload,
        ..
    } = message;
    let points = loaded(alloc, opens, payload)?;
    replace_call(alloc, moment, channel_ids, ends, points)
}
