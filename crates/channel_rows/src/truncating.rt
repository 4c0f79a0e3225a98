//! TruncateChannels.
ghost use Rattle.std.specs.Prelude.{◌≡◌, IfOk};
ghost use Rattle.keyed_requests.specs.Keys.{keys_refusal};
ghost use Rattle.keyed_requests.specs.Plain.{plain_reply};
ghost use Rattle.keyed_requests.specs.Sending.{unless_refused};
ghost use Rattle.channel_rows.specs.Loads.{checked_cutting, truncate_call, truncate_decided, truncate_outcome, truncate_response};

use crate::items::long_in;
use crate::loads::{LoadOutcome, LoadPending};
use crate::open_flags::Opens;
use etp_values::{ErrorCode, List, Named, NoMemory, Text};
use keyed_requests::{
    Decision, Findings, Outcome, Plain, PlainReply, PlainRequest, Sending, keys_refusal,
    refused_outcome, request_outcome, request_reply,
};
use msg_channel::{ChannelDataLoadMessage, TruncateChannelsResponse, TruncateInfo};
use std::alloc::Global;
use store_machine::{Cutting, StoreCall, Verdict};

/// The first half.
#[derive(Drop)]
struct TruncateChannels<'a> {
    opens: &'a Opens,
}

impl<'a> PlainRequest for TruncateChannels<'a> {
    type Item = TruncateInfo;

    type Sent = Cutting;

    ghost check = { λ request x. checked_cutting request.opens.now x };

    fn check(&self, _alloc: Global, item: TruncateInfo) -> Result<Decision<Cutting>, NoMemory> {
        if !self.opens.is_open(item.channel_id) {
            return Ok(Decision::Refused(ErrorCode::NotFound));
        }
        match long_in(item.new_end_index) {
            Some(end) => Ok(Decision::Granted(Cutting {
                channel: item.channel_id,
                end,
            })),
            None => Ok(Decision::Refused(ErrorCode::InvalidIndexKind)),
        }
    }
}

/// The second half: a channel that was truncated has the moment of the request.
#[derive(Drop)]
struct TruncateReply {
    moment: i64,
}

impl PlainReply for TruncateReply {
    type Found = (Text, Verdict);

    type Given = i64;

    type Message = ChannelDataLoadMessage;

    ghost decide = { λ reply found. truncate_decided reply.moment found };

    ghost response = { λ reply times. truncate_response times };

    fn decide(&self, _alloc: Global, found: &(Text, Verdict)) -> Result<Decision<i64>, NoMemory> {
        match found.1 {
            Verdict::Accepted => Ok(Decision::Granted(self.moment)),
            Verdict::Refused(code) => Ok(Decision::Refused(code)),
        }
    }

    fn response(&self, granted: Named<i64>) -> ChannelDataLoadMessage
        ensures { result ≡ truncate_response granted }
    {
        ChannelDataLoadMessage::TruncateChannelsResponse(TruncateChannelsResponse {
            channels_truncated_time: granted,
        })
    }
}

fn truncate_call(
    moment: i64,
    outcome: Outcome<Named<Cutting>, Named<Decision<()>>, ChannelDataLoadMessage>,
) -> LoadOutcome
    ensures { result ≡ truncate_call moment outcome }
{
    match outcome {
        Outcome::Replies(sendings) => Outcome::Replies(sendings),
        Outcome::Calls { call, pending } => Outcome::Calls {
            call: StoreCall::Truncate { items: call },
            pending: LoadPending::Truncate {
                moment,
                items: pending,
            },
        },
    }
}

/// What comes of a TruncateChannels.
pub(crate) fn truncate_request(
    alloc: Global,
    opens: &Opens,
    moment: i64,
    items: Named<TruncateInfo>,
) -> Result<LoadOutcome, NoMemory>
    ensures { let cut = truncate_outcome opens.now moment items in
        IfOk result (λ o. o ≡ unless_refused (keys_refusal items) cut) }
{
    match keys_refusal(&items) {
        Some(code) => refused_outcome(alloc, code),
        None => truncate_outcome(alloc, opens, moment, items),
    }
}

/// What comes of one whose keys are within the limits.
fn truncate_outcome(
    alloc: Global,
    opens: &Opens,
    moment: i64,
    items: Named<TruncateInfo>,
) -> Result<LoadOutcome, NoMemory>
    ensures { IfOk result (λ o. o ≡ truncate_outcome opens.now moment items) }
{
    let request = Plain(TruncateChannels { opens });
    let reply = Plain(TruncateReply { moment });
    let outcome = request_outcome(alloc, &request, &reply, &mut (), items)?;
    Ok(truncate_call(moment, outcome))
}

/// The reply to a TruncateChannels, by the store's verdicts.
pub(crate) fn truncate_reply(
    alloc: Global,
    moment: i64,
    items: Named<Decision<()>>,
    verdicts: Named<Verdict>,
) -> Result<List<Sending<ChannelDataLoadMessage>>, NoMemory>
    ensures { IfOk result (λ l. l ≡ plain_reply (truncate_decided moment) truncate_response items verdicts) }
{
    let findings = Findings::from_vec(verdicts.into_vec());
    request_reply(
        alloc,
        &Plain(TruncateReply { moment }),
        &mut (),
        items,
        findings,
    )
}
