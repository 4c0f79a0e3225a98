//! SubscribeChannels.
ghost use Rattle.std.specs.Prelude.{◌≡◌, ◌++◌, IfOk, OnOk, map};
ghost use Rattle.std.specs.List.{list_any};
ghost use Rattle.std.specs.Ordering.{int_eq};
ghost use Rattle.keyed_requests.specs.Keyed.{finished, finished_state, request_reply};
ghost use Rattle.keyed_requests.specs.Keys.{keys_refusal};
ghost use Rattle.keyed_requests.specs.Sending.{unless_refused};
ghost use Rattle.subscribe_core.specs.Subscriptions.{has_sub};
ghost use Rattle.channel_rows.specs.Subscriptions.{begin_one, beginning, begins, first_notices, is_full, is_taken, names, start_at, subscribe_call, subscribe_one, begin_outcome, subscribe_response, subscribe_with};
ghost use Rattle.keyed_requests.specs.declared.sending.Sending.TheVariants.{Notice};

use crate::notices::append_notice;
use crate::subscriptions::{SubscribeOutcome, SubscribePending};
use channel_points::PointRun;
use channel_store::Sub;
use etp_values::{ErrorCode, List, Named, NoMemory, Text};
use keyed_requests::{
    Decision, Findings, KeyedReply, KeyedRequest, Outcome, Sending, first_found, keys_refusal,
    refused_outcome, request_outcome, request_reply,
};
use msg_channel::{
    ChannelSubscribeInfo, ChannelSubscribeMessage, IndexValue, SubscribeChannelsResponse,
};
use std::alloc::Global;
use std::mem;
use store_machine::{Start, StartAsk, StartReply, StoreCall};
use subscribe_core::{MAX_SUBS, Subs};

/// What the keys of a SubscribeChannels pass on: the channels named so far, and how many go into the call.
#[derive(Drop)]
pub struct Naming {
    pub named: List<i64>,
    pub going: u64,
}

/// What the keys of a SubscribeChannels that is being answered pass on: the subscriptions with those that began, and what each of these
/// starts with.
#[derive(Drop)]
pub struct Beginning {
    pub subs: Subs,
    pub notices: List<ChannelSubscribeMessage>,
}

/// Where a subscription starts: at the last points, if a number of them is requested, otherwise at a long, and past the last point without
/// one.
fn start_at(index: IndexValue, latest: Option<i32>) -> Option<Start>
    ensures { result ≡ start_at index latest }
{
    match index {
        IndexValue::Null => match latest {
            Some(count) => Some(Start::Latest(count)),
            None => Some(Start::Live),
        },
        IndexValue::Long(index) => match latest {
            Some(count) => Some(Start::Latest(count)),
            None => Some(Start::At(index)),
        },
        IndexValue::Double(_) => None,
        IndexValue::PassIndexedDepth(_) => None,
    }
}

/// Whether a channel has a subscription.
fn is_subscribed(subs: &[Sub], channel: i64) -> bool
    ensures { result ≡ has_sub channel subs.now }
{
    for sub in subs {
        if sub.channel == channel {
            return true;
        }
    }
    false
}

/// Whether a channel is among these.
fn is_named(channels: &[i64], channel: i64) -> bool
    ensures { result ≡ list_any (int_eq channel) channels.now }
{
    for other in channels {
        if channel == *other {
            return true;
        }
    }
    false
}

/// Whether a channel has a subscription, or was named before.
fn is_taken(subs: &[Sub], named: &[i64], channel: i64) -> bool
    ensures { result ≡ is_taken subs.now named.now channel }
{
    is_subscribed(subs, channel) || is_named(named, channel)
}

/// The first half, of a session with these subscriptions.
#[derive(Drop)]
struct SubscribeChannels<'a> {
    subs: &'a List<Sub>,
}

impl<'a> KeyedRequest for SubscribeChannels<'a> {
    type Item = ChannelSubscribeInfo;

    type Checked = StartAsk;

    type Kept = StartAsk;

    type Sent = StartAsk;

    type Checking = Naming;

    ghost check = { λ request n x. subscribe_one request.subs.now n x };

    ghost keep = { λ request a. a };

    ghost send = { λ request a. a };

    fn check(
        &self,
        alloc: Global,
        state: &mut Naming,
        item: ChannelSubscribeInfo,
    ) -> Result<Decision<StartAsk>, NoMemory> {
        let subs = self.subs.as_slice();
        let start = start_at(item.start_index, item.request_latest_index_count);
        let taken = is_taken(subs, state.named.as_slice(), item.channel_id);
        names(alloc, state, item.channel_id)?;
        Ok(subscribe_with(subs, taken, state, &item, start))
    }

    fn divide(&self, _alloc: Global, checked: StartAsk) -> Result<(StartAsk, StartAsk), NoMemory> {
        Ok((checked, checked))
    }
}

/// Adds a channel to those that were named.
fn names(alloc: Global, state: &mut Naming, channel: i64) -> Result<(), NoMemory>
    ensures { OnOk result (state.new ≡ names state.old channel) }
{
    let named = mem::replace(&mut state.named, List::new(alloc));
    let mut channels = named.into_vec();
    channels.push(channel)?;
    state.named = List::from_vec(channels);
    Ok(())
}

/// Whether there is no room for one more subscription after the existing ones and those that go into the call.
fn is_full(subs: &[Sub], going: u64) -> bool
    ensures { result ≡ is_full subs.now going }
{
    (subs.len() as u64).saturating_add(going) >= MAX_SUBS as u64
}

/// No channel is subscribed to twice, and no more channels than there is room for go into the call.
fn subscribe_with(
    subs: &[Sub],
    is_taken: bool,
    state: &mut Naming,
    item: &ChannelSubscribeInfo,
    start: Option<Start>,
) -> Decision<StartAsk>
    ensures decision { result ≡ (subscribe_with subs.now is_taken state.old item.now start).1 }
    ensures state { state.new ≡ (subscribe_with subs.now is_taken state.old item.now start).0 }
{
    let Some(start) = start else {
        return Decision::Refused(ErrorCode::InvalidIndexKind);
    };
    if is_taken {
        return Decision::Refused(ErrorCode::InvalidState);
    }
    if is_full(subs, state.going) {
        return Decision::Refused(ErrorCode::LimitExceeded);
    }
    state.going += 1;
    Decision::Granted(StartAsk {
        channel: item.channel_id,
        start,
        all: item.data_changes,
    })
}

/// The second half, for an answer that was made from a journal of this length.
#[derive(Drop)]
struct SubscribeReply {
    mark: u64,
}

impl KeyedReply for SubscribeReply {
    type Kept = StartAsk;

    type Found = (Text, StartReply);

    type Given = Text;

    type Finishing = Beginning;

    type Message = ChannelSubscribeMessage;

    ghost width = { 1 };

    ghost finish = { λ reply b key a found. begin_one reply.mark b key a found };

    ghost response = { λ reply success. subscribe_response success };

    fn width(&self) -> usize {
        1
    }

    fn finish(
        &self,
        alloc: Global,
        state: &mut Beginning,
        _key: &Text,
        kept: StartAsk,
        found: List<(Text, StartReply)>,
    ) -> Result<Decision<Text>, NoMemory>
        ensures decision { IfOk result (λ d. d ≡ (begin_one self.now.mark state.old _key.now kept found).1) }
        ensures state { OnOk result (state.new ≡ (begin_one self.now.mark state.old _key.now kept found).0) }
    {
        match first_found(found) {
            Some((_name, reply)) => begins(alloc, self.mark, state, kept, reply),
            None => Ok(Decision::Refused(ErrorCode::RequestDenied)),
        }
    }

    fn response(&self, granted: Named<Text>) -> ChannelSubscribeMessage
        ensures { result ≡ subscribe_response granted }
    {
        ChannelSubscribeMessage::SubscribeChannelsResponse(SubscribeChannelsResponse {
            success: granted,
        })
    }
}

/// The points that a subscription starts with, if there are any.
#[tactic(auto, using(crate::proofs::CallLemmas::none_first, crate::proofs::CallLemmas::some_first))]
fn add_first(
    alloc: Global,
    state: &mut Beginning,
    channel: i64,
    points: PointRun,
) -> Result<(), NoMemory>
    ensures { OnOk result (state.new ≡ record state.old { notices = state.old.notices ++ first_notices channel points }) }
{
    if points.is_empty() {
        return Ok(());
    }
    let copies = points.to_list(alloc)?;
    let message = append_notice(alloc, channel, copies)?;
    let notices = mem::replace(&mut state.notices, List::new(alloc));
    let mut notices = notices.into_vec();
    notices.push(message)?;
    state.notices = List::from_vec(notices);
    Ok(())
}

/// A subscription begins at the place after which the store answered.
fn begins(
    alloc: Global,
    mark: u64,
    state: &mut Beginning,
    asked: StartAsk,
    reply: StartReply,
) -> Result<Decision<Text>, NoMemory>
    ensures decision { IfOk result (λ d. d ≡ (begins mark state.old asked reply).1) }
    ensures state { OnOk result (state.new ≡ (begins mark state.old asked reply).0) }
{
    match reply {
        StartReply::From { start, points } => {
            state.subs.add(Sub {
                channel: asked.channel,
                start,
                from: mark,
                all: asked.all,
            })?;
            add_first(alloc, state, asked.channel, points)?;
            Ok(Decision::Granted(Text::new(alloc)))
        }
        StartReply::Refused(code) => Ok(Decision::Refused(code)),
    }
}

fn subscribe_call(
    outcome: Outcome<Named<StartAsk>, Named<Decision<StartAsk>>, ChannelSubscribeMessage>,
) -> SubscribeOutcome
    ensures { result ≡ subscribe_call outcome }
{
    match outcome {
        Outcome::Replies(sendings) => Outcome::Replies(sendings),
        Outcome::Calls { call, pending } => Outcome::Calls {
            call: StoreCall::Subscribe { items: call },
            pending: SubscribePending::Subscribe { items: pending },
        },
    }
}

/// What comes of a SubscribeChannels.
pub(crate) fn begin_request(
    alloc: Global,
    subs: &List<Sub>,
    items: Named<ChannelSubscribeInfo>,
) -> Result<SubscribeOutcome, NoMemory>
    ensures { let begun = begin_outcome subs.now items in
        IfOk result (λ o. o ≡ unless_refused (keys_refusal items) begun) }
{
    match keys_refusal(&items) {
        Some(code) => refused_outcome(alloc, code),
        None => begin_outcome(alloc, subs, items),
    }
}

/// What comes of one whose keys are within the limits.
fn begin_outcome(
    alloc: Global,
    subs: &List<Sub>,
    items: Named<ChannelSubscribeInfo>,
) -> Result<SubscribeOutcome, NoMemory>
    ensures { IfOk result (λ o. o ≡ begin_outcome subs.now items) }
{
    let mut naming = Naming {
        named: List::new(alloc),
        going: 0,
    };
    // The first half begins no subscription, so any mark works.
    let reply = SubscribeReply { mark: 0 };
    let request = SubscribeChannels { subs };
    let outcome = request_outcome(alloc, &request, &reply, &mut naming, items)?;
    Ok(subscribe_call(outcome))
}

/// Notices after a reply.
fn with_notices(
    sendings: List<Sending<ChannelSubscribeMessage>>,
    notices: List<ChannelSubscribeMessage>,
) -> Result<List<Sending<ChannelSubscribeMessage>>, NoMemory>
    ensures { IfOk result (λ l. l ≡ sendings ++ map Notice notices) }
{
    let mut all = sendings.into_vec();
    for message in notices.into_vec() {
        all.push(Sending::Notice(message))?;
    }
    Ok(List::from_vec(all))
}

/// The reply to a SubscribeChannels, followed by what each subscription starts with.
pub(crate) fn begin_reply(
    alloc: Global,
    mark: u64,
    subs: Subs,
    items: Named<Decision<StartAsk>>,
    started: Named<StartReply>,
) -> Result<(Subs, List<Sending<ChannelSubscribeMessage>>), NoMemory>
    ensures subs { IfOk result (λ r. r.0 ≡ (finished_state (begin_one mark) 1 (beginning subs) items started).subs) }
    ensures sendings { IfOk result (λ r. r.1 ≡ request_reply subscribe_response (finished (begin_one mark) 1 (beginning subs) items started)
        ++ map Notice (finished_state (begin_one mark) 1 (beginning subs) items started).notices) }
{
    let mut begun = Beginning {
        subs,
        notices: List::new(alloc),
    };
    let findings = Findings::from_vec(started.into_vec());
    let reply = SubscribeReply { mark };
    let sendings = request_reply(alloc, &reply, &mut begun, items, findings)?;
    let Beginning { subs, notices } = begun;
    let sendings = with_notices(sendings, notices)?;
    Ok((subs, sendings))
}
