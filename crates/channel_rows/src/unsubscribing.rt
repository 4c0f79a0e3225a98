//! UnsubscribeChannels.
ghost use Rattle.std.specs.Prelude.{◌≡◌, IfOk, OnOk};
ghost use Rattle.keyed_requests.specs.Keys.{keys_refusal};
ghost use Rattle.keyed_requests.specs.Plain.{nothing};
ghost use Rattle.channel_rows.specs.Subscriptions.{stop_one, stop_outcome, unless_leaving};

use crate::notices::stop_response;
use crate::subscriptions::SubscribeOutcome;
use etp_values::{ErrorCode, Named, NoMemory};
use keyed_requests::{
    Decision, KeyedRequest, Outcome, check_all, keys_refusal, refused_outcome,
    response_unless_refused, sort_all,
};
use std::alloc::Global;
use subscribe_core::{StopCause, Subs};

/// Each key sees which subscriptions the earlier ones ended.
#[derive(Drop)]
struct UnsubscribeChannels;

impl KeyedRequest for UnsubscribeChannels {
    type Item = i64;

    type Checked = i64;

    type Kept = ();

    type Sent = i64;

    type Checking = Subs;

    ghost check = { λ request subs channel. stop_one subs channel };

    ghost keep = { λ request channel. nothing };

    ghost send = { λ request channel. channel };

    fn check(
        &self,
        _alloc: Global,
        state: &mut Subs,
        item: i64,
    ) -> Result<Decision<i64>, NoMemory> {
        if state.remove(item) {
            return Ok(Decision::Granted(item));
        }
        Ok(Decision::Refused(ErrorCode::NotFound))
    }

    fn divide(&self, _alloc: Global, checked: i64) -> Result<((), i64), NoMemory> {
        Ok(((), checked))
    }
}

/// What comes of an UnsubscribeChannels: its reply, and the subscriptions that it names end.
pub(crate) fn stop_request(
    alloc: Global,
    subs: &mut Subs,
    ids: Named<i64>,
) -> Result<SubscribeOutcome, NoMemory>
    ensures outcome { let stopped = unless_leaving (keys_refusal ids) subs.old (stop_outcome subs.old ids) in
        IfOk result (λ o. o ≡ stopped.outcome) }
    ensures subs { let stopped = unless_leaving (keys_refusal ids) subs.old (stop_outcome subs.old ids) in
        OnOk result (subs.new ≡ stopped.subs) }
{
    match keys_refusal(&ids) {
        Some(code) => refused_outcome(alloc, code),
        None => stop_outcome(alloc, subs, ids),
    }
}

/// What comes of one whose keys are within the limits.
#[tactic(auto, using(keyed_requests::proofs::CaseLemmas::by_response))]
fn stop_outcome(
    alloc: Global,
    subs: &mut Subs,
    ids: Named<i64>,
) -> Result<SubscribeOutcome, NoMemory>
    ensures outcome { IfOk result (λ o. o ≡ (stop_outcome subs.old ids).outcome) }
    ensures subs { OnOk result (subs.new ≡ (stop_outcome subs.old ids).subs) }
{
    let decided = check_all(alloc, &UnsubscribeChannels, subs, ids)?;
    let sorted = sort_all(alloc, decided)?;
    let is_granted = sorted.granted.len() != 0;
    let response = stop_response(alloc, StopCause::Unsubscribed, sorted.granted)?;
    let sendings = response_unless_refused(alloc, is_granted, response, sorted.refused)?;
    Ok(Outcome::Replies(sendings))
}
