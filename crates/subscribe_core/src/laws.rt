//! Laws on lists of calls, as contracts of functions that do nothing.
ghost use Rattle.subscribe_core.specs.Calls.{FewPending, FewSubs, HandedIsTold, OneEach};
ghost use Rattle.subscribe_core.specs.Streams.{StaysSilent, StreamGoesOn};

/// What was handed out, followed by what is pending, is what the changes that came in are sent as, in their order, each by the subscription
/// that its channel had at that moment. There are never more than 256 subscriptions, nor two of one channel, nor more than 256 pending
/// changes.
pub fn handed_in_order()
    ensures told { HandedIsTold }
    ensures pending { FewPending }
    ensures subs { FewSubs }
    ensures one { OneEach }
{}

/// While a subscription exists, what its points were at first, what was handed out since, and what is pending are the stream of its
/// channel's changes that came in. Nothing is sent of a channel without a subscription.
pub fn streams()
    ensures on { StreamGoesOn }
    ensures silent { StaysSilent }
{}
