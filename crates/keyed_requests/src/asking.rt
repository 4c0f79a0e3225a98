//! The first half of a request: its keys are checked, and a call is made for what is granted.
ghost use Rattle.std.specs.Prelude.{◌≡◌, [], ◌∷◌, ◌++◌, IfOk, OnOk};
ghost use Rattle.keyed_requests.specs.Keyed.{called, checked, checked_state, kept, kept_one, request_outcome, sent, sent_one};

use crate::keys::Decision;
use crate::replying::refused_reply;
use crate::request::{KeyedReply, KeyedRequest};
use crate::sending::Outcome;
use etp_values::{Copied, Named, NoMemory, Text};
use std::alloc::Global;

/// Each key checked, in the order of the keys.
pub fn check_all<R: KeyedRequest>(
    alloc: Global,
    request: &R,
    state: &mut R::Checking,
    items: Named<R::Item>,
) -> Result<Named<Decision<R::Checked>>, NoMemory>
where
    R::Item: Drop,
    R::Checked: Drop,
    ensures checked { IfOk result (λ l. l ≡ checked (R.check request.now) state.old items) }
    ensures state { OnOk result (state.new ≡ checked_state (R.check request.now) state.old items) }
{
    let mut out = Vec::new(alloc);
    for (key, item) in items.into_vec() {
        let decision = request.check(alloc, state, item)?;
        out.push((key, decision))?;
    }
    Ok(Named::from_sorted(out))
}

/// What is kept, and what is sent in the call, each in the order of the keys.
#[derive(Drop)]
struct Divided<K, S> {
    kept: Named<Decision<K>>,
    sent: Named<S>,
}

/// The checked keys, divided. Refused keys are kept.
fn divide_all<R: KeyedRequest>(
    alloc: Global,
    request: &R,
    items: Named<Decision<R::Checked>>,
) -> Result<Divided<R::Kept, R::Sent>, NoMemory>
where
    R::Checked: Drop,
    R::Kept: Drop,
    R::Sent: Drop,
    ensures kept { IfOk result (λ r. r.kept ≡ kept (R.keep request.now) items) }
    ensures sent { IfOk result (λ r. r.sent ≡ sent (R.send request.now) items) }
{
    let mut kept = Vec::new(alloc);
    let mut sent = Vec::new(alloc);
    for (key, item) in items.into_vec() {
        divide_one(alloc, request, key, item, &mut kept, &mut sent)?;
    }
    Ok(Divided {
        kept: Named::from_sorted(kept),
        sent: Named::from_sorted(sent),
    })
}

fn divide_one<R: KeyedRequest>(
    alloc: Global,
    request: &R,
    key: Text,
    item: Decision<R::Checked>,
    kept: &mut Vec<(Text, Decision<R::Kept>)>,
    sent: &mut Vec<(Text, R::Sent)>,
) -> Result<(), NoMemory>
where
    R::Checked: Drop,
    R::Kept: Drop,
    R::Sent: Drop,
    ensures kept { let one = kept_one (R.keep request.now) item in
        OnOk result (kept.new.items ≡ kept.old.items ++ (key, one) ∷ []) }
    ensures sent { let some = sent_one (R.send request.now) key item in
        OnOk result (sent.new.items ≡ sent.old.items ++ some) }
{
    match item {
        Decision::Granted(granted) => {
            let again = key.copy(alloc)?;
            let (stays, goes) = request.divide(alloc, granted)?;
            sent.push((again, goes))?;
            kept.push((key, Decision::Granted(stays)))?;
            Ok(())
        }
        Decision::Refused(code) => {
            kept.push((key, Decision::Refused(code)))?;
            Ok(())
        }
    }
}

/// What comes of a request with these items: a call with what is granted, or the reply at once if no key is granted.
pub fn request_outcome<R: KeyedRequest, A: KeyedReply>(
    alloc: Global,
    request: &R,
    reply: &A,
    state: &mut R::Checking,
    items: Named<R::Item>,
) -> Result<Outcome<Named<R::Sent>, Named<Decision<R::Kept>>, A::Message>, NoMemory>
where
    R::Item: Drop,
    R::Checked: Drop,
    R::Kept: Drop,
    R::Sent: Drop,
    A::Given: Drop,
    A::Message: Drop,
    ensures outcome { let it = request.now in
        let decided = checked (R.check it) state.old items in
        IfOk result (λ o. o ≡ request_outcome (R.keep it) (R.send it) (A.response reply.now) decided) }
    ensures state { OnOk result (state.new ≡ checked_state (R.check request.now) state.old items) }
{
    let decided = check_all(alloc, request, state, items)?;
    let divided = divide_all(alloc, request, decided)?;
    call_with(alloc, reply, divided)
}

fn call_with<K, S, A: KeyedReply>(
    alloc: Global,
    reply: &A,
    divided: Divided<K, S>,
) -> Result<Outcome<Named<S>, Named<Decision<K>>, A::Message>, NoMemory>
where
    K: Drop,
    S: Drop,
    A::Given: Drop,
    A::Message: Drop,
    ensures { IfOk result (λ o. o ≡ called (A.response reply.now) divided.kept divided.sent) }
{
    if divided.sent.len() == 0 {
        let sendings = refused_reply(alloc, reply, divided.kept)?;
        return Ok(Outcome::Replies(sendings));
    }
    Ok(Outcome::Calls {
        call: divided.sent,
        pending: divided.kept,
    })
}
