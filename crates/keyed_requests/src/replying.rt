//! The second half of a request: its granted keys are finished, and its reply is made.
ghost use Rattle.std.specs.Prelude.{◌≡◌, ◌++◌, IfOk, OnOk, take, drop};
ghost use Rattle.keyed_requests.specs.Keyed.{finished, finished_one, finished_state, granted, granted_one, refused_keys, refused_one, request_reply, keyed_replies, response_unless_refused, unasked, width_of};

use crate::keys::Decision;
use crate::request::{Findings, KeyedReply};
use crate::sending::{Sending, refused_keys_alone, reply_alone, response_and_refused};
use etp_values::{ErrorCode, List, Named, NoMemory, Text};
use std::alloc::Global;

/// Each granted key finished by what was found for it, in the order of the keys.
fn finish_all<A: KeyedReply>(
    alloc: Global,
    reply: &A,
    state: &mut A::Finishing,
    items: Named<Decision<A::Kept>>,
    findings: &mut Findings<A::Found>,
) -> Result<Named<Decision<A::Given>>, NoMemory>
where
    A::Kept: Drop,
    A::Given: Drop,
    A::Found: Drop,
    ensures finished { let one = A.finish reply.now in
        IfOk result (λ l. l ≡ finished one A.width state.old items findings.old) }
    ensures state { let one = A.finish reply.now in
        OnOk result (state.new ≡ finished_state one A.width state.old items findings.old) }
{
    let mut out = Vec::new(alloc);
    for (key, item) in items.into_vec() {
        let decision = finish_one(alloc, reply, state, &key, item, findings)?;
        out.push((key, decision))?;
    }
    Ok(Named::from_sorted(out))
}

fn finish_one<A: KeyedReply>(
    alloc: Global,
    reply: &A,
    state: &mut A::Finishing,
    key: &Text,
    item: Decision<A::Kept>,
    findings: &mut Findings<A::Found>,
) -> Result<Decision<A::Given>, NoMemory>
where
    A::Kept: Drop,
    A::Found: Drop,
    ensures decision { let mine = take (width_of A.width item) findings.old in
        IfOk result (λ d. d ≡ (finished_one (A.finish reply.now) state.old key.now item mine).1) }
    ensures state { let mine = take (width_of A.width item) findings.old in
        OnOk result (state.new ≡ (finished_one (A.finish reply.now) state.old key.now item mine).0) }
    ensures rest { OnOk result (findings.new ≡ drop (width_of A.width item) findings.old) }
{
    match item {
        Decision::Granted(kept) => {
            let found = findings.split(alloc, reply.width())?;
            reply.finish(alloc, state, key, kept, found)
        }
        Decision::Refused(code) => Ok(Decision::Refused(code)),
    }
}

/// The keys that were granted, and those that were refused.
#[derive(Drop)]
pub struct Sorted<T> {
    pub granted: Named<T>,
    pub refused: Named<ErrorCode>,
}

/// Decided keys, sorted into those that were granted and those that were refused.
pub fn sort_all<T>(alloc: Global, items: Named<Decision<T>>) -> Result<Sorted<T>, NoMemory>
where
    T: Drop,
    ensures granted { IfOk result (λ s. s.granted ≡ granted items) }
    ensures refused { IfOk result (λ s. s.refused ≡ refused_keys items) }
{
    let mut granted = Vec::new(alloc);
    let mut refused = Vec::new(alloc);
    for (key, item) in items.into_vec() {
        sort_one(key, item, &mut granted, &mut refused)?;
    }
    Ok(Sorted {
        granted: Named::from_sorted(granted),
        refused: Named::from_sorted(refused),
    })
}

fn sort_one<T>(
    key: Text,
    item: Decision<T>,
    granted: &mut Vec<(Text, T)>,
    refused: &mut Vec<(Text, ErrorCode)>,
) -> Result<(), NoMemory>
where
    T: Drop,
    ensures granted { OnOk result (granted.new.items ≡ granted.old.items ++ granted_one key item) }
    ensures refused { OnOk result (refused.new.items ≡ refused.old.items ++ refused_one key item) }
{
    match item {
        Decision::Granted(given) => {
            granted.push((key, given))?;
            Ok(())
        }
        Decision::Refused(code) => {
            refused.push((key, code))?;
            Ok(())
        }
    }
}

/// The response, followed by the refused keys, if there are any; only these if no key is granted.
#[tactic(auto, using(crate::proofs::CaseLemmas::both_given, crate::proofs::CaseLemmas::none_given))]
pub fn response_unless_refused<M>(
    alloc: Global,
    is_granted: bool,
    response: M,
    refused: Named<ErrorCode>,
) -> Result<List<Sending<M>>, NoMemory>
where
    M: Drop,
    ensures { IfOk result (λ l. l ≡ response_unless_refused is_granted response refused) }
{
    if refused.len() == 0 {
        return reply_alone(alloc, response);
    }
    if !is_granted {
        return refused_keys_alone(alloc, refused);
    }
    response_and_refused(alloc, response, refused)
}

#[tactic(auto, using(crate::proofs::CaseLemmas::both_sent))]
fn reply_with<A: KeyedReply>(
    alloc: Global,
    reply: &A,
    granted: Named<A::Given>,
    refused: Named<ErrorCode>,
) -> Result<List<Sending<A::Message>>, NoMemory>
where
    A::Given: Drop,
    A::Message: Drop,
    ensures { IfOk result (λ l. l ≡ keyed_replies (A.response reply.now) granted refused) }
{
    if refused.len() == 0 {
        return reply_alone(alloc, reply.response(granted));
    }
    if granted.len() == 0 {
        return refused_keys_alone(alloc, refused);
    }
    response_and_refused(alloc, reply.response(granted), refused)
}

/// The reply to a request of which no key was granted.
pub(crate) fn refused_reply<K, A: KeyedReply>(
    alloc: Global,
    reply: &A,
    items: Named<Decision<K>>,
) -> Result<List<Sending<A::Message>>, NoMemory>
where
    K: Drop,
    A::Given: Drop,
    A::Message: Drop,
    ensures { IfOk result (λ sendings. sendings ≡ unasked (A.response reply.now) items) }
{
    let sorted = sort_all(alloc, items)?;
    reply_with(alloc, reply, Named::new(alloc), sorted.refused)
}

/// The reply to a request, from its checked keys and what was found for those that were sent.
pub fn request_reply<A: KeyedReply>(
    alloc: Global,
    reply: &A,
    state: &mut A::Finishing,
    items: Named<Decision<A::Kept>>,
    mut findings: Findings<A::Found>,
) -> Result<List<Sending<A::Message>>, NoMemory>
where
    A::Kept: Drop,
    A::Given: Drop,
    A::Found: Drop,
    A::Message: Drop,
    ensures sendings { let decided = finished (A.finish reply.now) A.width state.old items findings in
        IfOk result (λ sendings. sendings ≡ request_reply (A.response reply.now) decided) }
    ensures state { let one = A.finish reply.now in
        OnOk result (state.new ≡ finished_state one A.width state.old items findings) }
{
    let decided = finish_all(alloc, reply, state, items, &mut findings)?;
    let sorted = sort_all(alloc, decided)?;
    reply_with(alloc, reply, sorted.granted, sorted.refused)
}
