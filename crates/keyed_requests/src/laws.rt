//! Laws of requests under keys.
ghost use Rattle.std.specs.Map.{keys_of};
ghost use Rattle.keyed_requests.specs.Keyed.{checked, finished, kept};
ghost use Rattle.keyed_requests.specs.Laws.{AnswersEach};

use crate::request::{Findings, KeyedReply, KeyedRequest};
use etp_values::Named;

/// Each key of a request that makes a call is in exactly one of the response and the exception, whatever was found.
pub fn each_key_once<R: KeyedRequest, A: KeyedReply<Kept = R::Kept>>(
    request: &R,
    reply: &A,
    checking: &R::Checking,
    finishing: &A::Finishing,
    items: &Named<R::Item>,
    findings: &Findings<A::Found>,
)
    ensures { let pending = kept (R.keep request.now) (checked (R.check request.now) checking.now items.now) in
        let decided = finished (A.finish reply.now) A.width finishing.now pending findings.now in
        AnswersEach (keys_of items.now) decided }
{}
