//! The second half of a request whose keys pass a scope on.
ghost use Rattle.std.specs.Prelude.{◌≡◌, IfOk};
ghost use Rattle.request_scope.specs.Reply.{scoped_reply};

use crate::within::Scope;
use etp_values::{List, Named, NoMemory};
use keyed_requests::{Decision, Findings, KeyedReply, Sending, request_reply};
use std::alloc::Global;
use tx_stage::Stage;

/// What a request is answered with, and the open transaction, if there is one, with what the request staged in it.
#[derive(Drop)]
pub struct Answered<M> {
    pub stage: Option<Stage>,
    pub sendings: List<Sending<M>>,
}

/// The reply to a request, and what it leaves of the open transaction.
pub fn scoped_reply<A: KeyedReply<Finishing = Scope>>(
    alloc: Global,
    reply: &A,
    stage: Option<Stage>,
    items: Named<Decision<A::Kept>>,
    findings: Findings<A::Found>,
) -> Result<Answered<A::Message>, NoMemory>
where
    A::Kept: Drop,
    A::Given: Drop,
    A::Found: Drop,
    A::Message: Drop,
    ensures { IfOk result (λ r. r ≡ scoped_reply (A.finish reply.now) A.width (A.response reply.now) stage items findings) }
{
    let mut scope = Scope::new(stage);
    let sendings = request_reply(alloc, reply, &mut scope, items, findings)?;
    let Scope { stage, .. } = scope;
    Ok(Answered { stage, sendings })
}
