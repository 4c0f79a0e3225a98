//! What comes of a request.
ghost use Rattle.std.specs.Prelude.{◌≡◌, IfOk, [], ◌∷◌};
ghost use Rattle.keyed_requests.specs.Sending.{refusal_alone, reply_alone};

use etp_values::{ErrorCode, List, Named, NoMemory};
use std::alloc::Global;

/// A message that answers a request, or that follows its reply. It has no header yet.
#[derive(Debug, Drop)]
pub enum Sending<M> {
    /// A message of the request's protocol.
    Reply(M),
    /// The request is refused as a whole.
    Refusal(ErrorCode),
    /// Keys of the request are refused.
    RefusedKeys(Named<ErrorCode>),
    /// A message of the request's protocol that is not part of the reply and answers no request.
    Notice(M),
}

/// What comes of a request: its reply, or a call, with what its answer is to be joined with.
#[derive(Debug, Drop)]
pub enum Outcome<C, P, M> {
    Replies(List<Sending<M>>),
    Calls { call: C, pending: P },
}

fn one<M>(alloc: Global, only: Sending<M>) -> Result<List<Sending<M>>, NoMemory>
where
    M: Drop,
    ensures { IfOk result (λ sendings. sendings ≡ only ∷ []) }
{
    let mut sendings = Vec::new(alloc);
    sendings.push(only)?;
    Ok(List::from_vec(sendings))
}

/// The reply of this one message.
pub fn reply_alone<M>(alloc: Global, message: M) -> Result<List<Sending<M>>, NoMemory>
where
    M: Drop,
    ensures { IfOk result (λ sendings. sendings ≡ reply_alone message) }
{
    one(alloc, Sending::Reply(message))
}

/// The reply with which a request is refused as a whole.
pub fn refusal_alone<M>(alloc: Global, code: ErrorCode) -> Result<List<Sending<M>>, NoMemory>
where
    M: Drop,
    ensures { IfOk result (λ sendings. sendings ≡ refusal_alone code) }
{
    one(alloc, Sending::Refusal(code))
}

/// A request that is refused as a whole makes no call.
pub fn refused_outcome<C, P, M>(
    alloc: Global,
    code: ErrorCode,
) -> Result<Outcome<C, P, M>, NoMemory>
where
    M: Drop,
    ensures { IfOk result (λ o. o ≡ Outcome.Replies (refusal_alone code)) }
{
    Ok(Outcome::Replies(refusal_alone(alloc, code)?))
}

/// The reply that has only refused keys.
pub(crate) fn refused_keys_alone<M>(
    alloc: Global,
    keys: Named<ErrorCode>,
) -> Result<List<Sending<M>>, NoMemory>
where
    M: Drop,
    ensures { IfOk result (λ sendings. sendings ≡ Sending.RefusedKeys keys ∷ []) }
{
    one(alloc, Sending::RefusedKeys(keys))
}

/// A response, and after it the keys that are refused.
pub(crate) fn response_and_refused<M>(
    alloc: Global,
    response: M,
    keys: Named<ErrorCode>,
) -> Result<List<Sending<M>>, NoMemory>
where
    M: Drop,
    ensures { IfOk result (λ l. l ≡ Sending.Reply response ∷ Sending.RefusedKeys keys ∷ []) }
{
    let mut sendings = Vec::new(alloc);
    sendings.push(Sending::Reply(response))?;
    sendings.push(Sending::RefusedKeys(keys))?;
    Ok(List::from_vec(sendings))
}
