//! Requests whose keys have nothing but their items.
ghost use Rattle.std.specs.Prelude.{◌≡◌, IfOk, OnOk};
ghost use Rattle.keyed_requests.specs.Plain.{by_first, nothing};

use crate::keys::Decision;
use crate::request::{KeyedReply, KeyedRequest};
use etp_values::{ErrorCode, List, Named, NoMemory, Text};
use std::alloc::Global;

/// The first half of a request in which each key is checked by its item alone, and is sent as it was granted.
pub trait PlainRequest {
    ghost use Rattle.std.specs.Prelude.{◌≡◌, IfOk};
    ghost use Rattle.keyed_requests.specs.declared.keys.Decision.{Decision};

    /// What is under a key.
    type Item;

    /// What is granted of an item, and sent in the call.
    type Sent;

    ghost check: { Self → Self.Item → Decision Self.Sent };

    /// Decides on one key by its item, before the call.
    fn check(&self, alloc: Global, item: Self::Item) -> Result<Decision<Self::Sent>, NoMemory>
        ensures { IfOk result (λ d. d ≡ check self.now item) };
}

/// The second half of a request of which nothing is kept, and in which each key is decided by one finding.
pub trait PlainReply {
    ghost use Rattle.std.specs.Prelude.{◌≡◌, ℕ, List as Items, IfOk};
    ghost use Rattle.keyed_requests.specs.declared.keys.Decision.{Decision};

    /// What is found for a granted key.
    type Found;

    /// What is granted of a key in the end.
    type Given;

    /// The messages of the request's protocol.
    type Message;

    ghost decide: { Self → Self.Found → Decision Self.Given };

    ghost response: { Self → Items (Items ℕ × Self.Given) → Self.Message };

    /// Decides on one granted key by what was found for it.
    fn decide(&self, alloc: Global, found: &Self::Found) -> Result<Decision<Self::Given>, NoMemory>
        ensures { IfOk result (λ d. d ≡ decide self.now found.now) };

    /// The response that grants these keys.
    fn response(&self, granted: Named<Self::Given>) -> Self::Message
        ensures { result ≡ response self.now granted };
}

/// Half of a plain request as half of a keyed one. A key for which nothing was found is denied.
#[derive(Clone, Copy, Debug, Drop)]
pub struct Plain<R>(pub R);

impl<R: PlainRequest> KeyedRequest for Plain<R> {
    type Item = R::Item;

    type Checked = R::Sent;

    type Kept = ();

    type Sent = R::Sent;

    type Checking = ();

    ghost check = { λ plain s item. (s, R.check plain.0 item) };

    ghost keep = { λ plain checked. nothing };

    ghost send = { λ plain checked. checked };

    fn check(
        &self,
        alloc: Global,
        _state: &mut (),
        item: R::Item,
    ) -> Result<Decision<R::Sent>, NoMemory> {
        self.0.check(alloc, item)
    }

    fn divide(&self, _alloc: Global, checked: R::Sent) -> Result<((), R::Sent), NoMemory> {
        Ok(((), checked))
    }
}

impl<R: PlainReply> KeyedReply for Plain<R>
where
    R::Found: Drop,
{
    type Kept = ();

    type Found = R::Found;

    type Given = R::Given;

    type Finishing = ();

    type Message = R::Message;

    ghost width = { 1 };

    ghost finish = { λ plain s key kept found. (s, by_first (R.decide plain.0) found) };

    ghost response = { λ plain granted. R.response plain.0 granted };

    fn width(&self) -> usize {
        1
    }

    fn finish(
        &self,
        alloc: Global,
        _state: &mut (),
        _key: &Text,
        _kept: (),
        found: List<R::Found>,
    ) -> Result<Decision<R::Given>, NoMemory>
        ensures decision { IfOk result (λ d. d ≡ by_first (R.decide self.now.0) found) }
        ensures state { OnOk result (_state.new ≡ _state.old) }
    {
        match found.as_slice().first() {
            Some(found) => self.0.decide(alloc, found),
            None => Ok(Decision::Refused(ErrorCode::RequestDenied)),
        }
    }

    fn response(&self, granted: Named<R::Given>) -> R::Message
        ensures { result ≡ R.response self.now.0 granted }
    {
        self.0.response(granted)
    }
}
