//! What the two halves of a request under keys say about one key.
ghost use Rattle.std.specs.Prelude.{◌≡◌, IfOk, OnOk, take, drop};

use crate::keys::Decision;
use etp_values::{List, Named, NoMemory, Text};
use std::alloc::Global;
use std::collections::VecDeque;
use std::marker::Model;

/// The first half of a request whose items are under keys: what is checked for a key, and what of it is kept and called for.
pub trait KeyedRequest {
    ghost use Rattle.std.specs.Prelude.{◌≡◌, ℕ, List as Items, IfOk, OnOk};
    ghost use Rattle.keyed_requests.specs.declared.keys.Decision.{Decision};

    /// What is under a key.
    type Item;

    /// What is granted of an item before the call.
    type Checked;

    /// What of it is kept while the call is answered.
    type Kept;

    /// What of it is sent in the call.
    type Sent;

    /// What a key that is checked passes on to the next one; `()` if none looks at another.
    type Checking;

    ghost check: { Self → Self.Checking → Self.Item → Self.Checking × Decision Self.Checked };

    ghost keep: { Self → Self.Checked → Self.Kept };

    ghost send: { Self → Self.Checked → Self.Sent };

    /// Decides on one key by its item, before the call.
    fn check(
        &self,
        alloc: Global,
        state: &mut Self::Checking,
        item: Self::Item,
    ) -> Result<Decision<Self::Checked>, NoMemory>
        ensures decision { IfOk result (λ d. d ≡ (check self.now state.old item).1) }
        ensures state { OnOk result (state.new ≡ (check self.now state.old item).0) };

    /// Divides what was granted into what is kept and what is sent.
    fn divide(
        &self,
        alloc: Global,
        checked: Self::Checked,
    ) -> Result<(Self::Kept, Self::Sent), NoMemory>
        ensures kept { IfOk result (λ r. r.0 ≡ keep self.now checked) }
        ensures sent { IfOk result (λ r. r.1 ≡ send self.now checked) };
}

/// The second half of such a request: what is decided about a granted key by what was found for it, and the response.
pub trait KeyedReply {
    ghost use Rattle.std.specs.Prelude.{◌≡◌, ℕ, List as Items, IfOk, OnOk};
    ghost use Rattle.keyed_requests.specs.declared.keys.Decision.{Decision};

    /// What was kept of a granted key.
    type Kept;

    /// What is found for a granted key, a number of times.
    type Found;

    /// What is granted of a key in the end.
    type Given;

    /// What a key that is finished passes on to the next one; `()` if none looks at another.
    type Finishing;

    /// The messages of the request's protocol.
    type Message;

    ghost width: { ℕ };

    ghost finish: { Self → Self.Finishing → Items ℕ → Self.Kept → Items Self.Found → Self.Finishing × Decision Self.Given };

    ghost response: { Self → Items (Items ℕ × Self.Given) → Self.Message };

    /// How many findings each granted key has.
    fn width(&self) -> usize
        ensures { result ≡ width };

    /// Decides on one granted key by what was found for it.
    fn finish(
        &self,
        alloc: Global,
        state: &mut Self::Finishing,
        key: &Text,
        kept: Self::Kept,
        found: List<Self::Found>,
    ) -> Result<Decision<Self::Given>, NoMemory>
        ensures decision { IfOk result (λ d. d ≡ (finish self.now state.old key.now kept found).1) }
        ensures state { OnOk result (state.new ≡ (finish self.now state.old key.now kept found).0) };

    /// The response that grants these keys.
    fn response(&self, granted: Named<Self::Given>) -> Self::Message
        ensures { result ≡ response self.now granted };
}

/// What was found for the granted keys of a request, in their order.
#[derive(Drop)]
pub struct Findings<F> {
    items: VecDeque<F>,
}

impl<F> Model for Findings<F> {
    ghost use Rattle.std.specs.Prelude.{List};

    ghost Value = { List F };

    ghost view = { λ f. f.items.items };
}

impl<F> Findings<F> {
    /// The findings in this order.
    pub fn from_vec(items: Vec<F>) -> Findings<F>
        ensures { result ≡ items.items }
    {
        Findings {
            items: VecDeque::from(items),
        }
    }

    /// Takes out this many of the first findings; all that are left if there are fewer.
    pub(crate) fn split(&mut self, alloc: Global, count: usize) -> Result<List<F>, NoMemory>
    where
        F: Drop,
        ensures front { IfOk result (λ front. front ≡ take count self.old) }
        ensures rest { OnOk result (self.new ≡ drop count self.old) }
    {
        let mut out = Vec::new(alloc);
        for _i in 0..count {
            match self.items.pop_front() {
                Some(item) => out.push(item)?,
                None => return Ok(List::from_vec(out)),
            }
        }
        Ok(List::from_vec(out))
    }
}
