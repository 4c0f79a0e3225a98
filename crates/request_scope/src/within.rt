//! What the keys of a request pass on.
ghost use Rattle.std.specs.Prelude.{◌≡◌, IfOk, OnOk};
ghost use Rattle.array_store.specs.Arrays.{size_of};
ghost use Rattle.request_scope.specs.Scope.{array_over, begun, is_read_only, may_use, object_over, paying, pays, stage_refusal, staging, stands};

use crate::staging::{array_in, object_in, put_in, value_of_array, value_of_object};
use array_store::{ArrayKey, ArrayRecord, array_bytes};
use etp_values::{AnyArray, Copied, ErrorCode, NoMemory, StoreUri, Text};
use object_store::ObjectRecord;
use std::alloc::Global;
use tx_stage::{Key, MAX_PAYLOAD, Op, Stage};

/// What each key of a request passes on to the next one: the open transaction, if there is one, and how many bytes of payload the request
/// has counted so far.
#[derive(Drop)]
pub struct Scope {
    pub stage: Option<Stage>,
    pub paid: u64,
}

/// Whether an open transaction only reads.
pub fn is_read_only(stage: &Option<Stage>) -> bool
    ensures { result ≡ is_read_only stage.now }
{
    match stage {
        Some(stage) => stage.read_only(),
        None => false,
    }
}

/// Whether a dataspace may be touched: any, unless a transaction is open that wasn't started for it.
pub fn may_use(stage: &Option<Stage>, path: &Text) -> bool
    ensures { result ≡ may_use stage.now path.now }
{
    match stage {
        Some(stage) => stage.has_space(path),
        None => true,
    }
}

impl Scope {
    /// The scope before any key.
    pub fn new(stage: Option<Stage>) -> Scope
        ensures { result ≡ begun stage }
    {
        Scope { stage, paid: 0 }
    }

    /// Counts this many more bytes of payload, if the request then counts at most 67,108,864. Otherwise the count is unchanged.
    pub fn pay(&mut self, size: u64) -> bool
        ensures paid { result ≡ pays self.old size }
        ensures state { self.new ≡ paying self.old size }
    {
        let paid = self.paid.saturating_add(size);
        if paid > MAX_PAYLOAD {
            return false;
        }
        self.paid = paid;
        true
    }

    /// The same for the elements of an array.
    #[tactic(auto, using(crate::proofs::PayingLemmas::pays_capped, crate::proofs::PayingLemmas::paying_capped))]
    pub fn pay_elements(&mut self, values: &AnyArray) -> bool
        ensures paid { result ≡ pays self.old (size_of values.now) }
        ensures state { self.new ≡ paying self.old (size_of values.now) }
    {
        self.pay(array_bytes(values))
    }

    /// The object of a URI, if the store has this one: with the transaction's operations applied.
    pub fn object(
        &self,
        alloc: Global,
        uri: &StoreUri,
        found: Option<ObjectRecord>,
    ) -> Result<Option<ObjectRecord>, NoMemory>
        ensures { IfOk result (λ r. r ≡ object_over self.now.stage uri.now found) }
    {
        match &self.stage {
            None => Ok(found),
            Some(stage) => {
                let key = Key::Object(uri.copy(alloc)?);
                let value = stage.overlay(&key, value_of_object(found))?;
                Ok(object_in(value))
            }
        }
    }

    /// The array of a key, if the store has this one: with the transaction's operations applied.
    pub fn array(
        &self,
        alloc: Global,
        key: &ArrayKey,
        found: Option<ArrayRecord>,
    ) -> Result<Option<ArrayRecord>, NoMemory>
        ensures { IfOk result (λ r. r ≡ array_over self.now.stage key.now found) }
    {
        match &self.stage {
            None => Ok(found),
            Some(stage) => {
                let key = Key::Array(key.copy(alloc)?);
                let value = stage.overlay(&key, value_of_array(found))?;
                Ok(array_in(value))
            }
        }
    }

    /// Whether something exists at a key, by whether the store has something there.
    pub fn stands(&self, key: &Key, found: bool) -> bool
        ensures { result ≡ stands self.now.stage key.now found }
    {
        match &self.stage {
            None => found,
            Some(stage) => stage.there(key, found),
        }
    }

    /// Stages an operation, or returns why it is refused; without an open transaction every one is.
    pub fn put(&mut self, op: Op) -> Result<Option<ErrorCode>, NoMemory>
        ensures refusal { IfOk result (λ code. code ≡ stage_refusal self.old.stage op) }
        ensures state { OnOk result (self.new ≡ staging self.old op) }
    {
        match &mut self.stage {
            None => {
                drop(op);
                Ok(Some(ErrorCode::InvalidState))
            }
            Some(stage) => put_in(stage, op),
        }
    }
}
