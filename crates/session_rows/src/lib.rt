//! What each request of a session is answered, protocol by protocol.
//!
//! A request is given what it has to know about the session, and returns an [`Outcome`](keyed_requests::Outcome): its reply, or a call of
//! the store with what the store's answer is to be joined with. [`opening_of`] is RequestSession; [`dataspace_outcome`] and
//! [`dataspace_reply`] are the two halves of a request of the Dataspace protocol, [`object_outcome`] and [`object_reply`] those of one of
//! the Store protocol, and [`transaction_request`] and [`transaction_reply`] those of one of the Transaction protocol.
#![tactic(auto)]

mod dataspaces;
mod formats;
mod objects;
mod opening;
mod spaces;
mod transactions;

pub use dataspaces::{
    DataspaceOutcome, DataspacePending, MAX_CUSTOM_SIZE, dataspace_outcome, dataspace_reply,
};
pub use formats::Format;
pub use objects::{MAX_EXTRAS_SIZE, ObjectOutcome, ObjectPending, object_outcome, object_reply};
pub use opening::{Opening, PART_LIMIT, opening_of};
pub use transactions::{
    MAX_SPACES, Transacting, TransactionOutcome, TransactionPending, transaction_reply,
    transaction_request,
};
