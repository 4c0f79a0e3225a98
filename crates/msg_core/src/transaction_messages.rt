//! The messages of the Transaction protocol (18).
ghost use Rattle.std.specs.Prelude.{◌≡◌, pos};
ghost use Rattle.std.specs.List.{AllByRecursion};
ghost use Rattle.etp_schema.specs.Family.{IsFound, IsAgain};
ghost use Rattle.msg_core.specs.Transaction.{transaction_body, transaction_kinds};

use etp_schema::Typed;
use etp_values::{Id16, List, Text};

/// Starts a transaction.
#[derive(Debug, Drop)]
pub struct StartTransaction {
    /// Whether the transaction only reads.
    pub read_only: bool,
    /// A note from the client.
    pub message: Text,
    /// The dataspaces that the transaction may use; empty for the default one alone.
    pub dataspace_uris: List<Text>,
}

impl Typed for StartTransaction {
    ghost use Rattle.msg_core.specs.Transaction.{start_transaction_form};

    ghost form = { start_transaction_form };
}

/// Answers StartTransaction.
#[derive(Debug, Drop)]
pub struct StartTransactionResponse {
    /// The transaction's identity.
    pub transaction_uuid: Id16,
    /// Whether it succeeded.
    pub successful: bool,
    /// Why it failed; empty if it succeeded.
    pub failure_reason: Text,
}

impl Typed for StartTransactionResponse {
    ghost use Rattle.msg_core.specs.Transaction.{start_transaction_response_form};

    ghost form = { start_transaction_response_form };
}

/// Asks for all writes of the transaction to be done at once.
#[derive(Debug, Drop)]
pub struct CommitTransaction {
    /// The transaction's identity.
    pub transaction_uuid: Id16,
}

impl Typed for CommitTransaction {
    ghost use Rattle.msg_core.specs.Transaction.{commit_transaction_form};

    ghost form = { commit_transaction_form };
}

/// Discards the transaction and its writes.
#[derive(Debug, Drop)]
pub struct RollbackTransaction {
    /// The transaction's identity.
    pub transaction_uuid: Id16,
}

impl Typed for RollbackTransaction {
    ghost use Rattle.msg_core.specs.Transaction.{rollback_transaction_form};

    ghost form = { rollback_transaction_form };
}

/// Answers CommitTransaction.
#[derive(Debug, Drop)]
pub struct CommitTransactionResponse {
    /// The transaction's identity.
    pub transaction_uuid: Id16,
    /// Whether it succeeded.
    pub successful: bool,
    /// Why it failed; empty if it succeeded.
    pub failure_reason: Text,
}

impl Typed for CommitTransactionResponse {
    ghost use Rattle.msg_core.specs.Transaction.{commit_transaction_response_form};

    ghost form = { commit_transaction_response_form };
}

/// Answers RollbackTransaction.
#[derive(Debug, Drop)]
pub struct RollbackTransactionResponse {
    /// The transaction's identity.
    pub transaction_uuid: Id16,
    /// Whether it succeeded.
    pub successful: bool,
    /// Why it failed; empty if it succeeded.
    pub failure_reason: Text,
}

impl Typed for RollbackTransactionResponse {
    ghost use Rattle.msg_core.specs.Transaction.{rollback_transaction_response_form};

    ghost form = { rollback_transaction_response_form };
}

/// A message of the Transaction protocol.
#[derive(Debug, Drop)]
pub enum TransactionMessage {
    StartTransaction(StartTransaction),
    StartTransactionResponse(StartTransactionResponse),
    CommitTransaction(CommitTransaction),
    RollbackTransaction(RollbackTransaction),
    CommitTransactionResponse(CommitTransactionResponse),
    RollbackTransactionResponse(RollbackTransactionResponse),
}

impl TransactionMessage {
    /// The message's number.
    pub fn kind(&self) -> i32
        ensures { result ≡ pos (transaction_body self.now).number }
    {
        match self {
            TransactionMessage::StartTransaction(_) => 1,
            TransactionMessage::StartTransactionResponse(_) => 2,
            TransactionMessage::CommitTransaction(_) => 3,
            TransactionMessage::RollbackTransaction(_) => 4,
            TransactionMessage::CommitTransactionResponse(_) => 5,
            TransactionMessage::RollbackTransactionResponse(_) => 6,
        }
    }
}

/// How TransactionMessage and the trees of its bodies relate: each message is found by its number and its body is read as that message, and
/// what is read from a body is written as that body.
pub fn transaction_laws()
    ensures found { (x : TransactionMessage) → IsFound transaction_kinds transaction_body x }
    ensures again { AllByRecursion (IsAgain transaction_body) transaction_kinds }
{}
