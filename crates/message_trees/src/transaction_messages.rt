//! The messages of the Transaction protocol as trees.
//!
//! `schema/write` writes all below the imports from `schema/messages.txt`.
ghost use Rattle.msg_core.specs.Transaction.{transaction_body, transaction_kinds};

use crate::body_in_tree::BodyInTree;
use crate::in_tree::InTree;
use crate::record_fields::{fields_of, tree_of};
use avro_bin::Tree;
use etp_values::NoMemory;
use msg_core::{
    CommitTransaction, CommitTransactionResponse, RollbackTransaction, RollbackTransactionResponse,
    StartTransaction, StartTransactionResponse, TransactionMessage,
};
use std::alloc::Global;

impl InTree for StartTransaction {
    #[tactic(auto, unfolding(etp_schema::specs::Form::Holds))]
    fn to_tree(&self, alloc: Global) -> Result<Tree, NoMemory> {
        tree_of(
            alloc,
            (&self.read_only, (&self.message, (&self.dataspace_uris, ()))),
        )
    }

    fn from_tree(alloc: Global, tree: Tree) -> Result<StartTransaction, NoMemory> {
        let (read_only, (message, (dataspace_uris, ()))) = fields_of(alloc, tree)?;
        Ok(StartTransaction {
            read_only,
            message,
            dataspace_uris,
        })
    }
}

impl InTree for StartTransactionResponse {
    #[tactic(auto, unfolding(etp_schema::specs::Form::Holds))]
    fn to_tree(&self, alloc: Global) -> Result<Tree, NoMemory> {
        tree_of(
            alloc,
            (
                &self.transaction_uuid,
                (&self.successful, (&self.failure_reason, ())),
            ),
        )
    }

    fn from_tree(alloc: Global, tree: Tree) -> Result<StartTransactionResponse, NoMemory> {
        let (transaction_uuid, (successful, (failure_reason, ()))) = fields_of(alloc, tree)?;
        Ok(StartTransactionResponse {
            transaction_uuid,
            successful,
            failure_reason,
        })
    }
}

impl InTree for CommitTransaction {
    #[tactic(auto, unfolding(etp_schema::specs::Form::Holds))]
    fn to_tree(&self, alloc: Global) -> Result<Tree, NoMemory> {
        tree_of(alloc, (&self.transaction_uuid, ()))
    }

    fn from_tree(alloc: Global, tree: Tree) -> Result<CommitTransaction, NoMemory> {
        let (transaction_uuid, ()) = fields_of(alloc, tree)?;
        Ok(CommitTransaction { transaction_uuid })
    }
}

impl InTree for RollbackTransaction {
    #[tactic(auto, unfolding(etp_schema::specs::Form::Holds))]
    fn to_tree(&self, alloc: Global) -> Result<Tree, NoMemory> {
        tree_of(alloc, (&self.transaction_uuid, ()))
    }

    fn from_tree(alloc: Global, tree: Tree) -> Result<RollbackTransaction, NoMemory> {
        let (transaction_uuid, ()) = fields_of(alloc, tree)?;
        Ok(RollbackTransaction { transaction_uuid })
    }
}

impl InTree for CommitTransactionResponse {
    #[tactic(auto, unfolding(etp_schema::specs::Form::Holds))]
    fn to_tree(&self, alloc: Global) -> Result<Tree, NoMemory> {
        tree_of(
            alloc,
            (
                &self.transaction_uuid,
                (&self.successful, (&self.failure_reason, ())),
            ),
        )
    }

    fn from_tree(alloc: Global, tree: Tree) -> Result<CommitTransactionResponse, NoMemory> {
        let (transaction_uuid, (successful, (failure_reason, ()))) = fields_of(alloc, tree)?;
        Ok(CommitTransactionResponse {
            transaction_uuid,
            successful,
            failure_reason,
        })
    }
}

impl InTree for RollbackTransactionResponse {
    #[tactic(auto, unfolding(etp_schema::specs::Form::Holds))]
    fn to_tree(&self, alloc: Global) -> Result<Tree, NoMemory> {
        tree_of(
            alloc,
            (
                &self.transaction_uuid,
                (&self.successful, (&self.failure_reason, ())),
            ),
        )
    }

    fn from_tree(alloc: Global, tree: Tree) -> Result<RollbackTransactionResponse, NoMemory> {
        let (transaction_uuid, (successful, (failure_reason, ()))) = fields_of(alloc, tree)?;
        Ok(RollbackTransactionResponse {
            transaction_uuid,
            successful,
            failure_reason,
        })
    }
}

impl BodyInTree for TransactionMessage {
    ghost use Rattle.msg_core.specs.Transaction.{transaction_body, transaction_kinds};

    ghost body = { transaction_body };

    ghost kinds = { transaction_kinds };

    #[tactic(auto, unfolding(etp_schema::specs::Form::Holds))]
    fn to_tree(&self, alloc: Global) -> Result<Tree, NoMemory> {
        match self {
            TransactionMessage::StartTransaction(message) => message.to_tree(alloc),
            TransactionMessage::StartTransactionResponse(message) => message.to_tree(alloc),
            TransactionMessage::CommitTransaction(message) => message.to_tree(alloc),
            TransactionMessage::RollbackTransaction(message) => message.to_tree(alloc),
            TransactionMessage::CommitTransactionResponse(message) => message.to_tree(alloc),
            TransactionMessage::RollbackTransactionResponse(message) => message.to_tree(alloc),
        }
    }

    fn from_tree(
        alloc: Global,
        kind: i32,
        tree: Tree,
    ) -> Result<Option<TransactionMessage>, NoMemory> {
        match kind {
            1 => Ok(Some(TransactionMessage::StartTransaction(StartTransaction::from_tree(
                alloc, tree,
            )?))),
            2 => Ok(Some(TransactionMessage::StartTransactionResponse(
                StartTransactionResponse::from_tree(alloc, tree)?,
            ))),
            3 => Ok(Some(TransactionMessage::CommitTransaction(CommitTransaction::from_tree(
                alloc, tree,
            )?))),
            4 => Ok(Some(TransactionMessage::RollbackTransaction(RollbackTransaction::from_tree(
                alloc, tree,
            )?))),
            5 => Ok(Some(TransactionMessage::CommitTransactionResponse(
                CommitTransactionResponse::from_tree(alloc, tree)?,
            ))),
            6 => Ok(Some(TransactionMessage::RollbackTransactionResponse(
                RollbackTransactionResponse::from_tree(alloc, tree)?,
            ))),
            _ => Ok(None),
        }
    }
}
