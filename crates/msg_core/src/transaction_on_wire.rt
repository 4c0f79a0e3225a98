//! The messages of the Transaction protocol from and to bytes.
//!
//! `schema/write` writes all below the imports from `schema/messages.txt`.
ghost use Rattle.std.specs.Prelude.{◌≡◌, OnOk};
ghost use Rattle.avro_bin.specs.Plain.{plain, Writes};
ghost use Rattle.avro_bin.specs.Shape.{HasSchema, FitsTree};
ghost use Rattle.etp_schema.specs.Family.{kind_in};
ghost use Rattle.etp_schema.specs.Measure.{measured};
ghost use Rattle.etp_schema.specs.Reading.{Reads, kind_at};
ghost use Rattle.msg_core.specs.Transaction.{transaction_body, transaction_kinds};

use crate::transaction_messages::{
    CommitTransaction, CommitTransactionResponse, RollbackTransaction, RollbackTransactionResponse,
    StartTransaction, StartTransactionResponse, TransactionMessage,
};
use avro_bin::Fault;
use etp_schema::{Measure, OnWire, Reader, measure_fields, write_fields};
use etp_values::NoMemory;

impl OnWire for StartTransaction {
    #[tactic(auto, using(etp_schema::proofs::RecordLemmas::record_read, etp_schema::proofs::RecordLemmas::record_fails))]
    fn read(from: &mut Reader<'_>) -> Result<StartTransaction, Fault> {
        let (read_only, (message, (dataspace_uris, ()))) = from.fields()?;
        Ok(StartTransaction {
            read_only,
            message,
            dataspace_uris,
        })
    }

    #[tactic(auto, unfolding(etp_schema::specs::Form::Holds))]
    fn write(&self, into: &mut Vec<u8>) -> Result<(), NoMemory> {
        write_fields(
            (&self.read_only, (&self.message, (&self.dataspace_uris, ()))),
            into,
        )
    }

    fn measure(&self) -> Measure {
        measure_fields((&self.read_only, (&self.message, (&self.dataspace_uris, ()))))
    }
}

impl OnWire for StartTransactionResponse {
    #[tactic(auto, using(etp_schema::proofs::RecordLemmas::record_read, etp_schema::proofs::RecordLemmas::record_fails))]
    fn read(from: &mut Reader<'_>) -> Result<StartTransactionResponse, Fault> {
        let (transaction_uuid, (successful, (failure_reason, ()))) = from.fields()?;
        Ok(StartTransactionResponse {
            transaction_uuid,
            successful,
            failure_reason,
        })
    }

    #[tactic(auto, unfolding(etp_schema::specs::Form::Holds))]
    fn write(&self, into: &mut Vec<u8>) -> Result<(), NoMemory> {
        write_fields(
            (
                &self.transaction_uuid,
                (&self.successful, (&self.failure_reason, ())),
            ),
            into,
        )
    }

    fn measure(&self) -> Measure {
        measure_fields((
            &self.transaction_uuid,
            (&self.successful, (&self.failure_reason, ())),
        ))
    }
}

impl OnWire for CommitTransaction {
    #[tactic(auto, using(etp_schema::proofs::RecordLemmas::record_read, etp_schema::proofs::RecordLemmas::record_fails))]
    fn read(from: &mut Reader<'_>) -> Result<CommitTransaction, Fault> {
        let (transaction_uuid, ()) = from.fields()?;
        Ok(CommitTransaction { transaction_uuid })
    }

    #[tactic(auto, unfolding(etp_schema::specs::Form::Holds))]
    fn write(&self, into: &mut Vec<u8>) -> Result<(), NoMemory> {
        write_fields((&self.transaction_uuid, ()), into)
    }

    fn measure(&self) -> Measure {
        measure_fields((&self.transaction_uuid, ()))
    }
}

impl OnWire for RollbackTransaction {
    #[tactic(auto, using(etp_schema::proofs::RecordLemmas::record_read, etp_schema::proofs::RecordLemmas::record_fails))]
    fn read(from: &mut Reader<'_>) -> Result<RollbackTransaction, Fault> {
        let (transaction_uuid, ()) = from.fields()?;
        Ok(RollbackTransaction { transaction_uuid })
    }

    #[tactic(auto, unfolding(etp_schema::specs::Form::Holds))]
    fn write(&self, into: &mut Vec<u8>) -> Result<(), NoMemory> {
        write_fields((&self.transaction_uuid, ()), into)
    }

    fn measure(&self) -> Measure {
        measure_fields((&self.transaction_uuid, ()))
    }
}

impl OnWire for CommitTransactionResponse {
    #[tactic(auto, using(etp_schema::proofs::RecordLemmas::record_read, etp_schema::proofs::RecordLemmas::record_fails))]
    fn read(from: &mut Reader<'_>) -> Result<CommitTransactionResponse, Fault> {
        let (transaction_uuid, (successful, (failure_reason, ()))) = from.fields()?;
        Ok(CommitTransactionResponse {
            transaction_uuid,
            successful,
            failure_reason,
        })
    }

    #[tactic(auto, unfolding(etp_schema::specs::Form::Holds))]
    fn write(&self, into: &mut Vec<u8>) -> Result<(), NoMemory> {
        write_fields(
            (
                &self.transaction_uuid,
                (&self.successful, (&self.failure_reason, ())),
            ),
            into,
        )
    }

    fn measure(&self) -> Measure {
        measure_fields((
            &self.transaction_uuid,
            (&self.successful, (&self.failure_reason, ())),
        ))
    }
}

impl OnWire for RollbackTransactionResponse {
    #[tactic(auto, using(etp_schema::proofs::RecordLemmas::record_read, etp_schema::proofs::RecordLemmas::record_fails))]
    fn read(from: &mut Reader<'_>) -> Result<RollbackTransactionResponse, Fault> {
        let (transaction_uuid, (successful, (failure_reason, ()))) = from.fields()?;
        Ok(RollbackTransactionResponse {
            transaction_uuid,
            successful,
            failure_reason,
        })
    }

    #[tactic(auto, unfolding(etp_schema::specs::Form::Holds))]
    fn write(&self, into: &mut Vec<u8>) -> Result<(), NoMemory> {
        write_fields(
            (
                &self.transaction_uuid,
                (&self.successful, (&self.failure_reason, ())),
            ),
            into,
        )
    }

    fn measure(&self) -> Measure {
        measure_fields((
            &self.transaction_uuid,
            (&self.successful, (&self.failure_reason, ())),
        ))
    }
}

impl TransactionMessage {
    /// The message of this number whose body is at the front of the rest, if the protocol has one.
    pub fn read(from: &mut Reader<'_>, kind: i32) -> Result<Option<TransactionMessage>, Fault>
        ensures { Reads (kind_at (kind_in transaction_kinds kind) from.old.left from.old.rest.now) result from.new }
    {
        match kind {
            1 => Ok(Some(TransactionMessage::StartTransaction(from.take()?))),
            2 => Ok(Some(TransactionMessage::StartTransactionResponse(from.take()?))),
            3 => Ok(Some(TransactionMessage::CommitTransaction(from.take()?))),
            4 => Ok(Some(TransactionMessage::RollbackTransaction(from.take()?))),
            5 => Ok(Some(TransactionMessage::CommitTransactionResponse(from.take()?))),
            6 => Ok(Some(TransactionMessage::RollbackTransactionResponse(from.take()?))),
            _ => Ok(None),
        }
    }

    /// Appends the written spelling of the body. After `NoMemory` what was there is still at the front.
    #[tactic(auto, unfolding(etp_schema::specs::Form::Holds))]
    pub fn write(&self, into: &mut Vec<u8>) -> Result<(), NoMemory>
        ensures written { Writes (plain (transaction_body self.now).value) into.old.items into.new.items result }
        ensures typed { OnOk result (HasSchema (transaction_body self.now).schema (transaction_body self.now).value) }
        ensures fits { OnOk result (FitsTree (transaction_body self.now).value) }
    {
        match self {
            TransactionMessage::StartTransaction(message) => message.write(into),
            TransactionMessage::StartTransactionResponse(message) => message.write(into),
            TransactionMessage::CommitTransaction(message) => message.write(into),
            TransactionMessage::RollbackTransaction(message) => message.write(into),
            TransactionMessage::CommitTransactionResponse(message) => message.write(into),
            TransactionMessage::RollbackTransactionResponse(message) => message.write(into),
        }
    }

    /// How much of a message the body takes. It does not allocate.
    pub fn measure(&self) -> Measure
        ensures { result ≡ measured (transaction_body self.now).value }
    {
        match self {
            TransactionMessage::StartTransaction(message) => message.measure(),
            TransactionMessage::StartTransactionResponse(message) => message.measure(),
            TransactionMessage::CommitTransaction(message) => message.measure(),
            TransactionMessage::RollbackTransaction(message) => message.measure(),
            TransactionMessage::CommitTransactionResponse(message) => message.measure(),
            TransactionMessage::RollbackTransactionResponse(message) => message.measure(),
        }
    }
}
