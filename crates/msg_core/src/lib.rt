//! The messages of the protocols Core, Dataspace and Transaction, with their records.
//!
//! Each message and record is a struct with the schema's fields in order, and is [`Typed`](etp_schema::Typed): its values correspond one to
//! one to those of its schema. The messages of a protocol are an enum, such as [`CoreMessage`], which knows each message's number and reads
//! a body by it. The forms and the tables of numbers are in `specs/Core`, `specs/Dataspace` and `specs/Transaction`.
//!
//! All times are in microseconds since 1970-01-01 UTC.
#![tactic(auto)]

mod core_messages;
mod core_on_wire;
mod dataspace_messages;
mod dataspace_on_wire;
mod transaction_messages;
mod transaction_on_wire;

pub use core_messages::{
    Acknowledge, CloseSession, CoreMessage, ErrorInfo, OpenSession, Ping, Pong, ProtocolException,
    RequestSession, SupportedDataObject, SupportedProtocol, Version, core_laws,
};
pub use dataspace_messages::{
    Dataspace, DataspaceMessage, DeleteDataspaces, DeleteDataspacesResponse, GetDataspaces,
    GetDataspacesResponse, PutDataspaces, PutDataspacesResponse, dataspace_laws,
};
pub use transaction_messages::{
    CommitTransaction, CommitTransactionResponse, RollbackTransaction, RollbackTransactionResponse,
    StartTransaction, StartTransactionResponse, TransactionMessage, transaction_laws,
};
