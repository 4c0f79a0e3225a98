//! What a session is made of.
use array_rows::ArrayPending;
use channel_rows::{LoadPending, SubscribePending};
use etp_frame::{Header, Message};
use etp_values::{ErrorCode, List};
use session_rows::{DataspacePending, ObjectPending, TransactionPending};
use tx_stage::Key;

/// How a session ended.
#[derive(Clone, Copy, Debug, PartialEq, Eq, Drop)]
pub enum End {
    /// The client closed it.
    Closed,
    /// Its RequestSession was refused for this reason.
    Refused(ErrorCode),
    /// There was more to send than own message ids are left.
    IdsSpent,
}

/// The phase of a session that has not ended.
#[derive(Clone, Copy, Debug, PartialEq, Eq, Drop)]
pub enum Live {
    /// No RequestSession was accepted yet.
    Waiting,
    /// The client's requests are accepted.
    Open,
}

/// The phase of a session.
#[derive(Clone, Copy, Debug, PartialEq, Eq, Drop)]
pub enum Phase {
    Live(Live),
    /// Nothing is accepted any more.
    Ended(End),
}

/// The message that is answered: the protocol that its header names, and its id.
#[derive(Clone, Copy, Debug, PartialEq, Eq, Drop)]
pub struct Request {
    pub protocol: i32,
    pub id: i64,
}

/// What a request in a transaction keeps while the store is asked, by its protocol.
#[derive(Drop)]
pub enum StagedPending {
    Objects(ObjectPending),
    Arrays(ArrayPending),
}

/// A request that awaits the store's answer, with what its protocol kept of it.
#[derive(Drop)]
pub enum Pending {
    Dataspaces {
        request: Request,
        pending: DataspacePending,
    },
    Objects {
        request: Request,
        pending: ObjectPending,
    },
    Arrays {
        request: Request,
        pending: ArrayPending,
    },
    /// A request of Store or DataArray in a transaction, with the keys that it looks at.
    Staged {
        request: Request,
        keys: List<Key>,
        pending: StagedPending,
    },
    Transactions {
        request: Request,
        pending: TransactionPending,
    },
    Loads {
        request: Request,
        pending: LoadPending,
    },
    /// A request of the ChannelSubscribe protocol, or a poll, whose request has no id.
    Subscriptions {
        request: Request,
        pending: SubscribePending,
    },
}

/// The addressee of a message.
#[derive(Clone, Copy, Debug, PartialEq, Eq, Drop)]
pub enum Addressee {
    /// The request, to acknowledge only that it came.
    Receipt,
    /// The request, as part of its reply.
    Request,
    /// Nobody who asked: a notice.
    Nobody,
}

/// A message to be sent, of any size.
#[derive(Drop)]
pub struct Saying {
    pub to: Addressee,
    pub message: Message,
}

/// A part of what is sent, and whether it is the last one.
#[derive(Drop)]
pub struct Part {
    pub to: Addressee,
    pub message: Message,
    pub last: bool,
}

/// A message to send.
#[derive(Drop)]
pub struct Outgoing {
    pub header: Header,
    pub message: Message,
}

/// An event at first sight.
#[derive(Drop)]
pub enum Arrived {
    /// A message that is too long or has no header.
    Unreadable(ErrorCode),
    /// A message whose id doesn't follow the last one.
    Stale(Request),
    /// A message that its protocol does not have.
    Refused {
        request: Request,
        code: ErrorCode,
    },
    /// A message with its header, and the moment at which it came.
    Fresh {
        header: Header,
        moment: i64,
        message: Message,
    },
    /// A poll, with the length of the store's journal.
    Polled(u64),
}
