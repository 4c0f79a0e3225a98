//! The session of one client, as a pure machine.
//!
//! [`Session`] is what a server keeps of a connection. Bytes and a moment go in by [`Session::take`], and at most
//! one [`StoreCall`](store_machine::StoreCall) comes out; the store's answer goes in by [`Session::give`]; the
//! messages to send come out by [`Session::next_out`], until there are none. It opens no socket, reads no clock and
//! touches no store, so each of its calls is a step of the machine in `specs/Machine`: `taken` and `given` are its
//! two half steps, and `specs/Run` has whole runs over a history.
//!
//! An event is handled in stages: the bytes arrive as a typed message, or are refused (`specs/Arriving`); the phase says
//! whether the message is accepted; then its protocol answers it ([`session_rows`]), knowing nothing about the session
//! but what it is given. In a transaction the keys that it looks at are noted before it sees what was found there
//! (`specs/Noting`). Its reply is given headers at the end of the half step, in one place (`specs/Sending`),
//! and encoded when it is sent.
//!
//! On its way out a message has four types: a row's `Sending`, with its addressee a `Saying`, cut into `Part`s, with headers
//! `Outgoing`.
#![tactic(auto)]

mod arriving;
mod laws;
mod machine;
mod noting;
mod outbox;
mod parting;
mod replies;
mod session;
mod state;

pub use laws::{answer_fits, run_streams, runs, serial, steps};
pub use session::Session;
pub use state::{
    Addressee, Arrived, End, Live, Outgoing, Part, Pending, Phase, Request, Saying, StagedPending,
};
