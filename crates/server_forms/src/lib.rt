//! The server: sessions over WebSockets from one store.
//!
//! `CONFIG ADDRESS` reads the server's configuration from the file CONFIG, listens at ADDRESS, and serves each link that comes, many at a
//! time, over one new store. `CONFIG ADDRESS SESSIONS` does so for that many links. Once no more links come and each session has ended, a
//! report of the store's journal is written to the output: how many entries it has, and how many each session wrote.
//!
//! [`run_server`] does that over any host, listener, sink and clock. [`run_program`] does it over the system, and is all that a `main`
//! calls.
#![tactic(auto)]

mod command;
mod door;
mod log;
mod program;
mod report;
mod run;

pub use program::{finish, run_program};
pub use run::run_server;
