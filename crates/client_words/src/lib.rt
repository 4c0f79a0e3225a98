//! What the words of the client's command line ask for.
//!
//! `ping URL`, `spaces URL`, `put URL URI FILE`, `get URL URI`, `delete URL URI`, `load URL URI`, `range URL URI FROM TO`, `watch URL URI COUNT`
//! and `follow URL URI START`: URL is a server's address, URI names an object in its store, and FROM, TO and START are indexes of a channel.
//! [`form_of`] reads words without options.
#![tactic(auto)]

mod address;
mod words;

pub use address::read_address;
pub use words::{Command, Form, form_of};
