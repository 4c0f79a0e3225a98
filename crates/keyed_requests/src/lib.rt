//! Requests whose items are under keys.
//!
//! Each key of such a request is granted or refused on its own, in three steps. In the first half ([`KeyedRequest`], [`request_outcome`])
//! each key is checked, and what is granted is divided into what is kept and what is sent in a call; in the second ([`KeyedReply`],
//! [`request_reply`]), when the call is answered, each granted key is finished with what was found for it. Refused keys keep their position
//! among the others until the reply, which has the granted keys first. If nothing of a key is kept and one finding decides it,
//! [`PlainRequest`] and [`PlainReply`] require less.
//!
//! Nothing here knows a message, a call or a session: they are parameters of [`Sending`] and [`Outcome`].
#![tactic(auto)]

mod asking;
mod keys;
mod laws;
mod plain;
mod replying;
mod request;
mod sending;
mod uris;
mod values;

pub use asking::{check_all, request_outcome};
pub use keys::{Decision, MAX_KEY_LEN, MAX_KEYS, keys_refusal};
pub use laws::each_key_once;
pub use plain::{Plain, PlainReply, PlainRequest};
pub use replying::{Sorted, request_reply, response_unless_refused, sort_all};
pub use request::{Findings, KeyedReply, KeyedRequest};
pub use sending::{Outcome, Sending, refusal_alone, refused_outcome, reply_alone};
pub use uris::object_uri;
pub use values::{first_found, joined_values, sent_values};
