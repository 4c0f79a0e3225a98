//! One store that the sessions of a server share, each in a thread of its own.
//!
//! A [`Hub`] keeps the store where threads reach it through a `&`, and gives them access one after the other. Each session has a [`Pass`],
//! which [`Hub::enter`] makes. What a pass knows is how far it has seen the one journal, the places at which its calls were answered, and
//! the passes that it met; this exists only in proofs (`known` in `specs/Passes.antt`). [`Hub::ask`] answers a call as the store answers it
//! at the journal of that moment, which begins with all that the pass has seen.
#![tactic(auto)]

mod book;
mod error;
mod hub;
mod laws;
mod pass;
mod tried;
mod turns;

pub use book::StoreBook;
pub use error::EnterError;
pub use hub::Hub;
pub use laws::{answers_read, pass_laws};
pub use pass::Pass;
pub use tried::Tried;
