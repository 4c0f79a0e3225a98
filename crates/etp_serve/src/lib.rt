//! Serves sessions over links, from one store.
//!
//! [`serve_session`] is a session from its entering to its end: turn by turn it takes an item from its [`Link`], passes a message to the
//! session's machine, has the store answer the machine's call, sends what the machine says, and then polls. Its contract (`Serves` in
//! `specs/Served`) is in terms of whole lists: what the session was sent is what a run of the machine says, over the one history of all
//! sessions, with each call answered at a place of that history. Whatever others do between these places, a transaction that it commits is
//! answered as if it were alone at the place of its commit, and of a channel it is sent the stream of its subscription (`IsServed`).
//!
//! [`serve_all`] serves the links that a [`Listener`] gives out, each in a thread of its own. Its contract (`ServesAll` in
//! `specs/Accepted`) says for each link what became of it: the session that was served over it, or why there was none.
//!
//! [`closing_laws`] says that this also holds over the journal that the store has in the end (`ServedOver` in `specs/Closing`).
//!
//! A turn is made of events (`specs/Events`), and an event of an answer of the store and of messages that are sent (`specs/Steps`). How the
//! serving of a session ended is an [`Ended`], and what the link shows of it is `HasCause` in `specs/Ends`.
//!
//! [`Link`]: etp_outside::Link [`Listener`]: etp_outside::Listener
#![tactic(auto)]

mod accepting;
mod children;
mod ended;
mod endings;
mod laws;
mod served;
mod serving;
mod steps;
mod thread;

pub use accepting::serve_all;
pub use ended::Ended;
pub use laws::closing_laws;
pub use served::Served;
pub use serving::serve_session;
