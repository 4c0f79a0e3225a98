//! A session's subscriptions, and what is still to be sent to them.
//!
//! [`Subs`] has the subscriptions of a session, at most one for a channel, and their cursor: the place of the journal up to which the store
//! was asked for changes. What the store answers goes in by [`Subs::fill`] and comes out by [`Subs::next`], one [`ToldChange`] for each
//! change that a subscription is sent, in the order of the journal. [`stop_cause`] says when subscriptions end because they were not asked
//! for in time.
//!
//! The laws [`handed_in_order`] and [`streams`] say for any list of calls what a subscriber is handed: from its start on the changes of its
//! channel one after the other, and none once its subscription is gone.
#![tactic(auto)]

mod laws;
mod pending;
mod standing;
mod stop;
mod subs;
mod told_change;

pub use laws::{handed_in_order, streams};
pub use stop::{StopCause, stop_cause};
pub use subs::{MAX_PENDING, MAX_SUBS, Subs};
pub use told_change::ToldChange;
