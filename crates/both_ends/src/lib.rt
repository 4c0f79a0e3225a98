//! Laws of a client together with the session of a server, for proofs only.
#![tactic(auto)]

mod laws;

pub use laws::{
    clients_have_points, handed_copies_are_points, news_are_handed_on, notices_are_changes,
    replies_accept, stops_are_told,
};
