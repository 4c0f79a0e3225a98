//! Subscriptions to channels.

/// A subscription: the index that it starts at, and the place of the journal from which it is sent changes.
#[derive(Clone, Copy, Debug, Drop, PartialEq, Eq)]
pub struct Sub {
    pub channel: i64,
    pub start: i64,
    pub from: u64,
    pub all: bool,
}
