//! What comes of an attempt.
use store_machine::{Answer, StoreCall};

/// What comes of asking without waiting.
#[derive(Drop)]
pub enum Tried {
    /// The store was free, and answered.
    Done(Answer),
    /// Another session had the store at that moment. The call is returned unchanged.
    Busy(StoreCall),
}
