//! A session's pass to the store.
ghost use Rattle.std.specs.Prelude.{◌≡◌};
ghost use Rattle.turn_book.specs.Words.{view};
ghost use Rattle.store_hub.specs.Kept.{IsKept};

use crate::book::StoreBook;
use turn_book::Seat;

/// What a session knows of the one history, and how many of its entries are the session's own.
#[derive(Drop)]
pub struct Pass {
    pub(crate) seat: Seat<StoreBook>,
    pub(crate) number: u64,
    pub(crate) entries: u64,
    ghost kept: { IsKept number entries (view seat) },
}

impl Pass {
    /// The session's number: the place of the entry that lets it in.
    pub fn number(&self) -> u64
        ensures { result ≡ self.now.number }
    {
        self.number
    }
}
