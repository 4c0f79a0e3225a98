//! The store as a book that is shared in turns.
use etp_values::Boxed;
use server_config::Config;
use store_machine::{Entry, Store};
use turn_book::Book;

/// The store as a book: its entries, and its configuration, which never changes. The store is in a box, so that a turn moves one
/// pointer and not the whole store.
#[derive(Drop)]
pub struct StoreBook {
    pub(crate) store: Boxed<Store>,
}

impl Book for StoreBook {
    ghost use Rattle.store_hub.specs.Words.{by_of, enters_of};

    type Entry = Entry;

    type Fixed = Config;

    ghost journal = { λ b. b.store.journal };

    ghost fixed = { λ b. b.store.config };

    ghost by = { by_of };

    ghost enters = { enters_of };

    fn len(&self) -> u64 {
        self.store.get().entries()
    }
}
