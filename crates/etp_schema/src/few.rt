//! A list that usually has one item.
ghost use Rattle.std.specs.Prelude.{◌≡◌, ◌∷◌, []};

use etp_values::List;
use std::marker::Model;

/// A list of a few items; a single one is stored in the value itself, without allocation. A contract sees the items in order, as it does
/// those of a [`List`].
#[derive(Debug, Drop)]
pub struct Few<T> {
    held: Held<T>,
}

/// Where the items are stored.
#[derive(Debug, Drop)]
enum Held<T> {
    One([T; 1]),
    Many(List<T>),
}

impl<T> Model for Few<T> {
    ghost use Rattle.std.specs.Prelude.{List as Items};
    ghost use Rattle.std.specs.Coded.{coded_list};

    ghost Value = { Items T };

    ghost coded = { coded_list T.code };

    ghost use Rattle.etp_schema.specs.Held.{items_in};

    ghost view = { λ f. items_in f.held };
}

impl<T> Few<T> {
    /// One item.
    pub fn one(item: T) -> Few<T>
        ensures { result ≡ item ∷ [] }
    {
        Few {
            held: Held::One([item]),
        }
    }

    /// The items of a list, moved and not copied.
    pub fn of_list(list: List<T>) -> Few<T>
        ensures { result ≡ list }
    {
        Few {
            held: Held::Many(list),
        }
    }

    /// Borrows the items.
    pub fn as_slice(&self) -> &[T]
        ensures { result.now ≡ self.now }
    {
        match &self.held {
            Held::One(item) => item,
            Held::Many(items) => items.as_slice(),
        }
    }
}
