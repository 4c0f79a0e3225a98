//! Values by name.
ghost use Rattle.std.specs.Prelude.{◌≡◌, ◌<◌, ◌^◌, ◌+◌, length, get_or, drop, [], ◌∷◌, List, ℕ, IfOk};
ghost use Rattle.std.specs.Bool.{MatchBool};
ghost use Rattle.std.specs.Ordering.{nat_cmp, is_lt};
ghost use Rattle.std.specs.Cmp.Lexicographic.{slice_cmp};
ghost use Rattle.std.specs.List.Sorted.{IsStrictlySortedBy};
ghost use Rattle.std.specs.Map.{keys_of, values_of, lookup};
ghost use Rattle.std.specs.Option.{option_copied};
ghost use Rattle.std.specs.Str.{bytes_eq};
ghost use Rattle.etp_values.specs.Named.{OrdersPairs, StandsStill};

use crate::memory::NoMemory;
use crate::text::Text;
use std::alloc::Global;
use std::marker::Model;

/// Values under distinct names, in the byte order of the names.
#[derive(Debug)]
pub struct Named<T> {
    items: Vec<(Text, T)>,
}

/// Written out, so that whatever holds one drops it by a single call.
impl<T: Drop> Drop for Named<T> {
    fn drop(self) {
        let Named { items } = self;
        drop(items);
    }
}

impl<T> Model for Named<T> {
    ghost use Rattle.std.specs.Prelude.{List, ℕ};
    ghost use Rattle.std.specs.Ordering.{nat_cmp};
    ghost use Rattle.std.specs.Cmp.Lexicographic.{slice_cmp};
    ghost use Rattle.std.specs.List.Sorted.{IsStrictlySortedBy};
    ghost use Rattle.std.specs.Map.{keys_of};
    ghost use Rattle.std.specs.Coded.{coded_list, coded×, coded_ℕ};

    ghost Value = { List (List ℕ × T) };

    ghost coded = { coded_list (coded× (coded_list coded_ℕ) T.code) };

    ghost view = { λ n. n.items.items };

    ghost invariant = { λ n. IsStrictlySortedBy (slice_cmp nat_cmp) (keys_of n.items.items) };
}

impl<T> Named<T> {
    /// No values.
    pub fn new(alloc: Global) -> Named<T>
        ensures { result ≡ [] }
    {
        Named {
            items: Vec::new(alloc),
        }
    }

    /// Values from names that are already in order.
    pub fn from_sorted(items: Vec<(Text, T)>) -> Named<T>
        requires { IsStrictlySortedBy (slice_cmp nat_cmp) (keys_of items.items) }
        ensures { result ≡ items.items }
    {
        Named { items }
    }

    /// The names and their values, in order.
    pub fn into_vec(self) -> Vec<(Text, T)>
        ensures items { result.items ≡ self }
        ensures sorted { IsStrictlySortedBy (slice_cmp nat_cmp) (keys_of self) }
    {
        let Named { items } = self;
        items
    }

    /// Borrows the names and their values.
    pub fn as_slice(&self) -> &[(Text, T)]
        ensures items { result.now ≡ self.now }
        ensures sorted { IsStrictlySortedBy (slice_cmp nat_cmp) (keys_of self.now) }
    {
        self.items.as_slice()
    }

    /// How many names there are.
    pub fn len(&self) -> usize
        ensures len { result ≡ length self.now }
        ensures small { result < 2 ^ 63 }
        ensures sorted { IsStrictlySortedBy (slice_cmp nat_cmp) (keys_of self.now) }
    {
        self.items.len()
    }

    /// The name and the value at an index.
    pub fn at(&self, i: usize) -> (&Text, &T)
        requires { i < length self.now }
        ensures pair { drop i self.now ≡ (result.0.now, result.1.now) ∷ drop (i + 1) self.now }
        ensures value { result.1.now ≡ get_or (values_of self.now) i result.1.now }
    {
        let pair = &self.items[i];
        (&pair.0, &pair.1)
    }

    /// The value under this name, if there is one.
    pub fn get(&self, name: &str) -> Option<&T>
        ensures { option_copied result ≡ lookup (bytes_eq name.now) self.now }
    {
        for pair in self.as_slice() {
            if name == pair.0.as_str() {
                return Some(&pair.1);
            }
        }
        None
    }
}

impl<T: Drop> Named<T> {
    /// These names and values in the order of the names, or `None` if a name occurs twice.
    pub fn from_pairs(mut items: Vec<(Text, T)>) -> Result<Option<Named<T>>, NoMemory>
        ensures { IfOk result (λ named. OrdersPairs items.items named) }
    {
        items.sort_by(|a, b| a.0.cmp(&b.0))?;
        if rises(&items) {
            Ok(Some(Named { items }))
        } else {
            Ok(None)
        }
    }
}

impl<T: PartialEq> PartialEq for Named<T> {
    ghost use Rattle.std.specs.Prelude.{◌&&◌};
    ghost use Rattle.std.specs.Bool.{nat_eq};
    ghost use Rattle.std.specs.Cmp.{and_per, on_per, partial_equiv_from_equiv};
    ghost use Rattle.std.specs.Cmp.Lexicographic.{pointwise, lists_per, nat_list_eq_equiv};

    ghost eq = { pointwise (λ x y. pointwise nat_eq x.0 y.0 && T.eq x.1 y.1) };

    ghost laws = { lists_per (and_per (on_per (λ t. t.0) (partial_equiv_from_equiv nat_list_eq_equiv)) (on_per (λ t. t.1) T.laws)) };

    fn eq(&self, other: &Named<T>) -> bool {
        self.items.as_slice() == other.items.as_slice()
    }
}

impl<T: Eq> Eq for Named<T> {
    ghost use Rattle.std.specs.Cmp.{and_equiv, on_equiv};
    ghost use Rattle.std.specs.Cmp.Lexicographic.{lists_equiv, nat_list_eq_equiv};

    ghost laws = { lists_equiv (and_equiv (on_equiv (λ t. t.0) nat_list_eq_equiv) (on_equiv (λ t. t.1) T.Eq.laws)) };
}

fn is_below(a: &Text, b: &Text) -> bool
    ensures { result ≡ is_lt (slice_cmp nat_cmp a.now b.now) }
{
    *a < *b
}

/// Whether each name is below the next.
fn rises<T>(items: &[(Text, T)]) -> bool
    ensures cases { MatchBool result (IsStrictlySortedBy (slice_cmp nat_cmp) (keys_of items.now)) (StandsStill (keys_of items.now)) }
{
    let mut i = 1;
    while i < items.len() {
        if !is_below(&items[i - 1].0, &items[i].0) {
            return false;
        }
        i += 1;
    }
    true
}
