//! A sorted map, owned or borrowed.
ghost use Rattle.std.specs.Prelude.{◌≡◌, ◌↔◌, [], None, length, map, false, IsTrue, IsFalse, IsSome, IsErr, IfOk, IfErr, OnOk, OnErr};
ghost use Rattle.std.specs.Fn.{FnOnceTakesAtMut};
ghost use Rattle.std.specs.Option.{option_copied, option_copied_mut, option_map, ForSome};
ghost use Rattle.std.specs.Map.{keys_of, remove_entry};
ghost use Rattle.std.specs.Borrow.{sem};
ghost use Rattle.std.specs.BTreeMap.{is_at};
ghost use Rattle.std.specs.Ordering.{is_eq};
ghost use Rattle.std.specs.BTreeMap.Range.{entries_between};
ghost use Rattle.std.specs.Range.Bound.{bound_map};
ghost use Rattle.managed.specs.declared.map.ManagedMap.TheVariants.{Borrowed, Owned};

mod borrowed;
mod iter;
mod iter_mut;
mod loan;
mod places;
mod range;
mod search;
mod update;

use crate::InsertError;
pub use iter::Iter;
use iter::Pairs;
pub use iter_mut::IterMut;
use iter_mut::{over_pairs, over_places, pairs_of};
use loan::value_in_tree;
pub use range::Range;
use range::Span;
use std::collections::BTreeMap;
use std::fmt;
use std::ops::Bound;

/// A map in the order of its keys, over a tree that it owns or over places that it borrows.
#[derive(Drop)]
pub enum ManagedMap<'a, K: Ord, V> {
    /// The places of a caller: the pairs by rising key, then the empty places.
    Borrowed(&'a mut [Option<(K, V)>]),
    /// A tree on the heap.
    Owned(BTreeMap<K, V>),
}

impl<'a, K: Ord, V> From<&'a mut [Option<(K, V)>]> for ManagedMap<'a, K, V> {
    ghost from_gives = { λ value managed. managed ≡ Borrowed value };

    fn from(value: &'a mut [Option<(K, V)>]) -> Self {
        ManagedMap::Borrowed(value)
    }
}

impl<'a, K: Ord, V> From<BTreeMap<K, V>> for ManagedMap<'a, K, V> {
    ghost from_gives = { λ value managed. managed ≡ Owned value };

    fn from(value: BTreeMap<K, V>) -> Self {
        ManagedMap::Owned(value)
    }
}

impl<'a, K: Ord + fmt::Debug, V: fmt::Debug> fmt::Debug for ManagedMap<'a, K, V> {
    fn fmt<W: fmt::Write>(&self, f: &mut fmt::Formatter<W>) -> fmt::Result {
        match self {
            ManagedMap::Borrowed(places) => f.debug_tuple("Borrowed").field(places).finish(),
            ManagedMap::Owned(tree) => f.debug_tuple("Owned").field(tree).finish(),
        }
    }
}

impl<'a, K: Ord, V> ManagedMap<'a, K, V> {
    ghost use Rattle.managed.specs.SortedMap.{pairs, value_at, inserted, IsFull, IsRefusal, IsSortedMap, KeepsStorage};
    ghost use Rattle.managed.specs.Walk.{pairs_to_write};
    ghost use Rattle.managed.specs.MapLoans.{lends_in_map};
    ghost use Rattle.managed.specs.Updates.{IsUpdated, IsWrittenBy, Computes, Leaves};
    ghost use Rattle.managed.specs.WalkLoans.{KeepsTreeKeys, lends_walk};

    /// Whether the keys rise strictly and the empty places come last, as each other call but `clear`
    /// asks of borrowed places.
    pub fn is_sorted(&self) -> bool
        ensures { IsTrue result ↔ IsSortedMap K.cmp self.now }
    {
        match self {
            ManagedMap::Borrowed(places) => borrowed::is_sorted(places),
            ManagedMap::Owned(_) => true,
        }
    }

    /// Removes each pair.
    pub fn clear(&mut self)
    where
        K: Drop,
        V: Drop,
        ensures empty { pairs self.new ≡ [] }
        ensures within { KeepsStorage self.old self.new }
        ensures sorted { IsSortedMap K.cmp self.new }
    {
        match self {
            ManagedMap::Borrowed(places) => borrowed::clear(places),
            ManagedMap::Owned(tree) => tree.clear(),
        }
    }

    /// The value of a key.
    pub fn get(&self, key: &K) -> Option<&V>
        requires { IsSortedMap K.cmp self.now }
        ensures { option_copied result ≡ value_at K.cmp (pairs self.now) key.now }
    {
        match self {
            ManagedMap::Borrowed(places) => borrowed::get(places, key),
            ManagedMap::Owned(tree) => tree.get(key),
        }
    }

    /// Puts a pair in, and gives the value that the key had. A borrowed map takes the new key for the
    /// one that is there, and an owned map keeps it.
    pub fn insert(&mut self, key: K, new_value: V) -> Result<Option<V>, InsertError<K, V>>
    where
        K: Drop,
        V: Drop,
        requires { IsSortedMap K.cmp self.old }
        ensures value { IfOk result (λ old. old ≡ value_at K.cmp (pairs self.old) key) }
        ensures ok { OnOk result (pairs self.new ≡ inserted K.cmp self.old key new_value) }

        // A refusal changes nothing. Full places refuse each new key, and nothing else does but a lack
        // of memory for a tree.
        ensures err { OnErr result (pairs self.new ≡ pairs self.old) }
        ensures cause { IfErr result (IsRefusal K.cmp self.old key new_value) }
        ensures refuses { IsFull self.old → value_at K.cmp (pairs self.old) key ≡ None → IsErr result }
        ensures within { KeepsStorage self.old self.new }
        ensures sorted { IsSortedMap K.cmp self.new }
    {
        match self {
            ManagedMap::Borrowed(places) => borrowed::insert(places, key, new_value),
            ManagedMap::Owned(tree) => match tree.insert(key, new_value) {
                Ok(old) => Ok(old),
                Err(_) => Err(InsertError::NoMemory),
            },
        }
    }

    /// Takes the value of a key out.
    pub fn remove(&mut self, key: &K) -> Option<V>
    where
        K: Drop,
        requires { IsSortedMap K.cmp self.old }
        ensures value { result ≡ value_at K.cmp (pairs self.old) key.now }
        ensures rest { pairs self.new ≡ remove_entry (is_at (K.cmp key.now)) (pairs self.old) }
        ensures within { KeepsStorage self.old self.new }
        ensures sorted { IsSortedMap K.cmp self.new }
    {
        match self {
            ManagedMap::Borrowed(places) => borrowed::remove(places, key),
            ManagedMap::Owned(tree) => tree.remove(key),
        }
    }

    /// Whether there is no pair.
    pub fn is_empty(&self) -> bool
        requires { IsSortedMap K.cmp self.now }
        ensures { IsTrue result ↔ (pairs self.now ≡ []) }
    {
        self.len() == 0
    }

    /// How many pairs there are.
    pub fn len(&self) -> usize
        requires { IsSortedMap K.cmp self.now }
        ensures { result ≡ length (pairs self.now) }
    {
        match self {
            ManagedMap::Borrowed(places) => borrowed::len(places),
            ManagedMap::Owned(tree) => tree.len(),
        }
    }

    /// The value of a key, for writing.
    pub fn get_mut(&mut self, key: &K) -> Option<&mut V>
        requires { IsSortedMap K.cmp self.old }
        ensures* written { sem 𝓛 (lends_in_map K.row V.row K.Ord self.entry key.now result) }
        ensures value { option_copied_mut result ≡ value_at K.cmp (pairs self.old) key.now }
    {
        match self {
            ManagedMap::Borrowed(places) => borrowed::get_mut(places, key),
            ManagedMap::Owned(tree) => value_in_tree(tree, key),
        }
    }

    /// Calls a closure at each key and value, in key order, to write the values.
    pub fn update<F: FnMut(&K, &mut V)>(&mut self, f: F)
    where
        K: Drop,
        V: Drop,
        requires sorted { IsSortedMap K.cmp self.old }
        requires callable { F.IsAlwaysCallable f }

        // Each value is what the call at its key left, as each call finds the closure. Where the closure
        // makes of each pair what h says, so does the map.
        ensures written { IsUpdated F.FnMut f (pairs self.old) (pairs self.new) }
        ensures value { (h : K × V → K × V) → Computes F.FnMut f h → pairs self.new ≡ map h (pairs self.old) }
        ensures keys { keys_of (pairs self.new) ≡ keys_of (pairs self.old) }
        ensures within { KeepsStorage self.old self.new }
        ensures sorted { IsSortedMap K.cmp self.new }
    {
        match self {
            ManagedMap::Borrowed(places) => update::each_in_places(places, f),
            ManagedMap::Owned(tree) => update::each_in_tree(tree, f),
        }
    }

    /// Calls a closure at the value of a key, to write it, and tells whether the key is there.
    pub fn write<F: FnOnce(&mut V)>(&mut self, key: &K, f: F) -> bool
        requires sorted { IsSortedMap K.cmp self.old }
        requires callable { ForSome (value_at K.cmp (pairs self.old) key.now) (FnOnceTakesAtMut F.FnOnce f) }
        ensures found { IsTrue result ↔ IsSome (value_at K.cmp (pairs self.old) key.now) }

        // The value is what the call left, and no other pair changes. Where the call leaves what h says
        // of the value, so does the map.
        ensures written { IsTrue result → IsWrittenBy F.FnOnce f K.cmp key.now (pairs self.old) (pairs self.new) }
        ensures value { (h : V → V) → Leaves F.FnOnce f h
            → value_at K.cmp (pairs self.new) key.now ≡ option_map h (value_at K.cmp (pairs self.old) key.now) }
        ensures others { (other : K) → is_eq (K.cmp key.now other) ≡ false
            → value_at K.cmp (pairs self.new) other ≡ value_at K.cmp (pairs self.old) other }
        ensures empty { IsFalse result → pairs self.new ≡ pairs self.old }
        ensures keys { keys_of (pairs self.new) ≡ keys_of (pairs self.old) }
        ensures within { KeepsStorage self.old self.new }
        ensures sorted { IsSortedMap K.cmp self.new }
    {
        match self {
            ManagedMap::Borrowed(places) => update::one_in_places(places, key, f),
            ManagedMap::Owned(tree) => update::one_in_tree(tree, key, f),
        }
    }

    /// The pairs in key order, each once.
    pub fn iter(&self) -> Iter<'_, K, V>
        requires { IsSortedMap K.cmp self.now }
        ensures { result ≡ pairs self.now }
    {
        Iter {
            pairs: match self {
                ManagedMap::Borrowed(places) => Pairs::Borrowed(places),
                ManagedMap::Owned(tree) => Pairs::Owned(tree.iter()),
            },
        }
    }

    /// The pairs in key order, each once, with their values for writing.
    pub fn iter_mut(&mut self) -> IterMut<'_, K, V>
        requires { IsSortedMap K.cmp self.old }
        ensures* written { sem 𝓛 (lends_walk K.row V.row K.Ord self.entry result) }
        ensures others { KeepsTreeKeys self.old }
        ensures rest { pairs_to_write result ≡ pairs self.old }
    {
        match self {
            ManagedMap::Borrowed(places) => over_places(places),
            ManagedMap::Owned(tree) => over_pairs(pairs_of(tree)),
        }
    }

    /// The pairs whose keys are between two bounds, each once: in key order by `next`, and from the last
    /// by `next_back`. There are none where the bounds are reversed, or equal and one is excluded.
    pub fn range(&self, from: Bound<&K>, to: Bound<&K>) -> Range<'_, K, V>
        requires { IsSortedMap K.cmp self.now }
        ensures { result ≡ entries_between K.cmp (bound_map (λ x. x.now) from.entry) (bound_map (λ x. x.now) to.entry) (pairs self.now) }
    {
        Range {
            span: match self {
                ManagedMap::Borrowed(places) => Span::Borrowed(range::between(places, from, to)),
                ManagedMap::Owned(tree) => range::between_in_tree(tree, from, to),
            },
        }
    }
}
