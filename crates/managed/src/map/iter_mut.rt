//! The pairs of a map in key order, to write their values.
ghost use Rattle.std.specs.Prelude.{◌≡◌, Some, IfSome, length};
ghost use Rattle.std.specs.Option.{option_map};
ghost use Rattle.std.specs.Iterator.{at_most, UpTo};
ghost use Rattle.std.specs.Iterator.SizeHint.{IsWithinCount};
ghost use Rattle.std.specs.Map.Iter.{deref_pair_mut};
ghost use Rattle.managed.specs.Walk.{LendsNext, pairs_to_pass, places_to_pass};
ghost use Rattle.std.specs.Borrow.{sem};
ghost use Rattle.std.specs.BTreeMap.IterMut.{iter_mut_rest as tree_rest, iter_mut_name as tree_name};
ghost use Rattle.std.specs.BTreeMap.Lent.{KeepsKeys};
ghost use Rattle.managed.specs.WalkLoans.{walk_name, lends_pairs};
ghost use Rattle.managed.specs.SortedMap.{filled};
ghost use Rattle.managed.specs.Walk.{pairs_to_write};

use std::collections::{BTreeMap, btree_map};
use std::slice;

/// The pairs that are left, from the front. Its storage is hidden, so that a caller writes no key.
#[derive(Drop)]
pub struct IterMut<'a, K: Ord, V> {
    pub(super) left: Left<'a, K, V>,
}

#[derive(Drop)]
pub(super) enum Left<'a, K: Ord, V> {
    Borrowed(slice::IterMut<'a, Option<(K, V)>>),
    Owned(btree_map::IterMut<'a, K, V>),
}

// The pair of a place.
fn lend_pair<'a, K, V>(place: &'a mut Option<(K, V)>) -> Option<(&'a K, &'a mut V)>
    ensures { option_map deref_pair_mut result ≡ place.old }
{
    let pair = place.as_mut()?;
    Some((&pair.0, &mut pair.1))
}

impl<'a, K: Ord, V> Iterator for IterMut<'a, K, V> {
    type Item = (&'a K, &'a mut V);

    ghost next_gives = { LendsNext };

    ghost remaining = { λ s. at_most (places_to_pass s) };

    fn next(&mut self) -> Option<(&'a K, &'a mut V)> {
        match &mut self.left {
            Left::Borrowed(places) => match places.next() {
                Some(place) => lend_pair(place),
                None => None,
            },
            Left::Owned(pairs) => pairs.next(),
        }
    }

    /// The number of pairs that are left in a tree. Among places it is not known, and no more than the places
    /// that are not yet passed.
    fn size_hint(&self) -> (usize, Option<usize>)
        ensures lower { IsWithinCount result.0 (at_most (places_to_pass self.now)) }
        ensures upper { IfSome result.1 (UpTo (at_most (places_to_pass self.now))) }
        ensures value { result ≡ (pairs_to_pass self.now, Some (places_to_pass self.now)) }
    {
        match &self.left {
            Left::Borrowed(places) => (0, Some(places.len())),
            Left::Owned(pairs) => {
                let len = pairs.len();
                (len, Some(len))
            }
        }
    }
}

// What a walk has left. Nothing calls it: a type that has a drop of its own can't be taken apart so, and a
// walk that is left early writes no place.
fn left_in<'a, K: Ord, V>(walk: IterMut<'a, K, V>) -> Left<'a, K, V>
    ensures { result ≡ walk.entry.left }
{
    let IterMut { left } = walk;
    match left {
        Left::Borrowed(places) => Left::Borrowed(places),
        Left::Owned(pairs) => Left::Owned(pairs),
    }
}

// A walk over places.
pub(super) fn over_places<'a, K: Ord, V>(places: &'a mut [Option<(K, V)>]) -> IterMut<'a, K, V>
    ensures same { walk_name result ≡ places.entry.ghost_name }
    ensures rest { pairs_to_write result ≡ filled places.old }
{
    IterMut {
        left: Left::Borrowed(places.iter_mut()),
    }
}

// A walk over the pairs of a tree.
pub(super) fn over_pairs<'a, K: Ord, V>(pairs: btree_map::IterMut<'a, K, V>) -> IterMut<'a, K, V>
    ensures same { walk_name result ≡ tree_name pairs.entry }
    ensures rest { pairs_to_write result ≡ tree_rest pairs.entry }
{
    IterMut {
        left: Left::Owned(pairs),
    }
}

// The pairs of a tree.
pub(super) fn pairs_of<'a, K: Ord, V>(tree: &'a mut BTreeMap<K, V>) -> btree_map::IterMut<'a, K, V>
    ensures* written { sem 𝓛 (lends_pairs K.row V.row K.Ord tree.entry result) }
    ensures others { KeepsKeys tree.old 0 }
    ensures rest { tree_rest result ≡ tree.old.entries }
{
    tree.iter_mut()
}
