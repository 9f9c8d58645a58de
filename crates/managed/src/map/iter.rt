//! The pairs of a map in key order, to read.
ghost use Rattle.std.specs.Prelude.{◌≡◌, Some, IfSome, length};
ghost use Rattle.std.specs.Iterator.{at_most, UpTo};
ghost use Rattle.std.specs.Iterator.SizeHint.{IsWithinCount};
ghost use Rattle.std.specs.Map.Iter.{TakesFirst, deref_pair};
ghost use Rattle.managed.specs.SortedMap.{IsPacked, filled};
ghost use Rattle.managed.specs.Walk.{AllFilled};

use super::borrowed;
use std::collections::btree_map;
use std::iter::FusedIterator;
use std::marker::Model;

/// The pairs that are left, from the front. Contracts see it as their list.
#[derive(Drop)]
pub struct Iter<'a, K: Ord, V> {
    pub(super) pairs: Pairs<'a, K, V>,
}

#[derive(Drop)]
pub(super) enum Pairs<'a, K: Ord, V> {
    Borrowed(&'a [Option<(K, V)>]),
    Owned(btree_map::Iter<'a, K, V>),
}

impl<'a, K: Ord, V> Model for Iter<'a, K, V> {
    ghost use Rattle.std.specs.Prelude.{List};

    ghost Value = { List (K × V) };

    ghost use Rattle.managed.specs.Walk.{pairs_left, IsPackedWalk};

    ghost view = { λ a. pairs_left a.pairs };

    ghost invariant = { λ a. IsPackedWalk a.pairs };
}

// The pair of the first place, if it has one.
pub(super) fn next_place<'a, K, V>(places: &mut &'a [Option<(K, V)>]) -> Option<(&'a K, &'a V)>
    ensures steps { TakesFirst deref_pair (filled places.old.now) result (filled places.new.now) }
    ensures within { IsPacked places.old.now → IsPacked places.new.now }
    ensures full { AllFilled places.old.now → AllFilled places.new.now }
{
    let all: &'a [Option<(K, V)>] = places;
    if all.is_empty() {
        return None;
    }
    match &all[0] {
        Some((key, value)) => {
            *places = &all[1..];
            Some((key, value))
        }
        None => None,
    }
}

impl<'a, K: Ord, V> Iterator for Iter<'a, K, V> {
    type Item = (&'a K, &'a V);

    ghost next_gives = { TakesFirst deref_pair };

    ghost remaining = { λ s. at_most (length s) };

    fn next(&mut self) -> Option<(&'a K, &'a V)> {
        match &mut self.pairs {
            Pairs::Borrowed(places) => next_place(places),
            Pairs::Owned(pairs) => pairs.next(),
        }
    }

    /// The number of pairs that are left.
    fn size_hint(&self) -> (usize, Option<usize>)
        ensures lower { IsWithinCount result.0 (at_most (length self.now)) }
        ensures upper { IfSome result.1 (UpTo (at_most (length self.now))) }
        ensures value { result ≡ (length self.now, Some (length self.now)) }
    {
        let len = match &self.pairs {
            Pairs::Borrowed(places) => borrowed::len(places),
            Pairs::Owned(pairs) => pairs.len(),
        };
        (len, Some(len))
    }
}

impl<'a, K: Ord, V> FusedIterator for Iter<'a, K, V> {}
