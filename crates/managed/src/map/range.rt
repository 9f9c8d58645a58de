//! The pairs of a map between two bounds, from both ends.
ghost use Rattle.std.specs.Prelude.{◌≡◌, ◌↔◌, ◌≤◌, [], length, take, drop, IsTrue, ◌-◌};
ghost use Rattle.std.specs.Iterator.{at_most};
ghost use Rattle.std.specs.Range.Bound.{bound_map, IsForward};
ghost use Rattle.std.specs.BTreeMap.Range.{entries_between, is_from_start, is_past_end, IsLeBy, IsLtBy};
ghost use Rattle.std.specs.Map.Iter.{TakesFirst, TakesLast, deref_pair};
ghost use Rattle.managed.specs.SortedMap.{IsPacked, IsSortedPlaces, filled};
ghost use Rattle.managed.specs.Places.{IsCut};
ghost use Rattle.managed.specs.Walk.{AllFilled, span_left, IsFilledSpan};

use super::borrowed;
use super::iter::next_place;
use super::search::search;
use std::alloc::AllocError;
use std::collections::{BTreeMap, btree_map};
use std::fmt;
use std::iter::FusedIterator;
use std::marker::Model;
use std::ops::Bound;

/// The pairs that are left, which `next` takes from the front and `next_back` from the back. Contracts
/// see it as their list.
#[derive(Drop)]
pub struct Range<'a, K: Ord, V> {
    pub(super) span: Span<'a, K, V>,
}

#[derive(Drop)]
pub(super) enum Span<'a, K: Ord, V> {
    Borrowed(&'a [Option<(K, V)>]),
    Owned(btree_map::Range<'a, K, V>),
}

impl<'a, K: Ord, V> Model for Range<'a, K, V> {
    ghost use Rattle.std.specs.Prelude.{List};

    ghost Value = { List (K × V) };

    ghost use Rattle.managed.specs.Walk.{span_left, IsFilledSpan};

    ghost view = { λ a. span_left a.span };

    ghost invariant = { λ a. IsFilledSpan a.span };
}

// The pair of the last of the places that all have one.
fn last_place<'a, K, V>(places: &mut &'a [Option<(K, V)>]) -> Option<(&'a K, &'a V)>
    requires { AllFilled places.old.now }
    ensures steps { TakesLast deref_pair (filled places.old.now) result (filled places.new.now) }
    ensures within { AllFilled places.new.now }
{
    let all: &'a [Option<(K, V)>] = places;
    let count = all.len();
    if count == 0 {
        return None;
    }
    match &all[count - 1] {
        Some((key, value)) => {
            *places = &all[..count - 1];
            Some((key, value))
        }
        None => None,
    }
}

impl<'a, K: Ord, V> Clone for Range<'a, K, V> {
    ghost use Rattle.std.specs.Prelude.{⊤};

    ghost is_clone = { λ s r. r ≡ s };

    ghost is_infallible = { λ _. ⊤ };

    fn clone(&self) -> Result<Range<'a, K, V>, AllocError> {
        match &self.span {
            Span::Borrowed(places) => Ok(Range {
                span: Span::Borrowed(places),
            }),
            Span::Owned(pairs) => Ok(Range {
                span: Span::Owned(pairs.clone()?),
            }),
        }
    }
}

impl<'a, K: Ord + fmt::Debug, V: fmt::Debug> fmt::Debug for Range<'a, K, V> {
    /// The list of the pairs that are left.
    fn fmt<W: fmt::Write>(&self, f: &mut fmt::Formatter<W>) -> fmt::Result {
        match self.clone() {
            Ok(pairs) => f.debug_list().entries(pairs).finish(),
            Err(_) => Err(fmt::Error),
        }
    }
}

impl<'a, K: Ord, V> Iterator for Range<'a, K, V> {
    type Item = (&'a K, &'a V);

    ghost next_gives = { TakesFirst deref_pair };

    ghost remaining = { λ s. at_most (length s) };

    fn next(&mut self) -> Option<(&'a K, &'a V)> {
        match &mut self.span {
            Span::Borrowed(places) => next_place(places),
            Span::Owned(pairs) => pairs.next(),
        }
    }

    fn size_hint(&self) -> (usize, Option<usize>) {
        (0, None)
    }
}

impl<'a, K: Ord, V> FusedIterator for Range<'a, K, V> {}

impl<'a, K: Ord, V> DoubleEndedIterator for Range<'a, K, V> {
    ghost next_back_gives = { TakesLast deref_pair };

    fn next_back(&mut self) -> Option<(&'a K, &'a V)> {
        match &mut self.span {
            Span::Borrowed(places) => last_place(places),
            Span::Owned(pairs) => pairs.next_back(),
        }
    }
}

// How many pairs are before a bound.
fn start_of<K: Ord, V>(places: &[Option<(K, V)>], from: Bound<&K>) -> usize
    requires { IsSortedPlaces K.cmp places.now }
    ensures cut { IsCut (is_from_start K.cmp (bound_map (λ x. x.now) from.entry)) (filled places.now) result }
    ensures within { result ≤ length (filled places.now) }
    ensures room { result ≤ length places.now }
{
    match from {
        Bound::Included(key) => match search(places, key) {
            Ok(at) => at,
            Err(at) => at,
        },
        Bound::Excluded(key) => match search(places, key) {
            Ok(at) => at + 1,
            Err(at) => at,
        },
        Bound::Unbounded => 0,
    }
}

// How many pairs are not past a bound.
fn end_of<K: Ord, V>(places: &[Option<(K, V)>], to: Bound<&K>) -> usize
    requires { IsSortedPlaces K.cmp places.now }
    ensures cut { IsCut (is_past_end K.cmp (bound_map (λ x. x.now) to.entry)) (filled places.now) result }
    ensures within { result ≤ length (filled places.now) }
    ensures room { result ≤ length places.now }
{
    match to {
        Bound::Included(key) => match search(places, key) {
            Ok(at) => at + 1,
            Err(at) => at,
        },
        Bound::Excluded(key) => match search(places, key) {
            Ok(at) => at,
            Err(at) => at,
        },
        Bound::Unbounded => borrowed::len(places),
    }
}

// The places of the pairs between two bounds.
pub(super) fn between<'a, K: Ord, V>(
    places: &'a [Option<(K, V)>],
    from: Bound<&K>,
    to: Bound<&K>,
) -> &'a [Option<(K, V)>]
    requires { IsSortedPlaces K.cmp places.now }
    ensures rest { filled result.now ≡ entries_between K.cmp (bound_map (λ x. x.now) from.entry) (bound_map (λ x. x.now) to.entry) (filled places.now) }
    ensures within { AllFilled result.now }
{
    let start = start_of(places, from);
    let end = end_of(places, to);
    if end <= start {
        return &[];
    }
    &places[start..end]
}

// Whether the first bound is not past the second.
pub(super) fn is_forward<K: Ord>(from: Bound<&K>, to: Bound<&K>) -> bool
    ensures { IsTrue result ↔ IsForward (IsLeBy K.cmp) (IsLtBy K.cmp) (bound_map (λ x. x.now) from.entry) (bound_map (λ x. x.now) to.entry) }
{
    match (from, to) {
        (Bound::Excluded(first), Bound::Excluded(last)) => first.cmp(last).is_lt(),
        (Bound::Included(first) | Bound::Excluded(first), Bound::Included(last))
        | (Bound::Included(first), Bound::Excluded(last)) => first.cmp(last).is_le(),
        _ => true,
    }
}

// The pairs of a tree between two bounds.
pub(super) fn between_in_tree<'a, K: Ord, V>(
    tree: &'a BTreeMap<K, V>,
    from: Bound<&K>,
    to: Bound<&K>,
) -> Span<'a, K, V>
    ensures rest { span_left result ≡ entries_between K.cmp (bound_map (λ x. x.now) from.entry) (bound_map (λ x. x.now) to.entry) tree.now.entries }
    ensures within { IsFilledSpan result }
{
    if !is_forward(from, to) {
        return Span::Borrowed(&[]);
    }
    Span::Owned(tree.range((from, to)))
}
