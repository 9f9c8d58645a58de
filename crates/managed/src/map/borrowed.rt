//! A map over borrowed places.
ghost use Rattle.std.specs.Prelude.{◌≡◌, ◌<◌, ◌≤◌, ◌++◌, ◌↔◌, take, drop, length, slice_index_or, slice_set, IsTrue, Some, None, IsErr, IfOk, IfErr, OnOk, OnErr};
ghost use Rattle.std.specs.Option.{option_copied, option_copied_mut, option_map};
ghost use Rattle.std.specs.Map.{remove_entry};
ghost use Rattle.std.specs.Borrow.{sem};
ghost use Rattle.std.specs.BTreeMap.{is_at};
ghost use Rattle.managed.specs.MapLoans.{lends_among};
ghost use Rattle.managed.specs.Places.{pushed, closed_up};
ghost use Rattle.managed.specs.SortedMap.{IsPacked, IsVacant, IsSortedPlaces, Precedes, filled, value_at, with_pair, IsPlacesRefusal};

use super::loan::value_of;
use super::places::{push_along, take_out};
use super::search::search;
use crate::InsertError;
use std::mem;

pub(super) fn get<'a, K: Ord, V>(places: &'a [Option<(K, V)>], key: &K) -> Option<&'a V>
    requires { IsSortedPlaces K.cmp places.now }
    ensures { option_copied result ≡ value_at K.cmp (filled places.now) key.now }
{
    match search(places, key) {
        Ok(at) => match &places[at] {
            Some((_, value)) => Some(value),
            None => None,
        },
        Err(_) => None,
    }
}

pub(super) fn get_mut<'a, K: Ord, V>(places: &'a mut [Option<(K, V)>], key: &K) -> Option<&'a mut V>
    requires { IsSortedPlaces K.cmp places.old }
    ensures* written { sem 𝓛 (lends_among K.row V.row K.Ord places.entry key.now result) }
    ensures value { option_copied_mut result ≡ value_at K.cmp (filled places.old) key.now }
{
    match search(places, key) {
        Ok(at) => value_of(places, at),
        Err(_) => None,
    }
}

pub(super) fn len<X>(places: &[Option<X>]) -> usize
    requires { IsPacked places.now }
    ensures value { result ≡ length (filled places.now) }
    ensures within { result ≤ length places.now }
{
    places.partition_point(|place| place.is_some())
}

// Puts the pair in the place of the one that is there.
fn replace_at<K: Drop, V>(places: &mut [Option<(K, V)>], at: usize, key: K, value: V) -> Option<V>
    requires { at < length places.old }
    ensures value { result ≡ option_map (λ e. e.1) (slice_index_or places.old at None) }
    ensures rest { places.new ≡ slice_set places.old at (Some (key, value)) }
{
    match mem::replace(&mut places[at], Some((key, value))) {
        Some((_, old)) => Some(old),
        None => None,
    }
}

// Puts the pair before the one at a place.
fn put_at<K: Drop, V: Drop>(places: &mut [Option<(K, V)>], at: usize, key: K, value: V)
    requires { (at ≤ length places.old) × IsPacked places.old }
    ensures { places.new ≡ take at places.old ++ pushed (Some (key, value)) (drop at places.old) }
{
    let behind = &mut places[at..];
    let count = len(behind);
    push_along(behind, count, (key, value));
}

// Takes the pair at a place out.
fn take_at<K, V>(places: &mut [Option<(K, V)>], at: usize) -> Option<(K, V)>
    requires { at < length places.old }
    ensures value { result ≡ slice_index_or places.old at None }
    ensures rest { places.new ≡ take at places.old ++ closed_up (drop at places.old) }
{
    take_out(&mut places[at..])
}

// Whether each place has a pair.
fn is_full<X>(places: &[Option<X>]) -> bool
    requires { IsPacked places.now }
    ensures { IsTrue result ↔ (length (filled places.now) ≡ length places.now) }
{
    let count = places.len();
    if count == 0 {
        return true;
    }
    places[count - 1].is_some()
}

pub(super) fn insert<K: Ord + Drop, V: Drop>(
    places: &mut [Option<(K, V)>],
    key: K,
    value: V,
) -> Result<Option<V>, InsertError<K, V>>
    requires { IsSortedPlaces K.cmp places.old }
    ensures value { IfOk result (λ old. old ≡ value_at K.cmp (filled places.old) key) }
    ensures ok { OnOk result (filled places.new ≡ with_pair K.cmp (filled places.old) key value) }
    ensures err { OnErr result (places.new ≡ places.old) }
    ensures cause { IfErr result (IsPlacesRefusal K.cmp places.old key value) }
    ensures refuses { length (filled places.old) ≡ length places.old
        → value_at K.cmp (filled places.old) key ≡ None → IsErr result }
    ensures within { IsSortedPlaces K.cmp places.new }
{
    match search(places, &key) {
        Ok(at) => Ok(replace_at(places, at, key, value)),
        Err(at) => {
            if is_full(places) {
                return Err(InsertError::Full(key, value));
            }
            put_at(places, at, key, value);
            Ok(None)
        }
    }
}

pub(super) fn remove<K: Ord + Drop, V>(places: &mut [Option<(K, V)>], key: &K) -> Option<V>
    requires { IsSortedPlaces K.cmp places.old }
    ensures value { result ≡ value_at K.cmp (filled places.old) key.now }
    ensures rest { filled places.new ≡ remove_entry (is_at (K.cmp key.now)) (filled places.old) }
    ensures within { IsSortedPlaces K.cmp places.new }
{
    match search(places, key) {
        Ok(at) => match take_at(places, at) {
            Some((_, value)) => Some(value),
            None => None,
        },
        Err(_) => None,
    }
}

pub(super) fn clear<X: Drop>(places: &mut [Option<X>])
    ensures { IsVacant places.new }
{
    for place in places.iter_mut() {
        *place = None;
    }
}

// Whether one place may stand before another.
fn precedes<K: Ord, V>(first: &Option<(K, V)>, second: &Option<(K, V)>) -> bool
    ensures { IsTrue result ↔ Precedes K.cmp first.now second.now }
{
    match (first, second) {
        (_, None) => true,
        (None, Some(_)) => false,
        (Some((key, _)), Some((next, _))) => key.cmp(next).is_lt(),
    }
}

pub(super) fn is_sorted<K: Ord, V>(places: &[Option<(K, V)>]) -> bool
    ensures { IsTrue result ↔ IsSortedPlaces K.cmp places.now }
{
    for at in 1..places.len() {
        if !precedes(&places[at - 1], &places[at]) {
            return false;
        }
    }
    true
}
