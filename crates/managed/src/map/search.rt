//! A search by halves among the places of a borrowed map.
ghost use Rattle.std.specs.Prelude.{◌≡◌, ◌<◌, ◌≤◌, length, IfOk, IfErr, MatchResult};
ghost use Rattle.managed.specs.SortedMap.{IsSortedPlaces, filled};
ghost use Rattle.managed.specs.Places.{IsFoundAt, IsGapAt, place_order};

use std::cmp::Ordering;

// Where the key is, or where it would go.
pub(super) fn search<K: Ord, V>(places: &[Option<(K, V)>], key: &K) -> Result<usize, usize>
    requires { IsSortedPlaces K.cmp places.now }
    ensures found { IfOk result (IsFoundAt (K.cmp key.now) (filled places.now)) }
    ensures within { MatchResult result (λ at. at < length places.now) (λ at. at ≤ length places.now) }
    ensures empty { IfErr result (IsGapAt (K.cmp key.now) (filled places.now)) }
{
    places.binary_search_by(
        |place: &Option<(K, V)>| -> Ordering
            ensures { result ≡ place_order K.cmp key.entry.now place.now }
        {
            match place {
                Some((stored, _)) => stored.cmp(key),
                None => Ordering::Greater,
            }
        },
    )
}
