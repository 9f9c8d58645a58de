//! What a map lends of its storage.
ghost use Rattle.std.specs.Prelude.{◌≡◌, ◌<◌, None, length, slice_index_or};
ghost use Rattle.std.specs.Option.{option_copied_mut, option_map};
ghost use Rattle.std.specs.Borrow.{sem};
ghost use Rattle.managed.specs.MapLoans.{lends_place, lends_value_in, lends_value_at, lends_in_tree};
ghost use Rattle.managed.specs.SortedMap.{value_at};

use std::collections::BTreeMap;

// A place.
fn place_of<K, V>(places: &mut [Option<(K, V)>], at: usize) -> &mut Option<(K, V)>
    requires { at < length places.old }
    ensures* written { sem 𝓛 (lends_place K.row V.row places.entry at result) }
    ensures value { result.now ≡ slice_index_or places.old at None }
{
    &mut places[at]
}

// The value of a place's pair.
fn value_in<K, V>(place: &mut Option<(K, V)>) -> Option<&mut V>
    ensures* written { sem 𝓛 (lends_value_in K.row V.row place.entry result) }
    ensures value { option_copied_mut result ≡ option_map (λ e. e.1) place.old }
{
    match place {
        Some(pair) => Some(&mut pair.1),
        None => None,
    }
}

// The value of the pair at a place.
pub(super) fn value_of<K, V>(places: &mut [Option<(K, V)>], at: usize) -> Option<&mut V>
    requires { at < length places.old }
    ensures* written { sem 𝓛 (lends_value_at K.row V.row places.entry at result) }
    ensures value { option_copied_mut result ≡ option_map (λ e. e.1) (slice_index_or places.old at None) }
{
    value_in(place_of(places, at))
}

// The value of a key in a tree.
pub(super) fn value_in_tree<'a, K: Ord, V>(
    tree: &'a mut BTreeMap<K, V>,
    key: &K,
) -> Option<&'a mut V>
    ensures* written { sem 𝓛 (lends_in_tree K.row V.row K.Ord tree.entry key.now result) }
    ensures value { option_copied_mut result ≡ value_at K.cmp tree.old.entries key.now }
{
    tree.get_mut(key)
}
