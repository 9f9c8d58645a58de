//! Writes of a map's values by closures.
ghost use Rattle.std.specs.Prelude.{◌≡◌, ◌↔◌, ◌<◌, length, IsTrue, IsFalse, IsSome};
ghost use Rattle.std.specs.Fn.{FnOnceTakesAtMut};
ghost use Rattle.std.specs.Option.{ForSome, option_map};
ghost use Rattle.managed.specs.SortedMap.{filled, value_at, IsPacked, IsSortedPlaces};
ghost use Rattle.managed.specs.Updates.{WritesValue, IsUpdated, IsWrittenBy, IsWrittenPair};

use super::search::search;
use std::collections::BTreeMap;

// Calls a closure at each pair of a tree.
pub(super) fn each_in_tree<K: Ord + Drop, V: Drop, F: FnMut(&K, &mut V)>(
    tree: &mut BTreeMap<K, V>,
    mut f: F,
)
    requires { F.IsAlwaysCallable f }
    ensures { IsUpdated F.FnMut f tree.old.entries tree.new.entries }
{
    tree.retain(
        move |key: &K, value: &mut V| -> bool
            requires { F.IsAlwaysCallable f }
            ensures again { F.IsAlwaysCallable f.exit }
            ensures kept { IsTrue result }
            ensures written { WritesValue F.FnMut f.entry key.now value.old value.new f.exit }
        {
            f(key, value);
            true
        },
    );
}

// Calls a closure at the pair of each place.
pub(super) fn each_in_places<K, V, F: FnMut(&K, &mut V)>(places: &mut [Option<(K, V)>], mut f: F)
    requires { F.IsAlwaysCallable f }
    ensures updated { IsUpdated F.FnMut f (filled places.old) (filled places.new) }
    ensures packed { IsPacked places.old → IsPacked places.new }
{
    for place in places.iter_mut() {
        match place {
            Some(pair) => f(&pair.0, &mut pair.1),
            None => return,
        }
    }
}

// Calls a closure at the value of a place's pair.
fn write_place<K, V, F: FnOnce(&mut V)>(place: &mut Option<(K, V)>, f: F)
    requires there { IsSome place.old }
    requires callable { ForSome (option_map (λ e. e.1) place.old) (FnOnceTakesAtMut F.FnOnce f) }
    ensures { IsWrittenPair F.FnOnce f place.old place.new }
{
    match place {
        Some(pair) => f(&mut pair.1),
        None => {}
    }
}

// Calls a closure at the value of a key in a tree, and tells whether the key is there.
pub(super) fn one_in_tree<K: Ord, V, F: FnOnce(&mut V)>(
    tree: &mut BTreeMap<K, V>,
    key: &K,
    f: F,
) -> bool
    requires { ForSome (value_at K.cmp tree.old.entries key.now) (FnOnceTakesAtMut F.FnOnce f) }
    ensures found { IsTrue result ↔ IsSome (value_at K.cmp tree.old.entries key.now) }
    ensures written { IsTrue result → IsWrittenBy F.FnOnce f K.cmp key.now tree.old.entries tree.new.entries }
    ensures empty { IsFalse result → tree.new.entries ≡ tree.old.entries }
{
    match tree.get_mut(key) {
        Some(value) => {
            f(value);
            true
        }
        None => false,
    }
}

// Calls a closure at the value of a key among places, and tells whether the key is there.
pub(super) fn one_in_places<K: Ord, V, F: FnOnce(&mut V)>(
    places: &mut [Option<(K, V)>],
    key: &K,
    f: F,
) -> bool
    requires sorted { IsSortedPlaces K.cmp places.old }
    requires callable { ForSome (value_at K.cmp (filled places.old) key.now) (FnOnceTakesAtMut F.FnOnce f) }
    ensures found { IsTrue result ↔ IsSome (value_at K.cmp (filled places.old) key.now) }
    ensures written { IsTrue result → IsWrittenBy F.FnOnce f K.cmp key.now (filled places.old) (filled places.new) }
    ensures empty { IsFalse result → places.new ≡ places.old }
    ensures within { IsSortedPlaces K.cmp places.new }
{
    match search(places, key) {
        Ok(at) => {
            write_place(&mut places[at], f);
            true
        }
        Err(_) => false,
    }
}
