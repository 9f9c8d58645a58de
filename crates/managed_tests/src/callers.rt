//! Callers as a user would write them, with no proof file.
ghost use Rattle.std.specs.Prelude.{◌≡◌, ◌↔◌, map, false, IsTrue, slice_get};
ghost use Rattle.std.specs.Option.{option_copied, option_map};
ghost use Rattle.std.specs.Ordering.{nat_cmp, is_eq};
ghost use Rattle.managed.specs.SortedMap.{pairs, value_at, IsSortedMap, KeepsStorage};
ghost use Rattle.managed.specs.SlotMap.{elements_of, places_of, IsWhole};
ghost use Rattle.managed.specs.SlotTable.{IsLiveKey};

use managed::{ManagedMap, SlotKey, SlotMap};

// Sets the count of a key that is there.
pub fn set_count(counts: &mut ManagedMap<u8, u32>, key: &u8, count: u32) -> bool
    requires { IsSortedMap nat_cmp counts.old }
    ensures value { value_at nat_cmp (pairs counts.new) key.now ≡ option_map (λ _. count) (value_at nat_cmp (pairs counts.old) key.now) }
    ensures others { (other : _) → is_eq (nat_cmp key.now other) ≡ false
        → value_at nat_cmp (pairs counts.new) other ≡ value_at nat_cmp (pairs counts.old) other }
    ensures sorted { IsSortedMap nat_cmp counts.new }
{
    counts.write(key, |held| *held = count)
}

// Sets each count.
pub fn set_counts(counts: &mut ManagedMap<u8, u32>, count: u32)
    requires { IsSortedMap nat_cmp counts.old }
    ensures value { pairs counts.new ≡ map (λ e. (e.0, count)) (pairs counts.old) }
    ensures within { KeepsStorage counts.old counts.new }
    ensures sorted { IsSortedMap nat_cmp counts.new }
{
    counts.update(|_, held| *held = count);
}

// The count of a key once the counts of all keys are none.
pub fn count_after_reset(counts: &mut ManagedMap<u8, u32>, key: &u8) -> Option<u32>
    requires { IsSortedMap nat_cmp counts.old }
    ensures { result ≡ value_at nat_cmp (pairs counts.new) key.now }
{
    counts.update(|_, held| *held = 0);
    counts.get(key).copied()
}

// Sets an element that is in the table.
pub fn set_element(table: &mut SlotMap<u32>, key: SlotKey, element: u32) -> bool
    requires { IsWhole table.old }
    ensures found { IsTrue result ↔ IsLiveKey (places_of table.old) key }
    ensures value { IsTrue result
        → slice_get (elements_of table.new) key.place ≡ option_map (λ _. element) (slice_get (elements_of table.old) key.place) }
    ensures others { places_of table.new ≡ places_of table.old }
{
    table.write(key, |held| *held = element)
}
