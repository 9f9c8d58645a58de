//! What follows from the contracts of the containers, for every map and every table.
ghost use Rattle.std.specs.Prelude.{◌≡◌, ℕ, ◌+◌, ◌<◌, ◌≤◌, [], List, Option, Some, IsSome, if◌then◌else◌, slice_set};
ghost use Rattle.std.specs.Ordering.{is_eq};
ghost use Rattle.std.specs.BTreeMap.{insert_entry, is_at};
ghost use Rattle.std.specs.Map.{set_value};
ghost use Rattle.std.specs.BTreeMap.Range.{entries_between, IsLeBy, IsLtBy};
ghost use Rattle.std.specs.Range.Bound.{IsForward};
ghost use Rattle.std.specs.declared.ops.Bound.{Bound as BoundOf};
ghost use Rattle.managed.specs.SortedMap.{value_at, with_pair};
ghost use Rattle.managed.specs.SlotLoans.{with_element, with_freed, with_handed_out};
ghost use Rattle.managed.specs.SlotMap.{elements_of, places_of};
ghost use Rattle.managed.specs.declared.slot_map.SlotMap.{SlotMap as SlotMapOf};
ghost use Rattle.managed.specs.declared.slot_key.SlotKey.{SlotKey as SlotKeyOf};
ghost use Rattle.managed.specs.SlotTable.{SlotUse, unused, IsLiveKey, IsSoundUse, FreesLive, KeepsPlace, key_handed_out, place_handed_out, handed_out, freed_at, generation_at, generation_later, last_generation, after_steps, hand_outs};

/// After an insert the key has the value, and each other key has what it had, in a borrowed map and in an
/// owned one.
pub fn an_inserted_key_is_found<K: Ord, V>()
    ensures borrowed { (es : List (K × V)) (key : K) (value : V) (other : K)
        → value_at K.cmp (with_pair K.cmp es key value) other
        ≡ (if is_eq (K.cmp key other) then Some value else value_at K.cmp es other) }
    ensures owned { (es : List (K × V)) (key : K) (value : V) (other : K)
        → value_at K.cmp (insert_entry K.cmp es key value) other
        ≡ (if is_eq (K.cmp key other) then Some value else value_at K.cmp es other) }
{}

/// After a write through the value that `get_mut` lent the key has what was written, and each other key
/// has what it had.
pub fn a_written_value_is_found<K: Ord, V>()
    ensures { (es : List (K × V)) (key : K) (value : V) (other : K) → IsSome (value_at K.cmp es key)
        → value_at K.cmp (set_value (is_at (K.cmp key)) es value) other
        ≡ (if is_eq (K.cmp key other) then Some value else value_at K.cmp es other) }
{}

/// No pair is between bounds that run backwards.
pub fn a_backward_range_is_empty<K: Ord, V>()
    ensures { (from to : BoundOf K) (es : List (K × V)) → (IsForward (IsLeBy K.cmp) (IsLtBy K.cmp) from to → ⊥)
        → entries_between K.cmp from to es ≡ [] }
{}

/// A key that is handed out is in the table until its own place is freed, whatever other places are handed
/// out and freed meanwhile; and no place is handed out while a key in the table has it. It holds of a table
/// whose freed places are not in use, as an unused one, and each hand-out and each removal keeps that.
pub fn a_live_key_finds_its_place()
    ensures unused { (capacity : ℕ) → IsSoundUse (unused capacity) }
    ensures handed { (u : SlotUse) → IsSoundUse u → IsSoundUse (handed_out u) }
    ensures freed { (u : SlotUse) (place : ℕ) → IsSoundUse u → IsSome (generation_at u place) → IsSoundUse (freed_at u place) }
    ensures found { (u : SlotUse) → IsSoundUse u → IsLiveKey (handed_out u) (key_handed_out u) }
    ensures others { (u : SlotUse) (key : SlotKeyOf) → IsSoundUse u → IsLiveKey u key → place_handed_out u ≡ key.place → ⊥ }
    ensures value { (u : SlotUse) (key : SlotKeyOf) (steps : List (Option ℕ))
        → IsSoundUse u → FreesLive u steps → KeepsPlace key.place steps
        → IsLiveKey u key → IsLiveKey (after_steps u steps) key }
{}

/// A key that was taken out finds nothing, whatever is handed out and freed afterwards, until as many keys
/// as there are generations have been handed out since: `handed` of them so far, its own among them.
pub fn a_removed_key_finds_nothing()
    ensures { (u : SlotUse) (place generation handed : ℕ) (steps : List (Option ℕ))
        → 0 < generation → generation ≤ last_generation → 0 < handed
        → u.next_generation ≡ generation_later generation handed
        → (generation_at u place ≡ Some generation → ⊥)
        → handed + hand_outs steps ≤ last_generation
        → generation_at (after_steps u steps) place ≡ Some generation → ⊥ }
{}

/// What is written through a loan of an element lies at the element's place, and nothing else changes but
/// that a removal frees the place, and that `reserve` hands it out.
pub fn a_loan_writes_one_element<T>()
    ensures written { (m : SlotMapOf T) (place : ℕ) (w : T)
        → elements_of (with_element m place w) ≡ slice_set (elements_of m) place w }
    ensures places { (m : SlotMapOf T) (place : ℕ) (w : T) → places_of (with_element m place w) ≡ places_of m }
    ensures freed { (m : SlotMapOf T) (place : ℕ) → places_of (with_freed m place) ≡ freed_at (places_of m) place }
    ensures handed { (m : SlotMapOf T) → places_of (with_handed_out m) ≡ handed_out (places_of m) }
    ensures others { (m : SlotMapOf T) (place : ℕ) → elements_of (with_freed m place) ≡ elements_of m }
    ensures rest { (m : SlotMapOf T) → elements_of (with_handed_out m) ≡ elements_of m }
{}
