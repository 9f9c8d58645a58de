//! Cases of the original table of slots.
use crate::callers::set_element;
use managed::{ManagedSlice, SlotIndex, SlotKey, SlotMap};
use std::test::Fail;

/// A call on a table, and what it answers. The first number is the key among those that the calls before handed out.
#[derive(Clone, Copy)]
enum Call {
    /// An element goes in, and hands out this key.
    Inserts(usize, u32),
    /// A place is handed out with this key, and written.
    Reserves(usize, u32),
    /// There is no place.
    IsFull,
    /// The key finds this element.
    Finds(usize, u32),
    /// The key finds nothing, and ends nothing.
    FindsNothing(usize),
    /// The element is taken out.
    Removes(usize, u32),
    /// The place is free again.
    Discards(usize),
    /// Another element takes its place.
    Replaces(usize, u32),
}

type Keys = [SlotKey; 3];

fn is_element(found: Option<&u32>, want: u32) -> bool {
    match found {
        Some(element) => *element == want,
        None => false,
    }
}

// Whether a call answers as it should.
fn answers(map: &mut SlotMap<'_, u32>, keys: &mut Keys, call: Call) -> bool {
    match call {
        Call::Inserts(at, value) => keep(keys, at, map.insert(value)),
        Call::Reserves(at, value) => keep(keys, at, reserved(map, value)),
        Call::IsFull => map.insert(0x9999).is_none() && map.reserve().is_none(),
        Call::Finds(at, value) => is_element(map.get(keys[at % 3]), value),
        Call::FindsNothing(at) => map.get(keys[at % 3]).is_none() && !map.discard(keys[at % 3]),
        Call::Removes(at, value) => match map.remove(keys[at % 3]) {
            Some(element) => *element == value,
            None => false,
        },
        Call::Discards(at) => map.discard(keys[at % 3]),
        Call::Replaces(at, value) => map.replace(keys[at % 3], value),
    }
}

fn reserved(map: &mut SlotMap<'_, u32>, value: u32) -> Option<SlotKey> {
    let (key, element) = map.reserve()?;
    *element = value;
    Some(key)
}

fn keep(keys: &mut Keys, at: usize, handed_out: Option<SlotKey>) -> bool {
    let Some(key) = handed_out else {
        return false;
    };
    keys[at % 3] = key;
    true
}

// The case of a full table, of an old key, of freed places that come back last first, and of reserved places; each
// with the elements that lie there in the end.
const CASES: [(usize, &[Call], [u32; 3]); 4] = [
    (
        2,
        &[
            Call::Inserts(0, 42),
            Call::Inserts(1, 75),
            Call::IsFull,
            Call::Finds(0, 42),
            Call::Finds(1, 75),
            Call::Removes(0, 42),
            Call::FindsNothing(0),
            Call::Inserts(2, 0x9999),
            Call::Finds(2, 0x9999),
            Call::Removes(1, 75),
            Call::Finds(2, 0x9999),
            Call::Removes(2, 0x9999),
        ],
        [0x9999, 75, 0],
    ),
    (
        1,
        &[
            Call::Inserts(0, 0xde),
            Call::Removes(0, 0xde),
            Call::Inserts(1, 0xad),
            Call::FindsNothing(0),
            Call::Finds(1, 0xad),
            Call::IsFull,
            Call::Replaces(1, 0xef),
            Call::Finds(1, 0xef),
            Call::Discards(1),
            Call::FindsNothing(0),
            Call::FindsNothing(1),
        ],
        [0xef, 0, 0],
    ),
    (
        3,
        &[
            Call::Inserts(0, 0),
            Call::Inserts(1, 1),
            Call::Inserts(2, 2),
            Call::Discards(1),
            Call::Finds(0, 0),
            Call::Finds(2, 2),
            Call::Discards(2),
            Call::Finds(0, 0),
            Call::Discards(0),
            Call::Inserts(0, 10),
            Call::Inserts(2, 12),
            Call::Inserts(1, 11),
        ],
        [10, 11, 12],
    ),
    (
        2,
        &[
            Call::Reserves(0, 0xde),
            Call::Reserves(1, 0xad),
            Call::IsFull,
            Call::Finds(0, 0xde),
            Call::Finds(1, 0xad),
        ],
        [0xde, 0xad, 0],
    ),
];

// Whether all calls on an unused table answer as they should.
fn all_answer(capacity: usize, calls: &[Call], elements: &mut [u32; 3]) -> bool {
    let mut slots = [SlotIndex::default(); 3];
    let mut map = SlotMap::new(
        ManagedSlice::Borrowed(&mut *elements),
        ManagedSlice::Borrowed(&mut slots[..capacity.min(3)]),
    );
    let mut keys = [SlotKey::default(); 3];
    for call in calls {
        if !answers(&mut map, &mut keys, *call) {
            return false;
        }
    }
    true
}

#[test]
fn calls_answer_in_turn(rt: HostRuntime) {
    for (capacity, calls, want) in CASES {
        let mut elements = [0; 3];
        assert!(rt; all_answer(capacity, calls, &mut elements), "{capacity}");
        assert!(rt; elements == want, "{capacity}");
    }
}

#[test]
fn the_first_key_is_the_default_one(rt: HostRuntime) {
    let mut elements = [0u32; 1];
    let mut slots = [SlotIndex::default(); 1];
    let mut map = SlotMap::new(
        ManagedSlice::Borrowed(&mut elements),
        ManagedSlice::Borrowed(&mut slots),
    );
    let key = SlotKey::default();
    let first = map.insert(2);
    assert!(rt; set_element(&mut map, key, 3));
    assert!(rt; first == Some(key) && is_element(map.get(key), 3));
}

#[test]
fn a_million_slots_are_filled_again(rt: HostRuntime) -> Result<(), Fail> {
    let elements = vec![in rt.alloc(); 0u32; 1_000_000]?;
    let slots = vec![in rt.alloc(); SlotIndex::default(); 1_000_000]?;
    let mut map = SlotMap::new(ManagedSlice::Owned(elements), ManagedSlice::Owned(slots));
    let mut keys = Vec::new(rt.alloc());
    for _ in 0..2 {
        keys.clear();
        for value in 0..1_000_000u32 {
            keys.push(map.insert(value).ok_or("full")?)?;
        }
        assert!(rt; map.insert(0).is_none());
        for key in &keys {
            assert!(rt; map.remove(*key).is_some());
        }
    }
    Ok(())
}
