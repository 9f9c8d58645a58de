//! Cases of the original map over borrowed places of `a` = 1 to `d` = 4, and the same over a tree.
use crate::callers::{count_after_reset, set_count, set_counts};
use managed::{InsertError, Iter, ManagedMap};
use std::collections::BTreeMap;
use std::test::Fail;

type Places = [Option<(u8, u32)>; 4];

const NONE: Places = [None; 4];

const ONE: Places = [Some((b'a', 1)), None, None, None];

const TWO: Places = [Some((b'a', 1)), Some((b'b', 2)), None, None];

const GAP: Places = [Some((b'a', 1)), Some((b'c', 3)), None, None];

const THREE: Places = [Some((b'a', 1)), Some((b'b', 2)), Some((b'c', 3)), None];

const LATER: Places = [Some((b'b', 2)), Some((b'c', 3)), Some((b'd', 4)), None];

const FULL: Places = [
    Some((b'a', 1)),
    Some((b'b', 2)),
    Some((b'c', 3)),
    Some((b'd', 4)),
];

const WITH_SIX: Places = [
    Some((b'a', 6)),
    Some((b'b', 2)),
    Some((b'c', 3)),
    Some((b'd', 4)),
];

const RAISED: Places = [
    Some((b'a', 2)),
    Some((b'b', 3)),
    Some((b'c', 4)),
    Some((b'd', 5)),
];

const SECOND: Places = [
    Some((b'a', 1)),
    Some((b'b', 20)),
    Some((b'c', 3)),
    Some((b'd', 4)),
];

/// A call with a key, and what it answers.
#[derive(Clone, Copy)]
enum Call {
    /// The key has this value.
    Finds(u8, Option<u32>),
    /// The pair goes in, in the place of this value.
    Inserts(u8, u32, Option<u32>),
    /// There is no place for the pair.
    Refuses(u8, u32),
    /// The pair with this value goes out.
    Removes(u8, Option<u32>),
    /// All pairs go out.
    Clears,
}

// What lies in the places, a call, and what it leaves there.
const CASES: [(Places, Call, Places); 19] = [
    (FULL, Call::Finds(b'a', Some(1)), FULL),
    (FULL, Call::Finds(b'b', Some(2)), FULL),
    (FULL, Call::Finds(b'c', Some(3)), FULL),
    (FULL, Call::Finds(b'd', Some(4)), FULL),
    (FULL, Call::Finds(b'q', None), FULL),
    (FULL, Call::Finds(b'0', None), FULL),
    (ONE, Call::Finds(b'a', Some(1)), ONE),
    (ONE, Call::Finds(b'q', None), ONE),
    (NONE, Call::Finds(b'q', None), NONE),
    (NONE, Call::Inserts(b'a', 1, None), ONE),
    (FULL, Call::Inserts(b'a', 6, Some(1)), WITH_SIX),
    (ONE, Call::Inserts(b'b', 2, None), TWO),
    (GAP, Call::Inserts(b'b', 2, None), THREE),
    (LATER, Call::Inserts(b'a', 6, None), WITH_SIX),
    (FULL, Call::Refuses(b'q', 1), FULL),
    (FULL, Call::Removes(b'a', Some(1)), LATER),
    (FULL, Call::Removes(b'q', None), FULL),
    (FULL, Call::Clears, NONE),
    (ONE, Call::Removes(b'a', Some(1)), NONE),
];

// The places of a borrowed map.
fn places_in<'b>(map: &'b ManagedMap<'_, u8, u32>) -> &'b [Option<(u8, u32)>] {
    match map {
        ManagedMap::Borrowed(places) => places,
        ManagedMap::Owned(_) => &[],
    }
}

fn is_value(found: Option<&u32>, want: Option<u32>) -> bool {
    match found {
        Some(value) => Some(*value) == want,
        None => want.is_none(),
    }
}

// Whether a call answers as it should.
fn answers(map: &mut ManagedMap<'_, u8, u32>, call: Call) -> bool {
    if !map.is_sorted() {
        return false;
    }
    match call {
        Call::Finds(key, want) => is_value(map.get(&key), want) && lends(map, key, want),
        Call::Inserts(key, value, want) => map.insert(key, value) == Ok(want),
        Call::Refuses(key, value) => {
            map.insert(key, value) == Err(InsertError::Full(key, value))
        }
        Call::Removes(key, want) => map.remove(&key) == want,
        Call::Clears => {
            map.clear();
            map.is_empty()
        }
    }
}

fn lends(map: &mut ManagedMap<'_, u8, u32>, key: u8, want: Option<u32>) -> bool {
    if !map.is_sorted() {
        return false;
    }
    match map.get_mut(&key) {
        Some(value) => Some(*value) == want,
        None => want.is_none(),
    }
}

// Whether a call on a map over these places answers as it should, and leaves those.
fn answers_over(places: Places, call: Call, left: Places) -> bool {
    let mut places = places;
    let mut map = ManagedMap::Borrowed(&mut places);
    answers(&mut map, call) && places_in(&map) == left.as_slice()
}

#[test]
fn calls_answer_and_leave_the_other_pairs(rt: HostRuntime) {
    for (places, call, left) in CASES {
        assert!(rt; answers_over(places, call, left));
    }
}

#[test]
fn no_places_take_no_pair(rt: HostRuntime) {
    let mut nowhere = ManagedMap::Borrowed(&mut []);
    assert!(rt; answers(&mut nowhere, Call::Refuses(b'a', 1)));
}

// Whether a walk gives the first pairs, and counts what is left.
fn walks(mut pairs: Iter<'_, u8, u32>, count: usize) -> bool {
    for at in 0..count.min(4) {
        let left = count - at;
        if pairs.size_hint() != (left, Some(left)) {
            return false;
        }
        let Some((key, value)) = pairs.next() else {
            return false;
        };
        if Some((*key, *value)) != FULL[at] {
            return false;
        }
    }
    pairs.next().is_none()
}

#[test]
fn a_walk_counts_what_is_left(rt: HostRuntime) {
    for (places, count) in [(NONE, 0), (ONE, 1), (FULL, 4)] {
        let mut places = places;
        let map = ManagedMap::Borrowed(&mut places);
        assert!(rt; map.is_sorted() && map.len() == count && walks(map.iter(), count));
    }
}

#[test]
fn a_walk_that_writes_keeps_each_key(rt: HostRuntime) {
    let mut places = FULL;
    let mut map = ManagedMap::Borrowed(&mut places);
    assert!(rt; map.is_sorted());
    for (_, value) in map.iter_mut() {
        *value = value.saturating_add(1);
    }
    assert!(rt; places_in(&map) == RAISED.as_slice());
}

#[test]
fn a_walk_that_is_left_early_keeps_each_pair(rt: HostRuntime) {
    let mut places = FULL;
    let mut map = ManagedMap::Borrowed(&mut places);
    assert!(rt; map.is_sorted());
    for (key, value) in map.iter_mut() {
        if *key == b'b' {
            *value = 20;
            break;
        }
    }
    assert!(rt; places_in(&map) == SECOND.as_slice());
}

// Whether these are the values of `a` and `c`.
fn has(map: &ManagedMap<'_, u8, u32>, a: Option<u32>, c: Option<u32>) -> bool {
    map.is_sorted() && is_value(map.get(&b'a'), a) && is_value(map.get(&b'c'), c)
}

// Whether closures write the values of `a` = 1 and `c` = 3, and nothing else.
fn closures_write(map: &mut ManagedMap<u8, u32>) -> bool {
    if !map.is_sorted() {
        return false;
    }
    if !set_count(map, &b'c', 30) || set_count(map, &b'b', 20) || !has(map, Some(1), Some(30)) {
        return false;
    }
    set_counts(map, 7);
    has(map, Some(7), Some(7)) && count_after_reset(map, &b'c') == Some(0)
}

#[test]
fn closures_write_values_alone(rt: HostRuntime) -> Result<(), Fail> {
    let mut places = [Some((b'a', 1)), Some((b'c', 3)), None];
    let mut borrowed = ManagedMap::Borrowed(&mut places);
    assert!(rt; closures_write(&mut borrowed));
    let mut tree = BTreeMap::new(rt.alloc());
    tree.insert(b'a', 1)?;
    tree.insert(b'c', 3)?;
    let mut owned = ManagedMap::Owned(tree);
    assert!(rt; closures_write(&mut owned));
    Ok(())
}

#[test]
fn empty_places_come_last(rt: HostRuntime) -> Result<(), Fail> {
    let mut gap = [None, Some((1u32, 'x'))];
    assert!(rt; !ManagedMap::Borrowed(&mut gap).is_sorted());
    let mut falling = [Some((2u32, 'x')), Some((1, 'y'))];
    assert!(rt; !ManagedMap::Borrowed(&mut falling).is_sorted());
    Ok(())
}

#[test]
fn an_owned_map_takes_the_new_value(rt: HostRuntime) {
    let mut map = ManagedMap::from(BTreeMap::new(rt.alloc()));
    assert!(rt; answers(&mut map, Call::Inserts(b'a', 1, None)));
    assert!(rt; answers(&mut map, Call::Inserts(b'a', 2, Some(1))));
    assert!(rt; answers(&mut map, Call::Finds(b'a', Some(2))));
    assert!(rt; map.is_sorted());
    for (_, value) in map.iter_mut() {
        assert!(rt; *value == 2);
    }
}

const PLACES: u32 = 1_000_000;

#[test]
fn a_million_places_answer_at_once(rt: HostRuntime) -> Result<(), Fail> {
    let mut places = Vec::new(rt.alloc());
    for key in 0..PLACES {
        places.push(Some((key, key)))?;
    }
    let map = ManagedMap::Borrowed(places.as_mut_slice());
    assert!(rt; map.is_sorted());
    for key in 0..PLACES {
        assert_eq!(rt; map.get(&key).copied(), Some(key));
    }
    Ok(())
}
