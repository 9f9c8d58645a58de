//! Cases of the original ranges, over borrowed places and over a tree.
use managed::{ManagedMap, Range};
use std::alloc::{AllocError, Global};
use std::collections::BTreeMap;
use std::ops::Bound;
use std::test::Fail;

// From the first key on, up to the second alone, of `a` to `d`.
const HALF_OPEN: [(u8, u8, &str); 30] = [
    (b'0', b'a', ""),
    (b'0', b'b', "a"),
    (b'0', b'c', "ab"),
    (b'0', b'd', "abc"),
    (b'0', b'e', "abcd"),
    (b'a', b'a', ""),
    (b'a', b'b', "a"),
    (b'a', b'c', "ab"),
    (b'a', b'd', "abc"),
    (b'a', b'e', "abcd"),
    (b'b', b'a', ""),
    (b'b', b'b', ""),
    (b'b', b'c', "b"),
    (b'b', b'd', "bc"),
    (b'b', b'e', "bcd"),
    (b'c', b'a', ""),
    (b'c', b'b', ""),
    (b'c', b'c', ""),
    (b'c', b'd', "c"),
    (b'c', b'e', "cd"),
    (b'd', b'a', ""),
    (b'd', b'b', ""),
    (b'd', b'c', ""),
    (b'd', b'd', ""),
    (b'd', b'e', "d"),
    (b'e', b'a', ""),
    (b'e', b'b', ""),
    (b'e', b'c', ""),
    (b'e', b'd', ""),
    (b'e', b'e', ""),
];

// Bounds of the other kinds, of `a` to `d`.
const BOUNDED: [(Bound<u8>, Bound<u8>, &str); 18] = [
    (Bound::Included(b'a'), Bound::Unbounded, "abcd"),
    (Bound::Included(b'b'), Bound::Unbounded, "bcd"),
    (Bound::Included(b'd'), Bound::Unbounded, "d"),
    (Bound::Unbounded, Bound::Excluded(b'e'), "abcd"),
    (Bound::Unbounded, Bound::Excluded(b'd'), "abc"),
    (Bound::Unbounded, Bound::Excluded(b'b'), "a"),
    (Bound::Unbounded, Bound::Excluded(b'a'), ""),
    (Bound::Unbounded, Bound::Unbounded, "abcd"),
    (Bound::Excluded(b'a'), Bound::Excluded(b'a'), ""),
    (Bound::Excluded(b'a'), Bound::Excluded(b'b'), ""),
    (Bound::Excluded(b'a'), Bound::Excluded(b'c'), "b"),
    (Bound::Excluded(b'a'), Bound::Excluded(b'd'), "bc"),
    (Bound::Excluded(b'a'), Bound::Excluded(b'e'), "bcd"),
    (Bound::Included(b'b'), Bound::Included(b'a'), ""),
    (Bound::Included(b'b'), Bound::Included(b'b'), "b"),
    (Bound::Included(b'b'), Bound::Included(b'c'), "bc"),
    (Bound::Included(b'b'), Bound::Included(b'd'), "bcd"),
    (Bound::Included(b'b'), Bound::Included(b'e'), "bcd"),
];

fn by_reference(bound: &Bound<u8>) -> Bound<&u8> {
    match bound {
        Bound::Included(key) => Bound::Included(key),
        Bound::Excluded(key) => Bound::Excluded(key),
        Bound::Unbounded => Bound::Unbounded,
    }
}

// Whether what is left are these keys, each with its place in the alphabet for its value.
fn forwards(mut range: Range<'_, u8, u32>, keys: &[u8]) -> bool {
    for want in keys {
        let Some((key, value)) = range.next() else {
            return false;
        };
        if *key != *want || (*value).wrapping_add(96) != u32::from(*key) {
            return false;
        }
    }
    range.next().is_none()
}

// The same from the back.
fn backwards(mut range: Range<'_, u8, u32>, keys: &[u8]) -> bool {
    for want in keys.iter().rev() {
        let Some((key, _)) = range.next_back() else {
            return false;
        };
        if *key != *want {
            return false;
        }
    }
    range.next_back().is_none()
}

// Whether a range of a sorted map gives the keys, from both ends.
fn gives(map: &ManagedMap<'_, u8, u32>, from: Bound<&u8>, to: Bound<&u8>, keys: &[u8]) -> bool {
    map.is_sorted() && forwards(map.range(from, to), keys) && backwards(map.range(from, to), keys)
}

// Whether each range of a map of `a` to `d` gives its keys.
fn gives_all(map: &ManagedMap<'_, u8, u32>) -> bool {
    for (from, to, want) in HALF_OPEN {
        if !gives(
            map,
            Bound::Included(&from),
            Bound::Excluded(&to),
            want.as_bytes(),
        ) {
            return false;
        }
    }
    for (from, to, want) in BOUNDED {
        if !gives(map, by_reference(&from), by_reference(&to), want.as_bytes()) {
            return false;
        }
    }
    true
}

const FULL: [Option<(u8, u32)>; 5] = [
    Some((b'a', 1)),
    Some((b'b', 2)),
    Some((b'c', 3)),
    Some((b'd', 4)),
    None,
];

#[test]
fn ranges_give_the_keys_inside_their_bounds(rt: HostRuntime) -> Result<(), Fail> {
    let mut places = FULL;
    assert!(rt; gives_all(&ManagedMap::Borrowed(&mut places)));
    let mut tree = BTreeMap::new(rt.alloc());
    for (key, value) in [(b'd', 4), (b'b', 2), (b'c', 3), (b'a', 1)] {
        tree.insert(key, value)?;
    }
    assert!(rt; gives_all(&ManagedMap::Owned(tree)));
    Ok(())
}

// Whether the ends of a range over four pairs give the first, the last, the third and the second one, and no more.
fn ends_meet(mut range: Range<'_, u8, u32>) -> bool {
    for (is_front, want) in [(true, b'a'), (false, b'd'), (false, b'c'), (true, b'b')] {
        let found = if is_front {
            range.next()
        } else {
            range.next_back()
        };
        let Some((key, _)) = found else {
            return false;
        };
        if *key != want {
            return false;
        }
    }
    range.next_back().is_none() && range.next().is_none()
}

#[test]
fn a_range_ends_where_its_ends_meet(rt: HostRuntime) {
    let mut places = FULL;
    let map = ManagedMap::Borrowed(&mut places);
    assert!(rt; map.is_sorted() && ends_meet(map.range(Bound::Included(&b'a'), Bound::Unbounded)));
}

// What a range prints.
fn printed(alloc: Global, range: &Range<'_, u8, u32>) -> Result<String, AllocError> {
    format!(in alloc; "{range:?}")
}

#[test]
fn a_copy_of_a_range_is_left_where_it_was(rt: HostRuntime) -> Result<(), Fail> {
    let mut places = FULL;
    let map = ManagedMap::Borrowed(&mut places);
    assert!(rt; map.is_sorted());
    let range = map.range(Bound::Included(&b'b'), Bound::Excluded(&b'd'));
    let copy = range.clone()?;
    assert!(rt; forwards(range, b"bc"));
    assert!(rt; printed(rt.alloc(), &copy)?.as_str() == "[(98, 2), (99, 3)]");
    assert!(rt; forwards(copy, b"bc"));
    Ok(())
}

#[test]
fn a_range_of_few_pairs_stops_before_the_empty_places(rt: HostRuntime) {
    for (first, from, to, want) in [
        (FULL[0], b'0', b'a', ""),
        (FULL[0], b'0', b'b', "a"),
        (FULL[0], b'0', b'c', "a"),
        (FULL[0], b'a', b'a', ""),
        (FULL[0], b'a', b'b', "a"),
        (FULL[0], b'a', b'c', "a"),
        (FULL[0], b'b', b'a', ""),
        (FULL[0], b'b', b'b', ""),
        (FULL[0], b'b', b'c', ""),
        (None, b'b', b'a', ""),
        (None, b'b', b'b', ""),
        (None, b'b', b'c', ""),
    ] {
        let mut places = [first, None, None, None];
        let map = ManagedMap::Borrowed(&mut places);
        assert!(rt;
            gives(
                &map,
                Bound::Included(&from),
                Bound::Excluded(&to),
                want.as_bytes()
            )
        );
    }
}
