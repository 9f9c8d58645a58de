//! Queries in a script.
use crate::calls::run_words;
use std::alloc::{AllocError, Global};
use std::test::Fail;

/// The bytes that name a query: for the type A, and with its type.
const QUERY: u8 = 3;

const TYPED_QUERY: u8 = 5;

/// A tick at the time 0.
const TICK: &[u8] = b"\x02\0\0\0\0\0\0\0\0";

/// The words of a run, without the greatest number of its events.
const RUN: [&str; 3] = ["run", "020202020202", "1"];

/// A query at the time 0, behind other bytes.
fn query(alloc: Global, first: &[u8], kind: u8, rest: &[u8]) -> Result<Vec<u8>, AllocError> {
    let mut script = Vec::from_slice(alloc, first)?;
    script.extend_from_slice(&[kind, 0, 0, 0, 0, 0, 0, 0, 0])?;
    script.extend_from_slice(rest)?;
    Ok(script)
}

const REFUSED: [(u8, &[u8]); 11] = [
    // The types NS, CNAME and 257, which ends as A does.
    (TYPED_QUERY, b"\x00\x02\x01a"),
    (TYPED_QUERY, b"\x00\x05"),
    (TYPED_QUERY, b"\x01\x01\x01a"),
    // Names that are not UTF-8: a first byte without the next, one too long for its number, half a pair.
    (QUERY, b"\x02\xc3\x28"),
    (QUERY, b"\x02\xc0\x80"),
    (TYPED_QUERY, b"\x00\x1c\x03\xed\xa0\x80"),
    // The input ends in front of a length, inside a type and inside names.
    (QUERY, b""),
    (TYPED_QUERY, b"\x00"),
    (TYPED_QUERY, b"\x00\x01"),
    (QUERY, b"\x03ab"),
    (QUERY, b"\x03\xff"),
];

/// Whether the script is broken where the query begins, alone and behind a tick.
fn is_refused(alloc: Global, (kind, rest): (u8, &[u8])) -> Result<bool, AllocError> {
    let script = query(alloc, &[], kind, rest)?;
    let alone = run_words(alloc, &RUN, &["1"], script.as_slice())?;
    let script = query(alloc, TICK, kind, rest)?;
    let second = run_words(alloc, &RUN, &["2"], script.as_slice())?;
    let has_line = alone.printed.as_slice() == b"script error at 0\n".as_slice();
    let has_second = second.printed.as_slice().ends_with(b"script error at 9\n");
    Ok(alone.status == 2 && second.status == 2 && has_line && has_second)
}

#[test]
fn queries_that_are_refused(rt: HostRuntime) -> Result<(), Fail> {
    for (number, refused) in REFUSED.iter().enumerate() {
        assert!(rt; is_refused(rt.alloc(), *refused)?, "query {number}");
    }
    Ok(())
}

const LABEL_63: &[u8] = &[b'a'; 63];

/// The parts of a query, and what becomes of it: without a lease no server is asked.
const ENDED: [(u8, &[&[u8]], &str); 14] = [
    (QUERY, &[b"\x03a.b"], "failed"),
    (QUERY, &[b"\x04a.b."], "failed"),
    (TYPED_QUERY, &[b"\x00\x01\x03a.b"], "failed"),
    (TYPED_QUERY, &[b"\x00\x1c\x03a.b"], "failed"),
    (QUERY, &[b"\x07b\xc3\xbccher"], "failed"),
    (QUERY, &[b"\x05local"], "failed"),
    // No label, and an empty one.
    (QUERY, &[b"\x00"], "refused invalid-name"),
    (TYPED_QUERY, &[b"\x00\x1c\x00"], "refused invalid-name"),
    (QUERY, &[b"\x03a.."], "refused invalid-name"),
    // Labels of 63, 64 and 255 bytes.
    (QUERY, &[b"\x3f", LABEL_63], "failed"),
    (QUERY, &[b"\x40", LABEL_63, b"a"], "refused invalid-name"),
    (QUERY, &[b"\xff", &[b'a'; 255]], "refused invalid-name"),
    // 255 and 256 bytes, with the length bytes and the closing zero.
    (
        QUERY,
        &[
            b"\xfd",
            LABEL_63,
            b".",
            LABEL_63,
            b".",
            LABEL_63,
            b".",
            &[b'b'; 61],
        ],
        "failed",
    ),
    (
        QUERY,
        &[
            b"\xfe",
            LABEL_63,
            b".",
            LABEL_63,
            b".",
            LABEL_63,
            b".",
            &[b'b'; 62],
        ],
        "refused name-too-long",
    ),
];

fn ends(alloc: Global, (kind, parts, line): (u8, &[&[u8]], &str)) -> Result<bool, AllocError> {
    let mut script = query(alloc, &[], kind, b"")?;
    for part in parts {
        script.extend_from_slice(part)?;
    }
    let ran = run_words(alloc, &RUN, &["1"], script.as_slice())?;
    let text = format!(in alloc;
        "0 0.000000 query lease none\n  sent dhcp 304\n  query 0 {line}\ndone\n"
    )?;
    let has_text = ran.printed.as_slice() == text.as_bytes();
    Ok(ran.status == 0 && has_text && ran.captured.len() == 344)
}

#[test]
fn queries_end_where_nobody_is_asked(rt: HostRuntime) -> Result<(), Fail> {
    for (number, ended) in ENDED.iter().enumerate() {
        assert!(rt; ends(rt.alloc(), *ended)?, "query {number}");
    }
    Ok(())
}
