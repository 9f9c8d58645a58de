//! Rows that are printed as they come.
use crate::calls::run_words;
use std::alloc::{AllocError, Global};
use std::test::Fail;

/// Two ticks and a frame that is no Ethernet frame, and then what is no event.
const SCRIPT: &[u8] =
    b"\x02\x00\x00\x00\x00\x00\x00\x00\x00\x02\x00\x00\x00\x00\x00\x98\x96\x80\x01\x00\x00\x00\x00\x01\x31\x2d\x00\x00\x02\xab\xcd\x07";

/// The words of a run, its status and its last line.
type Live = (&'static [&'static str], u8, &'static [u8]);

/// Over a good link and over a bad one.
const RUNS: [Live; 3] = [
    (
        &["run", "020202020202", "1", "3"],
        3,
        b"event limit reached\n",
    ),
    (
        &["run", "020202020202", "1", "2", "mtu=576", "lease=60"],
        3,
        b"event limit reached\n",
    ),
    (
        &["disturb", "020202020202", "1", "10", "7", "50", "50"],
        2,
        b"script error at 31\n",
    ),
];

/// Whether the run leaves the same with `live` in front.
fn is_alike(alloc: Global, (words, status, last_line): Live) -> Result<bool, AllocError> {
    let plain = run_words(alloc, words, &[], SCRIPT)?;
    let live = run_words(alloc, &["live"], words, SCRIPT)?;
    let ends = live.status == status && live.printed.as_slice().ends_with(last_line);
    let is_same = live.printed.as_slice() == plain.printed.as_slice()
        && live.captured.as_slice() == plain.captured.as_slice();
    Ok(ends && is_same && plain.status == status)
}

#[test]
fn live_leaves_what_the_command_leaves(rt: HostRuntime) -> Result<(), Fail> {
    for (number, live) in RUNS.iter().enumerate() {
        assert!(rt; is_alike(rt.alloc(), *live)?, "run {number}");
    }
    Ok(())
}
