//! Whole lives of leases, and of queries within them. What the host says and sends, and what it captures, is from
//! `scripts/make-lives`, which reads it off the list of events.
use crate::calls::run_words;
use crate::lookups::LOOKUPS;
use crate::replies::*;
use std::alloc::{AllocError, Global};
use std::test::Fail;

/// An event's time in microseconds, what it is, the lease after it, and the lines of what is sent and of queries.
pub(crate) type Row = (u64, What, &'static str, &'static str);

/// Words behind the count, events, and how long the capture is and what it sums to.
pub(crate) type Life = (&'static [&'static str], &'static [Row], usize, u32);

pub(crate) const TICK: What = (2, "tick", &[]);

pub(crate) const RESET: What = (4, "reset", &[]);

pub(crate) const NONE: &str = "none";

pub(crate) const LEASED: &str = "192.168.1.42/24";

pub(crate) const NOTHING: &str = "";

pub(crate) const MESSAGE: &str = "  sent dhcp 304\n";

pub(crate) const REQUEST: &str = "  sent dhcp 316\n";

pub(crate) const QUESTION: &str = "  sent arp-request 42\n";

const LIVES: [Life; 15] = [
    // An offer before any message.
    (&[], &[(0, EARLY_OFFER, NONE, REQUEST)], 688, 0x08852f26),
    // Requests that nobody answers.
    (
        &[],
        &[
            (0, EARLY_OFFER, NONE, REQUEST),
            (4_999_999, TICK, NONE, NOTHING),
            (5_000_000, TICK, NONE, REQUEST),
            (9_999_999, TICK, NONE, NOTHING),
            (10_000_000, TICK, NONE, REQUEST),
            (19_999_999, TICK, NONE, NOTHING),
            (20_000_000, TICK, NONE, REQUEST),
            (29_999_999, TICK, NONE, NOTHING),
            (30_000_000, TICK, NONE, REQUEST),
            (40_000_000, TICK, NONE, NOTHING),
            (49_999_999, TICK, NONE, NOTHING),
            (50_000_000, TICK, NONE, MESSAGE),
        ],
        2336,
        0x042c9c0c,
    ),
    // Renewals, and the end of the lease.
    (
        &[],
        &[
            (0, TICK, NONE, MESSAGE),
            (0, OFFERED, NONE, REQUEST),
            (0, ACKNOWLEDGED, LEASED, NOTHING),
            (490_000_000, ROUTER_IS_AT, LEASED, NOTHING),
            (500_000_000, TICK, LEASED, MESSAGE),
            (677_500_000, ROUTER_IS_AT, LEASED, NOTHING),
            (687_500_000, TICK, LEASED, MESSAGE),
            (771_250_000, ROUTER_IS_AT, LEASED, NOTHING),
            (781_250_000, TICK, LEASED, MESSAGE),
            (831_250_000, ROUTER_IS_AT, LEASED, NOTHING),
            (841_250_000, TICK, LEASED, MESSAGE),
            (875_000_000, TICK, LEASED, MESSAGE),
            (937_499_999, TICK, LEASED, NOTHING),
            (937_500_000, TICK, LEASED, MESSAGE),
            (997_499_999, TICK, LEASED, NOTHING),
            (997_500_000, TICK, LEASED, MESSAGE),
            (999_999_999, TICK, LEASED, NOTHING),
            (1_000_000_000, TICK, NONE, MESSAGE),
        ],
        4132,
        0xbd4d0e81,
    ),
    // A renewal that is acknowledged at the end.
    (
        &[],
        &[
            (0, TICK, NONE, MESSAGE),
            (0, OFFERED, NONE, REQUEST),
            (0, ACKNOWLEDGED, LEASED, NOTHING),
            (490_000_000, ROUTER_IS_AT, LEASED, NOTHING),
            (500_000_000, TICK, LEASED, MESSAGE),
            (677_500_000, ROUTER_IS_AT, LEASED, NOTHING),
            (687_500_000, TICK, LEASED, MESSAGE),
            (771_250_000, ROUTER_IS_AT, LEASED, NOTHING),
            (781_250_000, TICK, LEASED, MESSAGE),
            (831_250_000, ROUTER_IS_AT, LEASED, NOTHING),
            (841_250_000, TICK, LEASED, MESSAGE),
            (875_000_000, TICK, LEASED, MESSAGE),
            (937_499_999, TICK, LEASED, NOTHING),
            (937_500_000, TICK, LEASED, MESSAGE),
            (997_499_999, TICK, LEASED, NOTHING),
            (997_500_000, TICK, LEASED, MESSAGE),
            (1_000_000_000, ACKNOWLEDGED_LATE, LEASED, NOTHING),
        ],
        4144,
        0xc4161221,
    ),
    // No renewal before the hop is known.
    (
        &[],
        &[
            (0, TICK, NONE, MESSAGE),
            (0, OFFERED, NONE, REQUEST),
            (0, ACKNOWLEDGED, LEASED, NOTHING),
            (499_000_000, TICK, LEASED, NOTHING),
            (500_000_000, TICK, LEASED, QUESTION),
            (600_000_000, TICK, LEASED, QUESTION),
            (875_000_000, TICK, LEASED, MESSAGE),
        ],
        1776,
        0x22e284be,
    ),
    // A lease of no time.
    (
        &[],
        &[
            (0, TICK, NONE, MESSAGE),
            (1_000_000, OFFERED, NONE, REQUEST),
            (2_000_000, NO_TIME, NONE, MESSAGE),
        ],
        1660,
        0xfb0f6b96,
    ),
    // A flipped bit.
    (
        &[],
        &[
            (0, TICK, NONE, MESSAGE),
            (1_000_000, OFFERED, NONE, REQUEST),
            (2_000_000, FLIPPED, NONE, NOTHING),
        ],
        1340,
        0xbfdf5951,
    ),
    // A fragment.
    (
        &[],
        &[
            (0, TICK, NONE, MESSAGE),
            (1_000_000, OFFERED, NONE, REQUEST),
            (2_000_000, FRAGMENT, NONE, NOTHING),
        ],
        1340,
        0xbe605950,
    ),
    // A tag.
    (
        &[],
        &[
            (0, TICK, NONE, MESSAGE),
            (1_000_000, OFFERED, NONE, REQUEST),
            (2_000_000, TAGGED, NONE, NOTHING),
        ],
        1344,
        0x762f59de,
    ),
    // A length past the end.
    (
        &[],
        &[
            (0, TICK, NONE, MESSAGE),
            (1_000_000, OFFERED, NONE, REQUEST),
            (2_000_000, TOO_LONG, NONE, NOTHING),
        ],
        1340,
        0xbee85950,
    ),
    // No checksum.
    (
        &[],
        &[
            (0, TICK, NONE, MESSAGE),
            (1_000_000, OFFERED, NONE, REQUEST),
            (2_000_000, UNSUMMED, LEASED, NOTHING),
        ],
        1340,
        0x962b583c,
    ),
    // Padding.
    (
        &[],
        &[
            (0, TICK, NONE, MESSAGE),
            (1_000_000, OFFERED, NONE, REQUEST),
            (2_000_000, PADDED, LEASED, NOTHING),
        ],
        1360,
        0xeef95978,
    ),
    // A refusal.
    (
        &[],
        &[
            (0, TICK, NONE, MESSAGE),
            (0, OFFERED, NONE, REQUEST),
            (0, ACKNOWLEDGED, LEASED, NOTHING),
            (1_000_000, REFUSED, NONE, MESSAGE),
        ],
        1968,
        0xbfd27b64,
    ),
    // A refusal that is ignored.
    (
        &["naks=ignore"],
        &[
            (0, TICK, NONE, MESSAGE),
            (0, OFFERED, NONE, REQUEST),
            (0, ACKNOWLEDGED, LEASED, NOTHING),
            (1_000_000, REFUSED, LEASED, NOTHING),
        ],
        1648,
        0xe2036721,
    ),
    // A lease that is cut down.
    (
        &["lease=10"],
        &[
            (0, TICK, NONE, MESSAGE),
            (0, OFFERED, NONE, REQUEST),
            (0, ACKNOWLEDGED, LEASED, NOTHING),
            (1_000_000, ROUTER_IS_AT, LEASED, NOTHING),
            (4_999_999, TICK, LEASED, NOTHING),
            (5_000_000, TICK, LEASED, MESSAGE),
            (8_750_000, TICK, LEASED, MESSAGE),
            (10_000_000, TICK, NONE, MESSAGE),
        ],
        2358,
        0xdac89b56,
    ),
];

/// The script of the events, and the text of their report.
pub(crate) fn life_of(alloc: Global, rows: &[Row]) -> Result<(Vec<u8>, Vec<u8>), AllocError> {
    let mut script = Vec::new(alloc);
    let mut text = Vec::new(alloc);
    for (number, (at, (kind, what, parts), lease, sent)) in rows.iter().enumerate() {
        script.push(*kind)?;
        script.extend_from_slice(&at.to_be_bytes())?;
        let mut frame = Vec::new(alloc);
        for part in *parts {
            frame.extend_from_slice(part)?;
        }
        if *kind == 1 {
            let len = (frame.len() % 0x1_0000) as u16;
            script.extend_from_slice(&len.to_be_bytes())?;
        }
        script.extend_from_slice(frame.as_slice())?;
        let secs = *at / 1_000_000;
        let micros = *at % 1_000_000;
        let line = format!(in alloc; "{number} {secs}.{micros:06} {what} lease {lease}\n{sent}")?;
        text.extend_from_slice(line.as_bytes())?;
    }
    text.extend_from_slice(b"done\n")?;
    Ok((script, text))
}

/// The checksum of RFC 1950 (Adler-32).
pub(crate) fn adler(bytes: &[u8]) -> u32 {
    let mut low: u32 = 1;
    let mut high: u32 = 0;
    for byte in bytes {
        low = low.wrapping_add(u32::from(*byte)) % 65521;
        high = high.wrapping_add(low) % 65521;
    }
    high << 16 | low
}

/// Whether a run prints and captures what the life says.
fn is_lived(alloc: Global, (settings, rows, captured, sum): Life) -> Result<bool, AllocError> {
    let (script, text) = life_of(alloc, rows)?;
    let words = ["run", "020202020202", "1", "20"];
    let ran = run_words(alloc, &words, settings, script.as_slice())?;
    Ok(
        ran.status == 0
            && ran.printed.as_slice() == text.as_slice()
            && ran.captured.len() == captured
            && adler(ran.captured.as_slice()) == sum,
    )
}

#[test]
fn lives_are_those_of_another_reader(rt: HostRuntime) -> Result<(), Fail> {
    for (number, life) in LIVES.iter().enumerate() {
        assert!(rt; is_lived(rt.alloc(), *life)?, "life {number}");
    }
    for (number, life) in LOOKUPS.iter().enumerate() {
        assert!(rt; is_lived(rt.alloc(), *life)?, "lookup {number}");
    }
    Ok(())
}
