//! Runs over a bad link. What the host meets, says and captures is from `scripts/plain_faults.py` and `scripts/plain_host.py`.
use crate::calls::run_words;
use crate::lives::{
    LEASED, Life, MESSAGE, NONE, NOTHING, QUESTION, REQUEST, Row, TICK, adler, life_of,
};
use crate::replies::*;
use host_disturb::{FaultValues, run_disturbed};
use host_top::generator::words_of;
use host_top::report_text::report_text;
use net_host::{HostConfig, HostValues, Report, SureSource};
use net_wire::{Duration, EthernetAddress};
use phy_layers::SureSink;
use std::alloc::{AllocError, Global};
use std::test::Fail;

/// Chances with a seed, no size limit and no rate.
fn chances(seed: u32, drop_chance: u8, corrupt_chance: u8) -> FaultValues {
    FaultValues {
        seed,
        drop_chance,
        corrupt_chance,
        max_size: 0,
        rate: 0,
        interval: Duration::MAX,
    }
}

/// The reply of the router whose sender's hardware address ends in 81 and not in 01.
const ROUTER_IS_ELSEWHERE: What = (
    1,
    "frame 42 exts=0 net=arp transport=none window=14-42 incomplete=0 fragmented=0 stop=none",
    &[
        ADDRESSES,
        b"\x08\x06\x00\x01\x08\x00\x06\x04\x00\x02",
        b"\x02\x00\x00\x00\x00\x81\xc0\xa8\x01\x01\x02\x02\x02\x02\x02\x02\xc0\xa8\x01\x2a",
    ],
);

/// A link's seed and chances, the script, and the life that is met.
type Disturbed = ((u32, u8, u8), &'static [Row], Life);

const DISTURBED: [Disturbed; 2] = [
    // The offer is dropped.
    (
        (7, 100, 0),
        &[
            (0, TICK, NONE, MESSAGE),
            (1_000_000, OFFERED, NONE, REQUEST),
            (10_000_000, TICK, NONE, MESSAGE),
        ],
        (
            &[],
            &[
                (0, TICK, NONE, MESSAGE),
                (1_000_000, TICK, NONE, NOTHING),
                (10_000_000, TICK, NONE, MESSAGE),
            ],
            664,
            0x61ef2887,
        ),
    ),
    // The highest bit of the byte at 27 is flipped.
    (
        (1, 0, 100),
        &[(0, ROUTER_IS_AT, NONE, MESSAGE)],
        (
            &[],
            &[(0, ROUTER_IS_ELSEWHERE, NONE, MESSAGE)],
            402,
            0xd8f8194c,
        ),
    ),
];

/// A run over a link, by the words of the seed 1: whether it is done, its text, and its capture.
fn run_over_link(
    alloc: Global,
    script: &[u8],
    faults: &FaultValues,
) -> Result<(bool, Vec<u8>, Vec<u8>), Fail> {
    let config = HostConfig::new(HostValues {
        hardware: EthernetAddress([2; 6]),
        ip_mtu: 1500,
        retry: Default::default(),
        server_port: 67,
        client_port: 68,
        max_lease: None,
        ignore_naks: false,
        parameters: &[1, 3, 6],
        options: &[],
    })?;
    let words = words_of(alloc, 1, 60).map_err(|_| AllocError)?;
    let mut source = SureSource::new(Vec::from_slice(alloc, script)?);
    let mut capture = SureSink::new(alloc);
    let mut report = Report::new(alloc);
    if faults.drop_chance > 100 || faults.corrupt_chance > 100 {
        return Ok((false, Vec::new(alloc), Vec::new(alloc)));
    }
    let answer = run_disturbed(
        alloc,
        &mut source,
        &mut capture,
        &config,
        words.as_slice(),
        20,
        faults,
        &mut report,
    );
    let mut text = SureSink::new(alloc);
    let is_printed = report_text(&report, &mut text).is_ok();
    Ok((
        answer == Ok(()) && is_printed,
        Vec::from_slice(alloc, text.bytes())?,
        Vec::from_slice(alloc, capture.bytes())?,
    ))
}

/// Whether the life is met, said and captured.
fn is_met(alloc: Global, disturbed: Disturbed) -> Result<bool, Fail> {
    let ((seed, drop, corrupt), events, (_, met, captured, sum)) = disturbed;
    let (script, _) = life_of(alloc, events)?;
    let (_, wanted) = life_of(alloc, met)?;
    let (is_done, mut text, capture) = run_over_link(
        alloc,
        script.as_slice(),
        &chances(seed, drop, corrupt),
    )?;
    text.extend_from_slice(b"done\n")?;
    Ok(
        is_done
            && text.as_slice() == wanted.as_slice()
            && capture.len() == captured
            && adler(capture.as_slice()) == sum,
    )
}

#[test]
fn frames_are_dropped_and_bits_are_flipped(rt: HostRuntime) -> Result<(), Fail> {
    for (number, disturbed) in DISTURBED.iter().enumerate() {
        assert!(rt; is_met(rt.alloc(), *disturbed)?, "link {number}");
    }
    Ok(())
}

/// A lease that is renewed.
const LEASE: &[Row] = &[
    (0, TICK, NONE, MESSAGE),
    (0, OFFERED, NONE, REQUEST),
    (0, ACKNOWLEDGED, LEASED, NOTHING),
    (499_000_000, TICK, LEASED, NOTHING),
    (500_000_000, TICK, LEASED, QUESTION),
    (500_000_000, ROUTER_IS_AT, LEASED, MESSAGE),
    (1_000_000_000, TICK, NONE, MESSAGE),
];

#[test]
fn a_good_link_changes_nothing(rt: HostRuntime) -> Result<(), Fail> {
    let alloc = rt.alloc();
    let (script, _) = life_of(alloc, LEASE)?;
    let plain = run_words(
        alloc,
        &["run", "020202020202", "1"],
        &["20"],
        script.as_slice(),
    )?;
    let (is_done, mut text, capture) = run_over_link(alloc, script.as_slice(), &chances(1, 0, 0))?;
    text.extend_from_slice(b"done\n")?;
    assert!(rt; is_done && plain.status == 0 && text.as_slice() == plain.printed.as_slice());
    assert!(rt; capture.as_slice() == plain.captured.as_slice() && capture.len() > 1000);
    Ok(())
}
