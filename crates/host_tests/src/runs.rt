//! Runs over ticks and resets.
use crate::calls::{FILE_HEADER, run_words};
use crate::plain::{capture_of, discover_frame, packet_record, rows_of, text_of};
use net_host::{HostConfig, HostValues, Report, RunError, SureSource, run};
use net_wire::EthernetAddress;
use phy_layers::SureSink;
use std::alloc::{AllocError, Global};
use std::test::Fail;

/// The bytes that name a tick and a reset.
const TICK: u8 = 2;

const RESET: u8 = 4;

/// The words of a run, without the greatest number of its events.
const RUN: [&str; 3] = ["run", "020202020202", "1"];

/// The script of events of these kinds at these times in microseconds.
fn script_of(alloc: Global, events: &[(u8, u64)]) -> Result<Vec<u8>, AllocError> {
    let mut script = Vec::new(alloc);
    for (kind, micros) in events {
        script.push(*kind)?;
        script.extend_from_slice(&micros.to_be_bytes())?;
    }
    Ok(script)
}

/// A run that is done: events, the text, and the second, id and checksum of each discover, by another implementation of the
/// standards; how long the capture is.
type Done = (
    &'static [(u8, u64)],
    &'static [u8],
    &'static [(u32, u32, u16)],
    usize,
);

const DONE: [Done; 3] = [
    (&[], b"done\n", &[], 24),
    (
        &[(TICK, 0), (TICK, 9_999_999), (TICK, 10_000_000)],
        b"0 0.000000 tick lease none
  sent dhcp 304
1 9.999999 tick lease none
2 10.000000 tick lease none
  sent dhcp 304
done
",
        &[(0, 0x0004_2021, 0x5855), (10, 0x25b2_331a, 0x1fae)],
        664,
    ),
    (
        &[
            (TICK, 0),
            (RESET, 1_000_000),
            (TICK, 10_999_999),
            (TICK, 11_000_000),
        ],
        b"0 0.000000 tick lease none
  sent dhcp 304
1 1.000000 reset lease none
  sent dhcp 304
2 10.999999 tick lease none
3 11.000000 tick lease none
  sent dhcp 304
done
",
        &[
            (0, 0x0004_2021, 0x5855),
            (1, 0x1255_994f, 0xccd5),
            (11, 0xadd0_2374, 0xa735),
        ],
        984,
    ),
];

fn is_done(alloc: Global, (events, text, sent, len): Done) -> Result<bool, AllocError> {
    let script = script_of(alloc, events)?;
    let ran = run_words(alloc, &RUN, &["4"], script.as_slice())?;
    let mut capture = Vec::from_slice(alloc, FILE_HEADER)?;
    for (secs, id, checksum) in sent {
        let frame = discover_frame(alloc, *id, *checksum)?;
        capture.extend_from_slice(packet_record(alloc, *secs, frame.as_slice())?.as_slice())?;
    }
    Ok(
        ran.status == 0
            && ran.printed.as_slice() == text
            && ran.captured.len() == len
            && ran.captured.as_slice() == capture.as_slice(),
    )
}

#[test]
fn discovers_go_out_every_ten_seconds_and_at_a_reset(rt: HostRuntime) -> Result<(), Fail> {
    for (number, run) in DONE.iter().enumerate() {
        assert!(rt; is_done(rt.alloc(), *run)?, "run {number}");
    }
    Ok(())
}

/// A run that stops: the greatest number of events, the script, the status, how the text ends, and how long the capture is.
type Stopped = (&'static str, &'static [u8], u8, &'static [u8], usize);

const STOPPED: [Stopped; 5] = [
    (
        "1",
        b"\x02\0\0\0\0\0\0\0\0\x02",
        3,
        b"event limit reached\n",
        344,
    ),
    ("1", b"\x02\0", 2, b"script error at 0\n", 24),
    ("1", b"\x04\0\0\0\0\0\0\0", 2, b"script error at 0\n", 24),
    ("1", b"\x06\0\0\0\0\0\0\0\0", 2, b"script error at 0\n", 24),
    (
        "2",
        b"\x02\0\0\0\0\0\x0f\x42\x40\x02\0\0\0\0\0\0\0\0",
        2,
        b"script error at 9\n",
        344,
    ),
];

fn stops(alloc: Global, (max, script, status, line, len): Stopped) -> Result<bool, AllocError> {
    let ran = run_words(alloc, &RUN, &[max], script)?;
    let ends = ran.printed.as_slice().ends_with(line);
    Ok(ran.status == status && ends && ran.captured.len() == len)
}

#[test]
fn scripts_that_stop_a_run(rt: HostRuntime) -> Result<(), Fail> {
    for (number, run) in STOPPED.iter().enumerate() {
        assert!(rt; stops(rt.alloc(), *run)?, "run {number}");
    }
    Ok(())
}

const EVENTS: [&[(u8, u64)]; 4] = [
    &[
        (TICK, 0),
        (TICK, 9_999_999),
        (TICK, 10_000_000),
        (TICK, 19_999_999),
        (TICK, 20_000_001),
    ],
    &[
        (TICK, 5_000_000),
        (TICK, 5_000_000),
        (TICK, 14_999_999),
        (TICK, 15_000_000),
        (TICK, 40_000_000),
        (TICK, 49_000_000),
    ],
    &[
        (RESET, 0),
        (RESET, 0),
        (TICK, 9_000_000),
        (RESET, 9_500_000),
        (TICK, 19_499_999),
        (TICK, 19_500_000),
    ],
    &[(TICK, 4_294_967_295_999_999)],
];

fn is_as_plain(alloc: Global, events: &[(u8, u64)]) -> Result<bool, AllocError> {
    let script = script_of(alloc, events)?;
    let ran = run_words(alloc, &RUN, &["10"], script.as_slice())?;
    let rows = rows_of(alloc, events, 1)?;
    let text = text_of(alloc, rows.as_slice())?;
    let capture = capture_of(alloc, FILE_HEADER, rows.as_slice())?;
    Ok(
        ran.status == 0
            && ran.printed.as_slice() == text.as_slice()
            && ran.captured.as_slice() == capture.as_slice(),
    )
}

#[test]
fn runs_are_those_of_the_plain_core(rt: HostRuntime) -> Result<(), Fail> {
    for (number, events) in EVENTS.iter().enumerate() {
        assert!(rt; is_as_plain(rt.alloc(), events)?, "run {number}");
    }
    Ok(())
}

fn report_of_ticks(alloc: Global, last: u64) -> Result<Report, AllocError> {
    let script = script_of(alloc, &[(TICK, 0), (TICK, last)])?;
    let ran = run_words(alloc, &RUN, &["9"], script.as_slice())?;
    Ok(ran.report)
}

#[test]
fn reports_compare_by_their_rows(rt: HostRuntime) -> Result<(), Fail> {
    let one = report_of_ticks(rt.alloc(), 10_000_000)?;
    let same = report_of_ticks(rt.alloc(), 10_000_000)?;
    let other = report_of_ticks(rt.alloc(), 9_999_999)?;
    assert!(rt; one == same && one != other);
    Ok(())
}

#[test]
fn two_words_are_too_few_for_an_event(rt: HostRuntime) -> Result<(), Fail> {
    let alloc = rt.alloc();
    let values = HostValues {
        hardware: EthernetAddress([2; 6]),
        ip_mtu: 1500,
        retry: Default::default(),
        server_port: 67,
        client_port: 68,
        max_lease: None,
        ignore_naks: false,
        parameters: &[1, 3, 6],
        options: &[],
    };
    let config = HostConfig::new(values)?;
    let mut source = SureSource::new(script_of(alloc, &[(TICK, 0)])?);
    let mut capture = SureSink::new(alloc);
    let mut report = Report::new(alloc);
    let answer = run(
        alloc,
        &mut source,
        &mut capture,
        &config,
        &[1, 2],
        1,
        &mut report,
    );
    assert!(rt;
        answer == Err(RunError::Words) && report.rows().len() == 0 && capture.bytes() == FILE_HEADER
    );
    Ok(())
}
