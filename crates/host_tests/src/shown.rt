//! Scripts and the frames of captures as texts.
use crate::calls::{run_over, run_words, strings_of};
use host_top::host_main::host_main;
use net_host::{MemorySource, Report, ScriptSource, SureSource};
use phy_layers::{MemorySink, SureSink};
use std::alloc::{AllocError, Global};
use std::test::Fail;

/// A tick, a query of type 28 for `a b` at 1.5 s, one of type 1 for `-` and an empty frame at 2 s, a frame and a reset at 3 s.
const SCRIPT: &[u8] = b"\x02\x00\x00\x00\x00\x00\x00\x00\x00\
\x05\x00\x00\x00\x00\x00\x16\xe3\x60\x00\x1c\x03a b\
\x05\x00\x00\x00\x00\x00\x1e\x84\x80\x00\x01\x01-\
\x01\x00\x00\x00\x00\x00\x1e\x84\x80\x00\x00\
\x01\x00\x00\x00\x00\x00\x2d\xc6\xc0\x00\x02\x0a\xff\
\x04\x00\x00\x00\x00\x00\x2d\xc6\xc0";

const TEXT: &[u8] = b"0.000000 tick
1.500000 query AAAA a\\20b
2.000000 query A \\2d
2.000000 frame
3.000000 frame 0aff
3.000000 reset
# done
";

/// Ticks at 0, 9.999999 and 10 s: a run of them sends two discovers.
const TICKS: &[u8] = b"\x02\x00\x00\x00\x00\x00\x00\x00\x00\
\x02\x00\x00\x00\x00\x00\x98\x96\x7f\x02\x00\x00\x00\x00\x00\x98\x96\x80";

/// A header and entries of two, no and one bytes, at the same and at a later time.
const CAPTURE: &[u8] =
    b"\xd4\xc3\xb2\xa1\x02\x00\x04\x00\x00\x00\x00\x00\x00\x00\x00\x00\x00\x00\x04\x00\x01\x00\x00\x00\
\x01\x00\x00\x00\x02\x00\x00\x00\x02\x00\x00\x00\x09\x00\x00\x00\x0a\xff\
\x01\x00\x00\x00\x02\x00\x00\x00\x00\x00\x00\x00\x03\x00\x00\x00\
\x02\x00\x00\x00\x01\x00\x00\x00\x01\x00\x00\x00\x01\x00\x00\x00\x23";

const CAPTURE_TEXT: &[u8] = b"1.000002 frame 0aff
1.000002 frame
2.000001 frame 23
# done
";

/// A command, what it reads, the status, and what is printed.
type Shown = (&'static [&'static str], &'static [u8], u8, &'static [u8]);

const SHOWN: [Shown; 8] = [
    (&["show", "10"], SCRIPT, 0, TEXT),
    (&["show", "00006"], SCRIPT, 0, TEXT),
    (&["show", "1"], b"", 0, b"# done\n"),
    (
        &["show", "1"],
        SCRIPT,
        3,
        b"0.000000 tick\n# event limit reached\n",
    ),
    (
        &["show", "2"],
        b"\x02\x00\x00\x00\x00\x00\x00\x00\x01\x02\x00\x00\x00\x00\x00\x00\x00\x00",
        2,
        b"0.000001 tick\n# script error at 9\n",
    ),
    (&["frames", "3"], CAPTURE, 0, CAPTURE_TEXT),
    (
        &["frames", "1"],
        CAPTURE,
        3,
        b"1.000002 frame 0aff\n# frame limit reached\n",
    ),
    (&["frames", "1"], b"", 2, b"# capture error at 0\n"),
];

/// Behind the header: entries that are none of a script, and the place of the error.
const REFUSED: [(&[u8], &[u8]); 3] = [
    // A whole second of microseconds.
    (
        b"\x00\x00\x00\x00\x40\x42\x0f\x00\x00\x00\x00\x00\x00\x00\x00\x00",
        b"# capture error at 24\n",
    ),
    // A time below that of the entry before.
    (
        b"\x01\x00\x00\x00\x00\x00\x00\x00\x00\x00\x00\x00\x00\x00\x00\x00\
\x00\x00\x00\x00\x3f\x42\x0f\x00\x00\x00\x00\x00\x00\x00\x00\x00",
        b"1.000000 frame\n# capture error at 40\n",
    ),
    // Cut short.
    (b"\x00\x00\x00\x00\x00", b"# capture error at 24\n"),
];

fn shows(alloc: Global, (words, input, status, text): Shown) -> Result<bool, AllocError> {
    let ran = run_words(alloc, words, &[], input)?;
    let is_left = ran.captured.is_empty() && ran.report.rows().is_empty();
    Ok(ran.status == status && ran.printed.as_slice() == text && is_left)
}

#[test]
fn scripts_and_captures_are_shown(rt: HostRuntime) -> Result<(), Fail> {
    for (number, row) in SHOWN.iter().enumerate() {
        assert!(rt; shows(rt.alloc(), *row)?, "row {number}");
    }
    for (entries, text) in REFUSED {
        let mut capture = Vec::from_slice(rt.alloc(), &CAPTURE[..24])?;
        capture.extend_from_slice(entries)?;
        let ran = run_words(rt.alloc(), &["frames", "9"], &[], capture.as_slice())?;
        assert!(rt; ran.status == 2 && ran.printed.as_slice() == text);
    }
    Ok(())
}

/// The line of a frame of 65,535 bytes is written, and a longer one is refused.
#[test]
fn the_longest_frame_is_shown(rt: HostRuntime) -> Result<(), Fail> {
    for (len, status, printed) in [(65_535u32, 0u8, 15 + 2 * 65_535 + 8), (65_536, 2, 22)] {
        let mut capture = Vec::from_slice(rt.alloc(), &CAPTURE[..24])?;
        capture.extend_from_slice(&[0; 8])?;
        capture.extend_from_slice(&len.to_le_bytes())?;
        capture.extend_from_slice(&len.to_le_bytes())?;
        for _byte in 0..len {
            capture.push(0)?;
        }
        let ran = run_words(rt.alloc(), &["frames", "1"], &[], capture.as_slice())?;
        assert!(rt;
            ran.status == status && ran.printed.len() == printed,
            "{len} bytes"
        );
    }
    Ok(())
}

/// The frames of a run's capture: a discover at once, and one after ten seconds.
#[test]
fn captures_of_runs_are_shown(rt: HostRuntime) -> Result<(), Fail> {
    let run = run_words(rt.alloc(), &["run", "020202020202", "1", "3"], &[], TICKS)?;
    assert!(rt; run.captured.len() == 664);
    let all = run_words(rt.alloc(), &["frames", "10"], &[], run.captured.as_slice())?;
    let text = all.printed.as_slice();
    assert!(rt; all.status == 0 && text.len() == 623 + 1 + 624 + 1 + 7);
    assert!(rt; text.starts_with(b"0.000000 frame ffffffffffff0202020202020800"));
    assert!(rt; text[623..].starts_with(b"\n10.000000 frame ffffffffffff0202020202020800"));
    assert!(rt; text[623 + 1 + 624..] == b"\n# done\n"[..]);
    let first = run_words(rt.alloc(), &["frames", "1"], &[], run.captured.as_slice())?;
    assert!(rt; first.status == 3 && first.printed.len() == 623 + 1 + 22);
    assert!(rt;
        first
            .printed
            .as_slice()
            .starts_with(b"0.000000 frame ffffffffffff0202020202020800")
    );
    assert!(rt;
        first
            .printed
            .as_slice()
            .ends_with(b"\n# frame limit reached\n")
    );
    Ok(())
}

/// What reads so many bytes before it fails, and its text.
const FAILING: [(&[&str], &[u8], &[u8], u64); 2] = [
    // Two reads for a tick or a reset, four for a frame, five for a query with its type, one less for no bytes; one at the end.
    (&["show", "10"], SCRIPT, TEXT, 22),
    // One for the header; three for an entry, two for one of no bytes; one at the end.
    (&["frames", "10"], CAPTURE, CAPTURE_TEXT, 10),
];

/// The source fails at a read: the status, and whether a front of the text and the last line were printed.
fn read_fails(
    alloc: Global,
    (words, input, text, _): (&[&str], &[u8], &[u8], u64),
    fails: u64,
) -> Result<(u8, bool), AllocError> {
    let args = strings_of(alloc, words, &[])?;
    let bytes = Vec::from_slice(alloc, input)?;
    let mut source = MemorySource::new(bytes, 65_535, Vec::from_slice(alloc, &[fails])?);
    let mut capture = SureSink::new(alloc);
    let (status, printed, _) = run_over(alloc, args.as_slice(), &mut source, &mut capture)?;
    let line = b"# read fault\n";
    let is_front = printed.as_slice().ends_with(line)
        && text.starts_with(&printed.as_slice()[..printed.len() - line.len()]);
    Ok((status, is_front && capture.bytes().is_empty()))
}

#[test]
fn each_failing_read_ends_a_text(rt: HostRuntime) -> Result<(), Fail> {
    for (number, row) in FAILING.iter().enumerate() {
        for read in 1..=row.3 {
            let (status, is_front) = read_fails(rt.alloc(), *row, read)?;
            assert!(rt; status == 4 && is_front, "row {number}, read {read}");
        }
        let (status, _) = read_fails(rt.alloc(), *row, row.3 + 1)?;
        assert!(rt; status == 0, "row {number}");
    }
    Ok(())
}

/// The output fails at a call: the status, and whether a front of the text was printed and the input read to its end.
fn write_fails(
    alloc: Global,
    (words, input, text, _): (&[&str], &[u8], &[u8], u64),
    fails: u64,
) -> Result<(u8, bool), Fail> {
    let args = strings_of(alloc, words, &[])?;
    let mut source = SureSource::new(Vec::from_slice(alloc, input)?);
    let mut capture = SureSink::new(alloc);
    let mut out = MemorySink::new(alloc, 1000, Vec::from_slice(alloc, &[fails])?)?;
    let mut report = Report::new(alloc);
    let status = host_main(
        alloc,
        args.as_slice(),
        &mut source,
        &mut capture,
        &mut out,
        &mut report,
    );
    let mut more = [0u8; 1];
    let is_read = matches!(source.read(&mut more), Ok(0));
    Ok((status, is_read && text.starts_with(out.bytes())))
}

#[test]
fn each_failing_write_leaves_a_front_of_a_text(rt: HostRuntime) -> Result<(), Fail> {
    for (number, row) in FAILING.iter().enumerate() {
        let mut calls = 0;
        for call in 1..=200 {
            let (status, is_front) = write_fails(rt.alloc(), *row, call)?;
            assert!(rt; is_front, "row {number}, call {call}");
            if status != 6 {
                assert!(rt; status == 0, "row {number}, call {call}");
                break;
            }
            calls = call;
        }
        // A line has the seconds, the point, the microseconds, the blank, the word and the line feed at least.
        assert!(rt; calls > 20 && calls < 200, "row {number}");
    }
    Ok(())
}
