//! Each single failure of the source, the capture and the output in a whole life: its status and its last line, and
//! what it leaves.
use crate::calls::{run_over, run_words, strings_of};
use crate::lives::life_of;
use crate::lookups::LOOKUPS;
use host_top::host_main::host_main;
use net_host::{MemorySource, Report, SureSource};
use phy_layers::{MemorySink, SureSink};
use std::alloc::{AllocError, Global};
use std::test::Fail;

/// A run, one whose rows are printed as they come, and one over a link that changes nothing: what they leave is the same.
const RUNS: [&[&str]; 3] = [
    &["run", "020202020202", "1", "20"],
    &["live", "run", "020202020202", "1", "20"],
    &["disturb", "020202020202", "1", "20", "7", "0", "0"],
];

/// A script, and what its run leaves without a failure.
#[derive(Drop)]
struct Whole {
    args: Vec<String>,
    script: Vec<u8>,
    text: Vec<u8>,
    captured: Vec<u8>,
}

/// That of the first life with a query.
fn run_whole(alloc: Global, words: &[&str]) -> Result<Whole, AllocError> {
    let (_, rows, _, _) = LOOKUPS[0];
    let (script, text) = life_of(alloc, rows)?;
    let ran = run_words(alloc, words, &[], script.as_slice())?;
    Ok(Whole {
        args: strings_of(alloc, words, &[])?,
        script,
        text,
        captured: ran.captured,
    })
}

/// The source fails at a read: whether that gives 4 and a front of the capture.
fn gives_4(alloc: Global, whole: &Whole, fails: u64) -> Result<bool, AllocError> {
    let script = Vec::from_slice(alloc, whole.script.as_slice())?;
    let mut source = MemorySource::new(script, 65_535, Vec::from_slice(alloc, &[fails])?);
    let mut capture = SureSink::new(alloc);
    let (status, printed, _) = run_over(alloc, whole.args.as_slice(), &mut source, &mut capture)?;
    let has_line = printed.as_slice().ends_with(b"read fault\n");
    Ok(status == 4 && has_line && whole.captured.as_slice().starts_with(capture.bytes()))
}

/// The capture fails at a call: whether that gives 5, and a front of the capture.
fn gives_5(alloc: Global, whole: &Whole, fails: u64) -> Result<bool, Fail> {
    let script = Vec::from_slice(alloc, whole.script.as_slice())?;
    let mut source = SureSource::new(script);
    let mut capture = MemorySink::new(alloc, 3000, Vec::from_slice(alloc, &[fails])?)?;
    let (status, printed, _) = run_over(alloc, whole.args.as_slice(), &mut source, &mut capture)?;
    let has_line = printed.as_slice().ends_with(b"capture fault\n");
    Ok(status == 5 && has_line && whole.captured.as_slice().starts_with(capture.bytes()))
}

/// The output fails at a call: the status, and whether a front of the text was printed and the capture is
/// whole.
fn output_fails(alloc: Global, whole: &Whole, fails: u64) -> Result<(u8, bool), Fail> {
    let script = Vec::from_slice(alloc, whole.script.as_slice())?;
    let mut source = SureSource::new(script);
    let mut capture = SureSink::new(alloc);
    let mut out = MemorySink::new(alloc, 3000, Vec::from_slice(alloc, &[fails])?)?;
    let mut report = Report::new(alloc);
    let args = whole.args.as_slice();
    let status = host_main(
        alloc,
        args,
        &mut source,
        &mut capture,
        &mut out,
        &mut report,
    );
    let is_captured = capture.bytes() == whole.captured.as_slice();
    Ok((
        status,
        is_captured && whole.text.as_slice().starts_with(out.bytes()),
    ))
}

/// Whether each failing read gives 4 and each failing call of the capture 5, and whether each of the output gives 6.
fn failures_have_statuses(alloc: Global, words: &[&str]) -> Result<bool, Fail> {
    let whole = run_whole(alloc, words)?;
    // Two reads for a tick or a reset, four for a frame or a query, and one at the end.
    for read in 1..=33 {
        if !gives_4(alloc, &whole, read)? {
            return Ok(false);
        }
    }
    // Seven calls for the header, and six for each of thirteen records.
    for call in 1..=85 {
        if !gives_5(alloc, &whole, call)? {
            return Ok(false);
        }
    }
    let is_through = !gives_4(alloc, &whole, 34)? && !gives_5(alloc, &whole, 86)?;
    Ok(is_through && output_failures_give_6(alloc, &whole)?)
}

/// Whether each failing call of the output gives 6, of which there are more than a hundred.
fn output_failures_give_6(alloc: Global, whole: &Whole) -> Result<bool, Fail> {
    for call in 1..=1000 {
        let (status, is_front) = output_fails(alloc, whole, call)?;
        if !is_front {
            return Ok(false);
        }
        if status != 6 {
            return Ok(status == 0 && call > 100);
        }
    }
    Ok(false)
}

#[test]
fn each_failure_has_its_status(rt: HostRuntime) -> Result<(), Fail> {
    for (number, words) in RUNS.iter().enumerate() {
        assert!(rt; failures_have_statuses(rt.alloc(), words)?, "run {number}");
    }
    Ok(())
}
