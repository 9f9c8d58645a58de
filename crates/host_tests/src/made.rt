//! Scripts that are made, and their runs.
use crate::calls::{FILE_HEADER, run_over, run_words, strings_of};
use host_top::generator::words_of;
use made_script::make_script;
use net_host::MemorySource;
use phy_layers::{MemorySink, SureSink};
use std::alloc::{AllocError, Global};
use std::test::Fail;

/// A seed and a number of events; the length of the script, and its bytes as digits to the base 31, within 32 bits: from
/// another implementation of the standards.
const SCRIPTS: [(u32, u32, usize, u32); 5] = [
    (1, 0, 0, 0),
    (1, 1, 9, 0x5111_bc04),
    (0, 6, 747, 0x541e_3073),
    (1, 106, 2430, 0x3db5_75e3),
    (4_294_967_295, 1000, 16380, 0x7536_5e0f),
];

fn is_made(
    alloc: Global,
    (seed, count, len, digits): (u32, u32, usize, u32),
) -> Result<bool, AllocError> {
    let Ok(words) = words_of(alloc, seed, count as usize * 3) else {
        return Err(AllocError);
    };
    if words.len() < count as usize * 3 {
        return Ok(false);
    }
    let Ok(bytes) = make_script(alloc, words.as_slice(), count) else {
        return Err(AllocError);
    };
    let mut value: u32 = 0;
    for byte in bytes.as_slice() {
        value = value.wrapping_mul(31).wrapping_add(u32::from(*byte));
    }
    Ok(bytes.len() == len && value == digits)
}

#[test]
fn scripts_are_made_as_from_outside(rt: HostRuntime) -> Result<(), Fail> {
    for (number, script) in SCRIPTS.iter().enumerate() {
        assert!(rt; is_made(rt.alloc(), *script)?, "script {number}");
    }
    Ok(())
}

/// The words behind `make`, and the summary.
const SUMMARIES: [(&[&str], &[u8]); 3] = [
    (
        &["1", "1"],
        b"events 1 arrived 0 dhcp 1 dns 0 arp 0 answered 0 failed 0 last none\n",
    ),
    (
        &["0000000001", "00003"],
        b"events 3 arrived 2 dhcp 2 dns 0 arp 0 answered 0 failed 0 last 10.0.0.10/24\n",
    ),
    (
        &["1", "1000"],
        b"events 1000 arrived 35 dhcp 20 dns 25 arp 0 answered 5 failed 5 last 10.0.0.10/24\n",
    ),
];

/// Whether the words are done, and print the summary. The source would fail if it were read.
fn is_summed_up(alloc: Global, (words, summary): (&[&str], &[u8])) -> Result<bool, AllocError> {
    let args = strings_of(alloc, &["make"], words)?;
    let mut source = MemorySource::new(Vec::new(alloc), 1, vec![in alloc; 1]?);
    let mut capture = SureSink::new(alloc);
    let (status, printed, _) = run_over(alloc, args.as_slice(), &mut source, &mut capture)?;
    Ok(status == 0 && printed.as_slice() == summary && capture.bytes().starts_with(FILE_HEADER))
}

#[test]
fn a_made_script_is_summed_up(rt: HostRuntime) -> Result<(), Fail> {
    for (number, summary) in SUMMARIES.iter().enumerate() {
        assert!(rt; is_summed_up(rt.alloc(), *summary)?, "words {number}");
    }
    Ok(())
}

#[test]
fn a_fault_of_the_capture_has_the_last_line_alone(rt: HostRuntime) -> Result<(), Fail> {
    let alloc = rt.alloc();
    let args = strings_of(alloc, &["make"], &["1", "10"])?;
    let mut source = MemorySource::new(Vec::new(alloc), 1, vec![in alloc; 1]?);
    let Ok(mut capture) = MemorySink::new(alloc, 30, Vec::new(alloc)) else {
        return Err(Fail::from(AllocError));
    };
    let (status, printed, report) = run_over(alloc, args.as_slice(), &mut source, &mut capture)?;
    assert_eq!(rt; status, 5);
    assert_eq!(rt; printed.as_slice(), b"capture fault\n".as_slice());
    assert_eq!(rt; report.rows().len(), 1);
    Ok(())
}

/// The made script is that of a run, with the report in place of the summary.
#[test]
fn a_made_script_leaves_the_capture_of_its_run(rt: HostRuntime) -> Result<(), Fail> {
    let alloc = rt.alloc();
    let Ok(words) = words_of(alloc, 7, 330) else {
        return Err(Fail::from(AllocError));
    };
    assert!(rt; words.len() >= 330);
    let Ok(script) = make_script(alloc, words.as_slice(), 110) else {
        return Err(Fail::from(AllocError));
    };
    let made = run_words(alloc, &["make"], &["7", "110"], b"\x02")?;
    let ran = run_words(
        alloc,
        &["run", "020000000001"],
        &["7", "110"],
        script.as_slice(),
    )?;
    assert!(rt; made.status == 0 && ran.status == 0);
    assert!(rt; made.captured == ran.captured && made.report == ran.report);
    Ok(())
}
