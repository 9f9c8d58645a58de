//! Faults of the outside: sources, captures and outputs that fail.
use crate::calls::{FILE_HEADER, run_over, strings_of};
use host_top::capture_file::CaptureFile;
use host_top::host_main::host_main;
use host_top::lazy_file::LazyFile;
use net_host::{MemorySource, ReadFault, ReadSource, Report, ScriptSource, SureSource};
use phy_layers::{MemorySink, PcapSink, SureSink};
use std::alloc::{AllocError, Global};
use std::fs::File;
use std::io;
use std::io::{ErrorKind, Read};
use std::test::Fail;

/// Is interrupted, gives two bytes, fails, and is at its end.
#[derive(Drop)]
struct Faulty {
    calls: u8,
}

impl Read for Faulty {
    fn read(&mut self, buf: &mut [u8]) -> io::Result<usize> {
        self.calls = self.calls.saturating_add(1);
        match self.calls {
            1 => Err(io::Error::new(ErrorKind::Interrupted, "a signal")),
            2 => {
                let count = buf.len().min(2);
                for byte in buf[..count].iter_mut() {
                    *byte = 7;
                }
                Ok(count)
            }
            3 => Err(io::Error::new(ErrorKind::InvalidData, "broken")),
            _ => Ok(0),
        }
    }
}

#[test]
fn a_source_gives_what_its_reader_gives(rt: HostRuntime) {
    let mut source = ReadSource::new(Faulty { calls: 0 });
    let mut bytes = [0; 8];
    for want in [Ok(2), Err(ReadFault), Ok(0)] {
        assert!(rt; source.read(&mut bytes) == want);
    }
    assert!(rt; bytes == [7, 7, 0, 0, 0, 0, 0, 0]);
}

/// How much a call takes at most, what it answers, and what it leaves.
const PIECES: [(usize, Result<usize, ReadFault>, &[u8]); 7] = [
    (3, Ok(2), &[5, 6, 0]),
    (3, Err(ReadFault), &[0, 0, 0]),
    (1, Ok(1), &[7]),
    (2, Ok(2), &[8, 9]),
    (2, Err(ReadFault), &[0, 0]),
    (3, Ok(0), &[0, 0, 0]),
    (3, Ok(0), &[0, 0, 0]),
];

#[test]
fn a_source_gives_pieces_and_fails_where_it_is_told(rt: HostRuntime) -> Result<(), Fail> {
    let alloc = rt.alloc();
    let bytes = Vec::from_slice(alloc, &[5, 6, 7, 8, 9])?;
    let mut source = MemorySource::new(bytes, 2, Vec::from_slice(alloc, &[2, 5, 9])?);
    for (number, (room, want, left)) in PIECES.iter().enumerate() {
        let mut into = [0; 3];
        let room = (*room).min(3);
        let answer = source.read(&mut into[..room]);
        assert!(rt; answer == *want && &into[..room] == *left, "call {number}");
    }
    Ok(())
}

/// Ticks at 0 and 1 microseconds.
const TICKS: &[u8] = b"\x02\0\0\0\0\0\0\0\0\x02\0\0\0\0\0\0\0\x01";

/// A query whose name is not UTF-8 already, of five bytes that are not all there.
const QUERY: &[u8] = b"\x03\0\0\0\0\0\0\0\0\x05\xff";

/// Whether a run of at most three events has this status, this last line and so many rows.
fn ends<S: ScriptSource, C: PcapSink>(
    alloc: Global,
    source: &mut S,
    capture: &mut C,
    (status, line, rows): (u8, &[u8], usize),
) -> Result<bool, AllocError> {
    let args = strings_of(alloc, &["run", "020202020202", "1", "3"], &[])?;
    let (ended, printed, report) = run_over(alloc, args.as_slice(), source, capture)?;
    let has_line = printed.as_slice().ends_with(line);
    Ok(ended == status && has_line && report.rows().len() == rows)
}

/// A script, the number of the read that fails, the rows, and how long the capture is. It fails at the kind or at the time of an
/// event, behind the last one, and inside a name.
const FAILING_SOURCES: [(&[u8], u64, usize, usize); 5] = [
    (TICKS, 1, 0, 24),
    (TICKS, 2, 0, 24),
    (TICKS, 3, 1, 344),
    (TICKS, 5, 2, 344),
    (QUERY, 5, 0, 24),
];

fn gives_4(
    alloc: Global,
    (script, fails, rows, captured): (&[u8], u64, usize, usize),
) -> Result<bool, AllocError> {
    let script = Vec::from_slice(alloc, script)?;
    let mut source = MemorySource::new(script, 65_535, Vec::from_slice(alloc, &[fails])?);
    let mut capture = SureSink::new(alloc);
    let is_ended = ends(alloc, &mut source, &mut capture, (4, b"read fault\n", rows))?;
    Ok(is_ended && capture.bytes().len() == captured)
}

#[test]
fn a_source_that_fails_gives_4(rt: HostRuntime) -> Result<(), Fail> {
    let alloc = rt.alloc();
    for (number, source) in FAILING_SOURCES.iter().enumerate() {
        assert!(rt; gives_4(alloc, *source)?, "source {number}");
    }
    let mut folder = ReadSource::new(File::open(&rt, ".")?);
    let mut capture = SureSink::new(alloc);
    let is_ended = ends(alloc, &mut folder, &mut capture, (4, b"read fault\n", 0))?;
    assert!(rt; is_ended && capture.bytes() == FILE_HEADER);
    Ok(())
}

/// The room, the number of the call that fails, the rows, and how many bytes are kept: 24 and then 320 of a frame, in six calls,
/// the last one a flush.
const FAILING_CAPTURES: [(usize, u64, usize, usize); 7] = [
    (1000, 3, 0, 6),
    (0, 99, 0, 0),
    (24, 99, 1, 24),
    (343, 99, 1, 343),
    (1000, 8, 1, 24),
    (1000, 12, 1, 40),
    (1000, 13, 1, 344),
];

fn gives_5(
    alloc: Global,
    (room, fails, rows, kept): (usize, u64, usize, usize),
) -> Result<bool, Fail> {
    let mut source = SureSource::new(Vec::from_slice(alloc, TICKS)?);
    let mut capture = MemorySink::new(alloc, room, Vec::from_slice(alloc, &[fails])?)?;
    let is_ended = ends(
        alloc,
        &mut source,
        &mut capture,
        (5, b"capture fault\n", rows),
    )?;
    let bytes = capture.bytes();
    let begins = bytes.starts_with(FILE_HEADER) || FILE_HEADER.starts_with(bytes);
    Ok(is_ended && bytes.len() == kept && begins)
}

#[test]
fn a_capture_that_fails_gives_5(rt: HostRuntime) -> Result<(), Fail> {
    for (number, capture) in FAILING_CAPTURES.iter().enumerate() {
        assert!(rt; gives_5(rt.alloc(), *capture)?, "capture {number}");
    }
    Ok(())
}

#[test]
fn a_capture_file_that_cannot_be_made_gives_5(rt: HostRuntime) -> Result<(), Fail> {
    let alloc = rt.alloc();
    let file = LazyFile::new(&rt, "no_such_folder/capture.pcap");
    let mut capture = CaptureFile::new(alloc, file).ok_or("no memory")?;
    let mut source = SureSource::new(Vec::from_slice(alloc, TICKS)?);
    assert!(rt; ends(alloc, &mut source, &mut capture, (5, b"capture fault\n", 0))?);
    Ok(())
}

#[test]
fn an_output_that_fails_gives_6(rt: HostRuntime) -> Result<(), Fail> {
    let alloc = rt.alloc();
    // The usage is one write, and then it is handed on.
    for (fails, is_printed) in [(1, false), (2, true)] {
        let mut source = SureSource::new(Vec::new(alloc));
        let mut capture = SureSink::new(alloc);
        let mut out = MemorySink::new(alloc, 1000, Vec::from_slice(alloc, &[fails])?)?;
        let mut report = Report::new(alloc);
        let status = host_main(alloc, &[], &mut source, &mut capture, &mut out, &mut report);
        assert!(rt; status == 6 && out.bytes().is_empty() != is_printed);
    }
    Ok(())
}
