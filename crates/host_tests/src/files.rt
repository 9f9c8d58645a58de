//! The words, the capture file and the standard output of a process.
use host_top::arguments::program_words;
use host_top::capture_file::CaptureFile;
use host_top::lazy_file::LazyFile;
use host_top::output::Output;
use net_wire::Instant;
use phy_layers::{ByteSink, PcapLinkType, PcapSink};
use std::io::Write;
use std::rt::Files;
use std::test::Fail;
use std::{env, fs};

const PATH: &str = "capture_file_test.pcap";

/// How long the file is; `None` where there is none.
fn file_len<R: Files + AllocGlobal>(rt: &R) -> Option<usize> {
    match fs::read(rt, PATH) {
        Ok(bytes) => Some(bytes.len()),
        Err(_) => None,
    }
}

#[test]
fn a_capture_reaches_its_file_at_each_write_and_then_at_each_flush(
    rt: HostRuntime,
) -> Result<(), Fail> {
    let alloc = rt.alloc();
    let mut capture = CaptureFile::new(alloc, LazyFile::new(&rt, PATH)).ok_or("no memory")?;
    let before = file_len(&rt);
    capture.global_header(PcapLinkType::Ethernet)?;
    let header = file_len(&rt);
    capture.packet(Instant::from_micros(0), b"abc")?;
    let packet = file_len(&rt);
    capture.write(b"held back")?;
    let held = file_len(&rt);
    capture.flush()?;
    assert!(rt; before == None && header == Some(24) && packet == Some(43) && held == Some(43));
    let bytes = fs::read(&rt, PATH)?;
    assert!(rt; bytes.as_slice().ends_with(b"\x03\x00\x00\x00abcheld back"));
    fs::remove_file(&rt, PATH)?;
    Ok(())
}

#[test]
fn nothing_is_written_to_a_closed_stream(rt: HostRuntime) {
    let mut output = Output { stream: None };
    let is_open = Output::new(rt.stdout()).stream.is_some();
    assert!(rt; output.write(b"text").is_err() && output.flush().is_err() && is_open);
}

#[test]
fn the_name_is_no_word(rt: HostRuntime) -> Result<(), Fail> {
    let all = env::args(&rt)?.count();
    let words = program_words(&rt)?;
    assert!(rt; words.len() == all.saturating_sub(1));
    Ok(())
}
