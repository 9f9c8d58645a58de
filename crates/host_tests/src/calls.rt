//! Calls of the program as a function.
use host_top::host_main::host_main;
use net_host::{Report, ScriptSource, SureSource};
use phy_layers::{PcapSink, SureSink};
use std::alloc::{AllocError, Global};

/// What a call of the program left.
#[derive(Drop)]
pub(crate) struct Ran {
    pub(crate) status: u8,
    pub(crate) printed: Vec<u8>,
    pub(crate) captured: Vec<u8>,
    pub(crate) report: Report,
}

/// What libpcap's files begin with, little-endian: link type Ethernet.
pub(crate) const FILE_HEADER: &[u8] =
    b"\xd4\xc3\xb2\xa1\x02\x00\x04\x00\x00\x00\x00\x00\x00\x00\x00\x00\x00\x00\x04\x00\x01\x00\x00\x00";

/// A run of the words `first`, and `last` behind them.
pub(crate) fn run_words(
    alloc: Global,
    first: &[&str],
    last: &[&str],
    script: &[u8],
) -> Result<Ran, AllocError> {
    let args = strings_of(alloc, first, last)?;
    let mut source = SureSource::new(Vec::from_slice(alloc, script)?);
    let mut capture = SureSink::new(alloc);
    let (status, printed, report) = run_over(alloc, args.as_slice(), &mut source, &mut capture)?;
    Ok(Ran {
        status,
        printed,
        captured: Vec::from_slice(alloc, capture.bytes())?,
        report,
    })
}

pub(crate) fn strings_of(
    alloc: Global,
    first: &[&str],
    last: &[&str],
) -> Result<Vec<String>, AllocError> {
    let mut strings = Vec::new(alloc);
    for word in first {
        strings.push(String::from_str(alloc, word)?)?;
    }
    for word in last {
        strings.push(String::from_str(alloc, word)?)?;
    }
    Ok(strings)
}

/// The status, what is printed, and the report of a run.
pub(crate) fn run_over<S: ScriptSource, C: PcapSink>(
    alloc: Global,
    args: &[String],
    source: &mut S,
    capture: &mut C,
) -> Result<(u8, Vec<u8>, Report), AllocError> {
    let mut out = SureSink::new(alloc);
    let mut report = Report::new(alloc);
    let status = host_main(alloc, args, source, capture, &mut out, &mut report);
    Ok((status, Vec::from_slice(alloc, out.bytes())?, report))
}
