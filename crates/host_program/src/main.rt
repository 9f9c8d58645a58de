//! The program: it reads a script from standard input, writes the frames that arrive and those that the host
//! sends to `capture.pcap`, and prints what it did.
#![tactic(auto)]

use host_top::arguments::program_words;
use host_top::capture_file::CaptureFile;
use host_top::ending::Ending;
use host_top::host_main::host_main;
use host_top::lazy_file::LazyFile;
use host_top::output::Output;
use net_host::{ReadSource, Report};
use phy_layers::WriteSink;
use std::io::{BufReader, BufWriter};
use std::process::ExitCode;

const CAPTURE: &str = "capture.pcap";

fn main(rt: HostRuntime) -> ExitCode {
    let no_memory = ExitCode::from(Ending::NoMemory.status());
    let Ok(words) = program_words(&rt) else {
        return no_memory;
    };
    let Ok(input) = BufReader::new(rt.alloc(), rt.stdin()) else {
        return no_memory;
    };
    let Ok(output) = BufWriter::new(rt.alloc(), Output::new(rt.stdout())) else {
        return no_memory;
    };
    let Some(mut capture) = CaptureFile::new(rt.alloc(), LazyFile::new(&rt, CAPTURE)) else {
        return no_memory;
    };
    let mut script = ReadSource::new(input);
    let mut out = WriteSink::new(output);
    let mut report = Report::new(rt.alloc());
    let status = host_main(
        rt.alloc(),
        words.as_slice(),
        &mut script,
        &mut capture,
        &mut out,
        &mut report,
    );
    ExitCode::from(status)
}
