//! A caller of `net_host`.
ghost use Rattle.std.specs.Prelude.{IfOk};
ghost use Rattle.uses.specs.Reported.{HasRowsOf};

use net_host::{HostConfig, Report, RunError, run};
use phy_layers::SureSink;
use script_source::SureSource;
use std::alloc::Global;

/// The report of a script in memory: a row for each of its events.
pub fn report_of(
    alloc: Global,
    script: Vec<u8>,
    config: &HostConfig<'_>,
    words: &[u32],
) -> Result<Report, RunError>
    ensures rows { IfOk result (λ report. HasRowsOf config.now words.now script.items report) }
{
    let mut report = Report::new(alloc);
    let mut source = SureSource::new(script);
    let mut capture = SureSink::new(alloc);
    run(
        alloc,
        &mut source,
        &mut capture,
        config,
        words,
        1000,
        &mut report,
    )?;
    Ok(report)
}
