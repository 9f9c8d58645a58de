//! A caller of `host_disturb`.
ghost use Rattle.std.specs.Prelude.{◌≤◌, IfOk};
ghost use Rattle.uses.specs.Disturbing.{HasRowsOver};

use host_disturb::{FaultValues, run_disturbed};
use net_host::{HostConfig, Report, RunError};
use phy_layers::SureSink;
use script_source::SureSource;
use std::alloc::Global;

/// The report of a script in memory that comes over a bad link: a row for each event that is met.
pub fn report_over(
    alloc: Global,
    script: Vec<u8>,
    config: &HostConfig<'_>,
    words: &[u32],
    faults: &FaultValues,
) -> Result<Report, RunError>
    requires drop { faults.now.drop_chance ≤ 100 }
    requires corrupt { faults.now.corrupt_chance ≤ 100 }
    ensures rows { IfOk result (λ report.
        HasRowsOver faults.now config.now words.now script.items report) }
{
    let mut report = Report::new(alloc);
    let mut source = SureSource::new(script);
    let mut capture = SureSink::new(alloc);
    run_disturbed(
        alloc,
        &mut source,
        &mut capture,
        config,
        words,
        1000,
        faults,
        &mut report,
    )?;
    Ok(report)
}
