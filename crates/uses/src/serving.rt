//! A caller of `server_run`.
ghost use Rattle.std.specs.Prelude.{◌≡◌, None, IfOk};
ghost use Rattle.lease_server.specs.Values.{refused, values_of};
ghost use Rattle.uses.specs.Served.{HasServedRows};

use lease_server::ServerValues;
use phy_layers::SureSink;
use script_source::SureSource;
use server_run::{ServeError, ServeReport, serve};
use std::alloc::Global;

/// The report of a script in memory that a server serves: a row for each event.
pub fn report_of(
    alloc: Global,
    script: Vec<u8>,
    values: &ServerValues,
) -> Result<ServeReport, ServeError>
    requires checked { refused (values_of values.now) ≡ None }
    ensures rows { IfOk result (λ report. HasServedRows (values_of values.now) script.items report) }
{
    let mut report = ServeReport::new(alloc);
    let mut source = SureSource::new(script);
    let mut capture = SureSink::new(alloc);
    serve(alloc, &mut source, &mut capture, values, 1000, &mut report)?;
    Ok(report)
}
