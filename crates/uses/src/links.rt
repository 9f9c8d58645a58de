//! A link of `script_reader`, and a caller of `net_host` with it.
ghost use Rattle.std.specs.Prelude.{IfOk};
ghost use Rattle.uses.specs.Muffled.{HasRowsWithout};

use net_host::{HostConfig, Report, RunError, Silent, run_over};
use phy_layers::SureSink;
use script_reader::{EventHead, EventKind, Link};
use script_source::SureSource;
use std::alloc::Global;

/// Lets no frame through: time passes in its place.
#[derive(Clone, Copy, Debug)]
pub struct Muffler;

impl Link for Muffler {
    ghost use Rattle.std.specs.Prelude.{map, refl};
    ghost use Rattle.uses.specs.Muffled.{event_without};

    ghost makes = { λ _ _ events. map event_without events };

    fn meet(&mut self, _last_id: u32, head: EventHead, _brought: &mut [u8]) -> EventHead {
        match head.kind {
            EventKind::Frame => EventHead {
                kind: EventKind::Tick,
                micros: head.micros,
            },
            EventKind::Tick => head,
            EventKind::Reset => head,
            EventKind::Query(_) => head,
        }
    }

    ghost ends = { λ _ _. refl };
}

/// The report of a script in memory whose host meets no frame.
pub fn report_without_frames(
    alloc: Global,
    script: Vec<u8>,
    config: &HostConfig<'_>,
    words: &[u32],
) -> Result<Report, RunError>
    ensures rows { IfOk result (λ report. HasRowsWithout config.now words.now script.items report) }
{
    let mut report = Report::new(alloc);
    let mut source = SureSource::new(script);
    let mut capture = SureSink::new(alloc);
    run_over(
        alloc,
        &mut source,
        &mut Muffler,
        &mut capture,
        config,
        words,
        1000,
        &mut report,
        &mut Silent,
    )?;
    Ok(report)
}
