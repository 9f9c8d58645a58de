//! A run over a bad link.
ghost use Rattle.std.specs.Prelude.{◌≡◌, ◌≤◌, [], IfErr, OnOk};
ghost use Rattle.net_host.specs.Outside.{outside_of, IsQuiet};
ghost use Rattle.net_host.specs.QueryRows.{CountsQueries};
ghost use Rattle.net_host.specs.Run.{task_over, Finished, Leaves, HasCause, Completes};
ghost use Rattle.host_disturb.specs.Disturbed.{disturbed};

use crate::{Disturber, FaultValues};
use net_host::{HostConfig, Report, RunError, Silent, Watcher, run_over};
use phy_layers::PcapSink;
use script_source::ScriptSource;
use std::alloc::Global;

/// Runs a script over a bad link: the host meets what the fault rule makes of the events, and answers, reports and captures that. All
/// else is as in `run`: what is read and why it stops is said of the source's own bytes, and so is the place that `Script` names.
/// `words` has three words an event.
pub fn run_disturbed<S: ScriptSource, C: PcapSink>(
    alloc: Global,
    source: &mut S,
    capture: &mut C,
    config: &HostConfig<'_>,
    words: &[u32],
    max_events: u32,
    faults: &FaultValues,
    report: &mut Report,
) -> Result<(), RunError>
    requires empty { report.old ≡ [] }
    requires some { 1 ≤ max_events }
    requires max { max_events ≤ 10000 }
    requires drop { faults.now.drop_chance ≤ 100 }
    requires corrupt { faults.now.corrupt_chance ≤ 100 }
    // It ended well: each event that is met in place of the script's is answered.
    ensures finished { OnOk result (Finished (task_over (disturbed faults.now) config.now words.now max_events)
        (outside_of S.ScriptSource C.ByteSink source.old capture.old)
        (outside_of S.ScriptSource C.ByteSink source.new capture.new) report.new) }
    ensures quiet { OnOk result (IsQuiet (outside_of S.ScriptSource C.ByteSink source.old capture.old)
        (outside_of S.ScriptSource C.ByteSink source.new capture.new)) }
    // It stopped: what it took and left, and why.
    ensures leaves { IfErr result (Leaves (task_over (disturbed faults.now) config.now words.now max_events)
        (outside_of S.ScriptSource C.ByteSink source.old capture.old)
        (outside_of S.ScriptSource C.ByteSink source.new capture.new) report.new) }
    ensures cause { IfErr result (HasCause (task_over (disturbed faults.now) config.now words.now max_events)
        (outside_of S.ScriptSource C.ByteSink source.old capture.old)
        (outside_of S.ScriptSource C.ByteSink source.new capture.new)) }
    ensures later { (S.faults source.old ≤ S.faults source.new)
        × (C.faults capture.old ≤ C.faults capture.new) }
    // It stops without a cause only where memory runs out.
    ensures complete { Completes (task_over (disturbed faults.now) config.now words.now max_events)
        (outside_of S.ScriptSource C.ByteSink source.old capture.old)
        (outside_of S.ScriptSource C.ByteSink source.new capture.new) result }
    // Whatever became of it: at most four frames of one query to one place of the list of name servers, and no query with two lines.
    ensures queries { CountsQueries report.new }
{
    watch_disturbed(
        alloc,
        source,
        capture,
        config,
        words,
        max_events,
        faults,
        report,
        &mut Silent,
    )
}

/// As `run_disturbed`, and tells a watcher of each row, the one of an event that was not taken in to its end too.
pub fn watch_disturbed<S: ScriptSource, C: PcapSink, W: Watcher>(
    alloc: Global,
    source: &mut S,
    capture: &mut C,
    config: &HostConfig<'_>,
    words: &[u32],
    max_events: u32,
    faults: &FaultValues,
    report: &mut Report,
    watcher: &mut W,
) -> Result<(), RunError>
    requires empty { report.old ≡ [] }
    requires some { 1 ≤ max_events }
    requires max { max_events ≤ 10000 }
    requires drop { faults.now.drop_chance ≤ 100 }
    requires corrupt { faults.now.corrupt_chance ≤ 100 }
    // It ended well: each event that is met in place of the script's is answered.
    ensures finished { OnOk result (Finished (task_over (disturbed faults.now) config.now words.now max_events)
        (outside_of S.ScriptSource C.ByteSink source.old capture.old)
        (outside_of S.ScriptSource C.ByteSink source.new capture.new) report.new) }
    ensures quiet { OnOk result (IsQuiet (outside_of S.ScriptSource C.ByteSink source.old capture.old)
        (outside_of S.ScriptSource C.ByteSink source.new capture.new)) }
    // It stopped: what it took and left, and why.
    ensures leaves { IfErr result (Leaves (task_over (disturbed faults.now) config.now words.now max_events)
        (outside_of S.ScriptSource C.ByteSink source.old capture.old)
        (outside_of S.ScriptSource C.ByteSink source.new capture.new) report.new) }
    ensures cause { IfErr result (HasCause (task_over (disturbed faults.now) config.now words.now max_events)
        (outside_of S.ScriptSource C.ByteSink source.old capture.old)
        (outside_of S.ScriptSource C.ByteSink source.new capture.new)) }
    ensures later { (S.faults source.old ≤ S.faults source.new)
        × (C.faults capture.old ≤ C.faults capture.new) }
    // It stops without a cause only where memory runs out.
    ensures complete { Completes (task_over (disturbed faults.now) config.now words.now max_events)
        (outside_of S.ScriptSource C.ByteSink source.old capture.old)
        (outside_of S.ScriptSource C.ByteSink source.new capture.new) result }
    // The watcher saw all rows, whatever became of the run.
    ensures seen { W.sees watcher.old report.new watcher.new }
{
    let mut link = Disturber::new(faults);
    run_over(
        alloc, source, &mut link, capture, config, words, max_events, report, watcher,
    )
}
