//! The runs that commands name.
ghost use Rattle.std.specs.Prelude.{◌≡◌, ◌≢◌, ◌*◌, List, [], map, option_map};
ghost use Rattle.net_host.specs.declared.report.Row.{Row};
ghost use Rattle.net_host.specs.declared.run_script.RunError.TheVariants as run_error;
ghost use Rattle.net_host.specs.Outside.{Outside, outside_of};
ghost use Rattle.net_host.specs.Run.{Task};
ghost use Rattle.host_top.specs.RunWords.{IsRunnable, settings_named};
ghost use Rattle.host_top.specs.MakeWords.{run_of_make};
ghost use Rattle.host_top.specs.Generator.{event_words};
ghost use Rattle.host_top.specs.Making.{sink_alone, MadeTo};
ghost use Rattle.host_top.specs.Ran.{Ran, RanAs, RanTo};

use crate::command::{MakeCommand, RunCommand};
use crate::ending::Ending;
use crate::generator::words_of;
use crate::setting::RunSettings;
use dhcp_client::RetryConfig;
use made_script::{HOST_STATION, make_script};
use net_host::{
    Direct, HostConfig, HostValues, Report, RunError, ScriptSource, Silent, SureSource, Watcher,
    run_over,
};
use net_wire::{Duration, NoMemory};
use phy_layers::PcapSink;
use std::alloc::Global;

/// Runs the host on the script, and tells a watcher of each row.
pub(crate) fn run_named<S: ScriptSource, C: PcapSink, W: Watcher>(
    alloc: Global,
    command: &RunCommand,
    script: &mut S,
    capture: &mut C,
    report: &mut Report,
    watcher: &mut W,
) -> Ending
    requires empty { report.old ≡ [] }
    requires runnable { IsRunnable command.now }
    ensures ran { RanTo command.now
        (outside_of S.ScriptSource C.ByteSink script.old capture.old)
        (outside_of S.ScriptSource C.ByteSink script.new capture.new) report.new result }
    ensures seen { W.sees watcher.old report.new watcher.new }
{
    match words_of(alloc, command.seed, command.max_events as usize * 3) {
        Ok(words) => run_script(
            alloc,
            command,
            words.as_slice(),
            script,
            capture,
            report,
            watcher,
        ),
        Err(NoMemory) => Ending::NoMemory,
    }
}

/// Makes a script, and runs the host on it.
pub(crate) fn run_made<C: PcapSink>(
    alloc: Global,
    command: &MakeCommand,
    capture: &mut C,
    report: &mut Report,
) -> Ending
    requires empty { report.old ≡ [] }
    requires runnable { IsRunnable (run_of_make command.now) }
    ensures { MadeTo command.now (sink_alone C.ByteSink capture.old)
        (sink_alone C.ByteSink capture.new) report.new result }
{
    let Ok(words) = words_of(alloc, command.seed, command.count as usize * 3) else {
        return Ending::NoMemory;
    };
    let Ok(bytes) = make_script(alloc, words.as_slice(), command.count) else {
        return Ending::NoMemory;
    };
    let run = run_of_make(command);
    let mut script = SureSource::new(bytes);
    run_script(
        alloc,
        &run,
        words.as_slice(),
        &mut script,
        capture,
        report,
        &mut Silent,
    )
}

/// The run of a script that is made.
fn run_of_make(command: &MakeCommand) -> RunCommand
    ensures { result ≡ run_of_make command.now }
{
    RunCommand {
        hardware: HOST_STATION,
        seed: command.seed,
        max_events: command.count,
        settings: RunSettings::NONE,
    }
}

/// Runs the host on a script, by the words of its events.
fn run_script<S: ScriptSource, C: PcapSink, W: Watcher>(
    alloc: Global,
    command: &RunCommand,
    words: &[u32],
    script: &mut S,
    capture: &mut C,
    report: &mut Report,
    watcher: &mut W,
) -> Ending
    requires empty { report.old ≡ [] }
    requires runnable { IsRunnable command.now }
    requires words { words.now ≡ event_words command.now }
    ensures ran { RanTo command.now
        (outside_of S.ScriptSource C.ByteSink script.old capture.old)
        (outside_of S.ScriptSource C.ByteSink script.new capture.new) report.new result }
    ensures seen { W.sees watcher.old report.new watcher.new }
{
    let config = config_of(command);
    match run_over(
        alloc,
        script,
        &mut Direct,
        capture,
        &config,
        words,
        command.max_events,
        report,
        watcher,
    ) {
        Ok(()) => Ending::Done,
        Err(error) => ending_of(error),
    }
}

/// How a run ended that had words enough and answered so.
pub(crate) fn ending_of(error: RunError) -> Ending
    requires words { error ≢ run_error.Words }
    ensures { (task : Task) (before after : Outside) (report : List Row)
        → Ran task before after report error → RanAs task before after report result }
{
    match error {
        RunError::Script(offset) => Ending::Script(offset),
        RunError::Limit => Ending::Limit,
        RunError::Words => unreachable!(),
        RunError::Read => Ending::Read,
        RunError::Sink => Ending::Capture,
        RunError::NoMemory => Ending::NoMemory,
    }
}

/// The configuration of the host of a run.
pub(crate) fn config_of(command: &RunCommand) -> HostConfig<'static>
    requires { IsRunnable command.now }
    ensures { result ≡ settings_named command.now }
{
    let settings = command.settings;
    let values = HostValues {
        hardware: command.hardware,
        ip_mtu: settings.ip_mtu.unwrap_or(1500),
        retry: RetryConfig::default(),
        server_port: 67,
        client_port: 68,
        max_lease: longest_lease(settings.max_lease_secs),
        ignore_naks: settings.ignore_naks.unwrap_or(false),
        parameters: &[1, 3, 6],
        options: &[],
    };
    match HostConfig::new(values) {
        Ok(config) => config,
        Err(_) => unreachable!(),
    }
}

/// The span of so many seconds.
fn longest_lease(secs: Option<u32>) -> Option<Duration>
    ensures { result ≡ option_map (λ number. number * 1000000) secs }
{
    match secs {
        None => None,
        Some(number) => Some(Duration::from_secs(u64::from(number))),
    }
}
