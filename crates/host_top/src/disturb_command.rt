//! The command that runs the host over a bad link.
ghost use Rattle.std.specs.Prelude.{◌≡◌, ◌≤◌, ℕ, [], map, string_bytes, IfSome, IfNone};
ghost use Rattle.net_host.specs.Outside.{outside_of};
ghost use Rattle.host_top.specs.RunWords.{IsRunnable};
ghost use Rattle.host_top.specs.Disturb.{IsChanceWord, WritesDisturb, IsDisturbable, faults_named, DisturbedTo};
ghost use Rattle.host_top.specs.Generator.{event_words};

use crate::command::{RunCommand, count_of};
use crate::ending::Ending;
use crate::generator::words_of;
use crate::running::{config_of, ending_of};
use crate::setting::RunSettings;
use crate::word::{address_of, number_of, u32_of};
use host_disturb::{FaultValues, watch_disturbed};
use net_host::{Report, ScriptSource, Watcher};
use net_wire::{Duration, NoMemory};
use phy_layers::PcapSink;
use std::alloc::Global;

/// Run the host on the script of standard input, whose frames come over a bad link.
#[derive(Clone, Copy, Debug, PartialEq, Eq)]
pub struct DisturbCommand {
    /// The run, without settings.
    pub run: RunCommand,
    /// The seed of the faults.
    pub fault_seed: u32,
    /// The chance that a frame is dropped, in percent.
    pub drop_chance: u8,
    /// The chance that a frame has a bit flipped, in percent.
    pub corrupt_chance: u8,
}

/// What the words behind `disturb` name.
pub(crate) fn disturb_of(words: &[String]) -> Option<DisturbCommand>
    ensures found { IfSome result (WritesDisturb (map string_bytes words.now)) }
    ensures refuses { IfNone result ((disturb : DisturbCommand) → WritesDisturb (map string_bytes words.now) disturb → ⊥) }
{
    let [hardware, seed, max_events, fault_seed, drop, corrupt] = words else {
        return None;
    };
    Some(DisturbCommand {
        run: RunCommand {
            hardware: address_of(hardware.as_bytes())?,
            seed: u32_of(seed.as_bytes())?,
            max_events: count_of(max_events.as_bytes())?,
            settings: RunSettings::NONE,
        },
        fault_seed: u32_of(fault_seed.as_bytes())?,
        drop_chance: chance_of(drop.as_bytes())?,
        corrupt_chance: chance_of(corrupt.as_bytes())?,
    })
}

/// The chance that a word writes, in percent.
fn chance_of(word: &[u8]) -> Option<u8>
    ensures found { IfSome result (IsChanceWord word.now) }
    ensures refuses { IfNone result ((chance : ℕ) → IsChanceWord word.now chance → ⊥) }
{
    let number = number_of(word, 10, 3)?;
    if number > 100 {
        return None;
    }
    Some(number as u8)
}

/// Runs the host on what comes of the script over the bad link, and tells a watcher of each row.
pub(crate) fn run_over_bad_link<S: ScriptSource, C: PcapSink, W: Watcher>(
    alloc: Global,
    command: &DisturbCommand,
    script: &mut S,
    capture: &mut C,
    report: &mut Report,
    watcher: &mut W,
) -> Ending
    requires empty { report.old ≡ [] }
    requires runnable { IsDisturbable command.now }
    ensures ran { DisturbedTo command.now
        (outside_of S.ScriptSource C.ByteSink script.old capture.old)
        (outside_of S.ScriptSource C.ByteSink script.new capture.new) report.new result }
    ensures seen { W.sees watcher.old report.new watcher.new }
{
    match words_of(alloc, command.run.seed, command.run.max_events as usize * 3) {
        Ok(words) => disturb_script(
            alloc,
            command,
            words.as_slice(),
            script,
            capture,
            report,
            watcher,
        ),
        Err(NoMemory) => Ending::NoMemory,
    }
}

/// The faults that a command names.
fn faults_of(command: &DisturbCommand) -> FaultValues
    ensures { result ≡ faults_named command.now }
{
    FaultValues {
        seed: command.fault_seed,
        drop_chance: command.drop_chance,
        corrupt_chance: command.corrupt_chance,
        max_size: 0,
        rate: 0,
        interval: Duration::from_micros(0),
    }
}

/// Runs the host on a script, by the words of its events.
fn disturb_script<S: ScriptSource, C: PcapSink, W: Watcher>(
    alloc: Global,
    command: &DisturbCommand,
    words: &[u32],
    script: &mut S,
    capture: &mut C,
    report: &mut Report,
    watcher: &mut W,
) -> Ending
    requires empty { report.old ≡ [] }
    requires runnable { IsDisturbable command.now }
    requires words { words.now ≡ event_words command.now.run }
    ensures ran { DisturbedTo command.now
        (outside_of S.ScriptSource C.ByteSink script.old capture.old)
        (outside_of S.ScriptSource C.ByteSink script.new capture.new) report.new result }
    ensures seen { W.sees watcher.old report.new watcher.new }
{
    let config = config_of(&command.run);
    let faults = faults_of(command);
    match watch_disturbed(
        alloc,
        script,
        capture,
        &config,
        words,
        command.run.max_events,
        &faults,
        report,
        watcher,
    ) {
        Ok(()) => Ending::Done,
        Err(error) => ending_of(error),
    }
}
