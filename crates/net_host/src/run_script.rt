//! A whole run: a script in, a capture and a report out.
ghost use Rattle.std.specs.Prelude.{◌≡◌, ℕ, ◌+◌, ◌*◌, ◌<◌, ◌≤◌, ◌⊎◌, ℤ, List, [], length, Some, None, IfErr, IfOk, IfSome, IfNone, OnOk};
ghost use Rattle.std.specs.Result.{IsErrOf};
ghost use Rattle.wire_base.specs.Causes.{IsRisen};
ghost use Rattle.phy_layers.specs.Sink.{Took};
ghost use Rattle.phy_layers.specs.PcapBytes.{epoch_micros, IsCapturable};
ghost use Rattle.host_model.specs.Chronicle.{words_at};
ghost use Rattle.host_model.specs.Script.{IsArrival};
ghost use Rattle.net_host.specs.Captured.{arrived_record, sent_records};
ghost use Rattle.net_host.specs.Report.{AreCapturable};
ghost use Rattle.net_host.specs.Handling.{CanHandle};
ghost use Rattle.net_host.specs.Moments.{IsFrom};
ghost use Rattle.net_host.specs.Neighbors.{pair_count, place_count};
ghost use Rattle.net_host.specs.Polling.{IsReady};
ghost use Rattle.dns_client.specs.Client.{client_of};
ghost use Rattle.net_host.specs.QueryPolling.{AreLent};
ghost use Rattle.net_host.specs.QueryReady.{HoldsQueries};
ghost use Rattle.net_host.specs.QueryRows.{CountsQueries};
ghost use Rattle.net_host.specs.Outside.{outside_of, IsQuiet};
ghost use Rattle.net_host.specs.Run.{task_of, task_over, Finished, Leaves, HasCause, Completes};
ghost use Rattle.net_host.specs.Told.{told_by};
ghost use Rattle.net_host.specs.Taking.{standing, TakesEvent, LeavesRow, LeavesEvent};
ghost use Rattle.script_reader.specs.Reading.{arrival_of};

use crate::arrived::{kind_of, note_for};
use crate::host::no_queries;
use crate::watcher::tell;
use crate::{
    Direct, EventReader, Host, HostConfig, Link, ReadEventError, Report, ScriptEvent, ScriptSource,
    Sent, Silent, Watcher,
};
use host_model::{EventWords, Neighbor};
use net_wire::{Instant, Ipv4Address, NoMemory};
use phy_layers::{PcapLinkType, PcapSink, SinkError};
use std::alloc::Global;

/// Why a run stopped.
#[derive(Clone, Copy, Debug, PartialEq, Eq)]
pub enum RunError {
    /// What begins at this place of the script is no event that may come next.
    Script(u64),
    /// More events than there may be.
    Limit,
    /// Fewer than three words were left for an event.
    Words,
    /// The source failed.
    Read,
    /// The capture failed.
    Sink,
    /// Memory ran out.
    NoMemory,
}

impl From<ReadEventError> for RunError {
    ghost use Rattle.std.specs.Prelude.{◌≡◌};
    ghost use Rattle.net_host.specs.RunError.{of_read_event};

    ghost from_gives = { λ from error. error ≡ of_read_event from };

    fn from(error: ReadEventError) -> RunError {
        match error {
            ReadEventError::Script(offset) => RunError::Script(offset),
            ReadEventError::Limit => RunError::Limit,
            ReadEventError::Read => RunError::Read,
        }
    }
}

impl From<SinkError> for RunError {
    ghost use Rattle.std.specs.Prelude.{◌≡◌};
    ghost use Rattle.net_host.specs.RunError.{of_sink};

    ghost from_gives = { λ from error. error ≡ of_sink from };

    fn from(error: SinkError) -> RunError {
        match error {
            SinkError::Fault => RunError::Sink,
            SinkError::NoMemory => RunError::NoMemory,
        }
    }
}

impl From<NoMemory> for RunError {
    ghost use Rattle.std.specs.Prelude.{◌≡◌};
    ghost use Rattle.net_host.specs.declared.run_script.RunError.TheVariants as run;

    ghost from_gives = { λ _ error. error ≡ run.NoMemory };

    fn from(_: NoMemory) -> RunError {
        RunError::NoMemory
    }
}

/// The words of the event at a place, where all three are left.
fn words_at(words: &[u32], place: u32) -> Option<EventWords>
    ensures found { IfSome result (λ drawn.
        (drawn ≡ words_at words.now place) × (3 * (place + 1) ≤ length words.now)) }
    ensures refuses { IfNone result (length words.now < 3 * (place + 1)) }
{
    let first = place as usize * 3;
    if words.len() < first + 3 {
        None
    } else {
        Some(EventWords {
            first: words[first],
            second: words[first + 1],
            third: words[first + 2],
        })
    }
}

/// Captures the frame that arrived, where one did.
fn capture_arrived<C: PcapSink>(
    capture: &mut C,
    at: Instant,
    event: ScriptEvent<'_>,
) -> Result<(), SinkError>
    requires time { IsCapturable at }
    requires arrival { IsArrival (arrival_of event) }
    ensures { Took C.bytes C.faults C.grows result
        (arrived_record (epoch_micros at) (arrival_of event.entry)) capture.old capture.new }
{
    match event {
        ScriptEvent::Frame(frame) => capture.packet(at, frame),
        ScriptEvent::Tick | ScriptEvent::Reset | ScriptEvent::Query { .. } => Ok(()),
    }
}

/// Captures the frames that were sent.
fn capture_sent<C: PcapSink>(capture: &mut C, at: Instant, sent: &[Sent]) -> Result<(), SinkError>
    requires time { IsCapturable at }
    requires within { AreCapturable sent.now }
    ensures { Took C.bytes C.faults C.grows result
        (sent_records (epoch_micros at) sent.now) capture.old capture.new }
{
    for frame in sent {
        capture.packet(at, frame.frame.as_slice())?;
    }
    Ok(())
}

/// Takes an event in: places its row, captures the frame that arrived, sends what the event brings about, and
/// captures that.
fn take_event<C: PcapSink>(
    host: &mut Host<'_, '_>,
    capture: &mut C,
    report: &mut Report,
    at: Instant,
    event: ScriptEvent<'_>,
    words: EventWords,
) -> Result<(), RunError>
    requires can { CanHandle host.old }
    requires time { IsCapturable at }
    requires order { IsFrom host.old.last at }
    requires arrival { IsArrival (arrival_of event) }
    ensures ok { OnOk result (TakesEvent at event.entry words
        (standing host.old (C.bytes capture.old) report.old)
        (standing host.new (C.bytes capture.new) report.new)) }
    ensures cause { IfErr result (λ e. (e ≡ RunError.Sink) ⊎ (e ≡ RunError.NoMemory)) }
    ensures sink { IsErrOf result RunError.Sink → LeavesRow at event.entry words
        (standing host.old (C.bytes capture.old) report.old)
        (standing host.new (C.bytes capture.new) report.new) }
    ensures memory { IsErrOf result RunError.NoMemory → LeavesEvent at event.entry words
        (standing host.old (C.bytes capture.old) report.old)
        (standing host.new (C.bytes capture.new) report.new) }
    ensures risen { IsErrOf result RunError.Sink → IsRisen (C.faults capture.old) (C.faults capture.new) }
    ensures quiet { (IsErrOf result RunError.Sink → ⊥) → C.faults capture.new ≡ C.faults capture.old }
    ensures later { C.faults capture.old ≤ C.faults capture.new }
    ensures ready { OnOk result (IsReady host.new.dhcp host.new.ip_mtu) }
    ensures last { OnOk result (host.new.last ≡ Some at) }
    ensures places { OnOk result (place_count host.new.out.neighbors ≡ place_count host.old.out.neighbors) }
    ensures few { OnOk result (pair_count host.new.out.neighbors ≤ pair_count host.old.out.neighbors + 1) }
    ensures lent { OnOk result (AreLent (client_of host.new.dns)) }
    ensures holds { OnOk result (HoldsQueries host.new) }
    ensures queries { OnOk result (host.new.queries ≤ host.old.queries + 1) }
{
    let note = note_for(event);
    report.begin(host.out.alloc, at, kind_of(event), note, host.lease())?;
    capture_arrived(capture, at, event)?;
    let handled = host.answer(at, event, words)?;
    let captured = capture_sent(capture, at, handled.sent.as_slice());
    report.fill_last(handled.lease, handled.sent, handled.lines);
    captured?;
    Ok(())
}

/// A place for the neighbour that each event may tell of.
fn empty_places(alloc: Global, count: u32) -> Result<Vec<Option<(Ipv4Address, Neighbor)>>, NoMemory>
    ensures { IfOk result (λ places. length places.items ≡ count) }
{
    match vec![in alloc; None; count as usize] {
        Ok(places) => Ok(places),
        Err(_) => Err(NoMemory),
    }
}

/// Runs a script: answers each event as it is read, reports it and captures the frames. `words` has three
/// words an event.
pub fn run<S: ScriptSource, C: PcapSink>(
    alloc: Global,
    source: &mut S,
    capture: &mut C,
    config: &HostConfig<'_>,
    words: &[u32],
    max_events: u32,
    report: &mut Report,
) -> Result<(), RunError>
    requires empty { report.old ≡ [] }
    requires some { 1 ≤ max_events }
    requires max { max_events ≤ 10000 }
    // It ended well: each event of the script is answered.
    ensures finished { OnOk result (Finished (task_of config.now words.now max_events)
        (outside_of S.ScriptSource C.ByteSink source.old capture.old)
        (outside_of S.ScriptSource C.ByteSink source.new capture.new) report.new) }
    ensures quiet { OnOk result (IsQuiet (outside_of S.ScriptSource C.ByteSink source.old capture.old)
        (outside_of S.ScriptSource C.ByteSink source.new capture.new)) }
    // It stopped: what it took and left, and why.
    ensures leaves { IfErr result (Leaves (task_of config.now words.now max_events)
        (outside_of S.ScriptSource C.ByteSink source.old capture.old)
        (outside_of S.ScriptSource C.ByteSink source.new capture.new) report.new) }
    ensures cause { IfErr result (HasCause (task_of config.now words.now max_events)
        (outside_of S.ScriptSource C.ByteSink source.old capture.old)
        (outside_of S.ScriptSource C.ByteSink source.new capture.new)) }
    ensures later { (S.faults source.old ≤ S.faults source.new)
        × (C.faults capture.old ≤ C.faults capture.new) }
    // It stops without a cause only where memory runs out.
    ensures complete { Completes (task_of config.now words.now max_events)
        (outside_of S.ScriptSource C.ByteSink source.old capture.old)
        (outside_of S.ScriptSource C.ByteSink source.new capture.new) result }
    // Whatever became of it: at most four frames of one query to one place of the list of name servers, and no query with two lines.
    ensures queries { CountsQueries report.new }
{
    run_over(
        alloc,
        source,
        &mut Direct,
        capture,
        config,
        words,
        max_events,
        report,
        &mut Silent,
    )
}

/// Runs a script of which a link makes what the host meets, and tells a watcher of each row, the one of an event that was not taken
/// in to its end too. Everything else is as in `run`: what is read, and why it stops, has nothing to do with the link.
pub fn run_over<S: ScriptSource, L: Link, C: PcapSink, W: Watcher>(
    alloc: Global,
    source: &mut S,
    link: &mut L,
    capture: &mut C,
    config: &HostConfig<'_>,
    words: &[u32],
    max_events: u32,
    report: &mut Report,
    watcher: &mut W,
) -> Result<(), RunError>
    requires empty { report.old ≡ [] }
    requires some { 1 ≤ max_events }
    requires max { max_events ≤ 10000 }
    // It ended well: each event that the link makes of the script is answered.
    ensures finished { OnOk result (Finished
        (task_over (L.makes link.old (told_by config.now words.now)) config.now words.now max_events)
        (outside_of S.ScriptSource C.ByteSink source.old capture.old)
        (outside_of S.ScriptSource C.ByteSink source.new capture.new) report.new) }
    ensures quiet { OnOk result (IsQuiet (outside_of S.ScriptSource C.ByteSink source.old capture.old)
        (outside_of S.ScriptSource C.ByteSink source.new capture.new)) }
    // It stopped: what it took and left, and why.
    ensures leaves { IfErr result (Leaves
        (task_over (L.makes link.old (told_by config.now words.now)) config.now words.now max_events)
        (outside_of S.ScriptSource C.ByteSink source.old capture.old)
        (outside_of S.ScriptSource C.ByteSink source.new capture.new) report.new) }
    ensures cause { IfErr result (HasCause
        (task_over (L.makes link.old (told_by config.now words.now)) config.now words.now max_events)
        (outside_of S.ScriptSource C.ByteSink source.old capture.old)
        (outside_of S.ScriptSource C.ByteSink source.new capture.new)) }
    ensures later { (S.faults source.old ≤ S.faults source.new)
        × (C.faults capture.old ≤ C.faults capture.new) }
    // It stops without a cause only where memory runs out.
    ensures complete { Completes
        (task_over (L.makes link.old (told_by config.now words.now)) config.now words.now max_events)
        (outside_of S.ScriptSource C.ByteSink source.old capture.old)
        (outside_of S.ScriptSource C.ByteSink source.new capture.new) result }
    // The watcher saw all rows, whatever became of the run.
    ensures seen { W.sees watcher.old report.new watcher.new }
{
    let mut reader = EventReader::new(alloc)?;
    let mut places = empty_places(alloc, max_events)?;
    capture.global_header(PcapLinkType::Ethernet)?;
    let mut slots = no_queries();
    let mut host = Host::new(alloc, config, places.as_mut_slice(), &mut slots);
    for count in 0..max_events + 1 {
        let Some(head) = reader.next_head(source, max_events)? else {
            return Ok(());
        };
        let id = host.last_id();
        let met = reader.pass(id, head, link);
        let (at, event) = reader.event(met);
        let Some(drawn) = words_at(words, count) else {
            return Err(RunError::Words);
        };
        let before = report.rows().len();
        let taken = take_event(&mut host, capture, report, at, event, drawn);
        tell(watcher, report, before);
        taken?;
    }
    unreachable!()
}
