//! A whole run of a server: a script in, a capture and a report out.
ghost use Rattle.std.specs.Prelude.{◌≡◌, ℕ, ◌≤◌, ◌⊎◌, List, [], None, IfErr, IfOk, OnOk};
ghost use Rattle.std.specs.Result.{IsErrOf};
ghost use Rattle.wire_base.specs.Causes.{IsRisen};
ghost use Rattle.phy_layers.specs.Sink.{Took};
ghost use Rattle.phy_layers.specs.PcapBytes.{epoch_micros, IsCapturable};
ghost use Rattle.host_model.specs.Script.{IsArrival};
ghost use Rattle.lease_server.specs.Calls.{Agrees};
ghost use Rattle.lease_server.specs.Holdings.{Call};
ghost use Rattle.lease_server.specs.Values.{refused, values_of};
ghost use Rattle.net_host.specs.Outside.{outside_of, IsQuiet};
ghost use Rattle.script_reader.specs.Reading.{arrival_of};
ghost use Rattle.server_run.specs.Captured.{frame_record, IsCapturableFrame};
ghost use Rattle.server_run.specs.Rows.{frame_of};
ghost use Rattle.server_run.specs.Served.{Finished, Leaves, HasCause, Completes};
ghost use Rattle.server_run.specs.Serving.{standing, TakesEvent, LeavesRow, LeavesEvent};

use crate::answering::answer_event;
use crate::storage::{copy_of, free_clients, lease_places, slot_places};
use crate::watcher::tell;
use crate::{ServeError, ServeReport, ServeWatcher};
use lease_server::{Server, ServerValues};
use net_host::Silent;
use net_wire::{Instant, NoMemory};
use phy_layers::{FrameBytes, PcapLinkType, PcapSink, SinkError};
use script_reader::{EventReader, ScriptEvent};
use script_source::ScriptSource;
use std::alloc::Global;

/// A copy of the frame that arrived, where one did.
fn arrived_frame(alloc: Global, event: ScriptEvent<'_>) -> Result<Option<FrameBytes>, NoMemory>
    ensures { IfOk result (λ frame. frame ≡ frame_of (arrival_of event.entry)) }
{
    match event {
        ScriptEvent::Frame(frame) => Ok(Some(FrameBytes::from_slice(alloc, frame)?)),
        ScriptEvent::Tick | ScriptEvent::Reset | ScriptEvent::Query { .. } => Ok(None),
    }
}

/// Captures the frame that arrived, where one did.
fn capture_arrived<C: PcapSink>(
    capture: &mut C,
    at: Instant,
    event: ScriptEvent<'_>,
) -> Result<(), SinkError>
    requires time { IsCapturable at }
    requires arrival { IsArrival (arrival_of event) }
    ensures { Took C.bytes C.faults C.grows result
        (frame_record (epoch_micros at) (frame_of (arrival_of event.entry))) capture.old capture.new }
{
    match event {
        ScriptEvent::Frame(frame) => capture.packet(at, frame),
        ScriptEvent::Tick | ScriptEvent::Reset | ScriptEvent::Query { .. } => Ok(()),
    }
}

/// Captures the frame that was sent, where one was.
fn capture_sent<C: PcapSink>(
    capture: &mut C,
    at: Instant,
    sent: &Option<FrameBytes>,
) -> Result<(), SinkError>
    requires time { IsCapturable at }
    requires within { IsCapturableFrame sent.now }
    ensures { Took C.bytes C.faults C.grows result
        (frame_record (epoch_micros at) sent.now) capture.old capture.new }
{
    match sent {
        Some(frame) => capture.packet(at, frame.as_slice()),
        None => Ok(()),
    }
}

/// Takes an event in: places its row, captures the frame that arrived, answers, and captures what is sent.
fn take_event<C: PcapSink>(
    alloc: Global,
    server: &mut Server<'_>,
    values: &ServerValues,
    capture: &mut C,
    report: &mut ServeReport,
    at: Instant,
    event: ScriptEvent<'_>,
) -> Result<(), ServeError>
    requires time { IsCapturable at }
    requires arrival { IsArrival (arrival_of event) }
    requires later { server.old.last ≤ epoch_micros at }
    ensures ok { (calls : List Call) → Agrees (values_of values.now) calls server.old
        → OnOk result (TakesEvent (values_of values.now) calls at event.entry
        (standing server.old (C.bytes capture.old) report.old)
        (standing server.new (C.bytes capture.new) report.new)) }
    ensures cause { IfErr result (λ e. (e ≡ ServeError.Sink) ⊎ (e ≡ ServeError.NoMemory)) }
    ensures sink { (calls : List Call) → Agrees (values_of values.now) calls server.old
        → IsErrOf result ServeError.Sink → LeavesRow (values_of values.now) calls at event.entry
        (standing server.old (C.bytes capture.old) report.old)
        (standing server.new (C.bytes capture.new) report.new) }
    ensures memory { (calls : List Call) → Agrees (values_of values.now) calls server.old
        → IsErrOf result ServeError.NoMemory → LeavesEvent (values_of values.now) calls at event.entry
        (standing server.old (C.bytes capture.old) report.old)
        (standing server.new (C.bytes capture.new) report.new) }
    ensures risen { IsErrOf result ServeError.Sink → IsRisen (C.faults capture.old) (C.faults capture.new) }
    ensures quiet { (IsErrOf result ServeError.Sink → ⊥) → C.faults capture.new ≡ C.faults capture.old }
    ensures faults { C.faults capture.old ≤ C.faults capture.new }
    ensures last { OnOk result (server.new.last ≤ epoch_micros at) }
{
    let arrived = arrived_frame(alloc, event)?;
    report.begin(at, arrived)?;
    capture_arrived(capture, at, event)?;
    let given = answer_event(alloc, server, values, at, event)?;
    let captured = capture_sent(capture, at, &given.sent);
    report.fill_last(given.answered, given.sent);
    captured?;
    Ok(())
}

/// Serves a script with a server of these values: answers each event as it is read, reports it and captures
/// the frames.
pub fn serve<S: ScriptSource, C: PcapSink>(
    alloc: Global,
    source: &mut S,
    capture: &mut C,
    values: &ServerValues,
    max_events: u32,
    report: &mut ServeReport,
) -> Result<(), ServeError>
    requires checked { refused (values_of values.now) ≡ None }
    requires empty { report.old ≡ [] }
    requires some { 1 ≤ max_events }
    requires max { max_events ≤ 10000 }
    // It ended well: each event of the script is served.
    ensures finished { OnOk result (Finished (values_of values.now) max_events
        (outside_of S.ScriptSource C.ByteSink source.old capture.old)
        (outside_of S.ScriptSource C.ByteSink source.new capture.new) report.new) }
    ensures quiet { OnOk result (IsQuiet (outside_of S.ScriptSource C.ByteSink source.old capture.old)
        (outside_of S.ScriptSource C.ByteSink source.new capture.new)) }
    // It stopped: what it took and left, and why.
    ensures leaves { IfErr result (Leaves (values_of values.now) max_events
        (outside_of S.ScriptSource C.ByteSink source.old capture.old)
        (outside_of S.ScriptSource C.ByteSink source.new capture.new) report.new) }
    ensures cause { IfErr result (HasCause max_events
        (outside_of S.ScriptSource C.ByteSink source.old capture.old)
        (outside_of S.ScriptSource C.ByteSink source.new capture.new)) }
    ensures later { (S.faults source.old ≤ S.faults source.new)
        × (C.faults capture.old ≤ C.faults capture.new) }
    // It stops without a cause only where memory runs out.
    ensures complete { Completes max_events
        (outside_of S.ScriptSource C.ByteSink source.old capture.old)
        (outside_of S.ScriptSource C.ByteSink source.new capture.new) result }
{
    serve_over(
        alloc,
        source,
        capture,
        values,
        max_events,
        report,
        &mut Silent,
    )
}

/// As `serve`, and tells a watcher of each row, the one of an event that was not taken in to its end too.
pub fn serve_over<S: ScriptSource, C: PcapSink, W: ServeWatcher>(
    alloc: Global,
    source: &mut S,
    capture: &mut C,
    values: &ServerValues,
    max_events: u32,
    report: &mut ServeReport,
    watcher: &mut W,
) -> Result<(), ServeError>
    requires checked { refused (values_of values.now) ≡ None }
    requires empty { report.old ≡ [] }
    requires some { 1 ≤ max_events }
    requires max { max_events ≤ 10000 }
    // It ended well: each event of the script is served.
    ensures finished { OnOk result (Finished (values_of values.now) max_events
        (outside_of S.ScriptSource C.ByteSink source.old capture.old)
        (outside_of S.ScriptSource C.ByteSink source.new capture.new) report.new) }
    ensures quiet { OnOk result (IsQuiet (outside_of S.ScriptSource C.ByteSink source.old capture.old)
        (outside_of S.ScriptSource C.ByteSink source.new capture.new)) }
    // It stopped: what it took and left, and why.
    ensures leaves { IfErr result (Leaves (values_of values.now) max_events
        (outside_of S.ScriptSource C.ByteSink source.old capture.old)
        (outside_of S.ScriptSource C.ByteSink source.new capture.new) report.new) }
    ensures cause { IfErr result (HasCause max_events
        (outside_of S.ScriptSource C.ByteSink source.old capture.old)
        (outside_of S.ScriptSource C.ByteSink source.new capture.new)) }
    ensures later { (S.faults source.old ≤ S.faults source.new)
        × (C.faults capture.old ≤ C.faults capture.new) }
    // It stops without a cause only where memory runs out.
    ensures complete { Completes max_events
        (outside_of S.ScriptSource C.ByteSink source.old capture.old)
        (outside_of S.ScriptSource C.ByteSink source.new capture.new) result }
    // The watcher saw all rows, whatever became of the run.
    ensures seen { W.sees watcher.old report.new watcher.new }
{
    let mut reader = EventReader::new(alloc)?;
    let told = copy_of(values)?;
    let mut clients = free_clients(alloc, values.count)?;
    let mut leases = lease_places(alloc, values.count)?;
    let mut slots = slot_places(alloc, values.count)?;
    capture.global_header(PcapLinkType::Ethernet)?;
    let mut server = Server::new(
        told,
        clients.as_mut_slice(),
        leases.as_mut_slice(),
        slots.as_mut_slice(),
    );
    for _ in 0..max_events + 1 {
        let Some(head) = reader.next_head(source, max_events)? else {
            return Ok(());
        };
        let (at, event) = reader.event(head);
        let before = report.rows().len();
        let taken = take_event(alloc, &mut server, values, capture, report, at, event);
        tell(watcher, report, before);
        taken?;
    }
    unreachable!()
}
