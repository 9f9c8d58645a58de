//! How a server answers an event.
ghost use Rattle.std.specs.Prelude.{◌≡◌, ◌≤◌, ◌<◌, ◌≤ℤ◌, pos, List, None, IfOk};
ghost use Rattle.net_wire.specs.DhcpMessage.{message_of};
ghost use Rattle.phy_layers.specs.PcapBytes.{epoch_micros, IsCapturable};
ghost use Rattle.lease_server.specs.Calls.{Agrees};
ghost use Rattle.lease_server.specs.Holdings.{Call};
ghost use Rattle.lease_server.specs.Values.{values_of};
ghost use Rattle.script_reader.specs.Reading.{arrival_of};
ghost use Rattle.server_run.specs.Asking.{asked_at, asked_in, ByDhcp};
ghost use Rattle.server_run.specs.Captured.{IsCapturableFrame};
ghost use Rattle.server_run.specs.Serving.{AnswersAsked};

use crate::Answered;
use crate::asking::{arp_request_in, request_in};
use crate::frames::{arp_reply, reply_frame};
use lease_server::{Server, ServerValues};
use net_wire::{DhcpRepr, Instant, NoMemory};
use phy_layers::FrameBytes;
use script_reader::ScriptEvent;
use std::alloc::Global;

/// The answer to an event.
#[derive(Debug, Drop)]
pub(crate) struct Given {
    pub answered: Answered,
    pub sent: Option<FrameBytes>,
}

/// No answer.
fn nothing() -> Given
    ensures answered { result.answered ≡ Answered.Nothing }
    ensures sent { result.sent ≡ None }
{
    Given {
        answered: Answered::Nothing,
        sent: None,
    }
}

/// Answers a message of a client.
fn answer_request(
    alloc: Global,
    server: &mut Server<'_>,
    values: &ServerValues,
    at: Instant,
    request: &DhcpRepr<'_>,
) -> Result<Given, NoMemory>
    requires time { IsCapturable at }
    requires later { server.old.last ≤ epoch_micros at }
    ensures value { (calls : List Call) → Agrees (values_of values.now) calls server.old
        → IfOk result (λ given. AnswersAsked (values_of values.now) calls (epoch_micros at)
        (ByDhcp (message_of request.now)) given server.new) }
    ensures last { server.new.last ≤ epoch_micros at }
    ensures within { IfOk result (λ given. IsCapturableFrame given.sent) }
{
    let reply = server.answer(at, request);
    let message = server.message(request, &reply);
    let sent = reply_frame(alloc, values, message)?;
    Ok(Given {
        answered: Answered::Dhcp(reply),
        sent,
    })
}

/// Answers what a frame asks.
fn answer_frame(
    alloc: Global,
    server: &mut Server<'_>,
    values: &ServerValues,
    at: Instant,
    frame: &[u8],
) -> Result<Given, NoMemory>
    requires time { IsCapturable at }
    requires later { server.old.last ≤ epoch_micros at }
    ensures value { (calls : List Call) → Agrees (values_of values.now) calls server.old
        → IfOk result (λ given. AnswersAsked (values_of values.now) calls (epoch_micros at)
        (asked_in (values_of values.now) frame.now) given server.new) }
    ensures last { server.new.last ≤ epoch_micros at }
    ensures within { IfOk result (λ given. IsCapturableFrame given.sent) }
{
    if let Some(request) = request_in(frame, values.hardware) {
        return answer_request(alloc, server, values, at, &request);
    }
    match arp_request_in(frame, values) {
        Some(asked) => {
            let reply = arp_reply(alloc, values, &asked)?;
            Ok(Given {
                answered: Answered::Arp,
                sent: Some(reply),
            })
        }
        None => Ok(nothing()),
    }
}

/// Answers an event.
pub(crate) fn answer_event(
    alloc: Global,
    server: &mut Server<'_>,
    values: &ServerValues,
    at: Instant,
    event: ScriptEvent<'_>,
) -> Result<Given, NoMemory>
    requires time { IsCapturable at }
    requires later { server.old.last ≤ epoch_micros at }
    ensures value { (calls : List Call) → Agrees (values_of values.now) calls server.old
        → IfOk result (λ given. AnswersAsked (values_of values.now) calls (epoch_micros at)
        (asked_at (values_of values.now) (arrival_of event.entry)) given server.new) }
    ensures last { server.new.last ≤ epoch_micros at }
    ensures within { IfOk result (λ given. IsCapturableFrame given.sent) }
{
    match event {
        ScriptEvent::Frame(frame) => answer_frame(alloc, server, values, at, frame),
        ScriptEvent::Tick | ScriptEvent::Reset | ScriptEvent::Query { .. } => Ok(nothing()),
    }
}
