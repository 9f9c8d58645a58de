//! What a row says of what an event brings.
ghost use Rattle.std.specs.Prelude.{◌≡◌};
ghost use Rattle.host_model.specs.Script.{IsArrival};
ghost use Rattle.net_host.specs.Rows.{kind_of, IsNoteFor};
ghost use Rattle.script_reader.specs.Reading.{arrival_of};

use crate::{Kind, ScriptEvent};
use ether_lax::{FrameNote, note_of};

/// What a row says that an event was.
pub(crate) fn kind_of(event: ScriptEvent<'_>) -> Kind
    requires { IsArrival (arrival_of event) }
    ensures { result ≡ kind_of (arrival_of event.entry) }
{
    match event {
        ScriptEvent::Frame(frame) => Kind::Frame {
            length: frame.len() as u16,
        },
        ScriptEvent::Tick => Kind::Tick,
        ScriptEvent::Reset => Kind::Reset,
        ScriptEvent::Query { .. } => Kind::Query,
    }
}

/// The note of the frame that arrived, where one did.
pub(crate) fn note_for(event: ScriptEvent<'_>) -> Option<FrameNote>
    requires { IsArrival (arrival_of event) }
    ensures { IsNoteFor (arrival_of event.entry) result }
{
    match event {
        ScriptEvent::Frame(frame) => Some(note_of(frame)),
        ScriptEvent::Tick | ScriptEvent::Reset | ScriptEvent::Query { .. } => None,
    }
}
