//! A script in, its text out.
ghost use Rattle.std.specs.Prelude.{◌≡◌, ◌≤◌, IfErr, OnOk};
ghost use Rattle.script_text.specs.Shown.{ReadsWhole, Stops, HasCause, Completes, PutsEvents};

use crate::line::put_event;
use net_wire::NoMemory;
use phy_layers::{ByteSink, SinkError};
use script_reader::{EventReader, ReadEventError};
use script_source::ScriptSource;
use std::alloc::Global;

/// Why the rest of a script is not shown.
#[derive(Clone, Copy, Debug, PartialEq, Eq)]
pub enum ShowError {
    /// What begins at this place of the script is no event that may come next.
    Script(u64),
    /// As many events as there may be were shown, and a byte follows.
    Limit,
    /// The source failed.
    Read,
    /// Memory ran out.
    NoMemory,
}

impl From<ReadEventError> for ShowError {
    ghost use Rattle.std.specs.Prelude.{◌≡◌};
    ghost use Rattle.script_text.specs.ShowError.{of_read_event};

    ghost from_gives = { λ from error. error ≡ of_read_event from };

    fn from(error: ReadEventError) -> ShowError {
        match error {
            ReadEventError::Script(offset) => ShowError::Script(offset),
            ReadEventError::Limit => ShowError::Limit,
            ReadEventError::Read => ShowError::Read,
        }
    }
}

impl From<NoMemory> for ShowError {
    ghost use Rattle.std.specs.Prelude.{◌≡◌};
    ghost use Rattle.script_text.specs.declared.showing.ShowError.TheVariants as show;

    ghost from_gives = { λ _ error. error ≡ show.NoMemory };

    fn from(_: NoMemory) -> ShowError {
        ShowError::NoMemory
    }
}

/// Shows a script of at most `max_events`: writes the line of each event as it is read. `written` is what the sink
/// answered so far: after a refusal nothing more is written, and the script is read all the same.
pub fn show<S: ScriptSource, O: ByteSink>(
    alloc: Global,
    source: &mut S,
    max_events: u32,
    out: &mut O,
    written: &mut Result<(), SinkError>,
) -> Result<(), ShowError>
    requires max { max_events ≤ 10000 }
    ensures shown { OnOk result (ReadsWhole max_events (S.left source.old) (S.left source.new)
        (PutsEvents O.ByteSink written.old written.new out.old out.new)) }
    ensures quiet { OnOk result (S.faults source.new ≡ S.faults source.old) }
    // It stopped: what it took, left and wrote, and why.
    ensures leaves { IfErr result (Stops max_events (S.left source.old) (S.left source.new)
        (PutsEvents O.ByteSink written.old written.new out.old out.new)) }
    ensures cause { IfErr result (
        HasCause max_events (S.left source.old) (S.faults source.old) (S.faults source.new)) }
    ensures later { S.faults source.old ≤ S.faults source.new }
    // It stops without a cause only where memory runs out.
    ensures complete { Completes max_events (S.left source.old) (S.faults source.old) (S.faults source.new) result }
{
    let mut reader = EventReader::new(alloc)?;
    for _count in 0..max_events + 1 {
        let Some(head) = reader.next_head(source, max_events)? else {
            return Ok(());
        };
        let (_at, event) = reader.event(head);
        put_event(out, written, head.micros, event);
    }
    unreachable!()
}
