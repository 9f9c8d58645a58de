//! A capture in, the text of its frames out.
ghost use Rattle.std.specs.Prelude.{◌≡◌, ◌*◌, ◌+◌, ◌≤◌, IfErr, IfOk, IfSome, IfNone, OnOk, length};
ghost use Rattle.script_text.specs.CapturedFrames.{MayFollow};
ghost use Rattle.script_text.specs.ShownFrames.{ReadsWhole, Stops, HasCause, Completes, PutsFrames};

use crate::line::put_event;
use capture_explain::ExplainError;
use capture_explain::entry_reader::{EntryHead, FRAME_LEN, read_entry, read_header};
use net_wire::NoMemory;
use phy_layers::{ByteSink, SinkError};
use script_reader::ScriptEvent;
use script_source::ScriptSource;
use std::alloc::Global;

/// The most bytes of a frame of an event.
const EVENT_FRAME_LEN: u32 = 65_535;

/// A buffer that any frame of a capture has room in.
fn frame_room(alloc: Global) -> Result<Vec<u8>, NoMemory>
    ensures { IfOk result (λ room. length room.items ≡ 262144) }
{
    match vec![in alloc; 0; FRAME_LEN] {
        Ok(room) => Ok(room),
        Err(_) => Err(NoMemory),
    }
}

/// The time of an entry, where it may follow one at `last_micros`.
fn next_micros(last_micros: u64, head: EntryHead) -> Option<u64>
    ensures found { IfSome result (λ micros. (micros ≡ head.secs * 1000000 + head.micros)
        × MayFollow last_micros head.secs head.micros head.captured) }
    ensures refuses { IfNone result (¬ MayFollow last_micros head.secs head.micros head.captured) }
{
    let micros = u64::from(head.secs) * 1_000_000 + u64::from(head.micros);
    if head.micros >= 1_000_000 || micros < last_micros || head.captured > EVENT_FRAME_LEN {
        return None;
    }
    Some(micros)
}

/// Shows the frames of a capture of at most `max_frames`: writes the line of each as it is read. `written` is what the
/// sink answered so far: after a refusal nothing more is written, and the capture is read all the same. What begins at
/// a place of the file is no entry either where it may not come next.
pub fn frames<S: ScriptSource, O: ByteSink>(
    alloc: Global,
    source: &mut S,
    max_frames: u32,
    out: &mut O,
    written: &mut Result<(), SinkError>,
) -> Result<(), ExplainError>
    requires max { max_frames ≤ 10000 }
    ensures shown { OnOk result (ReadsWhole max_frames (S.left source.old) (S.left source.new)
        (PutsFrames O.ByteSink written.old written.new out.old out.new)) }
    ensures quiet { OnOk result (S.faults source.new ≡ S.faults source.old) }
    // It stopped: what it took, left and wrote, and why.
    ensures leaves { IfErr result (Stops max_frames (S.left source.old) (S.left source.new)
        (PutsFrames O.ByteSink written.old written.new out.old out.new)) }
    ensures cause { IfErr result (
        HasCause max_frames (S.left source.old) (S.faults source.old) (S.faults source.new)) }
    ensures later { S.faults source.old ≤ S.faults source.new }
    // It stops without a cause only where memory runs out.
    ensures complete { Completes max_frames (S.left source.old) (S.faults source.old) (S.faults source.new) result }
{
    let mut room = frame_room(alloc)?;
    read_header(source)?;
    let mut offset = 24;
    let mut last_micros = 0;
    for count in 0..max_frames + 1 {
        let is_full = count == max_frames;
        let Some(head) = read_entry(source, is_full, offset, room.as_mut_slice())? else {
            return Ok(());
        };
        let Some(micros) = next_micros(last_micros, head) else {
            return Err(ExplainError::Entry(offset));
        };
        let frame = &room.as_slice()[..head.captured as usize];
        put_event(out, written, micros, ScriptEvent::Frame(frame));
        last_micros = micros;
        offset += 16 + u64::from(head.captured);
    }
    unreachable!()
}
