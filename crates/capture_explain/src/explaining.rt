//! A capture in, rows out.
ghost use Rattle.std.specs.Prelude.{◌≡◌, ◌≤◌, [], ◌∷◌, ◌++◌, length, IfErr, IfOk, OnOk, OnErr};
ghost use Rattle.wire_base.specs.Causes.{IsRisen};
ghost use Rattle.capture_explain.specs.Explained.{Explained, Leaves, HasCause, Completes};
ghost use Rattle.capture_explain.specs.Reading.{entry_with};
ghost use Rattle.capture_explain.specs.Rows.{IsRowOf};
ghost use Rattle.capture_explain.specs.declared.explanation.ExplainRow.{ExplainRow};

use crate::entry_reader::{EntryHead, frame_room, read_entry, read_header};
use crate::{ExplainError, ExplainRow, Explanation, dissect};
use net_wire::NoMemory;
use script_source::ScriptSource;
use std::alloc::Global;

/// Explains a capture frame by frame: reads it in pieces and keeps no frame.
pub fn explain<S: ScriptSource>(
    alloc: Global,
    source: &mut S,
    max_frames: u32,
    into: &mut Explanation,
) -> Result<(), ExplainError>
    requires empty { into.old ≡ [] }
    requires some { 1 ≤ max_frames }
    requires max { max_frames ≤ 100000 }
    ensures explained { OnOk result (Explained max_frames (S.left source.old) (S.left source.new) into.new) }
    ensures quiet { OnOk result (S.faults source.new ≡ S.faults source.old) }
    // It stopped: what it took and left, and why.
    ensures leaves { IfErr result (Leaves max_frames (S.left source.old) (S.left source.new) into.new) }
    ensures cause { IfErr result (
        HasCause max_frames (S.left source.old) (S.faults source.old) (S.faults source.new)) }
    ensures later { S.faults source.old ≤ S.faults source.new }
    // It stops without a cause only where memory runs out.
    ensures complete { Completes max_frames (S.left source.old) (S.faults source.old) (S.faults source.new) result }
{
    let mut frame = frame_room(alloc)?;
    read_header(source)?;
    let mut offset = 24;
    for count in 0..max_frames + 1 {
        let is_full = count == max_frames;
        let Some(head) = read_entry(source, is_full, offset, frame.as_mut_slice())? else {
            return Ok(());
        };
        add_row(
            alloc,
            into,
            head,
            &frame.as_slice()[..head.captured as usize],
        )?;
        offset += 16 + u64::from(head.captured);
    }
    unreachable!()
}

/// Adds the row of a frame.
fn add_row(
    alloc: Global,
    into: &mut Explanation,
    head: EntryHead,
    frame: &[u8],
) -> Result<(), NoMemory>
    requires captured { length frame.now ≡ head.captured }
    requires within { length frame.now ≤ 262144 }
    ensures ok { OnOk result ((row : ExplainRow) × IsRowOf (entry_with head frame.now) row
        × (into.new ≡ into.old ++ row ∷ [])) }
    ensures err { OnErr result (into.new ≡ into.old) }
{
    let dissection = dissect(alloc, frame)?;
    into.push(ExplainRow {
        secs: head.secs,
        micros: head.micros,
        captured: head.captured,
        length: head.length,
        parts: dissection.parts,
        stop: dissection.stop,
        agree: dissection.agree,
        ah: dissection.ah,
        esp: dissection.esp,
    })
}
