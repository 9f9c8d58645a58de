//! A capture in, the printing of its frames out.
ghost use Rattle.std.specs.Prelude.{◌≡◌, ◌≤◌, codes, length, IfErr, IfOk, OnOk, OnErr};
ghost use Rattle.std.specs.String.{string_bytes};
ghost use Rattle.capture_explain.specs.Explained.{ReadsWhole, Stops, HasCause, Completes};
ghost use Rattle.capture_explain.specs.PrintText.{entry_line, entry_text, PutsEntries};
ghost use Rattle.capture_explain.specs.Reading.{entry_with};
ghost use Rattle.capture_explain.specs.Text.{Puts};
ghost use Rattle.net_wire.specs.Pretty.{ethernet_text};
ghost use Rattle.net_wire.specs.PrettyIndent.{indent_from};

use crate::ExplainError;
use crate::entry_reader::{EntryHead, frame_room, read_entry, read_header};
use crate::text::{put, put_number, put_six_digits};
use net_wire::NoMemory;
use net_wire::pretty::{EthernetFrame, PrettyPrinter};
use phy_layers::{ByteSink, SinkError};
use script_source::ScriptSource;
use std::alloc::Global;

/// Prints a capture frame by frame: reads it in pieces, and keeps no frame and no text. `written` is what the sink
/// answered so far: after a refusal nothing more is written, and the capture is read all the same.
pub fn print_capture<S: ScriptSource, O: ByteSink>(
    alloc: Global,
    source: &mut S,
    max_frames: u32,
    out: &mut O,
    written: &mut Result<(), SinkError>,
) -> Result<(), ExplainError>
    requires some { 1 ≤ max_frames }
    requires max { max_frames ≤ 100000 }
    ensures printed { OnOk result (ReadsWhole max_frames (S.left source.old) (S.left source.new)
        (PutsEntries O.ByteSink written.old written.new out.old out.new)) }
    ensures quiet { OnOk result (S.faults source.new ≡ S.faults source.old) }
    // It stopped: what it took, left and printed, and why.
    ensures leaves { IfErr result (Stops max_frames (S.left source.old) (S.left source.new)
        (PutsEntries O.ByteSink written.old written.new out.old out.new)) }
    ensures cause { IfErr result (
        HasCause max_frames (S.left source.old) (S.faults source.old) (S.faults source.new)) }
    ensures later { S.faults source.old ≤ S.faults source.new }
    // It stops without a cause only where memory runs out.
    ensures complete { Completes max_frames (S.left source.old) (S.faults source.old) (S.faults source.new) result }
{
    let mut frame = frame_room(alloc)?;
    read_header(source)?;
    let mut offset = 24;
    for count in 0..max_frames + 1 {
        let is_full = count == max_frames;
        let Some(head) = read_entry(source, is_full, offset, frame.as_mut_slice())? else {
            return Ok(());
        };
        put_entry(
            alloc,
            out,
            written,
            count,
            head,
            &frame.as_slice()[..head.captured as usize],
        )?;
        offset += 16 + u64::from(head.captured);
    }
    unreachable!()
}

/// Prints an entry.
fn put_entry<O: ByteSink>(
    alloc: Global,
    out: &mut O,
    written: &mut Result<(), SinkError>,
    number: u32,
    head: EntryHead,
    frame: &[u8],
) -> Result<(), NoMemory>
    requires captured { length frame.now ≡ head.captured }
    ensures ok { OnOk result (Puts O.bytes O.faults O.grows written.old written.new
        (entry_text (number, entry_with head frame.now)) out.old out.new) }
    ensures err { OnErr result ((written.new ≡ written.old) × (out.new ≡ out.old)) }
{
    let lines = lines_of(alloc, frame)?;
    put_line(out, written, number, head);
    put(out, written, lines.as_bytes());
    put(out, written, b"\n");
    Ok(())
}

/// The printing of a frame behind two blanks, without its last line feed.
fn lines_of(alloc: Global, frame: &[u8]) -> Result<String, NoMemory>
    ensures { IfOk result (λ text. string_bytes text ≡ ethernet_text frame.now (indent_from (codes "  "))) }
{
    match format!(in alloc; "{}", PrettyPrinter::<EthernetFrame>::new("  ", frame)) {
        Ok(text) => Ok(text),
        Err(_) => Err(NoMemory),
    }
}

/// Writes the line of an entry.
fn put_line<O: ByteSink>(
    out: &mut O,
    written: &mut Result<(), SinkError>,
    number: u32,
    head: EntryHead,
)
    ensures { Puts O.bytes O.faults O.grows written.old written.new
        (entry_line number head.secs head.micros head.captured head.length) out.old out.new }
{
    put_number(out, written, u64::from(number));
    put(out, written, b" ");
    put_number(out, written, u64::from(head.secs));
    put(out, written, b".");
    put_six_digits(out, written, u64::from(head.micros));
    put(out, written, b" frame ");
    put_number(out, written, u64::from(head.captured));
    put(out, written, b"/");
    put_number(out, written, u64::from(head.length));
    put(out, written, b"\n");
}
