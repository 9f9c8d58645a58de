//! The commands that read a capture.
ghost use Rattle.std.specs.Prelude.{◌≡◌, ℕ, List, [], map, string_bytes, IfSome, IfNone, Result};
ghost use Rattle.capture_explain.specs.declared.error.ExplainError.{ExplainError};
ghost use Rattle.capture_explain.specs.Text.{Puts};
ghost use Rattle.host_top.specs.Explain.{IsFrameCountWord, WritesCapture, IsReadable, ending_explained, ExplainsAs, PrintsAs};

use crate::ending::Ending;
use crate::word::number_of;
use capture_explain::{ExplainError, Explanation, explain, print_capture};
use phy_layers::{ByteSink, SinkError};
use script_source::ScriptSource;
use std::alloc::Global;

/// Explain or print the capture of standard input.
#[derive(Clone, Copy, Debug, PartialEq, Eq)]
pub struct CaptureCommand {
    /// The most frames that the capture may have.
    pub max_frames: u32,
}

/// What the words behind `explain` or `print` name.
pub(crate) fn capture_of(words: &[String]) -> Option<CaptureCommand>
    ensures found { IfSome result (WritesCapture (map string_bytes words.now)) }
    ensures refuses { IfNone result ((capture : CaptureCommand) → WritesCapture (map string_bytes words.now) capture → ⊥) }
{
    let [max_frames] = words else {
        return None;
    };
    Some(CaptureCommand {
        max_frames: frame_count_of(max_frames.as_bytes())?,
    })
}

/// The number of frames that a word writes.
fn frame_count_of(word: &[u8]) -> Option<u32>
    ensures found { IfSome result (IsFrameCountWord word.now) }
    ensures refuses { IfNone result ((count : ℕ) → IsFrameCountWord word.now count → ⊥) }
{
    let number = number_of(word, 10, 6)?;
    if number < 1 || number > 100_000 {
        return None;
    }
    Some(number as u32)
}

/// Explains the capture.
pub(crate) fn explain_named<S: ScriptSource>(
    alloc: Global,
    command: &CaptureCommand,
    source: &mut S,
    into: &mut Explanation,
) -> Ending
    requires empty { into.old ≡ [] }
    requires readable { IsReadable command.now }
    ensures { ExplainsAs command.now.max_frames (S.left source.old) (S.left source.new) (S.faults source.old)
        (S.faults source.new) into.new result }
{
    let answer = explain(alloc, source, command.max_frames, into);
    ending_explained(answer)
}

/// Prints the capture frame by frame. After a refusal of the output it is read on.
pub(crate) fn print_named<S: ScriptSource, O: ByteSink>(
    alloc: Global,
    command: &CaptureCommand,
    source: &mut S,
    out: &mut O,
    written: &mut Result<(), SinkError>,
) -> Ending
    requires readable { IsReadable command.now }
    ensures { (lines : List ℕ)
        × PrintsAs command.now.max_frames (S.left source.old) (S.left source.new) (S.faults source.old) (S.faults source.new) lines result
        × Puts O.bytes O.faults O.grows written.old written.new lines out.old out.new }
{
    let answer = print_capture(alloc, source, command.max_frames, out, written);
    ending_explained(answer)
}

/// How a reading of a capture ended that was answered so.
pub(crate) fn ending_explained(answer: Result<(), ExplainError>) -> Ending
    ensures { result ≡ ending_explained answer }
{
    match answer {
        Ok(()) => Ending::Done,
        Err(ExplainError::Header) => Ending::Entry(0),
        Err(ExplainError::Entry(offset)) => Ending::Entry(offset),
        Err(ExplainError::Limit) => Ending::FrameLimit,
        Err(ExplainError::Read) => Ending::Read,
        Err(ExplainError::NoMemory) => Ending::NoMemory,
    }
}
