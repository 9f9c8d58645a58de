//! The commands that write a text: of the events of a script, and of the frames of a capture.
ghost use Rattle.std.specs.Prelude.{◌≡◌, ℕ, List, ◌++◌, map, string_bytes, IfSome, IfNone, Result};
ghost use Rattle.capture_explain.specs.Text.{Puts};
ghost use Rattle.phy_layers.specs.Sink.{Took};
ghost use Rattle.script_text.specs.declared.showing.ShowError.{ShowError};
ghost use Rattle.host_top.specs.Show.{WritesShow, IsShowable, ending_shown, ShowsAs, FramesAs, remark_of};

use crate::capture_command::ending_explained;
use crate::command::count_of;
use crate::ending::{Ending, Finish, put_last_line};
use crate::text::flush;
use capture_explain::text::put;
use phy_layers::{ByteSink, SinkError};
use script_source::ScriptSource;
use script_text::{ShowError, frames, show};
use std::alloc::Global;

/// Write the script, or the frames of the capture, of standard input as a text.
#[derive(Clone, Copy, Debug, PartialEq, Eq)]
pub struct ShowCommand {
    /// The most events that the text may have.
    pub max_events: u32,
}

/// What the words behind `show` or `frames` name.
pub(crate) fn show_of(words: &[String]) -> Option<ShowCommand>
    ensures found { IfSome result (WritesShow (map string_bytes words.now)) }
    ensures refuses { IfNone result ((show : ShowCommand) → WritesShow (map string_bytes words.now) show → ⊥) }
{
    let [max_events] = words else {
        return None;
    };
    Some(ShowCommand {
        max_events: count_of(max_events.as_bytes())?,
    })
}

/// Writes the text of the script. After a refusal of the output the script is read on.
pub(crate) fn show_script<S: ScriptSource, O: ByteSink>(
    alloc: Global,
    command: &ShowCommand,
    script: &mut S,
    out: &mut O,
) -> Finish
    requires showable { IsShowable command.now }
    ensures shown { (lines : List ℕ)
        × ShowsAs command.now.max_events (S.left script.old) (S.left script.new) (S.faults script.old)
        (S.faults script.new) lines result.ending
        × Took O.bytes O.faults O.grows result.answer (lines ++ remark_of result.ending) out.old out.new }
{
    let mut answer = Ok(());
    let ending = show_named(alloc, command, script, out, &mut answer);
    put_remark(out, &mut answer, ending);
    Finish { ending, answer }
}

/// Writes the text of the frames of the capture. After a refusal of the output the capture is read on.
pub(crate) fn show_frames<S: ScriptSource, O: ByteSink>(
    alloc: Global,
    command: &ShowCommand,
    script: &mut S,
    out: &mut O,
) -> Finish
    requires showable { IsShowable command.now }
    ensures shown { (lines : List ℕ)
        × FramesAs command.now.max_events (S.left script.old) (S.left script.new) (S.faults script.old)
        (S.faults script.new) lines result.ending
        × Took O.bytes O.faults O.grows result.answer (lines ++ remark_of result.ending) out.old out.new }
{
    let mut answer = Ok(());
    let ending = frames_named(alloc, command, script, out, &mut answer);
    put_remark(out, &mut answer, ending);
    Finish { ending, answer }
}

fn show_named<S: ScriptSource, O: ByteSink>(
    alloc: Global,
    command: &ShowCommand,
    source: &mut S,
    out: &mut O,
    written: &mut Result<(), SinkError>,
) -> Ending
    requires showable { IsShowable command.now }
    ensures { (lines : List ℕ)
        × ShowsAs command.now.max_events (S.left source.old) (S.left source.new) (S.faults source.old) (S.faults source.new) lines result
        × Puts O.bytes O.faults O.grows written.old written.new lines out.old out.new }
{
    let answer = show(alloc, source, command.max_events, out, written);
    ending_shown(answer)
}

fn frames_named<S: ScriptSource, O: ByteSink>(
    alloc: Global,
    command: &ShowCommand,
    source: &mut S,
    out: &mut O,
    written: &mut Result<(), SinkError>,
) -> Ending
    requires showable { IsShowable command.now }
    ensures { (lines : List ℕ)
        × FramesAs command.now.max_events (S.left source.old) (S.left source.new) (S.faults source.old) (S.faults source.new) lines result
        × Puts O.bytes O.faults O.grows written.old written.new lines out.old out.new }
{
    let answer = frames(alloc, source, command.max_events, out, written);
    ending_explained(answer)
}

/// Writes the last line as a comment of the text, and has the output hand on what it holds back.
fn put_remark<O: ByteSink>(out: &mut O, answer: &mut Result<(), SinkError>, ending: Ending)
    ensures { Puts O.bytes O.faults O.grows answer.old answer.new (remark_of ending) out.old out.new }
{
    put(out, answer, b"# ");
    put_last_line(out, answer, ending);
    flush(out, answer);
}

/// How a showing of a script ended that was answered so.
fn ending_shown(answer: Result<(), ShowError>) -> Ending
    ensures { result ≡ ending_shown answer }
{
    match answer {
        Ok(()) => Ending::Done,
        Err(ShowError::Script(offset)) => Ending::Script(offset),
        Err(ShowError::Limit) => Ending::Limit,
        Err(ShowError::Read) => Ending::Read,
        Err(ShowError::NoMemory) => Ending::NoMemory,
    }
}
