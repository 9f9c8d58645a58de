//! The program as a function: words and a script in; a capture, a report and its text out.
ghost use Rattle.std.specs.Prelude.{◌≡◌, ℕ, ◌<◌, ◌^◌, length, List, [], ◌++◌, ◌⊎◌, Option, Some, None, IfSome, map, string_bytes};
ghost use Rattle.wire_base.specs.Causes.{IsRisen};
ghost use Rattle.phy_layers.specs.Sink.{Took};
ghost use Rattle.net_host.specs.Outside.{outside_of};
ghost use Rattle.host_top.specs.Command.{IsTaken, IsCommand, command_asked};
ghost use Rattle.host_top.specs.RunWords.{IsRunnable};
ghost use Rattle.host_top.specs.MakeWords.{run_of_make};
ghost use Rattle.host_top.specs.Disturb.{IsDisturbable, DisturbedTo};
ghost use Rattle.capture_explain.specs.declared.explanation.ExplainRow.{ExplainRow};
ghost use Rattle.capture_explain.specs.ExplainText.{explanation_bytes};
ghost use Rattle.net_host.specs.QueryRows.{CountsQueries};
ghost use Rattle.host_top.specs.Explain.{IsReadable, ExplainsAs, PrintsAs};
ghost use Rattle.host_top.specs.Ending.{last_line};
ghost use Rattle.host_top.specs.HostMain.{ForNamed, IsDone, HasBrokenScript, HasLongScript, IsComplete};
ghost use Rattle.host_top.specs.HostMain.{Ask, AskToMake, AskToRead, OnlyReads, AskForNoWork, HasEnded, Finishes};
ghost use Rattle.server_run.specs.declared.report.ServeRow.{ServeRow};
ghost use Rattle.host_top.specs.Serve.{IsServable, ServesAs};
ghost use Rattle.host_top.specs.ServeText.{serve_bytes};
ghost use Rattle.host_top.specs.Making.{sink_alone, MadeTo};
ghost use Rattle.host_top.specs.Printing.{summed_up, Prints};
ghost use Rattle.host_top.specs.Ran.{RanTo};
ghost use Rattle.host_top.specs.ReportText.{report_bytes};
ghost use Rattle.host_top.specs.Status.{ComesExactly};
ghost use Rattle.host_top.specs.Summary.{summary_text};
ghost use Rattle.capture_explain.specs.Text.{Puts};
ghost use Rattle.host_top.specs.Usage.{help_text};

use crate::capture_command::{CaptureCommand, explain_named, print_named};
use crate::command::{Asked, Command, MakeCommand, RunCommand, parse};
use crate::disturb_command::{DisturbCommand, run_over_bad_link};
use crate::ending::{Ending, Finish, put_last_line};
use crate::printer::RowPrinter;
use crate::report_text::report_text;
use crate::running::{run_made, run_named};
use crate::serve_command::{ServeCommand, serve_named};
use crate::serve_text::serve_text;
use crate::show_command::{show_frames, show_script};
use crate::summary::put_summary;
use crate::text::flush;
use crate::usage::put_help;
use capture_explain::{Explanation, explain_text};
use net_host::{Report, ScriptSource, Silent};
use phy_layers::{ByteSink, PcapSink, SinkError};
use server_run::ServeReport;
use std::alloc::Global;

/// Does what the words behind the program's name ask for, and answers the status that the program ends with.
pub fn host_main<S: ScriptSource, C: PcapSink, O: ByteSink>(
    alloc: Global,
    args: &[String],
    script: &mut S,
    capture: &mut C,
    out: &mut O,
    report: &mut Report,
) -> u8
    requires empty { report.old ≡ [] }

    // Exactly the words that name no command are refused. Then nothing is read, captured or reported, and neither
    // where they ask how the program is used.
    ensures refuses { ComesExactly 1 (IsTaken (map string_bytes args.now) → ⊥) result }
    ensures untouched { AskForNoWork (map string_bytes args.now)
        → (script.new ≡ script.old) × (capture.new ≡ capture.old) × (report.new ≡ []) }

    // 0: the command that the words name is done, and no count of faults changed.
    ensures done { result ≡ 0 → ForNamed (map string_bytes args.now) (λ command. IsDone command
        (outside_of S.ScriptSource C.ByteSink script.old capture.old)
        (outside_of S.ScriptSource C.ByteSink script.new capture.new) report.new) }
    ensures quiet { result ≡ 0 → (S.faults script.new ≡ S.faults script.old)
        × (C.faults capture.new ≡ C.faults capture.old) × (O.faults out.new ≡ O.faults out.old) }

    // The other statuses have causes, but for want of memory.
    ensures broken { result ≡ 2 → ForNamed (map string_bytes args.now) (λ command.
        HasBrokenScript command (outside_of S.ScriptSource C.ByteSink script.old capture.old)) }
    ensures limit { result ≡ 3 → ForNamed (map string_bytes args.now) (λ command.
        HasLongScript command (outside_of S.ScriptSource C.ByteSink script.old capture.old)) }
    ensures read { result ≡ 4 → IsRisen (S.faults script.old) (S.faults script.new) }
    ensures capture { result ≡ 5 → IsRisen (C.faults capture.old) (C.faults capture.new) }
    ensures output { result ≡ 6 → IsRisen (O.faults out.old) (O.faults out.new) }

    // Without faults the words and the script decide on the status.
    ensures complete { IsTaken (map string_bytes args.now)
        → (IsRisen (S.faults script.old) (S.faults script.new) → ⊥)
        → (IsRisen (C.faults capture.old) (C.faults capture.new) → ⊥)
        → (IsRisen (O.faults out.old) (O.faults out.new) → ⊥)
        → ForNamed (map string_bytes args.now) (λ command.
        IsComplete command (outside_of S.ScriptSource C.ByteSink script.old capture.old) result) }

    // A script that is made stands in the place of the source, of which nothing is read.
    ensures unread { AskToMake (map string_bytes args.now) → script.new ≡ script.old }

    // Where a script or a capture is only read nothing is captured or reported.
    ensures uncaptured { AskToRead (map string_bytes args.now) → (capture.new ≡ capture.old) × (report.new ≡ []) }

    // Whatever the status: at most four frames of one query to one place of the list of name servers, and no query
    // with two lines.
    ensures queries { CountsQueries report.new }

    // Whatever the status: what the words ask for, how it ended, with what it left, and the text of that.
    ensures ended { (asked : Option Command) × (ending : Ending) × (text : List ℕ)
        × Ask (map string_bytes args.now) asked
        × HasEnded asked (outside_of S.ScriptSource C.ByteSink script.old capture.old)
        (outside_of S.ScriptSource C.ByteSink script.new capture.new) report.new ending text
        × Prints O.ByteSink text ending result out.old out.new }
{
    let asked = parse(args);
    let finish = obey(alloc, asked, script, capture, out, report);
    finish.ending.status_after(finish.answer)
}

/// Does what was asked for, and prints what came of it.
fn obey<S: ScriptSource, C: PcapSink, O: ByteSink>(
    alloc: Global,
    asked: Option<Asked>,
    script: &mut S,
    capture: &mut C,
    out: &mut O,
    report: &mut Report,
) -> Finish
    requires empty { report.old ≡ [] }
    requires command { IfSome (command_asked asked) IsCommand }
    ensures ended { Finishes O.ByteSink (command_asked asked) (outside_of S.ScriptSource C.ByteSink script.old capture.old)
        (outside_of S.ScriptSource C.ByteSink script.new capture.new) report.new result out.old out.new }
    ensures untouched { (command_asked asked ≡ None) ⊎ (command_asked asked ≡ Some Command.Help)
        → (script.new ≡ script.old) × (capture.new ≡ capture.old) × (report.new ≡ []) }
    ensures unread { (make : MakeCommand) → command_asked asked ≡ Some (Command.Make make) → script.new ≡ script.old }
    ensures uncaptured { (command : Command) → command_asked asked ≡ Some command → OnlyReads command
        → (capture.new ≡ capture.old) × (report.new ≡ []) }
{
    match asked {
        Some(Asked { command, is_live }) => {
            obey_command(alloc, command, is_live, script, capture, out, report)
        }
        None => refuse(out),
    }
}

/// Does a command, and prints what came of it.
fn obey_command<S: ScriptSource, C: PcapSink, O: ByteSink>(
    alloc: Global,
    command: Command,
    is_live: bool,
    script: &mut S,
    capture: &mut C,
    out: &mut O,
    report: &mut Report,
) -> Finish
    requires empty { report.old ≡ [] }
    requires command { IsCommand command }
    ensures ended { Finishes O.ByteSink (Some command) (outside_of S.ScriptSource C.ByteSink script.old capture.old)
        (outside_of S.ScriptSource C.ByteSink script.new capture.new) report.new result out.old out.new }
    ensures untouched { command ≡ Command.Help
        → (script.new ≡ script.old) × (capture.new ≡ capture.old) × (report.new ≡ []) }
    ensures unread { (make : MakeCommand) → command ≡ Command.Make make → script.new ≡ script.old }
    ensures uncaptured { OnlyReads command → (capture.new ≡ capture.old) × (report.new ≡ []) }
{
    match command {
        Command::Run(run) => obey_run(alloc, &run, is_live, script, capture, out, report),
        Command::Make(make) => obey_make(alloc, &make, capture, out, report),
        Command::Explain(explain) => obey_explain(alloc, &explain, script, out),
        Command::Print(print) => obey_print(alloc, &print, script, out),
        Command::Help => obey_help(out),
        Command::Disturb(disturb) => {
            obey_disturb(alloc, &disturb, is_live, script, capture, out, report)
        }
        Command::Serve(serve) => obey_serve(alloc, &serve, is_live, script, capture, out),
        Command::Show(show) => show_script(alloc, &show, script, out),
        Command::Frames(frames) => show_frames(alloc, &frames, script, out),
    }
}

/// Runs the host on the script, and prints the report.
fn obey_run<S: ScriptSource, C: PcapSink, O: ByteSink>(
    alloc: Global,
    command: &RunCommand,
    is_live: bool,
    script: &mut S,
    capture: &mut C,
    out: &mut O,
    report: &mut Report,
) -> Finish
    requires empty { report.old ≡ [] }
    requires runnable { IsRunnable command.now }
    ensures ran { RanTo command.now (outside_of S.ScriptSource C.ByteSink script.old capture.old)
        (outside_of S.ScriptSource C.ByteSink script.new capture.new) report.new result.ending }
    ensures took { Took O.bytes O.faults O.grows result.answer
        (report_bytes report.new ++ last_line result.ending) out.old out.new }
{
    if is_live {
        let mut printer = RowPrinter::new(out);
        let ending = run_named(alloc, command, script, capture, report, &mut printer);
        let answer = printer.answer;
        end_rows(report.rows(), ending, answer, out)
    } else {
        let ending = run_named(alloc, command, script, capture, report, &mut Silent);
        let answer = print_run(report, ending, out);
        Finish { ending, answer }
    }
}

/// Runs the host on a script that is made, and prints the summary of the report.
fn obey_make<C: PcapSink, O: ByteSink>(
    alloc: Global,
    command: &MakeCommand,
    capture: &mut C,
    out: &mut O,
    report: &mut Report,
) -> Finish
    requires empty { report.old ≡ [] }
    requires runnable { IsRunnable (run_of_make command.now) }
    ensures made { MadeTo command.now (sink_alone C.ByteSink capture.old)
        (sink_alone C.ByteSink capture.new) report.new result.ending }
    ensures took { Took O.bytes O.faults O.grows result.answer (summed_up report.new result.ending) out.old out.new }
{
    let ending = run_made(alloc, command, capture, report);
    let answer = print_made(report, ending, out);
    Finish { ending, answer }
}

/// Runs the host over a bad link, and prints the report.
fn obey_disturb<S: ScriptSource, C: PcapSink, O: ByteSink>(
    alloc: Global,
    command: &DisturbCommand,
    is_live: bool,
    script: &mut S,
    capture: &mut C,
    out: &mut O,
    report: &mut Report,
) -> Finish
    requires empty { report.old ≡ [] }
    requires runnable { IsDisturbable command.now }
    ensures ran { DisturbedTo command.now (outside_of S.ScriptSource C.ByteSink script.old capture.old)
        (outside_of S.ScriptSource C.ByteSink script.new capture.new) report.new result.ending }
    ensures took { Took O.bytes O.faults O.grows result.answer
        (report_bytes report.new ++ last_line result.ending) out.old out.new }
{
    if is_live {
        let mut printer = RowPrinter::new(out);
        let ending = run_over_bad_link(alloc, command, script, capture, report, &mut printer);
        let answer = printer.answer;
        end_rows(report.rows(), ending, answer, out)
    } else {
        let ending = run_over_bad_link(alloc, command, script, capture, report, &mut Silent);
        let answer = print_run(report, ending, out);
        Finish { ending, answer }
    }
}

/// Explains a capture, and prints the rows.
fn obey_explain<S: ScriptSource, O: ByteSink>(
    alloc: Global,
    command: &CaptureCommand,
    script: &mut S,
    out: &mut O,
) -> Finish
    requires readable { IsReadable command.now }
    ensures explained { (rows : List ExplainRow)
        × ExplainsAs command.now.max_frames (S.left script.old) (S.left script.new) (S.faults script.old)
        (S.faults script.new) rows result.ending
        × Took O.bytes O.faults O.grows result.answer (explanation_bytes rows ++ last_line result.ending) out.old out.new }
{
    let mut explanation = Explanation::new(alloc);
    let ending = explain_named(alloc, command, script, &mut explanation);
    let answer = print_explanation(&explanation, ending, out);
    Finish { ending, answer }
}

/// Prints a capture.
fn obey_print<S: ScriptSource, O: ByteSink>(
    alloc: Global,
    command: &CaptureCommand,
    script: &mut S,
    out: &mut O,
) -> Finish
    requires readable { IsReadable command.now }
    ensures printed { (lines : List ℕ)
        × PrintsAs command.now.max_frames (S.left script.old) (S.left script.new) (S.faults script.old)
        (S.faults script.new) lines result.ending
        × Took O.bytes O.faults O.grows result.answer (lines ++ last_line result.ending) out.old out.new }
{
    let mut answer = Ok(());
    let ending = print_named(alloc, command, script, out, &mut answer);
    put_last_line(out, &mut answer, ending);
    flush(out, &mut answer);
    Finish { ending, answer }
}

/// Serves leases on the script, and prints what the server did.
fn obey_serve<S: ScriptSource, C: PcapSink, O: ByteSink>(
    alloc: Global,
    command: &ServeCommand,
    is_live: bool,
    script: &mut S,
    capture: &mut C,
    out: &mut O,
) -> Finish
    requires servable { IsServable command.now }
    ensures served { (rows : List ServeRow)
        × ServesAs command.now (outside_of S.ScriptSource C.ByteSink script.old capture.old)
        (outside_of S.ScriptSource C.ByteSink script.new capture.new) rows result.ending
        × Took O.bytes O.faults O.grows result.answer (serve_bytes rows ++ last_line result.ending) out.old out.new }
{
    let mut report = ServeReport::new(alloc);
    if is_live {
        let mut printer = RowPrinter::new(out);
        let ending = serve_named(alloc, command, script, capture, &mut report, &mut printer);
        let answer = printer.answer;
        end_rows(report.rows(), ending, answer, out)
    } else {
        let ending = serve_named(alloc, command, script, capture, &mut report, &mut Silent);
        let answer = print_served(&report, ending, out);
        Finish { ending, answer }
    }
}

/// Prints how the program is used.
fn obey_help<O: ByteSink>(out: &mut O) -> Finish
    ensures ending { result.ending ≡ Ending.Done }
    ensures took { Took O.bytes O.faults O.grows result.answer help_text out.old out.new }
{
    Finish {
        ending: Ending::Done,
        answer: print_help(out),
    }
}

/// Says of words that name no command how the program is used.
fn refuse<O: ByteSink>(out: &mut O) -> Finish
    ensures ending { result.ending ≡ Ending.Refused }
    ensures took { Took O.bytes O.faults O.grows result.answer (last_line Ending.Refused) out.old out.new }
{
    Finish {
        ending: Ending::Refused,
        answer: print_line(Ending::Refused, out),
    }
}

/// Ends a report whose rows were printed as they came.
fn end_rows<R, O: ByteSink>(
    rows: &[R],
    ending: Ending,
    printed: Result<(), SinkError>,
    out: &mut O,
) -> Finish
    ensures ending { result.ending ≡ ending }
    ensures few { length rows.now < 2 ^ 64 }
    ensures puts { Puts O.bytes O.faults O.grows printed result.answer (last_line ending) out.old out.new }
{
    let _rows = rows.len();
    let mut answer = printed;
    put_last_line(out, &mut answer, ending);
    flush(out, &mut answer);
    Finish { ending, answer }
}

fn print_run<O: ByteSink>(report: &Report, ending: Ending, out: &mut O) -> Result<(), SinkError>
    ensures { Took O.bytes O.faults O.grows result (report_bytes report.now ++ last_line ending) out.old out.new }
{
    let mut answer = report_text(report, out);
    put_last_line(out, &mut answer, ending);
    flush(out, &mut answer);
    answer
}

fn print_served<O: ByteSink>(
    report: &ServeReport,
    ending: Ending,
    out: &mut O,
) -> Result<(), SinkError>
    ensures { Took O.bytes O.faults O.grows result (serve_bytes report.now ++ last_line ending) out.old out.new }
{
    let mut answer = serve_text(report, out);
    put_last_line(out, &mut answer, ending);
    flush(out, &mut answer);
    answer
}

fn print_explanation<O: ByteSink>(
    explanation: &Explanation,
    ending: Ending,
    out: &mut O,
) -> Result<(), SinkError>
    ensures { Took O.bytes O.faults O.grows result (explanation_bytes explanation.now ++ last_line ending) out.old out.new }
{
    let mut answer = explain_text(explanation, out);
    put_last_line(out, &mut answer, ending);
    flush(out, &mut answer);
    answer
}

fn print_made<O: ByteSink>(report: &Report, ending: Ending, out: &mut O) -> Result<(), SinkError>
    ensures { Took O.bytes O.faults O.grows result (summed_up report.now ending) out.old out.new }
{
    match ending {
        Ending::Done => print_summary(report, out),
        _ => print_line(ending, out),
    }
}

fn print_summary<O: ByteSink>(report: &Report, out: &mut O) -> Result<(), SinkError>
    ensures { Took O.bytes O.faults O.grows result (summary_text report.now) out.old out.new }
{
    let mut answer = Ok(());
    put_summary(out, &mut answer, report);
    flush(out, &mut answer);
    answer
}

fn print_line<O: ByteSink>(ending: Ending, out: &mut O) -> Result<(), SinkError>
    ensures { Took O.bytes O.faults O.grows result (last_line ending) out.old out.new }
{
    let mut answer = Ok(());
    put_last_line(out, &mut answer, ending);
    flush(out, &mut answer);
    answer
}

fn print_help<O: ByteSink>(out: &mut O) -> Result<(), SinkError>
    ensures { Took O.bytes O.faults O.grows result help_text out.old out.new }
{
    let mut answer = Ok(());
    put_help(out, &mut answer);
    flush(out, &mut answer);
    answer
}
