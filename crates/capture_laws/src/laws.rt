//! Theorems on the captures of runs, each a function that does nothing and whose clause is the theorem.
ghost use Rattle.capture_laws.specs.Laws.{AnsweredEventsLeaveFiles, FinishedRunsLeaveFiles, StoppedRunsLeaveFiles, ExplanationsTellReports};

/// Where events are answered, be they read or made by a link, the capture is a file of their frames.
#[tactic(auto, using(crate::proofs::RunLemmas::answered_files))]
pub fn answered_events_leave_files()
    ensures { AnsweredEventsLeaveFiles }
{}

/// The capture of a run that ended well is a file of the frames that arrived and that its rows list.
pub fn finished_runs_leave_files()
    ensures { FinishedRunsLeaveFiles }
{}

/// So is that of a run that stopped between two events; of one that stopped inside an event it is a front of that.
#[tactic(auto, using(crate::proofs::RunLemmas::stopped_files))]
pub fn stopped_runs_leave_files()
    ensures { StoppedRunsLeaveFiles }
{}

/// Rows of the explanation of such a file have the times and lengths of the report's frames.
#[tactic(auto, using(crate::proofs::StampLemmas::told))]
pub fn explanations_tell_reports()
    ensures { ExplanationsTellReports }
{}
