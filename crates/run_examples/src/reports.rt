//! The text of reports, statuses and last lines, as calls without a body.
ghost use Rattle.run_examples.specs.ReportLines.{EndingsByExample, NotesByExample, ReportByExample};

/// A row of each kind, with each kind of sent frame and of query line.
pub fn reports_by_example()
    ensures { ReportByExample }
{}

/// The words of what a frame is.
pub fn notes_by_example()
    ensures { NotesByExample }
{}

/// The status and the last line of each ending.
pub fn endings_by_example()
    ensures { EndingsByExample }
{}
