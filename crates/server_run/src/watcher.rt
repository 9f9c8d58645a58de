//! Who is told of the rows of a run as they come.
ghost use Rattle.std.specs.Prelude.{◌≡◌, List, [], ◌∷◌, ◌++◌, length};
ghost use Rattle.server_run.specs.declared.report.ServeRow.{ServeRow};
ghost use Rattle.server_run.specs.Rows.{AddsAtMostOne};

use crate::{ServeReport, ServeRow};
use net_host::Silent;

/// Is told of each row of a run as soon as its event is served.
pub trait ServeWatcher {
    /// What was seen: a watcher that began so was told of these rows, and is this one now.
    ghost sees: { Self → List ServeRow → Self → Type 0 };

    /// Is told of one row more.
    fn see(&mut self, row: &ServeRow)
        ensures { (first : Self) (rows : List ServeRow) → sees first rows self.old
            → sees first (rows ++ row.now ∷ []) self.new };

    /// Nothing was seen at first.
    ghost starts: { (watcher : Self) → sees watcher [] watcher };
}

impl ServeWatcher for Silent {
    ghost use Rattle.std.specs.Prelude.{⊤};

    ghost sees = { λ _ _ _. ⊤ };

    fn see(&mut self, _row: &ServeRow) {}

    ghost starts = { λ _. tt };
}

/// Tells of the row that came behind so many, where one did.
pub(crate) fn tell<W: ServeWatcher>(watcher: &mut W, report: &ServeReport, before: usize)
    ensures { (first : W) (rows : List ServeRow) → length rows ≡ before → AddsAtMostOne rows report.now
        → W.sees first rows watcher.old → W.sees first report.now watcher.new }
{
    let rows = report.rows();
    if before < rows.len() {
        watcher.see(&rows[before]);
    }
}
