//! Who is told of the rows of a run as they come.
ghost use Rattle.std.specs.Prelude.{◌≡◌, List, [], ◌∷◌, ◌++◌, length};
ghost use Rattle.net_host.specs.declared.report.Row.{Row};
ghost use Rattle.net_host.specs.Report.{AddsAtMostOne};

use crate::{Report, Row};

/// Is told of each row of a run as soon as its event is taken in.
pub trait Watcher {
    /// What was seen: a watcher that began so was told of these rows, and is this one now.
    ghost sees: { Self → List Row → Self → Type 0 };

    /// Is told of one row more.
    fn see(&mut self, row: &Row)
        ensures { (first : Self) (rows : List Row) → sees first rows self.old → sees first (rows ++ row.now ∷ []) self.new };

    /// Nothing was seen at first.
    ghost starts: { (watcher : Self) → sees watcher [] watcher };
}

/// Is told of the rows and does nothing.
#[derive(Clone, Copy, Debug)]
pub struct Silent;

impl Watcher for Silent {
    ghost use Rattle.std.specs.Prelude.{⊤};

    ghost sees = { λ _ _ _. ⊤ };

    fn see(&mut self, _row: &Row) {}

    ghost starts = { λ _. tt };
}

/// Tells of the row that came behind so many, where one did.
pub(crate) fn tell<W: Watcher>(watcher: &mut W, report: &Report, before: usize)
    ensures { (first : W) (rows : List Row) → length rows ≡ before → AddsAtMostOne rows report.now
        → W.sees first rows watcher.old → W.sees first report.now watcher.new }
{
    let rows = report.rows();
    if before < rows.len() {
        watcher.see(&rows[before]);
    }
}
