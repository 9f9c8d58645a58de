//! Rows that are printed as they come.
ghost use Rattle.std.specs.Prelude.{◌≡◌, Ok};

use crate::report_text::put_row;
use crate::serve_text::put_served;
use crate::text::flush;
use net_host::{Row, Watcher};
use phy_layers::{ByteSink, SinkError};
use server_run::{ServeRow, ServeWatcher};

/// Prints each row as soon as it is told of it, and has the output hand it on. After a refusal nothing more is
/// printed.
#[derive(Drop)]
pub(crate) struct RowPrinter<'a, O> {
    pub(crate) out: &'a mut O,
    /// What the output answered so far.
    pub(crate) answer: Result<(), SinkError>,
    /// That of the next row.
    pub(crate) number: u64,
}

impl<'a, O> RowPrinter<'a, O> {
    /// No row is printed yet.
    pub(crate) fn new(out: &'a mut O) -> RowPrinter<'a, O>
        ensures same { result.out.ghost_name ≡ out.entry.ghost_name }
        ensures out { result.out.now ≡ out.old }
        ensures answer { result.answer ≡ Ok tt }
        ensures number { result.number ≡ 0 }
    {
        RowPrinter {
            out,
            answer: Ok(()),
            number: 0,
        }
    }
}

impl<O: ByteSink> Watcher for RowPrinter<'_, O> {
    ghost use Rattle.host_top.specs.Printed.{PrintsRows, prints_no_row};
    ghost use Rattle.host_top.specs.ReportText.{row_text};

    ghost sees = { λ first rows last. PrintsRows O.ByteSink row_text first rows last };

    fn see(&mut self, row: &Row) {
        put_row(self.out, &mut self.answer, self.number, row);
        flush(self.out, &mut self.answer);
        self.number = self.number.saturating_add(1);
    }

    ghost starts = { λ watcher. prints_no_row O.ByteSink row_text watcher };
}

impl<O: ByteSink> ServeWatcher for RowPrinter<'_, O> {
    ghost use Rattle.host_top.specs.Printed.{PrintsRows, prints_no_row};
    ghost use Rattle.host_top.specs.ServeText.{served_text};

    ghost sees = { λ first rows last. PrintsRows O.ByteSink served_text first rows last };

    fn see(&mut self, row: &ServeRow) {
        put_served(self.out, &mut self.answer, self.number, row);
        flush(self.out, &mut self.answer);
        self.number = self.number.saturating_add(1);
    }

    ghost starts = { λ watcher. prints_no_row O.ByteSink served_text watcher };
}
