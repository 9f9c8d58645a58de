//! What a run of a server did, a row an event.
ghost use Rattle.std.specs.Prelude.{◌≡◌, [], ◌∷◌, ◌++◌, List};
ghost use Rattle.server_run.specs.declared.report.ServeRow.{ServeRow};

use lease_server::Reply;
use net_wire::{Instant, NoMemory};
use phy_layers::FrameBytes;
use std::alloc::Global;
use std::marker::Model;

/// How an event was answered.
#[derive(Clone, Copy, Debug, PartialEq, Eq)]
pub enum Answered {
    /// As a message of a DHCP client.
    Dhcp(Reply),
    /// As an ARP request for the server's address, with an ARP reply.
    Arp,
    /// With nothing.
    Nothing,
}

/// What an event brought about.
#[derive(Clone, Debug, Drop, PartialEq, Eq)]
pub struct ServeRow {
    /// The time of the event.
    pub at: Instant,
    /// The frame that arrived; `None` where none did.
    pub arrived: Option<FrameBytes>,
    pub answered: Answered,
    /// The frame that was sent; `None` where none was.
    pub sent: Option<FrameBytes>,
}

/// The rows of the events so far, in their order.
#[derive(Clone, Debug, Drop)]
pub struct ServeReport {
    rows: Vec<ServeRow>,
}

impl Model for ServeReport {
    ghost use Rattle.std.specs.Prelude.{List};
    ghost use Rattle.server_run.specs.declared.report.ServeRow.{ServeRow};

    ghost Value = { List ServeRow };

    ghost view = { λ report. report.rows.items };
}

impl PartialEq for ServeReport {
    ghost use Rattle.std.specs.Cmp.Lexicographic.{pointwise, lists_per};
    ghost use Rattle.server_run.specs.contracts.report.ServeRowPartialEq.TheImpl.Laws.{laws-law};

    ghost eq = { pointwise ⟦<ServeRow as PartialEq>⟧.eq };

    ghost laws = { lists_per laws-law };

    fn eq(&self, other: &ServeReport) -> bool {
        self.rows == other.rows
    }
}

impl Eq for ServeReport {
    ghost use Rattle.std.specs.Cmp.Lexicographic.{lists_equiv};
    ghost use Rattle.server_run.specs.contracts.report.ServeRowEq.TheImpl.Laws.{laws-law};

    ghost laws = { lists_equiv laws-law };
}

impl ServeReport {
    ghost use Rattle.std.specs.Prelude.{OnOk, OnErr};
    ghost use Rattle.server_run.specs.Rows.{new_row};

    /// The rows take memory from `alloc`.
    pub fn new(alloc: Global) -> ServeReport
        ensures { result ≡ [] }
    {
        ServeReport {
            rows: Vec::new(alloc),
        }
    }

    /// The row of the first event stands first.
    pub fn rows(&self) -> &[ServeRow]
        ensures { result.now ≡ self.now }
    {
        self.rows.as_slice()
    }

    /// Places the row of the next event, to which nothing was answered yet.
    pub(crate) fn begin(&mut self, at: Instant, arrived: Option<FrameBytes>) -> Result<(), NoMemory>
        ensures ok { OnOk result (self.new ≡ self.old ++ new_row at arrived ∷ []) }
        ensures err { OnErr result (self.new ≡ self.old) }
    {
        let row = ServeRow {
            at,
            arrived,
            answered: Answered::Nothing,
            sent: None,
        };
        match self.rows.push(row) {
            Ok(()) => Ok(()),
            Err(_) => Err(NoMemory),
        }
    }

    /// Fills the last row in, where there is one.
    pub(crate) fn fill_last(&mut self, answered: Answered, sent: Option<FrameBytes>)
        ensures { (rows : List ServeRow) (row : ServeRow) → self.old ≡ rows ++ row ∷ []
            → self.new ≡ rows ++ record row { answered = answered; sent = sent } ∷ [] }
    {
        fill_last(self.rows.as_mut_slice(), answered, sent);
    }
}

fn fill_last(rows: &mut [ServeRow], answered: Answered, sent: Option<FrameBytes>)
    ensures { (before : List ServeRow) (row : ServeRow) → rows.old ≡ before ++ row ∷ []
        → rows.new ≡ before ++ record row { answered = answered; sent = sent } ∷ [] }
{
    let count = rows.len();
    if count > 0 {
        let row = &mut rows[count - 1];
        row.answered = answered;
        row.sent = sent;
    }
}
