//! What a run did, a row an event.
ghost use Rattle.std.specs.Prelude.{◌≡◌, ◌≤◌, [], ◌∷◌, ◌++◌, List, length, OnOk, OnErr};
ghost use Rattle.net_host.specs.Lines.{place_for};
ghost use Rattle.net_host.specs.declared.report.Row.{Row};
ghost use Rattle.net_host.specs.Report.{new_row};

use ether_lax::FrameNote;
use host_model::QueryLine;
use net_wire::{Instant, Ipv4Cidr, NoMemory};
use phy_layers::FrameBytes;
use std::alloc::Global;
use std::marker::Model;

/// What an event was.
#[derive(Clone, Copy, Debug, PartialEq, Eq)]
pub enum Kind {
    /// A frame of so many bytes arrived.
    Frame { length: u16 },
    /// Time passed.
    Tick,
    /// The DHCP client began anew.
    Reset,
    /// The addresses of a name were asked for.
    Query,
}

/// What a sent frame is for.
#[derive(Clone, Copy, Debug, PartialEq, Eq)]
pub enum Mark {
    /// It carries a message of the DHCP client.
    Dhcp,
    /// It carries a message of a query, to a place in the list of name servers.
    Dns { query: u32, place: u32 },
    /// It tells a station that asked for the leased address where that is.
    ArpReply,
    /// It asks all stations for the next hop of a datagram.
    ArpRequest,
}

/// A frame that was sent.
#[derive(Clone, Debug, Drop, PartialEq, Eq)]
pub struct Sent {
    pub mark: Mark,
    pub frame: FrameBytes,
}

/// Frames in the order in which they were sent.
#[derive(Clone, Debug, Drop)]
pub struct SentList {
    sent: Vec<Sent>,
}

impl Model for SentList {
    ghost use Rattle.std.specs.Prelude.{List};
    ghost use Rattle.net_host.specs.declared.report.Sent.{Sent};

    ghost Value = { List Sent };

    ghost view = { λ list. list.sent.items };
}

impl SentList {
    ghost use Rattle.std.specs.Prelude.{◌≡◌, [], ◌∷◌, ◌++◌, OnOk, OnErr};

    /// What is listed takes memory from `alloc`.
    pub fn new(alloc: Global) -> SentList
        ensures { result ≡ [] }
    {
        SentList {
            sent: Vec::new(alloc),
        }
    }

    /// The frame that was sent first stands first.
    pub fn as_slice(&self) -> &[Sent]
        ensures { result.now ≡ self.now }
    {
        self.sent.as_slice()
    }

    /// Lists a frame behind the others.
    pub(crate) fn push(&mut self, sent: Sent) -> Result<(), NoMemory>
        ensures ok { OnOk result (self.new ≡ self.old ++ sent ∷ []) }
        ensures err { OnErr result (self.new ≡ self.old) }
    {
        match self.sent.push(sent) {
            Ok(()) => Ok(()),
            Err(_) => Err(NoMemory),
        }
    }
}

impl PartialEq for SentList {
    ghost use Rattle.std.specs.Cmp.Lexicographic.{pointwise, lists_per};
    ghost use Rattle.net_host.specs.contracts.report.SentPartialEq.TheImpl.Laws.{laws-law};

    ghost eq = { pointwise ⟦<Sent as PartialEq>⟧.eq };

    ghost laws = { lists_per laws-law };

    fn eq(&self, other: &SentList) -> bool {
        self.sent == other.sent
    }
}

impl Eq for SentList {
    ghost use Rattle.std.specs.Cmp.Lexicographic.{lists_equiv};
    ghost use Rattle.net_host.specs.contracts.report.SentEq.TheImpl.Laws.{laws-law};

    ghost laws = { lists_equiv laws-law };
}

/// Lines of queries: one that was refused first, then those that ended, by their numbers.
#[derive(Clone, Debug, Drop)]
pub struct LineList {
    lines: Vec<QueryLine>,
}

impl Model for LineList {
    ghost use Rattle.std.specs.Prelude.{List};
    ghost use Rattle.host_model.specs.declared.query_line.QueryLine.{QueryLine};

    ghost Value = { List QueryLine };

    ghost view = { λ list. list.lines.items };
}

impl LineList {
    ghost use Rattle.std.specs.Prelude.{◌≡◌, [], ◌∷◌, OnOk};
    ghost use Rattle.host_model.specs.QueryLines.{with_line};

    /// No line.
    pub fn new(alloc: Global) -> LineList
        ensures { result ≡ [] }
    {
        LineList {
            lines: Vec::new(alloc),
        }
    }

    /// The lines.
    pub fn as_slice(&self) -> &[QueryLine]
        ensures { result.now ≡ self.now }
    {
        self.lines.as_slice()
    }

    /// Puts a line in front of the first one whose query has a greater number.
    #[tactic(auto, using(crate::proofs::LineLemmas::with_line_at))]
    pub(crate) fn insert(&mut self, line: QueryLine) -> Result<(), NoMemory>
        ensures { OnOk result (self.new ≡ with_line line self.old) }
    {
        let at = place_for(line.query, self.lines.as_slice());
        match self.lines.insert(at, line) {
            Ok(()) => Ok(()),
            Err(_) => Err(NoMemory),
        }
    }

    /// Puts a line in front of all others.
    pub(crate) fn put_first(&mut self, line: QueryLine) -> Result<(), NoMemory>
        ensures { OnOk result (self.new ≡ line ∷ self.old) }
    {
        match self.lines.insert(0, line) {
            Ok(()) => Ok(()),
            Err(_) => Err(NoMemory),
        }
    }
}

/// The place of the first line whose query has a greater number, or behind all of them.
fn place_for(query: u32, lines: &[QueryLine]) -> usize
    ensures value { result ≡ place_for query lines.now }
    ensures within { result ≤ length lines.now }
{
    for at in 0..lines.len() {
        if query < lines[at].query {
            return at;
        }
    }
    lines.len()
}

impl PartialEq for LineList {
    ghost use Rattle.std.specs.Cmp.Lexicographic.{pointwise, lists_per};
    ghost use Rattle.host_model.specs.contracts.query_line.QueryLinePartialEq.TheImpl.Laws.{laws-law};

    ghost eq = { pointwise ⟦<QueryLine as PartialEq>⟧.eq };

    ghost laws = { lists_per laws-law };

    fn eq(&self, other: &LineList) -> bool {
        self.lines == other.lines
    }
}

impl Eq for LineList {
    ghost use Rattle.std.specs.Cmp.Lexicographic.{lists_equiv};
    ghost use Rattle.host_model.specs.contracts.query_line.QueryLineEq.TheImpl.Laws.{laws-law};

    ghost laws = { lists_equiv laws-law };
}

/// What an event brought about.
#[derive(Clone, Debug, Drop, PartialEq, Eq)]
pub struct Row {
    /// The time of the event.
    pub at: Instant,
    pub kind: Kind,
    /// What the frame that arrived is, by the dissector; `None` where none arrived.
    pub note: Option<FrameNote>,
    /// The address that is leased after the event, and its network's prefix; `None` without a lease.
    pub lease: Option<Ipv4Cidr>,
    /// The frames that were sent.
    pub sent: SentList,
    /// What became of queries in the event.
    pub lines: LineList,
}

/// The rows of the events so far, in their order.
#[derive(Clone, Debug, Drop)]
pub struct Report {
    rows: Vec<Row>,
}

impl Model for Report {
    ghost use Rattle.std.specs.Prelude.{List};
    ghost use Rattle.net_host.specs.declared.report.Row.{Row};

    ghost Value = { List Row };

    ghost view = { λ report. report.rows.items };
}

impl PartialEq for Report {
    ghost use Rattle.std.specs.Cmp.Lexicographic.{pointwise, lists_per};
    ghost use Rattle.net_host.specs.contracts.report.RowPartialEq.TheImpl.Laws.{laws-law};

    ghost eq = { pointwise ⟦<Row as PartialEq>⟧.eq };

    ghost laws = { lists_per laws-law };

    fn eq(&self, other: &Report) -> bool {
        self.rows == other.rows
    }
}

impl Eq for Report {
    ghost use Rattle.std.specs.Cmp.Lexicographic.{lists_equiv};
    ghost use Rattle.net_host.specs.contracts.report.RowEq.TheImpl.Laws.{laws-law};

    ghost laws = { lists_equiv laws-law };
}

impl Report {
    /// The rows take memory from `alloc`.
    pub fn new(alloc: Global) -> Report
        ensures { result ≡ [] }
    {
        Report {
            rows: Vec::new(alloc),
        }
    }

    /// The row of the first event stands first.
    pub fn rows(&self) -> &[Row]
        ensures { result.now ≡ self.now }
    {
        self.rows.as_slice()
    }

    /// Places the row of the next event, in which nothing was sent yet and the lease is the one held before
    /// it.
    pub(crate) fn begin(
        &mut self,
        alloc: Global,
        at: Instant,
        kind: Kind,
        note: Option<FrameNote>,
        lease: Option<Ipv4Cidr>,
    ) -> Result<(), NoMemory>
        ensures ok { OnOk result (self.new ≡ self.old ++ new_row at kind note lease ∷ []) }
        ensures err { OnErr result (self.new ≡ self.old) }
    {
        let row = Row {
            at,
            kind,
            note,
            lease,
            sent: SentList::new(alloc),
            lines: LineList::new(alloc),
        };
        match self.rows.push(row) {
            Ok(()) => Ok(()),
            Err(_) => Err(NoMemory),
        }
    }

    /// Fills the last row in, where there is one.
    pub(crate) fn fill_last(&mut self, lease: Option<Ipv4Cidr>, sent: SentList, lines: LineList)
        ensures { (rows : List Row) (row : Row) → self.old ≡ rows ++ row ∷ []
            → self.new ≡ rows ++ record row { lease = lease; sent = sent; lines = lines } ∷ [] }
    {
        fill_last(self.rows.as_mut_slice(), lease, sent, lines);
    }
}

fn fill_last(rows: &mut [Row], lease: Option<Ipv4Cidr>, sent: SentList, lines: LineList)
    ensures { (before : List Row) (row : Row) → rows.old ≡ before ++ row ∷ []
        → rows.new ≡ before ++ record row { lease = lease; sent = sent; lines = lines } ∷ [] }
{
    let count = rows.len();
    if count > 0 {
        let row = &mut rows[count - 1];
        row.lease = lease;
        row.sent = sent;
        row.lines = lines;
    }
}
