//! The summary of a report.
ghost use Rattle.std.specs.Prelude.{◌≡◌, ◌≤◌, length};
ghost use Rattle.host_top.specs.Summary.{count_of, is_arrived, is_for, is_end, sent_for, ended_as, last_lease, summary_text};
ghost use Rattle.capture_explain.specs.Text.{Puts};

use crate::report_text::put_lease;
use crate::text::put_large_number;
use capture_explain::text::{put, put_number};
use net_host::{Kind, Mark, Outcome, QueryLine, Report, Row, Sent};
use net_wire::Ipv4Cidr;
use phy_layers::{ByteSink, SinkError};

/// What frames are sent for.
#[derive(Clone, Copy, Debug, PartialEq, Eq)]
pub enum Purpose {
    Dhcp,
    Dns,
    /// ARP replies and requests.
    Arp,
}

/// How queries end.
#[derive(Clone, Copy, Debug, PartialEq, Eq)]
pub enum End {
    Answered,
    Failed,
}

/// Writes the summary of a report, in one line.
pub fn put_summary<O: ByteSink>(out: &mut O, answer: &mut Result<(), SinkError>, report: &Report)
    ensures { Puts O.bytes O.faults O.grows answer.old answer.new (summary_text report.now) out.old out.new }
{
    let rows = report.rows();
    put(out, answer, b"events ");
    put_number(out, answer, rows.len() as u64);
    put(out, answer, b" arrived ");
    put_number(out, answer, arrived_in(rows) as u64);
    put(out, answer, b" dhcp ");
    put_large_number(out, answer, sent_in(rows, Purpose::Dhcp));
    put(out, answer, b" dns ");
    put_large_number(out, answer, sent_in(rows, Purpose::Dns));
    put(out, answer, b" arp ");
    put_large_number(out, answer, sent_in(rows, Purpose::Arp));
    put(out, answer, b" answered ");
    put_large_number(out, answer, ended_in(rows, End::Answered));
    put(out, answer, b" failed ");
    put_large_number(out, answer, ended_in(rows, End::Failed));
    put(out, answer, b" last ");
    put_lease(out, answer, last_lease(rows));
    put(out, answer, b"\n");
}

/// In how many events a frame arrived.
fn arrived_in(rows: &[Row]) -> usize
    ensures { result ≡ count_of (λ row. is_arrived row.kind) rows.now }
{
    let mut count = 0;
    for row in rows {
        if is_arrived(row.kind) {
            count += 1;
        }
    }
    count
}

fn is_arrived(kind: Kind) -> bool
    ensures { result ≡ is_arrived kind }
{
    match kind {
        Kind::Frame { .. } => true,
        Kind::Tick | Kind::Reset | Kind::Query => false,
    }
}

/// How many frames were sent for a purpose.
fn sent_in(rows: &[Row], purpose: Purpose) -> u128
    ensures { result ≡ sent_for purpose rows.now }
{
    let mut count = 0;
    for row in rows {
        count += sent_for(row.sent.as_slice(), purpose) as u128;
    }
    count
}

fn sent_for(sent: &[Sent], purpose: Purpose) -> usize
    ensures { result ≡ count_of (λ sent. is_for purpose sent.mark) sent.now }
{
    sent.iter().filter(|one| is_for(purpose, one.mark)).count()
}

fn is_for(purpose: Purpose, mark: Mark) -> bool
    ensures { result ≡ is_for purpose mark }
{
    match mark {
        Mark::Dhcp => purpose == Purpose::Dhcp,
        Mark::Dns { .. } => purpose == Purpose::Dns,
        Mark::ArpReply | Mark::ArpRequest => purpose == Purpose::Arp,
    }
}

/// How many queries ended so.
fn ended_in(rows: &[Row], end: End) -> u128
    ensures { result ≡ ended_as end rows.now }
{
    let mut count = 0;
    for row in rows {
        count += ended_as(row.lines.as_slice(), end) as u128;
    }
    count
}

fn ended_as(lines: &[QueryLine], end: End) -> usize
    ensures { result ≡ count_of (λ line. is_end end line.outcome) lines.now }
{
    lines
        .iter()
        .filter(|line| is_end(end, &line.outcome))
        .count()
}

fn is_end(end: End, outcome: &Outcome) -> bool
    ensures { result ≡ is_end end outcome.now }
{
    match outcome {
        Outcome::Answered(_) => end == End::Answered,
        Outcome::Failed => end == End::Failed,
        Outcome::Refused(_) => false,
    }
}

/// What is leased in the last event.
fn last_lease(rows: &[Row]) -> Option<Ipv4Cidr>
    ensures { result ≡ last_lease rows.now }
{
    rows.last()?.lease
}
