//! The lines of queries in a report.
ghost use Rattle.std.specs.Prelude.{◌≡◌, map};
ghost use Rattle.std.specs.List.{flat_map, join_with_byte};
ghost use Rattle.capture_explain.specs.Text.{Puts};
ghost use Rattle.host_top.specs.AddressText.{ip_text};
ghost use Rattle.host_top.specs.QueryText.{query_line, outcome_text, refusal_text};

use crate::address_text::put_ip;
use capture_explain::text::{put, put_number};
use dns_client::StartQueryError;
use net_host::{Outcome, QueryLine};
use net_wire::IpAddress;
use phy_layers::{ByteSink, SinkError};

/// Writes a line for each query that was refused or that ended.
pub fn put_lines<O: ByteSink>(out: &mut O, answer: &mut Result<(), SinkError>, lines: &[QueryLine])
    ensures { Puts O.bytes O.faults O.grows answer.old answer.new (flat_map query_line lines.now) out.old out.new }
{
    for line in lines {
        put_line(out, answer, line);
    }
}

/// Writes what became of a query.
pub fn put_line<O: ByteSink>(out: &mut O, answer: &mut Result<(), SinkError>, line: &QueryLine)
    ensures { Puts O.bytes O.faults O.grows answer.old answer.new (query_line line.now) out.old out.new }
{
    put(out, answer, b"  query ");
    put_number(out, answer, u64::from(line.query));
    put(out, answer, b" ");
    put_outcome(out, answer, &line.outcome);
    put(out, answer, b"\n");
}

fn put_outcome<O: ByteSink>(out: &mut O, answer: &mut Result<(), SinkError>, outcome: &Outcome)
    ensures { Puts O.bytes O.faults O.grows answer.old answer.new (outcome_text outcome.now) out.old out.new }
{
    match outcome {
        Outcome::Refused(fault) => {
            put(out, answer, b"refused ");
            put(out, answer, refusal_word(*fault));
        }
        Outcome::Answered(addresses) => {
            put(out, answer, b"answered ");
            put_addresses(out, answer, addresses.as_slice());
        }
        Outcome::Failed => put(out, answer, b"failed"),
    }
}

fn refusal_word(fault: StartQueryError) -> &'static [u8]
    ensures { result.now ≡ refusal_text fault }
{
    match fault {
        StartQueryError::NoFreeSlot => b"no-free-slot",
        StartQueryError::InvalidName => b"invalid-name",
        StartQueryError::NameTooLong => b"name-too-long",
        StartQueryError::NoMemory => b"no-memory",
    }
}

/// Writes addresses with commas between them.
fn put_addresses<O: ByteSink>(
    out: &mut O,
    answer: &mut Result<(), SinkError>,
    addresses: &[IpAddress],
)
    ensures { Puts O.bytes O.faults O.grows answer.old answer.new (join_with_byte 44 (map ip_text addresses.now))
        out.old out.new }
{
    let mut between: &[u8] = b"";
    for address in addresses {
        put(out, answer, between);
        put_ip(out, answer, *address);
        between = b",";
    }
}
