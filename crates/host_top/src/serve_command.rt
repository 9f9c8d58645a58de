//! The command that serves leases.
ghost use Rattle.std.specs.Prelude.{◌≡◌, ℕ, [], map, string_bytes, IfSome, IfNone};
ghost use Rattle.lease_server.specs.Values.{values_of};
ghost use Rattle.net_host.specs.Outside.{outside_of};
ghost use Rattle.host_top.specs.Serve.{IsRangeWord, IsPrefixWord, SpellsServe, WritesServe, IsServable, ServesAs, ending_served, values_named};

use crate::command::count_of;
use crate::ending::Ending;
use crate::ipv4_word::ipv4_of;
use crate::word::{address_of, number_of, u32_of};
use arrayvec::ArrayVec;
use lease_server::{Server, ServerValues};
use net_wire::{EthernetAddress, Ipv4Address};
use phy_layers::PcapSink;
use script_source::ScriptSource;
use server_run::{ServeError, ServeReport, ServeWatcher, serve_over};
use std::alloc::Global;

/// Serve leases to the clients on the script of standard input.
#[derive(Clone, Copy, Debug, PartialEq, Eq)]
pub struct ServeCommand {
    /// The server's hardware address.
    pub hardware: EthernetAddress,
    /// The server's address.
    pub address: Ipv4Address,
    /// The lowest address of the range.
    pub first: Ipv4Address,
    /// How many addresses the range has.
    pub count: u16,
    /// The length of the subnet's prefix.
    pub prefix_len: u8,
    /// How long a lease is.
    pub lease_secs: u32,
    /// The most events that the script may have.
    pub max_events: u32,
}

/// What the words behind `serve` name.
pub(crate) fn serve_of(words: &[String]) -> Option<ServeCommand>
    ensures found { IfSome result (WritesServe (map string_bytes words.now)) }
    ensures refuses { IfNone result ((serve : ServeCommand) → WritesServe (map string_bytes words.now) serve → ⊥) }
{
    let serve = spelled(words)?;
    match Server::check(&values_of(&serve)) {
        Ok(()) => Some(serve),
        Err(_) => None,
    }
}

/// What the words say, whether or not a server refuses it.
fn spelled(words: &[String]) -> Option<ServeCommand>
    ensures found { IfSome result (SpellsServe (map string_bytes words.now)) }
    ensures refuses { IfNone result ((serve : ServeCommand) → SpellsServe (map string_bytes words.now) serve → ⊥) }
{
    let [hardware, address, first, count, prefix, lease, max_events] = words else {
        return None;
    };
    Some(ServeCommand {
        hardware: address_of(hardware.as_bytes())?,
        address: ipv4_of(address.as_bytes())?,
        first: ipv4_of(first.as_bytes())?,
        count: range_of(count.as_bytes())?,
        prefix_len: prefix_of(prefix.as_bytes())?,
        lease_secs: u32_of(lease.as_bytes())?,
        max_events: count_of(max_events.as_bytes())?,
    })
}

/// What the server is told.
pub(crate) fn values_of(serve: &ServeCommand) -> ServerValues
    ensures { values_of result ≡ values_named serve.now }
{
    ServerValues {
        hardware: serve.hardware,
        address: serve.address,
        prefix_len: serve.prefix_len,
        first: serve.first,
        count: serve.count,
        lease_secs: serve.lease_secs,
        router: None,
        dns_servers: ArrayVec::new(),
    }
}

/// The number of addresses that a word writes.
fn range_of(word: &[u8]) -> Option<u16>
    ensures found { IfSome result (IsRangeWord word.now) }
    ensures refuses { IfNone result ((count : ℕ) → IsRangeWord word.now count → ⊥) }
{
    let number = number_of(word, 10, 4)?;
    if number > 1000 {
        return None;
    }
    Some(number as u16)
}

/// The length of a prefix that a word writes.
fn prefix_of(word: &[u8]) -> Option<u8>
    ensures found { IfSome result (IsPrefixWord word.now) }
    ensures refuses { IfNone result ((prefix_len : ℕ) → IsPrefixWord word.now prefix_len → ⊥) }
{
    let number = number_of(word, 10, 2)?;
    if number > 30 {
        return None;
    }
    Some(number as u8)
}

/// Serves leases on the script, and tells a watcher of each row.
pub(crate) fn serve_named<S: ScriptSource, C: PcapSink, W: ServeWatcher>(
    alloc: Global,
    command: &ServeCommand,
    script: &mut S,
    capture: &mut C,
    report: &mut ServeReport,
    watcher: &mut W,
) -> Ending
    requires empty { report.old ≡ [] }
    requires servable { IsServable command.now }
    ensures served { ServesAs command.now
        (outside_of S.ScriptSource C.ByteSink script.old capture.old)
        (outside_of S.ScriptSource C.ByteSink script.new capture.new) report.new result }
    ensures seen { W.sees watcher.old report.new watcher.new }
{
    let values = values_of(command);
    let answer = serve_over(
        alloc,
        script,
        capture,
        &values,
        command.max_events,
        report,
        watcher,
    );
    ending_served(answer)
}

/// How a server ended that answered so.
fn ending_served(answer: Result<(), ServeError>) -> Ending
    ensures { result ≡ ending_served answer }
{
    match answer {
        Ok(()) => Ending::Done,
        Err(ServeError::Script(offset)) => Ending::Script(offset),
        Err(ServeError::Limit) => Ending::Limit,
        Err(ServeError::Read) => Ending::Read,
        Err(ServeError::Sink) => Ending::Capture,
        Err(ServeError::NoMemory) => Ending::NoMemory,
    }
}
