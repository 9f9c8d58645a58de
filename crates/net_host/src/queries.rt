//! What a host does with its DNS client. The contracts speak of the queries of a history, however they stand in the
//! client.
ghost use Rattle.std.specs.Prelude.{◌≡◌, ℕ, List, map, Option, IsSome, IfOk, OnOk};
ghost use Rattle.net_wire.specs.ArrivalValues.{datagram_value};
ghost use Rattle.net_wire.specs.declared.address.IpAddress.{IpAddress};
ghost use Rattle.dns_client.specs.Client.{client_of};
ghost use Rattle.host_model.specs.QueryAnswers.{after_datagram};
ghost use Rattle.host_model.specs.QueryLines.{lines_of};
ghost use Rattle.host_model.specs.QuerySlots.{Slot, freed};
ghost use Rattle.host_model.specs.QueryStart.{started};
ghost use Rattle.net_host.specs.QueryPolling.{PolledQueries, is_reached, AreLent};
ghost use Rattle.net_host.specs.QueryReady.{AreStanding};
ghost use Rattle.net_host.specs.QueryStanding.{StandAs, TakesEnded, standing_in};
ghost use Rattle.phy_layers.specs.PcapBytes.{IsCapturable};
ghost use Rattle.host_model.specs.Queries.{first_servers};
ghost use Rattle.net_host.specs.Report.{AreCapturable};

use crate::LineList;
use crate::emitter::Emitter;
use arrayvec::ArrayVec;
use dns_client::{GetQueryResultError, Socket, StartQueryError};
use host_model::{EventWords, Outcome, QueryLine};
use net_wire::dns::DnsType;
use net_wire::{Datagram, EmitError, Instant, IpAddress, Ipv4Address, NoMemory};

/// Lets a datagram answer queries, where it comes from a source that the client listens to.
pub(crate) fn hear_response(dns: &mut Socket<'_>, datagram: &Datagram<'_>)
    ensures stand { (servers : List IpAddress) (slots : List Slot) (numbers : List ℕ)
        → StandAs servers slots (client_of dns.old) numbers
        → StandAs servers (after_datagram servers (datagram_value datagram.now) slots)
        (client_of dns.new) numbers }
    ensures lent { AreLent (client_of dns.old) → AreLent (client_of dns.new) }
{
    let source = IpAddress::Ipv4(datagram.src_addr);
    if dns.accepts(source, datagram.src_port) {
        dns.process(
            source,
            datagram.src_port,
            datagram.dst_port,
            datagram.payload,
        );
    }
}

/// Starts the query of a number for a name in UTF-8, and answers why it is refused, if it is.
pub(crate) fn start(
    dns: &mut Socket<'_>,
    out: &mut Emitter<'_>,
    number: u32,
    name: &str,
    query_type: DnsType,
    words: EventWords,
) -> Option<StartQueryError>
    requires { AreLent (client_of dns.old) }
    ensures stand { (servers : List IpAddress) (slots : List Slot)
        → StandAs servers slots (client_of dns.old) out.old.numbers
        → StandAs servers (started number query_type name.now words slots).slots (client_of dns.new) out.new.numbers }
    ensures refused { (servers : List IpAddress) (slots : List Slot)
        → StandAs servers slots (client_of dns.old) out.old.numbers
        → result ≡ (started number query_type name.now words slots).refused }
    ensures out { out.new ≡ record out.old { numbers = out.new.numbers } }
    ensures lent { AreLent (client_of dns.new) }
{
    match dns.start_query(name, query_type, words.second, words.third) {
        Ok(handle) => {
            let slot = handle.slot();
            if slot < out.numbers.len() {
                out.numbers[slot] = number;
            }
            None
        }
        Err(error) => Some(error),
    }
}

/// Whether a due is not behind now.
fn is_reached(due: Option<Instant>, now: Instant) -> bool
    ensures { result ≡ is_reached due now }
{
    match due {
        Some(due) => due <= now,
        None => false,
    }
}

/// Sends what the queries have due; a message whose next hop is not known ends it.
pub(crate) fn poll_dns(
    dns: &mut Socket<'_>,
    now: Instant,
    out: &mut Emitter<'_>,
) -> Result<(), NoMemory>
    requires standing { AreStanding (client_of dns.old) }
    requires time { IsCapturable now }
    ensures value { OnOk result (PolledQueries now (client_of dns.old) out.old (client_of dns.new) out.new) }
    ensures lent { AreLent (client_of dns.old) → AreLent (client_of dns.new) }
    ensures small { OnOk result (AreCapturable out.old.sent → AreCapturable out.new.sent) }
{
    while is_reached(dns.poll_at(), now) {
        match dns.dispatch(now, out) {
            Ok(()) => {}
            Err(EmitError::Unresolved) => return Ok(()),
            Err(EmitError::NoMemory) => return Err(NoMemory),
        }
    }
    Ok(())
}

/// What became of the query in a slot, if it ended; its slot is freed then.
fn take_ended(dns: &mut Socket<'_>, slot: usize) -> Option<Outcome>
    ensures stand { (slots : List Slot) → (client_of dns.old).slots ≡ map standing_in slots
        → TakesEnded slots slot result (client_of dns.new).slots }
    ensures others { client_of dns.new ≡ record (client_of dns.old) { slots = (client_of dns.new).slots } }
{
    let handle = dns.handle_at(slot)?;
    match dns.get_query_result(handle) {
        Ok(addresses) => Some(Outcome::Answered(addresses)),
        Err(GetQueryResultError::Failed) => Some(Outcome::Failed),
        Err(GetQueryResultError::Pending) => None,
    }
}

/// Frees the slots of the queries that ended, and gives a line for each.
pub(crate) fn end_queries(dns: &mut Socket<'_>, out: &mut Emitter<'_>) -> Result<LineList, NoMemory>
    ensures stand { OnOk result ((servers : List IpAddress) (slots : List Slot)
        → StandAs servers slots (client_of dns.old) out.old.numbers
        → StandAs servers (map freed slots) (client_of dns.new) out.new.numbers) }
    ensures lines { IfOk result (λ lines. (servers : List IpAddress) (slots : List Slot)
        → StandAs servers slots (client_of dns.old) out.old.numbers → lines ≡ lines_of slots) }
    ensures out { out.new ≡ record out.old { numbers = out.new.numbers } }
    ensures lent { AreLent (client_of dns.old) → AreLent (client_of dns.new) }
{
    let mut lines = LineList::new(out.alloc);
    let mut slot = out.numbers.len();
    while slot > 0 {
        slot -= 1;
        if let Some(outcome) = take_ended(dns, slot) {
            let query = out.numbers[slot];
            out.numbers[slot] = 0;
            lines.insert(QueryLine { query, outcome })?;
        }
    }
    Ok(lines)
}

/// The first three of the name servers of a lease.
fn first_servers(addresses: &[Ipv4Address]) -> ArrayVec<IpAddress, 3>
    ensures { result.items ≡ first_servers addresses.now }
{
    let mut servers = ArrayVec::new();
    for address in &addresses[..addresses.len().min(3)] {
        match servers.try_push(IpAddress::Ipv4(*address)) {
            Ok(()) => {}
            Err(_) => unreachable!(),
        }
    }
    servers
}

/// The first three of the name servers of a lease are asked from now on.
pub(crate) fn serve(dns: &mut Socket<'_>, addresses: &[Ipv4Address])
    ensures stand { (servers : List IpAddress) (slots : List Slot) (numbers : List ℕ)
        → StandAs servers slots (client_of dns.old) numbers
        → StandAs (first_servers addresses.now) slots (client_of dns.new) numbers }
    ensures lent { AreLent (client_of dns.old) → AreLent (client_of dns.new) }
{
    let servers = first_servers(addresses);
    dns.update_servers(servers.as_slice());
}
