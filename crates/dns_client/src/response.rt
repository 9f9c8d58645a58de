//! Responses: which queries they reach, and what they decide.
ghost use Rattle.std.specs.Prelude.{◌≡◌, ◌==◌, [], map, option_map, bit_and, is_some, true};
ghost use Rattle.net_wire.specs.DnsLabels.{labels_left};
ghost use Rattle.net_wire.specs.DnsMessage.{flag_bits, type_number};
ghost use Rattle.net_wire.specs.DnsName.{labels_at};
ghost use Rattle.dns_client.specs.PlainName.{plain_name};
ghost use Rattle.dns_client.specs.Response.{is_same_address, is_response, has_right_source, reaches_waiting};
ghost use Rattle.dns_client.specs.Response.{reaches, answer_for, answer_in, settled, decided, failed_if};
ghost use Rattle.dns_client.specs.Response.{first_decided, heard};

use crate::MulticastDns;
use crate::answer::{follow, same_labels};
use crate::query::{DnsQuery, PendingQuery, QueryState, Request};
use arrayvec::ArrayVec;
use bitflags::Flags;
use net_wire::IpAddress;
use net_wire::dns::{DnsType, HeaderFlags, Labels, Packet, Question};

/// The port of name servers (RFC 1035, section 4.2.1), and that of mDNS (RFC 6762, section 5).
pub(crate) const DNS_PORT: u16 = 53;

pub(crate) const MDNS_PORT: u16 = 5353;

/// The name does not exist (RFC 1035, section 4.1.1).
const NX_DOMAIN: u8 = 3;

/// Where a datagram came from, the port that it came to, and the id of its message.
#[derive(Clone, Copy, Debug)]
pub(crate) struct Arrived {
    pub(crate) source: IpAddress,
    pub(crate) source_port: u16,
    pub(crate) port: u16,
    pub(crate) id: u16,
}

pub(crate) fn is_same_address(one: &IpAddress, other: &IpAddress) -> bool
    ensures { result ≡ is_same_address one.now other.now }
{
    match one {
        IpAddress::Ipv4(left) => match other {
            IpAddress::Ipv4(right) => left.0 == right.0,
            IpAddress::Ipv6(_) => false,
        },
        IpAddress::Ipv6(left) => match other {
            IpAddress::Ipv4(_) => false,
            IpAddress::Ipv6(right) => left.0 == right.0,
        },
    }
}

/// Whether the response bit is set.
fn has_response_bit(packet: &Packet<'_>) -> bool
    ensures { result ≡ (bit_and (flag_bits packet.now) 0x8000 == 0x8000) }
{
    packet.flags().contains(HeaderFlags::RESPONSE)
}

/// Whether a message is a standard response to one question.
pub(crate) fn is_response(packet: &Packet<'_>) -> bool
    ensures { result ≡ is_response packet.now }
{
    if packet.opcode() != 0 {
        return false;
    }
    if !has_response_bit(packet) {
        return false;
    }
    packet.question_count() == 1
}

/// Whether a response came from where the last message went.
fn has_right_source(arrived: &Arrived, mdns: MulticastDns, asked: &Option<IpAddress>) -> bool
    ensures { result ≡ has_right_source arrived.now mdns asked.now }
{
    match asked {
        None => false,
        Some(address) => match mdns {
            MulticastDns::Disabled => {
                if arrived.source_port == DNS_PORT {
                    is_same_address(address, &arrived.source)
                } else {
                    false
                }
            }
            MulticastDns::Enabled => arrived.source_port == MDNS_PORT,
        },
    }
}

fn reaches_waiting(arrived: &Arrived, waiting: &PendingQuery) -> bool
    ensures { result ≡ reaches_waiting arrived.now waiting.now }
{
    if arrived.port != waiting.request.port {
        return false;
    }
    if arrived.id != waiting.request.id {
        return false;
    }
    has_right_source(arrived, waiting.request.mdns, &waiting.turn.asked)
}

/// Whether a response reaches the query of a slot.
fn reaches(arrived: &Arrived, slot: &Option<DnsQuery>) -> bool
    ensures { result ≡ reaches arrived.now slot.now }
{
    match slot {
        None => false,
        Some(query) => match &query.state {
            QueryState::Pending(waiting) => reaches_waiting(arrived, waiting),
            QueryState::Answered(_) => false,
            QueryState::Failed => false,
        },
    }
}

/// The labels of a request's name.
fn asked_labels(request: &Request) -> Labels<'_>
    ensures value { labels_left result ≡ labels_at [] request.now.name }
    ensures plain { is_some (plain_name request.now.name) ≡ true }
{
    Labels::new(&[], request.name.as_slice())
}

/// The number of a request's type.
fn asked_number(request: &Request) -> u16
    ensures { result ≡ type_number request.now.type_ }
{
    request.type_.number()
}

fn is_asked(type_: DnsType, request: &Request) -> bool
    ensures { result ≡ (type_number type_ == type_number request.now.type_) }
{
    type_.number() == request.type_.number()
}

/// What a response says to a request.
fn answer_for(packet: &Packet<'_>, request: &Request) -> Option<ArrayVec<IpAddress, 4>>
    ensures { option_map (λ found. found.items) result ≡ answer_for packet.now request.now }
{
    let Ok((records, question)) = Question::parse(packet.payload()) else {
        return None;
    };
    if is_asked(question.type_, request) {
        let asked = asked_labels(request);
        if same_labels(packet.parse_name(question.name), asked) {
            follow(
                packet,
                asked,
                asked_number(request),
                packet.answer_record_count(),
                records,
            )
        } else {
            None
        }
    } else {
        None
    }
}

fn answer_in(packet: &Packet<'_>, slot: &Option<DnsQuery>) -> Option<ArrayVec<IpAddress, 4>>
    ensures { decided packet.now slot.now ≡ settled (option_map (λ found. found.items) result) slot.now }
{
    match slot {
        None => None,
        Some(query) => match &query.state {
            QueryState::Pending(waiting) => answer_for(packet, &waiting.request),
            QueryState::Answered(_) => None,
            QueryState::Failed => None,
        },
    }
}

/// Decides a query by the addresses of an answer, and leaves it where there is none.
fn settle(answer: Option<ArrayVec<IpAddress, 4>>, slot: &mut Option<DnsQuery>)
    ensures { slot.new ≡ settled (option_map (λ found. found.items) answer) slot.old }
{
    match answer {
        None => {}
        Some(addresses) => {
            if addresses.is_empty() {
                *slot = Some(DnsQuery {
                    state: QueryState::Failed,
                });
            } else {
                *slot = Some(DnsQuery {
                    state: QueryState::Answered(addresses),
                });
            }
        }
    }
}

fn fail(arrived: &Arrived, slot: &mut Option<DnsQuery>)
    ensures { slot.new ≡ failed_if arrived.now slot.old }
{
    if reaches(arrived, slot) {
        *slot = Some(DnsQuery {
            state: QueryState::Failed,
        });
    }
}

/// Fails each query that a response reaches.
fn fail_reached(arrived: &Arrived, slots: &mut [Option<DnsQuery>])
    ensures { slots.new ≡ map (failed_if arrived.now) slots.old }
{
    for slot in slots.iter_mut() {
        fail(arrived, slot);
    }
}

/// Decides the first query that a response reaches, if it can.
fn decide_first(arrived: &Arrived, packet: &Packet<'_>, slots: &mut [Option<DnsQuery>])
    ensures { slots.new ≡ first_decided arrived.now packet.now slots.old }
{
    for at in 0..slots.len() {
        if reaches(arrived, &slots[at]) {
            let answer = answer_in(packet, &slots[at]);
            settle(answer, &mut slots[at]);
            return;
        }
    }
}

/// Lets a response decide what it can.
pub(crate) fn hear(arrived: &Arrived, packet: &Packet<'_>, slots: &mut [Option<DnsQuery>])
    ensures { slots.new ≡ heard arrived.now packet.now slots.old }
{
    if packet.rcode() == NX_DOMAIN {
        fail_reached(arrived, slots);
    } else {
        decide_first(arrived, packet, slots);
    }
}
