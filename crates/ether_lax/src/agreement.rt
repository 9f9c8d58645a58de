//! Whether a packet in slices and the headers of a packet as structs agree.
ghost use Rattle.std.specs.Prelude.{◌≡◌, ◌↔◌, ◌≤◌, IsTrue, length, map, option_map};
ghost use Rattle.ether_ip.specs.Auth.{auth_header};
ghost use Rattle.ether_ip.specs.Ipv4.{ipv4_header};
ghost use Rattle.ether_ip.specs.Transport.{header_of_transport};
ghost use Rattle.ether_lax.specs.Agreement.{Agree, AgreeNets, AgreeStops, HoldsChain, chain_turn, sourceless};
ghost use Rattle.ether_lax.specs.Headers.{headers_in};
ghost use Rattle.ether_lax.specs.LinkExts.{ext_in, header_of_ext};
ghost use Rattle.ether_lax.specs.Nets.{chain_in, ipv4_auth, ipv4_bytes, net_in};
ghost use Rattle.ether_lax.specs.Sliced.{sliced_in};
ghost use Rattle.ether_lax.specs.Steps.{TellsCount};

use crate::headers::{ext_headers, transport_header};
use crate::step::part_turn;
use crate::walk::walk;
use crate::{LaxIpv4Slice, LaxLinkExtSlice, LaxNetSlice, LaxPacketHeaders, LaxSlicedPacket};
use ether_ip::err::packet::SliceError;
use ether_ip::ip::chain::first_extension_kind;
use ether_ip::{
    IpAuthHeader, IpAuthHeaderSlice, Ipv4Extensions, Ipv4Header, Ipv6Extensions,
    Ipv6ExtensionsSlice, NetHeaders, TcpHeader, TransportHeader, TransportSlice,
};
use ether_link::err::{Layer, LenError};
use ether_link::{IpNumber, LinkExtHeader, MacsecHeader, Place, Turn};

/// What both hold agrees: the headers of link extensions, of the network and of the transport layer, the
/// chain of an IPv6 packet with each header in its place and none left out, and the stops but for the
/// source of a length. The link header and payloads are not compared.
pub fn agrees(packet: &LaxSlicedPacket<'_>, headers: &LaxPacketHeaders<'_>) -> bool
    ensures value { IsTrue result ↔ Agree (sliced_in packet.now) (headers_in headers.now) }
{
    same_exts(packet.link_exts.as_slice(), headers.link_exts.as_slice())
        && same_nets(&packet.net, &headers.net)
        && same_transports(&packet.transport, &headers.transport)
        && same_stops(&packet.stop_err, &headers.stop_err)
}

/// The headers of the link extensions are the same.
fn same_exts(exts: &[LaxLinkExtSlice<'_>], headers: &[LinkExtHeader]) -> bool
    requires { length exts.now ≤ 3 }
    ensures { IsTrue result ↔ (map header_of_ext (map ext_in exts.now) ≡ headers.now) }
{
    let fields = ext_headers(exts);
    same_ext_headers(fields.as_slice(), headers)
}

/// The headers are the same, one by one.
#[tactic(auto, using(crate::proofs::HeldLemmas::more_same, crate::proofs::HeldLemmas::item_same))]
fn same_ext_headers(some: &[LinkExtHeader], others: &[LinkExtHeader]) -> bool
    ensures { IsTrue result ↔ (some.now ≡ others.now) }
{
    if some.len() != others.len() {
        return false;
    }
    let mut at = 0;
    while at < some.len() {
        if !same_ext(&some[at], &others[at]) {
            return false;
        }
        at += 1;
    }
    true
}

/// The fields of a link extension are the same.
fn same_ext(one: &LinkExtHeader, other: &LinkExtHeader) -> bool
    ensures { IsTrue result ↔ (one.now ≡ other.now) }
{
    match (one, other) {
        (LinkExtHeader::Vlan(one), LinkExtHeader::Vlan(other)) => one == other,
        (LinkExtHeader::Macsec(one), LinkExtHeader::Macsec(other)) => same_macsec(one, other),
        _ => false,
    }
}

/// The fields of a security tag are the same.
fn same_macsec(one: &MacsecHeader, other: &MacsecHeader) -> bool
    ensures { IsTrue result ↔ (one.now ≡ other.now) }
{
    one.ptype == other.ptype
        && one.endstation_id == other.endstation_id
        && one.scb == other.scb
        && one.an == other.an
        && one.short_len == other.short_len
        && one.packet_nr == other.packet_nr
        && one.sci == other.sci
}

/// The headers of the network layer are the same.
fn same_nets(part: &Option<LaxNetSlice<'_>>, headers: &Option<NetHeaders>) -> bool
    ensures { IsTrue result ↔ AgreeNets (option_map net_in part.now) headers.now }
{
    match (part, headers) {
        (None, None) => true,
        (Some(LaxNetSlice::Ipv4(packet)), Some(NetHeaders::Ipv4(header, exts))) => {
            same_ipv4(packet, header, exts)
        }
        (Some(LaxNetSlice::Ipv6(packet)), Some(NetHeaders::Ipv6(header, exts))) => {
            packet.header().to_header() == *header && holds_chain(packet.extensions(), exts)
        }
        (Some(LaxNetSlice::Arp(packet)), Some(NetHeaders::Arp(header))) => {
            packet.to_header() == *header
        }
        _ => false,
    }
}

/// The headers of an IPv4 packet are the same.
fn same_ipv4(packet: &LaxIpv4Slice<'_>, header: &Ipv4Header, exts: &Ipv4Extensions) -> bool
    ensures { IsTrue result ↔ ((ipv4_header (ipv4_bytes packet.now) ≡ header.now)
        × (option_map auth_header (ipv4_auth packet.now) ≡ exts.now.auth)) }
{
    same_ipv4_fields(&packet.header().to_header(), header)
        && same_auth(&packet.extensions().auth, &exts.auth)
}

/// The fields of an IPv4 header are the same.
fn same_ipv4_fields(one: &Ipv4Header, other: &Ipv4Header) -> bool
    ensures { IsTrue result ↔ (one.now ≡ other.now) }
{
    one == other
}

/// The fields of an authentication header behind an IPv4 header are the same.
fn same_auth(part: &Option<IpAuthHeaderSlice<'_>>, header: &Option<IpAuthHeader>) -> bool
    ensures { IsTrue result ↔ (option_map auth_header part.now ≡ header.now) }
{
    match (part, header) {
        (None, None) => true,
        (Some(part), Some(header)) => part.to_header() == *header,
        _ => false,
    }
}

/// Each header of a chain stands in its own place, and no place holds another one.
fn holds_chain(chain: &Ipv6ExtensionsSlice<'_>, exts: &Ipv6Extensions) -> bool
    ensures { IsTrue result ↔ HoldsChain (chain_in chain.now) exts.now }
{
    let first = chain_turn(chain.first_header());
    let all = walk(chain.slice(), first, false);
    let placed = walk(chain.slice(), first, true);
    same_last(&placed.found.last, &all.found.last)
        && same_extensions(&placed.found.held.to_header(), exts)
}

/// The part that the first number of a chain names.
#[tactic(auto, using(crate::proofs::HeldLemmas::chain_counts))]
fn chain_turn(first: Option<IpNumber>) -> Option<Turn>
    ensures value { result ≡ chain_turn first }
    ensures counts { TellsCount 0 result }
{
    match first {
        Some(number) => part_turn(0, false, first_extension_kind(number), number),
        None => None,
    }
}

/// Both are the same place.
fn same_last(one: &Option<Place>, other: &Option<Place>) -> bool
    ensures { IsTrue result ↔ (one.now ≡ other.now) }
{
    one == other
}

/// The fields of extension headers in their places are the same.
fn same_extensions(one: &Ipv6Extensions, other: &Ipv6Extensions) -> bool
    ensures { IsTrue result ↔ (one.now ≡ other.now) }
{
    one.hop_by_hop_options == other.hop_by_hop_options
        && one.destination_options == other.destination_options
        && one.routing == other.routing
        && one.fragment == other.fragment
        && one.auth == other.auth
}

/// The headers of the transport layer are the same.
fn same_transports(part: &Option<TransportSlice<'_>>, header: &Option<TransportHeader>) -> bool
    ensures { IsTrue result ↔ (option_map header_of_transport part.now ≡ header.now) }
{
    match (transport_header(part), header) {
        (None, None) => true,
        (Some(one), Some(other)) => same_transport(&one, other),
        _ => false,
    }
}

/// The fields of a transport header are the same.
fn same_transport(one: &TransportHeader, other: &TransportHeader) -> bool
    ensures { IsTrue result ↔ (one.now ≡ other.now) }
{
    match (one, other) {
        (TransportHeader::Icmpv4(one), TransportHeader::Icmpv4(other)) => one == other,
        (TransportHeader::Icmpv6(one), TransportHeader::Icmpv6(other)) => one == other,
        (TransportHeader::Udp(one), TransportHeader::Udp(other)) => one == other,
        (TransportHeader::Tcp(one), TransportHeader::Tcp(other)) => same_tcp(one, other),
        _ => false,
    }
}

/// The fields of a TCP header are the same.
fn same_tcp(one: &TcpHeader, other: &TcpHeader) -> bool
    ensures { IsTrue result ↔ (one.now ≡ other.now) }
{
    same_tcp_numbers(one, other)
        && same_tcp_course(one, other)
        && same_tcp_marks(one, other)
        && same_tcp_rest(one, other)
}

/// Ports and numbers are the same.
fn same_tcp_numbers(one: &TcpHeader, other: &TcpHeader) -> bool
    ensures { IsTrue result ↔ ((one.now.source_port ≡ other.now.source_port)
        × (one.now.destination_port ≡ other.now.destination_port)
        × (one.now.sequence_number ≡ other.now.sequence_number)
        × (one.now.acknowledgment_number ≡ other.now.acknowledgment_number)) }
{
    one.source_port == other.source_port
        && one.destination_port == other.destination_port
        && one.sequence_number == other.sequence_number
        && one.acknowledgment_number == other.acknowledgment_number
}

/// The flags of a connection's course are the same.
fn same_tcp_course(one: &TcpHeader, other: &TcpHeader) -> bool
    ensures { IsTrue result ↔ ((one.now.fin ≡ other.now.fin) × (one.now.syn ≡ other.now.syn)
        × (one.now.rst ≡ other.now.rst) × (one.now.psh ≡ other.now.psh)) }
{
    one.fin == other.fin && one.syn == other.syn && one.rst == other.rst && one.psh == other.psh
}

/// The other flags are the same.
fn same_tcp_marks(one: &TcpHeader, other: &TcpHeader) -> bool
    ensures { IsTrue result ↔ ((one.now.ns ≡ other.now.ns) × (one.now.ack ≡ other.now.ack)
        × (one.now.urg ≡ other.now.urg) × (one.now.ece ≡ other.now.ece)
        × (one.now.cwr ≡ other.now.cwr)) }
{
    one.ns == other.ns
        && one.ack == other.ack
        && one.urg == other.urg
        && one.ece == other.ece
        && one.cwr == other.cwr
}

/// What stands behind the flags is the same.
fn same_tcp_rest(one: &TcpHeader, other: &TcpHeader) -> bool
    ensures { IsTrue result ↔ ((one.now.window_size ≡ other.now.window_size)
        × (one.now.checksum ≡ other.now.checksum)
        × (one.now.urgent_pointer ≡ other.now.urgent_pointer)
        × (one.now.options ≡ other.now.options)) }
{
    one.window_size == other.window_size
        && one.checksum == other.checksum
        && one.urgent_pointer == other.urgent_pointer
        && one.options == other.options
}

/// The stops are the same, but for the sources of lengths.
fn same_stops(one: &Option<(SliceError, Layer)>, other: &Option<(SliceError, Layer)>) -> bool
    ensures { IsTrue result ↔ AgreeStops one.now other.now }
{
    match (one, other) {
        (None, None) => true,
        (Some((one, layer)), Some((other, other_layer))) => {
            same_refusal(one, other) && layer == other_layer
        }
        _ => false,
    }
}

/// The refusals are the same, but for the sources of lengths.
fn same_refusal(one: &SliceError, other: &SliceError) -> bool
    ensures { IsTrue result ↔ (sourceless one.now ≡ sourceless other.now) }
{
    match (one, other) {
        (SliceError::Len(one), SliceError::Len(other)) => same_length(one, other),
        (SliceError::LinuxSll(one), SliceError::LinuxSll(other)) => one == other,
        (SliceError::Macsec(one), SliceError::Macsec(other)) => one == other,
        (SliceError::Ip(one), SliceError::Ip(other)) => one == other,
        (SliceError::Ipv4(one), SliceError::Ipv4(other)) => one == other,
        (SliceError::Ipv6(one), SliceError::Ipv6(other)) => one == other,
        (SliceError::Ipv4Exts(one), SliceError::Ipv4Exts(other)) => one == other,
        (SliceError::Ipv6Exts(one), SliceError::Ipv6Exts(other)) => one == other,
        (SliceError::Tcp(one), SliceError::Tcp(other)) => one == other,
        _ => false,
    }
}

/// The lengths, their layers and where these begin are the same.
fn same_length(one: &LenError, other: &LenError) -> bool
    ensures { IsTrue result ↔ ((one.now.required_len ≡ other.now.required_len)
        × (one.now.len ≡ other.now.len) × (one.now.layer ≡ other.now.layer)
        × (one.now.layer_start_offset ≡ other.now.layer_start_offset)) }
{
    one.required_len == other.required_len
        && one.len == other.len
        && one.layer == other.layer
        && one.layer_start_offset == other.layer_start_offset
}
