//! The headers of a packet as structs, by a walk along its parts.
ghost use Rattle.std.specs.Prelude.{◌≡◌, ◌≤◌, Some, length, map, option_map};
ghost use Rattle.ether_link.specs.declared.layout.Turn.{Turn};
ghost use Rattle.ether_ip.specs.Auth.{auth_header};
ghost use Rattle.ether_ip.specs.Transport.{header_of_transport};
ghost use Rattle.ether_lax.specs.Headers.{HoldsHeaders, net_headers, carried_of, lacks_bytes, headers_stop};
ghost use Rattle.ether_lax.specs.LinkExts.{ext_in, header_of_ext};
ghost use Rattle.ether_lax.specs.Payloads.{carried_in, carried_in_transport};
ghost use Rattle.ether_lax.specs.Steps.{TellsCount};
ghost use Rattle.ether_lax.specs.Walks.{IsInside};

use crate::found::{Found, FoundIp, IpHeader};
use crate::nets::payload_at;
use crate::stops::{headers_source, placed, source_of_ip};
use crate::walk::{Walked, walk};
use crate::{LaxLinkExtSlice, LaxPacketHeaders, LaxPayloadSlice};
use arrayvec::ArrayVec;
use ether_ip::err::packet::SliceError;
use ether_ip::{ExtensionPlaces, Ipv4Extensions, NetHeaders, TransportHeader, TransportSlice};
use ether_link::err::Layer;
use ether_link::{ArpPacketSlice, LinkExtHeader, LinkHeader, Stop, Turn};

/// The headers of the packet that begins with a turn, behind a link that carries `start`.
pub(crate) fn headers<'a>(
    frame: &'a [u8],
    link: Option<LinkHeader>,
    start: LaxPayloadSlice<'a>,
    first: Option<Turn>,
) -> LaxPacketHeaders<'a>
    requires { TellsCount 0 first }
    ensures link { result.link ≡ link }
    ensures value { HoldsHeaders frame.now first (carried_in start.entry) result }
{
    let Walked { found, stop } = walk(frame, first, true);
    let Found {
        link_exts,
        link_source: _,
        link_incomplete: _,
        carried,
        arp,
        ip,
        held,
        transport,
        last: _,
    } = found;
    LaxPacketHeaders {
        link,
        link_exts: ext_headers(link_exts.as_slice()),
        net: net_headers(&held, &ip, &arp),
        transport: transport_header(&transport),
        payload: payload_of(frame, start, &transport, &ip, carried),
        stop_err: headers_stop(&ip, stop),
    }
}

/// The fields of link extensions.
#[tactic(auto, using(crate::proofs::FoundLemmas::headers_more, crate::proofs::FoundLemmas::headers_len))]
pub(crate) fn ext_headers(exts: &[LaxLinkExtSlice<'_>]) -> ArrayVec<LinkExtHeader, 3>
    requires { length exts.now ≤ 3 }
    ensures { result.items ≡ map header_of_ext (map ext_in exts.now) }
{
    let mut headers = ArrayVec::new();
    for ext in exts {
        headers.push(ext.to_header());
    }
    headers
}

/// The headers of the network layer.
fn net_headers(
    held: &ExtensionPlaces<'_>,
    ip: &Option<FoundIp<'_>>,
    arp: &Option<ArpPacketSlice<'_>>,
) -> Option<NetHeaders>
    ensures { result ≡ net_headers held.now ip.now arp.now }
{
    match ip {
        Some(ip) => match &ip.header {
            IpHeader::V4(header) => {
                let auth = match &held.auth {
                    Some(auth) => Some(auth.to_header()),
                    None => None,
                };
                Some(NetHeaders::Ipv4(header.to_header(), Ipv4Extensions { auth }))
            }
            IpHeader::V6(header) => Some(NetHeaders::Ipv6(header.to_header(), held.to_header())),
        },
        None => match arp {
            Some(packet) => Some(NetHeaders::Arp(packet.to_header())),
            None => None,
        },
    }
}

/// The header of the transport layer.
pub(crate) fn transport_header(transport: &Option<TransportSlice<'_>>) -> Option<TransportHeader>
    ensures { result ≡ option_map header_of_transport transport.now }
{
    match transport {
        Some(part) => Some(part.to_header()),
        None => None,
    }
}

/// What is behind the last header.
fn payload_of<'a>(
    frame: &'a [u8],
    start: LaxPayloadSlice<'a>,
    transport: &Option<TransportSlice<'a>>,
    ip: &Option<FoundIp<'a>>,
    link: Option<LaxPayloadSlice<'a>>,
) -> LaxPayloadSlice<'a>
    requires { IsInside (length frame.now) (length frame.now) ip.now }
    ensures { carried_in result ≡ carried_of frame.now (carried_in start.entry) transport.now ip.now
        (option_map carried_in link.entry) }
{
    match transport {
        Some(part) => payload_of_transport(part, lacks_bytes(ip)),
        None => match ip {
            Some(ip) => LaxPayloadSlice::Ip(payload_at(frame, ip)),
            None => match link {
                Some(payload) => payload,
                None => start,
            },
        },
    }
}

/// Bytes of the IP packet are missing.
fn lacks_bytes(ip: &Option<FoundIp<'_>>) -> bool
    ensures { result ≡ lacks_bytes ip.now }
{
    match ip {
        Some(ip) => ip.incomplete,
        None => false,
    }
}

/// What is behind the header of the transport layer.
fn payload_of_transport<'a>(part: &TransportSlice<'a>, incomplete: bool) -> LaxPayloadSlice<'a>
    ensures { carried_in result ≡ carried_in_transport part.now incomplete }
{
    let payload = part.payload();
    match part {
        TransportSlice::Udp(_) => LaxPayloadSlice::Udp {
            payload,
            incomplete,
        },
        TransportSlice::Tcp(_) => LaxPayloadSlice::Tcp {
            payload,
            incomplete,
        },
        TransportSlice::Icmpv4(_) => LaxPayloadSlice::Icmpv4 {
            payload,
            incomplete,
        },
        TransportSlice::Icmpv6(_) => LaxPayloadSlice::Icmpv6 {
            payload,
            incomplete,
        },
    }
}

/// What stopped the dissection, and at which layer.
fn headers_stop(
    ip: &Option<FoundIp<'_>>,
    stop: Option<Stop<SliceError>>,
) -> Option<(SliceError, Layer)>
    ensures { result ≡ headers_stop ip.now stop }
{
    match stop {
        Some(stop) => {
            let source = headers_source(stop.kind, source_of_ip(ip));
            Some((placed(source, stop.start, stop.refusal), stop.kind.layer()))
        }
        None => None,
    }
}
