//! What stopped a dissection, as callers are told.
ghost use Rattle.std.specs.Prelude.{◌≡◌};
ghost use Rattle.ether_lax.specs.Found.{found_in};
ghost use Rattle.ether_lax.specs.Stops.{or_source, source_of_ip, sliced_source, placed, sliced_stop, ip_stop, chain_refusal, headers_source};

use crate::found::{Found, FoundIp};
use ether_ip::err::ipv6_exts::{HeaderError, HeaderSliceError};
use ether_ip::err::packet::SliceError;
use ether_link::err::{Layer, LenError};
use ether_link::{LenSource, PartKind, Stop};

/// What stopped the slicing of a packet, and at which layer: the length of a link payload is from the
/// link's source, that of an IP payload from the IP header.
pub(crate) fn sliced_stop(
    found: &Found<'_>,
    stop: Option<Stop<SliceError>>,
) -> Option<(SliceError, Layer)>
    ensures { result ≡ sliced_stop (found_in found.now) stop }
{
    match stop {
        Some(stop) => {
            let ip_source = source_of_ip(&found.ip);
            let source = sliced_source(stop.kind, found.link_source, ip_source);
            Some((placed(source, stop.start, stop.refusal), stop.kind.layer()))
        }
        None => None,
    }
}

/// A source, or another one where it is the slice.
fn or_source(source: LenSource, other: LenSource) -> LenSource
    ensures { result ≡ or_source source other }
{
    match source {
        LenSource::Slice => other,
        source => source,
    }
}

/// The source of the window behind an IP header.
pub(crate) fn source_of_ip(ip: &Option<FoundIp<'_>>) -> LenSource
    ensures { result ≡ source_of_ip ip.now }
{
    match ip {
        Some(ip) => ip.len_source,
        None => LenSource::Slice,
    }
}

/// The source of the window that a part of a kind was sought in.
fn sliced_source(kind: PartKind, link: LenSource, ip: LenSource) -> LenSource
    ensures { result ≡ sliced_source kind link ip }
{
    match kind {
        PartKind::Arp | PartKind::Ip => link,
        PartKind::HopByHop
        | PartKind::LateHopByHop
        | PartKind::Route
        | PartKind::Fragment
        | PartKind::DestinationOptions
        | PartKind::Ipv4Auth
        | PartKind::Ipv6Auth => or_source(ip, link),
        PartKind::Udp | PartKind::Tcp | PartKind::Icmpv4 | PartKind::Icmpv6 => ip,
        PartKind::Ethernet2 | PartKind::LinuxSll | PartKind::Vlan | PartKind::Macsec => {
            LenSource::Slice
        }
    }
}

/// The same, where the length of a link payload is from no field.
pub(crate) fn headers_source(kind: PartKind, ip: LenSource) -> LenSource
    ensures { result ≡ headers_source kind ip }
{
    match kind {
        PartKind::Ethernet2
        | PartKind::LinuxSll
        | PartKind::Vlan
        | PartKind::Macsec
        | PartKind::Arp
        | PartKind::Ip => LenSource::Slice,
        _ => ip,
    }
}

/// The refusal of a part that begins at a place.
pub(crate) fn placed(source: LenSource, start: usize, refusal: SliceError) -> SliceError
    ensures { result ≡ placed source start refusal }
{
    match refusal {
        SliceError::Len(error) => SliceError::Len(LenError {
            len_source: or_source(error.len_source, source),
            layer_start_offset: start,
            ..error
        }),
        refusal => refusal,
    }
}

/// What stopped a reader of IP headers, if it was one of them.
pub(crate) fn ip_stop(
    source: LenSource,
    stop: Option<Stop<SliceError>>,
) -> Option<(HeaderSliceError, Layer)>
    ensures { result ≡ ip_stop source stop }
{
    match stop {
        Some(stop) => match stop.kind {
            PartKind::HopByHop
            | PartKind::LateHopByHop
            | PartKind::Route
            | PartKind::Fragment
            | PartKind::DestinationOptions
            | PartKind::Ipv4Auth
            | PartKind::Ipv6Auth => {
                match chain_refusal(placed(source, stop.start, stop.refusal)) {
                    Some(refusal) => Some((refusal, stop.kind.layer())),
                    None => None,
                }
            }
            _ => None,
        },
        None => None,
    }
}

/// The refusal of a part, as one of an extension header, if it can be one.
fn chain_refusal(refusal: SliceError) -> Option<HeaderSliceError>
    ensures { result ≡ chain_refusal refusal }
{
    match refusal {
        SliceError::Len(error) => Some(HeaderSliceError::Len(error)),
        SliceError::Ipv4Exts(error) => Some(HeaderSliceError::Content(HeaderError::IpAuth(error))),
        SliceError::Ipv6Exts(error) => Some(HeaderSliceError::Content(error)),
        _ => None,
    }
}
