//! The part of the network layer, by what a walk found of it.
ghost use Rattle.std.specs.Prelude.{◌≡◌, Some, length, option_map};
ghost use Rattle.ether_lax.specs.Nets.{net_in, ip_in, payload_of_ip, chain_in};
ghost use Rattle.ether_lax.specs.Sliced.{net_by, ip_at, payload_at, chain_by};
ghost use Rattle.ether_lax.specs.Walks.{IsInside};

use crate::found::{FoundIp, IpHeader};
use crate::{LaxIpSlice, LaxIpv4Slice, LaxIpv6Slice, LaxNetSlice};
use ether_ip::{
    IpAuthHeaderSlice, Ipv4ExtensionsSlice, Ipv6ExtensionsSlice, Ipv6HeaderSlice, LaxIpPayloadSlice,
};
use ether_link::ArpPacketSlice;

/// The part of the network layer.
pub(crate) fn net_by<'a>(
    frame: &'a [u8],
    auth: Option<IpAuthHeaderSlice<'a>>,
    ip: Option<FoundIp<'a>>,
    arp: Option<ArpPacketSlice<'a>>,
) -> Option<LaxNetSlice<'a>>
    requires { IsInside (length frame.now) (length frame.now) ip }
    ensures { option_map net_in result ≡ net_by frame.now auth.entry ip.entry arp.entry }
{
    match (ip, arp) {
        (Some(ip), _) => Some(LaxNetSlice::from(ip_by(frame, auth, ip))),
        (None, Some(packet)) => Some(LaxNetSlice::Arp(packet)),
        (None, None) => None,
    }
}

/// The IP packet.
pub(crate) fn ip_by<'a>(
    frame: &'a [u8],
    auth: Option<IpAuthHeaderSlice<'a>>,
    ip: FoundIp<'a>,
) -> LaxIpSlice<'a>
    requires { IsInside (length frame.now) (length frame.now) (Some ip) }
    ensures { ip_in result ≡ ip_at frame.now auth.entry ip.entry }
{
    let payload = payload_at(frame, &ip);
    let headers = &frame[ip.first.body..ip.last.body];
    let fragmented = ip.fragmented;
    match ip.header {
        IpHeader::V4(header) => LaxIpSlice::Ipv4(LaxIpv4Slice {
            header,
            exts: Ipv4ExtensionsSlice { auth },
            payload,
        }),
        IpHeader::V6(header) => {
            let exts = chain_of(&header, fragmented, headers);
            LaxIpSlice::Ipv6(LaxIpv6Slice {
                header,
                exts,
                payload,
            })
        }
    }
}

/// What is behind the headers of an IP packet.
pub(crate) fn payload_at<'a>(frame: &'a [u8], ip: &FoundIp<'a>) -> LaxIpPayloadSlice<'a>
    requires { IsInside (length frame.now) (length frame.now) (Some ip.now) }
    ensures { payload_of_ip result ≡ payload_at frame.now ip.now }
{
    LaxIpPayloadSlice {
        incomplete: ip.incomplete,
        ip_number: ip.number,
        fragmented: ip.fragmented,
        len_source: ip.len_source,
        payload: &frame[ip.last.body..ip.last.end],
    }
}

/// The extension headers behind an IPv6 header.
fn chain_of<'a>(
    header: &Ipv6HeaderSlice<'a>,
    fragmented: bool,
    headers: &'a [u8],
) -> Ipv6ExtensionsSlice<'a>
    ensures { chain_in result ≡ chain_by header.now fragmented headers.now }
{
    let first = if headers.is_empty() {
        None
    } else {
        Some(header.next_header())
    };
    Ipv6ExtensionsSlice::from_headers(first, fragmented, headers)
}
