//! IP packets of either version, or as much of one as is there.
ghost use Rattle.std.specs.Prelude.{◌≡◌, None, option_map};
ghost use Rattle.ether_link.specs.Form.{Reads, refusal};
ghost use Rattle.ether_ip.specs.Ip.{ip_slice_form};
ghost use Rattle.ether_lax.specs.IpParts.{IsIpPacket};

use crate::found::Found;
use crate::nets::ip_by;
use crate::step::first;
use crate::stops::ip_stop;
use crate::walk::{Walked, walk};
use crate::{LaxIpv4Slice, LaxIpv6Slice};
use ether_ip::err::ip::LaxHeaderSliceError;
use ether_ip::err::ipv6_exts::HeaderSliceError;
use ether_ip::{LaxIpPayloadSlice, ip_header_len};
use ether_link::err::Layer;
use ether_link::{IpNumber, PartKind};
use std::net::IpAddr;

/// An IP packet: its headers and the payload.
#[derive(Clone, Debug, Drop, PartialEq, Eq)]
pub enum LaxIpSlice<'a> {
    Ipv4(LaxIpv4Slice<'a>),
    Ipv6(LaxIpv6Slice<'a>),
}

impl<'a> LaxIpSlice<'a> {
    ghost use Rattle.ether_lax.specs.Addresses.{IsVersion4, IsVersion6, IsSourceOf, IsDestinationOf};
    ghost use Rattle.ether_lax.specs.Nets.{payload_of_ip, ip_payload_in};

    /// The headers of an IP packet and their payload, or as much of it as is there. It is refused where
    /// the IP header is. Where an extension header is refused, the payload begins there; the refusal
    /// counts from the start of the packet.
    pub fn from_slice(
        slice: &'a [u8],
    ) -> Result<(LaxIpSlice<'a>, Option<(HeaderSliceError, Layer)>), LaxHeaderSliceError>
        ensures value { Reads ip_slice_form slice.now result
            (λ read. IsIpPacket slice.now read.0 read.1) }
    {
        let _header_len = ip_header_len(slice)?;
        Ok(ip_packet(slice))
    }

    /// The packet, where it has version 4.
    pub fn ipv4(&self) -> Option<&LaxIpv4Slice<'a>>
        ensures value { IsVersion4 self.now (option_map (λ packet. packet.now) result) }
    {
        match self {
            LaxIpSlice::Ipv4(packet) => Some(packet),
            LaxIpSlice::Ipv6(_) => None,
        }
    }

    /// The packet, where it has version 6.
    pub fn ipv6(&self) -> Option<&LaxIpv6Slice<'a>>
        ensures value { IsVersion6 self.now (option_map (λ packet. packet.now) result) }
    {
        match self {
            LaxIpSlice::Ipv6(packet) => Some(packet),
            LaxIpSlice::Ipv4(_) => None,
        }
    }

    pub fn source_addr(&self) -> IpAddr
        ensures value { IsSourceOf self.now result }
    {
        match self {
            LaxIpSlice::Ipv4(packet) => IpAddr::V4(packet.header().source_addr()),
            LaxIpSlice::Ipv6(packet) => IpAddr::V6(packet.header().source_addr()),
        }
    }

    pub fn destination_addr(&self) -> IpAddr
        ensures value { IsDestinationOf self.now result }
    {
        match self {
            LaxIpSlice::Ipv4(packet) => IpAddr::V4(packet.header().destination_addr()),
            LaxIpSlice::Ipv6(packet) => IpAddr::V6(packet.header().destination_addr()),
        }
    }

    /// What is behind the headers.
    pub fn payload(&self) -> &LaxIpPayloadSlice<'a>
        ensures value { payload_of_ip result.now ≡ ip_payload_in self.now }
    {
        match self {
            LaxIpSlice::Ipv4(packet) => packet.payload(),
            LaxIpSlice::Ipv6(packet) => packet.payload(),
        }
    }

    /// What the payload holds.
    pub fn payload_ip_number(&self) -> IpNumber
        ensures value { result ≡ (ip_payload_in self.now).number }
    {
        match self {
            LaxIpSlice::Ipv4(packet) => packet.payload_ip_number(),
            LaxIpSlice::Ipv6(packet) => packet.payload_ip_number(),
        }
    }

    /// The payload is only a part of that of a packet.
    pub fn is_fragmenting_payload(&self) -> bool
        ensures value { result ≡ (ip_payload_in self.now).fragmented }
    {
        match self {
            LaxIpSlice::Ipv4(packet) => packet.is_payload_fragmented(),
            LaxIpSlice::Ipv6(packet) => packet.is_payload_fragmented(),
        }
    }
}

impl<'a> From<LaxIpv4Slice<'a>> for LaxIpSlice<'a> {
    ghost use Rattle.ether_lax.specs.declared.ip.LaxIpSlice.TheVariants.{Ipv4};

    ghost from_gives = { λ source packet. packet ≡ Ipv4 source };

    fn from(packet: LaxIpv4Slice<'a>) -> Self {
        LaxIpSlice::Ipv4(packet)
    }
}

impl<'a> From<LaxIpv6Slice<'a>> for LaxIpSlice<'a> {
    ghost use Rattle.ether_lax.specs.declared.ip.LaxIpSlice.TheVariants.{Ipv6};

    ghost from_gives = { λ source packet. packet ≡ Ipv6 source };

    fn from(packet: LaxIpv6Slice<'a>) -> Self {
        LaxIpSlice::Ipv6(packet)
    }
}

/// The packet that an IP header begins, which is not refused.
pub(crate) fn ip_packet(slice: &[u8]) -> (LaxIpSlice<'_>, Option<(HeaderSliceError, Layer)>)
    requires { refusal ip_slice_form slice.now ≡ None }
    ensures { IsIpPacket slice.now result.0 result.1 }
{
    let Walked { found, stop } = walk(slice, first(PartKind::Ip), false);
    let Found {
        link_exts: _,
        link_source: _,
        link_incomplete: _,
        carried: _,
        arp: _,
        ip,
        held,
        transport: _,
        last: _,
    } = found;
    match ip {
        Some(ip) => {
            let stop = ip_stop(ip.len_source, stop);
            (ip_by(slice, held.auth, ip), stop)
        }
        None => unreachable!(),
    }
}
