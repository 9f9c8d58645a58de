//! The part of the network layer.
ghost use Rattle.std.specs.Prelude.{◌≡◌, option_map};

use crate::{LaxIpSlice, LaxIpv4Slice, LaxIpv6Slice};
use ether_ip::LaxIpPayloadSlice;
use ether_link::ArpPacketSlice;

/// The part of the network layer, with its payload.
#[derive(Clone, Debug, Drop, PartialEq, Eq)]
pub enum LaxNetSlice<'a> {
    Ipv4(LaxIpv4Slice<'a>),
    Ipv6(LaxIpv6Slice<'a>),
    Arp(ArpPacketSlice<'a>),
}

impl<'a> LaxNetSlice<'a> {
    ghost use Rattle.ether_lax.specs.Nets.{net_in, payload_of_net, payload_of_ip};

    /// The payload of an IP packet; an ARP packet has none.
    pub fn ip_payload_ref(&self) -> Option<&LaxIpPayloadSlice<'a>>
        ensures value { option_map (λ payload. payload_of_ip payload.now) result
            ≡ payload_of_net (net_in self.now) }
    {
        match self {
            LaxNetSlice::Ipv4(packet) => Some(packet.payload()),
            LaxNetSlice::Ipv6(packet) => Some(packet.payload()),
            LaxNetSlice::Arp(_) => None,
        }
    }
}

impl<'a> From<LaxIpv4Slice<'a>> for LaxNetSlice<'a> {
    ghost use Rattle.ether_lax.specs.declared.net.LaxNetSlice.TheVariants.{Ipv4};

    ghost from_gives = { λ source part. part ≡ Ipv4 source };

    fn from(packet: LaxIpv4Slice<'a>) -> Self {
        LaxNetSlice::Ipv4(packet)
    }
}

impl<'a> From<LaxIpv6Slice<'a>> for LaxNetSlice<'a> {
    ghost use Rattle.ether_lax.specs.declared.net.LaxNetSlice.TheVariants.{Ipv6};

    ghost from_gives = { λ source part. part ≡ Ipv6 source };

    fn from(packet: LaxIpv6Slice<'a>) -> Self {
        LaxNetSlice::Ipv6(packet)
    }
}

impl<'a> From<LaxIpSlice<'a>> for LaxNetSlice<'a> {
    ghost use Rattle.ether_lax.specs.Addresses.{net_of_packet};

    ghost from_gives = { λ source part. part ≡ net_of_packet source };

    fn from(packet: LaxIpSlice<'a>) -> Self {
        match packet {
            LaxIpSlice::Ipv4(packet) => LaxNetSlice::Ipv4(packet),
            LaxIpSlice::Ipv6(packet) => LaxNetSlice::Ipv6(packet),
        }
    }
}
