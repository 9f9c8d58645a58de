//! The headers of the network layer.

use crate::{Ipv4Extensions, Ipv4Header, Ipv6Extensions, Ipv6Header};
use ether_link::ArpPacket;

/// The fields of the headers of the network layer.
#[derive(Clone, Debug, Drop, PartialEq, Eq)]
pub enum NetHeaders {
    Ipv4(Ipv4Header, Ipv4Extensions),
    Ipv6(Ipv6Header, Ipv6Extensions),
    Arp(ArpPacket),
}
