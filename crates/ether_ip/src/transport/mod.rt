//! The parts of the transport layer.
ghost use Rattle.std.specs.Prelude.{◌≡◌};
ghost use Rattle.ether_ip.specs.Transport.{bytes_of_transport, payload_of_transport, header_of_transport};

use icmpv4::{Icmpv4Header, Icmpv4Slice};
use icmpv6::{Icmpv6Header, Icmpv6Slice};
use tcp::{TcpHeader, TcpSlice};
use udp::{UdpHeader, UdpSlice};

pub mod icmp_echo;
pub mod icmpv4;
pub mod icmpv6;
pub mod tcp;
pub mod udp;

/// What an IP packet carries, with its own payload.
#[derive(Clone, Debug, Drop, PartialEq, Eq)]
pub enum TransportSlice<'a> {
    Icmpv4(Icmpv4Slice<'a>),
    Icmpv6(Icmpv6Slice<'a>),
    Udp(UdpSlice<'a>),
    Tcp(TcpSlice<'a>),
}

/// The fields of what an IP packet carries.
#[derive(Clone, Debug, Drop, PartialEq, Eq)]
pub enum TransportHeader {
    Icmpv4(Icmpv4Header),
    Icmpv6(Icmpv6Header),
    Udp(UdpHeader),
    Tcp(TcpHeader),
}

impl<'a> TransportSlice<'a> {
    /// The header and all that is behind it.
    pub fn slice(&self) -> &'a [u8]
        ensures value { result.now ≡ bytes_of_transport self.now }
    {
        match self {
            TransportSlice::Icmpv4(part) => part.slice(),
            TransportSlice::Icmpv6(part) => part.slice(),
            TransportSlice::Udp(part) => part.slice(),
            TransportSlice::Tcp(part) => part.slice(),
        }
    }

    /// What is behind the header.
    pub fn payload(&self) -> &'a [u8]
        ensures value { result.now ≡ payload_of_transport self.now }
    {
        match self {
            TransportSlice::Icmpv4(part) => part.payload(),
            TransportSlice::Icmpv6(part) => part.payload(),
            TransportSlice::Udp(part) => part.payload(),
            TransportSlice::Tcp(part) => part.payload(),
        }
    }

    pub fn to_header(&self) -> TransportHeader
        ensures value { result ≡ header_of_transport self.now }
    {
        match self {
            TransportSlice::Icmpv4(part) => TransportHeader::Icmpv4(part.header()),
            TransportSlice::Icmpv6(part) => TransportHeader::Icmpv6(part.header()),
            TransportSlice::Udp(part) => TransportHeader::Udp(part.to_header()),
            TransportSlice::Tcp(part) => TransportHeader::Tcp(part.to_header()),
        }
    }
}
