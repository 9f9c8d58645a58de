//! The protocols that frames and datagrams name.
ghost use Rattle.net_wire.specs.Protocol.{IsProtocolOfEachNumber};

/// What an Ethernet frame carries (RFC 5342, section 3).
#[derive(Clone, Copy, Debug, PartialEq, Eq, Hash, PartialOrd, Ord)]
pub enum EthernetProtocol {
    /// 0800
    Ipv4,
    /// 0806
    Arp,
    /// 86dd
    Ipv6,
    /// Any other number.
    Unknown(u16),
}

impl EthernetProtocol {
    ghost use Rattle.std.specs.Prelude.{◌≡◌};
    ghost use Rattle.net_wire.specs.Protocol.{ether_type_number};

    /// The number that stands in the frame.
    pub fn number(self) -> u16
        ensures { result ≡ ether_type_number self }
    {
        match self {
            EthernetProtocol::Ipv4 => 0x0800,
            EthernetProtocol::Arp => 0x0806,
            EthernetProtocol::Ipv6 => 0x86dd,
            EthernetProtocol::Unknown(number) => number,
        }
    }
}

/// What an IP datagram carries, by the protocol numbers of IANA (RFC 5237, section 1). The variants
/// stand in the order of their numbers.
#[derive(Clone, Copy, Debug, PartialEq, Eq, Hash, PartialOrd, Ord)]
pub enum IpProtocol {
    /// 0: hop-by-hop options (RFC 8200, section 4.3).
    HopByHop,
    /// 1: ICMP for IPv4 (RFC 792).
    Icmp,
    /// 2: IGMP (RFC 1112, appendix I).
    Igmp,
    /// 6: TCP (RFC 9293, section 3.1).
    Tcp,
    /// 17: UDP (RFC 768).
    Udp,
    /// 43: the routing header (RFC 8200, section 4.4).
    Ipv6Route,
    /// 44: the fragment header (RFC 8200, section 4.5).
    Ipv6Frag,
    /// 50: the encapsulating security payload (RFC 4303, section 2).
    IpSecEsp,
    /// 51: the authentication header (RFC 4302, section 2).
    IpSecAh,
    /// 58: ICMP for IPv6 (RFC 4443, section 1).
    Icmpv6,
    /// 59: nothing behind this header (RFC 8200, section 4.7).
    Ipv6NoNxt,
    /// 60: destination options (RFC 8200, section 4.6).
    Ipv6Opts,
    /// Any other number.
    Unknown(u8),
}

impl IpProtocol {
    ghost use Rattle.std.specs.Prelude.{◌≡◌};
    ghost use Rattle.net_wire.specs.Protocol.{ip_protocol_number};

    /// The number that stands in the datagram.
    pub fn number(self) -> u8
        ensures { result ≡ ip_protocol_number self }
    {
        match self {
            IpProtocol::HopByHop => 0,
            IpProtocol::Icmp => 1,
            IpProtocol::Igmp => 2,
            IpProtocol::Tcp => 6,
            IpProtocol::Udp => 17,
            IpProtocol::Ipv6Route => 43,
            IpProtocol::Ipv6Frag => 44,
            IpProtocol::IpSecEsp => 50,
            IpProtocol::IpSecAh => 51,
            IpProtocol::Icmpv6 => 58,
            IpProtocol::Ipv6NoNxt => 59,
            IpProtocol::Ipv6Opts => 60,
            IpProtocol::Unknown(number) => number,
        }
    }
}

impl From<u8> for IpProtocol {
    ghost use Rattle.std.specs.Prelude.{◌≡◌};
    ghost use Rattle.net_wire.specs.Protocol.{ip_protocol_of};

    ghost from_gives = { λ number protocol. protocol ≡ ip_protocol_of number };

    fn from(number: u8) -> IpProtocol {
        match number {
            0 => IpProtocol::HopByHop,
            1 => IpProtocol::Icmp,
            2 => IpProtocol::Igmp,
            6 => IpProtocol::Tcp,
            17 => IpProtocol::Udp,
            43 => IpProtocol::Ipv6Route,
            44 => IpProtocol::Ipv6Frag,
            50 => IpProtocol::IpSecEsp,
            51 => IpProtocol::IpSecAh,
            58 => IpProtocol::Icmpv6,
            59 => IpProtocol::Ipv6NoNxt,
            60 => IpProtocol::Ipv6Opts,
            _ => IpProtocol::Unknown(number),
        }
    }
}

impl From<IpProtocol> for u8 {
    ghost use Rattle.std.specs.Prelude.{◌≡◌};
    ghost use Rattle.net_wire.specs.Protocol.{ip_protocol_number};

    ghost from_gives = { λ protocol number. number ≡ ip_protocol_number protocol };

    fn from(protocol: IpProtocol) -> u8 {
        protocol.number()
    }
}

/// A number that is made a protocol, and back, is the same number.
pub fn each_number_is_its_protocol()
    ensures { IsProtocolOfEachNumber }
{}
