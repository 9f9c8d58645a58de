//! Addresses of the link and of the network.

/// An Ethernet hardware address, in transmission order (IEEE 802.3, section 3.2.3).
#[derive(Clone, Copy, Debug, Default, PartialEq, Eq, Hash, PartialOrd, Ord)]
pub struct EthernetAddress(pub [u8; 6]);

impl EthernetAddress {
    /// All stations of the link.
    pub const BROADCAST: EthernetAddress = EthernetAddress([0xff; 6]);
}

impl EthernetAddress {
    ghost use Rattle.std.specs.Prelude.{◌≡◌};
    ghost use Rattle.net_wire.specs.Arrival.{is_group};

    /// Whether the address is that of a group of stations (IEEE 802.3, section 3.2.3).
    pub fn is_group(self) -> bool
        ensures { result ≡ is_group self.0 }
    {
        self.0[0] % 2 == 1
    }
}

/// An IPv4 address, in network byte order (RFC 791, section 3.2).
#[derive(Clone, Copy, Debug, Default, PartialEq, Eq, Hash, PartialOrd, Ord)]
pub struct Ipv4Address(pub [u8; 4]);

impl Ipv4Address {
    /// No address: a host that has none yet sends from it (RFC 1122, section 3.2.1.3).
    pub const UNSPECIFIED: Ipv4Address = Ipv4Address([0; 4]);

    /// All hosts of the local network (RFC 919, section 7).
    pub const BROADCAST: Ipv4Address = Ipv4Address([255; 4]);
}

impl Ipv4Address {
    ghost use Rattle.std.specs.Prelude.{◌≡◌};
    ghost use Rattle.net_wire.specs.Unicast.{is_unicast, is_multicast};

    /// Whether the address is that of one host.
    pub fn is_unicast(self) -> bool
        ensures { result ≡ is_unicast self }
    {
        self != Ipv4Address::UNSPECIFIED && self != Ipv4Address::BROADCAST && !self.is_multicast()
    }

    /// Whether the address is that of a group of hosts (RFC 1112, section 4).
    fn is_multicast(self) -> bool
        ensures { result ≡ is_multicast self }
    {
        self.0[0] >= 224 && self.0[0] <= 239
    }
}

/// An IPv6 address, in network byte order (RFC 4291, section 2).
#[derive(Clone, Copy, Debug, Default, PartialEq, Eq, Hash, PartialOrd, Ord)]
pub struct Ipv6Address(pub [u8; 16]);

/// An address of either version.
#[derive(Clone, Copy, Debug, PartialEq, Eq, Hash, PartialOrd, Ord)]
pub enum IpAddress {
    Ipv4(Ipv4Address),
    Ipv6(Ipv6Address),
}

impl Default for IpAddress {
    ghost use Rattle.std.specs.Prelude.{◌≡◌, replicate};
    ghost use Rattle.net_wire.specs.declared.address.IpAddress.TheVariants as ip;

    ghost is_default = { λ address. address ≡ ip.Ipv4 (record { 0 = replicate 4 0 }) };

    fn default() -> IpAddress {
        IpAddress::Ipv4(Ipv4Address::UNSPECIFIED)
    }
}

impl IpAddress {
    ghost use Rattle.std.specs.Prelude.{◌≡◌};
    ghost use Rattle.net_wire.specs.IpAddress.{is_unspecified};

    /// Whether this is no station's address: 0.0.0.0 (RFC 1122, section 3.2.1.3) or `::` (RFC 4291, section
    /// 2.5.2).
    pub fn is_unspecified(&self) -> bool
        ensures { result ≡ is_unspecified self.now }
    {
        match self {
            IpAddress::Ipv4(address) => *address == Ipv4Address::default(),
            IpAddress::Ipv6(address) => *address == Ipv6Address::default(),
        }
    }
}

/// An IPv4 address and the length of its network's prefix in bits (RFC 4632, section 3.1).
#[derive(Clone, Copy, Debug, Default, PartialEq, Eq, Hash, PartialOrd, Ord)]
pub struct Ipv4Cidr {
    pub address: Ipv4Address,
    pub prefix_len: u8,
}
