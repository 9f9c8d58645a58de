//! Numbers that name what a payload or a field holds.

/// What an Ethernet payload holds (RFC 7042, appendix B).
#[derive(Clone, Copy, Debug, Default, PartialEq, Eq, Hash, PartialOrd, Ord)]
pub struct EtherType(pub u16);

impl EtherType {
    pub const IPV4: EtherType = EtherType(0x0800);

    pub const ARP: EtherType = EtherType(0x0806);

    pub const VLAN_TAGGED_FRAME: EtherType = EtherType(0x8100);

    pub const IPV6: EtherType = EtherType(0x86dd);

    pub const PROVIDER_BRIDGING: EtherType = EtherType(0x88a8);

    pub const MACSEC: EtherType = EtherType(0x88e5);

    pub const VLAN_DOUBLE_TAGGED_FRAME: EtherType = EtherType(0x9100);
}

/// What an IP payload holds (IANA, "Assigned Internet Protocol Numbers"; RFC 5237).
#[derive(Clone, Copy, Debug, Default, PartialEq, Eq, Hash, PartialOrd, Ord)]
pub struct IpNumber(pub u8);

impl IpNumber {
    /// IPv6 hop-by-hop options (RFC 8200, section 4.3).
    pub const IPV6_HEADER_HOP_BY_HOP: IpNumber = IpNumber(0);
    /// ICMP of version 4 (RFC 792).
    pub const ICMP: IpNumber = IpNumber(1);

    pub const TCP: IpNumber = IpNumber(6);

    pub const UDP: IpNumber = IpNumber(17);
    /// An IPv6 routing header (RFC 8200, section 4.4).
    pub const IPV6_ROUTE_HEADER: IpNumber = IpNumber(43);
    /// An IPv6 fragment header (RFC 8200, section 4.5).
    pub const IPV6_FRAGMENTATION_HEADER: IpNumber = IpNumber(44);
    /// An encapsulating security payload (RFC 4303).
    pub const ENCAPSULATING_SECURITY_PAYLOAD: IpNumber = IpNumber(50);
    /// An authentication header (RFC 4302).
    pub const AUTHENTICATION_HEADER: IpNumber = IpNumber(51);
    /// ICMP of version 6 (RFC 4443).
    pub const IPV6_ICMP: IpNumber = IpNumber(58);
    /// IPv6 destination options (RFC 8200, section 4.6).
    pub const IPV6_DESTINATION_OPTIONS: IpNumber = IpNumber(60);
}

/// The kind of hardware that a link runs on (RFC 826; IANA, "ARP Parameters").
#[derive(Clone, Copy, Debug, Default, PartialEq, Eq, Hash, PartialOrd, Ord)]
pub struct ArpHardwareId(pub u16);

impl ArpHardwareId {
    pub const ETHERNET: ArpHardwareId = ArpHardwareId(1);
    /// Frame relay access devices.
    pub const FRAD: ArpHardwareId = ArpHardwareId(770);

    pub const LOOPBACK: ArpHardwareId = ArpHardwareId(772);
    /// Generic routing encapsulation over IPv4.
    pub const IPGRE: ArpHardwareId = ArpHardwareId(778);

    pub const IEEE80211_RADIOTAP: ArpHardwareId = ArpHardwareId(803);
    /// Generic routing encapsulation over IPv6.
    pub const IP6GRE: ArpHardwareId = ArpHardwareId(823);

    pub const NETLINK: ArpHardwareId = ArpHardwareId(824);
}

/// What an ARP packet is for (RFC 826).
#[derive(Clone, Copy, Debug, Default, PartialEq, Eq, Hash, PartialOrd, Ord)]
pub struct ArpOperation(pub u16);

impl ArpOperation {
    pub const REQUEST: ArpOperation = ArpOperation(1);

    pub const REPLY: ArpOperation = ArpOperation(2);
}

impl From<u16> for ArpOperation {
    ghost use Rattle.std.specs.Prelude.{◌≡◌};

    ghost from_gives = { λ number operation. operation ≡ record { 0 = number } };

    fn from(number: u16) -> ArpOperation {
        ArpOperation(number)
    }
}
