//! What the packets of a capture begin with.
ghost use Rattle.std.specs.Prelude.{◌≡◌};

/// The link type of a capture.
#[derive(Debug, Clone, Copy, PartialEq, Eq, Hash, PartialOrd, Ord)]
pub enum PcapLinkType {
    /// An Ethernet II header.
    Ethernet,
    /// An IPv4 or IPv6 header.
    Ip,
    /// An IEEE 802.15.4 header, without the frame check sequence behind the packet.
    Ieee802154WithoutFcs,
    /// What any other number says.
    Unknown(u32),
}

impl From<u32> for PcapLinkType {
    ghost use Rattle.phy_layers.specs.PcapLinkType.{link_type_of};

    ghost from_gives = { λ number link_type. link_type ≡ link_type_of number };

    fn from(number: u32) -> PcapLinkType {
        match number {
            1 => PcapLinkType::Ethernet,
            101 => PcapLinkType::Ip,
            230 => PcapLinkType::Ieee802154WithoutFcs,
            _ => PcapLinkType::Unknown(number),
        }
    }
}

impl From<PcapLinkType> for u32 {
    ghost use Rattle.phy_layers.specs.PcapLinkType.{link_type_number};

    ghost from_gives = { λ link_type number. number ≡ link_type_number link_type };

    fn from(link_type: PcapLinkType) -> u32 {
        match link_type {
            PcapLinkType::Ethernet => 1,
            PcapLinkType::Ip => 101,
            PcapLinkType::Ieee802154WithoutFcs => 230,
            PcapLinkType::Unknown(number) => number,
        }
    }
}
