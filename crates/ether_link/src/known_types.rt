//! Ether types that name a part.

use crate::EtherType;

/// The ether types that a frame goes on with.
pub static ETHERNET_KNOWN_ETHER_TYPES: &[EtherType] = &[
    EtherType::ARP,
    EtherType::IPV4,
    EtherType::IPV6,
    EtherType::VLAN_TAGGED_FRAME,
    EtherType::PROVIDER_BRIDGING,
    EtherType::VLAN_DOUBLE_TAGGED_FRAME,
    EtherType::MACSEC,
];
