//! The parts of a frame up to the link layer: Ethernet II, VLAN tags, MACsec, Linux cooked captures
//! and ARP, each with one reader that gives the part or the first refusal, and what all parts of a
//! frame have in common: how a part is read as data, and the layouts of parts one behind another.
#![tactic(auto)]

pub mod bounded;
pub mod err;
pub mod known_types;
pub mod laws;
pub mod layout;
pub mod len_source;
pub mod link;
pub mod numbers;

pub use known_types::ETHERNET_KNOWN_ETHER_TYPES;
pub use layout::{PartKind, Place, Stop, Turn};
pub use len_source::LenSource;
pub use link::arp::{ArpPacket, ArpPacketSlice};
pub use link::ethernet2::{Ethernet2Header, Ethernet2Slice};
pub use link::linux_sll::{
    LinuxSllHeader, LinuxSllPayloadSlice, LinuxSllProtocolType, LinuxSllSlice,
};
pub use link::macsec::{MacsecHeader, MacsecHeaderSlice, MacsecPType};
pub use link::payload::{EtherPayloadSlice, MacsecPayloadSlice};
pub use link::vlan::{
    DoubleVlanHeader, DoubleVlanSlice, SingleVlanHeader, SingleVlanSlice, VlanHeader, VlanSlice,
};
pub use link::vlan_id::VlanId;
pub use link::{LinkExtHeader, LinkHeader, LinkSlice};
pub use numbers::{ArpHardwareId, ArpOperation, EtherType, IpNumber};
