//! The wire formats of the host: time, addresses, and the writers of frames and DHCP messages.
#![tactic(auto)]

pub mod address;
pub mod arp;
pub mod arrival;
pub mod dhcp;
pub mod dns;
pub mod error;
pub mod ethernet;
pub mod ip;
pub mod ipv4;
pub mod laws;
pub mod pretty;
pub mod protocol;
pub mod time;
pub mod udp;

pub use address::{EthernetAddress, IpAddress, Ipv4Address, Ipv4Cidr, Ipv6Address};
pub use arp::{ArpRepr, arp_frame, arp_of};
pub use arrival::{Datagram, Sources, datagram_of};
pub use dhcp::{DhcpMessageType, DhcpOption, DhcpRepr};
pub use error::{Context, EmitError, Error, Malformed, NoMemory};
pub use ethernet::EthernetRepr;
pub use ip::IpRepr;
pub use ipv4::Ipv4Repr;
pub use protocol::{EthernetProtocol, IpProtocol};
pub use time::{Duration, Instant};
pub use udp::{UdpRepr, udp_frame};
