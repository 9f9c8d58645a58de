//! A station of the link.

use net_wire::EthernetAddress;

/// A station of the link, as its last ARP packet told.
#[derive(Clone, Copy, Debug, PartialEq, Eq)]
pub struct Neighbor {
    pub hardware: EthernetAddress,
    /// When it told so, in microseconds.
    pub since: u64,
}
