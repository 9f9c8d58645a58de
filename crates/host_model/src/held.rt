//! What a host holds of a lease.

use net_wire::{Ipv4Address, Ipv4Cidr};

/// By what a host finds the way of a datagram, and answers ARP requests.
#[derive(Clone, Copy, Debug, PartialEq, Eq)]
pub struct Held {
    /// The leased address and its network's prefix.
    pub address: Ipv4Cidr,
    pub router: Option<Ipv4Address>,
}
