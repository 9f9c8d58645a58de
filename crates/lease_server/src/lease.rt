//! What a server keeps of a client.
use net_wire::{EthernetAddress, Instant, Ipv4Address};

/// An address that a client holds, or held. A server keeps it in a place that its user lends.
#[derive(Clone, Copy, Debug, PartialEq, Eq)]
pub struct Lease {
    pub client: EthernetAddress,
    pub address: Ipv4Address,
    /// From here on the address is not held.
    pub until: Instant,
}
