//! The header of an Ethernet II frame (RFC 894).
ghost use Rattle.std.specs.Prelude.{◌≡◌, ◌≤◌, length, take, drop};
ghost use Rattle.net_wire.specs.Datagram.{ethernet_bytes};
ghost use Rattle.net_wire.specs.Protocol.{ether_type_number};

use crate::{EthernetAddress, EthernetProtocol};
use wire_base::number::append;

/// An Ethernet II header.
#[derive(Clone, Copy, Debug, PartialEq, Eq)]
pub struct EthernetRepr {
    pub src_addr: EthernetAddress,
    pub dst_addr: EthernetAddress,
    pub ethertype: EthernetProtocol,
}

impl EthernetRepr {
    /// Writes the 14 bytes of the header.
    #[tactic(auto, unfolding(crate::specs::Datagram::ethernet_bytes))]
    pub fn emit(&self, into: &mut [u8])
        requires { 14 ≤ length into.old }
        ensures front { take 14 into.new
            ≡ ethernet_bytes self.now.dst_addr self.now.src_addr (ether_type_number self.now.ethertype) }
        ensures rest { drop 14 into.new ≡ drop 14 into.old }
    {
        let at = append(into, 0, &self.dst_addr.0);
        let at = append(into, at, &self.src_addr.0);
        append(into, at, &self.ethertype.number().to_be_bytes());
    }
}
