//! ARP packets of Ethernet and IPv4 (RFC 826).
ghost use Rattle.std.specs.Prelude.{◌≡◌, ◌≤◌, length, take, drop, IsTrue};
ghost use Rattle.net_wire.specs.Arp.{arp_bytes, arp_frame_bytes, arp_at, has_arp, is_from_host, arriving_arp};
ghost use Rattle.net_wire.specs.declared.protocol.EthernetProtocol.{EthernetProtocol};

use crate::arrival::is_for;
use crate::{EthernetAddress, EthernetProtocol, EthernetRepr, Ipv4Address};
use wire_base::number::{append, read_array, read_be16};

/// The operation of a request (`ares_op$REQUEST` of RFC 826, section "Definitions").
pub const REQUEST: u16 = 1;

/// The operation of a reply (`ares_op$REPLY` there).
pub const REPLY: u16 = 2;

/// What begins a packet: hardware type 1, protocol 0800, and the sizes of their addresses.
const SPACES: [u8; 6] = [0, 1, 0x08, 0, 6, 4];

/// An ARP packet.
#[derive(Clone, Copy, Debug, PartialEq, Eq)]
pub struct ArpRepr {
    /// 1 asks for the hardware address of the target, 2 answers.
    pub operation: u16,
    pub source_hardware_addr: EthernetAddress,
    pub source_protocol_addr: Ipv4Address,
    pub target_hardware_addr: EthernetAddress,
    pub target_protocol_addr: Ipv4Address,
}

impl ArpRepr {
    /// Writes the 28 bytes of the packet.
    pub fn emit(&self, into: &mut [u8])
        requires { 28 ≤ length into.old }
        ensures front { take 28 into.new ≡ arp_bytes self.now }
        ensures rest { drop 28 into.new ≡ drop 28 into.old }
    {
        append(into, 0, &self.bytes());
    }

    #[tactic(auto, unfolding(crate::specs::Arp::arp_bytes))]
    fn bytes(&self) -> [u8; 28]
        ensures { result ≡ arp_bytes self.now }
    {
        let mut bytes = [0; 28];
        let at = append(&mut bytes, 0, &SPACES);
        let at = append(&mut bytes, at, &self.operation.to_be_bytes());
        let at = append(&mut bytes, at, &self.source_hardware_addr.0);
        let at = append(&mut bytes, at, &self.source_protocol_addr.0);
        let at = append(&mut bytes, at, &self.target_hardware_addr.0);
        append(&mut bytes, at, &self.target_protocol_addr.0);
        bytes
    }
}

/// Writes the frame of 42 bytes that a packet is sent in, without padding.
#[tactic(auto, unfolding(crate::specs::Arp::arp_frame_bytes))]
pub fn arp_frame(eth: &EthernetRepr, arp: &ArpRepr, into: &mut [u8])
    requires room { length into.old ≡ 42 }
    requires ethertype { eth.now.ethertype ≡ EthernetProtocol.Arp }
    ensures { into.new ≡ arp_frame_bytes eth.now.src_addr eth.now.dst_addr arp.now }
{
    eth.emit(into);
    append(into, 14, &arp.bytes());
}

/// The packet behind the Ethernet header of a frame.
fn arp_at(frame: &[u8]) -> ArpRepr
    requires { 42 ≤ length frame.now }
    ensures { result ≡ arp_at frame.now }
{
    ArpRepr {
        operation: read_be16(frame, 20),
        source_hardware_addr: EthernetAddress(read_array(frame, 22)),
        source_protocol_addr: Ipv4Address(read_array(frame, 28)),
        target_hardware_addr: EthernetAddress(read_array(frame, 32)),
        target_protocol_addr: Ipv4Address(read_array(frame, 38)),
    }
}

/// Whether a whole packet stands behind the Ethernet header.
fn has_arp(frame: &[u8]) -> bool
    ensures value { result ≡ has_arp frame.now }
    ensures within { IsTrue result → 42 ≤ length frame.now }
{
    frame.len() >= 42 && read_be16(frame, 12) == 0x0806 && read_array(frame, 14) == SPACES
}

/// Whether one station sent a request or a reply for one host.
fn is_from_host(arp: &ArpRepr) -> bool
    ensures { result ≡ is_from_host arp.now }
{
    (arp.operation == REQUEST || arp.operation == REPLY)
        && !arp.source_hardware_addr.is_group()
        && arp.source_protocol_addr.is_unicast()
}

/// The ARP packet that counts for a station: a request or a reply of one station with the address of one
/// host, in a frame to the station or to a group. Bytes behind the packet are not looked at, nor is the
/// source of the frame.
pub fn arp_of(frame: &[u8], hardware: EthernetAddress) -> Option<ArpRepr>
    ensures { result ≡ arriving_arp hardware frame.now }
{
    if !has_arp(frame) || !is_for(frame, hardware) {
        return None;
    }
    let arp = arp_at(frame);
    if !is_from_host(&arp) {
        return None;
    }
    Some(arp)
}
