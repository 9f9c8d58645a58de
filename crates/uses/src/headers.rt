//! `ether_link` and `ether_ip`: what a filter reads off a frame.
ghost use Rattle.std.specs.Prelude.{◌≡◌, ◌<◌, length, IfSome, IsNone, ◌↔◌};
ghost use Rattle.wire_base.specs.Bytes.{be16_at};

use ether_ip::UdpSlice;
use ether_link::Ethernet2Slice;

/// The ether type of a frame, or none where it is too short for an Ethernet header.
pub fn ether_type_of(frame: &[u8]) -> Option<u16>
    ensures found { IfSome result (λ number. number ≡ be16_at frame.now 12) }
    ensures empty { IsNone result ↔ (length frame.now < 14) }
{
    match Ethernet2Slice::from_slice_without_fcs(frame) {
        Ok(ethernet) => Some(ethernet.ether_type().0),
        Err(_) => None,
    }
}

/// The port that a UDP datagram goes to, or none where it is too short for its header (RFC 768).
pub fn destination_port(datagram: &[u8]) -> Option<u16>
    ensures found { IfSome result (λ port. port ≡ be16_at datagram.now 2) }
    ensures empty { IsNone result ↔ (length datagram.now < 8) }
{
    match UdpSlice::from_slice_lax(datagram) {
        Ok(udp) => Some(udp.destination_port()),
        Err(_) => None,
    }
}
