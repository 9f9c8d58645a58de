//! What a frame brings, whatever host it comes to.
ghost use Rattle.std.specs.Prelude.{◌≡◌, ◌≤◌, length, IsTrue};
ghost use Rattle.net_wire.specs.Arrival.{is_for, is_packet, ip_header_len, total_len, udp_len, has_udp};
ghost use Rattle.frame_verdict.specs.Brought.{brought_by, brought_by_packet};
ghost use Rattle.frame_verdict.specs.BroughtValue.{brought_value, otherwise};

use crate::{Reason, Verdict};
use net_wire::{Datagram, EthernetAddress, Ipv4Address, Sources, arp_of, datagram_of};
use wire_base::checksum::sum_words;
use wire_base::number::{read_array, read_be16};

/// Whether a frame goes to a station or to a group.
fn is_for(frame: &[u8], hardware: EthernetAddress) -> bool
    requires { 6 ≤ length frame.now }
    ensures { result ≡ is_for hardware frame.now }
{
    let destination = EthernetAddress(read_array(frame, 0));
    destination == hardware || destination.is_group()
}

/// The bytes of an IPv4 header.
fn ip_header_len(packet: &[u8]) -> usize
    requires { 20 ≤ length packet.now }
    ensures { result ≡ ip_header_len packet.now }
{
    usize::from(packet[0] % 16) * 4
}

/// Whether an IPv4 packet is there as a whole.
fn is_packet(packet: &[u8]) -> bool
    ensures value { result ≡ is_packet packet.now }
    ensures len { IsTrue result → 20 ≤ length packet.now }
    ensures header { IsTrue result → ip_header_len packet.now ≤ total_len packet.now }
    ensures total { IsTrue result → total_len packet.now ≤ length packet.now }
{
    if packet.len() < 20 {
        return false;
    }
    let header_len = ip_header_len(packet);
    let total_len = usize::from(read_be16(packet, 2));
    packet[0] / 16 == 4 && 20 <= header_len && header_len <= total_len && total_len <= packet.len()
}

/// Whether a UDP header is there, and as many bytes as its length says.
fn has_udp(body: &[u8]) -> bool
    ensures { result ≡ has_udp body.now }
{
    if body.len() < 8 {
        return false;
    }
    let len = usize::from(read_be16(body, 4));
    8 <= len && len <= body.len()
}

/// What becomes of a packet that carries no datagram.
fn packet_verdict(packet: &[u8]) -> Verdict
    ensures { result ≡ otherwise (brought_by_packet packet.now) }
{
    if !is_packet(packet) {
        return Verdict::Ignored(Reason::Cut);
    }
    let header_len = ip_header_len(packet);
    if sum_words(&packet[..header_len]) % 65535 != 0 {
        return Verdict::Ignored(Reason::HeaderSum);
    }
    if read_be16(packet, 6) % 0x4000 != 0 {
        return Verdict::Ignored(Reason::Fragment);
    }
    if !Ipv4Address(read_array(packet, 12)).is_unicast() {
        return Verdict::Ignored(Reason::Source);
    }
    if packet[9] != 17 {
        return Verdict::Ignored(Reason::Protocol);
    }
    if !has_udp(&packet[header_len..usize::from(read_be16(packet, 2))]) {
        return Verdict::Ignored(Reason::Udp);
    }
    Verdict::Ignored(Reason::UdpSum)
}

/// What becomes of a frame that brings no datagram.
fn frame_verdict(frame: &[u8], hardware: EthernetAddress) -> Verdict
    ensures { result ≡ otherwise (brought_by hardware frame.now) }
{
    if frame.len() < 14 {
        return Verdict::Ignored(Reason::Short);
    }
    if !is_for(frame, hardware) {
        return Verdict::Ignored(Reason::Station);
    }
    match read_be16(frame, 12) {
        0x0806 => match arp_of(frame, hardware) {
            Some(told) => Verdict::Arp {
                address: told.source_protocol_addr,
                hardware: told.source_hardware_addr,
            },
            None => Verdict::Ignored(Reason::Arp),
        },
        0x0800 => {
            let (_, packet) = frame.split_at(14);
            packet_verdict(packet)
        }
        _ => Verdict::Ignored(Reason::EtherType),
    }
}

/// The datagram that a frame brings to a station, or what becomes of a frame without one.
pub fn brought(frame: &[u8], hardware: EthernetAddress) -> Result<Datagram<'_>, Verdict>
    ensures value { brought_value result ≡ brought_by hardware frame.entry.now }
{
    match datagram_of(frame, hardware, Sources::Unicast) {
        Some(datagram) => Ok(datagram),
        None => Err(frame_verdict(frame, hardware)),
    }
}
