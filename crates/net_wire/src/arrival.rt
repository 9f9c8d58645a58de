//! The frames that a station takes off the link, and the UDP datagrams in them.
ghost use Rattle.std.specs.Prelude.{◌≡◌, ◌≤◌, length, option_map, IsTrue};
ghost use Rattle.net_wire.specs.Arrival.{is_for, is_packet, is_udp_packet, has_udp, has_right_sum, has_packet_for};
ghost use Rattle.net_wire.specs.Arrival.{ip_header_len, total_len, udp_len, udp_datagram, packet_datagram, carried_datagram};
ghost use Rattle.net_wire.specs.ArrivalValues.{datagram_value};

use crate::udp::pseudo_header;
use crate::{EthernetAddress, Ipv4Address};
use wire_base::checksum::sum_words;
use wire_base::number::{read_array, read_be16};

/// A UDP datagram and the addresses that it goes between (RFC 768).
#[derive(Clone, Copy, Debug, PartialEq, Eq)]
pub struct Datagram<'a> {
    pub src_addr: Ipv4Address,
    pub dst_addr: Ipv4Address,
    pub src_port: u16,
    pub dst_port: u16,
    /// What stands behind the UDP header, of as many bytes as that says.
    pub payload: &'a [u8],
}

/// Whose datagrams count, by their IPv4 source.
#[derive(Clone, Copy, Debug, PartialEq, Eq)]
pub enum Sources {
    /// Those of one host.
    Unicast,
    /// Those of one host, and those from 0.0.0.0, from which a host sends that has no address yet (RFC 1122,
    /// section 3.2.1.3).
    UnicastOrUnspecified,
}

impl Sources {
    ghost use Rattle.std.specs.Prelude.{◌≡◌};
    ghost use Rattle.net_wire.specs.Arrival.{counts};

    /// Whether a source counts.
    fn counts(self, source: Ipv4Address) -> bool
        ensures { result ≡ counts self source }
    {
        match self {
            Sources::Unicast => source.is_unicast(),
            Sources::UnicastOrUnspecified => {
                source.is_unicast() || source == Ipv4Address::UNSPECIFIED
            }
        }
    }
}

/// Whether a frame goes to a station or to a group.
pub(crate) fn is_for(frame: &[u8], hardware: EthernetAddress) -> bool
    requires { 6 ≤ length frame.now }
    ensures { result ≡ is_for hardware frame.now }
{
    let destination = EthernetAddress(read_array(frame, 0));
    destination == hardware || destination.is_group()
}

/// The bytes of an IPv4 header.
fn ip_header_len(packet: &[u8]) -> usize
    requires { 20 ≤ length packet.now }
    ensures { result ≡ ip_header_len packet.now }
{
    usize::from(packet[0] % 16) * 4
}

/// Whether an IPv4 packet is there as a whole.
fn is_packet(packet: &[u8]) -> bool
    ensures value { result ≡ is_packet packet.now }
    ensures len { IsTrue result → 20 ≤ length packet.now }
    ensures header { IsTrue result → ip_header_len packet.now ≤ total_len packet.now }
    ensures total { IsTrue result → total_len packet.now ≤ length packet.now }
{
    if packet.len() < 20 {
        return false;
    }
    let header_len = ip_header_len(packet);
    let total_len = usize::from(read_be16(packet, 2));
    packet[0] / 16 == 4 && 20 <= header_len && header_len <= total_len && total_len <= packet.len()
}

/// Whether a header has the right sum, and announces a UDP datagram of a source that counts and is no fragment.
fn is_udp_packet(packet: &[u8], sources: Sources) -> bool
    requires len { 20 ≤ length packet.now }
    requires header { ip_header_len packet.now ≤ length packet.now }
    ensures { result ≡ is_udp_packet sources packet.now }
{
    sum_words(&packet[..ip_header_len(packet)]) % 65535 == 0
        && read_be16(packet, 6) % 0x4000 == 0
        && sources.counts(Ipv4Address(read_array(packet, 12)))
        && packet[9] == 17
}

/// Whether a UDP header is there, and as many bytes as its length says.
fn has_udp(body: &[u8]) -> bool
    ensures value { result ≡ has_udp body.now }
    ensures head { IsTrue result → 8 ≤ length body.now }
    ensures header { IsTrue result → 8 ≤ udp_len body.now }
    ensures len { IsTrue result → udp_len body.now ≤ length body.now }
{
    if body.len() < 8 {
        return false;
    }
    let len = usize::from(read_be16(body, 4));
    8 <= len && len <= body.len()
}

/// Whether the sum of a UDP datagram is right, or there is none.
fn has_right_sum(source: Ipv4Address, destination: Ipv4Address, body: &[u8]) -> bool
    requires head { 8 ≤ length body.now }
    requires len { udp_len body.now ≤ length body.now }
    ensures { result ≡ has_right_sum source destination body.now }
{
    if read_be16(body, 6) == 0 {
        return true;
    }
    let len = read_be16(body, 4);
    let sum = sum_words(&pseudo_header(source, destination, len))
        + sum_words(&body[..usize::from(len)]);
    sum % 65535 == 0
}

/// The UDP datagram between two addresses.
fn udp_datagram<'a>(
    source: Ipv4Address,
    destination: Ipv4Address,
    body: &'a [u8],
) -> Option<Datagram<'a>>
    ensures { option_map datagram_value result ≡ udp_datagram source destination body.entry.now }
{
    if !has_udp(body) || !has_right_sum(source, destination, body) {
        return None;
    }
    Some(Datagram {
        src_addr: source,
        dst_addr: destination,
        src_port: read_be16(body, 0),
        dst_port: read_be16(body, 2),
        payload: &body[8..usize::from(read_be16(body, 4))],
    })
}

/// The UDP datagram of an IPv4 packet.
fn packet_datagram<'a>(packet: &'a [u8], sources: Sources) -> Option<Datagram<'a>>
    ensures { option_map datagram_value result ≡ packet_datagram sources packet.entry.now }
{
    if !is_packet(packet) || !is_udp_packet(packet, sources) {
        return None;
    }
    let body = &packet[ip_header_len(packet)..usize::from(read_be16(packet, 2))];
    let source = Ipv4Address(read_array(packet, 12));
    let destination = Ipv4Address(read_array(packet, 16));
    udp_datagram(source, destination, body)
}

/// Whether what is behind the Ethernet header is said to be IPv4, in a frame to the station or to a group.
fn has_packet_for(frame: &[u8], hardware: EthernetAddress) -> bool
    ensures value { result ≡ has_packet_for hardware frame.now }
    ensures len { IsTrue result → 14 ≤ length frame.now }
{
    frame.len() >= 14 && read_be16(frame, 12) == 0x0800 && is_for(frame, hardware)
}

/// The UDP datagram that a frame carries to a station, if it carries one: in an untagged frame to the station
/// or to a group, an IPv4 packet that is all there, from a source that counts, with a right header sum and no
/// fragment, and UDP right behind its header, with a right sum or none. Bytes behind the packet are not looked
/// at.
pub fn datagram_of(
    frame: &[u8],
    hardware: EthernetAddress,
    sources: Sources,
) -> Option<Datagram<'_>>
    ensures { option_map datagram_value result ≡ carried_datagram sources hardware frame.entry.now }
{
    if !has_packet_for(frame, hardware) {
        return None;
    }
    let (_, packet) = frame.split_at(14);
    packet_datagram(packet, sources)
}
