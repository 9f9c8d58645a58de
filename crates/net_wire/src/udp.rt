//! UDP datagrams in IPv4 in Ethernet frames (RFC 768).
ghost use Rattle.std.specs.Prelude.{◌≡◌, ◌+◌, ◌≤◌, ◌<◌, ◌^◌, length};
ghost use Rattle.net_wire.specs.Datagram.{udp_bytes, pseudo_header, datagram_of, IsSentFrame};
ghost use Rattle.net_wire.specs.declared.protocol.EthernetProtocol.{EthernetProtocol};
ghost use Rattle.net_wire.specs.declared.protocol.IpProtocol.{IpProtocol};

use crate::{EthernetProtocol, EthernetRepr, IpProtocol, Ipv4Address, Ipv4Repr};
use wire_base::checksum::{sum_words, transmitted_checksum_of};
use wire_base::number::append;

/// The ports of a UDP header.
#[derive(Clone, Copy, Debug, PartialEq, Eq)]
pub struct UdpRepr {
    pub src_port: u16,
    pub dst_port: u16,
}

/// Writes the frame that carries a payload. Its UDP checksum is always there.
pub fn udp_frame(eth: &EthernetRepr, ip: &Ipv4Repr, udp: &UdpRepr, payload: &[u8], into: &mut [u8])
    requires room { length into.old ≡ length payload.now + 42 }
    requires payload_len { ip.now.payload_len ≡ length payload.now + 8 }
    requires size { ip.now.payload_len ≤ 65515 }
    requires ethertype { eth.now.ethertype ≡ EthernetProtocol.Ipv4 }
    requires next_header { ip.now.next_header ≡ IpProtocol.Udp }
    ensures { IsSentFrame eth.now.src_addr eth.now.dst_addr ip.now.hop_limit
        (datagram_of ip.now udp.now payload.now) into.new }
{
    let len = payload.len() as u16 + 8;
    let sum = sum_words(&pseudo_header(ip.src_addr, ip.dst_addr, len))
        + sum_words(&header(udp, len, 0))
        + sum_words(payload);
    eth.emit(into);
    let at = append(into, 14, &ip.header());
    let at = append(into, at, &header(udp, len, transmitted_checksum_of(sum)));
    append(into, at, payload);
}

/// The header of a datagram of so many bytes, header included.
#[tactic(auto, unfolding(crate::specs::Datagram::udp_bytes))]
fn header(udp: &UdpRepr, len: u16, checksum: u16) -> [u8; 8]
    ensures { result ≡ udp_bytes udp.now.src_port udp.now.dst_port len checksum }
{
    let [src_high, src_low] = udp.src_port.to_be_bytes();
    let [dst_high, dst_low] = udp.dst_port.to_be_bytes();
    let [len_high, len_low] = len.to_be_bytes();
    let [sum_high, sum_low] = checksum.to_be_bytes();
    [
        src_high, src_low, dst_high, dst_low, len_high, len_low, sum_high, sum_low,
    ]
}

/// What the checksum covers besides a datagram of so many bytes.
#[tactic(auto, unfolding(crate::specs::Datagram::pseudo_header))]
pub(crate) fn pseudo_header(source: Ipv4Address, destination: Ipv4Address, len: u16) -> [u8; 12]
    ensures { result ≡ pseudo_header source destination len }
{
    let mut bytes = [0; 12];
    let at = append(&mut bytes, 0, &source.0);
    let at = append(&mut bytes, at, &destination.0);
    let at = append(&mut bytes, at, &[0, 17]);
    append(&mut bytes, at, &len.to_be_bytes());
    bytes
}
