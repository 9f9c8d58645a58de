//! `net_wire`: a filter of DHCP replies, and a station that answers for its address.
ghost use Rattle.std.specs.Prelude.{◌≡◌};
ghost use Rattle.net_wire.specs.Arp.{arp_frame_bytes, arriving_arp};
ghost use Rattle.net_wire.specs.Arrival.{arriving_datagram};
ghost use Rattle.uses.specs.Arriving.{is_dhcp_reply, asks_for, answer_to, reply_to};

use net_wire::arp::{REPLY, REQUEST};
use net_wire::{
    ArpRepr, EthernetAddress, EthernetProtocol, EthernetRepr, Ipv4Address, Sources, arp_frame,
    arp_of, datagram_of,
};

/// The port of DHCP servers (RFC 2131, section 4.1).
const SERVER_PORT: u16 = 67;

/// The port of DHCP clients.
const CLIENT_PORT: u16 = 68;

/// Whether a frame carries a datagram of a DHCP server to a client at a station.
pub fn is_dhcp_reply(frame: &[u8], hardware: EthernetAddress) -> bool
    ensures value { result ≡ is_dhcp_reply (arriving_datagram hardware frame.now) }
{
    match datagram_of(frame, hardware, Sources::Unicast) {
        Some(datagram) => datagram.src_port == SERVER_PORT && datagram.dst_port == CLIENT_PORT,
        None => false,
    }
}

/// The frame by which a station answers who has its address, if a frame asks that.
pub fn arp_answer(frame: &[u8], hardware: EthernetAddress, address: Ipv4Address) -> Option<[u8; 42]>
    ensures value { result ≡ answer_to hardware address (arriving_arp hardware frame.now) }
{
    match arp_of(frame, hardware) {
        Some(arp) if asks_for(&arp, address) => Some(reply_frame(&arp, hardware)),
        _ => None,
    }
}

fn asks_for(arp: &ArpRepr, address: Ipv4Address) -> bool
    ensures { result ≡ asks_for address arp.now }
{
    arp.operation == REQUEST && arp.target_protocol_addr == address
}

fn reply_frame(request: &ArpRepr, hardware: EthernetAddress) -> [u8; 42]
    ensures { result
        ≡ arp_frame_bytes hardware request.now.source_hardware_addr (reply_to hardware request.now) }
{
    let eth = EthernetRepr {
        src_addr: hardware,
        dst_addr: request.source_hardware_addr,
        ethertype: EthernetProtocol::Arp,
    };
    let reply = ArpRepr {
        operation: REPLY,
        source_hardware_addr: hardware,
        source_protocol_addr: request.target_protocol_addr,
        target_hardware_addr: request.source_hardware_addr,
        target_protocol_addr: request.source_protocol_addr,
    };
    let mut frame = [0; 42];
    arp_frame(&eth, &reply, &mut frame);
    frame
}
