//! The callers of `uses` on bytes from outside.
use dhcp_client::Socket;
use net_wire::{Context, EthernetAddress, Instant, Ipv4Address, Ipv4Cidr};
use script_reader::EventReader;
use uses::{dissection, headers, leases, scripts, sums};
use wire_base::number::append;

/// The IPv4 header of a datagram from 192.168.0.1 to 192.168.0.199.
const HEADER: [u8; 20] = [
    0x45, 0x00, 0x00, 0x73, 0x00, 0x00, 0x40, 0x00, 0x40, 0x11, 0xb8, 0x61, 0xc0, 0xa8, 0x00, 0x01,
    0xc0, 0xa8, 0x00, 0xc7,
];

#[test]
fn a_headers_checksum_is_tried_and_written(rt: HostRuntime) {
    let mut without = HEADER;
    without[10] = 0;
    without[11] = 0;
    assert!(rt;
        sums::is_undamaged(&HEADER)
            && sums::total_length(&HEADER) == 115
            && !sums::is_undamaged(&without)
            && sums::header_checksum(&without) == 0xb861
    );
}

#[test]
fn a_frame_names_what_it_carries(rt: HostRuntime) {
    let frame = [2, 0, 0, 0, 0, 1, 2, 0, 0, 0, 0, 2, 0x08, 0x06];
    let cut = headers::ether_type_of(&frame[..13]);
    assert!(rt; headers::ether_type_of(&frame) == Some(0x0806) && cut == None);
}

#[test]
fn a_datagram_names_its_port(rt: HostRuntime) {
    let datagram = [0x30, 0x39, 0x00, 0x35, 0x00, 0x08, 0x00, 0x00];
    let cut = headers::destination_port(&datagram[..7]);
    assert!(rt; headers::destination_port(&datagram) == Some(53) && cut == None);
}

/// A frame of zeros with an ARP request, but for its types, lengths and operation.
const ARP_FRAME: [u8; 42] = [
    0, 0, 0, 0, 0, 0, 0, 0, 0, 0, 0, 0, 0x08, 0x06, // Ethernet
    0x00, 0x01, 0x08, 0x00, 0x06, 0x04, 0x00, 0x01, // Ethernet, IPv4, 6, 4, request
    0, 0, 0, 0, 0, 0, 0, 0, 0, 0, 0, 0, 0, 0, 0, 0, 0, 0, 0, 0,
];

#[test]
fn a_cut_frame_is_not_dissected(rt: HostRuntime) {
    let cut = dissection::is_dissected(&ARP_FRAME[..41]);
    assert!(rt; dissection::is_dissected(&ARP_FRAME) && !cut);
}

#[test]
fn a_script_begins_with_its_first_event(rt: HostRuntime) {
    let alloc = rt.alloc();
    let Ok(script) = Vec::from_slice(alloc, b"\x02\x00\x00\x00\x00\x00\x98\x96\x80") else {
        return;
    };
    let (Ok(mut reader), Ok(mut other)) = (EventReader::new(alloc), EventReader::new(alloc)) else {
        return;
    };
    let time = scripts::first_time(&mut reader, script);
    let none = scripts::first_time(&mut other, Vec::new(alloc));
    assert!(rt; time == Ok(Some(Instant::from_micros(10_000_000))) && none == Ok(None));
}

/// The server 192.168.1.1, a mask of 24 bits, 1000 seconds, and the end.
const OPTIONS: [u8; 19] = [
    54, 4, 192, 168, 1, 1, 1, 4, 255, 255, 255, 0, 51, 4, 0, 0, 3, 232, 255,
];

/// An offer, and but for its type an acknowledgement, of 192.168.1.42/24 for 1000 seconds by 192.168.1.1.
fn reply(message_type: u8) -> [u8; 300] {
    let mut message = [0; 300];
    append(&mut message, 0, &[2, 1, 6, 0, 0, 0, 0, 1]);
    append(&mut message, 16, &[192, 168, 1, 42]);
    append(&mut message, 28, &[2; 6]);
    append(
        &mut message,
        236,
        &[0x63, 0x82, 0x53, 0x63, 53, 1, message_type],
    );
    append(&mut message, 243, &OPTIONS);
    message
}

#[test]
fn a_host_holds_what_is_leased(rt: HostRuntime) {
    let cx = Context {
        now: Instant::ZERO,
        hardware_addr: EthernetAddress([2; 6]),
        ip_mtu: 1500,
    };
    let server = Ipv4Address([192, 168, 1, 1]);
    let mut socket = Socket::new();
    let mut held = None;
    socket.process(&cx, server, &reply(2));
    socket.process(&cx, server, &reply(5));
    leases::follow(&mut socket, &mut held);
    let leased = Ipv4Cidr {
        address: Ipv4Address([192, 168, 1, 42]),
        prefix_len: 24,
    };
    let is_held = held == Some(leased);
    leases::give_up(&mut socket, &mut held);
    assert!(rt; is_held && held == None && socket.poll_at() == Instant::ZERO);
}
