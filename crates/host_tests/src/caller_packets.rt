//! The callers of `uses` that write, read and print packets, on packets from outside.
use ipsec_wire::{ah, esp};
use net_wire::{EthernetAddress, Instant, IpProtocol, Ipv4Address};
use phy_layers::{FaultInjector, FuzzInjector, Fuzzer, Medium, MemoryDevice, Tracer, TracerPacket};
use std::test::Fail;
use uses::{arriving, ipsec, layers, printing};

#[test]
fn headers_of_ipsec_are_written_and_read(rt: HostRuntime) -> Result<(), Fail> {
    let icv = [
        0x27, 0xcf, 0xc0, 0xa5, 0xe4, 0x3d, 0x69, 0xb3, 0x72, 0x8e, 0xc5, 0xb0,
    ];
    let repr = ah::Repr::new(IpProtocol::IpSecEsp, 0x8179_b705, 1, &icv);
    let mut bytes = [0xff; 30];
    assert_eq!(rt;
        ipsec::written_authentication_header(&repr, &mut bytes)?,
        repr
    );
    let repr = esp::Repr::new(0xfb51_28a6, 2);
    let mut bytes = [0xff; 8];
    assert_eq!(rt; ipsec::written_security_payload(&repr, &mut bytes)?, repr);
    Ok(())
}

#[test]
fn a_frame_is_printed_behind_an_arrow(rt: HostRuntime) -> Result<(), Fail> {
    let frame = [5, 4, 3, 2, 1, 0, 0, 1, 2, 3, 4, 5, 0, 0];
    let text = printing::text_of_frame(rt.alloc(), &frame)?;
    let want = "<- EthernetII src=00-01-02-03-04-05 dst=05-04-03-02-01-00 type=0x0000";
    assert_eq!(rt; text.as_str(), want);
    Ok(())
}

/// Turns the lowest bit of each byte.
#[derive(Debug, Drop)]
struct TurnsBits;

impl Fuzzer for TurnsBits {
    ghost use Rattle.std.specs.Prelude.{⊤};

    ghost fuzzed = { λ _ _ _ _. ⊤ };

    fn fuzz_packet(&mut self, packet_data: &mut [u8]) {
        for byte in packet_data.iter_mut() {
            *byte ^= 1;
        }
    }
}

/// Three bytes from port 67 of 192.168.1.1 to port 68 of all hosts, with sums worked out by hand.
const REPLY: [u8; 45] = [
    2, 2, 2, 2, 2, 2, 4, 4, 4, 4, 4, 4, 0x08, 0x00, // Ethernet
    0x45, 0x00, 0x00, 0x1f, 0x00, 0x00, 0x00, 0x00, 0x40, 0x11, 0xb9, 0x25, // IPv4
    0xc0, 0xa8, 0x01, 0x01, 0xff, 0xff, 0xff, 0xff, //
    0x00, 0x43, 0x00, 0x44, 0x00, 0x0b, 0xc6, 0xeb, 0xaa, 0xbb, 0xcc, // UDP
];

/// 192.168.1.1 asks all stations for 192.168.1.42.
const WHO_HAS: [u8; 42] = [
    0xff, 0xff, 0xff, 0xff, 0xff, 0xff, 4, 4, 4, 4, 4, 4, 0x08, 0x06, // Ethernet
    0x00, 0x01, 0x08, 0x00, 0x06, 0x04, 0x00, 0x01, // Ethernet, IPv4, 6, 4, request
    4, 4, 4, 4, 4, 4, 192, 168, 1, 1, // sender
    0, 0, 0, 0, 0, 0, 192, 168, 1, 42, // target
];

/// 192.168.1.42 is at 02:02:02:02:02:02.
const IS_AT: [u8; 42] = [
    4, 4, 4, 4, 4, 4, 2, 2, 2, 2, 2, 2, 0x08, 0x06, // Ethernet
    0x00, 0x01, 0x08, 0x00, 0x06, 0x04, 0x00, 0x02, // Ethernet, IPv4, 6, 4, reply
    2, 2, 2, 2, 2, 2, 192, 168, 1, 42, // sender
    4, 4, 4, 4, 4, 4, 192, 168, 1, 1, // target
];

#[test]
fn a_station_answers_for_its_address(rt: HostRuntime) {
    let station = EthernetAddress([2; 6]);
    assert!(rt; arriving::is_dhcp_reply(&REPLY, station));
    assert!(rt; !arriving::is_dhcp_reply(&WHO_HAS, station));
    for (last, want) in [(42, Some(IS_AT)), (43, None)] {
        let address = Ipv4Address([192, 168, 1, last]);
        assert_eq!(rt; arriving::arp_answer(&WHO_HAS, station, address), want);
    }
}

#[test]
fn a_frame_goes_through_three_layers(rt: HostRuntime) -> Result<(), Fail> {
    let alloc = rt.alloc();
    let device = MemoryDevice::new(
        alloc,
        Medium::Ethernet,
        1500,
        Vec::new(alloc),
        Vec::new(alloc),
    );
    let fuzz = FuzzInjector::new(device, TurnsBits, TurnsBits);
    let mut bench = Tracer::new(
        FaultInjector::new(fuzz, 1),
        |_: Instant, _: &TracerPacket<'_>| {},
    );
    layers::send_through(&mut bench, Instant::ZERO, &[4, 5, 6])?;
    let device = bench.into_inner().into_inner().into_inner();
    assert_eq!(rt; device.sent_frames().len(), 1);
    assert_eq!(rt; device.sent_frames()[0].as_slice(), [5, 4, 7].as_slice());
    Ok(())
}
