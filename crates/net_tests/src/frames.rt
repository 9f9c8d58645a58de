//! Frames, sums and times against values from outside.
ghost use Rattle.std.specs.Prelude.{◌≡◌, ◌+◌, ◌≤◌, length, map};
ghost use Rattle.std.specs.List.{AllByRecursion};
ghost use Rattle.net_wire.specs.DhcpMessage.{message_of, option_value};
ghost use Rattle.net_wire.specs.DhcpBytes.{message_bytes, address_option, additional_bytes, IsWritable, IsWritableOption};

use net_wire::{
    DhcpMessageType, DhcpOption, DhcpRepr, Duration, EthernetAddress, EthernetProtocol,
    EthernetRepr, Instant, IpProtocol, Ipv4Address, Ipv4Repr, UdpRepr, udp_frame,
};
use wire_base::checksum::{checksum_of, sum_words, transmitted_checksum_of};
use wire_base::number::append;

const HARDWARE_ADDRESS: EthernetAddress = EthernetAddress([2; 6]);

/// The headers in front of a discover of 262 bytes, worked out by hand.
const HEADERS: [u8; 42] = [
    0xff, 0xff, 0xff, 0xff, 0xff, 0xff, 2, 2, 2, 2, 2, 2, 0x08, 0x00, // Ethernet
    0x45, 0x00, 0x01, 0x22, 0x00, 0x00, 0x40, 0x00, 0x40, 0x11, 0x39, 0xcc, // IPv4
    0x00, 0x00, 0x00, 0x00, 0xff, 0xff, 0xff, 0xff, //
    0x00, 0x44, 0x00, 0x43, 0x01, 0x0e, 0x58, 0x55, // UDP
];

/// The fixed part of a discover, up to its client hardware address.
const FIXED_PART: [u8; 34] = [
    1, 1, 6, 0, 0x00, 0x04, 0x20, 0x21, 0, 0, 0, 0, // op to flags
    0, 0, 0, 0, 0, 0, 0, 0, 0, 0, 0, 0, 0, 0, 0, 0, // addresses
    2, 2, 2, 2, 2, 2,
];

/// The magic cookie and the options of a discover.
const OPTIONS: [u8; 26] = [
    0x63, 0x82, 0x53, 0x63, 53, 1, 1, 61, 7, 1, 2, 2, 2, 2, 2, 2, 57, 2, 0x05, 0x98, 55, 3, 1, 3,
    6, 255,
];

/// The frame of a discover, zero where no part stands.
fn discover_frame() -> [u8; 304] {
    let mut frame = [0; 304];
    append(&mut frame, 0, &HEADERS);
    append(&mut frame, 42, &FIXED_PART);
    append(&mut frame, 278, &OPTIONS);
    frame
}

/// What a client that has no address sends, and adds to a request.
#[tactic(auto, unfolding(net_wire::specs::DhcpBytes::message_bytes, net_wire::specs::DhcpBytes::header_bytes, net_wire::specs::DhcpBytes::options_bytes))]
fn message<'a>(
    message_type: DhcpMessageType,
    server_identifier: Option<Ipv4Address>,
    requested_ip: Option<Ipv4Address>,
    additional_options: &'a [DhcpOption<'a>],
) -> DhcpRepr<'a>
    requires options { AllByRecursion IsWritableOption (map option_value additional_options.now) }
    requires size { length (address_option 54 server_identifier) + length (address_option 50 requested_ip)
        + length (additional_bytes (map option_value additional_options.now)) ≤ 1000 }
    ensures writable { IsWritable (message_of result) }
    ensures len { length (message_bytes (message_of result))
        ≡ 262 + length (address_option 54 server_identifier) + length (address_option 50 requested_ip)
        + length (additional_bytes (map option_value additional_options.entry.now)) }
{
    DhcpRepr {
        message_type,
        transaction_id: 0x0004_2021,
        secs: 0,
        client_hardware_address: HARDWARE_ADDRESS,
        client_ip: Ipv4Address::UNSPECIFIED,
        your_ip: Ipv4Address::UNSPECIFIED,
        server_ip: Ipv4Address::UNSPECIFIED,
        router: None,
        subnet_mask: None,
        relay_agent_ip: Ipv4Address::UNSPECIFIED,
        broadcast: false,
        requested_ip,
        client_identifier: Some(HARDWARE_ADDRESS),
        server_identifier,
        parameter_request_list: Some(&[1, 3, 6]),
        dns_servers: None,
        max_size: Some(1432),
        lease_duration: None,
        renew_duration: None,
        rebind_duration: None,
        additional_options,
    }
}

#[test]
fn a_discover_is_broadcast(rt: HostRuntime) {
    let discover = message(DhcpMessageType::Discover, None, None, &[]);
    assert!(rt; discover.buffer_len() == 262);
    let mut message = [0; 262];
    discover.emit(&mut message);
    let eth = EthernetRepr {
        src_addr: HARDWARE_ADDRESS,
        dst_addr: EthernetAddress::BROADCAST,
        ethertype: EthernetProtocol::Ipv4,
    };
    let ip = Ipv4Repr {
        src_addr: Ipv4Address::UNSPECIFIED,
        dst_addr: Ipv4Address::BROADCAST,
        next_header: IpProtocol::Udp,
        payload_len: 270,
        hop_limit: 64,
    };
    let udp = UdpRepr {
        src_port: 68,
        dst_port: 67,
    };
    let mut frame = [0; 304];
    udp_frame(&eth, &ip, &udp, &message, &mut frame);
    assert!(rt; frame == discover_frame());
}

#[test]
fn a_request_names_the_server_and_the_address(rt: HostRuntime) {
    let server = Ipv4Address([192, 168, 1, 1]);
    let asked = Ipv4Address([192, 168, 1, 42]);
    let request = message(DhcpMessageType::Request, Some(server), Some(asked), &[]);
    assert!(rt; request.buffer_len() == 274);
    let mut message = [0; 274];
    request.emit(&mut message);
    assert!(rt; &message[252..264] == &[54, 4, 192, 168, 1, 1, 50, 4, 192, 168, 1, 42][..]);
}

/// The header of a datagram of 115 bytes from 192.168.0.1 to 192.168.0.199.
#[test]
fn a_header_sums_to_zero(rt: HostRuntime) {
    let ip = Ipv4Repr {
        src_addr: Ipv4Address([192, 168, 0, 1]),
        dst_addr: Ipv4Address([192, 168, 0, 199]),
        next_header: IpProtocol::Udp,
        payload_len: 95,
        hop_limit: 64,
    };
    let mut header = [0xaa; 21];
    ip.emit(&mut header);
    let want = [
        0x45, 0x00, 0x00, 0x73, 0x00, 0x00, 0x40, 0x00, 0x40, 0x11, 0xb8, 0x61, 0xc0, 0xa8, 0x00,
        0x01, 0xc0, 0xa8, 0x00, 0xc7, 0xaa,
    ];
    assert!(rt; header == want);
}

/// The example of RFC 1071, section 3.
#[test]
fn words_are_summed(rt: HostRuntime) {
    let sum = sum_words(&[0x00, 0x01, 0xf2, 0x03, 0xf4, 0xf5, 0xf6, 0xf7]);
    assert!(rt;
        sum == 0x2ddf0
            && checksum_of(sum) == 0x220d
            && transmitted_checksum_of(sum) == 0x220d
            && (checksum_of(0xffff), transmitted_checksum_of(0xffff)) == (0, 0xffff)
    );
}

#[test]
fn times_saturate(rt: HostRuntime) {
    let second = Duration::from_secs(1);
    for (instant, want) in [
        (Instant::from_micros(-2_500_000), (-2_500_000, -2, -500_000)),
        (Instant::from_millis(-1500), (-1_500_000, -1, -500_000)),
        (Instant::from_secs(2) + second, (3_000_000, 3, 0)),
        (
            Instant::from_secs(i64::MAX) + second,
            (i64::MAX, 9_223_372_036_854, 775_807),
        ),
        (
            Instant::from_millis(i64::MIN),
            (i64::MIN, -9_223_372_036_854, -775_808),
        ),
    ] {
        assert!(rt; (instant.total_micros(), instant.secs(), instant.micros()) == want);
    }
    for (duration, want) in [
        (Instant::from_secs(-2) - Instant::from_secs(3), 5_000_000),
        (Instant::from_secs(3) - Instant::from_secs(-2), 5_000_000),
        (
            Instant::from_micros(i64::MIN) - Instant::from_micros(i64::MAX),
            u64::MAX,
        ),
        (Duration::from_secs(u64::MAX), u64::MAX),
        (Duration::from_millis(7) + Duration::MAX, u64::MAX),
        (Duration::MAX - Duration::MAX, 0),
        (Duration::MAX * 2, u64::MAX),
        (second / 3, 333_333),
        (second << 3, 8_000_000),
        (Duration::from_micros(1) << 64, u64::MAX),
        (Duration::from_micros(0) << 64, 0),
    ] {
        assert!(rt; duration.total_micros() == want);
    }
}
