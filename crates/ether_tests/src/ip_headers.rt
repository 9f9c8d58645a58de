//! IP headers of known packets.

use ether_ip::{Ipv4HeaderSlice, Ipv6Header, Ipv6HeaderSlice, ip_header_len};
use ether_link::IpNumber;
use std::net::Ipv4Addr;
use std::test::Fail;

/// A datagram that is often used to show how the header checksum is worked out: 115 bytes of UDP.
const DATAGRAM: [u8; 20] = [
    0x45, 0x00, 0x00, 0x73, 0x00, 0x00, 0x40, 0x00, 0x40, 0x11, 0xb8, 0x61, //
    0xc0, 0xa8, 0x00, 0x01, 0xc0, 0xa8, 0x00, 0xc7,
];

/// An IGMP report with the option "router alert" (RFC 2113, section 2.1), sent with precedence 6.
const REPORT: [u8; 24] = [
    0x46, 0xc0, 0x00, 0x20, 0x00, 0x00, 0x40, 0x00, 0x01, 0x02, 0x41, 0x10, //
    0xc0, 0xa8, 0x01, 0x64, 0xe0, 0x00, 0x00, 0xfb, 0x94, 0x04, 0x00, 0x00,
];

/// The first bytes of the header of an IPv6 packet: expedited forwarding (RFC 3246), flow label
/// 2 3456, 36 bytes, hop-by-hop options next, hop limit 1.
const IPV6_START: [u8; 8] = [0x6b, 0x82, 0x34, 0x56, 0x00, 0x24, 0x00, 0x01];

#[test]
fn a_datagram_has_its_fields(rt: HostRuntime) -> Result<(), Fail> {
    let header = Ipv4HeaderSlice::from_slice(&DATAGRAM)
        .ok()
        .ok_or("refused")?;
    assert!(rt;
        (header.version(), header.ihl(), header.header_len()) == (4, 5, 20)
            && header.header_checksum() == 0xb861
            && header.source_addr() == Ipv4Addr::new(192, 168, 0, 1)
            && header.destination_addr() == Ipv4Addr::new(192, 168, 0, 199)
            && !header.is_fragmenting_payload()
    );
    let fields = header.to_header();
    assert!(rt;
        (fields.total_len, fields.identification) == (115, 0)
            && (fields.time_to_live, fields.protocol) == (64, IpNumber(17))
            && fields.dont_fragment
            && !fields.more_fragments
            && fields.options.is_empty()
    );
    Ok(())
}

#[test]
fn options_are_part_of_the_header(rt: HostRuntime) -> Result<(), Fail> {
    let mut packet = [0; 32];
    packet[..24].copy_from_slice(&REPORT);
    assert!(rt; ip_header_len(&packet).ok() == Some(24));
    let header = Ipv4HeaderSlice::from_slice(&packet).ok().ok_or("refused")?;
    assert!(rt;
        header.slice() == REPORT.as_slice() && header.options() == [0x94, 4, 0, 0].as_slice()
    );
    let fields = header.to_header();
    assert!(rt;
        (fields.dscp, fields.ecn) == (48, 0)
            && fields.options.as_slice() == [0x94, 4, 0, 0].as_slice()
    );
    Ok(())
}

/// A datagram, its first fragment and its last one (RFC 791, appendix A, example 2), one that is not to
/// be cut, and the last place that a fragment can have.
#[test]
fn fragments_are_told_from_datagrams(rt: HostRuntime) -> Result<(), Fail> {
    for (flags, offset, fragmented) in [
        ([0x00, 0x00], 0, false),
        ([0x20, 0x00], 0, true),
        ([0x00, 0x20], 32, true),
        ([0x40, 0x00], 0, false),
        ([0x3f, 0xff], 8191, true),
    ] {
        let mut bytes = DATAGRAM;
        bytes[6] = flags[0];
        bytes[7] = flags[1];
        let header = Ipv4HeaderSlice::from_slice(&bytes).ok().ok_or("refused")?;
        assert!(rt;
            header.fragment_offset() == offset && header.is_fragmenting_payload() == fragmented,
            "for {flags:?}"
        );
    }
    Ok(())
}

#[test]
fn an_ipv6_header_has_its_fields(rt: HostRuntime) -> Result<(), Fail> {
    let mut packet = [0; 48];
    packet[..8].copy_from_slice(&IPV6_START);
    packet[8] = 0xfe;
    packet[9] = 0x80;
    packet[39] = 0x16;
    assert!(rt; ip_header_len(&packet).ok() == Some(Ipv6Header::LEN));
    let header = Ipv6HeaderSlice::from_slice(&packet).ok().ok_or("refused")?;
    assert!(rt; (header.version(), header.header_len()) == (6, 40));
    let fields = header.to_header();
    assert!(rt;
        (fields.traffic_class, fields.flow_label) == (46 << 2, 0x2_3456)
            && (fields.payload_length, fields.next_header, fields.hop_limit) == (36, IpNumber(0), 1)
            && (fields.source[0], fields.source[1], fields.source[15]) == (0xfe, 0x80, 0)
            && (fields.destination[0], fields.destination[15]) == (0, 0x16)
    );
    Ok(())
}
