//! Segments, datagrams and messages as programs send them.

use ether_ip::{
    IcmpEchoHeader, Icmpv4Slice, Icmpv4Type, Icmpv6Slice, Icmpv6Type, ParameterProblemCode,
    ParameterProblemHeader, RedirectCode, RedirectHeader, TcpSlice, TimestampMessage, UdpHeader,
    UdpSlice,
};
use std::test::Fail;

/// A browser's first segment to port 80: 1460 bytes at most, selective acknowledgement permitted. Its
/// checksum is right from 145.254.160.237 to 65.208.228.223.
const SYN: [u8; 28] = [
    0x0d, 0x2c, 0x00, 0x50, 0x38, 0xaf, 0xfe, 0x13, 0x00, 0x00, 0x00, 0x00, 0x70, 0x02, // ports to flags
    0x22, 0x38, 0xc3, 0x0c, 0x00, 0x00, // window, checksum, urgent pointer
    0x02, 0x04, 0x05, 0xb4, 0x01, 0x01, 0x04, 0x02, // options
];

/// A query for the name server of the root, and the padding of its Ethernet frame.
const QUERY: [u8; 26] = [
    0xc0, 0x00, 0x00, 0x35, 0x00, 0x19, 0x00, 0x00, // ports, length, no checksum
    0x12, 0x34, 0x01, 0x00, 0x00, 0x01, 0x00, 0x00, 0x00, 0x00, 0x00, 0x00, // DNS header
    0x00, 0x00, 0x02, 0x00, 0x01, // the root, NS, IN
    0x00,
];

/// The first message of Windows' `ping`, cut after eight of its 32 letters, with the checksum of all.
const PING: [u8; 16] = [
    0x08, 0x00, 0x4d, 0x5a, 0x00, 0x01, 0x00, 0x01, b'a', b'b', b'c', b'd', b'e', b'f', b'g', b'h',
];

#[test]
fn reads_the_first_segment_of_a_browser(rt: HostRuntime) -> Result<(), Fail> {
    let segment = TcpSlice::from_slice(&SYN)?;
    let header = segment.to_header();
    assert!(rt;
        (header.source_port, header.destination_port) == (3372, 80)
            && header.sequence_number == 951057939
            && header.acknowledgment_number == 0
            && segment.data_offset() == 7
            && (header.syn, header.ack) == (true, false)
            && (header.window_size, header.checksum) == (8760, 0xc30c)
    );
    assert!(rt; header.options.as_slice() == &SYN[20..] && segment.payload().len() == 0);
    Ok(())
}

/// Bytes 12 and 13 with one control bit each, from the highest one on, as the RFCs draw them.
#[test]
fn names_each_control_bit(rt: HostRuntime) -> Result<(), Fail> {
    let drawn = [
        (0x71, 0x00),
        (0x70, 0x80),
        (0x70, 0x40),
        (0x70, 0x20),
        (0x70, 0x10),
        (0x70, 0x08),
        (0x70, 0x04),
        (0x70, 0x02),
        (0x70, 0x01),
    ];
    for (offset_and_ns, flags) in drawn {
        let mut bytes = SYN;
        bytes[12] = offset_and_ns;
        bytes[13] = flags;
        let header = TcpSlice::from_slice(&bytes)?.to_header();
        let read = [
            header.ns, header.cwr, header.ece, header.urg, header.ack, header.psh, header.rst,
            header.syn, header.fin,
        ];
        let set = drawn.map(|bits| bits == (offset_and_ns, flags));
        assert!(rt; read == set, "at {flags}");
    }
    Ok(())
}

#[test]
fn leaves_the_padding_of_a_query(rt: HostRuntime) -> Result<(), Fail> {
    let datagram = UdpSlice::from_slice_lax(&QUERY)?;
    let header = UdpHeader {
        source_port: 49152,
        destination_port: 53,
        length: 25,
        checksum: 0,
    };
    assert!(rt; datagram.to_header() == header && datagram.payload() == &QUERY[8..25]);
    Ok(())
}

#[test]
fn reads_a_ping(rt: HostRuntime) -> Result<(), Fail> {
    let message = Icmpv4Slice::from_slice(&PING)?;
    assert!(rt;
        message.icmp_type() == Icmpv4Type::EchoRequest(IcmpEchoHeader { id: 1, seq: 1 })
            && message.header().checksum == 0x4d5a
            && message.payload() == b"abcdefgh".as_slice()
    );
    Ok(())
}

/// The first eight bytes of messages of RFC 792, without checksum.
#[test]
fn names_messages(rt: HostRuntime) -> Result<(), Fail> {
    let echo = IcmpEchoHeader { id: 2, seq: 3 };
    let redirect = RedirectHeader {
        code: RedirectCode(1),
        gateway_internet_address: [192, 0, 2, 1],
    };
    let unreachable = Icmpv4Type::Unknown {
        type_u8: 3,
        code_u8: 1,
        bytes5to8: [0; 4],
    };
    for (bytes, icmp_type) in [
        ([0, 0, 0, 0, 0, 2, 0, 3], Icmpv4Type::EchoReply(echo)),
        ([5, 1, 0, 0, 192, 0, 2, 1], Icmpv4Type::Redirect(redirect)),
        ([3, 1, 0, 0, 0, 0, 0, 0], unreachable),
    ] {
        assert!(rt; Icmpv4Slice::from_slice(&bytes)?.icmp_type() == icmp_type);
    }
    Ok(())
}

/// A reply at noon to a request one millisecond before.
#[test]
fn reads_a_timestamp_reply(rt: HostRuntime) -> Result<(), Fail> {
    let bytes = [
        14, 0, 0, 0, 0, 7, 0, 8, // type to sequence number
        0x02, 0x93, 0x2d, 0xff, 0x02, 0x93, 0x2e, 0x00, 0x02, 0x93, 0x2e, 0x01, // times
    ];
    let times = TimestampMessage {
        id: 7,
        seq: 8,
        originate_timestamp: 43_199_999,
        receive_timestamp: 43_200_000,
        transmit_timestamp: 43_200_001,
    };
    let message = Icmpv4Slice::from_slice(&bytes)?;
    assert!(rt;
        message.icmp_type() == Icmpv4Type::TimestampReply(times) && message.payload().len() == 0
    );
    Ok(())
}

/// The first eight bytes of messages of RFC 4443, without checksum: the next header field at byte 6 is
/// unknown, an echo and its reply, and the solicitation of a neighbor.
#[test]
fn names_messages_of_version_6(rt: HostRuntime) -> Result<(), Fail> {
    let echo = IcmpEchoHeader { id: 2, seq: 3 };
    let problem = ParameterProblemHeader {
        code: ParameterProblemCode(1),
        pointer: 6,
    };
    let solicitation = Icmpv6Type::Unknown {
        type_u8: 135,
        code_u8: 0,
        bytes5to8: [0; 4],
    };
    for (bytes, icmp_type) in [
        (
            [4, 1, 0, 0, 0, 0, 0, 6],
            Icmpv6Type::ParameterProblem(problem),
        ),
        ([128, 0, 0, 0, 0, 2, 0, 3], Icmpv6Type::EchoRequest(echo)),
        ([129, 0, 0, 0, 0, 2, 0, 3], Icmpv6Type::EchoReply(echo)),
        ([135, 0, 0, 0, 0, 0, 0, 0], solicitation),
    ] {
        assert!(rt; Icmpv6Slice::from_slice(&bytes)?.header().icmp_type == icmp_type);
    }
    Ok(())
}
