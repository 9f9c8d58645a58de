//! The texts of leases, of frames that were sent, and of queries.
use arrayvec::ArrayVec;
use dns_client::StartQueryError;
use host_top::query_text::put_line;
use host_top::report_text::{put_frame, put_lease};
use net_host::{Mark, Outcome, QueryLine, Sent};
use net_wire::{IpAddress, Ipv4Address, Ipv4Cidr, Ipv6Address};
use phy_layers::{FrameBytes, SureSink};
use std::alloc::Global;
use std::test::Fail;

/// A lease, and its text.
const LEASES: [(Option<Ipv4Cidr>, &[u8]); 5] = [
    (None, b"none"),
    (
        Some(Ipv4Cidr {
            address: Ipv4Address([192, 168, 1, 42]),
            prefix_len: 24,
        }),
        b"192.168.1.42/24",
    ),
    (
        Some(Ipv4Cidr {
            address: Ipv4Address([0; 4]),
            prefix_len: 0,
        }),
        b"0.0.0.0/0",
    ),
    (
        Some(Ipv4Cidr {
            address: Ipv4Address([255; 4]),
            prefix_len: 32,
        }),
        b"255.255.255.255/32",
    ),
    (
        Some(Ipv4Cidr {
            address: Ipv4Address([10, 0, 9, 100]),
            prefix_len: 8,
        }),
        b"10.0.9.100/8",
    ),
];

/// A mark, the bytes of the frame, and their line.
const FRAMES: [(Mark, &[u8], &[u8]); 4] = [
    (Mark::Dhcp, b"\xff\xff\xff", b"  sent dhcp 3\n"),
    (
        Mark::Dns {
            query: 9999,
            place: 2,
        },
        b"ab",
        b"  sent dns 9999 2 2\n",
    ),
    (Mark::ArpReply, b"0123456789ab", b"  sent arp-reply 12\n"),
    (Mark::ArpRequest, b"", b"  sent arp-request 0\n"),
];

/// Addresses of an answer, and its line.
const ANSWERS: [(&[IpAddress], &[u8]); 3] = [
    (
        &[IpAddress::Ipv4(Ipv4Address([192, 0, 2, 7]))],
        b"  query 12 answered 192.0.2.7\n",
    ),
    (
        &[
            IpAddress::Ipv4(Ipv4Address([255, 0, 10, 1])),
            IpAddress::Ipv4(Ipv4Address([0; 4])),
            IpAddress::Ipv4(Ipv4Address([255; 4])),
        ],
        b"  query 12 answered 255.0.10.1,0.0.0.0,255.255.255.255\n",
    ),
    (
        &[
            IpAddress::Ipv6(Ipv6Address([
                0x20, 0x01, 0x0d, 0xb8, 0, 0, 0, 0, 0, 0, 0, 0, 0, 0, 0, 7,
            ])),
            IpAddress::Ipv6(Ipv6Address([
                0xfe, 0x80, 0, 0, 0, 0, 0, 0, 0xab, 0xcd, 0xef, 0x01, 0x23, 0x45, 0x67, 0x89,
            ])),
        ],
        b"  query 12 answered 2001:0db8:0000:0000:0000:0000:0000:0007,fe80:0000:0000:0000:abcd:ef01:2345:6789\n",
    ),
];

const REFUSALS: [(StartQueryError, &[u8]); 3] = [
    (
        StartQueryError::InvalidName,
        b"  query 12 refused invalid-name\n",
    ),
    (
        StartQueryError::NameTooLong,
        b"  query 12 refused name-too-long\n",
    ),
    (
        StartQueryError::NoFreeSlot,
        b"  query 12 refused no-free-slot\n",
    ),
];

fn prints(alloc: Global, outcome: Outcome, line: &[u8]) -> bool {
    let mut out = SureSink::new(alloc);
    let mut answer = Ok(());
    put_line(&mut out, &mut answer, &QueryLine { query: 12, outcome });
    answer.is_ok() && out.bytes() == line
}

#[test]
fn queries_print_as_they_should(rt: HostRuntime) -> Result<(), Fail> {
    let alloc = rt.alloc();
    for (addresses, line) in ANSWERS {
        let mut answer = ArrayVec::new();
        for address in addresses {
            assert!(rt; answer.try_push(*address).is_ok());
        }
        assert!(rt; prints(alloc, Outcome::Answered(answer), line));
    }
    for (fault, line) in REFUSALS {
        assert!(rt; prints(alloc, Outcome::Refused(fault), line));
    }
    assert!(rt; prints(alloc, Outcome::Failed, b"  query 12 failed\n"));
    Ok(())
}

#[test]
fn leases_and_frames_print_as_they_should(rt: HostRuntime) -> Result<(), Fail> {
    let alloc = rt.alloc();
    for (lease, text) in LEASES {
        let mut out = SureSink::new(alloc);
        let mut answer = Ok(());
        put_lease(&mut out, &mut answer, lease);
        assert!(rt; answer.is_ok() && out.bytes() == text);
    }
    for (mark, bytes, line) in FRAMES {
        let frame = FrameBytes::from_slice(alloc, bytes)?;
        let mut out = SureSink::new(alloc);
        let mut answer = Ok(());
        put_frame(&mut out, &mut answer, &Sent { mark, frame });
        assert!(rt; answer.is_ok() && out.bytes() == line);
    }
    Ok(())
}
