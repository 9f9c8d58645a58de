//! What a note says of one frame of each kind.

use crate::frames::*;
use ether_lax::{FrameNote, NetKind, TransportKind, note_of};
use ether_link::err::Layer;

/// The note of a frame, which is short.
fn note(frame: &[u8]) -> Option<FrameNote> {
    if frame.len() > 65535 {
        return None;
    }
    Some(note_of(frame))
}

/// A note with its parts in the order of a report.
fn told(
    exts: u8,
    net: NetKind,
    transport: TransportKind,
    window: (u32, u32),
    flags: (bool, bool),
    stop: Option<Layer>,
) -> Option<FrameNote> {
    Some(FrameNote {
        exts,
        net,
        transport,
        start: window.0,
        end: window.1,
        incomplete: flags.0,
        fragmented: flags.1,
        stop,
    })
}

#[test]
fn each_kind_of_frame_has_its_note(rt: HostRuntime) {
    use TransportKind::{Icmpv4, Icmpv6, None as Other, Tcp, Udp};
    let whole = (false, false);
    let (ipv4, ipv6) = (NetKind::Ipv4, NetKind::Ipv6);
    let table: [(&[u8], Option<FrameNote>); 16] = [
        (&ARP, told(0, NetKind::Arp, Other, (14, 42), whole, None)),
        (&DNS, told(0, ipv4, Udp, (42, 105), whole, None)),
        (&TCP, told(0, ipv4, Tcp, (58, 63), whole, None)),
        (&ECHO, told(0, ipv4, Icmpv4, (42, 50), whole, None)),
        (
            &FRAGMENT,
            told(0, ipv4, Other, (34, 50), (false, true), None),
        ),
        (&AUTHENTICATED, told(0, ipv4, Udp, (58, 66), whole, None)),
        (&SHORT, told(0, ipv4, Udp, (42, 50), (true, false), None)),
        (&NEIGHBOUR, told(0, ipv6, Icmpv6, (62, 70), whole, None)),
        (&CHAIN, told(0, ipv6, Tcp, (94, 99), whole, None)),
        (&ROUTED, told(0, ipv6, Udp, (86, 94), whole, None)),
        (
            &LATE,
            told(
                0,
                ipv6,
                Other,
                (62, 86),
                whole,
                Some(Layer::Ipv6HopByHopHeader),
            ),
        ),
        (&TAGGED, told(2, ipv4, Udp, (50, 58), whole, None)),
        (
            &FOUR_TAGS,
            told(3, NetKind::None, Other, (26, 30), whole, None),
        ),
        (
            &SECURED,
            told(
                1,
                ipv4,
                Other,
                (42, 44),
                (true, false),
                Some(Layer::UdpHeader),
            ),
        ),
        (
            &ENCRYPTED,
            told(1, NetKind::None, Other, (20, 28), whole, None),
        ),
        (&LLDP, told(0, NetKind::None, Other, (14, 25), whole, None)),
    ];
    for (frame, want) in table {
        assert_eq!(rt; note(frame), want);
    }
}
