//! What stops a dissection, in both dissectors and from each start.

use crate::frames::*;
use ether_ip::err::ip::HeaderError::{Ipv4HeaderLengthSmallerThanHeader, UnsupportedIpVersion};
use ether_ip::err::ip_auth::HeaderError::ZeroPayloadLen;
use ether_ip::err::ipv6_exts::HeaderError::{HopByHopNotAtStart, IpAuth};
use ether_ip::err::packet::SliceError;
use ether_ip::err::packet::SliceError::{Ip, Ipv4Exts, Ipv6Exts, Macsec};
use ether_ip::err::tcp::HeaderError::DataOffsetTooSmall;
use ether_lax::{LaxPacketHeaders, LaxPayloadSlice, LaxSlicedPacket};
use ether_link::err::Layer;
use ether_link::err::macsec::HeaderError::{InvalidUnmodifiedShortLen, UnexpectedVersion};
use ether_link::{EtherType, IpNumber};
use std::test::Fail;

/// The bytes that are needed and those that are there, the part that lacks them, and its place.
type Lack = (usize, usize, Layer, usize);

/// What is said of a lack of bytes, and at which layer the dissection stopped.
fn lack(stop: &Option<(SliceError, Layer)>) -> Option<(Lack, Layer)> {
    match stop {
        Some((SliceError::Len(error), layer)) => Some((
            (
                error.required_len,
                error.len,
                error.layer,
                error.layer_start_offset,
            ),
            *layer,
        )),
        _ => None,
    }
}

/// The first bytes of a frame, or all of it.
pub(crate) fn front(frame: &[u8], len: usize) -> &[u8] {
    if len < frame.len() {
        &frame[..len]
    } else {
        frame
    }
}

#[test]
fn each_lack_of_bytes_stops_both_dissectors(rt: HostRuntime) -> Result<(), Fail> {
    // a frame, how much of it is there, what is lacking, and whether it is an IP packet
    let table: [(&[u8], usize, Lack, bool); 22] = [
        (&TAGGED, 16, (4, 2, Layer::VlanHeader, 14), false),
        (&TAGGED, 20, (4, 2, Layer::VlanHeader, 18), false),
        (&TRIMMED_TAG, 32, (4, 2, Layer::VlanHeader, 22), false),
        (&SECURED_TAG, 18, (6, 4, Layer::MacsecHeader, 14), false),
        (&SECURED_TAG, 21, (8, 7, Layer::MacsecHeader, 14), false),
        (&SECURED_TAG, 24, (4, 2, Layer::VlanHeader, 22), false),
        (&SECURED, 44, (8, 2, Layer::UdpHeader, 42), false),
        (&ARP, 20, (8, 6, Layer::Arp, 14), false),
        (&ARP, 40, (28, 26, Layer::Arp, 14), false),
        (&TAGGED, 22, (1, 0, Layer::IpHeader, 22), false),
        (&AUTHENTICATED, 44, (12, 10, Layer::IpAuthHeader, 34), true),
        (&AUTHENTICATED, 48, (16, 14, Layer::IpAuthHeader, 34), true),
        (&CHAIN, 60, (8, 6, Layer::Ipv6HopByHopHeader, 54), true),
        (&CHAIN, 68, (8, 6, Layer::Ipv6FragHeader, 62), true),
        (&ROUTED, 60, (8, 6, Layer::Ipv6DestOptionsHeader, 54), true),
        (&ROUTED, 68, (8, 6, Layer::Ipv6RouteHeader, 62), true),
        (&DNS, 40, (8, 6, Layer::UdpHeader, 34), true),
        (&TCP, 50, (20, 16, Layer::TcpHeader, 34), true),
        (&TCP, 56, (24, 22, Layer::TcpHeader, 34), true),
        (&ECHO, 40, (8, 6, Layer::Icmpv4, 34), true),
        (&TIMESTAMP, 50, (20, 16, Layer::Icmpv4Timestamp, 34), true),
        (&NEIGHBOUR, 60, (8, 6, Layer::Icmpv6, 54), true),
    ];
    for (frame, len, (required, there, layer, place), is_ip) in table {
        let frame = front(frame, len);
        let stop_layer = match layer {
            Layer::Icmpv4Timestamp => Layer::Icmpv4,
            layer => layer,
        };
        let want = Some(((required, there, layer, place), stop_layer));
        assert_eq!(rt;
            lack(&LaxSlicedPacket::from_ethernet(frame)?.stop_err),
            want
        );
        assert_eq!(rt;
            lack(&LaxPacketHeaders::from_ethernet(frame)?.stop_err),
            want
        );
        if place < 14 || frame.len() < 14 {
            return Err(Fail::from("no Ethernet frame"));
        }
        let (number, rest) = (
            EtherType(u16::from_be_bytes([frame[12], frame[13]])),
            &frame[14..],
        );
        let want = Some(((required, there, layer, place - 14), stop_layer));
        let sliced = LaxSlicedPacket::from_ether_type(number, rest);
        assert_eq!(rt; lack(&sliced.stop_err), want);
        let headers = LaxPacketHeaders::from_ether_type(number, rest);
        assert_eq!(rt; lack(&headers.stop_err), want);
        if is_ip {
            assert_eq!(rt; lack(&LaxSlicedPacket::from_ip(rest)?.stop_err), want);
            assert_eq!(rt; lack(&LaxPacketHeaders::from_ip(rest)?.stop_err), want);
        }
    }
    Ok(())
}

// A frame, a place in it and the byte that is put there, what is wrong then, and where it stops.
const WRONG: [(&[u8], usize, u8, SliceError, Layer); 9] = [
    (
        &SECURED,
        14,
        0x80,
        Macsec(UnexpectedVersion),
        Layer::MacsecHeader,
    ),
    (
        &SECURED,
        15,
        1,
        Macsec(InvalidUnmodifiedShortLen),
        Layer::MacsecHeader,
    ),
    (
        &DNS,
        14,
        0x44,
        Ip(Ipv4HeaderLengthSmallerThanHeader { ihl: 4 }),
        Layer::IpHeader,
    ),
    (
        &CHAIN,
        14,
        0x50,
        Ip(UnsupportedIpVersion { version_number: 5 }),
        Layer::IpHeader,
    ),
    (
        &AUTHENTICATED,
        35,
        0,
        Ipv4Exts(ZeroPayloadLen),
        Layer::IpAuthHeader,
    ),
    (
        &TWO_AUTHENTICATIONS,
        55,
        0,
        Ipv6Exts(IpAuth(ZeroPayloadLen)),
        Layer::IpAuthHeader,
    ),
    (
        &LATE,
        54,
        0,
        Ipv6Exts(HopByHopNotAtStart),
        Layer::Ipv6HopByHopHeader,
    ),
    (
        &ROUTED,
        62,
        0,
        Ipv6Exts(HopByHopNotAtStart),
        Layer::Ipv6HopByHopHeader,
    ),
    (
        &TCP,
        46,
        0x48,
        SliceError::Tcp(DataOffsetTooSmall { data_offset: 4 }),
        Layer::TcpHeader,
    ),
];

#[test]
fn each_wrong_byte_stops_both_dissectors(rt: HostRuntime) -> Result<(), Fail> {
    for (frame, place, byte, error, layer) in WRONG {
        let mut bytes = [0; 105];
        for (to, from) in bytes.iter_mut().zip(frame) {
            *to = *from;
        }
        if let Some(wrong) = bytes.get_mut(place) {
            *wrong = byte;
        }
        let bytes = front(&bytes, frame.len());
        let want = Some((error, layer));
        assert_eq!(rt; LaxSlicedPacket::from_ethernet(bytes)?.stop_err, want);
        assert_eq!(rt; LaxPacketHeaders::from_ethernet(bytes)?.stop_err, want);
    }
    Ok(())
}

#[test]
fn a_header_whose_place_is_taken_ends_the_headers_alone(rt: HostRuntime) -> Result<(), Fail> {
    // a frame, how much of it is there, where the slices stop, and what the headers leave
    let table: [(&[u8], usize, Option<Layer>, u8, usize); 4] = [
        (&TWO_FRAGMENTS, 86, None, 44, 24),
        (&TWO_FRAGMENTS, 66, Some(Layer::Ipv6FragHeader), 44, 4),
        (&THREE_OPTIONS, 94, None, 60, 32),
        (&TWO_AUTHENTICATIONS, 102, None, 51, 32),
    ];
    for (frame, len, stop, number, left) in table {
        let frame = front(frame, len);
        let sliced = LaxSlicedPacket::from_ethernet(frame)?;
        assert_eq!(rt; sliced.stop_err.map(|told| told.1), stop);
        assert_eq!(rt; sliced.transport.is_some(), stop.is_none());
        let headers = LaxPacketHeaders::from_ethernet(frame)?;
        assert!(rt; headers.stop_err.is_none() && headers.transport.is_none());
        match headers.payload {
            LaxPayloadSlice::Ip(payload) => {
                assert_eq!(rt; payload.ip_number, IpNumber(number));
                assert_eq!(rt; payload.payload.len(), left);
            }
            _ => return Err(Fail::from("another payload")),
        }
    }
    Ok(())
}
