//! Where the length is from that a stop names.

use crate::refusals::lack;
use ether_ip::err::packet::SliceError;
use ether_ip::err::{ip_auth, ipv6_exts};
use ether_lax::{LaxIpSlice, LaxIpv4Slice, LaxIpv6Slice, LaxPacketHeaders, LaxSlicedPacket};
use ether_link::LenSource;
use ether_link::LenSource::{Ipv4HeaderTotalLen, Ipv6HeaderPayloadLen, MacsecShortLength, Slice};
use ether_link::err::{Layer, LenError};
use std::test::Fail;

// The total length of an IPv4 packet of 24 bytes, and where the length of its window is from.
const TOTAL_LENGTHS: [(u8, LenSource); 5] = [
    (0, Slice),
    (19, Slice),
    (24, Ipv4HeaderTotalLen),
    (25, Slice),
    (100, Slice),
];

#[test]
fn a_cut_authentication_header_has_the_source_of_its_window(rt: HostRuntime) -> Result<(), Fail> {
    let mut bytes = [0; 24];
    bytes[0] = 0x45;
    bytes[9] = 51;
    for (total_len, len_source) in TOTAL_LENGTHS {
        bytes[3] = total_len;
        let error = LenError {
            len_source,
            ..lack(Layer::IpAuthHeader, 12, 4, 20)
        };
        let (packet, stop) = LaxIpv4Slice::from_slice(&bytes)?;
        assert_eq!(rt; stop, Some(ip_auth::HeaderSliceError::Len(error)));
        assert_eq!(rt; packet.payload().len_source, len_source);
        assert_eq!(rt; packet.payload().payload.len(), 4);
        let (_, stop) = LaxIpSlice::from_slice(&bytes)?;
        let want = (ipv6_exts::HeaderSliceError::Len(error), Layer::IpAuthHeader);
        assert_eq!(rt; stop, Some(want));
        let want = Some((SliceError::Len(error), Layer::IpAuthHeader));
        assert_eq!(rt; LaxSlicedPacket::from_ip(&bytes)?.stop_err, want);
        assert_eq!(rt; LaxPacketHeaders::from_ip(&bytes)?.stop_err, want);
    }
    Ok(())
}

// The payload length of an IPv6 packet of 44 bytes, and where the length of its window is from.
const PAYLOAD_LENGTHS: [(u8, LenSource); 4] = [
    (0, Slice),
    (4, Ipv6HeaderPayloadLen),
    (5, Slice),
    (100, Slice),
];

// Numbers of extension headers, and how many bytes their first part has.
const NUMBERS: [(u8, usize, Layer); 5] = [
    (0, 8, Layer::Ipv6HopByHopHeader),
    (43, 8, Layer::Ipv6RouteHeader),
    (44, 8, Layer::Ipv6FragHeader),
    (60, 8, Layer::Ipv6DestOptionsHeader),
    (51, 12, Layer::IpAuthHeader),
];

#[test]
fn a_cut_ipv6_extension_has_the_source_of_its_window(rt: HostRuntime) -> Result<(), Fail> {
    let mut bytes = [0; 44];
    bytes[0] = 0x60;
    for (number, required, layer) in NUMBERS {
        bytes[6] = number;
        for (payload_len, len_source) in PAYLOAD_LENGTHS {
            bytes[5] = payload_len;
            let error = LenError {
                len_source,
                ..lack(layer, required, 4, 40)
            };
            let (_, stop) = LaxIpv6Slice::from_slice(&bytes)?;
            let want = (ipv6_exts::HeaderSliceError::Len(error), layer);
            assert_eq!(rt; stop, Some(want));
            let want = Some((SliceError::Len(error), layer));
            assert_eq!(rt; LaxSlicedPacket::from_ip(&bytes)?.stop_err, want);
            assert_eq!(rt; LaxPacketHeaders::from_ip(&bytes)?.stop_err, want);
        }
    }
    Ok(())
}

// The short length of a MACsec header before 20 bytes, their ether type, the first of them, a total length
// and a protocol, and the sources that the slices and the structs name.
const SECURED: [(u8, u16, u8, u8, u8, LenSource, LenSource); 13] = [
    (22, 0x0800, 0x45, 100, 51, MacsecShortLength, Slice),
    (22, 0x0800, 0x45, 100, 17, Slice, Slice),
    (
        22,
        0x0800,
        0x45,
        20,
        51,
        Ipv4HeaderTotalLen,
        Ipv4HeaderTotalLen,
    ),
    (
        22,
        0x0800,
        0x45,
        20,
        17,
        Ipv4HeaderTotalLen,
        Ipv4HeaderTotalLen,
    ),
    (0, 0x0800, 0x45, 100, 51, Slice, Slice),
    (40, 0x0800, 0x45, 100, 51, Slice, Slice),
    (12, 0x0800, 0x45, 100, 51, MacsecShortLength, Slice),
    (22, 0x0800, 0x46, 100, 51, MacsecShortLength, Slice),
    (2, 0x0800, 0x45, 100, 51, MacsecShortLength, Slice),
    (22, 0x86dd, 0x60, 0, 0, MacsecShortLength, Slice),
    (9, 0x0806, 0, 1, 0, MacsecShortLength, Slice),
    (4, 0x8100, 0, 1, 0, Slice, Slice),
    (7, 0x88e5, 0, 1, 0, Slice, Slice),
];

/// Where the number of bytes is from that a stop names.
fn source(stop: &Option<(SliceError, Layer)>) -> Option<LenSource> {
    match stop {
        Some((SliceError::Len(error), _)) => Some(error.len_source),
        _ => None,
    }
}

#[test]
fn a_stop_in_macsec_names_its_length_in_slices_alone(rt: HostRuntime) -> Result<(), Fail> {
    let mut frame = [0; 42];
    frame[12] = 0x88;
    frame[13] = 0xe5;
    for (short_len, ether_type, first, total_len, protocol, in_slices, in_structs) in SECURED {
        frame[15] = short_len;
        let [high, low] = ether_type.to_be_bytes();
        frame[20] = high;
        frame[21] = low;
        frame[22] = first;
        frame[25] = total_len;
        frame[31] = protocol;
        let sliced = LaxSlicedPacket::from_ethernet(&frame)?;
        let headers = LaxPacketHeaders::from_ethernet(&frame)?;
        assert_eq!(rt; source(&sliced.stop_err), Some(in_slices));
        assert_eq!(rt; source(&headers.stop_err), Some(in_structs));
    }
    Ok(())
}
