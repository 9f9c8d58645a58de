//! IP headers that are refused.

use crate::stops::front;
use ether_ip::err::ip::HeaderError::{Ipv4HeaderLengthSmallerThanHeader, UnsupportedIpVersion};
use ether_ip::err::ipv4::HeaderError::{HeaderLengthSmallerThanHeader, UnexpectedVersion};
use ether_ip::err::packet::SliceError;
use ether_ip::err::{ip, ipv4, ipv6};
use ether_lax::{
    LaxHeaderSliceError, LaxIpSlice, LaxIpv4Slice, LaxIpv6Slice, LaxPacketHeaders, LaxSlicedPacket,
};
use ether_link::err::{Layer, LenError};
use ether_link::{EtherType, LenSource};

/// A header of which bytes are missing in the slice that was handed in.
pub(crate) fn lack(
    layer: Layer,
    required_len: usize,
    len: usize,
    layer_start_offset: usize,
) -> LenError {
    LenError {
        required_len,
        len,
        len_source: LenSource::Slice,
        layer,
        layer_start_offset,
    }
}

/// Each call that begins with an IP header refuses these bytes with this error.
fn is_refused(bytes: &[u8], want: LaxHeaderSliceError) -> bool {
    LaxIpSlice::from_slice(bytes).err() == Some(want)
        && LaxSlicedPacket::from_ip(bytes).err() == Some(want)
        && LaxPacketHeaders::from_ip(bytes).err() == Some(want)
}

/// Behind either ether type of IP both dissectors stop at the IP header, with this error.
fn is_stopped(bytes: &[u8], want: SliceError) -> bool {
    let want = Some((want, Layer::IpHeader));
    for number in [EtherType(0x0800), EtherType(0x86dd)] {
        let sliced = LaxSlicedPacket::from_ether_type(number, bytes);
        let headers = LaxPacketHeaders::from_ether_type(number, bytes);
        if sliced.stop_err != want || headers.stop_err != want || sliced.net.is_some() {
            return false;
        }
    }
    true
}

// The first byte, how many bytes are there, how many are needed, and of which header.
const CUT: [(u8, usize, usize, Layer); 10] = [
    (0x00, 0, 1, Layer::IpHeader),
    (0x45, 1, 20, Layer::Ipv4Header),
    (0x45, 19, 20, Layer::Ipv4Header),
    (0x46, 19, 24, Layer::Ipv4Header),
    (0x46, 23, 24, Layer::Ipv4Header),
    (0x4f, 1, 60, Layer::Ipv4Header),
    (0x4f, 59, 60, Layer::Ipv4Header),
    (0x60, 1, 40, Layer::Ipv6Header),
    (0x6f, 20, 40, Layer::Ipv6Header),
    (0x60, 39, 40, Layer::Ipv6Header),
];

#[test]
fn a_cut_ip_header_says_what_it_lacks(rt: HostRuntime) {
    let mut bytes = [0; 60];
    for (first, there, required, layer) in CUT {
        bytes[0] = first;
        let cut = front(&bytes, there);
        let error = lack(layer, required, there, 0);
        assert!(rt;
            is_refused(cut, LaxHeaderSliceError::Len(error)),
            "{first} {there}"
        );
        assert!(rt; is_stopped(cut, SliceError::Len(error)), "{first} {there}");
    }
}

// The first byte, and what is wrong in it.
const WRONG: [(u8, ip::HeaderError); 11] = [
    (0x40, Ipv4HeaderLengthSmallerThanHeader { ihl: 0 }),
    (0x41, Ipv4HeaderLengthSmallerThanHeader { ihl: 1 }),
    (0x44, Ipv4HeaderLengthSmallerThanHeader { ihl: 4 }),
    (0x00, UnsupportedIpVersion { version_number: 0 }),
    (0x05, UnsupportedIpVersion { version_number: 0 }),
    (0x15, UnsupportedIpVersion { version_number: 1 }),
    (0x3f, UnsupportedIpVersion { version_number: 3 }),
    (0x50, UnsupportedIpVersion { version_number: 5 }),
    (0x54, UnsupportedIpVersion { version_number: 5 }),
    (0x70, UnsupportedIpVersion { version_number: 7 }),
    (0xff, UnsupportedIpVersion { version_number: 15 }),
];

#[test]
fn the_first_byte_is_refused_before_a_length(rt: HostRuntime) {
    let mut bytes = [0; 60];
    for (first, error) in WRONG {
        bytes[0] = first;
        for there in [1, 20, 60] {
            let cut = front(&bytes, there);
            assert!(rt;
                is_refused(cut, LaxHeaderSliceError::Content(error)),
                "{first} {there}"
            );
            assert!(rt; is_stopped(cut, SliceError::Ip(error)), "{first} {there}");
        }
    }
}

// The first byte, how many bytes are there, and why they begin with no IPv4 header: the bytes that are
// needed, or what is wrong.
const NO_IPV4: [(u8, usize, Result<usize, ipv4::HeaderError>); 9] = [
    (0x45, 0, Ok(20)),
    (0x44, 19, Ok(20)),
    (0x60, 19, Ok(20)),
    (0x64, 20, Err(UnexpectedVersion { version_number: 6 })),
    (0x55, 60, Err(UnexpectedVersion { version_number: 5 })),
    (0x40, 20, Err(HeaderLengthSmallerThanHeader { ihl: 0 })),
    (0x44, 60, Err(HeaderLengthSmallerThanHeader { ihl: 4 })),
    (0x46, 23, Ok(24)),
    (0x4f, 59, Ok(60)),
];

// The first byte, how many bytes are there, and the version if it is wrong.
const NO_IPV6: [(u8, usize, Option<u8>); 6] = [
    (0x60, 0, None),
    (0x45, 39, None),
    (0x60, 39, None),
    (0x45, 40, Some(4)),
    (0x00, 60, Some(0)),
    (0x7f, 40, Some(7)),
];

#[test]
fn a_reader_of_one_version_counts_first(rt: HostRuntime) {
    let mut bytes = [0; 60];
    for (first, there, why) in NO_IPV4 {
        bytes[0] = first;
        let want = match why {
            Ok(required) => {
                ipv4::HeaderSliceError::Len(lack(Layer::Ipv4Header, required, there, 0))
            }
            Err(error) => ipv4::HeaderSliceError::Content(error),
        };
        assert_eq!(rt;
            LaxIpv4Slice::from_slice(front(&bytes, there)).err(),
            Some(want)
        );
    }
    for (first, there, version) in NO_IPV6 {
        bytes[0] = first;
        let want = match version {
            None => ipv6::HeaderSliceError::Len(lack(Layer::Ipv6Header, 40, there, 0)),
            Some(version_number) => {
                ipv6::HeaderSliceError::Content(ipv6::HeaderError::UnexpectedVersion {
                    version_number,
                })
            }
        };
        assert_eq!(rt;
            LaxIpv6Slice::from_slice(front(&bytes, there)).err(),
            Some(want)
        );
    }
}
