//! IP headers that are refused or have windows of their own, and link extensions.

use crate::frames::{FOUR_TAGS, SECURED_TAG, TAGGED};
use ether_ip::err::ip::HeaderError;
use ether_lax::{LaxHeaderSliceError, LaxIpSlice, LaxPacketHeaders, LaxSlicedPacket};
use ether_link::err::{Layer, LenError};
use ether_link::{EtherType, LenSource};
use std::test::Fail;

#[test]
fn four_words_and_nothing_are_no_header(rt: HostRuntime) {
    let few = HeaderError::Ipv4HeaderLengthSmallerThanHeader { ihl: 4 };
    let few = LaxHeaderSliceError::Content(few);
    let none = LenError::at_start(Layer::IpHeader, LenSource::Slice, 0, 1);
    let none = LaxHeaderSliceError::Len(none);
    let table: [(&[u8], LaxHeaderSliceError); 2] = [(&[0x44], few), (&[], none)];
    for (bytes, want) in table {
        assert_eq!(rt; LaxIpSlice::from_slice(bytes).err(), Some(want));
        assert_eq!(rt; LaxSlicedPacket::from_ip(bytes).err(), Some(want));
        assert_eq!(rt; LaxPacketHeaders::from_ip(bytes).err(), Some(want));
    }
}

#[test]
fn an_ipv6_payload_of_no_length_has_a_source_of_its_own(rt: HostRuntime) -> Result<(), Fail> {
    let mut bytes = [0; 41];
    bytes[0] = 0x60;
    bytes[6] = 59;
    for (len, want, source) in [
        (40, 0, LenSource::Ipv6HeaderPayloadLen),
        (41, 1, LenSource::Slice),
    ] {
        let (packet, stop) = LaxIpSlice::from_slice(&bytes[..len])?;
        let payload = packet.payload();
        assert_eq!(rt; (payload.payload.len(), payload.len_source), (want, source));
        assert!(rt; stop.is_none());
    }
    Ok(())
}

#[test]
fn link_extensions_have_their_numbers_and_payloads(rt: HostRuntime) -> Result<(), Fail> {
    let table: [(&[u8], &[u16], u16, usize, bool); 3] = [
        (&FOUR_TAGS, &[1, 2, 3], 0x8100, 4, false),
        (&TAGGED, &[100, 200], 0x0800, 36, false),
        (&SECURED_TAG, &[5], 0, 4, false),
    ];
    for (frame, ids, number, len, incomplete) in table {
        let sliced = LaxSlicedPacket::from_ethernet(frame)?;
        let headers = LaxPacketHeaders::from_ethernet(frame)?;
        let found = sliced.vlan_ids();
        assert_eq!(rt; found.len(), ids.len());
        for (id, want) in found.as_slice().iter().zip(ids) {
            assert_eq!(rt; id.value(), *want);
        }
        assert!(rt; found == headers.vlan_ids());
        let tags = sliced.vlan().ok_or("no tag")?;
        assert_eq!(rt; Some(tags.to_header()), headers.vlan());
        let payload = sliced.ether_payload().ok_or("no payload")?;
        assert_eq!(rt; payload.ether_type, EtherType(number));
        assert_eq!(rt;
            (payload.payload.len(), payload.incomplete),
            (len, incomplete)
        );
    }
    Ok(())
}
