//! Extension headers of known packets.

use arrayvec::ArrayVec;
use ether_ip::{
    IpAuthHeaderSlice, IpFragId, IpFragVersionSpecId, Ipv4ExtensionsSlice, Ipv6ExtensionSlice,
    Ipv6FragmentHeaderSlice, Ipv6RawExtHeaderSlice, MAX_IP_DEFRAG_LEN, MAX_IP_DEFRAG_LEN_U16,
};
use ether_link::err::Layer;
use ether_link::{IpNumber, VlanId};
use std::test::Fail;

/// An authentication header with a check value of 96 bits, for which the length is 4 (RFC 4302,
/// section 2.2), in front of ICMP.
const AUTH: [u8; 24] = [
    1, 4, 0, 0, 0, 0, 1, 0, 0, 0, 0, 9, 1, 2, 3, 4, 5, 6, 7, 8, 9, 10, 11, 12,
];

/// The option "router alert" (RFC 2711, section 2.1) and two bytes of padding, in front of ICMPv6.
const ROUTER_ALERT: [u8; 8] = [58, 0, 5, 2, 0, 0, 1, 0];

/// A routing header of type 2, of 24 bytes (RFC 6275, section 6.4.1), up to its home address.
const ROUTING: [u8; 8] = [59, 2, 2, 1, 0, 0, 0, 0];

#[test]
fn a_check_value_of_96_bits_has_length_4(rt: HostRuntime) -> Result<(), Fail> {
    let auth = IpAuthHeaderSlice::from_slice(&AUTH).ok().ok_or("refused")?;
    assert!(rt; auth.slice() == AUTH.as_slice() && auth.icv() == &AUTH[12..]);
    let extensions = Ipv4ExtensionsSlice { auth: Some(auth) };
    let fields = extensions.to_header().auth.ok_or("no header")?;
    assert!(rt;
        (fields.next_header, fields.spi, fields.sequence_number) == (IpNumber(1), 256, 9)
            && fields.icv.len() == 12
    );
    Ok(())
}

#[test]
fn lengths_count_eight_bytes(rt: HostRuntime) -> Result<(), Fail> {
    let mut packet = [0; 32];
    packet[..8].copy_from_slice(&ROUTER_ALERT);
    let options = Ipv6RawExtHeaderSlice::from_slice(IpNumber(0), &packet)?;
    assert!(rt;
        options.to_header().next_header == IpNumber(58)
            && options.payload() == &ROUTER_ALERT[2..]
            && Ipv6ExtensionSlice::HopByHop(options).slice().len() == 8
    );
    packet[..8].copy_from_slice(&ROUTING);
    let routing = Ipv6RawExtHeaderSlice::from_slice(IpNumber(43), &packet)?;
    assert!(rt;
        (routing.next_header(), routing.header_len()) == (IpNumber(59), 24)
            && routing.to_header().payload.len() == 22
    );
    Ok(())
}

#[test]
fn a_length_error_names_the_layer_of_the_number(rt: HostRuntime) {
    for (number, layer) in [
        (0, Layer::Ipv6HopByHopHeader),
        (43, Layer::Ipv6RouteHeader),
        (60, Layer::Ipv6DestOptionsHeader),
        (135, Layer::Ipv6DestOptionsHeader),
    ] {
        let refusal = Ipv6RawExtHeaderSlice::from_slice(IpNumber(number), &ROUTING[..7]);
        assert!(rt;
            refusal.err().map(|error| error.layer) == Some(layer),
            "number {number}"
        );
    }
}

/// A packet of 1452 bytes behind its header, cut for links of 1500 bytes: 1448 bytes, then 4. And a
/// packet that is whole in spite of its fragment header (RFC 6946).
#[test]
fn fragments_count_eight_bytes(rt: HostRuntime) -> Result<(), Fail> {
    for (start, offset, more, fragmented) in [
        ([17, 0, 0x00, 0x01], 0, true, true),
        ([17, 0, 0x05, 0xa8], 1448, false, true),
        ([17, 0, 0x00, 0x00], 0, false, false),
        ([17, 0, 0x00, 0x06], 0, false, false),
    ] {
        let bytes = [
            start[0], start[1], start[2], start[3], 0xde, 0xad, 0xbe, 0xef,
        ];
        let fragment = Ipv6FragmentHeaderSlice::from_slice(&bytes)?;
        let fields = fragment.to_header();
        assert!(rt;
            (fields.next_header, fields.identification) == (IpNumber(17), 0xdead_beef)
                && u32::from(fields.fragment_offset) * 8 == offset
                && fields.more_fragments == more
                && fragment.is_fragmenting_payload() == fragmented,
            "for {start:?}"
        );
    }
    Ok(())
}

/// The id of a fragment from a channel.
fn id_of<C>(channel_id: C) -> IpFragId<C>
where
    C: std::hash::Hash + Eq + Clone,
{
    let mut vlan_ids = ArrayVec::new();
    let _fits = vlan_ids.try_push(VlanId::of_low_bits(5));
    IpFragId {
        vlan_ids,
        ip: IpFragVersionSpecId::Ipv4 {
            source: [10, 0, 0, 1],
            destination: [10, 0, 0, 2],
            identification: 111,
        },
        payload_ip_number: IpNumber(17),
        channel_id,
    }
}

#[test]
fn fragments_of_two_channels_differ(rt: HostRuntime) -> Result<(), Fail> {
    assert!(rt;
        id_of(()).clone()? == id_of(()) && id_of(1u8).clone()? == id_of(1) && id_of(1u8) != id_of(2)
    );
    Ok(())
}

/// The length fields of both versions have 16 bits.
#[test]
fn a_packet_has_at_most_65535_bytes(rt: HostRuntime) {
    assert!(rt; (MAX_IP_DEFRAG_LEN, MAX_IP_DEFRAG_LEN_U16) == (65535, 65535));
}
