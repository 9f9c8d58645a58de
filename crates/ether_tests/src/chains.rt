//! Chains of extension headers, and all headers of a packet.

use ether_ip::err::ip::{HeaderError, LaxHeaderSliceError};
use ether_ip::err::ip_exts::{self, HeadersSliceError};
use ether_ip::err::{ip_auth, ipv6_exts};
use ether_ip::{IpHeaders, Ipv6ExtensionsSlice};
use ether_link::err::{Layer, LenError};
use ether_link::{IpNumber, LenSource};
use std::test::Fail;

/// An IPv6 packet with three extension headers of eight bytes: the number of the first one, and what each
/// names.
fn packet(first: u8, named: [u8; 3]) -> [u8; 64] {
    let mut bytes = [0; 64];
    bytes[0] = 0x60;
    bytes[5] = 24;
    bytes[6] = first;
    bytes[40] = named[0];
    bytes[48] = named[1];
    bytes[56] = named[2];
    bytes
}

#[test]
fn destination_options_have_a_place_on_each_side_of_routing(rt: HostRuntime) -> Result<(), Fail> {
    for (first, named, payload_start, number) in [
        (60, [43, 60, 17], 64, 17),
        (43, [60, 17, 0], 56, 17),
        (43, [60, 60, 17], 56, 60),
        (60, [60, 17, 0], 48, 60),
        (43, [43, 17, 0], 48, 43),
        (0, [60, 43, 17], 64, 17),
    ] {
        let bytes = packet(first, named);
        let (_, payload, stop) = IpHeaders::from_slice_lax(&bytes)?;
        assert!(rt;
            64 - payload.payload.len() == payload_start
                && payload.ip_number == IpNumber(number)
                && stop == None,
            "{first} {named:?}"
        );
    }
    let bytes = packet(60, [43, 60, 17]);
    let (headers, _, _) = IpHeaders::from_slice_lax(&bytes)?;
    let IpHeaders::Ipv6(_, extensions) = headers else {
        return Err(Fail::from("another version"));
    };
    assert!(rt; extensions.destination_options.is_some());
    let routing = extensions.routing.ok_or("no routing header")?;
    assert!(rt; routing.routing.next_header == IpNumber(60));
    let options = routing.final_destination_options.ok_or("no options")?;
    assert!(rt; options.payload.as_slice() == [0; 6].as_slice());
    Ok(())
}

#[test]
fn hop_by_hop_options_stand_first_or_nowhere(rt: HostRuntime) -> Result<(), Fail> {
    let bytes = packet(60, [0, 17, 0]);
    let late = ipv6_exts::HeaderError::HopByHopNotAtStart;
    let layer = Layer::Ipv6HopByHopHeader;
    let (_, payload, stop) = IpHeaders::from_slice_lax(&bytes)?;
    assert!(rt; (payload.ip_number, payload.payload.len()) == (IpNumber(0), 16));
    let headers_error = HeadersSliceError::Content(ip_exts::HeaderError::Ipv6Ext(late));
    assert!(rt; stop == Some((headers_error, layer)));
    let (extensions, number, rest, stop) = Ipv6ExtensionsSlice::from_slice_lax(
        IpNumber(60),
        &bytes[40..],
    );
    assert!(rt;
        extensions.first_header() == Some(IpNumber(60))
            && (extensions.slice().len(), number, rest.len()) == (8, IpNumber(0), 16)
            && stop == Some((ipv6_exts::HeaderSliceError::Content(late), layer))
    );
    let (extensions, number, rest, stop) = Ipv6ExtensionsSlice::from_slice_lax(
        IpNumber(17),
        &bytes[40..],
    );
    assert!(rt;
        extensions.first_header() == None && (number, rest.len(), stop) == (IpNumber(17), 24, None)
    );
    Ok(())
}

#[test]
fn chains_go_on_behind_a_fragment_header(rt: HostRuntime) -> Result<(), Fail> {
    let mut bytes = packet(44, [60, 17, 0]);
    bytes[43] = 1;
    let (extensions, number, rest, stop) = Ipv6ExtensionsSlice::from_slice_lax(
        IpNumber(44),
        &bytes[40..],
    );
    assert!(rt;
        extensions.is_fragmenting_payload() && (number, rest.len(), stop) == (IpNumber(17), 8, None)
    );
    let (_, payload, _) = IpHeaders::from_slice_lax(&bytes)?;
    assert!(rt; payload.fragmented);
    bytes[43] = 0;
    let (_, payload, _) = IpHeaders::from_slice_lax(&bytes)?;
    assert!(rt; !payload.fragmented, "an atomic fragment is a whole packet");
    Ok(())
}

#[test]
fn a_refused_header_is_counted_from_the_packet(rt: HostRuntime) -> Result<(), Fail> {
    // a routing header of 16 bytes, of which the packet has 8
    let mut bytes = packet(60, [43, 17, 0]);
    bytes[5] = 16;
    bytes[49] = 1;
    let error = LenError {
        required_len: 16,
        len: 8,
        len_source: LenSource::Ipv6HeaderPayloadLen,
        layer: Layer::Ipv6RouteHeader,
        layer_start_offset: 48,
    };
    let (_, payload, stop) = IpHeaders::from_slice_lax(&bytes)?;
    assert!(rt;
        stop == Some((HeadersSliceError::Len(error), Layer::Ipv6RouteHeader))
            && (payload.ip_number, payload.payload.len()) == (IpNumber(43), 8)
    );
    let (_, _, _, stop) = Ipv6ExtensionsSlice::from_slice_lax(IpNumber(60), &bytes[40..56]);
    let error = LenError {
        len_source: LenSource::Slice,
        layer_start_offset: 8,
        ..error
    };
    assert!(rt;
        stop == Some((
            ipv6_exts::HeaderSliceError::Len(error),
            Layer::Ipv6RouteHeader
        ))
    );
    Ok(())
}

#[test]
fn ipv4_reads_one_authentication_header(rt: HostRuntime) -> Result<(), Fail> {
    let mut bytes = [0; 48];
    bytes[0] = 0x45;
    bytes[3] = 44;
    bytes[9] = 51;
    bytes[20] = 51;
    bytes[21] = 1;
    let (headers, payload, stop) = IpHeaders::from_slice_lax(&bytes)?;
    let IpHeaders::Ipv4(_, extensions) = headers else {
        return Err(Fail::from("another version"));
    };
    assert!(rt;
        extensions.auth.is_some()
            && (payload.ip_number, payload.payload.len()) == (IpNumber(51), 12)
            && (payload.len_source, payload.incomplete) == (LenSource::Ipv4HeaderTotalLen, false)
            && stop == None
    );
    bytes[21] = 0;
    let (_, payload, stop) = IpHeaders::from_slice_lax(&bytes)?;
    assert!(rt; (payload.ip_number, payload.payload.len()) == (IpNumber(51), 24));
    let content = ip_exts::HeaderError::Ipv4Ext(ip_auth::HeaderError::ZeroPayloadLen);
    assert!(rt; stop == Some((HeadersSliceError::Content(content), Layer::IpAuthHeader)));
    bytes[3] = 49;
    let (_, payload, _) = IpHeaders::from_slice_lax(&bytes)?;
    assert!(rt;
        (payload.len_source, payload.incomplete) == (LenSource::Slice, true),
        "one byte is missing"
    );
    bytes[3] = 19;
    let (_, payload, _) = IpHeaders::from_slice_lax(&bytes)?;
    assert!(rt;
        (payload.len_source, payload.incomplete) == (LenSource::Slice, false),
        "a total length of no meaning"
    );
    Ok(())
}

#[test]
fn an_empty_payload_may_be_told_or_not(rt: HostRuntime) -> Result<(), Fail> {
    let mut bytes = packet(59, [0; 3]);
    bytes[5] = 0;
    let (header, one_more) = (&bytes[..40], &bytes[..41]);
    let (_, payload, _) = IpHeaders::from_slice_lax(header)?;
    assert!(rt;
        (payload.payload.len(), payload.len_source) == (0, LenSource::Ipv6HeaderPayloadLen)
    );
    let (_, payload, _) = IpHeaders::from_slice_lax(one_more)?;
    assert!(rt; (payload.payload.len(), payload.len_source) == (1, LenSource::Slice));
    Ok(())
}

#[test]
fn four_words_are_too_few_and_nothing_is_no_header(rt: HostRuntime) {
    let few = HeaderError::Ipv4HeaderLengthSmallerThanHeader { ihl: 4 };
    assert!(rt;
        IpHeaders::from_slice_lax(&[0x44]).err() == Some(LaxHeaderSliceError::Content(few))
    );
    let none = LenError::at_start(Layer::IpHeader, LenSource::Slice, 0, 1);
    assert!(rt; IpHeaders::from_slice_lax(&[]).err() == Some(LaxHeaderSliceError::Len(none)));
    let version = HeaderError::UnsupportedIpVersion { version_number: 5 };
    assert!(rt;
        IpHeaders::from_slice_lax(&[0x55]).err() == Some(LaxHeaderSliceError::Content(version))
    );
}
