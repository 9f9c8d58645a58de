//! Frames that are cut at each length, and frames of which one bit is flipped.

use crate::frames::{AUTHENTICATED, CHAIN, DNS, SECURED};
use crate::stops::front;
use ether_ip::err::packet::SliceError;
use ether_ip::{NetHeaders, TransportHeader, TransportSlice};
use ether_lax::{LaxLinkExtSlice, LaxNetSlice, LaxPacketHeaders, LaxSlicedPacket, agrees};
use ether_link::LinkExtHeader;
use ether_link::err::Layer;
use std::test::Fail;

/// Both dissectors find the same headers, the same payload of the transport layer, and the same stop.
fn is_same(frame: &[u8]) -> bool {
    match (
        LaxSlicedPacket::from_ethernet(frame),
        LaxPacketHeaders::from_ethernet(frame),
    ) {
        (Ok(sliced), Ok(headers)) => {
            same_exts(sliced.link_exts.as_slice(), headers.link_exts.as_slice())
                && same_net(&sliced.net, &headers.net)
                && same_transport(
                    &sliced.transport,
                    &headers.transport,
                    headers.payload.slice(),
                )
                && same_stop(&sliced.stop_err, &headers.stop_err)
        }
        (Err(error), Err(other)) => error == other,
        _ => false,
    }
}

fn same_exts(exts: &[LaxLinkExtSlice<'_>], headers: &[LinkExtHeader]) -> bool {
    if exts.len() != headers.len() {
        return false;
    }
    for (ext, header) in exts.iter().zip(headers) {
        if ext.to_header() != *header {
            return false;
        }
    }
    true
}

fn same_net(net: &Option<LaxNetSlice<'_>>, headers: &Option<NetHeaders>) -> bool {
    match (net, headers) {
        (Some(LaxNetSlice::Ipv4(packet)), Some(NetHeaders::Ipv4(header, exts))) => {
            packet.header().to_header() == *header && packet.extensions().to_header() == *exts
        }
        (Some(LaxNetSlice::Ipv6(packet)), Some(NetHeaders::Ipv6(header, _))) => {
            packet.header().to_header() == *header
        }
        (Some(LaxNetSlice::Arp(packet)), Some(NetHeaders::Arp(header))) => {
            packet.to_header() == *header
        }
        (None, None) => true,
        _ => false,
    }
}

fn same_transport(
    part: &Option<TransportSlice<'_>>,
    header: &Option<TransportHeader>,
    payload: &[u8],
) -> bool {
    match (part, header) {
        (Some(part), Some(header)) => part.to_header() == *header && part.payload() == payload,
        (None, None) => true,
        _ => false,
    }
}

fn same_stop(stop: &Option<(SliceError, Layer)>, other: &Option<(SliceError, Layer)>) -> bool {
    match (stop, other) {
        (Some((SliceError::Len(error), layer)), Some((SliceError::Len(other), other_layer))) => {
            layer == other_layer
                && error.required_len == other.required_len
                && error.len == other.len
                && error.layer_start_offset == other.layer_start_offset
        }
        (stop, other) => stop == other,
    }
}

/// The headers of a cut frame, extension headers aside, are those of the whole frame as far as it has
/// them, and its transport payload begins that of the whole.
fn is_front(cut: &LaxSlicedPacket<'_>, whole: &LaxSlicedPacket<'_>) -> bool {
    let exts = whole.link_exts.as_slice();
    if exts.len() < cut.link_exts.len() {
        return false;
    }
    for (ext, other) in cut.link_exts.as_slice().iter().zip(exts) {
        if ext.to_header() != other.to_header() {
            return false;
        }
    }
    let net = match (&cut.net, &whole.net) {
        (Some(LaxNetSlice::Ipv4(packet)), Some(LaxNetSlice::Ipv4(other))) => {
            packet.header() == other.header()
        }
        (Some(LaxNetSlice::Ipv6(packet)), Some(LaxNetSlice::Ipv6(other))) => {
            packet.header() == other.header()
        }
        (None, _) => true,
        _ => false,
    };
    let transport = match (&cut.transport, &whole.transport) {
        (Some(part), Some(other)) => {
            part.to_header() == other.to_header() && other.payload().starts_with(part.payload())
        }
        (None, _) => true,
        _ => false,
    };
    net && transport
}

#[test]
fn each_length_of_a_frame_has_a_front_of_its_parts(rt: HostRuntime) -> Result<(), Fail> {
    let frames: [&[u8]; 4] = [&DNS, &SECURED, &CHAIN, &AUTHENTICATED];
    for frame in frames {
        let whole = LaxSlicedPacket::from_ethernet(frame)?;
        for len in 0..frame.len() {
            let cut = front(frame, len);
            assert!(rt; is_same(cut), "{len}");
            if len >= 14 {
                let sliced = LaxSlicedPacket::from_ethernet(cut)?;
                let headers = LaxPacketHeaders::from_ethernet(cut)?;
                assert!(rt; agrees(&sliced, &headers), "{len}");
                assert!(rt; is_front(&sliced, &whole), "{len}");
            }
        }
    }
    Ok(())
}

#[test]
fn a_flipped_bit_changes_both_dissectors_alike(rt: HostRuntime) {
    let mut secured = SECURED;
    for bit in 0..352 {
        secured[bit / 8] ^= 1 << (bit % 8);
        assert!(rt; is_same(&secured), "{bit}");
        secured[bit / 8] ^= 1 << (bit % 8);
    }
    let mut chain = CHAIN;
    for bit in 0..792 {
        chain[bit / 8] ^= 1 << (bit % 8);
        assert!(rt; is_same(&chain), "{bit}");
        chain[bit / 8] ^= 1 << (bit % 8);
    }
}
