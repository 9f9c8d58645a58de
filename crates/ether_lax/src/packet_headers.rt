//! The headers of packets as structs.
ghost use Rattle.std.specs.Prelude.{◌≡◌, IfOk, Some, None, false, drop};
ghost use Rattle.wire_base.specs.Bytes.{be16_at};
ghost use Rattle.ether_link.specs.Form.{Reads, no_map};
ghost use Rattle.ether_link.specs.Ethernet2.{ethernet2_form, ethernet2_header};
ghost use Rattle.ether_link.specs.LinkGrammar.{by_ether_type};
ghost use Rattle.ether_link.specs.LinuxSll.{linux_sll_slice_form};
ghost use Rattle.ether_link.specs.declared.len_source.LenSource.TheVariants.{Slice};
ghost use Rattle.ether_link.specs.declared.layout.PartKind.TheVariants as kind;
ghost use Rattle.ether_link.specs.declared.link.LinkHeader.TheVariants as header;
ghost use Rattle.ether_ip.specs.Ip.{ip_slice_form};
ghost use Rattle.ether_lax.specs.Payloads.{carried_in, carried_by_cooked};

use crate::headers::headers;
use crate::step::{by_ether_type, first};
use crate::{LaxEtherPayloadSlice, LaxPayloadSlice};
use arrayvec::ArrayVec;
use ether_ip::err::ip::LaxHeaderSliceError;
use ether_ip::err::packet::SliceError;
use ether_ip::{NetHeaders, TransportHeader, ip_header_len};
use ether_link::err::linux_sll::HeaderSliceError;
use ether_link::err::{Layer, LenError};
use ether_link::{
    DoubleVlanHeader, EtherType, Ethernet2Slice, LenSource, LinkExtHeader, LinkHeader,
    LinuxSllPayloadSlice, LinuxSllProtocolType, LinuxSllSlice, PartKind, SingleVlanHeader,
    VlanHeader, VlanId,
};

/// The headers of a packet as structs: every header that is there, and what stopped the dissection.
/// There is one place for each extension header of IPv6, and one more for destination options behind a
/// routing header; a header whose place is taken ends the dissection.
#[derive(Clone, Debug, Drop, PartialEq, Eq)]
pub struct LaxPacketHeaders<'a> {
    pub link: Option<LinkHeader>,
    /// The VLAN tags and MACsec headers, three at most.
    pub link_exts: ArrayVec<LinkExtHeader, 3>,
    pub net: Option<NetHeaders>,
    pub transport: Option<TransportHeader>,
    /// What is behind the last header.
    pub payload: LaxPayloadSlice<'a>,
    /// What stopped the dissection, counted from the first byte that was handed in, and the layer of
    /// the refused part.
    pub stop_err: Option<(SliceError, Layer)>,
}

impl<'a> LaxPacketHeaders<'a> {
    ghost use Rattle.ether_lax.specs.Agreement.{AgreeOn, FindsPlaces};
    ghost use Rattle.ether_lax.specs.Headers.{HoldsHeaders, HoldsCooked};
    ghost use Rattle.ether_lax.specs.Payloads.{OfLink, Nothing};
    ghost use Rattle.ether_lax.specs.Sliced.{HoldsLayout};
    ghost use Rattle.ether_lax.specs.Steps.{begins_with};
    ghost use Rattle.ether_lax.specs.Tags.{tag_headers, first_headers, header_ids};
    ghost use Rattle.ether_lax.specs.declared.sliced_packet.LaxSlicedPacket.{LaxSlicedPacket};

    /// How many link extensions are read at most.
    pub const LINK_EXTS_CAP: usize = 3;

    /// The headers of an Ethernet frame without a check sequence at its end. It is refused where it
    /// has fewer than 14 bytes.
    pub fn from_ethernet(slice: &'a [u8]) -> Result<LaxPacketHeaders<'a>, LenError>
        ensures value { let payload = OfLink (record {
          incomplete = false;
          ether_type = record { 0 = be16_at slice.now 12 };
          source = Slice;
          bytes = drop 14 slice.now;
        }) in
            Reads (ethernet2_form no_map) slice.now result (λ packet.
            (packet.link ≡ Some (header.Ethernet2 (ethernet2_header slice.now)))
            × HoldsHeaders slice.now (begins_with kind.Ethernet2) payload packet) }
        ensures agrees { IfOk result (λ headers. (packet : LaxSlicedPacket)
            → HoldsLayout slice.now (begins_with kind.Ethernet2) packet
            → FindsPlaces slice.now (begins_with kind.Ethernet2) → AgreeOn packet headers) }
    {
        let frame = Ethernet2Slice::from_slice_without_fcs(slice)?;
        let payload = frame.payload();
        let start = LaxPayloadSlice::Ether(LaxEtherPayloadSlice {
            incomplete: false,
            ether_type: payload.ether_type,
            len_source: payload.len_source,
            payload: payload.payload,
        });
        let link = Some(LinkHeader::Ethernet2(frame.to_header()));
        Ok(headers(slice, link, start, first(PartKind::Ethernet2)))
    }

    /// The headers behind an ether type.
    pub fn from_ether_type(ether_type: EtherType, slice: &'a [u8]) -> LaxPacketHeaders<'a>
        ensures link { result.link ≡ None }
        ensures value { HoldsHeaders slice.now (by_ether_type 0 ether_type.0)
            (OfLink (record {
              incomplete = false;
              ether_type = ether_type;
              source = Slice;
              bytes = slice.now;
            })) result }
        ensures agrees { (packet : LaxSlicedPacket)
            → HoldsLayout slice.now (by_ether_type 0 ether_type.0) packet
            → FindsPlaces slice.now (by_ether_type 0 ether_type.0) → AgreeOn packet result }
    {
        let start = LaxPayloadSlice::Ether(LaxEtherPayloadSlice {
            incomplete: false,
            ether_type,
            len_source: LenSource::Slice,
            payload: slice,
        });
        headers(slice, None, start, by_ether_type(0, ether_type.0))
    }

    /// The headers of an IP packet. It is refused where its header is.
    pub fn from_ip(slice: &'a [u8]) -> Result<LaxPacketHeaders<'a>, LaxHeaderSliceError>
        ensures value { Reads ip_slice_form slice.now result (λ packet.
            (packet.link ≡ None) × HoldsHeaders slice.now (begins_with kind.Ip) Nothing packet) }
        ensures agrees { IfOk result (λ headers. (packet : LaxSlicedPacket)
            → HoldsLayout slice.now (begins_with kind.Ip) packet
            → FindsPlaces slice.now (begins_with kind.Ip) → AgreeOn packet headers) }
    {
        let _header_len = ip_header_len(slice)?;
        Ok(headers(slice, None, LaxPayloadSlice::Empty, first(PartKind::Ip)))
    }

    /// The headers of a packet of a Linux cooked capture. It is refused where its first header is.
    pub fn from_linux_sll(slice: &'a [u8]) -> Result<LaxPacketHeaders<'a>, HeaderSliceError>
        ensures value { Reads linux_sll_slice_form slice.now result
            (λ packet. HoldsCooked slice.now packet) }
    {
        let packet = LinuxSllSlice::from_slice(slice)?;
        let header = packet.to_header();
        let start = cooked_payload(&packet, header.protocol_type);
        let link = Some(LinkHeader::LinuxSll(header));
        Ok(headers(slice, link, start, first(PartKind::LinuxSll)))
    }

    /// The first VLAN tag, or the first two.
    pub fn vlan(&self) -> Option<VlanHeader>
        ensures value { result ≡ first_headers (tag_headers self.now.link_exts.items) }
    {
        let tags = self.tags();
        match tags.as_slice() {
            [] => None,
            [tag] => Some(VlanHeader::Single(*tag)),
            [outer, inner, ..] => Some(VlanHeader::Double(DoubleVlanHeader {
                outer: *outer,
                inner: *inner,
            })),
        }
    }

    /// The numbers of the VLAN tags.
    #[tactic(auto, using(crate::proofs::TagLemmas::tag_headers_more, crate::proofs::TagLemmas::header_ids_more, crate::proofs::TagLemmas::header_ids_len))]
    pub fn vlan_ids(&self) -> ArrayVec<VlanId, 3>
        ensures value { result.items ≡ header_ids (tag_headers self.now.link_exts.items) }
    {
        let mut ids = ArrayVec::new();
        for ext in self.link_exts.as_slice() {
            if let LinkExtHeader::Vlan(tag) = ext {
                ids.push(tag.vlan_id);
            }
        }
        ids
    }

    /// The VLAN tags.
    #[tactic(auto, using(crate::proofs::TagLemmas::tag_headers_more, crate::proofs::TagLemmas::tag_headers_len))]
    fn tags(&self) -> ArrayVec<SingleVlanHeader, 3>
        ensures { result.items ≡ tag_headers self.now.link_exts.items }
    {
        let mut tags = ArrayVec::new();
        for ext in self.link_exts.as_slice() {
            if let LinkExtHeader::Vlan(tag) = ext {
                tags.push(*tag);
            }
        }
        tags
    }
}

/// What a cooked packet carries.
fn cooked_payload<'a>(
    packet: &LinuxSllSlice<'a>,
    protocol_type: LinuxSllProtocolType,
) -> LaxPayloadSlice<'a>
    ensures { carried_in result ≡ carried_by_cooked protocol_type packet.now }
{
    let payload = packet.payload().payload;
    match protocol_type {
        LinuxSllProtocolType::EtherType(ether_type) => {
            LaxPayloadSlice::Ether(LaxEtherPayloadSlice {
                incomplete: false,
                ether_type,
                len_source: LenSource::Slice,
                payload,
            })
        }
        protocol_type => LaxPayloadSlice::LinuxSll(LinuxSllPayloadSlice {
            protocol_type,
            payload,
        }),
    }
}
