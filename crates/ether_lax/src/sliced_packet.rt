//! Packets cut into slices.
ghost use Rattle.std.specs.Prelude.{◌≡◌, ℕ, IfOk, Some, None, take, map, option_map, option_and_then};
ghost use Rattle.ether_link.specs.Form.{Reads, no_map};
ghost use Rattle.ether_link.specs.Ethernet2.{ethernet2_form};
ghost use Rattle.ether_link.specs.LinkGrammar.{by_ether_type};
ghost use Rattle.ether_link.specs.declared.len_source.LenSource.TheVariants.{Slice};
ghost use Rattle.ether_link.specs.declared.layout.PartKind.TheVariants as kind;
ghost use Rattle.ether_link.specs.declared.link.LinkSlice.TheVariants as link;
ghost use Rattle.ether_ip.specs.Ip.{ip_slice_form};
ghost use Rattle.ether_lax.specs.EtherParts.{payload_of_link};
ghost use Rattle.ether_lax.specs.LinkExts.{ether_in};

use crate::sliced::sliced;
use crate::step::{by_ether_type, first};
use crate::{LaxEtherPayloadSlice, LaxLinkExtSlice, LaxNetSlice};
use arrayvec::ArrayVec;
use ether_ip::err::ip::LaxHeaderSliceError;
use ether_ip::err::packet::SliceError;
use ether_ip::{LaxIpPayloadSlice, TransportSlice, ip_header_len};
use ether_link::err::{Layer, LenError};
use ether_link::{
    DoubleVlanSlice, EtherPayloadSlice, EtherType, Ethernet2Slice, LenSource, LinkSlice,
    LinuxSllProtocolType, PartKind, SingleVlanSlice, VlanId, VlanSlice,
};

/// A packet cut into slices: every part that is there, and what stopped the dissection.
#[derive(Clone, Debug, Drop, PartialEq, Eq)]
pub struct LaxSlicedPacket<'a> {
    pub link: Option<LinkSlice<'a>>,
    /// The VLAN tags and MACsec parts, three at most.
    pub link_exts: ArrayVec<LaxLinkExtSlice<'a>, 3>,
    pub net: Option<LaxNetSlice<'a>>,
    pub transport: Option<TransportSlice<'a>>,
    /// What stopped the dissection, counted from the first byte that was handed in, and the layer of
    /// the refused part.
    pub stop_err: Option<(SliceError, Layer)>,
}

impl<'a> LaxSlicedPacket<'a> {
    ghost use Rattle.ether_lax.specs.CutPackets.{IsCutPacket};
    ghost use Rattle.ether_lax.specs.EtherParts.{payload_of_link, payload_behind};
    ghost use Rattle.ether_lax.specs.LinkExts.{ext_in, ether_in};
    ghost use Rattle.ether_lax.specs.Nets.{net_in, payload_of_ip, payload_of_net};
    ghost use Rattle.ether_lax.specs.Sliced.{HoldsLayout, IsPayloadLink, sliced_in};
    ghost use Rattle.ether_lax.specs.Steps.{begins_with};
    ghost use Rattle.ether_lax.specs.Tags.{first_tags, tags_of, ids_of};
    ghost use Rattle.ether_lax.specs.declared.sliced_packet.LaxSlicedPacket.{LaxSlicedPacket};

    /// How many link extensions are read at most.
    pub const LINK_EXTS_CAP: usize = 3;

    /// The parts of an Ethernet frame without a check sequence at its end. It is refused where it has
    /// fewer than 14 bytes.
    pub fn from_ethernet(slice: &'a [u8]) -> Result<LaxSlicedPacket<'a>, LenError>
        ensures value { Reads (ethernet2_form no_map) slice.now result (λ packet.
            (packet.link ≡ Some (link.Ethernet2 slice.now))
            × HoldsLayout slice.now (begins_with kind.Ethernet2) packet) }
        ensures cut { IfOk result (λ packet. (n : ℕ) (kept : LaxSlicedPacket)
            → HoldsLayout (take n slice.now) (begins_with kind.Ethernet2) kept
            → IsCutPacket slice.now n (sliced_in kept) (sliced_in packet)) }
    {
        let frame = Ethernet2Slice::from_slice_without_fcs(slice)?;
        let link = Some(LinkSlice::Ethernet2(frame));
        Ok(sliced(slice, link, first(PartKind::Ethernet2)))
    }

    /// The parts behind an ether type.
    pub fn from_ether_type(ether_type: EtherType, slice: &'a [u8]) -> LaxSlicedPacket<'a>
        ensures link { IsPayloadLink ether_type slice.now result.link }
        ensures value { HoldsLayout slice.now (by_ether_type 0 ether_type.0) result }
    {
        let link = Some(LinkSlice::EtherPayload(EtherPayloadSlice {
            ether_type,
            len_source: LenSource::Slice,
            payload: slice,
        }));
        sliced(slice, link, by_ether_type(0, ether_type.0))
    }

    /// The parts of an IP packet. It is refused where its header is.
    pub fn from_ip(slice: &'a [u8]) -> Result<LaxSlicedPacket<'a>, LaxHeaderSliceError>
        ensures value { Reads ip_slice_form slice.now result (λ packet.
            (packet.link ≡ None) × HoldsLayout slice.now (begins_with kind.Ip) packet) }
    {
        let _header_len = ip_header_len(slice)?;
        Ok(sliced(slice, None, first(PartKind::Ip)))
    }

    /// The first VLAN tag, or the first two.
    pub fn vlan(&self) -> Option<VlanSlice<'a>>
        ensures value { result ≡ first_tags (tags_of (map ext_in self.now.link_exts.items)) }
    {
        let tags = self.tags();
        match tags.as_slice() {
            [] => None,
            [tag] => Some(VlanSlice::SingleVlan(tag.copied())),
            [outer, inner, ..] => Some(VlanSlice::DoubleVlan(DoubleVlanSlice {
                outer: outer.copied(),
                inner: inner.copied(),
            })),
        }
    }

    /// The VLAN tags.
    #[tactic(auto, using(crate::proofs::TagLemmas::tags_more, crate::proofs::TagLemmas::no_tag, crate::proofs::TagLemmas::tags_len))]
    fn tags(&self) -> ArrayVec<SingleVlanSlice<'a>, 3>
        ensures { result.items ≡ tags_of (map ext_in self.now.link_exts.items) }
    {
        let mut tags = ArrayVec::new();
        for ext in self.link_exts.as_slice() {
            match ext {
                LaxLinkExtSlice::Vlan(tag) => tags.push(tag.copied()),
                LaxLinkExtSlice::Macsec(_) => {}
            }
        }
        tags
    }

    /// The numbers of the VLAN tags.
    #[tactic(auto, using(crate::proofs::TagLemmas::ids_next, crate::proofs::TagLemmas::ids_same, crate::proofs::TagLemmas::ids_len, crate::proofs::TagLemmas::tags_len))]
    pub fn vlan_ids(&self) -> ArrayVec<VlanId, 3>
        ensures value { result.items ≡ ids_of (tags_of (map ext_in self.now.link_exts.items)) }
    {
        let mut ids = ArrayVec::new();
        for ext in self.link_exts.as_slice() {
            match ext {
                LaxLinkExtSlice::Vlan(tag) => ids.push(tag.vlan_id()),
                LaxLinkExtSlice::Macsec(_) => {}
            }
        }
        ids
    }

    /// What the last link extension carries, or else the link: nothing where that is encrypted or
    /// changed by MACsec, or where no ether type names it. The length of what a tag carries is that of
    /// the last security tag before it whose payload has one.
    #[tactic(auto, using(crate::proofs::TagLemmas::drop_next, crate::proofs::TagLemmas::none_left))]
    pub fn ether_payload(&self) -> Option<LaxEtherPayloadSlice<'a>>
        ensures value { option_map ether_in result ≡ payload_behind (payload_of_link self.now.link) Slice
            (map ext_in self.now.link_exts.items) }
    {
        let mut payload = payload_of_link(&self.link);
        let mut source = LenSource::Slice;
        for ext in self.link_exts.as_slice() {
            payload = ext.payload_in(source);
            source = ext.source_behind(source);
        }
        payload
    }

    /// What is behind the headers of the IP packet.
    pub fn ip_payload(&self) -> Option<&LaxIpPayloadSlice<'a>>
        ensures value { option_map (λ payload. payload_of_ip payload.now) result
            ≡ option_and_then payload_of_net (option_map net_in self.now.net) }
    {
        match &self.net {
            Some(net) => net.ip_payload_ref(),
            None => None,
        }
    }
}

/// What a link carries, where an ether type names it.
fn payload_of_link<'a>(link: &Option<LinkSlice<'a>>) -> Option<LaxEtherPayloadSlice<'a>>
    ensures { option_map ether_in result ≡ payload_of_link link.now }
{
    let (ether_type, payload) = match link {
        Some(LinkSlice::Ethernet2(frame)) => {
            let payload = frame.payload();
            (payload.ether_type, payload.payload)
        }
        Some(LinkSlice::EtherPayload(payload)) => (payload.ether_type, payload.payload),
        Some(LinkSlice::LinuxSll(packet)) => {
            let payload = packet.payload();
            match payload.protocol_type {
                LinuxSllProtocolType::EtherType(ether_type) => (ether_type, payload.payload),
                _ => return None,
            }
        }
        Some(LinkSlice::LinuxSllPayload(payload)) => match payload.protocol_type {
            LinuxSllProtocolType::EtherType(ether_type) => (ether_type, payload.payload),
            _ => return None,
        },
        None => return None,
    };
    Some(LaxEtherPayloadSlice {
        incomplete: false,
        ether_type,
        len_source: LenSource::Slice,
        payload,
    })
}
