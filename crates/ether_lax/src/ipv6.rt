//! IPv6 packets, or as much of one as is there.
ghost use Rattle.std.specs.Prelude.{◌≡◌};
ghost use Rattle.ether_link.specs.Form.{Reads};
ghost use Rattle.ether_ip.specs.Ipv6.{ipv6_slice_form};
ghost use Rattle.ether_lax.specs.IpParts.{IsIpPacket};
ghost use Rattle.ether_lax.specs.declared.ip.LaxIpSlice.TheVariants as version;

use crate::LaxIpSlice;
use crate::ip::ip_packet;
use ether_ip::err::ipv6;
use ether_ip::err::ipv6_exts::HeaderSliceError;
use ether_ip::{Ipv6ExtensionsSlice, Ipv6HeaderSlice, LaxIpPayloadSlice};
use ether_link::IpNumber;
use ether_link::err::Layer;

/// An IPv6 header, the extension headers behind it, and the payload.
#[derive(Clone, Debug, Drop, PartialEq, Eq)]
pub struct LaxIpv6Slice<'a> {
    pub(crate) header: Ipv6HeaderSlice<'a>,
    pub(crate) exts: Ipv6ExtensionsSlice<'a>,
    pub(crate) payload: LaxIpPayloadSlice<'a>,
}

impl<'a> LaxIpv6Slice<'a> {
    ghost use Rattle.ether_lax.specs.Nets.{ipv6_bytes, ipv6_chain, ipv6_payload, payload_of_ip, chain_in};

    /// The headers of an IPv6 packet and their payload, or as much of it as is there. It is refused
    /// where the IPv6 header is. Where an extension header is refused, the payload begins there; the
    /// refusal counts from the start of the packet.
    #[tactic(auto, using(crate::proofs::VersionLemmas::accepted_six))]
    pub fn from_slice(
        slice: &'a [u8],
    ) -> Result<(LaxIpv6Slice<'a>, Option<(HeaderSliceError, Layer)>), ipv6::HeaderSliceError>
        ensures value { Reads ipv6_slice_form slice.now result
            (λ read. IsIpPacket slice.now (version.Ipv6 read.0) read.1) }
    {
        let _header = Ipv6HeaderSlice::from_slice(slice)?;
        let (packet, stop) = ip_packet(slice);
        match packet {
            LaxIpSlice::Ipv6(packet) => Ok((packet, stop)),
            LaxIpSlice::Ipv4(_) => unreachable!(),
        }
    }

    pub fn header(&self) -> &Ipv6HeaderSlice<'a>
        ensures value { result.now ≡ ipv6_bytes self.now }
    {
        &self.header
    }

    pub fn extensions(&self) -> &Ipv6ExtensionsSlice<'a>
        ensures value { chain_in result.now ≡ ipv6_chain self.now }
    {
        &self.exts
    }

    /// What is behind the headers.
    pub fn payload(&self) -> &LaxIpPayloadSlice<'a>
        ensures value { payload_of_ip result.now ≡ ipv6_payload self.now }
    {
        &self.payload
    }

    /// What the payload holds.
    pub fn payload_ip_number(&self) -> IpNumber
        ensures value { result ≡ (ipv6_payload self.now).number }
    {
        self.payload.ip_number
    }

    /// The payload is only a part of that of a packet.
    pub fn is_payload_fragmented(&self) -> bool
        ensures value { result ≡ (ipv6_payload self.now).fragmented }
    {
        self.payload.fragmented
    }
}
