//! IPv4 packets, or as much of one as is there.
ghost use Rattle.std.specs.Prelude.{◌≡◌};
ghost use Rattle.ether_link.specs.Form.{Reads};
ghost use Rattle.ether_ip.specs.Ipv4.{ipv4_slice_form};
ghost use Rattle.ether_lax.specs.IpParts.{IsIpPacket, IsAuthStop, chain_stop};
ghost use Rattle.ether_lax.specs.declared.ip.LaxIpSlice.TheVariants as version;

use crate::LaxIpSlice;
use crate::ip::ip_packet;
use ether_ip::err::{ip_auth, ipv4, ipv6_exts};
use ether_ip::{Ipv4ExtensionsSlice, Ipv4HeaderSlice, LaxIpPayloadSlice};
use ether_link::IpNumber;
use ether_link::err::Layer;

/// An IPv4 header, the authentication header behind it, and the payload.
#[derive(Clone, Debug, Drop, PartialEq, Eq)]
pub struct LaxIpv4Slice<'a> {
    pub(crate) header: Ipv4HeaderSlice<'a>,
    pub(crate) exts: Ipv4ExtensionsSlice<'a>,
    pub(crate) payload: LaxIpPayloadSlice<'a>,
}

impl<'a> LaxIpv4Slice<'a> {
    ghost use Rattle.ether_lax.specs.Nets.{ipv4_bytes, ipv4_auth, ipv4_payload, payload_of_ip};

    /// The headers of an IPv4 packet and their payload, or as much of it as is there. It is refused
    /// where the IPv4 header is. Where the authentication header is refused, the payload begins there;
    /// the refusal counts from the start of the packet.
    #[tactic(auto, using(crate::proofs::VersionLemmas::accepted_four))]
    pub fn from_slice(
        slice: &'a [u8],
    ) -> Result<(LaxIpv4Slice<'a>, Option<ip_auth::HeaderSliceError>), ipv4::HeaderSliceError>
        ensures value { Reads ipv4_slice_form slice.now result
            (λ read. IsIpPacket slice.now (version.Ipv4 read.0) (chain_stop read.1)) }
    {
        let _header = Ipv4HeaderSlice::from_slice(slice)?;
        let (packet, stop) = ip_packet(slice);
        match packet {
            LaxIpSlice::Ipv4(packet) => Ok((packet, auth_stop(stop))),
            LaxIpSlice::Ipv6(_) => unreachable!(),
        }
    }

    pub fn header(&self) -> &Ipv4HeaderSlice<'a>
        ensures value { result.now ≡ ipv4_bytes self.now }
    {
        &self.header
    }

    pub fn extensions(&self) -> &Ipv4ExtensionsSlice<'a>
        ensures value { result.now.auth ≡ ipv4_auth self.now }
    {
        &self.exts
    }

    /// What is behind the headers.
    pub fn payload(&self) -> &LaxIpPayloadSlice<'a>
        ensures value { payload_of_ip result.now ≡ ipv4_payload self.now }
    {
        &self.payload
    }

    /// What the payload holds.
    pub fn payload_ip_number(&self) -> IpNumber
        ensures value { result ≡ (ipv4_payload self.now).number }
    {
        self.payload.ip_number
    }

    /// The payload is only a part of that of a datagram.
    pub fn is_payload_fragmented(&self) -> bool
        ensures value { result ≡ (ipv4_payload self.now).fragmented }
    {
        self.payload.fragmented
    }
}

/// What stopped a reader of the headers of an IPv4 packet.
fn auth_stop(
    stop: Option<(ipv6_exts::HeaderSliceError, Layer)>,
) -> Option<ip_auth::HeaderSliceError>
    requires { IsAuthStop stop }
    ensures { stop ≡ chain_stop result }
{
    match stop {
        Some((ipv6_exts::HeaderSliceError::Len(error), _)) => {
            Some(ip_auth::HeaderSliceError::Len(error))
        }
        Some((ipv6_exts::HeaderSliceError::Content(error), _)) => match error {
            ipv6_exts::HeaderError::IpAuth(error) => {
                Some(ip_auth::HeaderSliceError::Content(error))
            }
            ipv6_exts::HeaderError::HopByHopNotAtStart => unreachable!(),
        },
        None => None,
    }
}
