//! IPv6 headers (RFC 8200, section 3).
ghost use Rattle.std.specs.Prelude.{◌≡◌, ℕ, ◌+◌, ◌*◌, ◌/◌, ◌%◌, ◌≤◌, ◌↔◌, List, length, take, slice_index, nat_eq};
ghost use Rattle.std.specs.Cmp.Lexicographic.{pointwise, nat_list_eq_equiv};
ghost use Rattle.std.specs.Cmp.{partial_equiv_from_equiv};
ghost use Rattle.std.specs.Net.Addr.{ipv6_segments, segments_of};
ghost use Rattle.wire_base.specs.Bytes.{bytes_between, be16_at};
ghost use Rattle.ether_link.specs.Form.{Reads, header_len};
ghost use Rattle.ether_ip.specs.Version.{ip_version};
ghost use Rattle.ether_ip.specs.Ipv6.{ipv6_slice_form};

use crate::err::ipv6::{HeaderError, HeaderSliceError};
use ether_link::err::{Layer, LenError};
use ether_link::{IpNumber, LenSource};
use std::marker::Model;
use std::net::Ipv6Addr;
use wire_base::number::{read_array, read_be16, read_be32};

/// The fields of an IPv6 header.
#[derive(Clone, Copy, Debug, PartialEq, Eq)]
pub struct Ipv6Header {
    pub traffic_class: u8,
    /// 20 bits.
    pub flow_label: u32,
    /// The number of bytes behind the header.
    pub payload_length: u16,
    /// What stands behind the header.
    pub next_header: IpNumber,
    pub hop_limit: u8,
    pub source: [u8; 16],
    pub destination: [u8; 16],
}

impl Ipv6Header {
    /// The number of bytes of a header.
    pub const LEN: usize = 40;
}

/// The bytes of an IPv6 header. A contract sees them.
#[derive(Clone, Debug, Drop)]
pub struct Ipv6HeaderSlice<'a> {
    slice: &'a [u8],
}

impl<'a> Model for Ipv6HeaderSlice<'a> {
    ghost use Rattle.std.specs.Prelude.{ℕ, List};
    ghost use Rattle.ether_link.specs.Form.{IsHeader};
    ghost use Rattle.ether_ip.specs.Ipv6.{ipv6_slice_form};

    ghost Value = { List ℕ };

    ghost view = { λ part. part.slice.now };

    ghost invariant = { λ part. IsHeader ipv6_slice_form part.slice.now };
}

impl<'a> Ipv6HeaderSlice<'a> {
    ghost use Rattle.ether_ip.specs.Ipv6.{ipv6_header, traffic_class, flow_label};

    /// The header that a slice begins with.
    #[tactic(auto, using(ether_link::proofs::FormLemmas::is_header))]
    pub fn from_slice(slice: &'a [u8]) -> Result<Ipv6HeaderSlice<'a>, HeaderSliceError>
        ensures { Reads ipv6_slice_form slice.now result
            (λ part. part ≡ take (header_len ipv6_slice_form slice.now) slice.now) }
    {
        let header_len = accepted_len(slice)?;
        Ok(Ipv6HeaderSlice {
            slice: &slice[..header_len],
        })
    }

    /// The bytes of the header.
    pub fn slice(&self) -> &'a [u8]
        ensures value { result.now ≡ self.now }
    {
        self.slice
    }

    pub fn header_len(&self) -> usize
        ensures value { result ≡ length self.now }
    {
        self.slice.len()
    }

    pub fn version(&self) -> u8
        ensures value { result ≡ ip_version self.now }
    {
        self.slice[0] >> 4
    }

    pub fn traffic_class(&self) -> u8
        ensures value { result ≡ traffic_class self.now }
    {
        ((read_be16(self.slice, 0) >> 4) & 0xff) as u8
    }

    /// 20 bits.
    pub fn flow_label(&self) -> u32
        ensures value { result ≡ flow_label self.now }
    {
        read_be32(self.slice, 0) & 0xf_ffff
    }

    /// The number of bytes behind the header.
    pub fn payload_length(&self) -> u16
        ensures value { result ≡ be16_at self.now 4 }
    {
        read_be16(self.slice, 4)
    }

    /// What stands behind the header.
    pub fn next_header(&self) -> IpNumber
        ensures value { result.0 ≡ slice_index self.now 6 }
    {
        IpNumber(self.slice[6])
    }

    pub fn hop_limit(&self) -> u8
        ensures value { result ≡ slice_index self.now 7 }
    {
        self.slice[7]
    }

    pub fn source(&self) -> [u8; 16]
        ensures value { result ≡ bytes_between 8 24 self.now }
    {
        read_array(self.slice, 8)
    }

    pub fn source_addr(&self) -> Ipv6Addr
        ensures value { ipv6_segments result ≡ segments_of (bytes_between 8 24 self.now) }
    {
        Ipv6Addr::from_octets(self.source())
    }

    pub fn destination(&self) -> [u8; 16]
        ensures value { result ≡ bytes_between 24 40 self.now }
    {
        read_array(self.slice, 24)
    }

    pub fn destination_addr(&self) -> Ipv6Addr
        ensures value { ipv6_segments result ≡ segments_of (bytes_between 24 40 self.now) }
    {
        Ipv6Addr::from_octets(self.destination())
    }

    pub fn to_header(&self) -> Ipv6Header
        ensures value { result ≡ ipv6_header self.now }
    {
        Ipv6Header {
            traffic_class: self.traffic_class(),
            flow_label: self.flow_label(),
            payload_length: self.payload_length(),
            next_header: self.next_header(),
            hop_limit: self.hop_limit(),
            source: self.source(),
            destination: self.destination(),
        }
    }
}

/// The length of the header that a slice begins with.
fn accepted_len(slice: &[u8]) -> Result<usize, HeaderSliceError>
    ensures { Reads ipv6_slice_form slice.now result
        (λ len. len ≡ header_len ipv6_slice_form slice.now) }
{
    if slice.len() < Ipv6Header::LEN {
        return Err(HeaderSliceError::Len(LenError::at_start(
            Layer::Ipv6Header,
            LenSource::Slice,
            slice.len(),
            Ipv6Header::LEN,
        )));
    }
    let version_number = slice[0] >> 4;
    if version_number != 6 {
        return Err(HeaderSliceError::Content(HeaderError::UnexpectedVersion { version_number }));
    }
    Ok(Ipv6Header::LEN)
}

impl<'a> PartialEq for Ipv6HeaderSlice<'a> {
    ghost eq = { pointwise nat_eq };

    ghost laws = { partial_equiv_from_equiv nat_list_eq_equiv };

    fn eq(&self, other: &Self) -> bool {
        self.slice == other.slice
    }
}

impl<'a> Eq for Ipv6HeaderSlice<'a> {
    ghost laws = { nat_list_eq_equiv };
}
