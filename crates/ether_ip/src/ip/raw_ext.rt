//! Extension headers of IPv6 that give their length in units of 8 bytes: hop-by-hop options, routing
//! and destination options (RFC 8200, sections 4.3, 4.4 and 4.6).
ghost use Rattle.std.specs.Prelude.{◌≡◌, ℕ, ◌+◌, ◌*◌, ◌≤◌, ◌↔◌, IsTrue, IfOk, List, length, take, drop, slice_index, nat_eq};
ghost use Rattle.std.specs.Cmp.Lexicographic.{pointwise, nat_list_eq_equiv};
ghost use Rattle.std.specs.Cmp.{partial_equiv_from_equiv};
ghost use Rattle.ether_link.specs.Form.{Reads, header_len, no_map};
ghost use Rattle.ether_ip.specs.RawExt.{raw_ext_layer, raw_ext_form, raw_ext_header};

use arrayvec::ArrayVec;
use ether_link::bounded::bounded_bytes;
use ether_link::err::{Layer, LenError};
use ether_link::{IpNumber, LenSource};
use std::marker::Model;

/// The fields of a header of hop-by-hop options, routing or destination options.
#[derive(Clone, Debug, Drop, PartialEq, Eq)]
pub struct Ipv6RawExtHeader {
    /// What stands behind the header.
    pub next_header: IpNumber,
    /// All behind the byte of the length.
    pub payload: ArrayVec<u8, 2046>,
}

/// The bytes of a header of hop-by-hop options, routing or destination options. A contract sees them.
#[derive(Clone, Debug, Drop)]
pub struct Ipv6RawExtHeaderSlice<'a> {
    slice: &'a [u8],
}

impl<'a> Model for Ipv6RawExtHeaderSlice<'a> {
    ghost use Rattle.std.specs.Prelude.{ℕ, List};
    ghost use Rattle.ether_ip.specs.RawExt.{IsRawExt};

    ghost Value = { List ℕ };

    ghost view = { λ part. part.slice.now };

    ghost invariant = { λ part. IsRawExt part.slice.now };
}

impl<'a> Ipv6RawExtHeaderSlice<'a> {
    /// The header that a slice begins with, of a number that was given: 0 for hop-by-hop options, 43
    /// for routing, and any other one for destination options, whose own is 60. The number only says
    /// which layer a length error names.
    #[tactic(auto, using(ether_link::proofs::FormLemmas::is_header))]
    pub fn from_slice(
        ip_number: IpNumber,
        slice: &'a [u8],
    ) -> Result<Ipv6RawExtHeaderSlice<'a>, LenError>
        ensures { Reads (raw_ext_form (raw_ext_layer ip_number.0) no_map) slice.now result
            (λ part. part
            ≡ take (header_len (raw_ext_form (raw_ext_layer ip_number.0) no_map) slice.now) slice.now) }
    {
        let header_len = accepted_len(layer_of(ip_number), slice)?;
        Ok(Ipv6RawExtHeaderSlice {
            slice: &slice[..header_len],
        })
    }

    /// The bytes of the header.
    pub fn slice(&self) -> &'a [u8]
        ensures value { result.now ≡ self.now }
    {
        self.slice
    }

    pub fn header_len(&self) -> usize
        ensures value { result ≡ length self.now }
    {
        self.slice.len()
    }

    /// What stands behind the header.
    pub fn next_header(&self) -> IpNumber
        ensures value { result.0 ≡ slice_index self.now 0 }
    {
        IpNumber(self.slice[0])
    }

    /// All behind the byte of the length.
    #[tactic(auto, using(crate::proofs::ExtLemmas::raw_ext_len))]
    pub fn payload(&self) -> &'a [u8]
        ensures value { result.now ≡ drop 2 self.now }
        ensures within { length result.now ≤ 2046 }
    {
        let header_len = (usize::from(self.slice[1]) + 1) * 8;
        &self.slice[2..header_len]
    }

    pub fn to_header(&self) -> Ipv6RawExtHeader
        ensures value { result ≡ raw_ext_header self.now }
    {
        Ipv6RawExtHeader {
            next_header: self.next_header(),
            payload: bounded_bytes(self.payload()),
        }
    }
}

/// The layer of a number.
fn layer_of(ip_number: IpNumber) -> Layer
    ensures value { result ≡ raw_ext_layer ip_number.0 }
{
    match ip_number {
        IpNumber::IPV6_HEADER_HOP_BY_HOP => Layer::Ipv6HopByHopHeader,
        IpNumber::IPV6_ROUTE_HEADER => Layer::Ipv6RouteHeader,
        _ => Layer::Ipv6DestOptionsHeader,
    }
}

/// The length of the header that a slice begins with.
fn accepted_len(layer: Layer, slice: &[u8]) -> Result<usize, LenError>
    ensures value { Reads (raw_ext_form layer no_map) slice.now result
        (λ len. len ≡ header_len (raw_ext_form layer no_map) slice.now) }
{
    if slice.len() < 8 {
        return Err(LenError::at_start(layer, LenSource::Slice, slice.len(), 8));
    }
    let header_len = (usize::from(slice[1]) + 1) * 8;
    if slice.len() < header_len {
        return Err(LenError::at_start(layer, LenSource::Slice, slice.len(), header_len));
    }
    Ok(header_len)
}

impl<'a> PartialEq for Ipv6RawExtHeaderSlice<'a> {
    ghost eq = { pointwise nat_eq };

    ghost laws = { partial_equiv_from_equiv nat_list_eq_equiv };

    fn eq(&self, other: &Self) -> bool {
        self.slice == other.slice
    }
}

impl<'a> Eq for Ipv6RawExtHeaderSlice<'a> {
    ghost laws = { nat_list_eq_equiv };
}
