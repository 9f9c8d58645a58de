//! Fragment headers of IPv6 (RFC 8200, section 4.5).
ghost use Rattle.std.specs.Prelude.{◌≡◌, ℕ, ◌+◌, ◌*◌, ◌/◌, ◌≤◌, ◌↔◌, IfOk, List, length, take, slice_index, nat_eq};
ghost use Rattle.std.specs.Cmp.Lexicographic.{pointwise, nat_list_eq_equiv};
ghost use Rattle.std.specs.Cmp.{partial_equiv_from_equiv};
ghost use Rattle.wire_base.specs.Bytes.{be32_at, flag_at};
ghost use Rattle.ether_ip.specs.Fragment.{fragment_form, fragment_header};
ghost use Rattle.ether_link.specs.Form.{Reads, header_len, no_map};

use ether_link::err::{Layer, LenError};
use ether_link::{IpNumber, LenSource};
use std::marker::Model;
use wire_base::number::{read_be16, read_be32, read_flag};

/// The fields of a fragment header.
#[derive(Clone, Copy, Debug, PartialEq, Eq)]
pub struct Ipv6FragmentHeader {
    /// What stands behind the header.
    pub next_header: IpNumber,
    /// Where the payload stands in that of the packet, in units of 8 bytes, 0 to 8191.
    pub fragment_offset: u16,
    pub more_fragments: bool,
    pub identification: u32,
}

/// The bytes of a fragment header. A contract sees them.
#[derive(Clone, Debug, Drop)]
pub struct Ipv6FragmentHeaderSlice<'a> {
    slice: &'a [u8],
}

impl<'a> Model for Ipv6FragmentHeaderSlice<'a> {
    ghost Value = { List ℕ };

    ghost view = { λ part. part.slice.now };

    ghost invariant = { λ part. length part.slice.now ≡ 8 };
}

impl<'a> Ipv6FragmentHeaderSlice<'a> {
    ghost use Rattle.ether_ip.specs.Fragment.{ipv6_fragment_offset, is_ipv6_fragment};

    /// The header that a slice begins with.
    pub fn from_slice(slice: &'a [u8]) -> Result<Ipv6FragmentHeaderSlice<'a>, LenError>
        ensures { Reads (fragment_form no_map) slice.now result
            (λ part. part ≡ take (header_len (fragment_form no_map) slice.now) slice.now) }
    {
        let header_len = accepted_len(slice)?;
        Ok(Ipv6FragmentHeaderSlice {
            slice: &slice[..header_len],
        })
    }

    /// The bytes of the header.
    pub fn slice(&self) -> &'a [u8]
        ensures value { result.now ≡ self.now }
    {
        self.slice
    }

    pub fn header_len(&self) -> usize
        ensures value { result ≡ length self.now }
    {
        self.slice.len()
    }

    /// What stands behind the header.
    pub fn next_header(&self) -> IpNumber
        ensures value { result.0 ≡ slice_index self.now 0 }
    {
        IpNumber(self.slice[0])
    }

    /// Where the payload stands in that of the packet, in units of 8 bytes, 0 to 8191.
    pub fn fragment_offset(&self) -> u16
        ensures value { result ≡ ipv6_fragment_offset self.now }
    {
        read_be16(self.slice, 2) >> 3
    }

    pub fn more_fragments(&self) -> bool
        ensures value { result ≡ flag_at self.now 3 0 }
    {
        read_flag(self.slice, 3, 0)
    }

    pub fn identification(&self) -> u32
        ensures value { result ≡ be32_at self.now 4 }
    {
        read_be32(self.slice, 4)
    }

    /// The payload is only a part of that of a packet.
    pub fn is_fragmenting_payload(&self) -> bool
        ensures value { result ≡ is_ipv6_fragment self.now }
    {
        self.more_fragments() || self.fragment_offset() != 0
    }

    pub fn to_header(&self) -> Ipv6FragmentHeader
        ensures value { result ≡ fragment_header self.now }
    {
        Ipv6FragmentHeader {
            next_header: self.next_header(),
            fragment_offset: self.fragment_offset(),
            more_fragments: self.more_fragments(),
            identification: self.identification(),
        }
    }
}

/// The length of the header that a slice begins with.
fn accepted_len(slice: &[u8]) -> Result<usize, LenError>
    ensures value { Reads (fragment_form no_map) slice.now result
        (λ len. len ≡ header_len (fragment_form no_map) slice.now) }
    ensures within { IfOk result (λ len. len ≡ 8) }
{
    if slice.len() < 8 {
        return Err(LenError::at_start(Layer::Ipv6FragHeader, LenSource::Slice, slice.len(), 8));
    }
    Ok(8)
}

impl<'a> PartialEq for Ipv6FragmentHeaderSlice<'a> {
    ghost eq = { pointwise nat_eq };

    ghost laws = { partial_equiv_from_equiv nat_list_eq_equiv };

    fn eq(&self, other: &Self) -> bool {
        self.slice == other.slice
    }
}

impl<'a> Eq for Ipv6FragmentHeaderSlice<'a> {
    ghost laws = { nat_list_eq_equiv };
}
