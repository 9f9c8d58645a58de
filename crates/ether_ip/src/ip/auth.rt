//! IP authentication headers (RFC 4302, section 2).
ghost use Rattle.std.specs.Prelude.{◌≡◌, ℕ, ◌+◌, ◌-◌, ◌*◌, ◌≤◌, ◌↔◌, IfOk, List, length, take, drop, slice_index, nat_eq};
ghost use Rattle.std.specs.Cmp.Lexicographic.{pointwise, nat_list_eq_equiv};
ghost use Rattle.std.specs.Cmp.{partial_equiv_from_equiv};
ghost use Rattle.wire_base.specs.Bytes.{be32_at};
ghost use Rattle.ether_link.specs.Form.{Reads, header_len};
ghost use Rattle.ether_ip.specs.Auth.{auth_slice_form, auth_header};

use crate::err::ip_auth::{HeaderError, HeaderSliceError};
use arrayvec::ArrayVec;
use ether_link::bounded::bounded_bytes;
use ether_link::err::{Layer, LenError};
use ether_link::{IpNumber, LenSource};
use std::marker::Model;
use wire_base::number::read_be32;

/// The fields of an authentication header.
#[derive(Clone, Debug, Drop, PartialEq, Eq)]
pub struct IpAuthHeader {
    /// What stands behind the header.
    pub next_header: IpNumber,
    /// The security parameters index.
    pub spi: u32,
    pub sequence_number: u32,
    /// The integrity check value.
    pub icv: ArrayVec<u8, 1016>,
}

/// The bytes of an authentication header. A contract sees them.
#[derive(Clone, Debug, Drop)]
pub struct IpAuthHeaderSlice<'a> {
    slice: &'a [u8],
}

impl<'a> Model for IpAuthHeaderSlice<'a> {
    ghost use Rattle.std.specs.Prelude.{ℕ, List};
    ghost use Rattle.ether_link.specs.Form.{IsHeader};
    ghost use Rattle.ether_ip.specs.Auth.{auth_slice_form};

    ghost Value = { List ℕ };

    ghost view = { λ part. part.slice.now };

    ghost invariant = { λ part. IsHeader auth_slice_form part.slice.now };
}

impl<'a> IpAuthHeaderSlice<'a> {
    /// The header that a slice begins with.
    #[tactic(auto, using(ether_link::proofs::FormLemmas::is_header))]
    pub fn from_slice(slice: &'a [u8]) -> Result<IpAuthHeaderSlice<'a>, HeaderSliceError>
        ensures { Reads auth_slice_form slice.now result
            (λ part. part ≡ take (header_len auth_slice_form slice.now) slice.now) }
    {
        let header_len = accepted_len(slice)?;
        Ok(IpAuthHeaderSlice {
            slice: &slice[..header_len],
        })
    }

    /// The bytes of the header.
    pub fn slice(&self) -> &'a [u8]
        ensures value { result.now ≡ self.now }
    {
        self.slice
    }

    pub fn header_len(&self) -> usize
        ensures value { result ≡ length self.now }
    {
        self.slice.len()
    }

    /// What stands behind the header.
    pub fn next_header(&self) -> IpNumber
        ensures value { result.0 ≡ slice_index self.now 0 }
    {
        IpNumber(self.slice[0])
    }

    /// The security parameters index.
    pub fn spi(&self) -> u32
        ensures value { result ≡ be32_at self.now 4 }
    {
        read_be32(self.slice, 4)
    }

    pub fn sequence_number(&self) -> u32
        ensures value { result ≡ be32_at self.now 8 }
    {
        read_be32(self.slice, 8)
    }

    /// The integrity check value.
    #[tactic(auto, using(crate::proofs::ExtLemmas::auth_len))]
    pub fn icv(&self) -> &'a [u8]
        ensures value { result.now ≡ drop 12 self.now }
        ensures within { length result.now ≤ 1016 }
    {
        let header_len = (usize::from(self.slice[1]) + 2) * 4;
        &self.slice[12..header_len]
    }

    pub fn to_header(&self) -> IpAuthHeader
        ensures value { result ≡ auth_header self.now }
    {
        IpAuthHeader {
            next_header: self.next_header(),
            spi: self.spi(),
            sequence_number: self.sequence_number(),
            icv: bounded_bytes(self.icv()),
        }
    }
}

/// The length of the header that a slice begins with.
fn accepted_len(slice: &[u8]) -> Result<usize, HeaderSliceError>
    ensures { Reads auth_slice_form slice.now result
        (λ len. len ≡ header_len auth_slice_form slice.now) }
{
    let wrong_len = |required_len: usize| {
        let (layer, source) = (Layer::IpAuthHeader, LenSource::Slice);
        HeaderSliceError::Len(LenError::at_start(layer, source, slice.len(), required_len))
    };
    if slice.len() < 12 {
        return Err(wrong_len(12));
    }
    if slice[1] == 0 {
        return Err(HeaderSliceError::Content(HeaderError::ZeroPayloadLen));
    }
    let header_len = (usize::from(slice[1]) + 2) * 4;
    if slice.len() < header_len {
        return Err(wrong_len(header_len));
    }
    Ok(header_len)
}

impl<'a> PartialEq for IpAuthHeaderSlice<'a> {
    ghost eq = { pointwise nat_eq };

    ghost laws = { partial_equiv_from_equiv nat_list_eq_equiv };

    fn eq(&self, other: &Self) -> bool {
        self.slice == other.slice
    }
}

impl<'a> Eq for IpAuthHeaderSlice<'a> {
    ghost laws = { nat_list_eq_equiv };
}
