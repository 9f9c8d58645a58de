//! Ethernet II frames (RFC 894; IEEE 802.3, section 3).
ghost use Rattle.std.specs.Prelude.{◌≡◌, ℕ, ◌+◌, ◌*◌, ◌≤◌, ◌↔◌, List, length, drop, nat_eq};
ghost use Rattle.std.specs.Cmp.Lexicographic.{pointwise, nat_list_eq_equiv};
ghost use Rattle.std.specs.Cmp.{partial_equiv_from_equiv};
ghost use Rattle.wire_base.specs.Bytes.{bytes_between, be16_at};
ghost use Rattle.ether_link.specs.Form.{Reads, no_map};

use crate::err::{Layer, LenError};
use crate::{EtherPayloadSlice, EtherType, LenSource};
use std::marker::Model;
use wire_base::number::{read_array, read_be16};

/// The fields of an Ethernet II header.
#[derive(Clone, Copy, Debug, PartialEq, Eq)]
pub struct Ethernet2Header {
    pub source: [u8; 6],
    pub destination: [u8; 6],
    pub ether_type: EtherType,
}

/// A header and what it carries. A contract sees the bytes.
#[derive(Clone, Debug, Drop)]
pub struct Ethernet2Slice<'a> {
    slice: &'a [u8],
}

impl<'a> Model for Ethernet2Slice<'a> {
    ghost Value = { List ℕ };

    ghost view = { λ part. part.slice.now };

    ghost invariant = { λ part. 14 ≤ length part.slice.now };
}

impl<'a> Ethernet2Slice<'a> {
    ghost use Rattle.ether_link.specs.Ethernet2.{ethernet2_form, ethernet2_header};

    /// A frame that has no check sequence at its end.
    pub fn from_slice_without_fcs(slice: &'a [u8]) -> Result<Ethernet2Slice<'a>, LenError>
        ensures { Reads (ethernet2_form no_map) slice.now result (λ part. part ≡ slice.now) }
    {
        if slice.len() < 14 {
            return Err(LenError::at_start(
                Layer::Ethernet2Header,
                LenSource::Slice,
                slice.len(),
                14,
            ));
        }
        Ok(Ethernet2Slice { slice })
    }

    /// The whole frame.
    pub fn slice(&self) -> &'a [u8]
        ensures value { result.now ≡ self.now }
    {
        self.slice
    }

    pub fn destination(&self) -> [u8; 6]
        ensures value { result ≡ bytes_between 0 6 self.now }
    {
        read_array(self.slice, 0)
    }

    pub fn source(&self) -> [u8; 6]
        ensures value { result ≡ bytes_between 6 12 self.now }
    {
        read_array(self.slice, 6)
    }

    /// What the frame carries.
    pub fn ether_type(&self) -> EtherType
        ensures value { result.0 ≡ be16_at self.now 12 }
    {
        EtherType(read_be16(self.slice, 12))
    }

    pub fn header_len(&self) -> usize
        ensures value { result ≡ 14 }
    {
        14
    }

    pub fn payload(&self) -> EtherPayloadSlice<'a>
        ensures value { result.payload.now ≡ drop 14 self.now }
        ensures ether_type { result.ether_type.0 ≡ be16_at self.now 12 }
        ensures source { result.len_source ≡ LenSource.Slice }
    {
        EtherPayloadSlice {
            ether_type: self.ether_type(),
            len_source: LenSource::Slice,
            payload: &self.slice[14..],
        }
    }

    pub fn to_header(&self) -> Ethernet2Header
        ensures value { result ≡ ethernet2_header self.now }
    {
        Ethernet2Header {
            source: self.source(),
            destination: self.destination(),
            ether_type: self.ether_type(),
        }
    }
}

impl<'a> PartialEq for Ethernet2Slice<'a> {
    ghost eq = { pointwise nat_eq };

    ghost laws = { partial_equiv_from_equiv nat_list_eq_equiv };

    fn eq(&self, other: &Self) -> bool {
        self.slice == other.slice
    }
}

impl<'a> Eq for Ethernet2Slice<'a> {
    ghost laws = { nat_list_eq_equiv };
}
