//! VLAN tags (IEEE 802.1Q, section 9.6).
ghost use Rattle.std.specs.Prelude.{◌≡◌, ℕ, ◌+◌, ◌*◌, ◌/◌, ◌%◌, ◌≤◌, ◌↔◌, List, length, drop, slice_index, nat_eq};
ghost use Rattle.std.specs.Cmp.Lexicographic.{pointwise, nat_list_eq_equiv};
ghost use Rattle.std.specs.Cmp.{partial_equiv_from_equiv};
ghost use Rattle.wire_base.specs.Bytes.{be16_at, flag_at};
ghost use Rattle.ether_link.specs.Form.{Reads, no_map};

use crate::err::{Layer, LenError};
use crate::{EtherPayloadSlice, EtherType, LenSource, VlanId};
use std::marker::Model;
use wire_base::number::{read_be16, read_flag};

/// The four bytes of a tag.
#[derive(Clone, Copy, Debug, Default, PartialEq, Eq)]
pub struct SingleVlanHeader {
    /// The priority code point, 0 to 7.
    pub pcp: u8,
    pub drop_eligible_indicator: bool,
    pub vlan_id: VlanId,
    /// What is behind the tag.
    pub ether_type: EtherType,
}

/// Two tags, one behind the other.
#[derive(Clone, Copy, Debug, PartialEq, Eq)]
pub struct DoubleVlanHeader {
    pub outer: SingleVlanHeader,
    pub inner: SingleVlanHeader,
}

/// One tag or two.
#[derive(Clone, Copy, Debug, PartialEq, Eq)]
pub enum VlanHeader {
    Single(SingleVlanHeader),
    Double(DoubleVlanHeader),
}

/// A tag and what it carries. A contract sees the bytes.
#[derive(Clone, Debug, Drop)]
pub struct SingleVlanSlice<'a> {
    slice: &'a [u8],
}

impl<'a> Model for SingleVlanSlice<'a> {
    ghost Value = { List ℕ };

    ghost view = { λ part. part.slice.now };

    ghost invariant = { λ part. 4 ≤ length part.slice.now };
}

impl<'a> SingleVlanSlice<'a> {
    ghost use Rattle.ether_link.specs.Vlan.{vlan_form, vlan_header};

    /// A tag and all that is behind it.
    pub fn from_slice(slice: &'a [u8]) -> Result<SingleVlanSlice<'a>, LenError>
        ensures { Reads (vlan_form no_map) slice.now result (λ part. part ≡ slice.now) }
    {
        if slice.len() < 4 {
            return Err(LenError::at_start(Layer::VlanHeader, LenSource::Slice, slice.len(), 4));
        }
        Ok(SingleVlanSlice { slice })
    }

    /// The tag and all that is behind it.
    pub fn slice(&self) -> &'a [u8]
        ensures value { result.now ≡ self.now }
    {
        self.slice
    }

    /// The same tag, as a copy that takes no memory.
    pub fn copied(&self) -> SingleVlanSlice<'a>
        ensures value { result ≡ self.now }
    {
        SingleVlanSlice { slice: self.slice }
    }

    /// The priority code point, 0 to 7.
    pub fn pcp(&self) -> u8
        ensures value { result ≡ slice_index self.now 0 / 32 }
    {
        self.slice[0] >> 5
    }

    pub fn drop_eligible_indicator(&self) -> bool
        ensures value { result ≡ flag_at self.now 0 4 }
    {
        read_flag(self.slice, 0, 4)
    }

    pub fn vlan_id(&self) -> VlanId
        ensures value { result ≡ be16_at self.now 0 % 4096 }
    {
        VlanId::of_low_bits(read_be16(self.slice, 0))
    }

    /// What is behind the tag.
    pub fn ether_type(&self) -> EtherType
        ensures value { result.0 ≡ be16_at self.now 2 }
    {
        EtherType(read_be16(self.slice, 2))
    }

    pub fn header_len(&self) -> usize
        ensures value { result ≡ 4 }
    {
        4
    }

    pub fn payload(&self) -> EtherPayloadSlice<'a>
        ensures value { result.payload.now ≡ drop 4 self.now }
        ensures ether_type { result.ether_type.0 ≡ be16_at self.now 2 }
        ensures source { result.len_source ≡ LenSource.Slice }
    {
        EtherPayloadSlice {
            ether_type: self.ether_type(),
            len_source: LenSource::Slice,
            payload: &self.slice[4..],
        }
    }

    pub fn to_header(&self) -> SingleVlanHeader
        ensures value { result ≡ vlan_header self.now }
    {
        SingleVlanHeader {
            pcp: self.pcp(),
            drop_eligible_indicator: self.drop_eligible_indicator(),
            vlan_id: self.vlan_id(),
            ether_type: self.ether_type(),
        }
    }
}

impl<'a> PartialEq for SingleVlanSlice<'a> {
    ghost eq = { pointwise nat_eq };

    ghost laws = { partial_equiv_from_equiv nat_list_eq_equiv };

    fn eq(&self, other: &Self) -> bool {
        self.slice == other.slice
    }
}

impl<'a> Eq for SingleVlanSlice<'a> {
    ghost laws = { nat_list_eq_equiv };
}

/// Four zero bytes.
impl<'a> Default for SingleVlanSlice<'a> {
    ghost use Rattle.std.specs.Prelude.{replicate};

    ghost is_default = { λ part. part ≡ replicate 4 0 };

    fn default() -> SingleVlanSlice<'a> {
        SingleVlanSlice { slice: &[0; 4] }
    }
}

/// Two tags, one behind the other.
#[derive(Clone, Debug, Drop, PartialEq, Eq)]
pub struct DoubleVlanSlice<'a> {
    pub outer: SingleVlanSlice<'a>,
    pub inner: SingleVlanSlice<'a>,
}

impl<'a> DoubleVlanSlice<'a> {
    ghost use Rattle.ether_link.specs.Vlan.{vlan_header};

    /// The outer tag and all that is behind it.
    pub fn slice(&self) -> &'a [u8]
        ensures value { result.now ≡ self.now.outer }
    {
        self.outer.slice()
    }

    /// What is behind the inner tag.
    pub fn payload(&self) -> EtherPayloadSlice<'a>
        ensures value { result.payload.now ≡ drop 4 self.now.inner }
        ensures ether_type { result.ether_type.0 ≡ be16_at self.now.inner 2 }
        ensures source { result.len_source ≡ LenSource.Slice }
    {
        self.inner.payload()
    }

    pub fn to_header(&self) -> DoubleVlanHeader
        ensures value { result
            ≡ record { outer = vlan_header self.now.outer; inner = vlan_header self.now.inner } }
    {
        DoubleVlanHeader {
            outer: self.outer.to_header(),
            inner: self.inner.to_header(),
        }
    }
}

/// One tag or two.
#[derive(Clone, Debug, Drop, PartialEq, Eq)]
pub enum VlanSlice<'a> {
    SingleVlan(SingleVlanSlice<'a>),
    DoubleVlan(DoubleVlanSlice<'a>),
}

impl<'a> VlanSlice<'a> {
    ghost use Rattle.ether_link.specs.VlanSlices.{header_of_tags, bytes_of_tags, last_tag};

    /// The outer tag and all that is behind it.
    pub fn slice(&self) -> &'a [u8]
        ensures value { result.now ≡ bytes_of_tags self.now }
    {
        match self {
            VlanSlice::SingleVlan(tag) => tag.slice(),
            VlanSlice::DoubleVlan(tags) => tags.slice(),
        }
    }

    /// What is behind the last tag.
    pub fn payload(&self) -> EtherPayloadSlice<'a>
        ensures value { result.payload.now ≡ drop 4 (last_tag self.now) }
        ensures ether_type { result.ether_type.0 ≡ be16_at (last_tag self.now) 2 }
        ensures source { result.len_source ≡ LenSource.Slice }
    {
        match self {
            VlanSlice::SingleVlan(tag) => tag.payload(),
            VlanSlice::DoubleVlan(tags) => tags.payload(),
        }
    }

    pub fn to_header(&self) -> VlanHeader
        ensures value { result ≡ header_of_tags self.now }
    {
        match self {
            VlanSlice::SingleVlan(tag) => VlanHeader::Single(tag.to_header()),
            VlanSlice::DoubleVlan(tags) => VlanHeader::Double(tags.to_header()),
        }
    }
}
