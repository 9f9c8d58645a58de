//! The security tag of a MACsec frame (IEEE 802.1AE, section 9).
ghost use Rattle.std.specs.Prelude.{◌≡◌, ℕ, ◌+◌, ◌-◌, ◌*◌, ◌/◌, ◌%◌, ◌≤◌, ◌↔◌, List, length, take, slice_index, nat_eq, not};
ghost use Rattle.std.specs.Cmp.Lexicographic.{pointwise, nat_list_eq_equiv};
ghost use Rattle.std.specs.Cmp.{partial_equiv_from_equiv};
ghost use Rattle.wire_base.specs.Bytes.{be16_at, be32_at, flag_at};
ghost use Rattle.ether_link.specs.Form.{Reads, header_len};
ghost use Rattle.ether_link.specs.Macsec.{macsec_slice_form};

use crate::err::macsec::{HeaderError, HeaderSliceError};
use crate::err::{Layer, LenError};
use crate::{EtherType, LenSource};
use std::marker::Model;
use wire_base::number::{read_be16, read_be32, read_be64, read_flag};

/// What was done to the payload (IEEE 802.1AE, section 9.5), and what it holds where nothing was.
#[derive(Clone, Copy, Debug, PartialEq, Eq, Hash, PartialOrd, Ord)]
pub enum MacsecPType {
    /// Neither encrypted nor changed.
    Unmodified(EtherType),
    /// Changed and not encrypted.
    Modified,
    Encrypted,
    /// Encrypted, although it says that it was not changed.
    EncryptedUnmodified,
}

/// The fields of a security tag.
#[derive(Clone, Copy, Debug, PartialEq, Eq)]
pub struct MacsecHeader {
    pub ptype: MacsecPType,
    pub endstation_id: bool,
    /// Single copy broadcast.
    pub scb: bool,
    /// The association number, 0 to 3.
    pub an: u8,
    /// The number of bytes behind the tag where there are fewer than 48, and else 0.
    pub short_len: u8,
    pub packet_nr: u32,
    /// The secure channel identifier.
    pub sci: Option<u64>,
}

/// The bytes of a security tag. A contract sees them.
#[derive(Clone, Debug, Drop)]
pub struct MacsecHeaderSlice<'a> {
    slice: &'a [u8],
}

impl<'a> Model for MacsecHeaderSlice<'a> {
    ghost use Rattle.std.specs.Prelude.{ℕ, List};
    ghost use Rattle.ether_link.specs.Form.{IsHeader};
    ghost use Rattle.ether_link.specs.Macsec.{macsec_slice_form};

    ghost Value = { List ℕ };

    ghost view = { λ part. part.slice.now };

    ghost invariant = { λ part. IsHeader macsec_slice_form part.slice.now };
}

impl<'a> MacsecHeaderSlice<'a> {
    ghost use Rattle.ether_link.specs.Macsec.{macsec_header, is_unmodified, macsec_ptype, macsec_sci, macsec_next_ether_type, expected_len};

    /// The tag that a slice begins with.
    #[tactic(auto, using(crate::proofs::FormLemmas::is_header))]
    pub fn from_slice(slice: &'a [u8]) -> Result<MacsecHeaderSlice<'a>, HeaderSliceError>
        ensures { Reads macsec_slice_form slice.now result
            (λ part. part ≡ take (header_len macsec_slice_form slice.now) slice.now) }
    {
        let header_len = accepted_len(slice)?;
        Ok(MacsecHeaderSlice {
            slice: &slice[..header_len],
        })
    }

    /// The bytes of the tag.
    pub fn slice(&self) -> &'a [u8]
        ensures value { result.now ≡ self.now }
    {
        self.slice
    }

    pub fn header_len(&self) -> usize
        ensures value { result ≡ length self.now }
    {
        self.slice.len()
    }

    /// The payload is encrypted.
    pub fn encrypted(&self) -> bool
        ensures value { result ≡ flag_at self.now 0 3 }
    {
        read_flag(self.slice, 0, 3)
    }

    /// The payload is not the one that was handed to MACsec.
    pub fn userdata_changed(&self) -> bool
        ensures value { result ≡ flag_at self.now 0 2 }
    {
        read_flag(self.slice, 0, 2)
    }

    /// The payload is neither encrypted nor changed.
    pub fn is_unmodified(&self) -> bool
        ensures value { result ≡ is_unmodified self.now }
    {
        !self.encrypted() && !self.userdata_changed()
    }

    pub fn endstation_id(&self) -> bool
        ensures value { result ≡ flag_at self.now 0 6 }
    {
        read_flag(self.slice, 0, 6)
    }

    /// Single copy broadcast.
    pub fn scb(&self) -> bool
        ensures value { result ≡ flag_at self.now 0 4 }
    {
        read_flag(self.slice, 0, 4)
    }

    /// The association number, 0 to 3.
    pub fn an(&self) -> u8
        ensures value { result ≡ slice_index self.now 0 % 4 }
    {
        self.slice[0] & 3
    }

    /// The number of bytes behind the tag where there are fewer than 48, and else 0.
    pub fn short_len(&self) -> u8
        ensures value { result ≡ slice_index self.now 1 % 64 }
    {
        self.slice[1] & 0x3f
    }

    pub fn packet_nr(&self) -> u32
        ensures value { result ≡ be32_at self.now 2 }
    {
        read_be32(self.slice, 2)
    }

    /// The secure channel identifier.
    pub fn sci(&self) -> Option<u64>
        ensures value { result ≡ macsec_sci self.now }
    {
        if read_flag(self.slice, 0, 5) {
            Some(read_be64(self.slice, 6))
        } else {
            None
        }
    }

    /// What the payload holds, where it is neither encrypted nor changed.
    pub fn next_ether_type(&self) -> Option<EtherType>
        ensures value { result ≡ macsec_next_ether_type self.now }
    {
        if self.is_unmodified() {
            Some(EtherType(read_be16(self.slice, self.slice.len() - 2)))
        } else {
            None
        }
    }

    pub fn ptype(&self) -> MacsecPType
        ensures value { result ≡ macsec_ptype self.now }
    {
        match (
            self.next_ether_type(),
            self.encrypted(),
            self.userdata_changed(),
        ) {
            (Some(ether_type), _, _) => MacsecPType::Unmodified(ether_type),
            (None, false, _) => MacsecPType::Modified,
            (None, true, true) => MacsecPType::Encrypted,
            (None, true, false) => MacsecPType::EncryptedUnmodified,
        }
    }

    /// How many bytes follow the tag, as the short length says, if it says so.
    #[tactic(auto, using(crate::proofs::MacsecLemmas::no_short_len_of_one))]
    pub fn expected_payload_len(&self) -> Option<usize>
        ensures value { result ≡ expected_len self.now }
    {
        match (usize::from(self.slice[1] & 0x3f), self.is_unmodified()) {
            (0, _) => None,
            (len, true) => Some(len - 2),
            (len, false) => Some(len),
        }
    }

    pub fn to_header(&self) -> MacsecHeader
        ensures value { result ≡ macsec_header self.now }
    {
        MacsecHeader {
            ptype: self.ptype(),
            endstation_id: self.endstation_id(),
            scb: self.scb(),
            an: self.an(),
            short_len: self.short_len(),
            packet_nr: self.packet_nr(),
            sci: self.sci(),
        }
    }
}

/// The length of the tag that a slice begins with.
fn accepted_len(slice: &[u8]) -> Result<usize, HeaderSliceError>
    ensures { Reads macsec_slice_form slice.now result
        (λ len. len ≡ header_len macsec_slice_form slice.now) }
{
    let wrong_len = |required_len: usize| {
        let (layer, source) = (Layer::MacsecHeader, LenSource::Slice);
        HeaderSliceError::Len(LenError::at_start(layer, source, slice.len(), required_len))
    };
    if slice.len() < 6 {
        return Err(wrong_len(6));
    }
    if read_flag(slice, 0, 7) {
        return Err(HeaderSliceError::Content(HeaderError::UnexpectedVersion));
    }
    let unmodified = !read_flag(slice, 0, 3) && !read_flag(slice, 0, 2);
    let sci_len = if read_flag(slice, 0, 5) { 8 } else { 0 };
    let type_len = if unmodified { 2 } else { 0 };
    let header_len = 6 + sci_len + type_len;
    if slice.len() < header_len {
        return Err(wrong_len(header_len));
    }
    if unmodified && slice[1] & 0x3f == 1 {
        return Err(HeaderSliceError::Content(HeaderError::InvalidUnmodifiedShortLen));
    }
    Ok(header_len)
}

impl<'a> PartialEq for MacsecHeaderSlice<'a> {
    ghost eq = { pointwise nat_eq };

    ghost laws = { partial_equiv_from_equiv nat_list_eq_equiv };

    fn eq(&self, other: &Self) -> bool {
        self.slice == other.slice
    }
}

impl<'a> Eq for MacsecHeaderSlice<'a> {
    ghost laws = { nat_list_eq_equiv };
}
