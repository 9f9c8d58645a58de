//! UDP datagrams (RFC 768).
ghost use Rattle.std.specs.Prelude.{◌≡◌, ℕ, ◌+◌, ◌≤◌, ◌↔◌, List, length, take, drop, nat_eq};
ghost use Rattle.std.specs.Cmp.Lexicographic.{pointwise, nat_list_eq_equiv};
ghost use Rattle.std.specs.Cmp.{partial_equiv_from_equiv};
ghost use Rattle.wire_base.specs.Bytes.{be16_at};
ghost use Rattle.ether_link.specs.Form.{Reads, no_map};
ghost use Rattle.ether_link.specs.Layout.{window_end};

use ether_link::LenSource;
use ether_link::err::{Layer, LenError};
use std::marker::Model;
use wire_base::number::read_be16;

/// The fields of a UDP header.
#[derive(Clone, Copy, Debug, PartialEq, Eq)]
pub struct UdpHeader {
    pub source_port: u16,
    pub destination_port: u16,
    /// The number of bytes of header and payload, as the sender says.
    pub length: u16,
    /// 0 where the sender made none.
    pub checksum: u16,
}

/// A header and what it carries. A contract sees the bytes.
#[derive(Clone, Debug, Drop)]
pub struct UdpSlice<'a> {
    slice: &'a [u8],
}

impl<'a> Model for UdpSlice<'a> {
    ghost Value = { List ℕ };

    ghost view = { λ part. part.slice.now };

    ghost invariant = { λ part. 8 ≤ length part.slice.now };
}

impl<'a> UdpSlice<'a> {
    ghost use Rattle.ether_ip.specs.Udp.{udp_form, udp_announced, udp_header};

    /// The datagram up to its length field, or the whole slice where that has no room for the header or
    /// says more than there is.
    pub fn from_slice_lax(slice: &'a [u8]) -> Result<UdpSlice<'a>, LenError>
        ensures { Reads (udp_form no_map) slice.now result
            (λ part. part ≡ take
            (window_end 0 (length slice.now) (udp_announced (take 8 slice.now))) slice.now) }
    {
        if slice.len() < 8 {
            return Err(LenError::at_start(Layer::UdpHeader, LenSource::Slice, slice.len(), 8));
        }
        let length = usize::from(read_be16(slice, 4));
        if 8 <= length && length <= slice.len() {
            Ok(UdpSlice {
                slice: &slice[..length],
            })
        } else {
            Ok(UdpSlice { slice })
        }
    }

    /// The header and all that is behind it.
    pub fn slice(&self) -> &'a [u8]
        ensures value { result.now ≡ self.now }
    {
        self.slice
    }

    pub fn source_port(&self) -> u16
        ensures value { result ≡ be16_at self.now 0 }
    {
        read_be16(self.slice, 0)
    }

    pub fn destination_port(&self) -> u16
        ensures value { result ≡ be16_at self.now 2 }
    {
        read_be16(self.slice, 2)
    }

    /// The length field, which may be any number.
    pub fn length(&self) -> u16
        ensures value { result ≡ be16_at self.now 4 }
    {
        read_be16(self.slice, 4)
    }

    /// 0 where the sender made none.
    pub fn checksum(&self) -> u16
        ensures value { result ≡ be16_at self.now 6 }
    {
        read_be16(self.slice, 6)
    }

    pub fn header_len(&self) -> usize
        ensures value { result ≡ 8 }
    {
        8
    }

    pub fn payload(&self) -> &'a [u8]
        ensures value { result.now ≡ drop 8 self.now }
    {
        &self.slice[8..]
    }

    pub fn to_header(&self) -> UdpHeader
        ensures value { result ≡ udp_header self.now }
    {
        UdpHeader {
            source_port: self.source_port(),
            destination_port: self.destination_port(),
            length: self.length(),
            checksum: self.checksum(),
        }
    }
}

impl<'a> PartialEq for UdpSlice<'a> {
    ghost eq = { pointwise nat_eq };

    ghost laws = { partial_equiv_from_equiv nat_list_eq_equiv };

    fn eq(&self, other: &Self) -> bool {
        self.slice == other.slice
    }
}

impl<'a> Eq for UdpSlice<'a> {
    ghost laws = { nat_list_eq_equiv };
}
