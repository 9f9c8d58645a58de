//! TCP segments (RFC 9293, section 3.1; the NS bit: RFC 3540, section 9).
ghost use Rattle.std.specs.Prelude.{◌≡◌, ℕ, ◌+◌, ◌-◌, ◌*◌, ◌/◌, ◌%◌, ◌≤◌, ◌↔◌, List, length, min, drop, nat_eq};
ghost use Rattle.std.specs.Cmp.Lexicographic.{pointwise, nat_list_eq_equiv};
ghost use Rattle.std.specs.Cmp.{partial_equiv_from_equiv};
ghost use Rattle.wire_base.specs.Bytes.{be16_at, be32_at, flag_at};
ghost use Rattle.ether_link.specs.Form.{Reads, header_len};
ghost use Rattle.ether_ip.specs.Tcp.{tcp_slice_form, tcp_data_offset, tcp_options, tcp_header};

use crate::err::tcp::{HeaderError, HeaderSliceError};
use arrayvec::ArrayVec;
use ether_link::LenSource;
use ether_link::bounded::bounded_bytes;
use ether_link::err::{Layer, LenError};
use std::marker::Model;
use wire_base::number::{read_be16, read_be32, read_flag};

/// The fields of a TCP header.
#[derive(Clone, Debug, Drop, PartialEq, Eq)]
pub struct TcpHeader {
    pub source_port: u16,
    pub destination_port: u16,
    pub sequence_number: u32,
    pub acknowledgment_number: u32,
    /// The nonce sum.
    pub ns: bool,
    /// The sender has no more data.
    pub fin: bool,
    /// The sequence number is the first one.
    pub syn: bool,
    pub rst: bool,
    pub psh: bool,
    /// The acknowledgment number counts.
    pub ack: bool,
    /// The urgent pointer counts.
    pub urg: bool,
    /// A congestion mark came back (RFC 3168, section 6.1).
    pub ece: bool,
    /// The congestion window was reduced (RFC 3168, section 6.1).
    pub cwr: bool,
    /// Not scaled, as it stands in the header.
    pub window_size: u16,
    pub checksum: u16,
    pub urgent_pointer: u16,
    pub options: ArrayVec<u8, 40>,
}

/// An option of a TCP header (RFC 9293, section 3.2; RFC 7323, sections 2 and 3; RFC 2018, sections 2
/// and 3).
#[derive(Clone, Copy, Debug, PartialEq, Eq)]
pub enum TcpOptionElement {
    Noop,
    MaximumSegmentSize(u16),
    /// The number of places by which window sizes are shifted to the left.
    WindowScale(u8),
    SelectiveAcknowledgementPermitted,
    /// One to four blocks, each by its first sequence number and the one after its last.
    SelectiveAcknowledgement((u32, u32), [Option<(u32, u32)>; 3]),
    /// The sender's clock, and the clock that it echoes.
    Timestamp(u32, u32),
}

/// A header and what it carries. A contract sees the bytes.
#[derive(Clone, Debug, Drop)]
pub struct TcpSlice<'a> {
    slice: &'a [u8],
}

impl<'a> Model for TcpSlice<'a> {
    ghost use Rattle.std.specs.Prelude.{◌≡◌, ℕ, List, None};
    ghost use Rattle.ether_link.specs.Form.{refusal};
    ghost use Rattle.ether_ip.specs.Tcp.{tcp_slice_form};

    ghost Value = { List ℕ };

    ghost view = { λ part. part.slice.now };

    ghost invariant = { λ part. refusal tcp_slice_form part.slice.now ≡ None };
}

impl<'a> TcpSlice<'a> {
    /// A segment: its header and all that is behind it.
    pub fn from_slice(slice: &'a [u8]) -> Result<TcpSlice<'a>, HeaderSliceError>
        ensures { Reads tcp_slice_form slice.now result (λ part. part ≡ slice.now) }
    {
        let wrong_len = |required_len: usize| {
            let (layer, source) = (Layer::TcpHeader, LenSource::Slice);
            HeaderSliceError::Len(LenError::at_start(layer, source, slice.len(), required_len))
        };
        if slice.len() < 20 {
            return Err(wrong_len(20));
        }
        let data_offset = slice[12] >> 4;
        if data_offset < 5 {
            return Err(HeaderSliceError::Content(HeaderError::DataOffsetTooSmall { data_offset }));
        }
        let header_len = usize::from(data_offset) * 4;
        if slice.len() < header_len {
            return Err(wrong_len(header_len));
        }
        Ok(TcpSlice { slice })
    }

    /// The header and all that is behind it.
    pub fn slice(&self) -> &'a [u8]
        ensures value { result.now ≡ self.now }
    {
        self.slice
    }

    pub fn source_port(&self) -> u16
        ensures value { result ≡ be16_at self.now 0 }
    {
        read_be16(self.slice, 0)
    }

    pub fn destination_port(&self) -> u16
        ensures value { result ≡ be16_at self.now 2 }
    {
        read_be16(self.slice, 2)
    }

    pub fn sequence_number(&self) -> u32
        ensures value { result ≡ be32_at self.now 4 }
    {
        read_be32(self.slice, 4)
    }

    pub fn acknowledgment_number(&self) -> u32
        ensures value { result ≡ be32_at self.now 8 }
    {
        read_be32(self.slice, 8)
    }

    /// The length of the header in words of four bytes, 5 to 15.
    pub fn data_offset(&self) -> u8
        ensures value { result ≡ tcp_data_offset self.now }
        ensures within { 5 ≤ result }
    {
        self.slice[12] >> 4
    }

    /// The nonce sum.
    pub fn ns(&self) -> bool
        ensures value { result ≡ flag_at self.now 12 0 }
    {
        read_flag(self.slice, 12, 0)
    }

    /// The sender has no more data.
    pub fn fin(&self) -> bool
        ensures value { result ≡ flag_at self.now 13 0 }
    {
        read_flag(self.slice, 13, 0)
    }

    /// The sequence number is the first one.
    pub fn syn(&self) -> bool
        ensures value { result ≡ flag_at self.now 13 1 }
    {
        read_flag(self.slice, 13, 1)
    }

    pub fn rst(&self) -> bool
        ensures value { result ≡ flag_at self.now 13 2 }
    {
        read_flag(self.slice, 13, 2)
    }

    pub fn psh(&self) -> bool
        ensures value { result ≡ flag_at self.now 13 3 }
    {
        read_flag(self.slice, 13, 3)
    }

    /// The acknowledgment number counts.
    pub fn ack(&self) -> bool
        ensures value { result ≡ flag_at self.now 13 4 }
    {
        read_flag(self.slice, 13, 4)
    }

    /// The urgent pointer counts.
    pub fn urg(&self) -> bool
        ensures value { result ≡ flag_at self.now 13 5 }
    {
        read_flag(self.slice, 13, 5)
    }

    /// A congestion mark came back (RFC 3168, section 6.1).
    pub fn ece(&self) -> bool
        ensures value { result ≡ flag_at self.now 13 6 }
    {
        read_flag(self.slice, 13, 6)
    }

    /// The congestion window was reduced (RFC 3168, section 6.1).
    pub fn cwr(&self) -> bool
        ensures value { result ≡ flag_at self.now 13 7 }
    {
        read_flag(self.slice, 13, 7)
    }

    /// Not scaled, as it stands in the header.
    pub fn window_size(&self) -> u16
        ensures value { result ≡ be16_at self.now 14 }
    {
        read_be16(self.slice, 14)
    }

    pub fn checksum(&self) -> u16
        ensures value { result ≡ be16_at self.now 16 }
    {
        read_be16(self.slice, 16)
    }

    pub fn urgent_pointer(&self) -> u16
        ensures value { result ≡ be16_at self.now 18 }
    {
        read_be16(self.slice, 18)
    }

    pub fn header_len(&self) -> usize
        ensures value { result ≡ header_len tcp_slice_form self.now }
        ensures words { result ≡ tcp_data_offset self.now * 4 }
        ensures within { result ≤ min 60 (length self.now) }
    {
        usize::from(self.slice[12] >> 4) * 4
    }

    /// The header without its first five words.
    pub fn options(&self) -> &'a [u8]
        ensures value { result.now ≡ tcp_options self.now }
        ensures within { length result.now ≤ 40 }
    {
        &self.slice[20..self.header_len()]
    }

    pub fn payload(&self) -> &'a [u8]
        ensures value { result.now ≡ drop (header_len tcp_slice_form self.now) self.now }
    {
        &self.slice[self.header_len()..]
    }

    pub fn to_header(&self) -> TcpHeader
        ensures value { result ≡ tcp_header self.now }
    {
        TcpHeader {
            source_port: self.source_port(),
            destination_port: self.destination_port(),
            sequence_number: self.sequence_number(),
            acknowledgment_number: self.acknowledgment_number(),
            ns: self.ns(),
            fin: self.fin(),
            syn: self.syn(),
            rst: self.rst(),
            psh: self.psh(),
            ack: self.ack(),
            urg: self.urg(),
            ece: self.ece(),
            cwr: self.cwr(),
            window_size: self.window_size(),
            checksum: self.checksum(),
            urgent_pointer: self.urgent_pointer(),
            options: bounded_bytes(self.options()),
        }
    }
}

impl<'a> PartialEq for TcpSlice<'a> {
    ghost eq = { pointwise nat_eq };

    ghost laws = { partial_equiv_from_equiv nat_list_eq_equiv };

    fn eq(&self, other: &Self) -> bool {
        self.slice == other.slice
    }
}

impl<'a> Eq for TcpSlice<'a> {
    ghost laws = { nat_list_eq_equiv };
}
