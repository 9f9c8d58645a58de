//! IPv4 headers (RFC 791, section 3.1; RFC 2474, section 3; RFC 3168, section 5).
ghost use Rattle.std.specs.Prelude.{◌≡◌, ℕ, ◌+◌, ◌-◌, ◌*◌, ◌/◌, ◌%◌, ◌≤◌, ◌↔◌, List, length, take, drop, slice_index, nat_eq};
ghost use Rattle.std.specs.Cmp.Lexicographic.{pointwise, nat_list_eq_equiv};
ghost use Rattle.std.specs.Cmp.{partial_equiv_from_equiv};
ghost use Rattle.std.specs.Net.Addr.{ipv4_octets};
ghost use Rattle.wire_base.specs.Bytes.{bytes_between, be16_at, flag_at};
ghost use Rattle.ether_link.specs.Form.{Reads, header_len};
ghost use Rattle.ether_ip.specs.Version.{ip_version, ihl};
ghost use Rattle.ether_ip.specs.Ipv4.{ipv4_slice_form};

use crate::err::ipv4::{HeaderError, HeaderSliceError};
use arrayvec::ArrayVec;
use ether_link::bounded::bounded_bytes;
use ether_link::err::{Layer, LenError};
use ether_link::{IpNumber, LenSource};
use std::marker::Model;
use std::net::Ipv4Addr;
use wire_base::number::{read_array, read_be16, read_flag};

/// The fields of an IPv4 header.
#[derive(Clone, Debug, Drop, PartialEq, Eq)]
pub struct Ipv4Header {
    /// The differentiated services code point, 0 to 63.
    pub dscp: u8,
    /// The explicit congestion notification, 0 to 3.
    pub ecn: u8,
    /// The number of bytes of header and payload.
    pub total_len: u16,
    pub identification: u16,
    pub dont_fragment: bool,
    pub more_fragments: bool,
    /// Where the payload stands in that of the datagram, in units of 8 bytes, 0 to 8191.
    pub fragment_offset: u16,
    pub time_to_live: u8,
    /// What the payload holds.
    pub protocol: IpNumber,
    pub header_checksum: u16,
    pub source: [u8; 4],
    pub destination: [u8; 4],
    pub options: ArrayVec<u8, 40>,
}

/// The bytes of an IPv4 header. A contract sees them.
#[derive(Clone, Debug, Drop)]
pub struct Ipv4HeaderSlice<'a> {
    slice: &'a [u8],
}

impl<'a> Model for Ipv4HeaderSlice<'a> {
    ghost use Rattle.std.specs.Prelude.{ℕ, List};
    ghost use Rattle.ether_link.specs.Form.{IsHeader};
    ghost use Rattle.ether_ip.specs.Ipv4.{ipv4_slice_form};

    ghost Value = { List ℕ };

    ghost view = { λ part. part.slice.now };

    ghost invariant = { λ part. IsHeader ipv4_slice_form part.slice.now };
}

impl<'a> Ipv4HeaderSlice<'a> {
    ghost use Rattle.ether_ip.specs.Ipv4.{ipv4_header, ipv4_fragment_offset, is_ipv4_fragment};

    /// The header that a slice begins with.
    #[tactic(auto, using(ether_link::proofs::FormLemmas::is_header))]
    pub fn from_slice(slice: &'a [u8]) -> Result<Ipv4HeaderSlice<'a>, HeaderSliceError>
        ensures { Reads ipv4_slice_form slice.now result
            (λ part. part ≡ take (header_len ipv4_slice_form slice.now) slice.now) }
    {
        let header_len = accepted_len(slice)?;
        Ok(Ipv4HeaderSlice {
            slice: &slice[..header_len],
        })
    }

    /// The bytes of the header.
    pub fn slice(&self) -> &'a [u8]
        ensures value { result.now ≡ self.now }
    {
        self.slice
    }

    pub fn header_len(&self) -> usize
        ensures value { result ≡ length self.now }
    {
        self.slice.len()
    }

    pub fn version(&self) -> u8
        ensures value { result ≡ ip_version self.now }
    {
        self.slice[0] >> 4
    }

    /// The number of words of 4 bytes of the header, 5 to 15.
    pub fn ihl(&self) -> u8
        ensures value { result ≡ ihl self.now }
    {
        self.slice[0] & 0xf
    }

    /// The differentiated services code point, 0 to 63.
    pub fn dscp(&self) -> u8
        ensures value { result ≡ slice_index self.now 1 / 4 }
    {
        self.slice[1] >> 2
    }

    /// The explicit congestion notification, 0 to 3.
    pub fn ecn(&self) -> u8
        ensures value { result ≡ slice_index self.now 1 % 4 }
    {
        self.slice[1] & 3
    }

    /// The number of bytes of header and payload.
    pub fn total_len(&self) -> u16
        ensures value { result ≡ be16_at self.now 2 }
    {
        read_be16(self.slice, 2)
    }

    pub fn identification(&self) -> u16
        ensures value { result ≡ be16_at self.now 4 }
    {
        read_be16(self.slice, 4)
    }

    pub fn dont_fragment(&self) -> bool
        ensures value { result ≡ flag_at self.now 6 6 }
    {
        read_flag(self.slice, 6, 6)
    }

    pub fn more_fragments(&self) -> bool
        ensures value { result ≡ flag_at self.now 6 5 }
    {
        read_flag(self.slice, 6, 5)
    }

    /// Where the payload stands in that of the datagram, in units of 8 bytes, 0 to 8191.
    pub fn fragment_offset(&self) -> u16
        ensures value { result ≡ ipv4_fragment_offset self.now }
    {
        read_be16(self.slice, 6) & 0x1fff
    }

    pub fn time_to_live(&self) -> u8
        ensures value { result ≡ slice_index self.now 8 }
    {
        self.slice[8]
    }

    /// What the payload holds.
    pub fn protocol(&self) -> IpNumber
        ensures value { result.0 ≡ slice_index self.now 9 }
    {
        IpNumber(self.slice[9])
    }

    pub fn header_checksum(&self) -> u16
        ensures value { result ≡ be16_at self.now 10 }
    {
        read_be16(self.slice, 10)
    }

    pub fn source(&self) -> [u8; 4]
        ensures value { result ≡ bytes_between 12 16 self.now }
    {
        read_array(self.slice, 12)
    }

    pub fn source_addr(&self) -> Ipv4Addr
        ensures value { ipv4_octets result ≡ bytes_between 12 16 self.now }
    {
        Ipv4Addr::from_octets(self.source())
    }

    pub fn destination(&self) -> [u8; 4]
        ensures value { result ≡ bytes_between 16 20 self.now }
    {
        read_array(self.slice, 16)
    }

    pub fn destination_addr(&self) -> Ipv4Addr
        ensures value { ipv4_octets result ≡ bytes_between 16 20 self.now }
    {
        Ipv4Addr::from_octets(self.destination())
    }

    pub fn options(&self) -> &'a [u8]
        ensures value { result.now ≡ drop 20 self.now }
    {
        &self.slice[20..]
    }

    /// The payload is only a part of that of a datagram.
    pub fn is_fragmenting_payload(&self) -> bool
        ensures value { result ≡ is_ipv4_fragment self.now }
    {
        self.more_fragments() || self.fragment_offset() != 0
    }

    pub fn to_header(&self) -> Ipv4Header
        ensures value { result ≡ ipv4_header self.now }
    {
        Ipv4Header {
            dscp: self.dscp(),
            ecn: self.ecn(),
            total_len: self.total_len(),
            identification: self.identification(),
            dont_fragment: self.dont_fragment(),
            more_fragments: self.more_fragments(),
            fragment_offset: self.fragment_offset(),
            time_to_live: self.time_to_live(),
            protocol: self.protocol(),
            header_checksum: self.header_checksum(),
            source: self.source(),
            destination: self.destination(),
            options: bounded_bytes(&self.slice[20..]),
        }
    }
}

/// The length of the header that a slice begins with.
fn accepted_len(slice: &[u8]) -> Result<usize, HeaderSliceError>
    ensures { Reads ipv4_slice_form slice.now result
        (λ len. len ≡ header_len ipv4_slice_form slice.now) }
{
    let wrong_len = |required_len: usize| {
        let (layer, source) = (Layer::Ipv4Header, LenSource::Slice);
        HeaderSliceError::Len(LenError::at_start(layer, source, slice.len(), required_len))
    };
    if slice.len() < 20 {
        return Err(wrong_len(20));
    }
    let (version_number, ihl) = (slice[0] >> 4, slice[0] & 0xf);
    if version_number != 4 {
        return Err(HeaderSliceError::Content(HeaderError::UnexpectedVersion { version_number }));
    }
    if ihl < 5 {
        return Err(HeaderSliceError::Content(HeaderError::HeaderLengthSmallerThanHeader { ihl }));
    }
    let header_len = usize::from(ihl) * 4;
    if slice.len() < header_len {
        return Err(wrong_len(header_len));
    }
    Ok(header_len)
}

impl<'a> PartialEq for Ipv4HeaderSlice<'a> {
    ghost eq = { pointwise nat_eq };

    ghost laws = { partial_equiv_from_equiv nat_list_eq_equiv };

    fn eq(&self, other: &Self) -> bool {
        self.slice == other.slice
    }
}

impl<'a> Eq for Ipv4HeaderSlice<'a> {
    ghost laws = { nat_list_eq_equiv };
}
