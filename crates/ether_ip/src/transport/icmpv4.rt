//! ICMPv4 messages (RFC 792).
ghost use Rattle.std.specs.Prelude.{◌≡◌, ℕ, ◌+◌, ◌≤◌, ◌↔◌, List, length, drop, slice_index, nat_eq};
ghost use Rattle.std.specs.Cmp.Lexicographic.{pointwise, nat_list_eq_equiv};
ghost use Rattle.std.specs.Cmp.{partial_equiv_from_equiv};
ghost use Rattle.wire_base.specs.Bytes.{bytes_between, be16_at};
ghost use Rattle.ether_link.specs.Form.{Reads, no_map, header_len};
ghost use Rattle.ether_ip.specs.Icmpv4.{icmpv4_form, timestamp_message, icmpv4_type, icmpv4_header};

use crate::transport::icmp_echo::{IcmpEchoHeader, read_echo};
use ether_link::LenSource;
use ether_link::err::{Layer, LenError};
use std::marker::Model;
use wire_base::number::{read_array, read_be16, read_be32};

/// What a redirect message is about: 0 a network, 1 a host, 2 and 3 one of them for a type of service.
#[derive(Clone, Copy, Debug, PartialEq, Eq)]
pub struct RedirectCode(pub u8);

/// The fields of a redirect message.
#[derive(Clone, Copy, Debug, PartialEq, Eq)]
pub struct RedirectHeader {
    pub code: RedirectCode,
    /// The gateway to which to send instead.
    pub gateway_internet_address: [u8; 4],
}

/// The fields of a timestamp message. Times are milliseconds since midnight UT, or any number with the
/// highest bit set.
#[derive(Clone, Copy, Debug, PartialEq, Eq)]
pub struct TimestampMessage {
    pub id: u16,
    pub seq: u16,
    pub originate_timestamp: u32,
    pub receive_timestamp: u32,
    pub transmit_timestamp: u32,
}

/// What a message is, by its type and its code.
#[derive(Clone, Copy, Debug, PartialEq, Eq)]
pub enum Icmpv4Type {
    /// None of the others.
    Unknown {
        type_u8: u8,
        code_u8: u8,
        bytes5to8: [u8; 4],
    },
    EchoReply(IcmpEchoHeader),
    EchoRequest(IcmpEchoHeader),
    Redirect(RedirectHeader),
    TimestampRequest(TimestampMessage),
    TimestampReply(TimestampMessage),
}

/// The fields of a message.
#[derive(Clone, Copy, Debug, PartialEq, Eq)]
pub struct Icmpv4Header {
    pub icmp_type: Icmpv4Type,
    pub checksum: u16,
}

/// A header and what it carries. A contract sees the bytes.
#[derive(Clone, Debug, Drop)]
pub struct Icmpv4Slice<'a> {
    slice: &'a [u8],
}

impl<'a> Model for Icmpv4Slice<'a> {
    ghost use Rattle.std.specs.Prelude.{◌≡◌, ℕ, List, None};
    ghost use Rattle.ether_link.specs.Form.{refusal, no_map};
    ghost use Rattle.ether_ip.specs.Icmpv4.{icmpv4_form};

    ghost Value = { List ℕ };

    ghost view = { λ part. part.slice.now };

    ghost invariant = { λ part. refusal (icmpv4_form no_map) part.slice.now ≡ None };
}

impl<'a> Icmpv4Slice<'a> {
    /// A message: its header and all that is behind it.
    pub fn from_slice(slice: &'a [u8]) -> Result<Icmpv4Slice<'a>, LenError>
        ensures { Reads (icmpv4_form no_map) slice.now result (λ part. part ≡ slice.now) }
    {
        let wrong_len = |layer: Layer, required_len: usize| {
            LenError::at_start(layer, LenSource::Slice, slice.len(), required_len)
        };
        if slice.len() < 8 {
            return Err(wrong_len(Layer::Icmpv4, 8));
        }
        let timestamp = match (slice[0], slice[1]) {
            (13, 0) => Some(Layer::Icmpv4Timestamp),
            (14, 0) => Some(Layer::Icmpv4TimestampReply),
            _ => None,
        };
        match timestamp {
            Some(layer) if slice.len() != 20 => Err(wrong_len(layer, 20)),
            _ => Ok(Icmpv4Slice { slice }),
        }
    }

    /// The header and all that is behind it.
    pub fn slice(&self) -> &'a [u8]
        ensures value { result.now ≡ self.now }
    {
        self.slice
    }

    pub fn type_u8(&self) -> u8
        ensures value { result ≡ slice_index self.now 0 }
    {
        self.slice[0]
    }

    pub fn code_u8(&self) -> u8
        ensures value { result ≡ slice_index self.now 1 }
    {
        self.slice[1]
    }

    pub fn checksum(&self) -> u16
        ensures value { result ≡ be16_at self.now 2 }
    {
        read_be16(self.slice, 2)
    }

    /// The four bytes after the checksum.
    pub fn bytes5to8(&self) -> [u8; 4]
        ensures value { result ≡ bytes_between 4 8 self.now }
    {
        read_array(self.slice, 4)
    }

    /// What the message is, by its type and its code.
    pub fn icmp_type(&self) -> Icmpv4Type
        ensures value { result ≡ icmpv4_type self.now }
    {
        match (self.slice[0], self.slice[1]) {
            (0, 0) => Icmpv4Type::EchoReply(read_echo(self.slice)),
            (8, 0) => Icmpv4Type::EchoRequest(read_echo(self.slice)),
            (5, code @ 0..=3) => Icmpv4Type::Redirect(RedirectHeader {
                code: RedirectCode(code),
                gateway_internet_address: self.bytes5to8(),
            }),
            (13, 0) => Icmpv4Type::TimestampRequest(read_timestamp(self.slice)),
            (14, 0) => Icmpv4Type::TimestampReply(read_timestamp(self.slice)),
            (type_u8, code_u8) => Icmpv4Type::Unknown {
                type_u8,
                code_u8,
                bytes5to8: self.bytes5to8(),
            },
        }
    }

    /// 20 for timestamp messages, and else 8.
    pub fn header_len(&self) -> usize
        ensures value { result ≡ header_len (icmpv4_form no_map) self.now }
        ensures within { result ≤ length self.now }
    {
        match (self.slice[0], self.slice[1]) {
            (13 | 14, 0) => 20,
            _ => 8,
        }
    }

    pub fn payload(&self) -> &'a [u8]
        ensures value { result.now ≡ drop (header_len (icmpv4_form no_map) self.now) self.now }
    {
        &self.slice[self.header_len()..]
    }

    pub fn header(&self) -> Icmpv4Header
        ensures value { result ≡ icmpv4_header self.now }
    {
        Icmpv4Header {
            icmp_type: self.icmp_type(),
            checksum: self.checksum(),
        }
    }
}

/// The fields of a timestamp message after its checksum.
fn read_timestamp(bytes: &[u8]) -> TimestampMessage
    requires { 20 ≤ length bytes.now }
    ensures value { result ≡ timestamp_message bytes.now }
{
    TimestampMessage {
        id: read_be16(bytes, 4),
        seq: read_be16(bytes, 6),
        originate_timestamp: read_be32(bytes, 8),
        receive_timestamp: read_be32(bytes, 12),
        transmit_timestamp: read_be32(bytes, 16),
    }
}

impl<'a> PartialEq for Icmpv4Slice<'a> {
    ghost eq = { pointwise nat_eq };

    ghost laws = { partial_equiv_from_equiv nat_list_eq_equiv };

    fn eq(&self, other: &Self) -> bool {
        self.slice == other.slice
    }
}

impl<'a> Eq for Icmpv4Slice<'a> {
    ghost laws = { nat_list_eq_equiv };
}
