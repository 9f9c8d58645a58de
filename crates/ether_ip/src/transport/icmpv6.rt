//! ICMPv6 messages (RFC 4443).
ghost use Rattle.std.specs.Prelude.{◌≡◌, ℕ, ◌+◌, ◌≤◌, ◌↔◌, List, length, drop, slice_index, nat_eq};
ghost use Rattle.std.specs.Cmp.Lexicographic.{pointwise, nat_list_eq_equiv};
ghost use Rattle.std.specs.Cmp.{partial_equiv_from_equiv};
ghost use Rattle.wire_base.specs.Bytes.{bytes_between, be16_at};
ghost use Rattle.ether_link.specs.Form.{Reads, no_map};

use crate::transport::icmp_echo::{IcmpEchoHeader, read_echo};
use ether_link::LenSource;
use ether_link::err::{Layer, LenError};
use std::marker::Model;
use wire_base::number::{read_array, read_be16, read_be32};

/// What the problem is (RFC 4443, section 3.4): 0 a wrong field, 1 an unknown next header, 2 an unknown
/// option, and further ones by IANA, "ICMPv6 Parameters".
#[derive(Clone, Copy, Debug, PartialEq, Eq, Hash, PartialOrd, Ord)]
pub struct ParameterProblemCode(pub u8);

/// The fields of a parameter problem message (RFC 4443, section 3.4).
#[derive(Clone, Copy, Debug, PartialEq, Eq, Hash, PartialOrd, Ord)]
pub struct ParameterProblemHeader {
    pub code: ParameterProblemCode,
    /// Where the problem lies, in bytes from the start of the packet that had it.
    pub pointer: u32,
}

/// What a message is, by its type and its code.
#[derive(Clone, Copy, Debug, PartialEq, Eq)]
pub enum Icmpv6Type {
    /// None of the others.
    Unknown {
        type_u8: u8,
        code_u8: u8,
        bytes5to8: [u8; 4],
    },
    ParameterProblem(ParameterProblemHeader),
    EchoRequest(IcmpEchoHeader),
    EchoReply(IcmpEchoHeader),
}

/// The fields of a message.
#[derive(Clone, Copy, Debug, PartialEq, Eq)]
pub struct Icmpv6Header {
    pub icmp_type: Icmpv6Type,
    pub checksum: u16,
}

/// A header and what it carries. A contract sees the bytes.
#[derive(Clone, Debug, Drop)]
pub struct Icmpv6Slice<'a> {
    slice: &'a [u8],
}

impl<'a> Model for Icmpv6Slice<'a> {
    ghost Value = { List ℕ };

    ghost view = { λ part. part.slice.now };

    ghost invariant = { λ part. 8 ≤ length part.slice.now };
}

impl<'a> Icmpv6Slice<'a> {
    ghost use Rattle.ether_ip.specs.Icmpv6.{icmpv6_form, icmpv6_type, icmpv6_header};

    /// A message: its header and all that is behind it.
    pub fn from_slice(slice: &'a [u8]) -> Result<Icmpv6Slice<'a>, LenError>
        ensures { Reads (icmpv6_form no_map) slice.now result (λ part. part ≡ slice.now) }
    {
        if slice.len() < 8 {
            return Err(LenError::at_start(Layer::Icmpv6, LenSource::Slice, slice.len(), 8));
        }
        Ok(Icmpv6Slice { slice })
    }

    /// The header and all that is behind it.
    pub fn slice(&self) -> &'a [u8]
        ensures value { result.now ≡ self.now }
    {
        self.slice
    }

    pub fn type_u8(&self) -> u8
        ensures value { result ≡ slice_index self.now 0 }
    {
        self.slice[0]
    }

    pub fn code_u8(&self) -> u8
        ensures value { result ≡ slice_index self.now 1 }
    {
        self.slice[1]
    }

    pub fn checksum(&self) -> u16
        ensures value { result ≡ be16_at self.now 2 }
    {
        read_be16(self.slice, 2)
    }

    /// The four bytes after the checksum.
    pub fn bytes5to8(&self) -> [u8; 4]
        ensures value { result ≡ bytes_between 4 8 self.now }
    {
        read_array(self.slice, 4)
    }

    /// What the message is, by its type and its code.
    pub fn icmp_type(&self) -> Icmpv6Type
        ensures value { result ≡ icmpv6_type self.now }
    {
        match (self.slice[0], self.slice[1]) {
            (4, code @ 0..=10) => Icmpv6Type::ParameterProblem(ParameterProblemHeader {
                code: ParameterProblemCode(code),
                pointer: read_be32(self.slice, 4),
            }),
            (128, 0) => Icmpv6Type::EchoRequest(read_echo(self.slice)),
            (129, 0) => Icmpv6Type::EchoReply(read_echo(self.slice)),
            (type_u8, code_u8) => Icmpv6Type::Unknown {
                type_u8,
                code_u8,
                bytes5to8: self.bytes5to8(),
            },
        }
    }

    pub fn header_len(&self) -> usize
        ensures value { result ≡ 8 }
    {
        8
    }

    pub fn payload(&self) -> &'a [u8]
        ensures value { result.now ≡ drop 8 self.now }
    {
        &self.slice[8..]
    }

    pub fn header(&self) -> Icmpv6Header
        ensures value { result ≡ icmpv6_header self.now }
    {
        Icmpv6Header {
            icmp_type: self.icmp_type(),
            checksum: self.checksum(),
        }
    }
}

impl<'a> PartialEq for Icmpv6Slice<'a> {
    ghost eq = { pointwise nat_eq };

    ghost laws = { partial_equiv_from_equiv nat_list_eq_equiv };

    fn eq(&self, other: &Self) -> bool {
        self.slice == other.slice
    }
}

impl<'a> Eq for Icmpv6Slice<'a> {
    ghost laws = { nat_list_eq_equiv };
}
