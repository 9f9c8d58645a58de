//! Records (RFC 1035, section 4.1.3).
ghost use Rattle.std.specs.Prelude.{◌≡◌, Some, None, MatchResult};

use super::DnsType;
use super::name::name_len;
use crate::{Ipv4Address, Ipv6Address, Malformed};
use wire_base::number::{read_array, read_be16, read_be32};

/// What a record says.
#[derive(Clone, Copy, Debug, PartialEq, Eq)]
pub enum RecordData<'a> {
    A(Ipv4Address),
    Aaaa(Ipv6Address),
    /// The name that the owner is an alias of, in place.
    Cname(&'a [u8]),
    /// The bytes of another type.
    Other(DnsType, &'a [u8]),
}

/// A record of the internet's class.
#[derive(Clone, Copy, Debug, PartialEq, Eq)]
pub struct Record<'a> {
    /// The owner, in place, a pointer included.
    pub name: &'a [u8],
    /// How long the record may be kept, in seconds.
    pub ttl: u32,
    pub body: RecordData<'a>,
}

impl<'a> RecordData<'a> {
    ghost use Rattle.net_wire.specs.DnsMessage.{body_of};
    ghost use Rattle.net_wire.specs.DnsRead.{body_value};

    fn parse(type_: DnsType, bytes: &'a [u8]) -> Result<RecordData<'a>, Malformed>
        ensures value { MatchResult result
            (λ found. body_of type_ bytes.now ≡ Some (body_value found))
            (λ _. body_of type_ bytes.now ≡ None) }
    {
        match type_ {
            DnsType::A => {
                if bytes.len() == 4 {
                    Ok(RecordData::A(Ipv4Address(read_array(bytes, 0))))
                } else {
                    Err(Malformed)
                }
            }
            DnsType::Aaaa => {
                if bytes.len() == 16 {
                    Ok(RecordData::Aaaa(Ipv6Address(read_array(bytes, 0))))
                } else {
                    Err(Malformed)
                }
            }
            DnsType::Cname => match name_len(bytes) {
                Some(len) => {
                    if len == bytes.len() {
                        Ok(RecordData::Cname(bytes))
                    } else {
                        Err(Malformed)
                    }
                }
                None => Err(Malformed),
            },
            DnsType::Ns => Ok(RecordData::Other(DnsType::Ns, bytes)),
            DnsType::Soa => Ok(RecordData::Other(DnsType::Soa, bytes)),
            DnsType::Unknown(number) => Ok(RecordData::Other(DnsType::Unknown(number), bytes)),
        }
    }
}

impl<'a> Record<'a> {
    ghost use Rattle.net_wire.specs.DnsMessage.{record_at};
    ghost use Rattle.net_wire.specs.DnsRead.{record_value};

    /// The bytes after the record that stands first, and the record.
    pub fn parse(bytes: &'a [u8]) -> Result<(&'a [u8], Record<'a>), Malformed>
        ensures value { MatchResult result
            (λ found. record_at bytes.now ≡ Some (record_value found.1, found.0.now))
            (λ _. record_at bytes.now ≡ None) }
    {
        let Some(len) = name_len(bytes) else {
            return Err(Malformed);
        };
        let (name, fixed) = bytes.split_at(len);
        if fixed.len() < 10 {
            return Err(Malformed);
        }
        let end = 10 + read_be16(fixed, 8) as usize;
        if fixed.len() < end {
            return Err(Malformed);
        }
        if read_be16(fixed, 2) != 1 {
            return Err(Malformed);
        }
        let ttl = read_be32(fixed, 4);
        let type_ = DnsType::from(read_be16(fixed, 0));
        match RecordData::parse(type_, &fixed[10..end]) {
            Ok(body) => Ok((&fixed[end..], Record { name, ttl, body })),
            Err(Malformed) => Err(Malformed),
        }
    }
}
