//! A message and its header (RFC 1035, section 4.1.1).
ghost use Rattle.std.specs.Prelude.{◌≡◌, ℕ, ◌≤◌, ◌<◌, ◌↔◌, List, length, drop, IfOk, IsErr};

use super::{HeaderFlags, Labels};
use crate::Malformed;
use std::marker::Model;
use wire_base::number::read_be16;

/// A message with a whole header. A contract sees the bytes.
#[derive(Clone, Debug, Drop)]
pub struct Packet<'a> {
    bytes: &'a [u8],
}

impl<'a> Model for Packet<'a> {
    ghost Value = { List ℕ };

    ghost view = { λ packet. packet.bytes.now };

    ghost invariant = { λ packet. 12 ≤ length packet.bytes.now };
}

impl<'a> Packet<'a> {
    ghost use Rattle.net_wire.specs.DnsLabels.{labels_left};
    ghost use Rattle.net_wire.specs.DnsMessage.{message_id, flag_bits, opcode_of, rcode_of, question_count, answer_count};
    ghost use Rattle.net_wire.specs.DnsName.{labels_at};

    /// Looks at the header alone.
    pub fn new_checked(bytes: &'a [u8]) -> Result<Packet<'a>, Malformed>
        ensures ok { IfOk result (λ packet. packet ≡ bytes.now) }
        ensures refuses { IsErr result ↔ (length bytes.now < 12) }
    {
        if bytes.len() < 12 {
            Err(Malformed)
        } else {
            Ok(Packet { bytes })
        }
    }

    pub fn transaction_id(&self) -> u16
        ensures value { result ≡ message_id self.now }
    {
        read_be16(self.bytes, 0)
    }

    pub fn flags(&self) -> HeaderFlags
        ensures value { result.0 ≡ flag_bits self.now }
    {
        HeaderFlags::new(read_be16(self.bytes, 2))
    }

    /// What kind of query it is: 0 is a standard one.
    pub fn opcode(&self) -> u8
        ensures value { result ≡ opcode_of self.now }
    {
        self.bytes[2] / 8 % 16
    }

    /// The response code: 0 is success, 3 says that the name does not exist.
    pub fn rcode(&self) -> u8
        ensures value { result ≡ rcode_of self.now }
    {
        self.bytes[3] % 16
    }

    pub fn question_count(&self) -> u16
        ensures value { result ≡ question_count self.now }
    {
        read_be16(self.bytes, 4)
    }

    pub fn answer_record_count(&self) -> u16
        ensures value { result ≡ answer_count self.now }
    {
        read_be16(self.bytes, 6)
    }

    /// What is behind the header.
    pub fn payload(&self) -> &'a [u8]
        ensures value { result.now ≡ drop 12 self.now }
    {
        &self.bytes[12..]
    }

    /// The labels of a name of this message, in place.
    pub fn parse_name(&self, name: &'a [u8]) -> Labels<'a>
        ensures value { labels_left result ≡ labels_at self.now name.now }
    {
        Labels::new(self.bytes, name)
    }
}
