//! The header of an IPv4 datagram without options (RFC 791, section 3.1).
ghost use Rattle.std.specs.Prelude.{◌≡◌, ◌≤◌, length, take, drop};
ghost use Rattle.net_wire.specs.Datagram.{ipv4_bytes, IsHeaderOf};
ghost use Rattle.net_wire.specs.Protocol.{ip_protocol_number};

use crate::{IpProtocol, Ipv4Address};
use wire_base::checksum::{checksum_of, sum_words};
use wire_base::number::append;

/// An IPv4 header of 20 bytes.
#[derive(Clone, Copy, Debug, PartialEq, Eq)]
pub struct Ipv4Repr {
    pub src_addr: Ipv4Address,
    pub dst_addr: Ipv4Address,
    pub next_header: IpProtocol,
    /// The bytes after the header.
    pub payload_len: usize,
    /// The time to live.
    pub hop_limit: u8,
}

impl Ipv4Repr {
    /// Writes the 20 bytes of the header.
    pub fn emit(&self, into: &mut [u8])
        requires room { 20 ≤ length into.old }
        requires size { self.now.payload_len ≤ 65515 }
        ensures front { IsHeaderOf self.now (take 20 into.new) }
        ensures rest { drop 20 into.new ≡ drop 20 into.old }
    {
        append(into, 0, &self.header());
    }

    /// The header, its checksum included.
    pub(crate) fn header(&self) -> [u8; 20]
        requires { self.now.payload_len ≤ 65515 }
        ensures { IsHeaderOf self.now result }
    {
        let sum = sum_words(&self.header_with(0));
        self.header_with(checksum_of(sum))
    }

    #[tactic(auto, unfolding(crate::specs::Datagram::ipv4_bytes))]
    fn header_with(&self, checksum: u16) -> [u8; 20]
        requires { self.now.payload_len ≤ 65515 }
        ensures { result ≡ ipv4_bytes self.now.src_addr self.now.dst_addr
            (ip_protocol_number self.now.next_header) self.now.payload_len self.now.hop_limit checksum }
    {
        let [len_high, len_low] = (self.payload_len as u16 + 20).to_be_bytes();
        let [sum_high, sum_low] = checksum.to_be_bytes();
        let protocol = self.next_header.number();
        let [s0, s1, s2, s3] = self.src_addr.0;
        let [d0, d1, d2, d3] = self.dst_addr.0;
        [
            0x45,
            0,
            len_high,
            len_low,
            0,
            0,
            0x40,
            0,
            self.hop_limit,
            protocol,
            sum_high,
            sum_low,
            s0,
            s1,
            s2,
            s3,
            d0,
            d1,
            d2,
            d3,
        ]
    }
}
