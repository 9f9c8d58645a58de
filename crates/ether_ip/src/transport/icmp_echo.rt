//! Echo messages, which both versions of ICMP have.
ghost use Rattle.std.specs.Prelude.{◌≡◌, ◌+◌, ◌≤◌, length};
ghost use Rattle.ether_ip.specs.Icmp.{icmp_echo};

use wire_base::number::read_be16;

/// The fields of an echo message (RFC 792, "Echo or Echo Reply Message"; RFC 4443, sections 4.1 and
/// 4.2).
#[derive(Clone, Copy, Debug, PartialEq, Eq)]
pub struct IcmpEchoHeader {
    /// The sender's name for a series of messages.
    pub id: u16,
    /// The number of a message in its series.
    pub seq: u16,
}

/// The echo fields of a message whose first bytes are given.
pub(crate) fn read_echo(bytes: &[u8]) -> IcmpEchoHeader
    requires { 8 ≤ length bytes.now }
    ensures value { result ≡ icmp_echo bytes.now }
{
    IcmpEchoHeader {
        id: read_be16(bytes, 4),
        seq: read_be16(bytes, 6),
    }
}
