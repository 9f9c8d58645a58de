//! The names of layers.

use std::fmt;

/// The layer that an error speaks of. It prints as a word.
#[derive(Clone, Copy, Debug, PartialEq, Eq, Hash)]
pub enum Layer {
    Ethernet2Header,
    VlanHeader,
    MacsecHeader,
    Arp,
    /// An IP header of either version.
    IpHeader,
    Ipv4Header,
    Ipv6Header,
    IpAuthHeader,
    Ipv6HopByHopHeader,
    Ipv6RouteHeader,
    Ipv6FragHeader,
    Ipv6DestOptionsHeader,
    UdpHeader,
    TcpHeader,
    Icmpv4,
    Icmpv4Timestamp,
    Icmpv4TimestampReply,
    Icmpv6,
    LinuxSllHeader,
}

impl fmt::Display for Layer {
    ghost use Rattle.std.specs.Prelude.{Some};
    ghost use Rattle.ether_link.specs.Texts.{layer_word};

    ghost output = { λ layer. Some (layer_word layer) };

    fn fmt<W: fmt::Write>(&self, f: &mut fmt::Formatter<W>) -> fmt::Result {
        match self {
            Layer::Ethernet2Header => f.write_str("ethernet"),
            Layer::VlanHeader => f.write_str("vlan"),
            Layer::MacsecHeader => f.write_str("macsec"),
            Layer::Arp => f.write_str("arp"),
            Layer::IpHeader => f.write_str("ip"),
            Layer::Ipv4Header => f.write_str("ipv4"),
            Layer::Ipv6Header => f.write_str("ipv6"),
            Layer::IpAuthHeader => f.write_str("auth"),
            Layer::Ipv6HopByHopHeader => f.write_str("hop-by-hop"),
            Layer::Ipv6RouteHeader => f.write_str("route"),
            Layer::Ipv6FragHeader => f.write_str("frag"),
            Layer::Ipv6DestOptionsHeader => f.write_str("dest-options"),
            Layer::UdpHeader => f.write_str("udp"),
            Layer::TcpHeader => f.write_str("tcp"),
            Layer::Icmpv4 => f.write_str("icmpv4"),
            Layer::Icmpv4Timestamp => f.write_str("icmpv4-timestamp"),
            Layer::Icmpv4TimestampReply => f.write_str("icmpv4-timestamp-reply"),
            Layer::Icmpv6 => f.write_str("icmpv6"),
            Layer::LinuxSllHeader => f.write_str("linux-sll"),
        }
    }
}
