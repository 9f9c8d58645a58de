//! Where the length of some bytes is from.

/// Where the length of some bytes is from.
#[derive(Clone, Copy, Debug, Default, PartialEq, Eq, Hash, PartialOrd, Ord)]
pub enum LenSource {
    /// The slice that was handed in.
    #[default]
    Slice,
    /// The short length of a MACsec header (IEEE 802.1AE, section 9.7).
    MacsecShortLength,
    /// The total length of an IPv4 header (RFC 791, section 3.1).
    Ipv4HeaderTotalLen,
    /// The payload length of an IPv6 header (RFC 8200, section 3).
    Ipv6HeaderPayloadLen,
    /// The length of a UDP header (RFC 768).
    UdpHeaderLen,
    /// The data offset of a TCP header (RFC 9293, section 3.1).
    TcpHeaderLen,
    /// The two address lengths of an ARP packet (RFC 826).
    ArpAddrLengths,
}
