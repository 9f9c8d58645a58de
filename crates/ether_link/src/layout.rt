//! Layouts: the parts of a frame one behind another, by their places.
ghost use Rattle.std.specs.Prelude.{◌≡◌};

use crate::err::Layer;

/// What a part of a frame is.
#[derive(Clone, Copy, Debug, PartialEq, Eq)]
pub enum PartKind {
    Ethernet2,
    LinuxSll,
    Vlan,
    Macsec,
    Arp,
    /// An IPv4 or IPv6 header, by its version.
    Ip,
    /// IPv6 hop-by-hop options right behind the IPv6 header.
    HopByHop,
    /// IPv6 hop-by-hop options anywhere else, which are always refused.
    LateHopByHop,
    Route,
    Fragment,
    DestinationOptions,
    /// An authentication header right behind an IPv4 header.
    Ipv4Auth,
    /// An authentication header in the chain of an IPv6 packet.
    Ipv6Auth,
    Udp,
    Tcp,
    Icmpv4,
    Icmpv6,
}

impl PartKind {
    ghost use Rattle.ether_link.specs.Places.{layer_of_kind};

    /// The layer that a refused part of this kind is called by.
    pub fn layer(self) -> Layer
        ensures value { result ≡ layer_of_kind self }
    {
        match self {
            PartKind::Ethernet2 => Layer::Ethernet2Header,
            PartKind::LinuxSll => Layer::LinuxSllHeader,
            PartKind::Vlan => Layer::VlanHeader,
            PartKind::Macsec => Layer::MacsecHeader,
            PartKind::Arp => Layer::Arp,
            PartKind::Ip => Layer::IpHeader,
            PartKind::HopByHop | PartKind::LateHopByHop => Layer::Ipv6HopByHopHeader,
            PartKind::Route => Layer::Ipv6RouteHeader,
            PartKind::Fragment => Layer::Ipv6FragHeader,
            PartKind::DestinationOptions => Layer::Ipv6DestOptionsHeader,
            PartKind::Ipv4Auth | PartKind::Ipv6Auth => Layer::IpAuthHeader,
            PartKind::Udp => Layer::UdpHeader,
            PartKind::Tcp => Layer::TcpHeader,
            PartKind::Icmpv4 => Layer::Icmpv4,
            PartKind::Icmpv6 => Layer::Icmpv6,
        }
    }
}

/// The part that comes next, and what the parts before it say of its successors.
#[derive(Clone, Copy, Debug, PartialEq, Eq)]
pub struct Turn {
    pub kind: PartKind,
    /// How many link extensions (VLAN tags and MACsec headers) stand before it.
    pub link_exts: u8,
    /// What the IP packet carries is a fragment.
    pub fragmented: bool,
}

/// Where a part lies: its header from `start` to `body`, and its window, in which the next part is
/// sought, from `body` to `end`, in bytes from the start of the frame.
#[derive(Clone, Copy, Debug, PartialEq, Eq)]
pub struct Place {
    pub kind: PartKind,
    pub start: usize,
    pub body: usize,
    pub end: usize,
}

/// The part that was refused, where it would begin, and why.
#[derive(Clone, Copy, Debug, PartialEq, Eq)]
pub struct Stop<E> {
    pub kind: PartKind,
    /// In bytes from the start of the frame.
    pub start: usize,
    /// Counted from the start of the refused part.
    pub refusal: E,
}
