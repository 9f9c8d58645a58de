//! Extension headers behind IP headers (RFC 4302; RFC 8200, section 4).
ghost use Rattle.std.specs.Prelude.{◌≡◌, Bool, length, slice_index};

use crate::{
    IpAuthHeader, IpAuthHeaderSlice, Ipv4Header, Ipv6FragmentHeader, Ipv6FragmentHeaderSlice,
    Ipv6Header, Ipv6RawExtHeader, Ipv6RawExtHeaderSlice,
};
use ether_link::IpNumber;

/// The extension headers behind an IPv4 header.
#[derive(Clone, Debug, Drop, PartialEq, Eq)]
pub struct Ipv4Extensions {
    pub auth: Option<IpAuthHeader>,
}

/// The extension headers behind an IPv6 header, each in its place.
#[derive(Clone, Debug, Drop, PartialEq, Eq)]
pub struct Ipv6Extensions {
    pub hop_by_hop_options: Option<Ipv6RawExtHeader>,
    /// The options in front of a routing header, or those of a packet that has none.
    pub destination_options: Option<Ipv6RawExtHeader>,
    pub routing: Option<Ipv6RoutingExtensions>,
    pub fragment: Option<Ipv6FragmentHeader>,
    pub auth: Option<IpAuthHeader>,
}

/// A routing header and the destination options behind it.
#[derive(Clone, Debug, Drop, PartialEq, Eq)]
pub struct Ipv6RoutingExtensions {
    pub routing: Ipv6RawExtHeader,
    pub final_destination_options: Option<Ipv6RawExtHeader>,
}

/// An IP header and the extension headers behind it.
#[derive(Clone, Debug, Drop, PartialEq, Eq)]
pub enum IpHeaders {
    Ipv4(Ipv4Header, Ipv4Extensions),
    Ipv6(Ipv6Header, Ipv6Extensions),
}

/// The bytes of the extension headers behind an IPv4 header.
#[derive(Clone, Debug, Drop, PartialEq, Eq)]
pub struct Ipv4ExtensionsSlice<'a> {
    pub auth: Option<IpAuthHeaderSlice<'a>>,
}

impl<'a> Ipv4ExtensionsSlice<'a> {
    ghost use Rattle.ether_ip.specs.Extensions.{ipv4_extensions};

    pub fn to_header(&self) -> Ipv4Extensions
        ensures value { result ≡ ipv4_extensions self.now }
    {
        match &self.auth {
            Some(auth) => Ipv4Extensions {
                auth: Some(auth.to_header()),
            },
            None => Ipv4Extensions { auth: None },
        }
    }
}

/// The bytes of one extension header behind an IPv6 header.
#[derive(Clone, Debug, Drop, PartialEq, Eq)]
pub enum Ipv6ExtensionSlice<'a> {
    HopByHop(Ipv6RawExtHeaderSlice<'a>),
    Routing(Ipv6RawExtHeaderSlice<'a>),
    Fragment(Ipv6FragmentHeaderSlice<'a>),
    DestinationOptions(Ipv6RawExtHeaderSlice<'a>),
    Authentication(IpAuthHeaderSlice<'a>),
}

impl<'a> Ipv6ExtensionSlice<'a> {
    ghost use Rattle.ether_ip.specs.Extensions.{bytes_of_extension, fragmented_by};

    /// The bytes of the header.
    pub fn slice(&self) -> &'a [u8]
        ensures value { result.now ≡ bytes_of_extension self.now }
    {
        match self {
            Ipv6ExtensionSlice::HopByHop(header) => header.slice(),
            Ipv6ExtensionSlice::Routing(header) => header.slice(),
            Ipv6ExtensionSlice::Fragment(header) => header.slice(),
            Ipv6ExtensionSlice::DestinationOptions(header) => header.slice(),
            Ipv6ExtensionSlice::Authentication(header) => header.slice(),
        }
    }

    /// What stands behind the header.
    pub fn next_header(&self) -> IpNumber
        ensures value { result.0 ≡ slice_index (bytes_of_extension self.now) 0 }
    {
        match self {
            Ipv6ExtensionSlice::HopByHop(header) => header.next_header(),
            Ipv6ExtensionSlice::Routing(header) => header.next_header(),
            Ipv6ExtensionSlice::Fragment(header) => header.next_header(),
            Ipv6ExtensionSlice::DestinationOptions(header) => header.next_header(),
            Ipv6ExtensionSlice::Authentication(header) => header.next_header(),
        }
    }

    /// What the packet carries is a fragment, as this header says or those before it.
    pub fn is_fragmenting_behind(&self, before: bool) -> bool
        ensures value { result ≡ fragmented_by before self.now }
    {
        match self {
            Ipv6ExtensionSlice::Fragment(header) => before || header.is_fragmenting_payload(),
            _ => before,
        }
    }
}
