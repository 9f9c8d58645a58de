//! The parts of a frame above the link layer: IP headers of both versions with their extension
//! headers, TCP, UDP and both versions of ICMP, each with one reader that gives the part or the first
//! refusal.
#![tactic(auto)]

pub mod err;
pub mod examples;
pub mod ip;
pub mod laws;
pub mod net_headers;
pub mod transport;

pub use ip::auth::{IpAuthHeader, IpAuthHeaderSlice};
pub use ip::ext_places::ExtensionPlaces;
pub use ip::exts::{
    IpHeaders, Ipv4Extensions, Ipv4ExtensionsSlice, Ipv6ExtensionSlice, Ipv6Extensions,
    Ipv6RoutingExtensions,
};
pub use ip::exts_slice::Ipv6ExtensionsSlice;
pub use ip::fragment::{Ipv6FragmentHeader, Ipv6FragmentHeaderSlice};
pub use ip::ipv4::{Ipv4Header, Ipv4HeaderSlice};
pub use ip::ipv6::{Ipv6Header, Ipv6HeaderSlice};
pub use ip::lax_header::ip_header_len;
pub use ip::payload::{IpPayloadSlice, LaxIpPayloadSlice};
pub use ip::raw_ext::{Ipv6RawExtHeader, Ipv6RawExtHeaderSlice};
pub use ip::reassembly::{
    IpDefragPayloadVec, IpFragId, IpFragVersionSpecId, MAX_IP_DEFRAG_LEN, MAX_IP_DEFRAG_LEN_U16,
};
pub use ip::window::{IpWindow, ip_announced, ip_window};
pub use net_headers::NetHeaders;
pub use transport::icmp_echo::IcmpEchoHeader;
pub use transport::icmpv4::{
    Icmpv4Header, Icmpv4Slice, Icmpv4Type, RedirectCode, RedirectHeader, TimestampMessage,
};
pub use transport::icmpv6::{
    Icmpv6Header, Icmpv6Slice, Icmpv6Type, ParameterProblemCode, ParameterProblemHeader,
};
pub use transport::tcp::{TcpHeader, TcpOptionElement, TcpSlice};
pub use transport::udp::{UdpHeader, UdpSlice};
pub use transport::{TransportHeader, TransportSlice};
