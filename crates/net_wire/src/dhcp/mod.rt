//! DHCP messages (RFC 2131, section 2; options by RFC 2132).
pub mod kind;
mod option;
mod read;
mod write;

use crate::{EthernetAddress, Ipv4Address};
use arrayvec::ArrayVec;

/// What a message is for (RFC 2132, section 9.6).
#[derive(Clone, Copy, Debug, PartialEq, Eq, Hash, PartialOrd, Ord)]
pub enum DhcpMessageType {
    Discover,
    Offer,
    Request,
    Decline,
    Ack,
    Nak,
    Release,
    Inform,
    /// A number that names no type.
    Unknown(u8),
}

impl DhcpMessageType {
    ghost use Rattle.std.specs.Prelude.{◌≡◌};
    ghost use Rattle.net_wire.specs.DhcpBytes.{type_number};

    /// The number that stands in option 53.
    pub fn number(self) -> u8
        ensures { result ≡ type_number self }
    {
        match self {
            DhcpMessageType::Discover => 1,
            DhcpMessageType::Offer => 2,
            DhcpMessageType::Request => 3,
            DhcpMessageType::Decline => 4,
            DhcpMessageType::Ack => 5,
            DhcpMessageType::Nak => 6,
            DhcpMessageType::Release => 7,
            DhcpMessageType::Inform => 8,
            DhcpMessageType::Unknown(number) => number,
        }
    }
}

/// An option that the caller adds (RFC 2132, section 2).
#[derive(Clone, Copy, Debug, PartialEq, Eq)]
pub struct DhcpOption<'a> {
    /// From 1 to 254: 0 is padding and 255 the end of the options.
    pub kind: u8,
    /// At most 255 bytes.
    pub bytes: &'a [u8],
}

/// A DHCP message. What is an `Option` is written as an option of the message where it is there.
#[derive(Clone, Debug, PartialEq, Eq, Drop)]
pub struct DhcpRepr<'a> {
    /// Option 53.
    pub message_type: DhcpMessageType,
    pub transaction_id: u32,
    /// Seconds since the client began.
    pub secs: u16,
    pub client_hardware_address: EthernetAddress,
    pub client_ip: Ipv4Address,
    pub your_ip: Ipv4Address,
    pub server_ip: Ipv4Address,
    /// Option 3: the first router.
    pub router: Option<Ipv4Address>,
    /// Option 1.
    pub subnet_mask: Option<Ipv4Address>,
    pub relay_agent_ip: Ipv4Address,
    /// Asks the server to broadcast its replies.
    pub broadcast: bool,
    /// Option 50.
    pub requested_ip: Option<Ipv4Address>,
    /// Option 61, of the Ethernet type.
    pub client_identifier: Option<EthernetAddress>,
    /// Option 54.
    pub server_identifier: Option<Ipv4Address>,
    /// Option 55: from 1 to 255 bytes.
    pub parameter_request_list: Option<&'a [u8]>,
    /// Option 6.
    pub dns_servers: Option<ArrayVec<Ipv4Address, 3>>,
    /// Option 57, in bytes.
    pub max_size: Option<u16>,
    /// Option 51, in seconds.
    pub lease_duration: Option<u32>,
    /// Option 58, in seconds.
    pub renew_duration: Option<u32>,
    /// Option 59, in seconds.
    pub rebind_duration: Option<u32>,
    /// Written behind the others, in their order.
    pub additional_options: &'a [DhcpOption<'a>],
}
