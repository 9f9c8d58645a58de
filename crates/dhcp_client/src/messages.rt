//! The messages of the client (RFC 2131, section 4.4.1).
ghost use Rattle.std.specs.Prelude.{◌≡◌, ◌+◌, ◌≤◌, map, length};
ghost use Rattle.std.specs.List.{AllByRecursion};
ghost use Rattle.net_wire.specs.declared.protocol.IpProtocol.TheVariants.{Udp};
ghost use Rattle.net_wire.specs.DhcpMessage.{message_of, option_value};
ghost use Rattle.net_wire.specs.DhcpBytes.{additional_bytes, address_option, IsWritable, IsWritableOption};
ghost use Rattle.dhcp_client.specs.Messages.{client_message, outgoing_between};
ghost use Rattle.dhcp_client.specs.Carried.{outgoing_value};
ghost use Rattle.dhcp_client.specs.Config.{IsRequestList};

use net_wire::{
    DhcpMessageType, DhcpOption, DhcpRepr, EthernetAddress, IpProtocol, Ipv4Address, Ipv4Repr,
    UdpRepr,
};

/// The longest IPv4 header and the UDP header, in bytes.
const MAX_HEADERS_LEN: u16 = 68;

/// A message and the headers that it is sent behind.
#[derive(Debug, Drop)]
pub(crate) struct OutgoingMessage<'a> {
    pub(crate) ip: Ipv4Repr,
    pub(crate) udp: UdpRepr,
    pub(crate) dhcp: DhcpRepr<'a>,
}

/// What a message of the client names besides what it was told.
#[derive(Clone, Copy, Debug, Drop)]
pub(crate) struct Naming {
    pub hardware_addr: EthernetAddress,
    pub ip_mtu: u16,
    pub message_type: DhcpMessageType,
    pub transaction_id: u32,
    /// The address that the client has.
    pub client_ip: Ipv4Address,
    pub server_identifier: Option<Ipv4Address>,
    pub requested_ip: Option<Ipv4Address>,
}

/// A message of the client.
pub(crate) fn client_message<'a>(
    naming: Naming,
    parameters: &'a [u8],
    options: &'a [DhcpOption<'a>],
) -> DhcpRepr<'a>
    requires mtu { 68 ≤ naming.ip_mtu }
    requires request_list { IsRequestList parameters.now }
    requires options { AllByRecursion IsWritableOption (map option_value options.now) }
    requires size { 259 + length (address_option 54 naming.server_identifier)
        + length (address_option 50 naming.requested_ip)
        + length parameters.now + length (additional_bytes (map option_value options.now)) ≤ 65507 }
    ensures value { message_of result
        ≡ client_message naming.message_type naming.client_ip naming.server_identifier
        naming.requested_ip naming.hardware_addr naming.ip_mtu parameters.entry.now
        (map option_value options.entry.now) naming.transaction_id }
    ensures writable { IsWritable (message_of result) }
{
    DhcpRepr {
        message_type: naming.message_type,
        transaction_id: naming.transaction_id,
        secs: 0,
        client_hardware_address: naming.hardware_addr,
        client_ip: naming.client_ip,
        your_ip: Ipv4Address::UNSPECIFIED,
        server_ip: Ipv4Address::UNSPECIFIED,
        router: None,
        subnet_mask: None,
        relay_agent_ip: Ipv4Address::UNSPECIFIED,
        broadcast: false,
        requested_ip: naming.requested_ip,
        client_identifier: Some(naming.hardware_addr),
        server_identifier: naming.server_identifier,
        parameter_request_list: Some(parameters),
        dns_servers: None,
        max_size: Some(naming.ip_mtu - MAX_HEADERS_LEN),
        lease_duration: None,
        renew_duration: None,
        rebind_duration: None,
        additional_options: options,
    }
}

/// A message between two addresses.
pub(crate) fn outgoing<'a>(
    src_addr: Ipv4Address,
    dst_addr: Ipv4Address,
    client_port: u16,
    server_port: u16,
    dhcp: DhcpRepr<'a>,
) -> OutgoingMessage<'a>
    requires { IsWritable (message_of dhcp) }
    ensures value { outgoing_value result
        ≡ outgoing_between src_addr dst_addr client_port server_port (message_of dhcp.entry) }
    ensures udp { result.ip.next_header ≡ Udp }
{
    OutgoingMessage {
        ip: Ipv4Repr {
            src_addr,
            dst_addr,
            next_header: IpProtocol::Udp,
            payload_len: dhcp.buffer_len() + 8,
            hop_limit: 64,
        },
        udp: UdpRepr {
            src_port: client_port,
            dst_port: server_port,
        },
        dhcp,
    }
}
