//! DHCP messages from bytes (RFC 2131, section 2; options by RFC 2132).
ghost use Rattle.std.specs.Prelude.{◌≡◌, ℕ, ◌+◌, ◌<◌, ◌≤◌, List, [], ◌∷◌, ◌++◌, length, take, drop, IsTrue, MatchOption, Option};
ghost use Rattle.std.specs.Option.{option_copied, option_map};
ghost use Rattle.std.specs.Result.{result_ok};
ghost use Rattle.net_wire.specs.DhcpBytes.{op_of};
ghost use Rattle.net_wire.specs.DhcpFound.{item_of, IsWith, AreLast};
ghost use Rattle.net_wire.specs.DhcpMessage.{message_of};
ghost use Rattle.net_wire.specs.DhcpOptions.{items_of, is_right, newest_of};
ghost use Rattle.net_wire.specs.declared.address.Ipv4Address.{Ipv4Address};
ghost use Rattle.net_wire.specs.DhcpRead.{with_unicast, type_of_number, byte_in, number16_in, number32_in, address_in, identifier_in, unicast_in, is_header, message_at};

use super::kind::*;
use super::write::op;
use super::{DhcpMessageType, DhcpRepr};
use crate::{EthernetAddress, Ipv4Address, Malformed};
use arrayvec::ArrayVec;
use wire_base::number::{read_array, read_be16, read_be32, read_flag};

/// An option.
#[derive(Clone, Copy, Debug, Drop)]
pub(crate) struct Item<'a> {
    pub kind: u8,
    pub bytes: &'a [u8],
}

/// The options that a message is read from.
#[derive(Clone, Copy, Debug, Drop)]
pub(crate) struct Found<'a> {
    pub message_type: Option<&'a [u8]>,
    pub client_identifier: Option<&'a [u8]>,
    pub server_identifier: Option<&'a [u8]>,
    pub router: Option<&'a [u8]>,
    pub subnet_mask: Option<&'a [u8]>,
    pub requested_ip: Option<&'a [u8]>,
    pub max_size: Option<&'a [u8]>,
    pub lease_duration: Option<&'a [u8]>,
    pub renew_duration: Option<&'a [u8]>,
    pub rebind_duration: Option<&'a [u8]>,
    pub parameter_request_list: Option<&'a [u8]>,
    pub dns_servers: Option<&'a [u8]>,
}

/// The first option, and what is behind it; `None` where the options end.
fn first_item<'a>(bytes: &'a [u8]) -> Option<(Item<'a>, &'a [u8])>
    ensures { MatchOption result (items_of bytes.entry.now ≡ [])
        (λ first. (items_of bytes.entry.now ≡ item_of first.0 ∷ items_of first.1.now)
        × (length first.1.now < length bytes.entry.now)) }
{
    let mut rest = bytes;
    while let Some((kind, after)) = rest.split_first() {
        if *kind != OPT_PAD {
            return item_behind(*kind, after);
        }
        rest = after;
    }
    None
}

/// The option of a kind other than padding whose length and bytes these bytes begin with.
fn item_behind<'a>(kind: u8, bytes: &'a [u8]) -> Option<(Item<'a>, &'a [u8])>
    requires { 0 < kind }
    ensures { MatchOption result (items_of (kind ∷ bytes.entry.now) ≡ [])
        (λ first. (items_of (kind ∷ bytes.entry.now) ≡ item_of first.0 ∷ items_of first.1.now)
        × (length first.1.now < length bytes.entry.now)) }
{
    if kind == OPT_END {
        return None;
    }
    let Some((len, after)) = bytes.split_first() else {
        return None;
    };
    let len = *len as usize;
    if after.len() < len {
        return None;
    }
    let (bytes, after) = after.split_at(len);
    Some((Item { kind, bytes }, after))
}

/// Whether an option of a kind has a length that it may have.
fn has_right_length(kind: u8, bytes: &[u8]) -> bool
    ensures { result ≡ is_right kind bytes.now }
{
    match kind {
        OPT_DHCP_MESSAGE_TYPE => bytes.len() == 1,
        OPT_SUBNET_MASK
        | OPT_REQUESTED_IP
        | OPT_IP_LEASE_TIME
        | OPT_SERVER_IDENTIFIER
        | OPT_RENEWAL_TIME_VALUE
        | OPT_REBINDING_TIME_VALUE => bytes.len() == 4,
        OPT_MAX_DHCP_MESSAGE_SIZE => bytes.len() == 2,
        OPT_CLIENT_ID => bytes.len() == 7 && bytes[0] == 1,
        OPT_ROUTER | OPT_DOMAIN_NAME_SERVER => !bytes.is_empty() && bytes.len() % 4 == 0,
        OPT_PARAMETER_REQUEST_LIST => !bytes.is_empty(),
        _ => false,
    }
}

/// The bytes of an option where it is of a kind and of a right length, and else those of one before it.
fn newest<'a>(kind: u8, item: Item<'a>, before: Option<&'a [u8]>) -> Option<&'a [u8]>
    ensures { option_copied result ≡ newest_of kind (item_of item.entry) (option_copied before.entry) }
{
    if item.kind == kind && has_right_length(kind, item.bytes) {
        Some(item.bytes)
    } else {
        before
    }
}

impl<'a> Found<'a> {
    /// With one option more.
    fn with(self, item: Item<'a>) -> Found<'a>
        ensures { IsWith (item_of item.entry) self.entry result }
    {
        Found {
            message_type: newest(OPT_DHCP_MESSAGE_TYPE, item, self.message_type),
            client_identifier: newest(OPT_CLIENT_ID, item, self.client_identifier),
            server_identifier: newest(OPT_SERVER_IDENTIFIER, item, self.server_identifier),
            router: newest(OPT_ROUTER, item, self.router),
            subnet_mask: newest(OPT_SUBNET_MASK, item, self.subnet_mask),
            requested_ip: newest(OPT_REQUESTED_IP, item, self.requested_ip),
            max_size: newest(OPT_MAX_DHCP_MESSAGE_SIZE, item, self.max_size),
            lease_duration: newest(OPT_IP_LEASE_TIME, item, self.lease_duration),
            renew_duration: newest(OPT_RENEWAL_TIME_VALUE, item, self.renew_duration),
            rebind_duration: newest(OPT_REBINDING_TIME_VALUE, item, self.rebind_duration),
            parameter_request_list: newest(
                OPT_PARAMETER_REQUEST_LIST,
                item,
                self.parameter_request_list,
            ),
            dns_servers: newest(OPT_DOMAIN_NAME_SERVER, item, self.dns_servers),
        }
    }
}

/// Of each kind the last option of a right length.
fn last_options<'a>(bytes: &'a [u8]) -> Found<'a>
    ensures { AreLast (items_of bytes.entry.now) result }
{
    let mut found = Found {
        message_type: None,
        client_identifier: None,
        server_identifier: None,
        router: None,
        subnet_mask: None,
        requested_ip: None,
        max_size: None,
        lease_duration: None,
        renew_duration: None,
        rebind_duration: None,
        parameter_request_list: None,
        dns_servers: None,
    };
    let mut rest = bytes;
    while let Some((item, after)) = first_item(rest) {
        found = found.with(item);
        rest = after;
    }
    found
}

/// Whether the bytes have the fixed part.
fn has_header(bytes: &[u8]) -> bool
    ensures value { result ≡ is_header bytes.now }
    ensures within { IsTrue result → 240 ≤ length bytes.now }
{
    bytes.len() >= 240 && bytes[1] == 1 && bytes[2] == 6 && read_be32(bytes, 236) == 0x6382_5363
}

/// The type that a number names.
fn type_of(number: u8) -> DhcpMessageType
    ensures { result ≡ type_of_number number }
{
    match number {
        1 => DhcpMessageType::Discover,
        2 => DhcpMessageType::Offer,
        3 => DhcpMessageType::Request,
        4 => DhcpMessageType::Decline,
        5 => DhcpMessageType::Ack,
        6 => DhcpMessageType::Nak,
        7 => DhcpMessageType::Release,
        8 => DhcpMessageType::Inform,
        number => DhcpMessageType::Unknown(number),
    }
}

/// The first byte of an option.
fn byte_of(option: Option<&[u8]>) -> Option<u8>
    ensures { result ≡ byte_in (option_copied option.entry) }
{
    match option {
        Some([first, ..]) => Some(*first),
        Some([]) => None,
        None => None,
    }
}

fn number16_of(option: Option<&[u8]>) -> Option<u16>
    ensures { result ≡ number16_in (option_copied option.entry) }
{
    match option {
        Some([a, b, ..]) => Some(u16::from_be_bytes([*a, *b])),
        Some(_) => None,
        None => None,
    }
}

fn number32_of(option: Option<&[u8]>) -> Option<u32>
    ensures { result ≡ number32_in (option_copied option.entry) }
{
    match option {
        Some([a, b, c, d, ..]) => Some(u32::from_be_bytes([*a, *b, *c, *d])),
        Some(_) => None,
        None => None,
    }
}

/// The first address of an option.
fn address_of(option: Option<&[u8]>) -> Option<Ipv4Address>
    ensures { result ≡ address_in (option_copied option.entry) }
{
    match option {
        Some([a, b, c, d, ..]) => Some(Ipv4Address([*a, *b, *c, *d])),
        Some(_) => None,
        None => None,
    }
}

/// The hardware address behind its type.
fn identifier_of(option: Option<&[u8]>) -> Option<EthernetAddress>
    ensures { result ≡ identifier_in (option_copied option.entry) }
{
    match option {
        Some([_, a, b, c, d, e, f, ..]) => Some(EthernetAddress([*a, *b, *c, *d, *e, *f])),
        Some(_) => None,
        None => None,
    }
}

/// The first three addresses of single hosts.
fn servers_of(option: Option<&[u8]>) -> Option<ArrayVec<Ipv4Address, 3>>
    ensures { option_map (λ servers. servers.items) result
        ≡ option_map (λ servers. take 3 (unicast_in servers)) (option_copied option.entry) }
{
    match option {
        Some(bytes) => Some(first_servers(bytes)),
        None => None,
    }
}

fn first_servers(bytes: &[u8]) -> ArrayVec<Ipv4Address, 3>
    ensures { result.items ≡ take 3 (unicast_in bytes.now) }
{
    let mut servers = ArrayVec::new();
    let mut rest = bytes;
    while rest.len() >= 4 {
        add_server(&mut servers, Ipv4Address(read_array(rest, 0)));
        rest = &rest[4..];
    }
    servers
}

/// Lists an address of one host behind the others, where there are fewer than three.
fn add_server(servers: &mut ArrayVec<Ipv4Address, 3>, address: Ipv4Address)
    requires { length servers.old.items ≤ 3 }
    ensures value { (more : List Ipv4Address)
        → take 3 (servers.new.items ++ more) ≡ take 3 (servers.old.items ++ with_unicast address more) }
    ensures within { length servers.new.items ≤ 3 }
{
    if address.is_unicast() && servers.len() < 3 {
        servers.push(address);
    }
}

impl<'a> DhcpRepr<'a> {
    /// Reads a message; bytes that are none are refused.
    pub fn parse(bytes: &'a [u8]) -> Result<DhcpRepr<'a>, Malformed>
        ensures { option_map message_of (result_ok result) ≡ message_at bytes.entry.now }
    {
        if !has_header(bytes) {
            return Err(Malformed);
        }
        let (_, options) = bytes.split_at(240);
        let found = last_options(options);
        let Some(number) = byte_of(found.message_type) else {
            return Err(Malformed);
        };
        if bytes[0] != op(number) {
            return Err(Malformed);
        }
        Ok(DhcpRepr {
            message_type: type_of(number),
            transaction_id: read_be32(bytes, 4),
            secs: read_be16(bytes, 8),
            client_hardware_address: EthernetAddress(read_array(bytes, 28)),
            client_ip: Ipv4Address(read_array(bytes, 12)),
            your_ip: Ipv4Address(read_array(bytes, 16)),
            server_ip: Ipv4Address(read_array(bytes, 20)),
            router: address_of(found.router),
            subnet_mask: address_of(found.subnet_mask),
            relay_agent_ip: Ipv4Address(read_array(bytes, 24)),
            broadcast: read_flag(bytes, 10, 7),
            requested_ip: address_of(found.requested_ip),
            client_identifier: identifier_of(found.client_identifier),
            server_identifier: address_of(found.server_identifier),
            parameter_request_list: found.parameter_request_list,
            dns_servers: servers_of(found.dns_servers),
            max_size: number16_of(found.max_size),
            lease_duration: number32_of(found.lease_duration),
            renew_duration: number32_of(found.renew_duration),
            rebind_duration: number32_of(found.rebind_duration),
            additional_options: &[],
        })
    }
}
