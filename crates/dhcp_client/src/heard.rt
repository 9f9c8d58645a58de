//! What the client makes of a message (RFC 2131, sections 4.4.1 and 4.4.5).
ghost use Rattle.std.specs.Prelude.{◌≡◌, ◌+◌, ◌-◌, ◌*◌, ◌/◌, ◌^◌, ◌<◌, ◌≤◌, ◌&&◌, ◌==◌, IfSome, length, nat_lt, min, position, if◌then◌else◌};
ghost use Rattle.std.specs.Option.{option_map};
ghost use Rattle.net_wire.specs.DhcpMessage.{message_of};
ghost use Rattle.dhcp_client.specs.Config.{client_settings};
ghost use Rattle.dhcp_client.specs.Heard.{ack_heard, granted_by, heard_by_type, heard_from, offer_heard, prefix_of, servers_in, Nothing, ARefusal, IsShort};
ghost use Rattle.dhcp_client.specs.HeardValue.{granted_value, heard_value, spans_value};
ghost use Rattle.dhcp_client.specs.Hearing.{same_router};
ghost use Rattle.dhcp_client.specs.Times.{default_spans, lease_span, spans, spans_with};

use crate::{ClientConfig, Lease, ServerInfo};
use arrayvec::ArrayVec;
use net_wire::{DhcpMessageType, DhcpRepr, Duration, Instant, Ipv4Address, Ipv4Cidr};

/// What an acknowledgement grants.
#[derive(Debug, Drop)]
pub(crate) struct Granted {
    pub address: Ipv4Cidr,
    pub router: Option<Ipv4Address>,
    pub dns_servers: ArrayVec<Ipv4Address, 3>,
    pub times: LeaseSpans,
}

/// What a message says to the client.
#[derive(Debug, Drop)]
pub(crate) enum Heard {
    Nothing,
    /// An offer of this address.
    Offer(ServerInfo, Ipv4Address),
    Ack(Granted),
    Refusal,
}

/// The times of a lease, in microseconds from its acknowledgement.
#[derive(Clone, Copy, Debug)]
pub(crate) struct LeaseSpans {
    pub renew: u64,
    pub rebind: u64,
    pub end: u64,
}

const MICROS: u64 = 1_000_000;

/// The masks of ones followed by zeros, from none to 32 ones.
const MASKS: [u32; 33] = [
    0x0000_0000,
    0x8000_0000,
    0xc000_0000,
    0xe000_0000,
    0xf000_0000,
    0xf800_0000,
    0xfc00_0000,
    0xfe00_0000,
    0xff00_0000,
    0xff80_0000,
    0xffc0_0000,
    0xffe0_0000,
    0xfff0_0000,
    0xfff8_0000,
    0xfffc_0000,
    0xfffe_0000,
    0xffff_0000,
    0xffff_8000,
    0xffff_c000,
    0xffff_e000,
    0xffff_f000,
    0xffff_f800,
    0xffff_fc00,
    0xffff_fe00,
    0xffff_ff00,
    0xffff_ff80,
    0xffff_ffc0,
    0xffff_ffe0,
    0xffff_fff0,
    0xffff_fff8,
    0xffff_fffc,
    0xffff_fffe,
    0xffff_ffff,
];

/// How many ones a mask begins with, where only zeros follow.
pub fn prefix_of(mask: Ipv4Address) -> Option<u8>
    ensures { result ≡ prefix_of mask }
{
    let number = u32::from_be_bytes(mask.0);
    match place_of(number, &MASKS) {
        Some(ones) => Some(ones as u8),
        None => None,
    }
}

/// Where a number stands first.
fn place_of(number: u32, numbers: &[u32]) -> Option<usize>
    ensures value { result ≡ position (λ one. one == number) numbers.now }
    ensures within { IfSome result (λ place. place < length numbers.now) }
{
    numbers.iter().position(|one| *one == number)
}

/// How long a lease runs.
fn lease_span(cap: Option<Duration>, secs: Option<u32>) -> u64
    ensures value { result ≡ lease_span cap secs }
    ensures within { result < 2 ^ 32 * 1000000 }
{
    let span = match secs {
        Some(secs) => secs as u64 * MICROS,
        None => 120 * MICROS,
    };
    match cap {
        Some(cap) => span.min(cap.total_micros()),
        None => span,
    }
}

fn default_spans(lease: u64) -> LeaseSpans
    requires { lease < 2 ^ 53 }
    ensures end { result.end ≡ lease }
    ensures value { spans_value result ≡ default_spans lease }
{
    LeaseSpans {
        renew: lease / 2,
        rebind: lease * 7 / 8,
        end: lease,
    }
}

/// The times of a lease, by those that the server gave in seconds.
fn lease_spans(lease: u64, renew: Option<u32>, rebind: Option<u32>) -> LeaseSpans
    requires { lease < 2 ^ 53 }
    ensures end { result.end ≡ lease }
    ensures value { spans_value result ≡ spans lease renew rebind }
{
    match (renew, rebind) {
        (Some(renew), Some(rebind)) => {
            both_spans(lease, renew as u64 * MICROS, rebind as u64 * MICROS)
        }
        (Some(renew), None) => renew_spans(lease, renew as u64 * MICROS),
        (None, Some(rebind)) => rebind_spans(lease, rebind as u64 * MICROS),
        (None, None) => default_spans(lease),
    }
}

fn both_spans(lease: u64, renew: u64, rebind: u64) -> LeaseSpans
    requires { lease < 2 ^ 53 }
    ensures end { result.end ≡ lease }
    ensures value { spans_value result
        ≡ (if nat_lt renew rebind && nat_lt rebind lease
        then spans_with renew rebind lease
        else default_spans lease) }
{
    if renew < rebind && rebind < lease {
        LeaseSpans {
            renew,
            rebind,
            end: lease,
        }
    } else {
        default_spans(lease)
    }
}

fn renew_spans(lease: u64, renew: u64) -> LeaseSpans
    requires { lease < 2 ^ 53 }
    ensures end { result.end ≡ lease }
    ensures value { spans_value result
        ≡ (if nat_lt renew lease
        then spans_with renew (renew + (lease - renew) * 3 / 4) lease
        else default_spans lease) }
{
    if renew < lease {
        LeaseSpans {
            renew,
            rebind: renew + (lease - renew) * 3 / 4,
            end: lease,
        }
    } else {
        default_spans(lease)
    }
}

fn rebind_spans(lease: u64, rebind: u64) -> LeaseSpans
    requires { lease < 2 ^ 53 }
    ensures end { result.end ≡ lease }
    ensures value { spans_value result
        ≡ (if nat_lt rebind lease
        then spans_with (min (lease / 2) rebind) rebind lease
        else default_spans lease) }
{
    if rebind < lease {
        LeaseSpans {
            renew: (lease / 2).min(rebind),
            rebind,
            end: lease,
        }
    } else {
        default_spans(lease)
    }
}

/// The name servers of a message.
fn servers_of(servers: &Option<ArrayVec<Ipv4Address, 3>>) -> ArrayVec<Ipv4Address, 3>
    ensures { result.items ≡ servers_in (option_map (λ servers. servers.items) servers.now) }
{
    match servers {
        Some(servers) => copy_of(servers),
        None => ArrayVec::new(),
    }
}

/// The same addresses.
pub(crate) fn copy_of(servers: &ArrayVec<Ipv4Address, 3>) -> ArrayVec<Ipv4Address, 3>
    ensures { result.items ≡ servers.now.items }
{
    let mut copy = ArrayVec::new();
    for server in servers.as_slice() {
        copy.push(*server);
    }
    copy
}

/// What an acknowledgement grants, where its mask has so many ones.
fn grant(config: &ClientConfig<'_>, message: &DhcpRepr<'_>, prefix_len: u8) -> Granted
    ensures value { granted_value result
        ≡ granted_by (client_settings config.now) (message_of message.now) prefix_len }
    ensures short { result.times.end < 2 ^ 32 * 1000000 }
{
    let lease = lease_span(config.max_lease, message.lease_duration);
    Granted {
        address: Ipv4Cidr {
            address: message.your_ip,
            prefix_len,
        },
        router: message.router,
        dns_servers: servers_of(&message.dns_servers),
        times: lease_spans(lease, message.renew_duration, message.rebind_duration),
    }
}

/// What an acknowledgement says.
fn ack(config: &ClientConfig<'_>, message: &DhcpRepr<'_>) -> Heard
    ensures value { heard_value result ≡ ack_heard (client_settings config.now) (message_of message.now) }
    ensures short { IsShort (heard_value result) }
{
    if !message.your_ip.is_unicast() {
        return Heard::Nothing;
    }
    let Some(mask) = message.subnet_mask else {
        return Heard::Nothing;
    };
    let Some(prefix_len) = prefix_of(mask) else {
        return Heard::Nothing;
    };
    Heard::Ack(grant(config, message, prefix_len))
}

/// What a message of this server says, by its type.
fn by_type(config: &ClientConfig<'_>, server: ServerInfo, message: &DhcpRepr<'_>) -> Heard
    ensures value { heard_value result
        ≡ heard_by_type (client_settings config.now) server (message_of message.now)
        message.now.message_type }
    ensures short { IsShort (heard_value result) }
{
    match message.message_type {
        DhcpMessageType::Offer => offer(server, message.your_ip),
        DhcpMessageType::Ack => ack(config, message),
        DhcpMessageType::Nak => refusal(config.ignore_naks),
        DhcpMessageType::Discover => Heard::Nothing,
        DhcpMessageType::Request => Heard::Nothing,
        DhcpMessageType::Decline => Heard::Nothing,
        DhcpMessageType::Release => Heard::Nothing,
        DhcpMessageType::Inform => Heard::Nothing,
        DhcpMessageType::Unknown(_) => Heard::Nothing,
    }
}

/// What an offer of an address says.
fn offer(server: ServerInfo, address: Ipv4Address) -> Heard
    ensures value { heard_value result ≡ offer_heard server address }
    ensures short { IsShort (heard_value result) }
{
    if address.is_unicast() {
        Heard::Offer(server, address)
    } else {
        Heard::Nothing
    }
}

/// What a refusal says.
fn refusal(ignore_naks: bool) -> Heard
    ensures value { heard_value result ≡ (if ignore_naks then Nothing else ARefusal) }
    ensures short { IsShort (heard_value result) }
{
    if ignore_naks {
        Heard::Nothing
    } else {
        Heard::Refusal
    }
}

/// What a message from an address says.
pub(crate) fn heard_from(
    config: &ClientConfig<'_>,
    source: Ipv4Address,
    message: &DhcpRepr<'_>,
) -> Heard
    ensures value { heard_value result
        ≡ heard_from (client_settings config.now) source (message_of message.now)
        message.now.server_identifier }
    ensures short { IsShort (heard_value result) }
{
    match message.server_identifier {
        Some(identifier) => {
            let server = ServerInfo {
                address: source,
                identifier,
            };
            by_type(config, server, message)
        }
        None => Heard::Nothing,
    }
}

impl Granted {
    ghost use Rattle.std.specs.Prelude.{◌≡◌};
    ghost use Rattle.dhcp_client.specs.Heard.{lease_with};
    ghost use Rattle.dhcp_client.specs.HeardValue.{granted_value};
    ghost use Rattle.dhcp_client.specs.Hearing.{is_same_config};

    /// The lease from a moment on, with the server of its offer.
    pub fn lease(&self, now: Instant, server: ServerInfo) -> Lease
        ensures { result ≡ lease_with now server (granted_value self.now) }
    {
        Lease {
            server,
            address: self.address,
            router: self.router,
            renew_at: now + Duration::from_micros(self.times.renew),
            rebind_at: now + Duration::from_micros(self.times.rebind),
            rebinding: false,
            expires_at: now + Duration::from_micros(self.times.end),
        }
    }

    /// Whether a lease with these name servers has the configuration that is granted.
    pub fn is_same_config(&self, lease: &Lease, servers: &ArrayVec<Ipv4Address, 3>) -> bool
        ensures { result ≡ is_same_config lease.now servers.now.items (granted_value self.now) }
    {
        lease.address == self.address
            && is_same_router(lease.router, self.router)
            && servers.as_slice() == self.dns_servers.as_slice()
    }
}

fn is_same_router(one: Option<Ipv4Address>, other: Option<Ipv4Address>) -> bool
    ensures { result ≡ same_router one other }
{
    match (one, other) {
        (Some(one), Some(other)) => one == other,
        (Some(_), None) => false,
        (None, Some(_)) => false,
        (None, None) => true,
    }
}
