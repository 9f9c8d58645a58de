//! What a host is told once.
ghost use Rattle.std.specs.Prelude.{◌≡◌, map, length, nat_lt, IfOk};
ghost use Rattle.std.specs.List.{list_any};
ghost use Rattle.std.specs.Result.{result_err};
ghost use Rattle.net_wire.specs.DhcpBytes.{additional_bytes};
ghost use Rattle.net_wire.specs.DhcpMessage.{option_value};
ghost use Rattle.dhcp_client.specs.Config.{client_settings, IsRequestList};
ghost use Rattle.net_host.specs.Config.{is_outside, is_foreign_port, is_unwritable, request_len};
ghost use Rattle.net_host.specs.Config.{refusal_of, second, day, CanRun};

use dhcp_client::{ClientConfig, RetryConfig};
use net_wire::{DhcpOption, Duration, EthernetAddress};
use std::marker::Model;

/// The values of a configuration.
#[derive(Debug, Drop)]
pub struct HostValues<'a> {
    pub hardware: EthernetAddress,
    /// The longest IPv4 datagram of the link, in bytes.
    pub ip_mtu: u16,
    /// The timeouts of the DHCP client.
    pub retry: RetryConfig,
    /// The UDP port of DHCP servers.
    pub server_port: u16,
    /// The UDP port of the DHCP client.
    pub client_port: u16,
    /// A lease is cut down to it; `None` for no such cap.
    pub max_lease: Option<Duration>,
    /// Whether refusals of servers are ignored.
    pub ignore_naks: bool,
    /// The options that servers are asked for (RFC 2132, section 9.8).
    pub parameters: &'a [u8],
    /// Options that each message carries behind the client's.
    pub options: &'a [DhcpOption<'a>],
}

impl<'a> Model for HostValues<'a> {
    ghost use Rattle.host_model.specs.Settings.{Settings};

    ghost Value = { Settings };

    ghost use Rattle.net_host.specs.HostConfig.{settings_told};

    ghost view = { settings_told };
}

/// The first value that no host runs by, in this order.
#[derive(Clone, Copy, Debug, PartialEq, Eq)]
pub enum HostConfigError {
    /// The hardware address is one of a group (IEEE 802.3, section 3.2.3).
    Hardware,
    /// Not from 576 to 1500 bytes.
    Mtu,
    /// Shorter than a second or longer than a day.
    DiscoverTimeout,
    /// Shorter than a second or longer than a day.
    RequestTimeout,
    /// Not from 1 to 32.
    RequestRetries,
    /// Shorter than a second or longer than a day.
    LeastRenew,
    /// Shorter than a second.
    GreatestRenew,
    /// 0, 53 or 5353.
    ServerPort,
    /// 0, 53 or 5353.
    ClientPort,
    /// Not from 1 to 255 kinds (RFC 2132, section 9.8).
    Parameters,
    /// One has kind 0 or 255, or more than 255 bytes (RFC 2132, section 2).
    Options,
    /// The datagram of a request is longer than the MTU.
    Size,
}

/// A configuration that a host can run by.
#[derive(Debug, Drop)]
pub struct HostConfig<'a> {
    hardware: EthernetAddress,
    ip_mtu: u16,
    client: ClientConfig<'a>,
}

impl<'a> Model for HostConfig<'a> {
    ghost use Rattle.host_model.specs.Settings.{Settings};

    ghost Value = { Settings };

    ghost use Rattle.net_host.specs.HostConfig.{settings_inside, CanRunInside};

    ghost view = { settings_inside };

    ghost invariant = { CanRunInside };
}

/// In microseconds.
const SECOND: u64 = 1_000_000;

/// In microseconds.
const DAY: u64 = 86_400 * SECOND;

/// The bytes of a request's datagram beside the request list and the caller's options: the headers
/// of IPv4 and UDP, the fixed part of the message, the options 53, 61, 54, 50 and 57, the head of
/// option 55, and the end.
const REQUEST_LEN: usize = 20 + 8 + 240 + 3 + 9 + 6 + 6 + 4 + 2 + 1;

fn is_outside(value: u64, least: u64, greatest: u64) -> bool
    ensures { result ≡ is_outside least greatest value }
{
    value < least || value > greatest
}

/// Whether a timeout is shorter than a second or longer than a day.
fn is_unfair(timeout: Duration) -> bool
    ensures { result ≡ is_outside second day timeout }
{
    is_outside(timeout.total_micros(), SECOND, DAY)
}

/// Whether a port is none, or that of DNS or multicast DNS.
fn is_foreign_port(port: u16) -> bool
    ensures { result ≡ is_foreign_port port }
{
    matches!(port, 0 | 53 | 5353)
}

fn has_unwritable(options: &[DhcpOption<'_>]) -> bool
    ensures { result ≡ list_any is_unwritable (map option_value options.now) }
{
    for option in options {
        if option.kind == 0 || option.kind == 255 || option.bytes.len() > 255 {
            return true;
        }
    }
    false
}

/// Whether options have more bytes than there is room for.
fn overfill(options: &[DhcpOption<'_>], room: usize) -> bool
    ensures { result ≡ nat_lt room (length (additional_bytes (map option_value options.now))) }
{
    let mut left = room;
    for option in options {
        let len = 2 + option.bytes.len();
        if len > left {
            return true;
        }
        left -= len;
    }
    false
}

/// Whether the datagram of a request is longer than the MTU.
fn is_too_long(values: &HostValues<'_>) -> bool
    ensures { result ≡ nat_lt values.now.ip_mtu (request_len values.now) }
{
    let len = REQUEST_LEN + values.parameters.len();
    let mtu = usize::from(values.ip_mtu);
    len > mtu || overfill(values.options, mtu - len)
}

/// The first value that is refused.
#[tactic(auto, unfolding(crate::specs::Config::refusal_of))]
fn refusal_of(values: &HostValues<'_>) -> Option<HostConfigError>
    ensures { result ≡ refusal_of values.now }
{
    let retry = values.retry;
    if values.hardware.is_group() {
        Some(HostConfigError::Hardware)
    } else if is_outside(u64::from(values.ip_mtu), 576, 1500) {
        Some(HostConfigError::Mtu)
    } else if is_unfair(retry.discover_timeout) {
        Some(HostConfigError::DiscoverTimeout)
    } else if is_unfair(retry.initial_request_timeout) {
        Some(HostConfigError::RequestTimeout)
    } else if is_outside(u64::from(retry.request_retries), 1, 32) {
        Some(HostConfigError::RequestRetries)
    } else if is_unfair(retry.min_renew_timeout) {
        Some(HostConfigError::LeastRenew)
    } else if retry.max_renew_timeout.total_micros() < SECOND {
        Some(HostConfigError::GreatestRenew)
    } else if is_foreign_port(values.server_port) {
        Some(HostConfigError::ServerPort)
    } else if is_foreign_port(values.client_port) {
        Some(HostConfigError::ClientPort)
    } else if is_outside(values.parameters.len() as u64, 1, 255) {
        Some(HostConfigError::Parameters)
    } else if has_unwritable(values.options) {
        Some(HostConfigError::Options)
    } else if is_too_long(values) {
        Some(HostConfigError::Size)
    } else {
        None
    }
}

impl<'a> HostConfig<'a> {
    /// Refuses values of which one is no host's.
    pub fn new(values: HostValues<'a>) -> Result<HostConfig<'a>, HostConfigError>
        ensures value { IfOk result (λ config. config ≡ values.entry) }
        ensures refuses { result_err result ≡ refusal_of values.entry }
    {
        match refusal_of(&values) {
            Some(error) => Err(error),
            None => Ok(HostConfig {
                hardware: values.hardware,
                ip_mtu: values.ip_mtu,
                client: ClientConfig {
                    retry: values.retry,
                    server_port: values.server_port,
                    client_port: values.client_port,
                    max_lease: values.max_lease,
                    ignore_naks: values.ignore_naks,
                    parameters: values.parameters,
                    options: values.options,
                },
            }),
        }
    }

    /// The hardware address of the host.
    pub fn hardware(&self) -> EthernetAddress
        ensures value { result ≡ self.now.hardware }
        ensures runs { CanRun self.now }
    {
        self.hardware
    }

    /// The longest IPv4 datagram of the link, in bytes.
    pub(crate) fn ip_mtu(&self) -> u16
        ensures { result ≡ self.now.ip_mtu }
    {
        self.ip_mtu
    }

    /// What the DHCP client is told.
    pub(crate) fn client(&self) -> ClientConfig<'a>
        ensures value { client_settings result ≡ self.now.client }
        ensures parameters { IsRequestList result.parameters.now }
    {
        ClientConfig {
            retry: self.client.retry,
            server_port: self.client.server_port,
            client_port: self.client.client_port,
            max_lease: self.client.max_lease,
            ignore_naks: self.client.ignore_naks,
            parameters: self.client.parameters,
            options: self.client.options,
        }
    }
}
