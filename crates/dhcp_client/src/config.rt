//! What a client is told.
use crate::RetryConfig;
use net_wire::{DhcpOption, Duration};

/// What a client is told once, beside the moment and its host's link.
#[derive(Clone, Debug, PartialEq, Eq, Drop)]
pub struct ClientConfig<'a> {
    /// The timeouts.
    pub retry: RetryConfig,
    /// The UDP port of servers (RFC 2131, section 4.1).
    pub server_port: u16,
    /// The UDP port of the client.
    pub client_port: u16,
    /// A lease is cut down to it; `None` for no such cap.
    pub max_lease: Option<Duration>,
    /// Whether refusals of servers are ignored.
    pub ignore_naks: bool,
    /// The options that servers are asked for (RFC 2132, section 9.8): from 1 to 255 kinds.
    pub parameters: &'a [u8],
    /// Options that each message carries behind the client's.
    pub options: &'a [DhcpOption<'a>],
}

impl<'a> Default for ClientConfig<'a> {
    ghost use Rattle.std.specs.Prelude.{◌≡◌};
    ghost use Rattle.dhcp_client.specs.Config.{default_settings, client_settings};

    ghost is_default = { λ config. client_settings config ≡ default_settings };

    fn default() -> Self {
        ClientConfig {
            retry: RetryConfig::default(),
            server_port: 67,
            client_port: 68,
            max_lease: None,
            ignore_naks: false,
            parameters: &[1, 3, 6],
            options: &[],
        }
    }
}
