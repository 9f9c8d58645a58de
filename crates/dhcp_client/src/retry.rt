//! How long the client waits before it sends again, and how often.
use net_wire::Duration;

/// The timeouts of the client.
#[derive(Clone, Copy, Debug, PartialEq, Eq)]
pub struct RetryConfig {
    /// From a discover to the next one.
    pub discover_timeout: Duration,
    /// From the first request to the second; it doubles every two requests.
    pub initial_request_timeout: Duration,
    /// So many requests without an answer, and the client discovers anew.
    pub request_retries: u16,
    /// The least time from a renewal or rebinding to the next one (RFC 2131, section 4.4.5).
    pub min_renew_timeout: Duration,
    /// The greatest time from a renewal or rebinding to the next one.
    pub max_renew_timeout: Duration,
}

impl Default for RetryConfig {
    ghost use Rattle.std.specs.Prelude.{◌≡◌};
    ghost use Rattle.dhcp_client.specs.Retry.{default_retry};

    ghost is_default = { λ config. config ≡ default_retry };

    fn default() -> Self {
        RetryConfig {
            discover_timeout: Duration::from_secs(10),
            initial_request_timeout: Duration::from_secs(5),
            request_retries: 5,
            min_renew_timeout: Duration::from_secs(60),
            max_renew_timeout: Duration::MAX,
        }
    }
}
