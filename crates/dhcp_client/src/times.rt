//! The times between messages (RFC 2131, sections 4.1 and 4.4.5).
ghost use Rattle.std.specs.Prelude.{◌≡◌};
ghost use Rattle.dhcp_client.specs.Times.{request_span, renew_span, rebind_span};

use crate::RetryConfig;
use net_wire::Duration;

/// From a request to the next one, where so many were sent before it.
pub(crate) fn request_span(initial: Duration, retry: u16) -> Duration
    ensures { result ≡ request_span initial retry }
{
    initial << u32::from(retry / 2)
}

/// From a renewal to the next one, where so much is left until T2.
pub(crate) fn renew_span(retry: RetryConfig, left: Duration) -> Duration
    ensures { result ≡ renew_span retry.min_renew_timeout retry.max_renew_timeout left }
{
    let least = retry.min_renew_timeout.total_micros();
    let greatest = retry.max_renew_timeout.total_micros();
    let left = left.total_micros();
    Duration::from_micros(least.max(left / 2).min(left).min(greatest))
}

/// From a renewal to all servers to the next one, where so much is left of the lease.
pub(crate) fn rebind_span(retry: RetryConfig, left: Duration) -> Duration
    ensures { result ≡ rebind_span retry.min_renew_timeout retry.max_renew_timeout left }
{
    let least = retry.min_renew_timeout.total_micros();
    let greatest = retry.max_renew_timeout.total_micros();
    Duration::from_micros(least.max(left.total_micros() / 2).min(greatest))
}
