//! When time alone brings something about.
ghost use Rattle.std.specs.Prelude.{◌≡◌};
ghost use Rattle.dns_client.specs.Slots.{behind, earlier};
ghost use Rattle.net_host.specs.Waiting.{first_rebinding, first_renewal, state_moment};

use dhcp_client::{ClientState, Lease};
use net_wire::Instant;

/// An instant, if it is behind the last one, where there was one.
fn behind(last: &Option<Instant>, at: Option<Instant>) -> Option<Instant>
    ensures { result ≡ behind last.now at }
{
    match last {
        None => at,
        Some(last) => match at {
            None => None,
            Some(due) => { if *last < due { at } else { None } }
        },
    }
}

/// The earlier one of two instants, where there are any.
pub(crate) fn earlier(one: Option<Instant>, other: Option<Instant>) -> Option<Instant>
    ensures { result ≡ earlier one other }
{
    match one {
        None => other,
        Some(first) => match other {
            None => one,
            Some(second) => { if second < first { other } else { one } }
        },
    }
}

/// The next renewal.
fn first_renewal(lease: &Lease) -> Instant
    ensures { result ≡ first_renewal lease.now }
{
    if lease.rebinding {
        lease.rebind_at
    } else {
        lease.renew_at
    }
}

/// The first renewal that goes to all servers; `None` once one did.
fn first_rebinding(lease: &Lease) -> Option<Instant>
    ensures { result ≡ first_rebinding lease.now }
{
    if lease.rebinding {
        None
    } else {
        Some(lease.rebind_at)
    }
}

/// When a DHCP client in this state goes on, behind the last instant.
pub(crate) fn state_moment(last: &Option<Instant>, state: &ClientState) -> Option<Instant>
    ensures { result ≡ state_moment last.now state.now }
{
    match state {
        ClientState::Discovering { retry_at } => behind(last, Some(*retry_at)),
        ClientState::Requesting { retry_at, .. } => behind(last, Some(*retry_at)),
        ClientState::Renewing(lease) => {
            let renewal = behind(last, Some(first_renewal(lease)));
            let rebinding = behind(last, first_rebinding(lease));
            let end = behind(last, Some(lease.expires_at));
            earlier(renewal, earlier(rebinding, end))
        }
    }
}
