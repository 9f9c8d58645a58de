//! The states of the client (RFC 2131, figure 5).
ghost use Rattle.std.specs.Prelude.{◌≡◌};
ghost use Rattle.std.specs.Int.{int_min};

use net_wire::{Instant, Ipv4Address, Ipv4Cidr};

/// How a server is reached.
#[derive(Clone, Copy, Debug, PartialEq, Eq)]
pub struct ServerInfo {
    /// Where its messages come from, and where messages to it go.
    pub address: Ipv4Address,
    /// What it calls itself (RFC 2132, section 9.7).
    pub identifier: Ipv4Address,
}

/// A lease but for its name servers, and when it is renewed (RFC 2131, section 4.4.5).
#[derive(Clone, Copy, Debug, PartialEq, Eq)]
pub struct Lease {
    /// The server of the offer.
    pub server: ServerInfo,
    pub address: Ipv4Cidr,
    pub router: Option<Ipv4Address>,
    /// When the next renewal goes to the server: at first T1.
    pub renew_at: Instant,
    /// From when on renewals go to all servers, and when the next of these goes: at first T2.
    pub rebind_at: Instant,
    /// Whether a renewal to all servers was due.
    pub rebinding: bool,
    pub expires_at: Instant,
}

impl Lease {
    ghost use Rattle.std.specs.Prelude.{◌≡◌};
    ghost use Rattle.dhcp_client.specs.Client.{lease_poll_at};
    ghost use Rattle.dhcp_client.specs.Plan.{is_early, is_for_server, renewed_at, rebinding_at};

    /// When it is renewed next, or ends.
    pub(crate) fn poll_at(&self) -> Instant
        ensures { result ≡ lease_poll_at self.now }
    {
        let renewal = if self.rebinding {
            self.rebind_at
        } else {
            earlier(self.renew_at, self.rebind_at)
        };
        earlier(renewal, self.expires_at)
    }

    /// Whether no renewal is due yet.
    pub(crate) fn is_early(&self, now: Instant) -> bool
        ensures { result ≡ is_early self.now now }
    {
        now < self.renew_at || (self.rebinding && now < self.rebind_at)
    }

    /// Whether a renewal goes to the server alone.
    pub(crate) fn is_for_server(&self, now: Instant) -> bool
        ensures { result ≡ is_for_server self.now now }
    {
        now < self.rebind_at && !self.rebinding
    }

    /// With its next renewal to the server at this moment.
    pub(crate) fn renewed_at(&self, at: Instant) -> Lease
        ensures { result ≡ renewed_at self.now at }
    {
        Lease {
            server: self.server,
            address: self.address,
            router: self.router,
            renew_at: at,
            rebind_at: self.rebind_at,
            rebinding: self.rebinding,
            expires_at: self.expires_at,
        }
    }

    /// With its next renewal to all servers at this moment.
    pub(crate) fn rebinding_at(&self, at: Instant) -> Lease
        ensures { result ≡ rebinding_at self.now at }
    {
        Lease {
            server: self.server,
            address: self.address,
            router: self.router,
            renew_at: self.renew_at,
            rebind_at: at,
            rebinding: true,
            expires_at: self.expires_at,
        }
    }
}

/// The earlier one of two moments.
fn earlier(one: Instant, other: Instant) -> Instant
    ensures { result ≡ int_min one other }
{
    if other < one { other } else { one }
}

/// What the client waits for.
#[derive(Clone, Copy, Debug, PartialEq, Eq)]
pub enum ClientState {
    /// For an offer.
    Discovering {
        /// When it sends the next discover.
        retry_at: Instant,
    },
    /// For an acknowledgement of its request.
    Requesting {
        /// When it sends the next request.
        retry_at: Instant,
        /// How many requests it sent.
        retry: u16,
        server: ServerInfo,
        requested_ip: Ipv4Address,
    },
    /// For the time to renew its lease, and then for an acknowledgement.
    Renewing(Lease),
}
