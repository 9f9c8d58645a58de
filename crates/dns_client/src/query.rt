//! Queries.
use arrayvec::ArrayVec;
use net_wire::dns::DnsType;
use net_wire::{Duration, Instant, IpAddress};
use std::marker::Model;

/// Whether all stations of the link are asked (RFC 6762), and no server.
#[derive(Clone, Copy, Debug, PartialEq, Eq)]
pub enum MulticastDns {
    Disabled,
    Enabled,
}

/// What a query asks for, and how its answer is known.
#[derive(Debug, Drop)]
pub(crate) struct Request {
    /// Labels with their lengths, and a zero byte (RFC 1035, section 3.1).
    pub(crate) name: ArrayVec<u8, 255>,
    pub(crate) type_: DnsType,
    pub(crate) mdns: MulticastDns,
    pub(crate) id: u16,
    /// The port that the query is sent from.
    pub(crate) port: u16,
}

impl Model for Request {
    ghost use Rattle.std.specs.Prelude.{◌≡◌, is_some, true};
    ghost use Rattle.dns_client.specs.PlainName.{plain_name};
    ghost use Rattle.dns_client.specs.Waiting.{RequestValue};

    ghost Value = { RequestValue };

    ghost view = { λ r.
        record { name = r.name.items; type_ = r.type_; mdns = r.mdns; id = r.id; port = r.port } };

    ghost invariant = { λ r. is_some (plain_name r.name.items) ≡ true };
}

/// How far a query has come.
#[derive(Clone, Copy, Debug)]
pub(crate) struct Turn {
    /// When the next place is asked; `None` before the first look.
    pub(crate) timeout_at: Option<Instant>,
    /// When the next message is sent.
    pub(crate) retransmit_at: Instant,
    /// How long after the next message the one after it is sent.
    pub(crate) delay: Duration,
    /// The place in the list of servers or groups.
    pub(crate) place: usize,
    /// Where the last message went; `None` before the first one.
    pub(crate) asked: Option<IpAddress>,
}

/// A query that waits for an answer.
#[derive(Debug, Drop)]
pub(crate) struct PendingQuery {
    pub(crate) request: Request,
    pub(crate) turn: Turn,
}

impl Model for PendingQuery {
    ghost use Rattle.dns_client.specs.Turns.{IsShort};
    ghost use Rattle.dns_client.specs.Waiting.{Waiting};

    ghost Value = { Waiting };

    ghost view = { λ p. record { request = p.request; turn = p.turn } };

    ghost invariant = { λ p. IsShort p.turn };
}

/// What became of a query.
#[derive(Debug, Drop)]
pub(crate) enum QueryState {
    Pending(PendingQuery),
    Answered(ArrayVec<IpAddress, 4>),
    Failed,
}

/// A query. It is public so that its slots can lie with the caller.
#[derive(Debug, Drop)]
pub struct DnsQuery {
    pub(crate) state: QueryState,
}

/// Names a query by the place of its slot.
#[derive(Clone, Copy)]
pub struct QueryHandle(pub(crate) usize);

impl QueryHandle {
    ghost use Rattle.std.specs.Prelude.{◌≡◌};

    /// The place of the query's slot.
    pub fn slot(&self) -> usize
        ensures value { result ≡ self.now.0 }
    {
        self.0
    }
}
