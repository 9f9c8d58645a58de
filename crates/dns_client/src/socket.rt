//! The client.
ghost use Rattle.std.specs.Prelude.{◌≡◌, take};
ghost use Rattle.std.specs.List.{list_any};
ghost use Rattle.dns_client.specs.Response.{is_same_address, is_accepted, after_response, arrived_by};
ghost use Rattle.dns_client.specs.Looks.{look, walk, Dispatched};

use crate::dispatch::dispatch;
use crate::query::{DnsQuery, QueryHandle};
use crate::response::{Arrived, DNS_PORT, MDNS_PORT, hear, is_response, is_same_address};
use crate::slots::{free, handle_at, is_live, least_due, least_due_behind, take_result};
use crate::{DnsEmit, GetQueryResultError};
use arrayvec::ArrayVec;
use managed::ManagedSlice;
use net_wire::dns::Packet;
use net_wire::{EmitError, Instant, IpAddress};

/// A DNS client (RFC 1035, section 7). Its slots are a caller's, or a list that grows.
#[derive(Debug)]
pub struct Socket<'a> {
    pub(crate) servers: ArrayVec<IpAddress, 3>,
    pub(crate) queries: ManagedSlice<'a, Option<DnsQuery>>,
    pub(crate) hop_limit: Option<u8>,
}

impl<'a> Drop for Socket<'a> {
    fn drop(self) {
        let Socket {
            servers: _,
            queries,
            hop_limit: _,
        } = self;
        let _ = queries;
    }
}

/// Whether an address is one of the servers.
fn is_listed(servers: &[IpAddress], src: &IpAddress) -> bool
    ensures { result ≡ list_any (λ server. is_same_address server src.now) servers.now }
{
    servers.iter().any(|server| is_same_address(server, src))
}

/// The first three servers of a list.
fn first_servers(servers: &[IpAddress]) -> ArrayVec<IpAddress, 3>
    ensures { result.items ≡ take 3 servers.now }
{
    let mut kept = ArrayVec::new();
    match kept.try_extend_from_slice(&servers[..servers.len().min(3)]) {
        Ok(()) => kept,
        Err(_) => unreachable!(),
    }
}

impl<'a> Socket<'a> {
    ghost use Rattle.std.specs.Prelude.{◌≢◌, Some, None, IsTrue, IsSome, ◌↔◌};
    ghost use Rattle.managed.specs.Storage.{items_of, item_storage};
    ghost use Rattle.dns_client.specs.Client.{client_of, hop_limit_of};
    ghost use Rattle.dns_client.specs.Slots.{slot_at, handle_at, without, Gives, least_due, least_due_behind};

    /// A client of the first three servers. Slots that hold queries keep them.
    pub fn new(servers: &[IpAddress], queries: ManagedSlice<'a, Option<DnsQuery>>) -> Socket<'a>
        ensures value { client_of result ≡ record {
          servers = take 3 servers.now;
          slots = items_of queries.entry;
          hop_limit = None;
          storage = item_storage queries.entry;
        } }
    {
        Socket {
            servers: first_servers(servers),
            queries,
            hop_limit: None,
        }
    }

    /// The first three servers are asked from now on.
    pub fn update_servers(&mut self, servers: &[IpAddress])
        ensures value { client_of self.new ≡ record (client_of self.old) { servers = take 3 servers.now } }
    {
        self.servers = first_servers(servers);
    }

    /// The hop limit that was set; without one messages have 64.
    pub fn hop_limit(&self) -> Option<u8>
        ensures value { result ≡ (client_of self.now).hop_limit }
    {
        self.hop_limit
    }

    /// No datagram has the hop limit 0 (RFC 1122, section 3.2.1.7).
    pub fn set_hop_limit(&mut self, hop_limit: Option<u8>)
        requires { hop_limit ≢ Some 0 }
        ensures value { client_of self.new ≡ record (client_of self.old) { hop_limit = hop_limit } }
    {
        self.hop_limit = hop_limit;
    }

    /// Whether a handle names a query.
    pub fn is_live(&self, handle: QueryHandle) -> bool
        ensures value { IsTrue result ↔ IsSome (slot_at (client_of self.now).slots handle) }
    {
        is_live(self.queries.as_slice(), handle)
    }

    /// The handle of the query in a slot, if one is in it.
    pub fn handle_at(&self, slot: usize) -> Option<QueryHandle>
        ensures value { result ≡ handle_at (client_of self.now).slots slot }
    {
        handle_at(self.queries.as_slice(), slot)
    }

    /// The addresses of a query. A query that ended frees its slot.
    pub fn get_query_result(
        &mut self,
        handle: QueryHandle,
    ) -> Result<ArrayVec<IpAddress, 4>, GetQueryResultError>
        requires { IsSome (slot_at (client_of self.old).slots handle) }
        ensures value { Gives (client_of self.old).slots handle result (client_of self.new).slots }
        ensures others { client_of self.new
            ≡ record (client_of self.old) { slots = (client_of self.new).slots } }
    {
        match &mut self.queries {
            ManagedSlice::Borrowed(slots) => take_result(slots, handle),
            ManagedSlice::Owned(slots) => take_result(slots.as_mut_slice(), handle),
        }
    }

    /// Ends a query and frees its slot.
    pub fn cancel_query(&mut self, handle: QueryHandle)
        requires { IsSome (slot_at (client_of self.old).slots handle) }
        ensures value { client_of self.new
            ≡ record (client_of self.old) { slots = without (client_of self.old).slots handle } }
    {
        match &mut self.queries {
            ManagedSlice::Borrowed(slots) => free(slots, handle),
            ManagedSlice::Owned(slots) => free(slots.as_mut_slice(), handle),
        }
    }

    /// When to call `dispatch` next: the least due of the queries that wait.
    pub fn poll_at(&self) -> Option<Instant>
        ensures value { result ≡ least_due (client_of self.now).slots }
    {
        least_due(self.queries.as_slice())
    }

    /// The least due behind an instant, the last one at which `dispatch` was called: a query that is due by
    /// then, and whose message was refused, waits for something else than time.
    pub fn poll_behind(&self, last: &Option<Instant>) -> Option<Instant>
        ensures value { result ≡ least_due_behind last.now (client_of self.now).slots }
    {
        least_due_behind(last, self.queries.as_slice())
    }

    /// Whether a datagram may be a response: from port 53 of a server, or from the port of mDNS.
    pub fn accepts(&self, src: IpAddress, src_port: u16) -> bool
        ensures value { result ≡ is_accepted (client_of self.now).servers src src_port }
    {
        if src_port == MDNS_PORT {
            return true;
        }
        if src_port == DNS_PORT {
            return is_listed(self.servers.as_slice(), &src);
        }
        false
    }

    /// Lets a datagram to a port decide what it can. The address that a query asked last is the one that
    /// answers it.
    pub fn process(&mut self, src: IpAddress, src_port: u16, dst_port: u16, payload: &[u8])
        requires { IsTrue (is_accepted (client_of self.old).servers src src_port) }
        ensures value { client_of self.new ≡ record (client_of self.old) {
          slots = after_response (arrived_by src src_port dst_port payload.now)
              payload.now (client_of self.old).slots;
        } }
    {
        let Ok(packet) = Packet::new_checked(payload) else {
            return;
        };
        if !is_response(&packet) {
            return;
        }
        let arrived = Arrived {
            source: src,
            source_port: src_port,
            port: dst_port,
            id: packet.transaction_id(),
        };
        match &mut self.queries {
            ManagedSlice::Borrowed(slots) => hear(&arrived, &packet, slots),
            ManagedSlice::Owned(slots) => hear(&arrived, &packet, slots.as_mut_slice()),
        }
    }

    /// Looks at the queries in the order of their slots, until one sends its message or is refused.
    pub fn dispatch<E: DnsEmit>(&mut self, now: Instant, out: &mut E) -> Result<(), EmitError>
        ensures value { Dispatched E.took E.refused (hop_limit_of (client_of self.old))
            (walk (look (E.source out.old) (client_of self.old).servers now) (client_of self.old).slots)
            result (client_of self.new).slots out.old out.new }
        ensures others { client_of self.new
            ≡ record (client_of self.old) { slots = (client_of self.new).slots } }
    {
        let hop_limit = match self.hop_limit {
            Some(hop_limit) => hop_limit,
            None => 64,
        };
        let servers = self.servers.as_slice();
        match &mut self.queries {
            ManagedSlice::Borrowed(slots) => dispatch(slots, servers, hop_limit, &now, out),
            ManagedSlice::Owned(slots) => dispatch(
                slots.as_mut_slice(),
                servers,
                hop_limit,
                &now,
                out,
            ),
        }
    }
}
