//! Queries against values from outside.
mod names;
mod queries;
mod responses;

use dns_client::{DnsEmit, GetQueryResultError, QueryHandle, Socket};
use net_wire::{EmitError, IpAddress, IpRepr, Ipv4Address, UdpRepr};

/// What became of a query.
#[derive(Clone, Copy, Debug, PartialEq, Eq)]
pub(crate) enum Outcome {
    Pending,
    Failed,
    /// The first address, and how many there are.
    Answered(IpAddress, usize),
    NoQuery,
}

pub(crate) fn server(last: u8) -> IpAddress {
    IpAddress::Ipv4(Ipv4Address([192, 0, 2, last]))
}

/// A network that takes messages, or refuses them.
#[derive(Clone, Copy, Debug)]
pub(crate) struct Network {
    pub(crate) source: Option<IpAddress>,
    pub(crate) is_resolved: bool,
    pub(crate) sent: u32,
    pub(crate) to: IpAddress,
    pub(crate) port: u16,
    pub(crate) len: usize,
}

impl DnsEmit for Network {
    ghost use Rattle.std.specs.Prelude.{⊤};

    ghost took = { λ _ _ _. ⊤ };

    ghost refused = { λ _ _ _. ⊤ };

    ghost source = { λ network _. network.source };

    fn source_for(&self, _dst: IpAddress) -> Option<IpAddress> {
        self.source
    }

    fn emit(
        &mut self,
        _handle: QueryHandle,
        _place: usize,
        ip: &IpRepr,
        udp: &UdpRepr,
        payload: &[u8],
    ) -> Result<(), EmitError> {
        if !self.is_resolved {
            return Err(EmitError::Unresolved);
        }
        self.sent = self.sent.saturating_add(1);
        self.to = ip.dst_addr;
        self.port = udp.dst_port;
        self.len = payload.len();
        Ok(())
    }
}

pub(crate) fn ready_network() -> Network {
    Network {
        source: Some(server(42)),
        is_resolved: true,
        sent: 0,
        to: server(0),
        port: 0,
        len: 0,
    }
}

pub(crate) fn outcome_of(socket: &mut Socket<'_>, handle: QueryHandle) -> Outcome {
    if !socket.is_live(handle) {
        return Outcome::NoQuery;
    }
    match socket.get_query_result(handle) {
        Ok(addresses) => match addresses.as_slice().first() {
            Some(first) => Outcome::Answered(*first, addresses.len()),
            None => Outcome::NoQuery,
        },
        Err(GetQueryResultError::Pending) => Outcome::Pending,
        Err(GetQueryResultError::Failed) => Outcome::Failed,
    }
}

/// Hands a datagram to the client, if it accepts one from there.
pub(crate) fn hear(
    socket: &mut Socket<'_>,
    source: IpAddress,
    source_port: u16,
    port: u16,
    payload: &[u8],
) {
    if socket.accepts(source, source_port) {
        socket.process(source, source_port, port, payload);
    }
}
