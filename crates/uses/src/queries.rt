//! `dns_client`: a query is started, and ended.
ghost use Rattle.std.specs.Prelude.{◌≡◌, ◌≢◌, ℕ, Some, IfOk, IfSome, OnErr, IsSome, IsFalse, is_some, slice_get};
ghost use Rattle.net_wire.specs.declared.dns.dns_type.DnsType.TheVariants.{A};
ghost use Rattle.dns_client.specs.Client.{client_of};
ghost use Rattle.dns_client.specs.Query.{new_query, query_result, request_with};
ghost use Rattle.dns_client.specs.Slots.{first_free, slot_at};
ghost use Rattle.dns_client.specs.TextName.{labels_of_text, mdns_of, wire_name};

use arrayvec::ArrayVec;
use dns_client::{GetQueryResultError, QueryHandle, Socket, StartQueryError};
use net_wire::IpAddress;
use net_wire::dns::DnsType;

/// Asks for the IPv4 addresses of a name. The query takes the lowest free slot, no other query is
/// touched, and a refusal changes nothing.
pub fn ask(
    socket: &mut Socket<'_>,
    name: &str,
    id_word: u32,
    port_word: u32,
) -> Result<QueryHandle, StartQueryError>
    ensures place { IfOk result (λ handle. handle.0 ≡ first_free (client_of socket.old).slots) }
    ensures query { IfOk result (λ handle. slot_at (client_of socket.new).slots handle
        ≡ Some (new_query (request_with (wire_name name.now) A (mdns_of (labels_of_text name.now))
        id_word port_word))) }
    ensures others { IfOk result (λ handle. (k : ℕ) → k ≢ handle.0
        → slice_get (client_of socket.new).slots k ≡ slice_get (client_of socket.old).slots k) }
    ensures err { OnErr result (client_of socket.new ≡ client_of socket.old) }
{
    socket.start_query(name, DnsType::A, id_word, port_word)
}

/// Ends a query, with its addresses if it has some: its handle names no query any more.
pub fn finish(
    socket: &mut Socket<'_>,
    handle: QueryHandle,
) -> Result<ArrayVec<IpAddress, 4>, GetQueryResultError>
    requires { IsSome (slot_at (client_of socket.old).slots handle) }
    ensures value { IfSome (slot_at (client_of socket.old).slots handle)
        (λ query. result ≡ query_result query) }
    ensures freed { IsFalse (is_some (slot_at (client_of socket.new).slots handle)) }
{
    let result = socket.get_query_result(handle);
    if socket.is_live(handle) {
        socket.cancel_query(handle);
    }
    result
}
