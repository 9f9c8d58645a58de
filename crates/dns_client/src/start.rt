//! How queries begin.
ghost use Rattle.std.specs.Prelude.{◌≡◌, Some, None, true, is_some, MatchResult, IfOk};
ghost use Rattle.dns_client.specs.Client.{raw_fault};
ghost use Rattle.dns_client.specs.PlainName.{plain_name};
ghost use Rattle.dns_client.specs.Query.{new_query, request_with};

use crate::name::{is_plain, name_bytes};
use crate::query::{DnsQuery, PendingQuery, QueryHandle, QueryState, Request, Turn};
use crate::slots::{first_free, put, put_or_grow};
use crate::{MulticastDns, Socket, StartQueryError};
use arrayvec::ArrayVec;
use managed::ManagedSlice;
use net_wire::dns::DnsType;
use net_wire::{Duration, Instant};

impl<'a> Socket<'a> {
    ghost use Rattle.dns_client.specs.Client.{client_of, Started, text_refusal, raw_refusal, place_fault};
    ghost use Rattle.dns_client.specs.Client.{has_no_place};
    ghost use Rattle.dns_client.specs.TextName.{labels_of_text, wire_name, mdns_of};

    /// Starts a query for a name with a point between labels. The words make its id and its port.
    pub fn start_query(
        &mut self,
        name: &str,
        query_type: DnsType,
        id_word: u32,
        port_word: u32,
    ) -> Result<QueryHandle, StartQueryError>
        ensures value { Started (text_refusal (client_of self.old) name.now)
            (new_query (request_with (wire_name name.now) query_type (mdns_of (labels_of_text name.now))
            id_word port_word))
            result (client_of self.old) (client_of self.new) }
    {
        match name_bytes(name) {
            Ok((bytes, mdns)) => self.start(new_request(
                bytes, query_type, mdns, id_word, port_word,
            )),
            Err(error) => Err(error),
        }
    }

    /// Starts a query for the bytes of a name: labels behind their lengths, and a zero byte.
    pub fn start_query_raw(
        &mut self,
        raw_name: &[u8],
        query_type: DnsType,
        mdns: MulticastDns,
        id_word: u32,
        port_word: u32,
    ) -> Result<QueryHandle, StartQueryError>
        ensures value { Started (raw_refusal (client_of self.old) raw_name.now)
            (new_query (request_with raw_name.now query_type mdns id_word port_word))
            result (client_of self.old) (client_of self.new) }
    {
        if self.has_no_place() {
            return Err(StartQueryError::NoFreeSlot);
        }
        match raw_bytes(raw_name) {
            Ok(bytes) => self.start(new_request(bytes, query_type, mdns, id_word, port_word)),
            Err(error) => Err(error),
        }
    }

    fn has_no_place(&self) -> bool
        ensures { result ≡ has_no_place (client_of self.now) }
    {
        match &self.queries {
            ManagedSlice::Borrowed(slots) => first_free(slots) == slots.len(),
            ManagedSlice::Owned(_) => false,
        }
    }

    #[tactic(auto, using(crate::proofs::SlotLemmas::new_is_live, crate::proofs::SlotLemmas::others_stay))]
    fn start(&mut self, request: Request) -> Result<QueryHandle, StartQueryError>
        ensures { Started (place_fault (client_of self.old)) (new_query request)
            result (client_of self.old) (client_of self.new) }
    {
        let query = new_query(request);
        match &mut self.queries {
            ManagedSlice::Borrowed(slots) => put(slots, query),
            ManagedSlice::Owned(slots) => put_or_grow(slots, query),
        }
    }
}

/// The bytes of a name.
fn raw_bytes(raw: &[u8]) -> Result<ArrayVec<u8, 255>, StartQueryError>
    ensures value { MatchResult result
        (λ bytes. (raw_fault raw.now ≡ None) × (bytes.items ≡ raw.now))
        (λ error. raw_fault raw.now ≡ Some error) }
    ensures plain { IfOk result (λ bytes. is_some (plain_name bytes.items) ≡ true) }
{
    if !is_plain(raw) {
        return Err(StartQueryError::InvalidName);
    }
    let mut bytes = ArrayVec::new();
    match bytes.try_extend_from_slice(raw) {
        Ok(()) => Ok(bytes),
        Err(_) => Err(StartQueryError::NameTooLong),
    }
}

fn new_request(
    name: ArrayVec<u8, 255>,
    type_: DnsType,
    mdns: MulticastDns,
    id_word: u32,
    port_word: u32,
) -> Request
    requires { is_some (plain_name name.items) ≡ true }
    ensures { result ≡ request_with name.items type_ mdns id_word port_word }
{
    Request {
        name,
        type_,
        mdns,
        id: (id_word % 65536) as u16,
        port: (1025 + port_word % 64511) as u16,
    }
}

fn new_query(request: Request) -> DnsQuery
    ensures { result ≡ new_query request }
{
    let turn = Turn {
        timeout_at: None,
        retransmit_at: Instant::ZERO,
        delay: Duration::from_secs(1),
        place: 0,
        asked: None,
    };
    DnsQuery {
        state: QueryState::Pending(PendingQuery { request, turn }),
    }
}
