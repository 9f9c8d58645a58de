//! Slots of queries, wherever they lie.
ghost use Rattle.std.specs.Prelude.{◌≡◌, ◌<◌, ◌≤◌, length, IsTrue, IsSome, IfOk, IfErr, OnErr, ◌↔◌};
ghost use Rattle.dns_client.specs.Slots.{first_free, with_new, slot_at, handle_at, without, Gives, least_due, due_of};
ghost use Rattle.dns_client.specs.Slots.{behind, earlier, least_due_behind};

use crate::query::{DnsQuery, QueryHandle, QueryState};
use crate::{GetQueryResultError, StartQueryError};
use arrayvec::ArrayVec;
use net_wire::{Instant, IpAddress};

/// The place of the lowest free slot, or the number of slots.
#[tactic(auto, using(crate::proofs::SlotLemmas::first_free_here, crate::proofs::SlotLemmas::first_free_more, crate::proofs::SlotLemmas::first_free_none))]
pub(crate) fn first_free(slots: &[Option<DnsQuery>]) -> usize
    ensures value { result ≡ first_free slots.now }
    ensures within { result ≤ length slots.now }
{
    for at in 0..slots.len() {
        if slots[at].is_none() {
            return at;
        }
    }
    slots.len()
}

/// Puts a query into the lowest free slot.
#[tactic(auto, using(crate::proofs::SlotLemmas::with_new_at))]
pub(crate) fn put(
    slots: &mut [Option<DnsQuery>],
    query: DnsQuery,
) -> Result<QueryHandle, StartQueryError>
    ensures ok { IfOk result (λ handle. (handle.0 ≡ first_free slots.old)
        × (first_free slots.old < length slots.old)
        × (slots.new ≡ with_new query slots.old)) }
    ensures err { OnErr result ((slots.new ≡ slots.old) × (first_free slots.old ≡ length slots.old)) }
    ensures cause { IfErr result (λ error. error ≡ StartQueryError.NoFreeSlot) }
{
    let at = first_free(slots);
    if at < slots.len() {
        slots[at] = Some(query);
        Ok(QueryHandle(at))
    } else {
        Err(StartQueryError::NoFreeSlot)
    }
}

/// Puts a query into the lowest free slot, or into a new one.
#[tactic(auto, using(crate::proofs::SlotLemmas::with_new_at, crate::proofs::SlotLemmas::with_new_behind))]
pub(crate) fn put_or_grow(
    slots: &mut Vec<Option<DnsQuery>>,
    query: DnsQuery,
) -> Result<QueryHandle, StartQueryError>
    ensures ok { IfOk result (λ handle. (handle.0 ≡ first_free slots.old.items)
        × (slots.new.items ≡ with_new query slots.old.items)) }
    ensures err { OnErr result ((slots.new.items ≡ slots.old.items)
        × (first_free slots.old.items ≡ length slots.old.items)) }
    ensures cause { IfErr result (λ error. error ≡ StartQueryError.NoMemory) }
{
    let at = first_free(slots.as_slice());
    if at < slots.len() {
        slots[at] = Some(query);
        return Ok(QueryHandle(at));
    }
    match slots.push(Some(query)) {
        Ok(()) => Ok(QueryHandle(at)),
        Err(_) => Err(StartQueryError::NoMemory),
    }
}

/// Whether a query is in the slot of a handle.
pub(crate) fn is_live(slots: &[Option<DnsQuery>], handle: QueryHandle) -> bool
    ensures { IsTrue result ↔ IsSome (slot_at slots.now handle) }
{
    handle.0 < slots.len() && slots[handle.0].is_some()
}

/// The handle of the query in a slot.
pub(crate) fn handle_at(slots: &[Option<DnsQuery>], slot: usize) -> Option<QueryHandle>
    ensures { result ≡ handle_at slots.now slot }
{
    if slot < slots.len() && slots[slot].is_some() {
        Some(QueryHandle(slot))
    } else {
        None
    }
}

/// Frees the slot of a handle.
pub(crate) fn free(slots: &mut [Option<DnsQuery>], handle: QueryHandle)
    ensures { slots.new ≡ without slots.old handle }
{
    if handle.0 < slots.len() {
        slots[handle.0] = None;
    }
}

/// The result of the query of a handle, whose slot is freed unless it waits.
pub(crate) fn take_result(
    slots: &mut [Option<DnsQuery>],
    handle: QueryHandle,
) -> Result<ArrayVec<IpAddress, 4>, GetQueryResultError>
    requires { IsSome (slot_at slots.old handle) }
    ensures { Gives slots.old handle result slots.new }
{
    if let Some(query) = &slots[handle.0] {
        if let QueryState::Pending(_) = query.state {
            return Err(GetQueryResultError::Pending);
        }
    }
    match slots[handle.0].take() {
        Some(query) => match query.state {
            QueryState::Answered(addresses) => Ok(addresses),
            QueryState::Failed => Err(GetQueryResultError::Failed),
            QueryState::Pending(_) => Err(GetQueryResultError::Pending),
        },
        None => Err(GetQueryResultError::Failed),
    }
}

/// When a slot is due, if its query waits.
fn due_of(slot: &Option<DnsQuery>) -> Option<Instant>
    ensures { result ≡ due_of slot.now }
{
    match slot {
        None => None,
        Some(query) => match &query.state {
            QueryState::Pending(pending) => Some(pending.turn.retransmit_at),
            QueryState::Answered(_) => None,
            QueryState::Failed => None,
        },
    }
}

fn earlier(one: Option<Instant>, other: Option<Instant>) -> Option<Instant>
    ensures { result ≡ earlier one other }
{
    match one {
        None => other,
        Some(first) => match other {
            None => one,
            Some(second) => { if second < first { other } else { one } }
        },
    }
}

/// The least due of the queries that wait.
pub(crate) fn least_due(slots: &[Option<DnsQuery>]) -> Option<Instant>
    ensures { result ≡ least_due slots.now }
{
    let mut least = None;
    let mut at = slots.len();
    while at > 0 {
        at -= 1;
        least = earlier(due_of(&slots[at]), least);
    }
    least
}

/// An instant, if it is behind the last one, where there was one.
fn behind(last: &Option<Instant>, at: Option<Instant>) -> Option<Instant>
    ensures { result ≡ behind last.now at }
{
    match last {
        None => at,
        Some(last) => match at {
            None => None,
            Some(due) => { if *last < due { at } else { None } }
        },
    }
}

/// The least due behind an instant of the queries that wait.
#[tactic(auto, using(crate::proofs::SlotLemmas::least_due_behind_more))]
pub(crate) fn least_due_behind(
    last: &Option<Instant>,
    slots: &[Option<DnsQuery>],
) -> Option<Instant>
    ensures { result ≡ least_due_behind last.now slots.now }
{
    let mut least = None;
    let mut at = slots.len();
    while at > 0 {
        at -= 1;
        least = earlier(behind(last, due_of(&slots[at])), least);
    }
    least
}
