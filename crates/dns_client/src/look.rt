//! Looks at queries.
ghost use Rattle.std.specs.Prelude.{◌≡◌, ◌<◌, ◌≤◌, ◌*◌, nat_lt, length, slice_get, Some, OnSome};
ghost use Rattle.std.specs.Prelude.{if◌then◌else◌};
ghost use Rattle.dns_client.specs.Looks.{places, port_of, choice_for, look, with_turn};
ghost use Rattle.dns_client.specs.LookRead.{request_of, choice_value, choice_in, IsAsked, IsShortChoice};
ghost use Rattle.dns_client.specs.Turns.{IsShort, turned, sent_to};

use crate::query::{DnsQuery, PendingQuery, QueryState, Turn};
use crate::response::{DNS_PORT, MDNS_PORT};
use crate::{DnsEmit, MulticastDns};
use net_wire::{Duration, Instant, IpAddress, Ipv4Address, Ipv6Address};

/// The groups of mDNS (RFC 6762, section 3).
const MDNS_IPV6: IpAddress = IpAddress::Ipv6(Ipv6Address([
    0xff, 2, 0, 0, 0, 0, 0, 0, 0, 0, 0, 0, 0, 0, 0, 0xfb,
]));

const MDNS_IPV4: IpAddress = IpAddress::Ipv4(Ipv4Address([224, 0, 0, 251]));

/// What a look does.
#[derive(Clone, Copy, Debug)]
pub(crate) enum Choice {
    /// No query waits there.
    Pass,
    /// Nothing but this turn.
    Keep(Turn),
    /// Ends the query.
    Fail,
    /// Sends a message; `before` is the turn if it is refused, `after` if it is taken.
    Ask {
        from: IpAddress,
        to: IpAddress,
        before: Turn,
        after: Turn,
    },
}

/// Where a message goes, and whose it is.
#[derive(Clone, Copy, Debug)]
pub(crate) struct Route {
    pub(crate) slot: usize,
    pub(crate) place: usize,
    pub(crate) from: IpAddress,
    pub(crate) to: IpAddress,
    pub(crate) hop_limit: u8,
}

/// The address at a place of the list that a query asks.
fn address_at(servers: &[IpAddress], mdns: MulticastDns, place: usize) -> Option<IpAddress>
    requires { length servers.now ≤ 3 }
    ensures value { result ≡ slice_get (places servers.now mdns) place }
    ensures near { OnSome result (place < 3) }
{
    match mdns {
        MulticastDns::Disabled => servers.get(place).copied(),
        MulticastDns::Enabled => match place {
            0 => Some(MDNS_IPV6),
            1 => Some(MDNS_IPV4),
            _ => None,
        },
    }
}

pub(crate) fn port_of(mdns: MulticastDns) -> u16
    ensures { result ≡ port_of mdns }
{
    match mdns {
        MulticastDns::Disabled => DNS_PORT,
        MulticastDns::Enabled => MDNS_PORT,
    }
}

/// The turn at a look.
fn turned(turn: &Turn, now: &Instant) -> Turn
    requires { IsShort turn.now }
    ensures value { result ≡ turned now.now turn.now }
    ensures some { 0 < result.delay }
    ensures short { result.delay ≤ 10000000 }
{
    let timeout_at = Some(*now + Duration::from_secs(10));
    match &turn.timeout_at {
        None => Turn {
            timeout_at,
            retransmit_at: turn.retransmit_at,
            delay: turn.delay,
            place: turn.place,
            asked: turn.asked,
        },
        Some(timeout) => {
            if *timeout < *now {
                Turn {
                    timeout_at,
                    retransmit_at: Instant::ZERO,
                    delay: Duration::from_secs(1),
                    place: turn.place + 1,
                    asked: turn.asked,
                }
            } else {
                *turn
            }
        }
    }
}

/// How long to wait after the message after the next one.
fn doubled(delay: &Duration) -> Duration
    requires some { 0 < delay.now }
    requires short { delay.now ≤ 10000000 }
    ensures value { result ≡ (if nat_lt (delay.now * 2) 10000000 then delay.now * 2 else 10000000) }
    ensures some { 0 < result }
    ensures short { result ≤ 10000000 }
{
    let longest = Duration::from_secs(10);
    let twice = *delay * 2;
    if twice < longest { twice } else { longest }
}

/// The turn once a message was sent.
fn sent_to(to: IpAddress, now: &Instant, turn: &Turn) -> Turn
    requires { IsShort turn.now }
    ensures value { result ≡ sent_to to now.now turn.now }
    ensures short { IsShort result }
{
    Turn {
        timeout_at: turn.timeout_at,
        retransmit_at: *now + turn.delay,
        delay: doubled(&turn.delay),
        place: turn.place,
        asked: Some(to),
    }
}

/// A look at a query that waits.
fn choose<E: DnsEmit>(
    waiting: &PendingQuery,
    servers: &[IpAddress],
    now: &Instant,
    out: &E,
) -> Choice
    requires { length servers.now ≤ 3 }
    ensures value { choice_value waiting.now.request result
        ≡ choice_for (E.source out.now) servers.now now.now waiting.now }
    ensures short { IsShortChoice result }
    ensures asks { IsAsked (E.source out.now) (Some waiting.now.request) result }
{
    let turn = turned(&waiting.turn, now);
    let Some(to) = address_at(servers, waiting.request.mdns, turn.place) else {
        return Choice::Fail;
    };
    if to.is_unspecified() {
        return Choice::Fail;
    }
    if *now < turn.retransmit_at {
        return Choice::Keep(turn);
    }
    match out.source_for(to) {
        None => Choice::Fail,
        Some(from) => {
            let after = sent_to(to, now, &turn);
            Choice::Ask {
                from,
                to,
                before: turn,
                after,
            }
        }
    }
}

/// A look at a slot.
pub(crate) fn look_at<E: DnsEmit>(
    slot: &Option<DnsQuery>,
    servers: &[IpAddress],
    now: &Instant,
    out: &E,
) -> Choice
    requires { length servers.now ≤ 3 }
    ensures value { choice_in (request_of slot.now) result
        ≡ look (E.source out.now) servers.now now.now slot.now }
    ensures short { IsShortChoice result }
    ensures asks { IsAsked (E.source out.now) (request_of slot.now) result }
{
    match slot {
        None => Choice::Pass,
        Some(query) => match &query.state {
            QueryState::Pending(waiting) => choose(waiting, servers, now, out),
            QueryState::Answered(_) => Choice::Pass,
            QueryState::Failed => Choice::Pass,
        },
    }
}

/// Gives the query of a slot another turn, if it waits.
pub(crate) fn set_turn(slot: &mut Option<DnsQuery>, turn: Turn)
    requires { IsShort turn }
    ensures { slot.new ≡ with_turn turn slot.old }
{
    match slot {
        None => {}
        Some(query) => match &mut query.state {
            QueryState::Pending(waiting) => waiting.turn = turn,
            QueryState::Answered(_) => {}
            QueryState::Failed => {}
        },
    }
}
