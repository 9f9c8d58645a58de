//! What the client sends.
ghost use Rattle.std.specs.Prelude.{◌≡◌, ◌<◌, ◌≤◌, Some, length};
ghost use Rattle.dns_client.specs.Emit.{Emitted};
ghost use Rattle.dns_client.specs.LookRead.{request_of};
ghost use Rattle.dns_client.specs.Looks.{look, walk, message_for, Dispatched};
ghost use Rattle.dns_client.specs.Waiting.{RequestValue};

use crate::DnsEmit;
use crate::look::{Choice, Route, look_at, port_of, set_turn};
use crate::query::{DnsQuery, QueryHandle, QueryState, Request};
use net_wire::dns::{Question, Repr};
use net_wire::{EmitError, Instant, IpAddress, IpProtocol, IpRepr, UdpRepr};

/// The longest query: the header, a name of 255 bytes, its type and its class.
const MAX_QUERY: usize = 271;

/// Hands the message of a request to the emitter.
fn send<E: DnsEmit>(route: &Route, request: &Request, out: &mut E) -> Result<(), EmitError>
    requires place { route.now.place < 3 }
    requires source { E.source out.old route.now.to ≡ Some route.now.from }
    ensures { Emitted E.took E.refused (message_for route.now request.now) result out.old out.new }
{
    let query = Repr {
        transaction_id: request.id,
        question: Question {
            name: request.name.as_slice(),
            type_: request.type_,
        },
    };
    let len = query.buffer_len();
    let mut buffer = [0; MAX_QUERY];
    let payload = &mut buffer[..len];
    query.emit(payload);
    let ip = IpRepr {
        src_addr: route.from,
        dst_addr: route.to,
        next_header: IpProtocol::Udp,
        payload_len: len + 8,
        hop_limit: route.hop_limit,
    };
    let udp = UdpRepr {
        src_port: request.port,
        dst_port: port_of(request.mdns),
    };
    out.emit(QueryHandle(route.slot), route.place, &ip, &udp, payload)
}

/// Hands the message of a slot to the emitter, if its query waits.
fn ask<E: DnsEmit>(route: &Route, slot: &Option<DnsQuery>, out: &mut E) -> Result<(), EmitError>
    requires place { route.now.place < 3 }
    requires source { E.source out.old route.now.to ≡ Some route.now.from }
    ensures { (request : RequestValue) → request_of slot.now ≡ Some request
        → Emitted E.took E.refused (message_for route.now request) result out.old out.new }
{
    match slot {
        None => Ok(()),
        Some(query) => match &query.state {
            QueryState::Pending(waiting) => send(route, &waiting.request, out),
            QueryState::Answered(_) => Ok(()),
            QueryState::Failed => Ok(()),
        },
    }
}

/// Looks at the slots, up to the first one that asks.
pub(crate) fn dispatch<E: DnsEmit>(
    slots: &mut [Option<DnsQuery>],
    servers: &[IpAddress],
    hop_limit: u8,
    now: &Instant,
    out: &mut E,
) -> Result<(), EmitError>
    requires { length servers.now ≤ 3 }
    ensures { Dispatched E.took E.refused hop_limit
        (walk (look (E.source out.old) servers.now now.now) slots.old)
        result slots.new out.old out.new }
{
    for at in 0..slots.len() {
        match look_at(&slots[at], servers, now, out) {
            Choice::Pass => {}
            Choice::Keep(turn) => set_turn(&mut slots[at], turn),
            Choice::Fail => {
                slots[at] = Some(DnsQuery {
                    state: QueryState::Failed,
                });
            }
            Choice::Ask {
                from,
                to,
                before,
                after,
            } => {
                let route = Route {
                    slot: at,
                    place: before.place,
                    from,
                    to,
                    hop_limit,
                };
                return match ask(&route, &slots[at], out) {
                    Ok(()) => {
                        set_turn(&mut slots[at], after);
                        Ok(())
                    }
                    Err(error) => {
                        set_turn(&mut slots[at], before);
                        Err(error)
                    }
                };
            }
        }
    }
    Ok(())
}
