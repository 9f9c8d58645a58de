//! A client's message to a lease server, and the address that it gets.
ghost use Rattle.std.specs.Prelude.{◌≡◌, ◌<◌, ◌≤◌, ◌≤ℤ◌, pos, Some, IfSome};
ghost use Rattle.net_wire.specs.declared.address.EthernetAddress.{EthernetAddress};
ghost use Rattle.lease_server.specs.State.{holding, micros_of};

use lease_server::{Reply, Server};
use net_wire::{DhcpRepr, Instant, Ipv4Address};

/// The address that a message gets its client, if it gets one: the client holds it, and no other does.
pub fn address_given(
    server: &mut Server<'_>,
    now: Instant,
    message: &DhcpRepr<'_>,
) -> Option<Ipv4Address>
    requires from { pos 0 ≤ℤ now }
    requires within { micros_of now < 4294967296000000 }
    requires later { server.old.last ≤ micros_of now }
    ensures held { IfSome result (λ address.
        holding server.new.holders message.now.client_hardware_address (micros_of now) ≡ Some address) }
    ensures alone { IfSome result (λ address. (other : EthernetAddress)
        → holding server.new.holders other (micros_of now) ≡ Some address
        → message.now.client_hardware_address ≡ other) }
{
    match server.answer(now, message) {
        Reply::Offer(address) | Reply::Ack(address) => Some(address),
        Reply::Nak | Reply::Silent(_) => None,
    }
}
