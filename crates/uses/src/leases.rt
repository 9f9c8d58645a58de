//! A host that holds the address that its DHCP client leased.
ghost use Rattle.std.specs.Prelude.{◌≡◌, pos, true, false, if◌then◌else◌};
ghost use Rattle.std.specs.Option.{option_map};
ghost use Rattle.dhcp_client.specs.Client.{has_lease, poll_at_of};
ghost use Rattle.dhcp_client.specs.Event.{configuration_of};

use dhcp_client::{Event, Socket};
use net_wire::Ipv4Cidr;

/// Holds what the client leases by now, where that changed.
pub fn follow(socket: &mut Socket<'_>, held: &mut Option<Ipv4Cidr>)
    ensures held { held.new ≡ (if socket.old.changed
        then option_map (λ config. config.address) (configuration_of socket.old)
        else held.old) }
    ensures others { socket.new ≡ record socket.old { changed = false } }
{
    match socket.poll() {
        Some(Event::Configured(config)) => *held = Some(config.address),
        Some(Event::Deconfigured) => *held = None,
        None => {}
    }
}

/// Gives the lease up: where there was one, no address is held any more. The client is due at moment 0.
pub fn give_up(socket: &mut Socket<'_>, held: &mut Option<Ipv4Cidr>)
    ensures gone { has_lease socket.old.state ≡ true → held.new ≡ None }
    ensures due { poll_at_of socket.new.state ≡ pos 0 }
    ensures told { socket.new.changed ≡ false }
    ensures settings { socket.new.settings ≡ socket.old.settings }
{
    socket.reset();
    follow(socket, held);
}
