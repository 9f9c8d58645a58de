//! The next hop of a datagram (RFC 1122, section 3.3.1).
ghost use Rattle.std.specs.Prelude.{◌≡◌};
ghost use Rattle.host_model.specs.Neighbor.{front_bits, is_on_network, hop_address, hop_of};
ghost use Rattle.net_host.specs.Neighbors.{is_believed};

use host_model::{Held, Neighbor};
use net_wire::{EthernetAddress, Ipv4Address};

/// What a station told is believed for less than 60 seconds.
const BELIEVED_MICROS: u64 = 60_000_000;

/// The first so many bits of an address, as a number.
fn front_bits(bits: u8, address: Ipv4Address) -> u64
    ensures { result ≡ front_bits bits address }
{
    u64::from(u32::from_be_bytes(address.0)) >> 32u8.saturating_sub(bits)
}

/// Whether a destination is on the network of the held address.
fn is_on_network(held: &Held, destination: Ipv4Address) -> bool
    ensures { result ≡ is_on_network held.now destination }
{
    let bits = held.address.prefix_len;
    front_bits(bits, destination) == front_bits(bits, held.address.address)
}

/// The address of the next hop; `None` where nothing is held, or where there is no router to a
/// destination that is not on the network.
pub(crate) fn hop_address(held: Option<Held>, destination: Ipv4Address) -> Option<Ipv4Address>
    ensures { result ≡ hop_address held destination }
{
    let held = held?;
    if is_on_network(&held, destination) {
        Some(destination)
    } else {
        held.router
    }
}

/// The hardware address of a station at a time in microseconds, while what it told is believed.
pub(crate) fn hop_of(at: u64, neighbor: Option<Neighbor>) -> Option<EthernetAddress>
    ensures { result ≡ hop_of at neighbor }
{
    let neighbor = neighbor?;
    if is_believed(at, &neighbor) {
        Some(neighbor.hardware)
    } else {
        None
    }
}

/// Whether what a station told is believed at a time in microseconds.
pub(crate) fn is_believed(at: u64, neighbor: &Neighbor) -> bool
    ensures { result ≡ is_believed at neighbor.now }
{
    at.saturating_sub(neighbor.since) < BELIEVED_MICROS
}
