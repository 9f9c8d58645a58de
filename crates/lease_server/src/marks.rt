//! Which addresses of the range are held, marked in one walk over the clients.
ghost use Rattle.std.specs.Prelude.{◌≡◌, ℕ, ◌+◌, ◌-◌, ◌^◌, ◌<◌, ◌≤◌, false, length, Bool, slice_index_or};
ghost use Rattle.lease_server.specs.Holders.{later_end, marked};
ghost use Rattle.lease_server.specs.Holdings.{same_hardware};
ghost use Rattle.lease_server.specs.Replies.{first_free};
ghost use Rattle.lease_server.specs.State.{held_of, micros_of};
ghost use Rattle.lease_server.specs.Values.{number_of};

use crate::Lease;
use crate::values::{address_of, number_of};
use net_wire::{EthernetAddress, Instant, Ipv4Address};

/// The microseconds of an instant, from moment 0 on.
pub(crate) fn micros_of(instant: Instant) -> u64
    ensures { result ≡ micros_of instant }
{
    let micros = instant.total_micros();
    if micros < 0 { 0 } else { micros as u64 }
}

/// The instant of a number of microseconds from moment 0 on.
pub(crate) fn instant_at(micros: u64) -> Instant
    requires { micros < 2 ^ 63 }
    ensures { micros_of result ≡ micros }
{
    Instant::from_micros(micros as i64)
}

/// The end of a lease of an address, which does not come sooner than it was.
pub(crate) fn later(lease: Lease, address: Ipv4Address, end: u64) -> Instant
    requires { end < 2 ^ 63 }
    ensures { micros_of result ≡ later_end (held_of lease) address end }
{
    if number_of(lease.address) == number_of(address) && end < micros_of(lease.until) {
        return lease.until;
    }
    instant_at(end)
}

/// Whether two hardware addresses are the same.
pub(crate) fn is_same(one: EthernetAddress, other: EthernetAddress) -> bool
    ensures { result ≡ same_hardware one other }
{
    one == other
}

/// Marks the address of a lease that is held at an instant.
pub(crate) fn mark(taken: &mut [bool], first: u32, at: u64, lease: Lease)
    requires from { first ≤ number_of lease.address }
    requires within { number_of lease.address < first + length taken.old }
    ensures { taken.new ≡ marked taken.old first at lease }
{
    if at < micros_of(lease.until) {
        taken[(number_of(lease.address) - first) as usize] = true;
    }
}

/// The first address that is not marked.
#[tactic(auto, using(crate::proofs::RangeLemmas::free_here, crate::proofs::RangeLemmas::free_later))]
pub(crate) fn first_unmarked(taken: &[bool], first: u32, count: u16) -> Option<Ipv4Address>
    requires room { count ≤ length taken.now }
    requires within { first + count ≤ 4294967296 }
    ensures { (test : ℕ → Bool) → ((place : ℕ) → place < count → slice_index_or taken.now place false ≡ test (first + place))
        → result ≡ first_free test first count }
{
    for place in 0..u32::from(count) {
        if !taken[place as usize] {
            return Some(address_of(first + place));
        }
    }
    None
}
