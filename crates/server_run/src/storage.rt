//! The places that a server is lent, and a copy of what it is told.
ghost use Rattle.std.specs.Prelude.{◌≡◌, length, IfOk};
ghost use Rattle.managed.specs.SortedMap.{IsVacant};
ghost use Rattle.lease_server.specs.Values.{values_of};

use lease_server::{Lease, ServerValues};
use managed::{SlotIndex, SlotKey};
use net_wire::{EthernetAddress, Instant, Ipv4Address, NoMemory};
use std::alloc::Global;

/// The same values.
pub(crate) fn copy_of(values: &ServerValues) -> Result<ServerValues, NoMemory>
    ensures { IfOk result (λ copy. values_of copy ≡ values_of values.now) }
{
    match values.clone() {
        Ok(copy) => Ok(copy),
        Err(_) => Err(NoMemory),
    }
}

/// A place for each of so many clients, all free.
pub(crate) fn free_clients(
    alloc: Global,
    count: u16,
) -> Result<Vec<Option<(EthernetAddress, SlotKey)>>, NoMemory>
    ensures length { IfOk result (λ places. length places.items ≡ count) }
    ensures empty { IfOk result (λ places. IsVacant places.items) }
{
    match vec![in alloc; None; usize::from(count)] {
        Ok(places) => Ok(places),
        Err(_) => Err(NoMemory),
    }
}

/// A place for each of so many leases.
pub(crate) fn lease_places(alloc: Global, count: u16) -> Result<Vec<Lease>, NoMemory>
    ensures { IfOk result (λ places. length places.items ≡ count) }
{
    let unused = Lease {
        client: EthernetAddress([0; 6]),
        address: Ipv4Address::UNSPECIFIED,
        until: Instant::from_micros(0),
    };
    match vec![in alloc; unused; usize::from(count)] {
        Ok(places) => Ok(places),
        Err(_) => Err(NoMemory),
    }
}

/// A slot for each of so many leases.
pub(crate) fn slot_places(alloc: Global, count: u16) -> Result<Vec<SlotIndex>, NoMemory>
    ensures { IfOk result (λ places. length places.items ≡ count) }
{
    match vec![in alloc; SlotIndex::default(); usize::from(count)] {
        Ok(places) => Ok(places),
        Err(_) => Err(NoMemory),
    }
}
