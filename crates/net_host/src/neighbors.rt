//! The stations of the link.
ghost use Rattle.std.specs.Prelude.{◌≡◌, ◌≤◌, true, [], length};
ghost use Rattle.net_host.specs.Neighbors.{neighbor_with, with_station, learned, pair_count, place_count};
ghost use Rattle.net_host.specs.Neighbors.{first_old, has_place, is_ready, with_room};

use crate::hops::is_believed;
use host_model::Neighbor;
use managed::ManagedMap;
use net_wire::{ArpRepr, Ipv4Address};
use std::marker::Model;

/// The stations of the link that ARP packets told of, by their addresses, in places that were lent.
#[derive(Debug)]
pub(crate) struct Neighbors<'m> {
    map: ManagedMap<'m, Ipv4Address, Neighbor>,
}

impl<'m> Drop for Neighbors<'m> {
    fn drop(self) {
        let Neighbors { map } = self;
        let _ = map;
    }
}

impl<'m> Model for Neighbors<'m> {
    ghost use Rattle.net_host.specs.Neighbors.{Table};

    ghost Value = { Table };

    ghost use Rattle.net_host.specs.NeighborPlaces.{table_inside, IsTableInside};

    ghost view = { table_inside };

    ghost invariant = { IsTableInside };
}

impl<'m> Neighbors<'m> {
    /// None yet, in places that are emptied.
    pub fn new(places: &'m mut [Option<(Ipv4Address, Neighbor)>]) -> Neighbors<'m>
        ensures { result ≡ record { stations = []; places = length places.old } }
    {
        let mut map = ManagedMap::Borrowed(places);
        map.clear();
        Neighbors { map }
    }

    /// The station with an address, as its last packet told.
    pub fn get(&self, address: Ipv4Address) -> Option<Neighbor>
        ensures { result ≡ neighbor_with self.now address }
    {
        self.map.get(&address).copied()
    }

    /// Whether there is a place for a station at a time, in microseconds: a free one, its own, or that of a station of which
    /// what was told is not believed any more.
    pub fn has_place(&self, address: Ipv4Address, at: u64) -> bool
        ensures value { result ≡ has_place address at self.now }
        ensures within { pair_count self.now ≤ place_count self.now }
    {
        if self.is_ready(address) {
            return true;
        }
        self.first_old(at).is_some()
    }

    /// Takes in what an ARP packet told at a time, in microseconds. Where no place is left, a station of which what was told is not
    /// believed any more gives its place up.
    #[tactic(auto, using(crate::proofs::NeighborLemmas::made_ready))]
    pub fn learn(&mut self, told: &ArpRepr, at: u64)
        requires { has_place told.now.source_protocol_addr at self.old ≡ true }
        ensures { self.new ≡ learned told.now at self.old }
    {
        let address = told.source_protocol_addr;
        let neighbor = Neighbor {
            hardware: told.source_hardware_addr,
            since: at,
        };
        self.make_room(address, at);
        self.put(address, neighbor);
    }

    /// Whether a station may be put down.
    fn is_ready(&self, address: Ipv4Address) -> bool
        ensures value { result ≡ is_ready address self.now }
        ensures within { pair_count self.now ≤ place_count self.now }
    {
        if self.map.len() == self.place_count() {
            self.map.get(&address).is_some()
        } else {
            true
        }
    }

    fn place_count(&self) -> usize
        ensures value { result ≡ place_count self.now }
        ensures within { pair_count self.now ≤ result }
    {
        match &self.map {
            ManagedMap::Borrowed(places) => places.len(),
            ManagedMap::Owned(_) => unreachable!(),
        }
    }

    /// The first station of which what was told is not believed any more.
    fn first_old(&self, at: u64) -> Option<Ipv4Address>
        ensures { result ≡ first_old at self.now.stations }
    {
        for pair in self.map.iter() {
            if !is_believed(at, pair.1) {
                return Some(*pair.0);
            }
        }
        None
    }

    /// Lets a station give its place up, where no other place is left.
    fn make_room(&mut self, address: Ipv4Address, at: u64)
        requires { has_place address at self.old ≡ true }
        ensures { self.new ≡ with_room address at self.old }
    {
        if self.is_ready(address) {
            return;
        }
        if let Some(old) = self.first_old(at) {
            let _ = self.map.remove(&old);
        }
    }

    /// Puts a station in the place of what was told of it, or in a place of its own.
    #[tactic(auto, using(crate::proofs::NeighborLemmas::never_refused))]
    fn put(&mut self, address: Ipv4Address, neighbor: Neighbor)
        requires { is_ready address self.old ≡ true }
        ensures { self.new ≡ with_station address neighbor self.old }
    {
        match self.map.insert(address, neighbor) {
            Ok(_) => {}
            // Never: there is a place for it, and lent places take no memory.
            Err(_) => {}
        }
    }
}
