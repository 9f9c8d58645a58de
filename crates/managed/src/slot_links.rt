//! Which places of a slot map are in use.
ghost use Rattle.std.specs.Prelude.{◌≡◌, ◌↔◌, ◌<◌, ◌≤◌, length, [], Some, IsTrue, IsNone, IfSome, OnSome, IfNone};
ghost use Rattle.managed.specs.Elements.{elements_in};
ghost use Rattle.managed.specs.SlotLinks.{link_in};
ghost use Rattle.managed.specs.SlotTable.{unused, generation_at, generation_after, IsLiveKey, IsFullTable, key_handed_out, handed_out, freed_at, last_generation};

use crate::elements::Elements;
use crate::slot_key::{SlotIndex, SlotKey, SlotState};
use std::marker::Model;

// The generations go up to here.
const LAST_GENERATION: u64 = i64::MAX as u64;

// The places in use, and the free ones, which are linked inside the slots.
#[derive(Drop)]
pub(crate) struct SlotLinks<'a> {
    slots: Elements<'a, SlotIndex>,
    capacity: usize,
    next_place: usize,
    free_count: usize,
    first_free: usize,
    next_generation: u64,
}

impl<'a> Model for SlotLinks<'a> {
    ghost use Rattle.managed.specs.SlotTable.{SlotUse, use_code};

    ghost Value = { SlotUse };

    ghost coded = { use_code };

    ghost use Rattle.managed.specs.Elements.{elements_in};
    ghost use Rattle.managed.specs.SlotLinks.{IsSound, use_of};

    ghost view = { λ s. use_of (elements_in s.slots) s.next_place s.free_count s.first_free s.next_generation s.capacity };

    ghost invariant = { λ s. IsSound (elements_in s.slots) s.next_place s.free_count s.first_free s.next_generation s.capacity };
}

// The generation after one.
fn generation_after(generation: u64) -> u64
    requires { generation ≤ last_generation }
    ensures { result ≡ generation_after generation }
{
    if generation == LAST_GENERATION {
        1
    } else {
        generation + 1
    }
}

// The free place that a free slot names.
fn link_of(slots: &Elements<'_, SlotIndex>, place: usize) -> usize
    requires { place < length (elements_in slots.now) }
    ensures { result ≡ link_in (elements_in slots.now) place }
{
    match slots.as_slice()[place].state {
        SlotState::Free(next) => next,
        SlotState::InUse(_) => 0,
    }
}

fn used_slot(generation: u64) -> SlotIndex
    ensures { result ≡ record { state = SlotState.InUse generation } }
{
    SlotIndex {
        state: SlotState::InUse(generation),
    }
}

fn free_slot(next: usize) -> SlotIndex
    ensures { result ≡ record { state = SlotState.Free next } }
{
    SlotIndex {
        state: SlotState::Free(next),
    }
}

impl<'a> SlotLinks<'a> {
    pub(crate) fn new(slots: Elements<'a, SlotIndex>, capacity: usize) -> Self
        requires fits { capacity ≤ length (elements_in slots) }
        requires small { capacity < last_generation }
        ensures { result ≡ unused capacity }
    {
        SlotLinks {
            slots,
            capacity,
            next_place: 0,
            free_count: 0,
            first_free: 0,
            next_generation: 1,
        }
    }

    // Whether a key is in the table.
    pub(crate) fn is_live(&self, key: SlotKey) -> bool
        ensures live { IsTrue result ↔ IsLiveKey self.now key }
        ensures within { IsTrue result → key.place < self.now.capacity }
    {
        if key.place >= self.next_place {
            return false;
        }
        match self.slots.as_slice()[key.place].state {
            SlotState::InUse(generation) => generation == key.generation,
            SlotState::Free(_) => false,
        }
    }

    // The key that is handed out next, while a place is left for it.
    pub(crate) fn next_key(&self) -> SlotKey
        ensures value { result ≡ key_handed_out self.now }
        ensures room { self.now.capacity ≤ result.place → IsFullTable self.now }
    {
        let generation = self.next_generation;
        if self.free_count > 0 {
            let place = self.first_free;
            return SlotKey { place, generation };
        }
        let place = self.next_place;
        SlotKey { place, generation }
    }

    // Hands a key out.
    pub(crate) fn take(&mut self) -> Option<SlotKey>
        ensures value { IfSome result (λ key. key ≡ key_handed_out self.old) }
        ensures within { IfSome result (λ key. key.place < self.old.capacity) }
        ensures written { OnSome result (self.new ≡ handed_out self.old) }
        ensures empty { IfNone result (self.new ≡ self.old) }
        ensures refuses { IsNone result ↔ IsFullTable self.old }
    {
        if self.free_count > 0 {
            return Some(self.take_free());
        }
        if self.next_place < self.capacity {
            return Some(self.take_new());
        }
        None
    }

    // Hands the place out that was freed last.
    fn take_free(&mut self) -> SlotKey
        requires { 0 < length self.old.freed }
        ensures value { result ≡ key_handed_out self.old }
        ensures within { result.place < self.old.capacity }
        ensures written { self.new ≡ handed_out self.old }
        ensures room { IsFullTable self.old → ⊥ }
    {
        let place = self.first_free;
        let generation = self.next_generation;
        let next = link_of(&self.slots, place);
        self.slots.set(place, used_slot(generation));
        self.first_free = next;
        self.free_count -= 1;
        self.next_generation = generation_after(generation);
        SlotKey { place, generation }
    }

    // Hands a place out that never was.
    fn take_new(&mut self) -> SlotKey
        requires none_free { self.old.freed ≡ [] }
        requires room { length self.old.generations < self.old.capacity }
        ensures value { result ≡ key_handed_out self.old }
        ensures within { result.place < self.old.capacity }
        ensures written { self.new ≡ handed_out self.old }
        ensures room { IsFullTable self.old → ⊥ }
    {
        let place = self.next_place;
        let generation = self.next_generation;
        self.slots.set(place, used_slot(generation));
        self.next_place += 1;
        self.next_generation = generation_after(generation);
        SlotKey { place, generation }
    }

    // Frees the place of a key.
    pub(crate) fn free(&mut self, key: SlotKey)
        requires { IsLiveKey self.old key }
        ensures { self.new ≡ freed_at self.old key.place }
    {
        let first = self.first_free;
        self.slots.set(key.place, free_slot(first));
        self.first_free = key.place;
        self.free_count += 1;
    }
}
