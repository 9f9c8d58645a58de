//! A table of slots, over storage that its user gives.
ghost use Rattle.std.specs.Prelude.{◌≡◌, ◌↔◌, ◌<◌, min, length, Some, IsSome, IsNone, IsTrue, IsFalse, IfSome, OnSome, IfNone, slice_get, slice_set};
ghost use Rattle.std.specs.Borrow.{sem};
ghost use Rattle.managed.specs.Storage.{items_of};
ghost use Rattle.managed.specs.ItemLoans.{lends_item};
ghost use Rattle.std.specs.Fn.{FnOnceTakesAtMut};
ghost use Rattle.std.specs.Option.{ghost_name_of, option_map, ForSome};
ghost use Rattle.managed.specs.Updates.{IsWrittenAt, Leaves};
ghost use Rattle.managed.specs.SlotLoans.{entry_name};
ghost use Rattle.managed.specs.SlotTable.{unused, IsLiveKey, IsFullTable, key_handed_out, place_handed_out, handed_out, freed_at, last_generation};

use crate::ManagedSlice;
use crate::elements::{Elements, put, write_at};
use crate::slot_key::{SlotIndex, SlotKey};
use crate::slot_links::SlotLinks;

/// Elements under keys that find nothing once their element is removed.
#[derive(Drop)]
pub struct SlotMap<'a, T> {
    borrowed: &'a mut [T],
    owned: Option<Vec<T>>,
    links: SlotLinks<'a>,
}

impl<'a, T> SlotMap<'a, T> {
    ghost use Rattle.managed.specs.SlotMap.{elements_of, places_of, IsWhole, AsBefore};
    ghost use Rattle.managed.specs.SlotLoans.{lends_element, lends_removed, lends_reserved, lends_handed_out, lends_borrowed, lends_borrowed_item, lends_owned_item};

    /// A table with no key in it. It has as many places as the shorter list, and reads no given slot.
    pub fn new(elements: ManagedSlice<'a, T>, slots: ManagedSlice<'a, SlotIndex>) -> Self
        requires { min (length (items_of elements)) (length (items_of slots)) < last_generation }
        ensures elements { elements_of result ≡ items_of elements.entry }
        ensures places { places_of result ≡ unused (min (length (items_of elements.entry)) (length (items_of slots.entry))) }
        ensures within { IsWhole result }
    {
        let capacity = elements.as_slice().len().min(slots.as_slice().len());
        let Elements { borrowed, owned } = Elements::new(elements);
        SlotMap {
            borrowed,
            owned,
            links: SlotLinks::new(Elements::new(slots), capacity),
        }
    }

    /// The element of a key, if the key is in the table.
    pub fn get(&self, index: SlotKey) -> Option<&T>
        ensures found { IsWhole self.now → (IsSome result ↔ IsLiveKey (places_of self.now) index) }
        ensures cause { IsSome result → IsLiveKey (places_of self.now) index }
        ensures value { IfSome result (λ element. Some element.now ≡ slice_get (elements_of self.now) index.place) }
    {
        if !self.links.is_live(index) {
            return None;
        }
        self.element(index.place)
    }

    /// The element of a key for writing, if the key is in the table.
    pub fn get_mut(&mut self, index: SlotKey) -> Option<&mut T>
        ensures* written { sem 𝓛 (lends_element T.row self.entry index.place result) }
        ensures found { IsWhole self.old → (IsSome result ↔ IsLiveKey (places_of self.old) index) }
        ensures cause { IsSome result → IsLiveKey (places_of self.old) index }
        ensures value { IfSome result (λ element. Some element.now ≡ slice_get (elements_of self.old) index.place) }
    {
        if !self.has(index) {
            return None;
        }
        self.lend(index.place)
    }

    /// Hands a key out, with the element that lies at its place. It is `insert` for a caller that keeps
    /// what lies there.
    pub fn reserve(&mut self) -> Option<(SlotKey, &mut T)>
        ensures* written { sem 𝓛 (lends_reserved T.row self.entry result) }
        ensures refuses { IsWhole self.old → (IsNone result ↔ IsFullTable (places_of self.old)) }
        ensures key { IfSome result (λ entry. entry.0 ≡ key_handed_out (places_of self.old)) }
        ensures value { IfSome result (λ entry. Some entry.1.now ≡ slice_get (elements_of self.old) entry.0.place) }
    {
        let key = self.next_key();
        beside(key, self.lend_next())
    }

    // The key that is handed out next. It changes nothing, and takes the table as its caller has it.
    fn next_key(&mut self) -> SlotKey
        ensures value { result ≡ key_handed_out (places_of self.old) }
        ensures empty { self.new ≡ self.old }
    {
        self.links.next_key()
    }

    // Hands a key out, and lends the element that lies at its place.
    fn lend_next(&mut self) -> Option<&mut T>
        ensures* written { sem 𝓛 (lends_handed_out T.row self.entry result) }
        ensures refuses { IsWhole self.old → (IsNone result ↔ IsFullTable (places_of self.old)) }
        ensures value { IfSome result (λ element. Some element.now ≡ slice_get (elements_of self.old) (place_handed_out (places_of self.old))) }
    {
        let place = self.links.next_key().place;
        if self.element(place).is_none() {
            return None;
        }
        self.links.take()?;
        self.lend(place)
    }

    /// Hands a key out, as `reserve` does, and lends nothing.
    pub fn hand_out(&mut self) -> Option<SlotKey>
        ensures value { IfSome result (λ key. key ≡ key_handed_out (places_of self.old)) }
        ensures room { IfSome result (λ key. key.place < (places_of self.old).capacity) }
        ensures places { OnSome result (places_of self.new ≡ handed_out (places_of self.old)) }
        ensures others { elements_of self.new ≡ elements_of self.old }
        ensures empty { IfNone result (AsBefore self.old self.new) }
        ensures refuses { IsNone result ↔ IsFullTable (places_of self.old) }
        ensures within { IsWhole self.old → IsWhole self.new }
    {
        self.links.take()
    }

    /// Puts a value in, and gives its key. The element that lay at the place is dropped.
    pub fn insert(&mut self, value: T) -> Option<SlotKey>
    where
        T: Drop,
        ensures value { IfSome result (λ key. key ≡ key_handed_out (places_of self.old)) }
        ensures places { IfSome result (λ key. places_of self.new ≡ handed_out (places_of self.old)) }
        ensures written { IfSome result (λ key. elements_of self.new ≡ slice_set (elements_of self.old) key.place value) }
        ensures empty { IfNone result (AsBefore self.old self.new) }
        ensures refuses { IsNone result ↔ IsFullTable (places_of self.old) }
        ensures within { IsWhole self.old → IsWhole self.new }
    {
        let Some(key) = self.hand_out() else {
            return None;
        };
        self.set(key.place, value);
        Some(key)
    }

    /// Takes a key out of the table, and gives the element that stays at its place, for a caller that
    /// takes something out of it.
    pub fn remove(&mut self, index: SlotKey) -> Option<&mut T>
        ensures* written { sem 𝓛 (lends_removed T.row self.entry index.place result) }
        ensures found { IsWhole self.old → (IsSome result ↔ IsLiveKey (places_of self.old) index) }
        ensures cause { IsSome result → IsLiveKey (places_of self.old) index }
        ensures value { IfSome result (λ element. Some element.now ≡ slice_get (elements_of self.old) index.place) }
    {
        if !self.has(index) {
            return None;
        }
        self.links.free(index);
        self.lend(index.place)
    }

    /// Takes a key out of the table, as `remove` does, and tells whether it was there.
    pub fn discard(&mut self, key: SlotKey) -> bool
        ensures found { IsTrue result ↔ IsLiveKey (places_of self.old) key }
        ensures places { IsTrue result → places_of self.new ≡ freed_at (places_of self.old) key.place }
        ensures others { elements_of self.new ≡ elements_of self.old }
        ensures empty { IsFalse result → AsBefore self.old self.new }
        ensures within { IsWhole self.old → IsWhole self.new }
    {
        if !self.links.is_live(key) {
            return false;
        }
        self.links.free(key);
        true
    }

    /// Puts a value in the place of a key's element, and tells whether the key was there.
    pub fn replace(&mut self, index: SlotKey, value: T) -> bool
    where
        T: Drop,
        ensures found { IsTrue result ↔ IsLiveKey (places_of self.old) index }
        ensures written { IsTrue result → elements_of self.new ≡ slice_set (elements_of self.old) index.place value }
        ensures others { places_of self.new ≡ places_of self.old }
        ensures empty { IsFalse result → AsBefore self.old self.new }
        ensures within { IsWhole self.old → IsWhole self.new }
    {
        if !self.links.is_live(index) {
            return false;
        }
        self.set(index.place, value);
        true
    }

    /// Calls a closure at a key's element, to write it, and tells whether the key was there.
    pub fn write<F: FnOnce(&mut T)>(&mut self, index: SlotKey, f: F) -> bool
        requires { ForSome (slice_get (elements_of self.old) index.place) (FnOnceTakesAtMut F.FnOnce f) }
        ensures found { IsWhole self.old → (IsTrue result ↔ IsLiveKey (places_of self.old) index) }
        ensures cause { IsTrue result → IsLiveKey (places_of self.old) index }
        ensures room { IsTrue result → index.place < length (elements_of self.new) }
        ensures written { IsTrue result → IsWrittenAt F.FnOnce f (elements_of self.old) index.place (elements_of self.new) }
        ensures value { (h : T → T) → Leaves F.FnOnce f h → IsTrue result
            → slice_get (elements_of self.new) index.place ≡ option_map h (slice_get (elements_of self.old) index.place) }
        ensures others { places_of self.new ≡ places_of self.old }
        ensures empty { IsFalse result → AsBefore self.old self.new }
        ensures within { IsWhole self.old → IsWhole self.new }
    {
        if !self.has(index) {
            return false;
        }
        self.write_item(index.place, f);
        true
    }

    // Calls a closure at the element of a place.
    fn write_item<F: FnOnce(&mut T)>(&mut self, place: usize, f: F)
        requires room { place < length (elements_of self.old) }
        requires callable { ForSome (slice_get (elements_of self.old) place) (FnOnceTakesAtMut F.FnOnce f) }
        ensures others { places_of self.new ≡ places_of self.old }
        ensures written { IsWrittenAt F.FnOnce f (elements_of self.old) place (elements_of self.new) }
    {
        match &mut self.owned {
            Some(items) => write_at(items, place, f),
            None => write_at(self.borrowed, place, f),
        }
    }

    fn element(&self, place: usize) -> Option<&T>
        ensures found { IsSome result ↔ (place < length (elements_of self.now)) }
        ensures value { IfSome result (λ element. Some element.now ≡ slice_get (elements_of self.now) place) }
    {
        match &self.owned {
            Some(items) => items.get(place),
            None => self.borrowed.get(place),
        }
    }

    // Whether a key is in the table, and its place has an element.
    fn has(&self, key: SlotKey) -> bool
        ensures cause { IsTrue result → IsLiveKey (places_of self.now) key }
        ensures within { IsTrue result → key.place < length (elements_of self.now) }
        ensures found { IsWhole self.now → IsLiveKey (places_of self.now) key → IsTrue result }
    {
        self.links.is_live(key) && self.element(key.place).is_some()
    }

    // Writes an element, and nothing where there is none at the place.
    fn set(&mut self, place: usize, element: T)
    where
        T: Drop,
        ensures others { places_of self.new ≡ places_of self.old }
        ensures written { elements_of self.new ≡ slice_set (elements_of self.old) place element }
    {
        match &mut self.owned {
            Some(items) => put(items, place, element),
            None => put(self.borrowed, place, element),
        }
    }

    fn borrowed_items(&mut self) -> &mut [T]
        ensures* written { sem 𝓛 (lends_borrowed T.row self.entry result) }
        ensures value { result.now ≡ self.old.borrowed.now }
    {
        self.borrowed
    }

    fn borrowed_item(&mut self, place: usize) -> &mut T
        requires { place < length self.old.borrowed.now }
        ensures* written { sem 𝓛 (lends_borrowed_item T.row self.entry place result) }
        ensures value { Some result.now ≡ slice_get self.old.borrowed.now place }
    {
        item_of(self.borrowed_items(), place)
    }

    fn owned_item(&mut self, place: usize) -> Option<&mut T>
        ensures* written { sem 𝓛 (lends_owned_item T.row self.entry place result) }
        ensures found { IsSome self.old.owned → (IsSome result ↔ (place < length (elements_of self.old))) }
        ensures value { IsSome self.old.owned → IfSome result (λ element. Some element.now ≡ slice_get (elements_of self.old) place) }
    {
        match &mut self.owned {
            Some(items) => items.get_mut(place),
            None => None,
        }
    }

    // The element at a place, for writing.
    fn lend(&mut self, place: usize) -> Option<&mut T>
        ensures* written { sem 𝓛 (lends_element T.row self.entry place result) }
        ensures found { IsSome result ↔ (place < length (elements_of self.old)) }
        ensures value { IfSome result (λ element. Some element.now ≡ slice_get (elements_of self.old) place) }
    {
        if self.owned.is_some() {
            return self.owned_item(place);
        }
        if place < self.borrowed.len() {
            return Some(self.borrowed_item(place));
        }
        None
    }
}

// The key and the element in one.
fn beside<'a, T>(key: SlotKey, element: Option<&'a mut T>) -> Option<(SlotKey, &'a mut T)>
    ensures same { entry_name result ≡ ghost_name_of element.entry }
    ensures found { IsNone result ↔ IsNone element.entry }
    ensures key { IfSome result (λ entry. entry.0 ≡ key) }
    ensures value { IfSome result (λ entry. Some entry.1 ≡ element.entry) }
{
    Some((key, element?))
}

fn item_of<T>(items: &mut [T], place: usize) -> &mut T
    requires { place < length items.old }
    ensures* written { sem 𝓛 (lends_item T.row items.entry place result) }
    ensures value { Some result.now ≡ slice_get items.old place }
{
    &mut items[place]
}
